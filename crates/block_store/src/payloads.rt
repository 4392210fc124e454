//! The payloads of the two files as bytes.

ghost use Rattle.std.specs.Prelude.{◌≡◌, ◌≤◌, ◌*◌, ℕ, List, Some, IsTrue, length, IfOk, OnOk};
ghost use Rattle.batch_log.specs.Records.{payload_in};
ghost use Rattle.block_codec.specs.Text.{text_of};
ghost use Rattle.block_store.specs.Headers.{headers_text, headers_of, is_headers_length};
ghost use Rattle.block_store.specs.Bodies.{body_text, body_hash, body_of};

use crate::header_list::HeaderList;
use crate::payload_kind::{HEADER_LEN, PayloadKind};
use crate::ranges::{has_32_bytes, headers_fit};
use base_types::{Cursor, Hash32};
use block_codec::{Block, BlockFault, Header, read_header, write_block, write_header};
use std::alloc::{AllocError, Global};

// The bytes of a record that stand before its payload, behind the gate: the payload's length.
const LENGTH_LEN: usize = 4;

/// Sets bytes to the payload of these headers, with room before and behind it for what a log writes there.
#[tactic(auto, using(crate::proofs::PayloadLaws::headers_read_again, crate::proofs::PayloadLaws::payload_framed))]
pub(crate) fn write_headers(out: &mut Vec<u8>, headers: &[Header]) -> Result<(), AllocError>
    requires { length headers.now ≤ 1000 }
    ensures payload { OnOk result (payload_in out.new.items ≡ headers_text headers.now) }
    ensures len { OnOk result (length (headers_text headers.now) ≡ 80 * length headers.now) }
    ensures room { OnOk result (5 ≤ length out.new.items) }
    ensures again { 1 ≤ length headers.now → headers_of (headers_text headers.now) ≡ Some headers.now }
{
    headers_fit(headers);
    out.clear();
    out.reserve(LENGTH_LEN + HEADER_LEN as usize * headers.len() + 1)?;
    out.extend_from_slice(&[0; LENGTH_LEN])?;
    for header in headers {
        write_header(out, header)?;
    }
    out.push(0)?;
    Ok(())
}

/// The headers that a payload of the headers' file is: any 80 bytes are one. None where it has a wrong length.
pub fn payload_headers(alloc: Global, payload: &[u8]) -> Result<Option<HeaderList>, AllocError>
    ensures { IfOk result (λ found. found ≡ headers_of payload.now) }
{
    let Ok(len) = u32::try_from(payload.len()) else {
        return Ok(None);
    };
    if !PayloadKind::Headers.has_length(len) {
        return Ok(None);
    }
    Ok(Some(read_headers(alloc, payload)?))
}

/// The headers that a payload of a right length is.
pub(crate) fn read_headers(alloc: Global, payload: &[u8]) -> Result<HeaderList, AllocError>
    requires { IsTrue (is_headers_length (length payload.now)) }
    ensures { IfOk result (λ headers. Some headers ≡ headers_of payload.now) }
{
    let count = payload.len() / HEADER_LEN as usize;
    let mut headers = HeaderList::with_capacity(alloc, count)?;
    let mut cursor = Cursor::new(payload);
    for _ in 0..count {
        match read_header(&mut cursor) {
            Ok(header) => headers.push(header)?,
            Err(BlockFault::NoMemory) => return Err(AllocError),
            // Any 80 bytes are a header.
            Err(BlockFault::Bad { .. }) => unreachable!(),
        }
    }
    Ok(headers)
}

/// Sets bytes to the payload of a block under its hash, with room before and behind it for what a log writes there.
#[tactic(auto, using(crate::proofs::PayloadLaws::hash_again, crate::proofs::PayloadLaws::body_again, crate::proofs::PayloadLaws::payload_framed))]
pub(crate) fn write_body(out: &mut Vec<u8>, hash: &Hash32, block: &Block) -> Result<(), AllocError>
    ensures payload { OnOk result (payload_in out.new.items ≡ body_text hash.now block.now) }
    ensures room { OnOk result (5 ≤ length out.new.items) }
    ensures carries { body_hash (body_text hash.now block.now) ≡ Some hash.now }
    ensures again { (text : List ℕ) → text_of block.now ≡ Some text → body_of (body_text hash.now block.now) ≡ Some block.now }
{
    has_32_bytes(&hash.bytes);
    out.clear();
    out.extend_from_slice(&[0; LENGTH_LEN])?;
    out.extend_from_slice(&hash.bytes)?;
    write_block(out, block)?;
    out.push(0)?;
    Ok(())
}
