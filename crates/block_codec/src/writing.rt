//! Writing headers and blocks.

ghost use Rattle.std.specs.Prelude.{◌≡◌, ◌+◌, ◌++◌, length, OnOk, OnErr};
ghost use Rattle.block_codec.specs.Text.{block_text, header_text};

use crate::block::{Block, Header};
use crate::encoder::Appender;
use crate::encoding::{put_block, put_header};
use base_types::Hash32;
use std::alloc::AllocError;
use std::mem;

/// Adds the text of a block: where `read_block` can give this block, the bytes of which it gives it. Where memory runs
/// out nothing is added.
pub fn write_block(out: &mut Vec<u8>, block: &Block) -> Result<(), AllocError>
    ensures ok { OnOk result (out.new.items ≡ out.old.items ++ block_text block.now) }
    ensures err { OnErr result (out.new.items ≡ out.old.items) }
{
    let empty = Vec::new(*out.allocator());
    let mut appender = Appender::new(mem::replace(out, empty));
    put_block(&mut appender, block);
    let (bytes, result) = appender.finish();
    *out = bytes;
    result
}

// A hash has 32 bytes, of which the language speaks where it is passed by value.
fn has_32_bytes(hash: Hash32)
    ensures { length hash.bytes ≡ 32 }
{
    let _bytes = hash;
}

/// Adds the 80 bytes of a header. Where memory runs out nothing is added.
pub fn write_header(out: &mut Vec<u8>, header: &Header) -> Result<(), AllocError>
    ensures ok { OnOk result (out.new.items ≡ out.old.items ++ header_text header.now) }
    ensures len { OnOk result (length out.new.items ≡ length out.old.items + 80) }
    ensures err { OnErr result (out.new.items ≡ out.old.items) }
{
    has_32_bytes(header.prev);
    has_32_bytes(header.root);
    let empty = Vec::new(*out.allocator());
    let mut appender = Appender::new(mem::replace(out, empty));
    put_header(&mut appender, header);
    let (bytes, result) = appender.finish();
    *out = bytes;
    result
}
