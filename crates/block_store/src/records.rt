//! Reading the payloads of records.

ghost use Rattle.std.specs.Prelude.{◌≡◌, ◌-◌, ◌≤◌, ℕ, Contains, IsTrue, IfOk, IfErr, IsSome, IsSomeAnd, MatchResult, List, Some, None, length, drop, slice_get};
ghost use Rattle.std.specs.Option.{option_and_then};
ghost use Rattle.disk_model.specs.Disk.{Quiet, Told};
ghost use Rattle.batch_log.specs.OpenLog.{Stands};
ghost use Rattle.batch_log.specs.Reading.{OnDamaged, ReadAtMost};
ghost use Rattle.block_codec.specs.Text.{text_of};
ghost use Rattle.block_store.specs.Headers.{headers_of, is_headers_length};
ghost use Rattle.block_store.specs.Bodies.{body_of};
ghost use Rattle.block_store.specs.Reading.{whole_part, block_there, FetchCause, NoDamage};

use crate::header_list::HeaderRecord;
use crate::payload_kind::{HASH_LEN, PayloadKind};
use crate::payloads::read_headers;
use base_types::StoreFault;
use batch_log::{Log, Place};
use block_codec::{Block, BlockFault, read_block};
use disk_model::Disk;
use std::alloc::Global;

/// Reads the bytes of a payload from this one on, with one device call. `Damaged` where fewer bytes came.
pub fn read_payload<D: Disk>(
    alloc: Global,
    disk: &mut D,
    log: &Log,
    place: Place,
    from: u32,
) -> Result<Vec<u8>, StoreFault>
    requires listed { Contains log.now.places place }
    requires within { from ≤ place.len }
    ensures bytes { Told (D.contents disk.old) (λ m. IfOk result (λ bytes. whole_part place from (m log.now.file) ≡ Some bytes.items)) }
    ensures short { Told (D.contents disk.old) (λ m. IfErr result (λ fault. OnDamaged fault (whole_part place from (m log.now.file) ≡ None))) }
    ensures payload { (payloads : List (List ℕ)) (i : ℕ) (payload : List ℕ) → Stands (D.contents disk.old) (D.left_since disk.old (D.time disk.old)) log.now payloads
        → slice_get log.now.places i ≡ Some place → slice_get payloads i ≡ Some payload → IfOk result (λ bytes. bytes.items ≡ drop from payload) × IfErr result NoDamage }
    ensures len { IfOk result (λ bytes. length bytes.items ≡ place.len - from) }
    ensures cause { IfErr result (FetchCause log.now.file place.at (D.faults disk.old) (D.faults disk.new)) }
    ensures faults { D.faults disk.old ≤ D.faults disk.new }
    ensures contents { D.contents disk.new ≡ D.contents disk.old }
    ensures quiet { Quiet D.time D.left_since disk.old disk.new }
    ensures read { ReadAtMost log.now.file (place.len - from) (D.bytes_read disk.old) (D.bytes_read disk.new) }
{
    let mut bytes = vec![in alloc; 0; (place.len - from) as usize]?;
    log.read_part(disk, place, from, &mut bytes)?;
    Ok(bytes)
}

/// The place of a payload, counted from 0.
pub(crate) fn place_at(log: &Log, number: u64) -> Option<Place>
    ensures { result ≡ slice_get log.now.places number }
{
    log.places().get(number as usize).copied()
}

/// Reads the headers of a record, of a right length.
pub(crate) fn read_record<D: Disk>(
    alloc: Global,
    disk: &mut D,
    log: &Log,
    place: Place,
) -> Result<Option<HeaderRecord>, StoreFault>
    requires listed { Contains log.now.places place }
    requires right { IsTrue (is_headers_length place.len) }
    requires file { log.now.file ≡ 1 }
    ensures found { Told (D.contents disk.old) (λ m. IfOk result (λ found. IsSomeAnd found (λ here. (option_and_then headers_of (whole_part place 0 (m 1)) ≡ Some here.headers) × (here.at ≡ place.at)))) }
    ensures damaged { Told (D.contents disk.old) (λ m. IfErr result (λ fault. OnDamaged fault (whole_part place 0 (m 1) ≡ None))) }
    ensures payload { (payloads : List (List ℕ)) (i : ℕ) (payload : List ℕ) → Stands (D.contents disk.old) (D.left_since disk.old (D.time disk.old)) log.now payloads
        → slice_get log.now.places i ≡ Some place → slice_get payloads i ≡ Some payload → IfOk result (λ found. IsSomeAnd found (λ here. headers_of payload ≡ Some here.headers)) × IfErr result NoDamage }
    ensures cause { IfOk result IsSome × IfErr result (FetchCause 1 place.at (D.faults disk.old) (D.faults disk.new)) }
    ensures faults { D.faults disk.old ≤ D.faults disk.new }
    ensures contents { D.contents disk.new ≡ D.contents disk.old }
    ensures quiet { Quiet D.time D.left_since disk.old disk.new }
    ensures read { ReadAtMost 1 place.len (D.bytes_read disk.old) (D.bytes_read disk.new) }
{
    let payload = read_payload(alloc, disk, log, place, 0)?;
    let headers = read_headers(alloc, &payload)?;
    Ok(Some(HeaderRecord {
        headers,
        at: place.at,
    }))
}

/// Reads the block behind the hash of a body.
pub(crate) fn read_body<D: Disk>(
    alloc: Global,
    disk: &mut D,
    log: &Log,
    place: Place,
) -> Result<Option<Block>, StoreFault>
    requires listed { Contains log.now.places place }
    requires within { 32 ≤ place.len }
    requires file { log.now.file ≡ 2 }
    ensures found { Told (D.contents disk.old) (λ m. MatchResult result (λ found. (block_there place (m 2) ≡ found) × IsSomeAnd found (λ block. text_of block ≡ whole_part place 32 (m 2)))
        (λ fault. OnDamaged fault (block_there place (m 2) ≡ None))) }
    ensures payload { (payloads : List (List ℕ)) (i : ℕ) (payload : List ℕ) → Stands (D.contents disk.old) (D.left_since disk.old (D.time disk.old)) log.now payloads
        → slice_get log.now.places i ≡ Some place → slice_get payloads i ≡ Some payload
        → MatchResult result (λ found. body_of payload ≡ found) (λ fault. OnDamaged fault (body_of payload ≡ None)) }
    ensures cause { IfOk result IsSome × IfErr result (FetchCause 2 place.at (D.faults disk.old) (D.faults disk.new)) }
    ensures faults { D.faults disk.old ≤ D.faults disk.new }
    ensures contents { D.contents disk.new ≡ D.contents disk.old }
    ensures quiet { Quiet D.time D.left_since disk.old disk.new }
    ensures read { ReadAtMost 2 (place.len - 32) (D.bytes_read disk.old) (D.bytes_read disk.new) }
{
    let text = read_payload(alloc, disk, log, place, HASH_LEN)?;
    match read_block(alloc, &text) {
        Ok(block) => Ok(Some(block)),
        Err(BlockFault::NoMemory) => Err(StoreFault::NoMemory),
        Err(BlockFault::Bad { .. }) => Err(StoreFault::Damaged {
            file: PayloadKind::Bodies.file(),
            at: place.at,
        }),
    }
}
