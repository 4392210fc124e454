//! Logs of records.

ghost use Rattle.std.specs.Prelude.{◌≡◌, ◌++◌, ℕ, List, Some, Ok, IfOk, OnOk, Contains, slice_get};
ghost use Rattle.std.specs.List.{flat_map};
ghost use Rattle.disk_model.specs.Disk.{Quiet};
ghost use Rattle.disk_model.specs.MemDisk.{contents_of};
ghost use Rattle.batch_log.specs.OpenLog.{Stands};
ghost use Rattle.coins_inspect.specs.Reports.{end_line};
ghost use Rattle.coins_inspect.specs.LogReports.{record_line, damaged_line, IsDamage, stored_header_line, body_report, payload_lines, log_lines, log_report};

use crate::blocks::block;
use crate::form::Payload;
use crate::names::put_end;
use crate::words::Word::{Hash, Number, Text};
use crate::words::put_line;
use base_types::{Hash32, Limits, StoreFault};
use batch_log::{Log, Place};
use block_codec::{Header, block_hash};
use block_store::{payload_headers, read_payload};
use disk_model::{Disk, Image, MemDisk};
use std::alloc::{AllocError, Global};

/// The number of the one file of a disk in memory.
pub(crate) const FILE: u32 = 1;

/// The most that a log may have.
pub(crate) const LIMITS: Limits = Limits {
    file_bytes: 1 << 63,
    headers: 1,
};

/// A log.
pub(crate) fn log(
    alloc: Global,
    out: &mut Vec<u8>,
    kind: Payload,
    bytes: &[u8],
) -> Result<(), AllocError>
    ensures { OnOk result (out.new.items ≡ out.old.items ++ log_report kind bytes.now) }
{
    let mut disk = disk_of(alloc, bytes)?;
    put_log(alloc, out, kind, &mut disk)
}

// A disk in memory that has these bytes in its one file.
fn disk_of(alloc: Global, bytes: &[u8]) -> Result<MemDisk, AllocError>
    ensures { IfOk result (λ disk. (m : ℕ → List ℕ) × (contents_of disk ≡ Some m) × (m 1 ≡ bytes.now)) }
{
    let mut image = Image::new(alloc);
    image.put(FILE, bytes)?;
    MemDisk::from_image(alloc, &image)
}

// Adds what the log in the first file of a disk is.
fn put_log<D: Disk>(
    alloc: Global,
    out: &mut Vec<u8>,
    kind: Payload,
    disk: &mut D,
) -> Result<(), AllocError>
    ensures { (m : ℕ → List ℕ) → D.contents disk.old ≡ Some m → OnOk result (out.new.items ≡ out.old.items ++ log_report kind (m 1)) }
{
    match Log::open(alloc, disk, FILE, &LIMITS) {
        Ok(log) => put_records(alloc, out, kind, disk, &log),
        Err(fault) => put_fault(out, fault),
    }
}

// Adds the gate that is damaged. A disk in memory fails for want of memory alone.
fn put_fault(out: &mut Vec<u8>, fault: StoreFault) -> Result<(), AllocError>
    ensures { OnOk result (IsDamage fault (λ gate. out.new.items ≡ out.old.items ++ damaged_line gate)) }
{
    match fault {
        StoreFault::Damaged { at, .. } => put_damaged(out, at),
        _ => Err(AllocError),
    }
}

// Adds the records of a log, and where it ends.
fn put_records<D: Disk>(
    alloc: Global,
    out: &mut Vec<u8>,
    kind: Payload,
    disk: &mut D,
    log: &Log,
) -> Result<(), AllocError>
    ensures { (payloads : List (List ℕ)) → Stands (D.contents disk.old) (D.left_since disk.old (D.time disk.old)) log.now payloads
        → OnOk result (out.new.items ≡ out.old.items ++ log_lines kind (Ok payloads)) }
{
    let mut end = 0;
    for place in log.places() {
        put_record(alloc, out, kind, disk, log, *place)?;
        end = place.at + 5 + u64::from(place.len);
    }
    put_end(out, end)
}

/// Adds a record, and what its payload means. A disk in memory fails for want of memory alone.
pub(crate) fn put_record<D: Disk>(
    alloc: Global,
    out: &mut Vec<u8>,
    kind: Payload,
    disk: &mut D,
    log: &Log,
    place: Place,
) -> Result<(), AllocError>
    requires listed { Contains log.now.places place }
    ensures lines { (payloads : List (List ℕ)) (i : ℕ) (payload : List ℕ) → Stands (D.contents disk.old) (D.left_since disk.old (D.time disk.old)) log.now payloads
        → slice_get log.now.places i ≡ Some place → slice_get payloads i ≡ Some payload → OnOk result (out.new.items ≡ out.old.items ++ record_line place ++ payload_lines kind payload) }
    ensures contents { D.contents disk.new ≡ D.contents disk.old }
    ensures quiet { Quiet D.time D.left_since disk.old disk.new }
{
    put_place(out, place)?;
    match read_payload(alloc, disk, log, place, 0) {
        Ok(payload) => put_payload(alloc, out, kind, &payload),
        Err(_) => Err(AllocError),
    }
}

#[tactic(auto, unfolding(crate::specs::LogReports::record_line))]
fn put_place(out: &mut Vec<u8>, place: Place) -> Result<(), AllocError>
    ensures { OnOk result (out.new.items ≡ out.old.items ++ record_line place) }
{
    put_line(
        out,
        "record",
        &[
            Number(place.at),
            Text("length"),
            Number(u64::from(place.len)),
        ],
    )
}

#[tactic(auto, unfolding(crate::specs::LogReports::damaged_line))]
pub(crate) fn put_damaged(out: &mut Vec<u8>, gate: u64) -> Result<(), AllocError>
    ensures { OnOk result (out.new.items ≡ out.old.items ++ damaged_line gate) }
{
    put_line(out, "damaged", &[Number(gate)])
}

// Adds what a payload means.
#[tactic(auto, unfolding(crate::specs::LogReports::payload_lines))]
fn put_payload(
    alloc: Global,
    out: &mut Vec<u8>,
    kind: Payload,
    payload: &[u8],
) -> Result<(), AllocError>
    ensures { OnOk result (out.new.items ≡ out.old.items ++ payload_lines kind payload.now) }
{
    match kind {
        Payload::Bytes => Ok(()),
        Payload::Headers => match payload_headers(alloc, payload)? {
            Some(headers) => put_headers(out, headers.as_slice()),
            None => put_line(out, "fault", &[Text("NoHeaders")]),
        },
        Payload::Body => put_body(alloc, out, payload),
    }
}

fn put_headers(out: &mut Vec<u8>, headers: &[Header]) -> Result<(), AllocError>
    ensures { OnOk result (out.new.items ≡ out.old.items ++ flat_map stored_header_line headers.now) }
{
    for header in headers {
        put_stored_header(out, header)?;
    }
    Ok(())
}

#[tactic(auto, unfolding(crate::specs::LogReports::stored_header_line))]
fn put_stored_header(out: &mut Vec<u8>, header: &Header) -> Result<(), AllocError>
    ensures { OnOk result (out.new.items ≡ out.old.items ++ stored_header_line header.now) }
{
    put_line(out, "header", &[Hash(block_hash(header))])
}

// Adds the hash of a body, and the block behind it.
#[tactic(auto, unfolding(crate::specs::LogReports::body_report))]
fn put_body(alloc: Global, out: &mut Vec<u8>, payload: &[u8]) -> Result<(), AllocError>
    ensures { OnOk result (out.new.items ≡ out.old.items ++ body_report payload.now) }
{
    let Some((hash, text)) = payload.split_first_chunk::<32>() else {
        return put_line(out, "fault", &[Text("NoBody")]);
    };
    put_line(out, "body", &[Hash(Hash32 { bytes: *hash })])?;
    block(alloc, out, text)
}
