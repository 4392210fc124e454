//! Opening the logs of a store, and reading their records.

ghost use Rattle.std.specs.Prelude.{◌≡◌, ℕ, ◌+◌, ◌*◌, ◌^◌, ◌<◌, ◌≤◌, List, [], ◌∷◌, ◌++◌, length, sum_by, All, Contains, Option, Some, None, Ok, IfOk, IfErr, OnOk, OnErr, slice_get};
ghost use Rattle.std.specs.FinMap.{empty};
ghost use Rattle.disk_model.specs.Disk.{At, Torn, Leaves, Quiet, Only, OthersKept, Told};
ghost use Rattle.batch_log.specs.OpenLog.{Stands};
ghost use Rattle.batch_log.specs.Records.{log as log_of, HoldsLog, SameLog};
ghost use Rattle.batch_log.specs.declared.places.Place.{Place};
ghost use Rattle.batch_log.specs.Opening.{OpenCause};
ghost use Rattle.batch_log.specs.Reading.{ReadAtMost, WhereDamaged};
ghost use Rattle.coin_store.specs.Base.{IsBase, base_texts, base_places};
ghost use Rattle.coin_store.specs.BatchReads.{HasPayload, IsNoPayload};
ghost use Rattle.coin_store.specs.Batches.{Row};
ghost use Rattle.coin_store.specs.Files.{IsBaseFile, IsTiny, InFiles, OthersKeptBut, FilesCause, log_reads, base_reads, ReadWithin};
ghost use Rattle.coin_store.specs.Opening.{HasPayloads, marked_at, IsDamagedAt, LogDamage, BaseDamage};
ghost use Rattle.coin_store.specs.Store.{RecordCause};
ghost use Rattle.base_types.specs.declared.fault.StoreFault.TheVariants.{NoMemory};

use crate::batch::{Gate, read_payload};
use crate::index::Index;
use crate::kind::Kind;
use crate::marker::Marker;
use crate::row::{Mask, RowFault};
use crate::store::Marked;
use base_types::{Limits, StoreFault};
use batch_log::{Log, Place};
use disk_model::Disk;
use std::alloc::Global;

/// Reads one payload, with one device call, and keeps the places of its coins.
fn read_record<D: Disk>(
    disk: &mut D,
    log: &Log,
    kind: Kind,
    place: Place,
    mask: &Mask,
    index: &mut Index,
    payload: &mut [u8],
) -> Result<Option<Marker>, StoreFault>
    requires listed { Contains log.now.places place }
    requires whole { length payload.old ≡ place.len }
    requires short { place.at + (5 + place.len) < 2 ^ 64 }
    ensures ok { (payloads : List (List ℕ)) (i : ℕ) (bytes : List ℕ) → Stands (D.contents disk.old) (D.left_since disk.old (D.time disk.old)) log.now payloads
        → slice_get log.now.places i ≡ Some place → slice_get payloads i ≡ Some bytes
        → IfOk result (HasPayload kind log.now.file place.at mask.now bytes index.old.places index.new.places) × IfErr result (WhereDamaged (λ file at. IsNoPayload kind mask.now bytes)) }
    ensures cause { IfErr result (RecordCause log.now.file place.at (D.faults disk.old) (D.faults disk.new)) }
    ensures faults { D.faults disk.old ≤ D.faults disk.new }
    ensures contents { D.contents disk.new ≡ D.contents disk.old }
    ensures quiet { Quiet D.time D.left_since disk.old disk.new }
    ensures read { ReadAtMost log.now.file place.len (D.bytes_read disk.old) (D.bytes_read disk.new) }
    ensures salt { index.new.salt ≡ index.old.salt }
{
    log.read(disk, place, payload)?;
    let gate = Gate {
        file: log.file(),
        at: place.at,
    };
    match read_payload(payload, kind, gate, mask, index) {
        Ok(marker) => Ok(marker),
        Err(RowFault::NoMemory) => Err(StoreFault::NoMemory),
        Err(RowFault::Broken) => Err(StoreFault::Damaged {
            file: gate.file,
            at: gate.at,
        }),
    }
}

// Adds a marker with the offset of its gate, if there is one.
fn keep_marker(markers: &mut Vec<Marked>, marker: Option<Marker>, at: u64) -> Result<(), StoreFault>
    ensures ok { OnOk result (markers.new.items ≡ markers.old.items ++ marked_at marker at) }
    ensures cause { IfErr result (λ e. e ≡ NoMemory) }
{
    let Some(marker) = marker else {
        return Ok(());
    };
    match markers.push(Marked { marker, at }) {
        Ok(()) => Ok(()),
        Err(_) => Err(StoreFault::NoMemory),
    }
}

/// Reads the payloads of a log, in their order, and keeps their markers and the places of their coins. `Damaged` names
/// the gate of the first payload that isn't of this kind.
fn read_log<D: Disk>(
    alloc: Global,
    disk: &mut D,
    log: &Log,
    kind: Kind,
    mask: &Mask,
    index: &mut Index,
) -> Result<Vec<Marked>, StoreFault>
    ensures ok { (payloads : List (List ℕ)) → Stands (D.contents disk.old) (D.left_since disk.old (D.time disk.old)) log.now payloads
        → IfOk result (λ markers. HasPayloads kind log.now.file mask.now payloads index.old.places index.new.places markers.items) }
    ensures damaged { (payloads : List (List ℕ)) → Stands (D.contents disk.old) (D.left_since disk.old (D.time disk.old)) log.now payloads
        → IfErr result (IsDamagedAt kind mask.now payloads) }
    ensures cause { IfErr result (OpenCause log.now.file (D.faults disk.old) (D.faults disk.new)) }
    ensures faults { D.faults disk.old ≤ D.faults disk.new }
    ensures contents { D.contents disk.new ≡ D.contents disk.old }
    ensures quiet { Quiet D.time D.left_since disk.old disk.new }
    ensures read { ReadAtMost log.now.file (sum_by (λ (p : Place). p.len) log.now.places) (D.bytes_read disk.old) (D.bytes_read disk.new) }
    ensures salt { index.new.salt ≡ index.old.salt }
{
    let mut markers = Vec::new(alloc);
    let mut payload = Vec::new(alloc);
    let places = log.places();
    for i in 0..places.len() {
        let place = places[i];
        payload.clear();
        payload.resize(place.len as usize, 0)?;
        let marker = read_record(disk, log, kind, place, mask, index, &mut payload)?;
        keep_marker(&mut markers, marker, place.at)?;
    }
    Ok(markers)
}

/// A log that was read, and the markers of its payloads.
#[derive(Drop)]
pub struct ReadLog {
    pub log: Log,
    pub markers: Vec<Marked>,
}

/// Opens the log of a file, reads it once, and keeps the markers of its payloads and the places of their coins. `Damaged`
/// names the gate where the log is damaged, or that of the first payload that isn't of this kind.
pub fn open_log<D: Disk>(
    alloc: Global,
    disk: &mut D,
    file: u32,
    kind: Kind,
    limits: &Limits,
    mask: &Mask,
    index: &mut Index,
) -> Result<ReadLog, StoreFault>
    requires { limits.now.file_bytes ≤ 2 ^ 63 }
    ensures ok { (m : ℕ → List ℕ) → D.contents disk.old ≡ Some m
        → IfOk result (λ r. (payloads : List (List ℕ)) × (log_of (m file) ≡ Ok payloads) × Stands (D.contents disk.new) (D.left_since disk.new (D.time disk.new)) r.log payloads
        × HasPayloads kind file mask.now payloads index.old.places index.new.places r.markers.items) }
    ensures named { IfOk result (λ r. (r.log.file ≡ file) × (r.log.limit ≡ limits.now.file_bytes)) }
    ensures damaged { (m : ℕ → List ℕ) → D.contents disk.old ≡ Some m → IfErr result (LogDamage kind mask.now (m file)) }
    ensures cause { IfErr result (OpenCause file (D.faults disk.old) (D.faults disk.new)) }
    ensures faults { D.faults disk.old ≤ D.faults disk.new }
    ensures any_moment { (m : ℕ → List ℕ) → D.contents disk.old ≡ Some m → Leaves D.time D.left_since (At file SameLog) disk.old disk.new }
    ensures long { (m : ℕ → List ℕ) → D.contents disk.old ≡ Some m → 1 < length (m file)
        → (D.contents disk.new ≡ D.contents disk.old) × Quiet D.time D.left_since disk.old disk.new }
    ensures tiny { (m : ℕ → List ℕ) → D.contents disk.old ≡ Some m → length (m file) ≤ 1 → OnOk result (Only file (0 ∷ []) (D.left_since disk.new (D.time disk.new))) }
    ensures part { Leaves D.time D.left_since (At file (Torn 0 1)) disk.old disk.new }
    ensures others { OthersKept file (D.contents disk.old) (D.contents disk.new) }
    ensures read { (m : ℕ → List ℕ) → D.contents disk.old ≡ Some m → ReadAtMost file (log_reads (m file)) (D.bytes_read disk.old) (D.bytes_read disk.new) }
    ensures salt { index.new.salt ≡ index.old.salt }
{
    let log = Log::open(alloc, disk, file, limits)?;
    let markers = read_log(alloc, disk, &log, kind, mask, index)?;
    Ok(ReadLog { log, markers })
}

/// Opens the log of the base file, if one is named, and keeps the places of its coins in an index without places. After
/// this the file is only read.
pub fn open_base<D: Disk>(
    alloc: Global,
    disk: &mut D,
    file: Option<u32>,
    limits: &Limits,
    mask: &Mask,
    index: &mut Index,
) -> Result<(), StoreFault>
    requires limit { limits.now.file_bytes ≤ 2 ^ 63 }
    requires none { index.old.places ≡ empty }
    ensures ok { (m : ℕ → List ℕ) → D.contents disk.old ≡ Some m
        → OnOk result ((base : List (List Row)) × IsBase mask.now file m base × (index.new.places ≡ base_places file mask.now base)
        × ((f : ℕ) → file ≡ Some f → HoldsLog (D.contents disk.new) (D.left_since disk.new (D.time disk.new)) f (base_texts mask.now base))) }
    ensures damaged { (m : ℕ → List ℕ) → D.contents disk.old ≡ Some m → IfErr result (BaseDamage mask.now file m) }
    ensures cause { IfErr result (FilesCause (IsBaseFile file) (D.faults disk.old) (D.faults disk.new)) }
    ensures faults { D.faults disk.old ≤ D.faults disk.new }
    ensures any_moment { (m : ℕ → List ℕ) → D.contents disk.old ≡ Some m → Leaves D.time D.left_since (InFiles (IsTiny (IsBaseFile file) m) SameLog) disk.old disk.new }
    ensures long { (m : ℕ → List ℕ) → D.contents disk.old ≡ Some m → ((f : ℕ) → file ≡ Some f → 1 < length (m f))
        → (D.contents disk.new ≡ D.contents disk.old) × Quiet D.time D.left_since disk.old disk.new }
    ensures tiny { (m : ℕ → List ℕ) (f : ℕ) → D.contents disk.old ≡ Some m → file ≡ Some f → length (m f) ≤ 1 → OnOk result (Only f (0 ∷ []) (D.left_since disk.new (D.time disk.new))) }
    ensures part { Leaves D.time D.left_since (InFiles (IsBaseFile file) (Torn 0 1)) disk.old disk.new }
    ensures others { OthersKeptBut (IsBaseFile file) (D.contents disk.old) (D.contents disk.new) }
    ensures read { (m : ℕ → List ℕ) → D.contents disk.old ≡ Some m → ReadWithin (base_reads file m) (D.bytes_read disk.old) (D.bytes_read disk.new) }
    ensures salt { index.new.salt ≡ index.old.salt }
{
    let Some(file) = file else {
        return Ok(());
    };
    open_log(alloc, disk, file, Kind::Base, limits, mask, index)?;
    Ok(())
}
