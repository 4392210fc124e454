//! Opening the two files.

ghost use Rattle.std.specs.Prelude.{◌≡◌, ◌+◌, ◌*◌, ◌-◌, ◌^◌, ◌≤◌, ℕ, All, IsTrue, IfOk, IfErr, OnErr, List, Some, map, length, Ok};
ghost use Rattle.disk_model.specs.Disk.{At, Torn, Leaves, Quiet, OthersKept};
ghost use Rattle.batch_log.specs.Records.{log as log_of, SameLog, StartsWith};
ghost use Rattle.batch_log.specs.OpenLog.{Stands};
ghost use Rattle.batch_log.specs.Reading.{ReadAtMost};
ghost use Rattle.block_store.specs.Bodies.{body_hash};
ghost use Rattle.batch_log.specs.Opening.{OpenCause};
ghost use Rattle.block_store.specs.Opening.{file_of, has_length, first_wrong, payloads_in, DamagedAs};
ghost use Rattle.block_store.specs.Reading.{NoDamage};

use crate::body_index::BodyIndex;
use crate::payload_kind::PayloadKind;
use base_types::{Hash32, Limits, StoreFault};
use batch_log::{Log, Place};
use disk_model::Disk;
use std::alloc::Global;

// The first payload of a wrong length.
fn first_wrong_place(kind: PayloadKind, places: &[Place]) -> Option<Place>
    ensures { result ≡ first_wrong kind places.now }
{
    places
        .iter()
        .find(|place| !kind.has_length(place.len))
        .copied()
}

/// Opens the log of one of the files, each of whose payloads must have a right length.
pub(crate) fn open_log<D: Disk>(
    alloc: Global,
    disk: &mut D,
    kind: PayloadKind,
    limits: &Limits,
) -> Result<Log, StoreFault>
    requires { limits.now.file_bytes ≤ 2 ^ 63 }
    ensures ok { (m : ℕ → List ℕ) → D.contents disk.old ≡ Some m
        → IfOk result (λ log. (payloads : List (List ℕ)) × (payloads_in kind m ≡ Ok payloads) × Stands (D.contents disk.new) (D.left_since disk.new (D.time disk.new)) log payloads × StartsWith payloads (m (file_of kind)) × (log_of (m (file_of kind)) ≡ Ok payloads)) }
    ensures damaged { (m : ℕ → List ℕ) → D.contents disk.old ≡ Some m → IfErr result (DamagedAs (payloads_in kind m)) }
    ensures named { IfOk result (λ log. (log.file ≡ file_of kind) × (log.limit ≡ limits.now.file_bytes)) }
    ensures lengths { IfOk result (λ log. All (λ place. IsTrue (has_length kind place.len)) log.places) }
    ensures cause { IfErr result (OpenCause (file_of kind) (D.faults disk.old) (D.faults disk.new)) }
    ensures faults { D.faults disk.old ≤ D.faults disk.new }
    ensures any_moment { (m : ℕ → List ℕ) → D.contents disk.old ≡ Some m → Leaves D.time D.left_since (At (file_of kind) SameLog) disk.old disk.new }
    ensures part { Leaves D.time D.left_since (At (file_of kind) (Torn 0 1)) disk.old disk.new }
    ensures others { OthersKept (file_of kind) (D.contents disk.old) (D.contents disk.new) }
    ensures read { IfOk result (λ log. ReadAtMost (file_of kind) (5 * length log.places + 5) (D.bytes_read disk.old) (D.bytes_read disk.new)) }
    ensures read_err { (m : ℕ → List ℕ) → D.contents disk.old ≡ Some m
        → OnErr result ((payloads : List (List ℕ)) × StartsWith payloads (m (file_of kind)) × ReadAtMost (file_of kind) (5 * length payloads + 5) (D.bytes_read disk.old) (D.bytes_read disk.new)) }
{
    let log = Log::open(alloc, disk, kind.file(), limits)?;
    if let Some(place) = first_wrong_place(kind, log.places()) {
        return Err(StoreFault::Damaged {
            file: kind.file(),
            at: place.at,
        });
    }
    Ok(log)
}

/// Reads the hash that each body carries.
pub(crate) fn read_hashes<D: Disk>(
    alloc: Global,
    disk: &mut D,
    bodies: &Log,
) -> Result<BodyIndex, StoreFault>
    requires { All (λ place. 32 ≤ place.len) bodies.now.places }
    ensures hashes { (payloads : List (List ℕ)) → Stands (D.contents disk.old) (D.left_since disk.old (D.time disk.old)) bodies.now payloads
        → IfOk result (λ index. map body_hash payloads ≡ map Some index) × IfErr result NoDamage }
    ensures len { IfOk result (λ index. length index ≡ length bodies.now.places) }
    ensures cause { IfErr result (OpenCause bodies.now.file (D.faults disk.old) (D.faults disk.new)) }
    ensures faults { D.faults disk.old ≤ D.faults disk.new }
    ensures contents { D.contents disk.new ≡ D.contents disk.old }
    ensures quiet { Quiet D.time D.left_since disk.old disk.new }
    ensures read { ReadAtMost bodies.now.file (32 * length bodies.now.places) (D.bytes_read disk.old) (D.bytes_read disk.new) }
{
    let mut index = BodyIndex::new(alloc);
    for place in bodies.places() {
        let mut bytes = [0; 32];
        bodies.read_part(disk, *place, 0, &mut bytes)?;
        index.add(Hash32 { bytes })?;
    }
    Ok(index)
}
