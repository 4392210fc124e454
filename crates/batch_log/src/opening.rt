//! What opening does to a file, and what it reads of it.

ghost use Rattle.std.specs.Prelude.{◌≡◌, ◌+◌, ◌*◌, ◌<◌, ◌≤◌, ℕ, List, [], ◌∷◌, Some, length, IfOk, IfErr, OnOk, OnErr};
ghost use Rattle.disk_model.specs.Disk.{At, Torn, Leaves, Quiet, Only, Told, OthersKept, HasCause};
ghost use Rattle.batch_log.specs.Records.{HoldsLog, SameLog, StartsWith};
ghost use Rattle.batch_log.specs.OpenLog.{AllBefore};
ghost use Rattle.batch_log.specs.Opening.{IsWholly, OpenCause, DamageIn};
ghost use Rattle.batch_log.specs.Reading.{ReadAtMost};

use crate::Place;
use crate::gates::Head;
use base_types::StoreFault;
use disk_model::{Disk, DiskFailed};
use std::alloc::Global;

/// Makes durable what the file reads as, and an empty log of a file that has at most one byte. Answers the length that
/// the file had.
pub(crate) fn begin<D: Disk>(disk: &mut D, file: u32) -> Result<u64, DiskFailed>
    ensures length { Told (D.contents disk.old) (λ m. IfOk result (λ n. n ≡ length (m file))) }
    ensures any_moment { (m : ℕ → List ℕ) → D.contents disk.old ≡ Some m → Leaves D.time D.left_since (At file SameLog) disk.old disk.new }
    ensures part { Leaves D.time D.left_since (At file (Torn 0 1)) disk.old disk.new }

    // A file of more than one byte stays.
    ensures long { (m : ℕ → List ℕ) → D.contents disk.old ≡ Some m → 1 < length (m file)
        → (D.contents disk.new ≡ D.contents disk.old) × Quiet D.time D.left_since disk.old disk.new × OnOk result (Only file (m file) (D.left_since disk.new (D.time disk.new))) }

    // Any other is one closed gate.
    ensures tiny { (m : ℕ → List ℕ) → D.contents disk.old ≡ Some m → length (m file) ≤ 1
        → OnOk result (HoldsLog (D.contents disk.new) (D.left_since disk.new (D.time disk.new)) file [] × Only file (0 ∷ []) (D.left_since disk.new (D.time disk.new))) }
    ensures others { OthersKept file (D.contents disk.old) (D.contents disk.new) }
    ensures cause { HasCause (D.faults disk.old) (D.faults disk.new) result }
    ensures read { D.bytes_read disk.new ≡ D.bytes_read disk.old }
{
    disk.sync(file)?;
    let len = disk.len(file)?;
    if len <= 1 {
        disk.write_at(file, 0, &[0])?;
        disk.sync(file)?;
    }
    Ok(len)
}

/// Reads the gates of a file of more than one byte, up to the closed one. Answers where the payloads lie, and the offset
/// of the closed gate.
pub(crate) fn find_places<D: Disk>(
    alloc: Global,
    disk: &mut D,
    file: u32,
    len: u64,
) -> Result<(Vec<Place>, u64), StoreFault>
    ensures ok { (m : ℕ → List ℕ) → D.contents disk.old ≡ Some m → len ≡ length (m file) → 1 < len → IfOk result (λ r. IsWholly (m file) r.0.items r.1) }
    ensures before { IfOk result (λ r. AllBefore r.1 r.0.items) }
    ensures damaged { (m : ℕ → List ℕ) → D.contents disk.old ≡ Some m → len ≡ length (m file) → 1 < len → IfErr result (DamageIn (m file)) }
    ensures contents { D.contents disk.new ≡ D.contents disk.old }
    ensures quiet { Quiet D.time D.left_since disk.old disk.new }
    ensures faults { D.faults disk.old ≤ D.faults disk.new }
    ensures cause { IfErr result (OpenCause file (D.faults disk.old) (D.faults disk.new)) }
    ensures read { IfOk result (λ r. ReadAtMost file (5 * length r.0.items + 5) (D.bytes_read disk.old) (D.bytes_read disk.new)) }
    ensures read_err { (m : ℕ → List ℕ) → D.contents disk.old ≡ Some m → len ≡ length (m file) → 1 < len
        → OnErr result ((payloads : List (List ℕ)) × StartsWith payloads (m file) × ReadAtMost file (5 * length payloads + 5) (D.bytes_read disk.old) (D.bytes_read disk.new)) }
{
    let mut places = Vec::new(alloc);
    let mut at = 0u64;
    while at < len {
        let Ok(head) = Head::read(disk, file, at) else {
            return Err(StoreFault::DiskFailed);
        };
        match head {
            Head::Closed => return Ok((places, at)),
            Head::Short => return Err(StoreFault::Damaged { file, at }),
            Head::Open(n) => {
                if len - at <= 5 + n as u64 {
                    return Err(StoreFault::Damaged { file, at });
                }
                let Ok(()) = places.push(Place { at, len: n }) else {
                    return Err(StoreFault::NoMemory);
                };
                at += 5 + n as u64;
            }
        }
    }
    Err(StoreFault::Damaged { file, at })
}
