//! The bytes of a record, and the device calls that write it.

ghost use Rattle.std.specs.Prelude.{◌≡◌, ◌+◌, ◌^◌, ◌≤◌, ◌<◌, ℕ, List, [], ◌∷◌, ◌++◌, length, OnOk, OnErr, option_map, vec_capacity};
ghost use Rattle.disk_model.specs.Disk.{At, Torn, Leaves, Only, Told, OthersKept, HasCause, changed_at, written};
ghost use Rattle.batch_log.specs.Records.{body, payload_in, records, WithOrWithout, HoldsLog};

use disk_model::{Disk, DiskFailed};
use std::alloc::AllocError;

/// The length of the payload in a buffer with room around it.
pub(crate) fn payload_len(framed: &[u8]) -> usize
    requires { 5 ≤ length framed.now }
    ensures { result ≡ length (payload_in framed.now) }
{
    framed.len() - 5
}

/// Puts the length before a payload, and a closed gate behind it, where the buffer has room for them.
pub(crate) fn frame(framed: &mut [u8])
    requires room { 5 ≤ length framed.old }
    requires short { length (payload_in framed.old) < 2 ^ 32 }
    ensures { framed.new ≡ body (payload_in framed.old) ++ 0 ∷ [] }
{
    let gate = framed.len() - 1;
    framed[..4].copy_from_slice(&((gate - 4) as u32).to_le_bytes());
    framed[gate] = 0;
}

/// Sets a buffer to what stands behind the gate of a payload, and the next gate, closed. It takes memory only where the
/// buffer is too small.
pub(crate) fn spell(buffer: &mut Vec<u8>, payload: &[u8]) -> Result<(), AllocError>
    requires { length payload.now < 2 ^ 32 }
    ensures ok { OnOk result (buffer.new.items ≡ body payload.now ++ 0 ∷ []) }
    ensures capacity { vec_capacity buffer.old ≤ vec_capacity buffer.new }
    ensures err { OnErr result (vec_capacity buffer.old < 5 + length payload.now) }
{
    buffer.clear();
    buffer.reserve(5 + payload.len())?;
    buffer.extend_from_slice(&(payload.len() as u32).to_le_bytes())?;
    buffer.extend_from_slice(payload)?;
    buffer.push(0)?;
    Ok(())
}

/// Writes a record behind the closed gate at `end`, and opens that gate once all behind it is durable.
pub(crate) fn write_record<D: Disk>(
    disk: &mut D,
    file: u32,
    end: u64,
    tail: &[u8],
) -> Result<(), DiskFailed>
    requires { end + 1 + length tail.now ≤ 2 ^ 63 }
    ensures any_moment { (payloads : List (List ℕ)) (payload : List ℕ) → end ≡ length (records payloads) → length payload < 2 ^ 32 → tail.now ≡ body payload ++ 0 ∷ []
        → HoldsLog (D.contents disk.old) (D.left_since disk.old (D.time disk.old)) file payloads
        → Leaves D.time D.left_since (At file (WithOrWithout payloads payload)) disk.old disk.new }
    ensures part { Leaves D.time D.left_since (At file (Torn end (1 + length tail.now))) disk.old disk.new }
    ensures ok { (payloads : List (List ℕ)) (payload : List ℕ) → end ≡ length (records payloads) → length payload < 2 ^ 32 → tail.now ≡ body payload ++ 0 ∷ []
        → HoldsLog (D.contents disk.old) (D.left_since disk.old (D.time disk.old)) file payloads
        → OnOk result (HoldsLog (D.contents disk.new) (D.left_since disk.new (D.time disk.new)) file (payloads ++ payload ∷ [])) }
    ensures written { OnOk result (D.contents disk.new
        ≡ option_map (changed_at file (written end (1 ∷ []))) (option_map (changed_at file (written (end + 1) tail.now)) (D.contents disk.old))) }
    ensures durable { Told (D.contents disk.new) (λ m. OnOk result (Only file (m file) (D.left_since disk.new (D.time disk.new)))) }
    ensures others { OthersKept file (D.contents disk.old) (D.contents disk.new) }
    ensures cause { HasCause (D.faults disk.old) (D.faults disk.new) result }
    ensures read { D.bytes_read disk.new ≡ D.bytes_read disk.old }
{
    disk.write_at(file, end + 1, tail)?;
    disk.sync(file)?;
    disk.write_at(file, end, &[1])?;
    disk.sync(file)
}
