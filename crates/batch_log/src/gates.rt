//! The first bytes of a record: its gate, and the length of its payload.

ghost use Rattle.std.specs.Prelude.{◌≡◌, ◌+◌, ◌<◌, ◌≤◌, ℕ, List, Some, length, drop, take, min, IfOk, IfErr};
ghost use Rattle.disk_model.specs.Disk.{Quiet, HasCause};

use disk_model::{Disk, DiskFailed};

/// What stands at a gate.
#[derive(Clone, Copy, Debug)]
pub(crate) enum Head {
    /// The list of records ends here.
    Closed,
    /// A record with a payload of this length.
    Open(u32),
    /// The gate is open, and the file ends within the length.
    Short,
}

impl Head {
    ghost use Rattle.batch_log.specs.Opening.{IsHead};
    ghost use Rattle.batch_log.specs.Reading.{ReadAtMost};

    // What the bytes that were read of a gate and a length say.
    fn parse(buf: &[u8], count: usize) -> Head
        requires { length buf.now ≡ 5 }
        ensures { (bytes : List ℕ) → 0 < length bytes → take count buf.now ≡ take 5 bytes → count ≡ min 5 (length bytes) → IsHead bytes result }
    {
        if count == 0 {
            return Head::Short;
        }
        if buf[0] != 1 {
            return Head::Closed;
        }
        if count < 5 {
            return Head::Short;
        }
        Head::Open(u32::from_le_bytes([buf[1], buf[2], buf[3], buf[4]]))
    }

    /// Reads what stands at the gate at an offset, with one device call.
    pub(crate) fn read<D: Disk>(disk: &mut D, file: u32, at: u64) -> Result<Head, DiskFailed>
        ensures head { (m : ℕ → List ℕ) → D.contents disk.old ≡ Some m → at < length (m file) → IfOk result (λ head. IsHead (drop at (m file)) head) }
        ensures contents { D.contents disk.new ≡ D.contents disk.old }
        ensures quiet { Quiet D.time D.left_since disk.old disk.new }
        ensures cause { HasCause (D.faults disk.old) (D.faults disk.new) result }
        ensures read { ReadAtMost file 5 (D.bytes_read disk.old) (D.bytes_read disk.new) }
    {
        let mut buf = [0u8; 5];
        let count = disk.read(file, at, &mut buf)?;
        Ok(Head::parse(&buf, count))
    }
}
