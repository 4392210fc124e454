//! What adapters do with raw calls: they make them again where a signal came between, and until all is written, and count
//! those that failed.

ghost use Rattle.std.specs.Prelude.{◌≡◌};
ghost use Rattle.std.specs.Io.{ReadsAtMost};
ghost use Rattle.io_traits.specs.Causes.{HasCause};
ghost use Rattle.io_traits.specs.Told.{OnTold};
ghost use Rattle.io_traits.specs.RawCalls.{ReadsThrough, WritesThrough};

use crate::outside::IoFailed;
use crate::raw::{RawError, RawReader, RawWriter};

/// Reads once, and again as often as a signal comes between.
pub(crate) fn read_through<R: RawReader>(reader: &mut R, buf: &mut [u8]) -> Result<usize, IoFailed>
    ensures bound { ReadsAtMost result buf.new }
    ensures calls { OnTold (R.reads reader.old) (R.reads reader.new) (ReadsThrough result buf.new) }
    ensures name { R.name reader.new ≡ R.name reader.old }
{
    for _ in 0..u64::MAX {
        match reader.read(buf) {
            Ok(count) => return Ok(count),
            Err(RawError::Failed) => return Err(IoFailed),
            Err(RawError::Interrupted) => {}
        }
    }
    Err(IoFailed)
}

/// Writes all of `bytes`, or fails where a write fails or takes nothing.
pub(crate) fn write_through<W: RawWriter>(writer: &mut W, bytes: &[u8]) -> Result<(), IoFailed>
    ensures calls { OnTold (W.writes writer.old) (W.writes writer.new) (WritesThrough bytes.now result) }
    ensures name { W.name writer.new ≡ W.name writer.old }
{
    let mut rest = bytes;
    for _ in 0..u64::MAX {
        if rest.is_empty() {
            return Ok(());
        }
        match writer.write(rest) {
            Ok(count) if count > 0 => rest = &rest[count..],
            Ok(_) => return Err(IoFailed),
            Err(RawError::Failed) => return Err(IoFailed),
            Err(RawError::Interrupted) => {}
        }
    }
    Err(IoFailed)
}

/// Counts a fault where the answer is one.
pub(crate) fn count_fault<T>(faults: &mut u64, answer: Result<T, IoFailed>) -> Result<T, IoFailed>
    ensures same { result ≡ answer }
    ensures cause { HasCause faults.old faults.new result }
{
    if answer.is_err() {
        *faults = faults.saturating_add(1);
    }
    answer
}
