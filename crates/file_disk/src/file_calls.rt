//! What is done with one open file. The system may give or take a part of what it is asked to read or write.

ghost use Rattle.std.specs.Prelude.{◌+◌, ◌^◌, ◌<◌, length};
ghost use Rattle.file_disk.specs.Courses.{MeasuresOpen, ReadsAll, WritesAll, ShortensOpen, SyncsOpen};

use crate::raw::{RawError, RawFolder};
use crate::trouble::{Operation, Trouble};

/// The length of a file in bytes.
pub(crate) fn measure<F: RawFolder>(folder: &mut F, file: &F::File) -> Result<u64, Trouble>
    ensures { MeasuresOpen (F.number file.now) result (F.deeds folder.old) (F.deeds folder.new) }
{
    match folder.len(file) {
        Ok(length) => Ok(length),
        Err(_) => Err(Trouble::at(F::number(file), Operation::Measure)),
    }
}

/// Reads the bytes of a file from `at` on, until the buffer is full or the file ends, and answers their number.
pub(crate) fn read_all<F: RawFolder>(
    folder: &mut F,
    file: &F::File,
    at: u64,
    buf: &mut [u8],
) -> Result<usize, Trouble>
    requires { at + length buf.old < 2 ^ 64 }
    ensures { ReadsAll (F.number file.now) at buf.new result (F.deeds folder.old) (F.deeds folder.new) }
{
    let failed = Trouble::at(F::number(file), Operation::Read);
    let mut count = 0;
    for _ in 0..u64::MAX {
        if count == buf.len() {
            return Ok(count);
        }
        match folder.read_at(file, at + count as u64, &mut buf[count..]) {
            Ok(0) => return Ok(count),
            Ok(more) => count += more,
            Err(RawError::Failed) => return Err(failed),
            Err(RawError::Interrupted) => {}
        }
    }
    Err(failed)
}

/// Writes all of `bytes` into a file from `at` on.
pub(crate) fn write_all<F: RawFolder>(
    folder: &mut F,
    file: &F::File,
    at: u64,
    bytes: &[u8],
) -> Result<(), Trouble>
    requires { at + length bytes.now < 2 ^ 64 }
    ensures { WritesAll (F.number file.now) at bytes.now result (F.deeds folder.old) (F.deeds folder.new) }
{
    let failed = Trouble::at(F::number(file), Operation::Write);
    let mut count = 0;
    for _ in 0..u64::MAX {
        if count == bytes.len() {
            return Ok(());
        }
        match folder.write_at(file, at + count as u64, &bytes[count..]) {
            Ok(0) => return Err(failed),
            Ok(more) => count += more,
            Err(RawError::Failed) => return Err(failed),
            Err(RawError::Interrupted) => {}
        }
    }
    Err(failed)
}

/// Shortens a file to `length` bytes, where it is longer.
pub(crate) fn shorten<F: RawFolder>(
    folder: &mut F,
    file: &F::File,
    length: u64,
) -> Result<(), Trouble>
    ensures { ShortensOpen (F.number file.now) length result (F.deeds folder.old) (F.deeds folder.new) }
{
    if measure(folder, file)? <= length {
        return Ok(());
    }
    match folder.set_len(file, length) {
        Ok(()) => Ok(()),
        Err(_) => Err(Trouble::at(F::number(file), Operation::Cut)),
    }
}

/// Makes the bytes of a file durable.
pub(crate) fn sync_bytes<F: RawFolder>(folder: &mut F, file: &F::File) -> Result<(), Trouble>
    ensures { SyncsOpen (F.number file.now) result (F.deeds folder.old) (F.deeds folder.new) }
{
    match folder.sync_data(file) {
        Ok(()) => Ok(()),
        Err(_) => Err(Trouble::at(F::number(file), Operation::Sync)),
    }
}
