//! A file of the system as the open input of a host.

ghost use Rattle.std.specs.Prelude.{◌≤◌, None};
ghost use Rattle.std.specs.Io.{ReadsAtMost};
ghost use Rattle.io_traits.specs.Causes.{Rose};

use io_traits::{Host, IoFailed};
use std::io::{ErrorKind, Read, Result as IoResult};

/// A host that has one file, its open input, and tells nothing of it.
#[derive(Drop)]
pub(crate) struct InputFile<R: Read + Drop> {
    reader: R,
    faults: u64,
}

impl<R: Read + Drop> InputFile<R> {
    /// The file that this reads.
    pub(crate) fn new(reader: R) -> Self {
        InputFile { reader, faults: 0 }
    }
}

/// Reads again where a signal came between.
pub(crate) fn read_some<R: Read>(reader: &mut R, buf: &mut [u8]) -> IoResult<usize>
    ensures { ReadsAtMost result buf.new }
{
    for _ in 0..u64::MAX {
        match reader.read(buf) {
            Err(error) if error.kind() == ErrorKind::Interrupted => {}
            result => return result,
        }
    }
    Ok(0)
}

fn count_fault(faults: &mut u64) -> IoFailed
    ensures rose { Rose faults.old faults.new }
    ensures later { faults.old ≤ faults.new }
{
    *faults = faults.saturating_add(1);
    IoFailed
}

impl<R: Read + Drop> Host for InputFile<R> {
    ghost held = { λ _. None };

    ghost faults = { λ host. host.faults };

    fn open_in(&mut self, _name: &str) -> Result<(), IoFailed> {
        Err(count_fault(&mut self.faults))
    }

    fn read_in(&mut self, buf: &mut [u8]) -> Result<usize, IoFailed> {
        match read_some(&mut self.reader, buf) {
            Ok(count) => Ok(count),
            Err(_) => Err(count_fault(&mut self.faults)),
        }
    }

    fn create(&mut self, _name: &str) -> Result<(), IoFailed> {
        Err(count_fault(&mut self.faults))
    }

    fn write(&mut self, _bytes: &[u8]) -> Result<(), IoFailed> {
        Err(count_fault(&mut self.faults))
    }

    fn finish(&mut self) -> Result<(), IoFailed> {
        Err(count_fault(&mut self.faults))
    }
}
