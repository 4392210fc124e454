//! Readers and writers of std as raw ones. They tell nothing of the calls that were made.

ghost use Rattle.std.specs.Prelude.{None};

use io_traits::{RawError, RawReader, RawWriter};
use std::io::{Error, ErrorKind, Read, Write};

fn raw_error(error: &Error) -> RawError {
    match error.kind() {
        ErrorKind::Interrupted => RawError::Interrupted,
        _ => RawError::Failed,
    }
}

/// A reader of std.
#[derive(Drop)]
pub struct Reading<R: Read + Drop> {
    pub reader: R,
}

impl<R: Read + Drop> RawReader for Reading<R> {
    ghost reads = { λ _. None };

    ghost name = { λ _. None };

    fn read(&mut self, buf: &mut [u8]) -> Result<usize, RawError> {
        match self.reader.read(buf) {
            Ok(count) => Ok(count),
            Err(error) => Err(raw_error(&error)),
        }
    }
}

/// A writer of std.
#[derive(Drop)]
pub struct Writing<W: Write + Drop> {
    pub writer: W,
}

impl<W: Write + Drop> RawWriter for Writing<W> {
    ghost writes = { λ _. None };

    ghost name = { λ _. None };

    fn write(&mut self, bytes: &[u8]) -> Result<usize, RawError> {
        match self.writer.write(bytes) {
            Ok(count) => Ok(count),
            Err(error) => Err(raw_error(&error)),
        }
    }
}
