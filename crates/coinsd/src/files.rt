//! The system's files as raw files. They tell nothing of the calls that were made.

ghost use Rattle.std.specs.Prelude.{None};

use crate::streams::{Reading, Writing};
use io_traits::{IoFailed, RawFiles};
use std::fs;
use std::io::Write;
use std::rt::Files;

/// The files of the system.
#[derive(Drop)]
pub struct SystemFiles<'a, R: Files> {
    pub system: &'a R,
}

impl<'a, R: Files> RawFiles for SystemFiles<'a, R> {
    type Input = Reading<R::File>;

    type Output = Writing<R::File>;

    ghost calls = { λ _. None };

    fn open(&mut self, name: &str) -> Result<Reading<R::File>, IoFailed> {
        match fs::open(self.system, name) {
            Ok(reader) => Ok(Reading { reader }),
            Err(_) => Err(IoFailed),
        }
    }

    fn create(&mut self, name: &str) -> Result<Writing<R::File>, IoFailed> {
        match fs::create(self.system, name) {
            Ok(writer) => Ok(Writing { writer }),
            Err(_) => Err(IoFailed),
        }
    }

    fn close(&mut self, mut output: Writing<R::File>) -> Result<(), IoFailed> {
        match output.writer.flush() {
            Ok(()) => Ok(()),
            Err(_) => Err(IoFailed),
        }
    }
}
