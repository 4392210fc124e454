//! Readers, writers and files of a system, of which no more is known than the calls that were made.

ghost use Rattle.std.specs.Prelude.{◌≡◌, ◌≤◌, ◌∷◌, ℕ, List, Option, is_ok, length, IfOk, IfSome};
ghost use Rattle.std.specs.Io.{ReadsAtMost};
ghost use Rattle.io_traits.specs.Told.{OnTold};
ghost use Rattle.io_traits.specs.RawCalls.{RawRead, RawAnswer, RawFileCall, read_call, write_call, opens, creates, closes};

use crate::outside::IoFailed;

/// Why a raw call moved nothing.
#[derive(Clone, Copy, Debug, PartialEq, Eq)]
pub enum RawError {
    /// A signal came between, so the call is to be made again.
    Interrupted,
    /// The call failed.
    Failed,
}

/// A reader. It may give any bytes.
pub trait RawReader {
    /// The reads that were made, the newest first, where it tells them.
    ghost reads: { Self → Option (List RawRead) };

    /// The name of the file that it reads, where it tells one.
    ghost name: { Self → Option (List ℕ) };

    /// Reads into the front of `buf`, and answers the number of bytes.
    fn read(&mut self, buf: &mut [u8]) -> Result<usize, RawError>
        ensures bound { ReadsAtMost result buf.new }
        ensures call { OnTold (reads self.old) (reads self.new) (λ before now. now ≡ read_call result buf.new ∷ before) }
        ensures name { name self.new ≡ name self.old };
}

/// A writer. It may take any first part of what it is given.
pub trait RawWriter {
    /// What the writes that were made took, the newest first, where it tells them.
    ghost writes: { Self → Option (List RawAnswer) };

    /// The name of the file that it writes, where it tells one.
    ghost name: { Self → Option (List ℕ) };

    /// Writes a first part of `bytes`, and answers its length.
    fn write(&mut self, bytes: &[u8]) -> Result<usize, RawError>
        ensures bound { IfOk result (λ count. count ≤ length bytes.now) }
        ensures call { OnTold (writes self.old) (writes self.new) (λ before now. now ≡ write_call result bytes.now ∷ before) }
        ensures name { name self.new ≡ name self.old };
}

/// Files by name.
pub trait RawFiles {
    type Input: RawReader + Drop;

    type Output: RawWriter + Drop;

    /// The calls that were made, the newest first, where they are told.
    ghost calls: { Self → Option (List RawFileCall) };

    /// Opens a file to be read.
    fn open(&mut self, name: &str) -> Result<Self::Input, IoFailed>
        ensures call { OnTold (calls self.old) (calls self.new) (λ before now. now ≡ opens name.now (is_ok result) ∷ before) }
        ensures name { IfOk result (λ input. IfSome (Self.Input.name input) (λ told. told ≡ name.now)) };

    /// Makes a file empty, to be written.
    fn create(&mut self, name: &str) -> Result<Self::Output, IoFailed>
        ensures call { OnTold (calls self.old) (calls self.new) (λ before now. now ≡ creates name.now (is_ok result) ∷ before) }
        ensures name { IfOk result (λ output. IfSome (Self.Output.name output) (λ told. told ≡ name.now)) };

    /// Ends a file that was written.
    fn close(&mut self, output: Self::Output) -> Result<(), IoFailed>
        ensures call { OnTold (calls self.old) (calls self.new) (λ before now. now ≡ closes (Self.Output.name output) (is_ok result) ∷ before) };
}
