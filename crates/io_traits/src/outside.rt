//! The traits, by what their calls do to bytes that are told and to a count of faults.

ghost use Rattle.std.specs.Prelude.{◌≡◌, ◌≤◌, ◌⊎◌, ℕ, List, Option, Ok, is_some, IsOk, IsErr, OnOk, OnErr};
ghost use Rattle.std.specs.Io.{ReadsAtMost};
ghost use Rattle.std.specs.Io.KnownBytes.{Appends, ReadConsumes};
ghost use Rattle.io_traits.specs.Causes.{Rose, HasCause};
ghost use Rattle.io_traits.specs.Streams.{AppendsPart};
ghost use Rattle.io_traits.specs.Told.{OnTold};
ghost use Rattle.io_traits.specs.Host.{Held, IsMissing, IsClosed, IsIdle, Opens, ReadsIn, Creates, Writes, Finishes};

/// A call failed, and its object counted that.
#[derive(Clone, Copy, Debug, PartialEq, Eq)]
pub struct IoFailed;

/// Bytes that are read from the front.
pub trait Source {
    /// The bytes that are left, where the source tells them.
    ghost left: { Self → Option (List ℕ) };

    /// How often a call has failed; it stands still at `u64::MAX`, and stays as it is where a call answers Ok.
    ghost faults: { Self → ℕ };

    /// Moves the first bytes that are left into the front of `buf`, and answers their number.
    /// Where `buf` isn't empty, 0 is the end. A read that fails takes no byte.
    fn read(&mut self, buf: &mut [u8]) -> Result<usize, IoFailed>
        ensures bound { ReadsAtMost result buf.new }
        ensures telling { is_some (left self.new) ≡ is_some (left self.old) }
        ensures bytes { ReadConsumes (left self.old) (left self.new) result buf.new }
        ensures cause { HasCause (faults self.old) (faults self.new) result };
}

/// Bytes that are written one piece after another.
pub trait Sink {
    /// The bytes written so far, where the sink tells them.
    ghost written: { Self → Option (List ℕ) };

    /// How often a call has failed; it stands still at `u64::MAX`, and stays as it is where a call answers Ok.
    ghost faults: { Self → ℕ };

    /// Adds all of `bytes`, or fails after some first part of them.
    fn write(&mut self, bytes: &[u8]) -> Result<(), IoFailed>
        ensures telling { is_some (written self.new) ≡ is_some (written self.old) }
        ensures whole { OnOk result (Appends (written self.old) (written self.new) bytes.now) }
        ensures part { OnErr result (AppendsPart (written self.old) (written self.new) bytes.now) }
        ensures cause { HasCause (faults self.old) (faults self.new) result };
}

/// Files by name, of which one at a time is read as the open input, and one at a time is written
/// as the created file.
pub trait Host {
    /// The files, the open input with its place and the created file, where the host tells them.
    ghost held: { Self → Option Held };

    /// How often a call has failed; it stands still at `u64::MAX`, and stays as it is where a call answers Ok.
    ghost faults: { Self → ℕ };

    /// Opens a file as the input, at place 0, in place of the input that was open. After a failure
    /// no input is open. A name that the host tells it doesn't hold fails and counts no fault.
    fn open_in(&mut self, name: &str) -> Result<(), IoFailed>
        ensures held { OnTold (held self.old) (held self.new) (Opens name.now result) }
        ensures later { faults self.old ≤ faults self.new }
        ensures failed { OnErr result (IsMissing (held self.old) name.now ⊎ Rose (faults self.old) (faults self.new)) }
        ensures kept { OnOk result (faults self.new ≡ faults self.old) }
        ensures missing { IsMissing (held self.old) name.now → IsErr result × (faults self.new ≡ faults self.old) };

    /// Reads the open input from its place on, and moves the place past what it gave. With no
    /// input open it gives no byte.
    fn read_in(&mut self, buf: &mut [u8]) -> Result<usize, IoFailed>
        ensures bound { ReadsAtMost result buf.new }
        ensures held { OnTold (held self.old) (held self.new) (ReadsIn result buf.new) }
        ensures closed { IsClosed (held self.old) → (result ≡ Ok 0) × (faults self.new ≡ faults self.old) }
        ensures cause { HasCause (faults self.old) (faults self.new) result };

    /// Makes the file empty, and it is then the created file. After a failure there is none, and
    /// that file may hold any bytes or be gone.
    fn create(&mut self, name: &str) -> Result<(), IoFailed>
        ensures held { OnTold (held self.old) (held self.new) (Creates name.now result) }
        ensures cause { HasCause (faults self.old) (faults self.new) result };

    /// Appends to the created file. After a failure it may hold any bytes or be gone. With no
    /// created file the call does nothing.
    fn write(&mut self, bytes: &[u8]) -> Result<(), IoFailed>
        ensures held { OnTold (held self.old) (held self.new) (Writes bytes.now result) }
        ensures idle { IsIdle (held self.old) → IsOk result × (faults self.new ≡ faults self.old) }
        ensures cause { HasCause (faults self.old) (faults self.new) result };

    /// Ends the created file, so that afterwards there is none. After a failure that file may hold
    /// any bytes or be gone. With no created file the call does nothing.
    fn finish(&mut self) -> Result<(), IoFailed>
        ensures held { OnTold (held self.old) (held self.new) (Finishes result) }
        ensures idle { IsIdle (held self.old) → IsOk result × (faults self.new ≡ faults self.old) }
        ensures cause { HasCause (faults self.old) (faults self.new) result };
}
