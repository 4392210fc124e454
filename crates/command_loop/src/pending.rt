//! The line that is being read.

ghost use Rattle.std.specs.Prelude.{◌≡◌, [], ◌++◌, OnOk};
ghost use Rattle.command_text.specs.Lines.{without_return};
ghost use Rattle.command_loop.specs.Asks.{kept_of};

use std::alloc::{AllocError, Global};
use std::marker::Model;

/// As many bytes of a line as matter: 4,096, a carriage return, and one that makes it too long.
const MAX_BYTES: usize = 4_098;

/// The first bytes of the line that is being read. Of a longer line no more is kept.
#[derive(Drop)]
pub(crate) struct PendingLine {
    bytes: Vec<u8>,
    alloc: Global,
}

impl Model for PendingLine {
    ghost use Rattle.std.specs.Prelude.{◌≤◌, List, ℕ, vec_len};

    ghost Value = { List ℕ };

    ghost view = { λ line. line.bytes.items };

    ghost invariant = { λ line. vec_len line.bytes ≤ 4098 };
}

impl PendingLine {
    /// A line without bytes.
    pub fn new(alloc: Global) -> PendingLine
        ensures { result ≡ [] }
    {
        PendingLine {
            bytes: Vec::new(alloc),
            alloc,
        }
    }

    /// The allocator of its bytes.
    pub fn allocator(&self) -> Global {
        self.alloc
    }

    /// Adds bytes at its end.
    pub fn push(&mut self, bytes: &[u8]) -> Result<(), AllocError>
        ensures { OnOk result (self.new ≡ kept_of (self.old ++ bytes.now)) }
    {
        let count = bytes.len().min(MAX_BYTES - self.bytes.len());
        self.bytes.extend_from_slice(&bytes[..count])
    }

    /// The line, without a carriage return that stands last.
    pub fn text(&self) -> &[u8]
        ensures { result.now ≡ without_return self.now }
    {
        match self.bytes.as_slice() {
            [text @ .., last] if *last == b'\r' => text,
            text => text,
        }
    }

    /// Begins the next line.
    pub fn clear(&mut self)
        ensures { self.new ≡ [] }
    {
        self.bytes.clear();
    }
}
