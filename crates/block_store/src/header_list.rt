//! Lists of headers.

ghost use Rattle.std.specs.Prelude.{◌≡◌, ◌++◌, [], ◌∷◌, IfOk, OnOk, OnErr};

use block_codec::Header;
use std::alloc::{AllocError, Global};
use std::marker::Model;

/// A list of headers.
#[derive(Debug, Drop)]
pub struct HeaderList {
    members: Vec<Header>,
}

impl Model for HeaderList {
    ghost use Rattle.std.specs.Prelude.{List};
    ghost use Rattle.block_codec.specs.declared.block.Header.{Header};

    ghost Value = { List Header };

    ghost view = { λ headers. headers.members.items };
}

/// The headers of one payload, and the offset of its gate.
#[derive(Debug, Drop)]
pub struct HeaderRecord {
    pub headers: HeaderList,
    pub at: u64,
}

impl HeaderList {
    /// No headers, which takes no memory.
    pub fn new(alloc: Global) -> Self
        ensures { result ≡ [] }
    {
        HeaderList {
            members: Vec::new(alloc),
        }
    }

    /// No headers, with room for this many in one allocation.
    pub(crate) fn with_capacity(alloc: Global, count: usize) -> Result<Self, AllocError>
        ensures { IfOk result (λ headers. headers ≡ []) }
    {
        Ok(HeaderList {
            members: Vec::with_capacity(alloc, count)?,
        })
    }

    /// Adds a header at the end.
    pub fn push(&mut self, header: Header) -> Result<(), AllocError>
        ensures ok { OnOk result (self.new ≡ self.old ++ header ∷ []) }
        ensures err { OnErr result (self.new ≡ self.old) }
    {
        Ok(self.members.push(header)?)
    }

    /// The headers.
    pub fn as_slice(&self) -> &[Header]
        ensures { result.now ≡ self.now }
    {
        &self.members
    }
}
