//! Scripts.

ghost use Rattle.std.specs.Prelude.{◌≡◌, List, [], ℕ, IfOk};

use std::alloc::{AllocError, Global};
use std::marker::Model;

/// The bytes of a script, or of an item of a witness.
#[derive(Clone, Debug, Drop)]
pub struct Script {
    bytes: Vec<u8>,
}

impl Model for Script {
    ghost Value = { List ℕ };

    ghost view = { λ script. script.bytes.items };
}

impl PartialEq for Script {
    ghost use Rattle.std.specs.Prelude.{nat_eq};
    ghost use Rattle.std.specs.Cmp.Lexicographic.{pointwise, nat_list_eq_equiv};
    ghost use Rattle.std.specs.Cmp.{partial_equiv_from_equiv};

    ghost eq = { pointwise nat_eq };

    ghost laws = { partial_equiv_from_equiv nat_list_eq_equiv };

    fn eq(&self, other: &Script) -> bool {
        self.as_slice() == other.as_slice()
    }
}

impl Eq for Script {
    ghost use Rattle.std.specs.Cmp.Lexicographic.{nat_list_eq_equiv};

    ghost laws = { nat_list_eq_equiv };
}

impl Script {
    /// A script with no bytes, which takes no memory.
    pub fn new(alloc: Global) -> Self
        ensures { result ≡ [] }
    {
        Script {
            bytes: Vec::new(alloc),
        }
    }

    /// A script with these bytes.
    pub fn from_slice(alloc: Global, bytes: &[u8]) -> Result<Self, AllocError>
        ensures { IfOk result (λ script. script ≡ bytes.now) }
    {
        Ok(Script {
            bytes: Vec::from_slice(alloc, bytes)?,
        })
    }

    /// Its bytes.
    pub fn as_slice(&self) -> &[u8]
        ensures { result.now ≡ self.now }
    {
        &self.bytes
    }
}
