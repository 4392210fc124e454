//! Lists of outpoints.

ghost use Rattle.std.specs.Prelude.{◌≡◌, ◌++◌, [], ◌∷◌, OnOk, OnErr};

use crate::hash::OutPoint;
use std::alloc::{AllocError, Global};
use std::marker::Model;

/// A list of outpoints.
#[derive(Debug, Drop)]
pub struct Keys {
    members: Vec<OutPoint>,
}

impl Model for Keys {
    ghost use Rattle.std.specs.Prelude.{List};
    ghost use Rattle.base_types.specs.declared.hash.OutPoint.{OutPoint};

    ghost Value = { List OutPoint };

    ghost view = { λ keys. keys.members.items };
}

impl From<Vec<OutPoint>> for Keys {
    ghost from_gives = { λ members keys. keys ≡ members.items };

    fn from(members: Vec<OutPoint>) -> Keys {
        Keys { members }
    }
}

impl Keys {
    /// No outpoints, which takes no memory.
    pub fn new(alloc: Global) -> Self
        ensures { result ≡ [] }
    {
        Keys {
            members: Vec::new(alloc),
        }
    }

    /// Adds an outpoint at the end.
    pub fn push(&mut self, key: OutPoint) -> Result<(), AllocError>
        ensures ok { OnOk result (self.new ≡ self.old ++ key ∷ []) }
        ensures err { OnErr result (self.new ≡ self.old) }
    {
        Ok(self.members.push(key)?)
    }

    /// The outpoints.
    pub fn as_slice(&self) -> &[OutPoint]
        ensures { result.now ≡ self.now }
    {
        &self.members
    }
}
