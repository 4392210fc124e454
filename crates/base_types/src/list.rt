//! Lists whose members contracts see.

ghost use Rattle.std.specs.Prelude.{◌≡◌, ◌++◌, [], ◌∷◌, OnOk, OnErr};

use std::alloc::{AllocError, Global};
use std::marker::Model;

/// A `Vec` that contracts see as the list of its members, so that a type which holds one is plain data to them.
#[derive(Clone, Debug, Drop)]
pub struct List<T> {
    members: Vec<T>,
}

impl<T> Model for List<T> {
    ghost use Rattle.std.specs.Prelude.{List};

    ghost Value = { List T };

    ghost view = { λ list. list.members.items };
}

impl<T: PartialEq> PartialEq for List<T> {
    ghost use Rattle.std.specs.Cmp.Lexicographic.{pointwise, lists_per};

    ghost eq = { pointwise T.eq };

    ghost laws = { lists_per T.laws };

    fn eq(&self, other: &List<T>) -> bool {
        self.as_slice() == other.as_slice()
    }
}

impl<T: Eq> Eq for List<T> {
    ghost use Rattle.std.specs.Cmp.Lexicographic.{lists_equiv};

    ghost laws = { lists_equiv T.Eq.laws };
}

impl<T> From<Vec<T>> for List<T> {
    ghost from_gives = { λ members list. list ≡ members.items };

    fn from(members: Vec<T>) -> List<T> {
        List { members }
    }
}

impl<T> List<T> {
    /// No members, which takes no memory.
    pub fn new(alloc: Global) -> Self
        ensures { result ≡ [] }
    {
        List {
            members: Vec::new(alloc),
        }
    }

    /// The members alone.
    pub fn into_vec(self) -> Vec<T>
        ensures { result.items ≡ self }
    {
        self.members
    }

    /// The members.
    pub fn as_slice(&self) -> &[T]
        ensures { result.now ≡ self.now }
    {
        &self.members
    }
}

impl<T: Drop> List<T> {
    /// Adds a member at the end.
    pub fn push(&mut self, member: T) -> Result<(), AllocError>
        ensures ok { OnOk result (self.new ≡ self.old ++ member ∷ []) }
        ensures err { OnErr result (self.new ≡ self.old) }
    {
        Ok(self.members.push(member)?)
    }
}
