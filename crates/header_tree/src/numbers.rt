//! The numbers of headers by their hashes.

ghost use Rattle.std.specs.Prelude.{◌≡◌, OnOk, OnErr};
ghost use Rattle.std.specs.FinMap as finite;

use base_types::Hash32;
use std::alloc::{AllocError, Global};
use std::collections::BTreeMap;
use std::marker::Model;

/// A number for each hash. Strangers choose the hashes, so the map is ordered.
#[derive(Drop)]
pub(crate) struct Numbers {
    map: BTreeMap<Hash32, u32>,
}

impl Model for Numbers {
    ghost use Rattle.std.specs.Prelude.{ℕ};
    ghost use Rattle.std.specs.Coded.{coded_ℕ};
    ghost use Rattle.std.specs.FinMap as finite;
    ghost use Rattle.base_types.specs.Keys.{hash_cmp};
    ghost use Rattle.base_types.specs.contracts.hash.Hash32 as hash;

    ghost Value = { finite.FinMap hash_cmp ℕ };

    ghost coded = { finite.code hash.the_row.coded coded_ℕ };

    ghost view = { λ n. finite.from_entries n.map.entries };
}

impl Numbers {
    /// No numbers, which takes no memory.
    pub(crate) fn new(alloc: Global) -> Self
        ensures { result ≡ finite.empty }
    {
        Numbers {
            map: BTreeMap::new(alloc),
        }
    }

    /// The number of a hash.
    pub(crate) fn get(&self, hash: &Hash32) -> Option<u32>
        ensures { result ≡ finite.get self.now hash.now }
    {
        self.map.get(hash).copied()
    }

    /// Gives a hash its number. Where memory runs out the numbers stay as they were.
    pub(crate) fn insert(&mut self, hash: Hash32, number: u32) -> Result<(), AllocError>
        ensures ok { OnOk result (self.new ≡ finite.insert self.old hash number) }
        ensures err { OnErr result (self.new ≡ self.old) }
    {
        self.map.insert(hash, number)?;
        Ok(())
    }
}
