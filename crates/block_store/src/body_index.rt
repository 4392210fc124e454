//! The hashes of the bodies, in their order, and which body counts for a hash.

ghost use Rattle.std.specs.Prelude.{◌≡◌, ◌++◌, [], ◌∷◌, is_some, length, IfOk, OnErr, List};
ghost use Rattle.base_types.specs.declared.hash.Hash32.{Hash32};
ghost use Rattle.block_store.specs.Index.{last_place};

use base_types::Hash32;
use std::alloc::{AllocError, Global};
use std::collections::BTreeMap;
use std::marker::Model;

/// The hash of each body. Clauses see the list of them.
#[derive(Drop)]
pub(crate) struct BodyIndex {
    hashes: Vec<Hash32>,
    // The place of the last body of a hash. Strangers choose the hashes, so the map is ordered.
    last: BTreeMap<Hash32, usize>,
}

impl Model for BodyIndex {
    ghost use Rattle.std.specs.Prelude.{◌≡◌, List};
    ghost use Rattle.std.specs.BTreeMap as tree;
    ghost use Rattle.base_types.specs.Keys.{hash_cmp};
    ghost use Rattle.base_types.specs.declared.hash.Hash32.{Hash32};
    ghost use Rattle.block_store.specs.Index.{last_place};

    ghost Value = { List Hash32 };

    ghost view = { λ index. index.hashes.items };

    ghost invariant = { λ index. (hash : Hash32) → tree.get hash_cmp index.last hash ≡ last_place index.hashes.items hash };
}

impl BodyIndex {
    /// No bodies, which takes no memory.
    pub(crate) fn new(alloc: Global) -> Self
        ensures { result ≡ [] }
    {
        BodyIndex {
            hashes: Vec::new(alloc),
            last: BTreeMap::new(alloc),
        }
    }

    /// The place of the last body of this hash.
    pub(crate) fn last(&self, hash: &Hash32) -> Option<usize>
        ensures { result ≡ last_place self.now hash.now }
    {
        self.last.get(hash).copied()
    }

    /// Whether there is a body of this hash.
    pub(crate) fn contains(&self, hash: &Hash32) -> bool
        ensures { result ≡ is_some (last_place self.now hash.now) }
    {
        self.last.contains_key(hash)
    }

    /// The hashes of the bodies.
    pub(crate) fn hashes(&self) -> &[Hash32]
        ensures { result.now ≡ self.now }
    {
        &self.hashes
    }

    /// Adds the hash of a further body. Answers which body counted for it before.
    pub(crate) fn add(&mut self, hash: Hash32) -> Result<Option<usize>, AllocError>
        ensures ok { IfOk result (λ before. (self.new ≡ self.old ++ hash ∷ []) × (before ≡ last_place self.old hash)) }
        ensures err { OnErr result (self.new ≡ self.old) }
        ensures whole { length hash.bytes ≡ 32 }
    {
        let place = self.hashes.len();
        self.hashes.push(hash)?;
        match self.last.insert(hash, place) {
            Ok(before) => Ok(before),
            Err(_) => {
                self.hashes.pop();
                Err(AllocError)
            }
        }
    }

    /// Takes the hash that was added last away again, given which body counted for it before.
    pub(crate) fn take_back(&mut self, hash: Hash32, before: Option<usize>)
        requires { (hashes : List Hash32) × (self.old ≡ hashes ++ hash ∷ []) × (before ≡ last_place hashes hash) }
        ensures { (hashes : List Hash32) → self.old ≡ hashes ++ hash ∷ [] → self.new ≡ hashes }
    {
        self.hashes.pop();
        match before {
            Some(place) => self.last.insert(hash, place).is_ok(),
            None => self.last.remove(&hash).is_some(),
        };
    }
}
