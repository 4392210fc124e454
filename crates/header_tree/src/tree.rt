//! The tree of headers: what it holds, and what it answers of one block.

ghost use Rattle.std.specs.Prelude.{◌≡◌, ◌<◌, ◌≤◌, Some, length, slice_get, is_some, IfOk, IfSome};
ghost use Rattle.std.specs.Option.{option_copied};
ghost use Rattle.std.specs.FinMap as finite;
ghost use Rattle.chain_model.specs.Tree.{of_member, height as height_of};
ghost use Rattle.chain_model.specs.HeaderRules.{IsTree};
ghost use Rattle.header_tree.specs.State.{first_state, IsAcceptedInOrder, IsListing};

use crate::entry::Entry;
use crate::numbers::Numbers;
use base_types::{Hash32, Limits, Rules};
use block_codec::{GENESIS, Header, genesis_hash};
use std::alloc::{AllocError, Global};
use std::marker::Model;

/// The headers that were accepted, genesis first. A header takes some 190 bytes.
#[derive(Drop)]
pub struct Tree {
    pub(crate) entries: Vec<Entry>,
    pub(crate) numbers: Numbers,
    pub(crate) limit: u32,
    pub(crate) rules: Rules,
}

impl Model for Tree {
    ghost use Rattle.header_tree.specs.State.{State, state_code};

    ghost Value = { State };

    ghost coded = { state_code };

    ghost use Rattle.header_tree.specs.Kept.{state_of, IsKept};

    ghost view = { λ t. state_of t.entries.items t.limit t.rules };

    ghost invariant = { λ t. IsKept t.entries.items t.numbers t.limit t.rules };
}

impl Tree {
    /// The tree of genesis alone, which may hold so many headers with it, under these rules.
    pub fn new(alloc: Global, limits: &Limits, rules: &Rules) -> Result<Tree, AllocError>
        ensures first { IfOk result (λ tree. tree ≡ first_state limits.now.headers rules.now) }
        ensures tree { IfOk result (λ tree. IsTree tree.limit tree.tree) }
    {
        let hash = genesis_hash();
        let mut entries = Vec::new(alloc);
        let mut numbers = Numbers::new(alloc);
        numbers.insert(hash, 0)?;
        entries.push(Entry {
            header: GENESIS,
            hash,
            height: 0,
            parent: 0,
            skip: 0,
        })?;
        Ok(Tree {
            entries,
            numbers,
            limit: limits.headers,
            rules: *rules,
        })
    }

    /// The number of headers, with genesis.
    pub fn size(&self) -> u32
        ensures count { result ≡ finite.len self.now.tree.headers }
        ensures listed { result ≡ length self.now.order }
        ensures some { 1 ≤ result }
        ensures tree { IsTree self.now.limit self.now.tree }
    {
        self.entries.len() as u32
    }

    /// The hash that was accepted after so many others; genesis is the first. None where there are no more.
    pub fn at(&self, number: u32) -> Option<Hash32>
        ensures hash { result ≡ slice_get self.now.order number }

        // The order has each member once, and only what was accepted after what stands before it.
        ensures listing { IsListing self.now.tree.headers self.now.order }
        ensures in_order { IsAcceptedInOrder self.now }
    {
        match self.entries.get(number as usize) {
            Some(entry) => Some(entry.hash),
            None => None,
        }
    }

    /// The heights from which four rules hold.
    pub fn rules(&self) -> &Rules
        ensures { result.now ≡ self.now.tree.rules }
    {
        &self.rules
    }

    /// The number of a hash in the order of acceptance. The last two are asked for most, since headers mostly come in
    /// the order of a chain.
    pub(crate) fn number(&self, hash: &Hash32) -> Option<u32>
        ensures there { IfSome result (λ number. slice_get self.now.order number ≡ Some hash.now) }
        ensures known { is_some result ≡ finite.contains_key self.now.tree.headers hash.now }
    {
        let last = self.entries.len() - 1;
        if self.entries[last].hash == *hash {
            return Some(last as u32);
        }
        let before = last.saturating_sub(1);
        if self.entries[before].hash == *hash {
            return Some(before as u32);
        }
        self.numbers.get(hash)
    }

    /// The header of this hash.
    pub fn header(&self, hash: &Hash32) -> Option<&Header>
        ensures { option_copied result ≡ finite.get self.now.tree.headers hash.now }
    {
        match self.numbers.get(hash) {
            Some(number) => Some(&self.entries[number as usize].header),
            None => None,
        }
    }

    /// The number of blocks below it.
    pub fn height(&self, hash: &Hash32) -> Option<u32>
        ensures { result ≡ of_member self.now.tree.headers hash.now (height_of self.now.tree.headers hash.now) }
    {
        match self.number(hash) {
            Some(number) => Some(self.height_at(number)),
            None => None,
        }
    }
}
