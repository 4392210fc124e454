//! A pool whose values an index finds by their keys, as a cache of coins has them.

use base_types::{OutPoint, Salt};
use coin_index::{Chained, Index};
use slot_pool::{Pool, Slot};
use std::alloc::{AllocError, Global};
use std::marker::Model;
use std::mem::size_of;

/// A value, its key, and the link of its chain.
#[derive(Drop)]
pub struct Entry {
    key: OutPoint,
    value: u64,
    next: Option<Slot>,
}

impl Chained for Entry {
    ghost use Rattle.std.specs.Prelude.{refl};

    ghost key_of = { λ e. e.key };

    ghost chain_of = { λ e. e.next };

    ghost with_chain = { λ e n. record e { next = n } };

    ghost chain_set = { λ e n. refl };

    ghost key_kept = { λ e n. refl };

    ghost set_twice = { λ e n k. refl };

    ghost set_own = { λ e. refl };

    fn key(&self) -> OutPoint {
        self.key
    }

    fn chain(&self) -> Option<Slot> {
        self.next
    }

    fn set_chain(&mut self, next: Option<Slot>) {
        self.next = next;
    }
}

/// The pool, the index over it, and the number of keys.
#[derive(Drop)]
pub struct Shelf {
    pool: Pool<Entry>,
    index: Index,
    count: u32,
}

impl Model for Shelf {
    ghost use Rattle.std.specs.Prelude.{ℕ};
    ghost use Rattle.std.specs.FinMap as map;
    ghost use Rattle.base_types.specs.Keys.{outpoint_cmp};
    ghost use Rattle.coin_index.specs.Index.{IsIndex};

    ghost Value = { ℕ };

    ghost view = { λ s. s.count };

    ghost invariant = { λ s. (found : map.FinMap outpoint_cmp ℕ) × IsIndex (λ e. e.key) (λ e. e.next) s.pool.values s.index found };
}

impl Shelf {
    /// No keys.
    pub fn new(alloc: Global, salt: &Salt) -> Self {
        Shelf {
            pool: Pool::new(alloc),
            index: Index::new(alloc, salt),
            count: 0,
        }
    }

    /// How many bytes an entry takes, and how many of them are its link.
    pub fn sizes(&self) -> (usize, usize) {
        (size_of::<Entry>(), size_of::<Option<Slot>>())
    }

    /// Gives a key its value, unless it has one.
    pub fn store(&mut self, key: OutPoint, value: u64) -> Result<(), AllocError> {
        self.count = self.count.saturating_add(1);
        if self.pool.reserve(1).is_err() {
            return Err(AllocError);
        }
        self.index.reserve_buckets(&mut self.pool, self.count)?;
        match self.index.find(&self.pool, &key) {
            Some(_) => {}
            None => {
                let slot = self.pool.put(Entry {
                    key,
                    value,
                    next: None,
                });
                self.index.link(&mut self.pool, slot);
            }
        }
        Ok(())
    }

    /// The value of a key.
    pub fn find(&self, key: &OutPoint) -> Option<u64> {
        match self.index.find(&self.pool, key) {
            Some(slot) => Some(self.pool.get(slot).value),
            None => None,
        }
    }

    /// Takes a key out, and gives its value.
    pub fn take(&mut self, key: &OutPoint) -> Option<u64> {
        match self.index.find(&self.pool, key) {
            Some(slot) => {
                self.index.unlink(&mut self.pool, slot);
                Some(self.pool.take(slot).value)
            }
            None => None,
        }
    }
}
