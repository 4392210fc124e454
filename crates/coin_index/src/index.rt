//! The index: its buckets, and the calls on its chains.
ghost use Rattle.std.specs.Prelude.{◌≡◌, ◌≢◌, ◌+◌, ◌<◌, ◌≤◌, List, ◌∷◌, ◌++◌, Some, None, IsSome, OnOk, OnErr, IfOk, length, replicate, slice_set};
ghost use Rattle.std.specs.FinMap as map;
ghost use Rattle.base_types.specs.Keys.{outpoint_cmp};
ghost use Rattle.slot_pool.specs.Changes.{ChangesOnly};
ghost use Rattle.slot_pool.specs.Pool.{with_value};
ghost use Rattle.slot_pool.specs.Slots.{first_or, last_or, IsDistinct};
ghost use Rattle.coin_index.specs.Hash.{bucket_of};
ghost use Rattle.coin_index.specs.Index.{AreChained, HasEmptyBuckets, IsIndex, IsNew, bucket_count, salt_of};
ghost use Rattle.coin_index.specs.Rehash.{AreSplit};

use crate::chained::Chained;
use crate::hash::{bucket, is_same};
use base_types::{OutPoint, Salt};
use slot_pool::{Pool, Slot};
use std::alloc::{AllocError, Global};

// A small index isn't rehashed for each few keys.
const LEAST_BUCKETS: usize = 16;

/// An index from outpoints to slots. What it finds is a relation between it and the pool that holds its chains: `IsIndex`.
#[derive(Drop)]
pub struct Index {
    buckets: Vec<Option<Slot>>,
    salt: Salt,
    alloc: Global,
}

fn set_chain<T: Chained>(pool: &mut Pool<T>, slot: Slot, next: Option<Slot>)
    requires { IsSome (map.get pool.old.values slot) }
    ensures { (x : T) → map.get pool.old.values slot ≡ Some x → pool.new ≡ with_value pool.old slot (T.with_chain x next) }
{
    pool.get_mut(slot).set_chain(next);
}

// The slot before `slot` in the chain that begins with `head`; none where `slot` is the first.
fn before<T: Chained>(pool: &Pool<T>, head: Option<Slot>, slot: Slot) -> Option<Slot>
    requires { (xs ys : List Slot) × AreChained T.key_of T.chain_of pool.now.values (xs ++ slot ∷ ys)
        × IsDistinct (xs ++ slot ∷ ys) × (head ≡ first_or None (xs ++ slot ∷ ys)) }
    ensures { (xs ys : List Slot) → AreChained T.key_of T.chain_of pool.now.values (xs ++ slot ∷ ys)
        → IsDistinct (xs ++ slot ∷ ys) → head ≡ first_or None (xs ++ slot ∷ ys) → result ≡ last_or None xs }
{
    let mut last = None;
    let mut at = head;
    while let Some(here) = at {
        if here == slot {
            return last;
        }
        last = at;
        at = pool.get(here).chain();
    }
    None
}

// Buckets without a slot.
fn empty_buckets(alloc: Global, count: usize) -> Result<Vec<Option<Slot>>, AllocError>
    ensures { IfOk result (λ v. v.items ≡ replicate count None) }
{
    Vec::from_elem(alloc, None, count)
}

impl Index {
    /// An index without buckets. It finds nothing, and takes no memory.
    pub fn new(alloc: Global, salt: &Salt) -> Self
        ensures { IsNew result salt.now }
    {
        Index {
            buckets: Vec::new(alloc),
            salt: *salt,
            alloc,
        }
    }

    /// The salt of its hash.
    pub fn salt(&self) -> Salt
        ensures { result ≡ salt_of self.now }
    {
        self.salt
    }

    /// Takes all slots away: over every pool the index finds nothing then. Its buckets stay. It takes no memory.
    pub fn clear(&mut self)
        ensures buckets { HasEmptyBuckets self.new (bucket_count self.old) }
        ensures salt { salt_of self.new ≡ salt_of self.old }
    {
        for place in 0..self.buckets.len() {
            self.buckets[place] = None;
        }
    }

    // The bucket of a key.
    fn place(&self, key: &OutPoint) -> usize
        requires { 0 < bucket_count self.now }
        ensures bucket { result ≡ bucket_of self.now.salt (length self.now.buckets.items) key.now }
        ensures below { result < length self.now.buckets.items }
    {
        bucket(&self.salt, key, self.buckets.len())
    }

    /// Makes room for `n` keys: a bucket for each of them at least, so that most chains have one slot or none. What is
    /// found stays. The chains move within the pool, so that the buckets are all the memory that it takes.
    pub fn reserve_buckets<T: Chained>(
        &mut self,
        pool: &mut Pool<T>,
        n: u32,
    ) -> Result<(), AllocError>
        requires { (slots : map.FinMap outpoint_cmp Slot) × IsIndex T.key_of T.chain_of pool.old.values self.old slots }
        ensures index { (slots : map.FinMap outpoint_cmp Slot) → IsIndex T.key_of T.chain_of pool.old.values self.old slots
            → IsIndex T.key_of T.chain_of pool.new.values self.new slots }
        ensures changes { ChangesOnly T.with_chain pool.old pool.new }
        ensures salt { salt_of self.new ≡ salt_of self.old }
        ensures ok { OnOk result ((0 < bucket_count self.new) × (n ≤ bucket_count self.new)) }
        ensures err { OnErr result ((self.new ≡ self.old) × (pool.new ≡ pool.old)) }
    {
        let wanted = n as usize;
        if !self.buckets.is_empty() && wanted <= self.buckets.len() {
            return Ok(());
        }
        // Twice as many as are asked for, so that keys that come one by one move seldom.
        let buckets = empty_buckets(self.alloc, (wanted * 2).max(LEAST_BUCKETS))?;
        let mut target = Index {
            buckets,
            salt: self.salt,
            alloc: self.alloc,
        };
        for b in 0..self.buckets.len() {
            self.empty_bucket(b, &mut target, pool);
        }
        *self = target;
        Ok(())
    }

    // Moves the slots of one bucket to another index.
    fn empty_bucket<T: Chained>(&mut self, b: usize, target: &mut Index, pool: &mut Pool<T>)
        requires bucket { b < length self.old.buckets.items }
        requires room { 0 < bucket_count target.old }
        requires index { (all : map.FinMap outpoint_cmp Slot) × AreSplit T.key_of T.chain_of pool.old.values self.old target.old all }
        ensures index { (all : map.FinMap outpoint_cmp Slot) → AreSplit T.key_of T.chain_of pool.old.values self.old target.old all
            → AreSplit T.key_of T.chain_of pool.new.values self.new target.new all }
        ensures changes { ChangesOnly T.with_chain pool.old pool.new }
        ensures bucket { self.new.buckets.items ≡ slice_set self.old.buckets.items b None }
        ensures target { (bucket_count target.new ≡ bucket_count target.old) × (salt_of target.new ≡ salt_of target.old) }
    {
        while let Some(slot) = self.buckets[b] {
            self.buckets[b] = pool.get(slot).chain();
            target.link(pool, slot);
        }
    }

    /// The slot of the key.
    pub fn find<T: Chained>(&self, pool: &Pool<T>, key: &OutPoint) -> Option<Slot>
        requires { (slots : map.FinMap outpoint_cmp Slot) × IsIndex T.key_of T.chain_of pool.now.values self.now slots }
        ensures { (slots : map.FinMap outpoint_cmp Slot) → IsIndex T.key_of T.chain_of pool.now.values self.now slots
            → result ≡ map.get slots key.now }
    {
        if self.buckets.is_empty() {
            return None;
        }
        let mut at = self.buckets[self.place(key)];
        while let Some(slot) = at {
            let value = pool.get(slot);
            if is_same(&value.key(), key) {
                return Some(slot);
            }
            at = value.chain();
        }
        None
    }

    /// Makes the slot that of its key, which has none yet. It takes no memory.
    pub fn link<T: Chained>(&mut self, pool: &mut Pool<T>, slot: Slot)
        requires buckets { 0 < bucket_count self.old }
        requires held { IsSome (map.get pool.old.values slot) }
        requires index { (slots : map.FinMap outpoint_cmp Slot) × IsIndex T.key_of T.chain_of pool.old.values self.old slots
            × ((x : T) → map.get pool.old.values slot ≡ Some x → map.get slots (T.key_of x) ≡ None) }
        ensures index { (slots : map.FinMap outpoint_cmp Slot) (x : T) → IsIndex T.key_of T.chain_of pool.old.values self.old slots
            → map.get pool.old.values slot ≡ Some x → map.get slots (T.key_of x) ≡ None
            → IsIndex T.key_of T.chain_of pool.new.values self.new (map.insert slots (T.key_of x) slot) }
        ensures changes { ChangesOnly T.with_chain pool.old pool.new }
        ensures others { (s : Slot) → s ≢ slot → map.get pool.new.values s ≡ map.get pool.old.values s }
        ensures buckets { bucket_count self.new ≡ bucket_count self.old }
        ensures salt { salt_of self.new ≡ salt_of self.old }
    {
        let key = pool.get(slot).key();
        let b = self.place(&key);
        set_chain(pool, slot, self.buckets[b]);
        self.buckets[b] = Some(slot);
    }

    /// Takes the slot away from its key. It takes no memory.
    pub fn unlink<T: Chained>(&mut self, pool: &mut Pool<T>, slot: Slot)
        requires { (slots : map.FinMap outpoint_cmp Slot) × (x : T) × IsIndex T.key_of T.chain_of pool.old.values self.old slots
            × (map.get pool.old.values slot ≡ Some x) × (map.get slots (T.key_of x) ≡ Some slot) }
        ensures index { (slots : map.FinMap outpoint_cmp Slot) (x : T) → IsIndex T.key_of T.chain_of pool.old.values self.old slots
            → map.get pool.old.values slot ≡ Some x → map.get slots (T.key_of x) ≡ Some slot
            → IsIndex T.key_of T.chain_of pool.new.values self.new (map.remove slots (T.key_of x)) }
        ensures changes { ChangesOnly T.with_chain pool.old pool.new }
        ensures buckets { bucket_count self.new ≡ bucket_count self.old }
        ensures salt { salt_of self.new ≡ salt_of self.old }
    {
        let key = pool.get(slot).key();
        let next = pool.get(slot).chain();
        let b = self.place(&key);
        match before(pool, self.buckets[b], slot) {
            Some(last) => set_chain(pool, last, next),
            None => self.buckets[b] = next,
        }
    }
}
