//! The index from outpoints to places.

ghost use Rattle.std.specs.Prelude.{◌≡◌, ◌+◌, ◌≤◌, ◌<◌, [], length, Some, IsSome, IsOk, IfOk, OnOk, OnErr, All, is_some, option_map};
ghost use Rattle.std.specs.FinMap.{get, insert, remove, empty};
ghost use Rattle.std.specs.Option.{unwrap_or};
ghost use Rattle.coin_store.specs.IndexKeys.{key_cmp, key_total, key_writes, same_writes};
ghost use Rattle.coin_store.specs.IndexMaps.{salted, vacancy as vacancy_of};
ghost use Rattle.std.specs.List.{list_any, IsDistinct};
ghost use Rattle.std.specs.Ordering.{eq_by_cmp};
ghost use Rattle.base_types.specs.Keys.{outpoint_cmp};
ghost use Rattle.base_types.specs.declared.hash.OutPoint.{OutPoint};
ghost use Rattle.coin_store.specs.Behind.{coin_place};
ghost use Rattle.coin_store.specs.OpenIndex.{HasFewVacant};
ghost use Rattle.coin_store.specs.Places.{live};
ghost use Rattle.coin_store.specs.Staged.{HasEntry, SameLive};
ghost use Rattle.std.specs.Cmp.{eq_by_cmp_equiv, partial_equiv_from_equiv};

use crate::places::CoinPlace;
use base_types::{OutPoint, Salt};
use std::alloc::{AllocError, Global};
use std::collections::HashMap;
use std::hash::{BuildHasher, DefaultHasher, Hash, Hasher};
use std::marker::Model;

/// An outpoint that is hashed by words, where a derived hash goes byte by byte.
#[derive(Clone, Copy, Debug)]
pub struct IndexKey {
    outpoint: OutPoint,
}

impl PartialEq for IndexKey {
    ghost eq = { eq_by_cmp key_cmp };

    ghost laws = { partial_equiv_from_equiv (eq_by_cmp_equiv key_total) };

    fn eq(&self, other: &IndexKey) -> bool {
        self.outpoint == other.outpoint
    }
}

impl Eq for IndexKey {
    ghost laws = { eq_by_cmp_equiv key_total };
}

impl Hash for IndexKey {
    ghost hash_input = { key_writes };

    ghost respects_eq = { same_writes };

    fn hash<H: Hasher>(&self, state: &mut H) {
        state.write(&self.outpoint.txid.bytes);
        state.write_u64(u64::from(self.outpoint.index));
    }
}

// 1 for an entry without a coin.
fn vacancy(place: Option<CoinPlace>) -> usize
    ensures { result ≡ unwrap_or (option_map vacancy_of place) 0 }
{
    match place {
        Some(place) if place.len == 0 => 1,
        _ => 0,
    }
}

/// Hashers that begin with a salt, since strangers choose the outpoints.
#[derive(Clone, Copy)]
pub struct Salted {
    initial: DefaultHasher,
}

impl Salted {
    fn new(salt: &Salt) -> Salted
        ensures { result ≡ salted salt.now }
    {
        let mut initial = DefaultHasher::new();
        initial.write_u64(salt.a);
        initial.write_u64(salt.b);
        Salted { initial }
    }
}

impl BuildHasher for Salted {
    type Hasher = DefaultHasher;

    ghost build_hasher = { λ salted. salted.initial };

    fn build_hasher(&self) -> DefaultHasher {
        self.initial
    }
}

/// The place of an outpoint without a coin: room in which a place can be put without taking memory.
pub const VACANT: CoinPlace = CoinPlace {
    gate: 0,
    at: 0,
    len: 0,
    file: 0,
};

/// A map from outpoints to places. An entry takes 36 bytes for the outpoint, 24 for the place, and some 15 to be found by.
#[derive(Drop)]
pub struct Index {
    places: HashMap<IndexKey, CoinPlace, Salted>,
    // How many places have no bytes.
    vacant: usize,
    salt: Salt,
}

impl Model for Index {
    ghost use Rattle.coin_store.specs.OpenIndex.{OpenIndex, index_code};

    ghost Value = { OpenIndex };

    ghost coded = { index_code };

    ghost use Rattle.std.specs.Prelude.{◌≡◌};
    ghost use Rattle.std.specs.HashMap.{hash_map_len, hasher_of, spare};
    ghost use Rattle.coin_store.specs.IndexMaps.{map_of, salted, vacancies};

    ghost view = { λ index. record { places = map_of index.places; size = hash_map_len index.places; vacant = index.vacant; spare = spare index.places; salt = index.salt } };

    ghost invariant = { λ index. (index.vacant ≡ vacancies index.places) × (hasher_of index.places ≡ salted index.salt) };
}

impl Index {
    /// No places, which takes no memory.
    pub fn new(alloc: Global, salt: &Salt) -> Index
        ensures places { result.places ≡ empty }
        ensures salt { result.salt ≡ salt.now }
    {
        Index {
            places: HashMap::with_hasher(alloc, Salted::new(salt)),
            vacant: 0,
            salt: *salt,
        }
    }

    /// The place of an outpoint, if it has one.
    pub fn get(&self, key: &OutPoint) -> Option<CoinPlace>
        ensures { result ≡ get self.now.places key.now }
    {
        self.places.get(&IndexKey { outpoint: *key }).copied()
    }

    /// The place of an outpoint's coin, if it has one.
    pub fn coin_place(&self, key: &OutPoint) -> Option<CoinPlace>
        ensures { result ≡ coin_place self.now key.now }
    {
        match self.get(key) {
            Some(place) if place.len > 0 => Some(place),
            _ => None,
        }
    }

    /// A copy, with the same salt.
    pub fn copy(&self, alloc: Global) -> Result<Index, AllocError>
        ensures places { IfOk result (λ copy. copy.places ≡ self.now.places) }
        ensures salt { IfOk result (λ copy. copy.salt ≡ self.now.salt) }
    {
        let mut copy = Index::new(alloc, &self.salt);
        for (key, place) in self.places.iter() {
            copy.set(&key.outpoint, *place)?;
        }
        Ok(copy)
    }

    /// Gives an outpoint a place. Where it has one already, or there is room, this takes no memory.
    pub fn set(&mut self, key: &OutPoint, place: CoinPlace) -> Result<(), AllocError>
        ensures ok { OnOk result (self.new.places ≡ insert self.old.places key.now place) }
        ensures err { OnErr result (self.new.places ≡ self.old.places) }
        ensures known { IsSome (get self.old.places key.now) → IsOk result }
        ensures roomy { 0 < self.old.spare → IsOk result }
        ensures spare { self.old.spare ≤ self.new.spare + 1 }
        ensures size { self.old.size ≤ self.new.size }
        ensures salt { self.new.salt ≡ self.old.salt }
    {
        prove!(self.vacant <= self.places.len());
        let old = self.places.insert(IndexKey { outpoint: *key }, place)?;
        self.vacant = self.vacant + vacancy(Some(place)) - vacancy(old);
        Ok(())
    }

    /// Takes the place of an outpoint away.
    pub fn remove(&mut self, key: &OutPoint)
        ensures places { self.new.places ≡ remove self.old.places key.now }
        ensures salt { self.new.salt ≡ self.old.salt }
    {
        let old = self.places.remove(&IndexKey { outpoint: *key });
        self.vacant -= vacancy(old);
    }

    /// Makes room for so many entries more. Entries stay, whether there is memory or not.
    pub fn reserve(&mut self, count: usize) -> Result<(), AllocError>
        ensures ok { OnOk result (count ≤ self.new.spare) }
        ensures same { self.new ≡ record self.old { spare = self.new.spare } }
    {
        self.places.reserve(count)
    }

    /// Adds an entry for each of these outpoints that has none, for which there is room: setting their places takes no
    /// memory from then on. Where more than half of the entries have no coin these go first, so that the index grows with
    /// the coins that there are.
    pub fn add_entries(&mut self, keys: &[OutPoint])
        requires { length keys.now ≤ self.old.spare }
        ensures entries { All (HasEntry self.new.places) keys.now }
        ensures few { HasFewVacant self.new keys.now }
        ensures same { SameLive self.old.places self.new.places }
        ensures salt { self.new.salt ≡ self.old.salt }
    {
        self.trim();
        for key in keys {
            if self.get(key).is_none() {
                self.set(key, VACANT).unwrap();
            }
        }
    }

    // Gives back the entries without coins where they are more than half of all.
    fn trim(&mut self)
        ensures same { SameLive self.old.places self.new.places }
        ensures few { HasFewVacant self.new [] }
        ensures spare { self.old.spare ≤ self.new.spare }
        ensures salt { self.new.salt ≡ self.old.salt }
    {
        if self.vacant <= self.places.len() / 2 {
            return;
        }
        self.places.retain(|_, place| place.len > 0);
        self.vacant = 0;
    }

    /// The outpoints that have a place with bytes, each once, in no order.
    pub fn outpoints(&self, alloc: Global) -> Result<Vec<OutPoint>, AllocError>
        ensures found { IfOk result (λ keys. (q : OutPoint) → list_any (eq_by_cmp outpoint_cmp q) keys.items ≡ is_some (live (get self.now.places q))) }
        ensures once { IfOk result (λ keys. IsDistinct (eq_by_cmp outpoint_cmp) keys.items) }
    {
        let mut keys = Vec::new(alloc);
        for (key, place) in self.places.iter() {
            if place.len > 0 {
                keys.push(key.outpoint)?;
            }
        }
        Ok(keys)
    }
}
