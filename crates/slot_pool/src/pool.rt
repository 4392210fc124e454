//! A pool of values: a finite map from slots to values, and the number of values that fit without memory.
ghost use Rattle.std.specs.Prelude.{◌≡◌, ◌+◌, ◌-◌, ◌*◌, ◌<◌, ◌≤◌, ◌^◌, ◌↔◌, ◌++◌, is_some, IsSome, IsErrOf, OnOk, OnErr, Some, None, vec_len, vec_capacity};
ghost use Rattle.std.specs.FinMap as map;
ghost use Rattle.std.specs.Borrow.{sem};
ghost use Rattle.slot_pool.specs.Pool.{contents};
ghost use Rattle.slot_pool.specs.Layout.{numbers};

use crate::chunk::Chunk;
use crate::slot::Slot;
use std::alloc::{AllocError, Global};
use std::marker::Model;

/// Why a pool has no room.
#[derive(Clone, Copy, PartialEq, Eq, Debug)]
pub enum PoolRefused {
    NoMemory,
    /// More than 4,294,967,294 slots would be in use.
    PoolFull,
}

/// A pool of values of one type, in chunks of 256 slots. Values don't move while it grows.
/// A clause sees the values by their slots, and how many more fit without memory.
#[derive(Drop)]
pub struct Pool<T> {
    chunks: Vec<Chunk<T>>,
    // The empty places, the next to be filled last. It has room for every place, so `take` needs no memory.
    vacant: Vec<u32>,
    alloc: Global,
}

impl<T> Model for Pool<T> {
    ghost use Rattle.std.specs.Prelude.{vec_len, vec_capacity};
    ghost use Rattle.slot_pool.specs.Pool.{Contents, contents, contents_code};

    ghost Value = { Contents T };

    ghost coded = { contents_code T.code };

    ghost use Rattle.slot_pool.specs.Layout.{map_from, places_of, IsPool};

    ghost view = { λ p. contents (map_from 0 (places_of p.chunks.items)) (vec_len p.vacant) };

    ghost invariant = { λ p. IsPool p.chunks.items p.vacant.items (vec_capacity p.vacant) };
}

// Makes room for `places` numbers. A list that grows step by step gains an eighth at a time, which moves it seldom
// and keeps it small.
fn widen(vacant: &mut Vec<u32>, places: usize) -> Result<(), AllocError>
    requires { (vec_len vacant.old ≤ places) × (places ≤ 2 ^ 32) }
    ensures items { vacant.new.items ≡ vacant.old.items }
    ensures capacity { vec_capacity vacant.old ≤ vec_capacity vacant.new }
    ensures ok { OnOk result (places ≤ vec_capacity vacant.new) }
{
    if places <= vacant.capacity() {
        return Ok(());
    }
    vacant.reserve_exact(places - vacant.len() + places / 8)
}

// Lists the 256 numbers from `first` on.
fn list_places(vacant: &mut Vec<u32>, first: usize)
    requires fits { first + 256 ≤ 2 ^ 32 }
    requires room { vec_len vacant.old + 256 ≤ vec_capacity vacant.old }
    ensures items { vacant.new.items ≡ vacant.old.items ++ numbers first 256 }
    ensures capacity { vec_capacity vacant.old ≤ vec_capacity vacant.new }
{
    for place in 0..256 {
        vacant.push((first + place) as u32).unwrap();
    }
}

impl<T> Pool<T> {
    ghost use Rattle.slot_pool.specs.PoolLends.{lends_value};

    /// An empty pool, which takes no memory.
    pub fn new(alloc: Global) -> Self
        ensures { result ≡ contents map.empty 0 }
    {
        Pool {
            chunks: Vec::new(alloc),
            vacant: Vec::new(alloc),
            alloc,
        }
    }

    /// Makes room for `n` values, so that as many calls of `put` take no memory.
    pub fn reserve(&mut self, n: u32) -> Result<(), PoolRefused>
        ensures room { OnOk result (n ≤ self.new.spare) }
        ensures full { IsErrOf result PoolRefused.PoolFull ↔ (4294967294 < map.len self.old.values + n) }

        // Whatever the answer.
        ensures values { self.new.values ≡ self.old.values }
        ensures spare { self.old.spare ≤ self.new.spare }
    {
        let used = self.chunks.len() * 256 - self.vacant.len();
        if used + n as usize > 4_294_967_294 {
            return Err(PoolRefused::PoolFull);
        }
        while self.vacant.len() < n as usize {
            if self.grow().is_err() {
                return Err(PoolRefused::NoMemory);
            }
        }
        Ok(())
    }

    // Adds one chunk.
    fn grow(&mut self) -> Result<(), AllocError>
        requires { map.len self.old.values + self.old.spare < 4294967294 }
        ensures values { self.new.values ≡ self.old.values }
        ensures ok { OnOk result (self.new.spare ≡ self.old.spare + 256) }
        ensures err { OnErr result (self.new.spare ≡ self.old.spare) }
    {
        let places = self.chunks.len() * 256;
        widen(&mut self.vacant, places + 256)?;
        self.chunks.reserve(1)?;
        let chunk = Chunk::new(self.alloc)?;
        match self.chunks.push(chunk) {
            Ok(()) => {}
            Err(_refused) => unreachable!(),
        }
        list_places(&mut self.vacant, places);
        Ok(())
    }

    /// Stores the value in a slot that holds none. It takes no memory.
    pub fn put(&mut self, value: T) -> Slot
        requires { 0 < self.old.spare }
        ensures fresh { map.get self.old.values result ≡ None }
        ensures held { map.get self.new.values result ≡ Some value }
        ensures stored { self.new ≡ contents (map.insert self.old.values result value) (self.old.spare - 1) }
    {
        let index = self.vacant.pop().unwrap();
        let place = index as usize;
        self.chunks[place / 256].put(place % 256, value);
        Slot { index }
    }

    /// Takes the value out of its slot. It takes no memory.
    pub fn take(&mut self, slot: Slot) -> T
        requires { IsSome (map.get self.old.values slot) }
        ensures value { map.get self.old.values slot ≡ Some result }
        ensures rest { self.new ≡ contents (map.remove self.old.values slot) (self.old.spare + 1) }
    {
        let index = slot.index;
        let place = index as usize;
        let value = self.chunks[place / 256].take(place % 256);
        self.vacant.push(index).unwrap();
        value
    }

    /// The value in the slot.
    pub fn get(&self, slot: Slot) -> &T
        requires { IsSome (map.get self.now.values slot) }
        ensures { map.get self.now.values slot ≡ Some result.now }
    {
        let place = slot.index as usize;
        self.chunks[place / 256].get(place % 256)
    }

    /// The value in the slot, for writing. The pool ends with what was written last.
    pub fn get_mut(&mut self, slot: Slot) -> &mut T
        requires { IsSome (map.get self.old.values slot) }
        ensures* writes_back { sem 𝓛 (lends_value T.row self.entry slot result) }
        ensures value { map.get self.old.values slot ≡ Some result.now }
    {
        let place = slot.index as usize;
        self.chunks[place / 256].get_mut(place % 256)
    }
}

impl<T> Pool<T> {
    // Whether the place with this number holds a value.
    fn is_taken(&self, place: usize) -> bool
        requires { place < map.len self.now.values + self.now.spare }
        ensures { result ≡ is_some (map.get self.now.values place) }
    {
        self.chunks[place / 256].is_filled(place % 256)
    }
}

impl<T: Drop> Pool<T> {
    /// Gives up all values. Their slots serve again: as many more values fit without memory. It takes no memory.
    pub fn clear(&mut self)
        ensures { self.new ≡ contents map.empty (self.old.spare + map.len self.old.values) }
    {
        for place in 0..self.chunks.len() * 256 {
            if self.is_taken(place) {
                let index = place as u32;
                drop(self.take(Slot { index }));
            }
        }
    }
}
