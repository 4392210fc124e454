//! A chunk: 256 places, each empty or holding a value, which stays where it is.
ghost use Rattle.std.specs.Prelude.{◌≡◌, ℕ, ◌<◌, replicate, get_or, slice_set, IfOk, is_some, Some, None};
ghost use Rattle.std.specs.Borrow.{sem};
ghost use Rattle.slot_pool.specs.Held.{IsHeld};

use crate::cells::{Cells, Claim, allocate, free};
use std::alloc::{AllocError, Global};
use std::marker::Model;
use std_alloc::room::may_hold;

/// A clause sees a chunk as the list of its places.
pub struct Chunk<T> {
    cells: Cells<T>,
    claim: Claim<T, Global>,
    alloc: Global,
    // Which places hold a value, for the end. It lies apart, so that a table of chunks stays small.
    filled: Vec<bool>,
}

impl<T> Model for Chunk<T> {
    ghost use Rattle.std.specs.Prelude.{List, Option};
    ghost use Rattle.std.specs.Coded.{coded_list, coded_option};

    ghost Value = { List (Option T) };

    ghost coded = { coded_list (coded_option T.code) };

    ghost use Rattle.slot_pool.specs.Chunk.{IsChunk};

    ghost view = { λ c. c.cells.held };

    ghost invariant = { IsChunk };
}

impl<T> Chunk<T> {
    ghost use Rattle.slot_pool.specs.ChunkLends.{lends_place};

    /// A chunk of empty places.
    pub(crate) fn new(alloc: Global) -> Result<Self, AllocError>
        ensures { IfOk result (λ c. c ≡ replicate 256 None) }
    {
        if !may_hold::<T>(256) {
            return Err(AllocError);
        }
        let filled = Vec::from_elem(alloc, false, 256)?;
        let (cells, claim) = allocate(&alloc)?;
        Ok(Chunk {
            cells,
            claim,
            alloc,
            filled,
        })
    }

    pub(crate) fn put(&mut self, place: usize, value: T)
        requires { (place < 256) × (get_or self.old place None ≡ None) }
        ensures { self.new ≡ slice_set self.old place (Some value) }
    {
        self.cells.put(place, value);
        self.filled[place] = true;
    }

    pub(crate) fn take(&mut self, place: usize) -> T
        requires { IsHeld self.old place }
        ensures value { get_or self.old place None ≡ Some result }
        ensures rest { self.new ≡ slice_set self.old place None }
    {
        let value = self.cells.take(place);
        self.filled[place] = false;
        value
    }

    pub(crate) fn get(&self, place: usize) -> &T
        requires { IsHeld self.now place }
        ensures { get_or self.now place None ≡ Some result.now }
    {
        self.cells.get(place)
    }

    pub(crate) fn get_mut(&mut self, place: usize) -> &mut T
        requires { IsHeld self.old place }
        ensures* writes_back { sem 𝓛 (lends_place T.row self.entry place result) }
        ensures value { get_or self.old place None ≡ Some result.now }
    {
        self.cells.get_mut(place)
    }

    /// Whether a place holds a value.
    pub(crate) fn is_filled(&self, place: usize) -> bool
        requires { place < 256 }
        ensures { result ≡ is_some (get_or self.now place None) }
    {
        self.filled[place]
    }

    /// Gives up the memory of an empty chunk.
    pub(crate) fn end(self)
        requires { (k : ℕ) → k < 256 → get_or self k None ≡ None }
    {
        let Chunk {
            cells,
            claim,
            alloc,
            filled: _,
        } = self;
        free(&alloc, cells, claim);
    }
}

impl<T: Drop> Drop for Chunk<T> {
    fn drop(mut self) {
        for place in 0..256 {
            if self.filled[place] {
                drop(self.take(place));
            }
        }
        self.end();
    }
}
