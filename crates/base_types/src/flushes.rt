//! The flushes of a run.

ghost use Rattle.std.specs.Prelude.{◌≡◌, ◌<◌, ◌++◌, [], ◌∷◌, length, is_some, slice_get, true, IfSome, OnOk, OnErr};
ghost use Rattle.base_types.specs.Flushes.{begun_flush, done_at, told_of, ChangesLast, ChangesMember};

use crate::hash::Hash32;
use std::alloc::{AllocError, Global};
use std::marker::Model;

/// A chainstate: the one from genesis, or the one from a snapshot.
#[derive(Clone, Copy, Debug, PartialEq, Eq)]
pub enum Chain {
    Full,
    Snapshot,
}

/// Why a chainstate was flushed.
#[derive(Clone, Copy, Debug, PartialEq, Eq)]
pub enum Why {
    /// A line of the input asked for it.
    Command,
    /// The cache was full.
    Limit,
    /// The chainstate reached the base of a snapshot.
    Base,
    /// The coins were to be written to a file.
    Dump,
    /// The rows were to be written anew.
    Compact,
    /// The input ended.
    End,
}

/// One flush: the chainstate, the tip that was flushed and why, and when it began and ended, as readings of the disk's
/// clock. Without `done` it didn't end. It is told once its line was written.
#[derive(Clone, Copy, Debug, PartialEq, Eq)]
pub struct Flushed {
    pub chain: Chain,
    pub tip: Hash32,
    pub why: Why,
    pub begun: u64,
    pub done: Option<u64>,
    pub told: bool,
}

/// The flushes of a run, the oldest first.
#[derive(Debug, Drop)]
pub struct Flushes {
    members: Vec<Flushed>,
}

impl Model for Flushes {
    ghost use Rattle.std.specs.Prelude.{List};
    ghost use Rattle.base_types.specs.declared.flushes.Flushed.{Flushed};

    ghost Value = { List Flushed };

    ghost view = { λ flushes. flushes.members.items };
}

impl Flushes {
    /// No flushes, which takes no memory.
    pub fn new(alloc: Global) -> Self
        ensures { result ≡ [] }
    {
        Flushes {
            members: Vec::new(alloc),
        }
    }

    /// The flushes.
    pub fn as_slice(&self) -> &[Flushed]
        ensures { result.now ≡ self.now }
    {
        &self.members
    }

    /// Adds a flush that begins at this reading of the clock.
    pub fn begin(&mut self, chain: Chain, tip: &Hash32, why: Why, at: u64) -> Result<(), AllocError>
        ensures ok { OnOk result (self.new ≡ self.old ++ begun_flush chain tip.now why at ∷ []) }
        ensures err { OnErr result (self.new ≡ self.old) }
    {
        Ok(
            self.members.push(Flushed {
                chain,
                tip: *tip,
                why,
                begun: at,
                done: None,
                told: false,
            })?,
        )
    }

    /// Ends the last flush at this reading of the clock.
    pub fn finish(&mut self, at: u64)
        requires { 0 < length self.old }
        ensures { ChangesLast (done_at at) self.old self.new }
    {
        let last = self.as_slice().len() - 1;
        self.members[last].done = Some(at);
    }

    /// Marks the flush at this place, counted from 0, as told. It has ended.
    pub fn tell(&mut self, place: usize)
        requires ended { IfSome (slice_get self.old place) (λ member. is_some member.done ≡ true) }
        requires there { place < length self.old }
        ensures { ChangesMember place told_of self.old self.new }
    {
        self.members[place].told = true;
    }
}
