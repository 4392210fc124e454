//! A cache of coins over a view (`CCoinsViewCache` in Bitcoin Core's `coins.h`). Its entries lie in a pool's slots, an index
//! finds them by their outpoints, and a list has those that were changed, in the order of their first change.
//!
//! An entry with a script of 25 bytes takes 174 to 182 bytes: 112 in its slot, 48 for the script with its head in the heap, 8 to
//! 16 of buckets, of which there are one to two for each entry, and under 6 of the pool's lists. An `Option<Slot>` takes 8
//! bytes, as the type `Slot` has no value to spare; so of these bytes 24 are links, and 8 to 16 buckets.
#![tactic(auto)]

mod cache;
mod coins;
mod entries;
mod merging;
mod node;

pub use cache::{Cache, Change};
#[doc(hidden)]
pub use node::Node;

#[cfg(test)]
mod tests;
