//! An index from outpoints to slots of a pool, by salted hashed buckets. The chain of a bucket leads through the pool's
//! values, so an index takes memory for its buckets alone, and only where they are reserved.
#![tactic(auto)]

mod chained;
mod hash;
mod index;

pub use chained::Chained;
pub use hash::word;
pub use index::Index;

#[cfg(test)]
mod tests;
