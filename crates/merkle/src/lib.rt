//! Merkle roots, and the commitment of a block to its witnesses.
#![tactic(auto)]

mod levels;
mod roots;
mod witness;

pub use levels::{root, root_in_place};
pub use roots::Root;
pub use witness::{commitment, computed_commitment, witness_root};

#[cfg(test)]
mod tests;
