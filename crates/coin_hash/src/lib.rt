//! The hash of a set of coins, taken over one coin after the other. It goes by the same fields as Bitcoin Core's
//! serialized hash of the coins, and isn't equal to it.
#![tactic(auto)]

mod hasher;

pub use hasher::Hasher;

#[cfg(test)]
mod tests;
