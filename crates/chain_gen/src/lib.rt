//! Block files for tests: chains of blocks that a number determines, written to a host.
#![tactic(auto)]

mod blocks;
mod fault;
mod generation;
mod mining;
mod scripts;
mod transactions;

pub use fault::GenFault;
pub use generation::generate;

#[cfg(test)]
mod tests;
