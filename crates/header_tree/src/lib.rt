//! The tree of headers: each header that breaks no rule, by its hash, with heights, ancestors, forks and median times.
#![tactic(auto)]

mod accept;
mod entry;
mod fault;
mod median;
mod numbers;
mod skip;
mod tree;
mod view;
mod walk;

pub use fault::AcceptFault;
pub use tree::Tree;

#[cfg(test)]
mod tests;
