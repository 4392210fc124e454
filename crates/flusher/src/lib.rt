//! Writing the changes of a chainstate to its file: one payload with a row for each entry of the tip cache that changed.
#![tactic(auto)]

mod changes;
mod flushing;
mod staging;
#[cfg(test)]
mod tests;
mod writing;

pub use flushing::flush;
