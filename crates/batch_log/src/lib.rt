//! A log: a list of payloads in one file of a disk. Each record begins with a gate, a byte that is 1 only once all
//! behind it is durable, so a crash within an append leaves the payloads without the new one, or with it.
#![tactic(auto)]

mod gated_log;
mod gates;
mod opening;
mod places;
mod records;

pub use gated_log::Log;
pub use places::Place;

#[cfg(test)]
mod tests;
