//! The moves of a chainstate.
#![tactic(auto)]

mod bodies;
mod children;
mod forward;
mod refusals;
mod trials;

pub use forward::advance;
pub use refusals::{Refusals, RefusedBlock};
