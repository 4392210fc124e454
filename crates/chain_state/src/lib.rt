//! An open store and its chainstate: the headers and bodies that chainstates share, and the coins of one of them at its tip.
#![tactic(auto)]

mod state;
mod waiting;

pub use state::{ChainState, Shared};
pub use waiting::{Waiting, WaitingBlock};
