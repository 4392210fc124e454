//! Snapshot files: the coins of a base block in one file, in the form that Bitcoin Core's `dumptxoutset` writes. A
//! reader takes the bytes piece by piece, and three functions write them.
#![tactic(auto)]

mod coins;
mod dump;
mod fault;
mod head;
mod item_fault;
mod items;
mod progress;
mod reader;
mod writing;

pub use coins::{SnapCoin, SnapCoins};
pub use dump::law_of_dumps;
pub use fault::SnapFault;
pub use head::SnapHead;
pub use reader::{Pieces, Reader};
pub use writing::{write_group, write_head, write_member};

#[cfg(test)]
mod tests;
