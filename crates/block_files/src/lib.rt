//! The block files of a host: opened by name, and read block by block or header by header.
#![tactic(auto)]

mod blocks;
mod headers;

pub use blocks::{next_block, open_blocks};
pub use headers::read_headers;
