//! The block store: headers in a log of their own, and the bodies of blocks in another, by the hashes of their blocks.
#![tactic(auto)]

mod body_index;
mod header_list;
mod opening;
mod payload_kind;
mod payloads;
mod ranges;
mod records;
mod store;

pub use header_list::{HeaderList, HeaderRecord};
pub use payloads::payload_headers;
pub use records::read_payload;
pub use store::BlockStore;

#[cfg(test)]
mod tests;
