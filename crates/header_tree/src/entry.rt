//! A header and its place in the tree.

use base_types::Hash32;
use block_codec::Header;

/// An accepted header. Others are named by their numbers in the order of acceptance.
#[derive(Clone, Copy, Debug)]
pub(crate) struct Entry {
    pub(crate) header: Header,
    pub(crate) hash: Hash32,
    pub(crate) height: u32,
    /// The number of the header before it; of genesis its own.
    pub(crate) parent: u32,
    /// The number of an ancestor further down, by which long ways take few steps; of genesis its own.
    pub(crate) skip: u32,
}
