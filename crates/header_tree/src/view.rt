//! The tree as the rules of blocks see it.

use crate::tree::Tree;
use base_types::{Hash32, Rules};
use block_codec::Header;
use chain_model::TreeView;

impl TreeView for Tree {
    ghost tree = { λ t. t.tree };

    fn header(&self, hash: &Hash32) -> Option<&Header> {
        self.header(hash)
    }

    fn height(&self, hash: &Hash32) -> Option<u32> {
        self.height(hash)
    }

    fn ancestor(&self, hash: &Hash32, height: u32) -> Option<Hash32> {
        self.ancestor(hash, height)
    }

    fn median_time(&self, hash: &Hash32) -> Option<u32> {
        self.median_time(hash)
    }

    fn rules(&self) -> &Rules {
        self.rules()
    }
}
