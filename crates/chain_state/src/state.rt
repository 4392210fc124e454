//! What chainstates share, and what each has for itself.

use crate::waiting::Waiting;
use base_types::Hash32;
use block_store::BlockStore;
use coin_store::CoinStore;
use coin_views::Layers;
use header_tree::Tree;

/// What the chainstates of a store share: the tree of its headers, and the files of headers and bodies.
#[derive(Drop)]
pub struct Shared {
    pub tree: Tree,
    pub blocks: BlockStore,
}

/// A chainstate: its tip, the file of its coins as the last flush left them, the coins at the tip as layers over those, and the
/// stored blocks that aren't connected yet.
#[derive(Drop)]
pub struct ChainState {
    pub tip: Hash32,
    pub store: CoinStore,
    pub layers: Layers,
    pub waiting: Waiting,
}
