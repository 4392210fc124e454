//! The stored blocks that wait to be connected.

ghost use Rattle.std.specs.Prelude.{◌≡◌, false, true, not, ◌&&◌, ◌||◌, length, IfSome, OnOk, OnErr};
ghost use Rattle.std.specs.List.{All};
ghost use Rattle.std.specs.Ordering.{is_lt};
ghost use Rattle.base_types.specs.Keys.{hash_cmp};
ghost use Rattle.base_types.specs.declared.hash.Hash32.{Hash32 as Hash};
ghost use Rattle.block_codec.specs.Text.{same_hash};

use base_types::Hash32;
use std::alloc::{AllocError, Global};
use std::collections::BTreeSet;

/// A stored block, by its hash and that of its parent. They are ordered by the parent first.
#[derive(Clone, Copy, Debug, PartialEq, Eq, PartialOrd, Ord)]
pub struct WaitingBlock {
    pub parent: Hash32,
    pub hash: Hash32,
}

/// Stored blocks that aren't connected, by their parents. One takes some 100 bytes.
#[derive(Debug, Drop)]
pub struct Waiting {
    blocks: BTreeSet<WaitingBlock>,
    // Each hash has its 32 bytes, so that none comes before the one of zeros.
    ghost whole: { All (λ block. length block.hash.bytes ≡ 32) blocks.keys },
}

impl Waiting {
    ghost use Rattle.chain_state.specs.Waiting.{waits};

    /// No block waits. It takes no memory.
    pub fn new(alloc: Global) -> Waiting
        ensures { (parent hash : Hash) → waits result parent hash ≡ false }
    {
        Waiting {
            blocks: BTreeSet::new(alloc),
        }
    }

    /// A block waits above its parent. Where memory runs out all is as before.
    pub fn add(&mut self, parent: &Hash32, hash: &Hash32) -> Result<(), AllocError>
        ensures ok { (p h : Hash) → OnOk result (waits self.new p h ≡ (waits self.old p h || (same_hash p parent.now && same_hash h hash.now))) }
        ensures err { (p h : Hash) → OnErr result (waits self.new p h ≡ waits self.old p h) }
    {
        // The bytes are read, so that their number is known.
        let bytes = hash.bytes;
        let block = WaitingBlock {
            parent: *parent,
            hash: Hash32 { bytes },
        };
        match self.blocks.insert(block) {
            Ok(_) => Ok(()),
            Err(_) => Err(AllocError),
        }
    }

    /// A block waits no more.
    pub fn remove(&mut self, parent: &Hash32, hash: &Hash32)
        ensures { (p h : Hash) → waits self.new p h ≡ (waits self.old p h && not (same_hash p parent.now && same_hash h hash.now)) }
    {
        let block = WaitingBlock {
            parent: *parent,
            hash: *hash,
        };
        self.blocks.remove(&block);
    }

    /// The block with the smallest hash of those that wait above this parent.
    pub fn least(&self, parent: &Hash32) -> Option<Hash32>
        ensures none { result ≡ None → (h : Hash) → waits self.now parent.now h ≡ false }
        ensures some { IfSome result (λ hash. waits self.now parent.now hash ≡ true) }
        ensures least { IfSome result (λ hash. (h : Hash) → waits self.now parent.now h ≡ true → is_lt (hash_cmp h hash) ≡ false) }
    {
        let first = WaitingBlock {
            parent: *parent,
            hash: Hash32 { bytes: [0; 32] },
        };
        let block = self.blocks.range(first..).next()?;
        if block.parent == *parent {
            Some(block.hash)
        } else {
            None
        }
    }
}
