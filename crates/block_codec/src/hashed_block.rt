//! A block with the hashes that name it and its transactions.

ghost use Rattle.std.specs.Prelude.{◌≡◌, IfOk, map};
ghost use Rattle.block_codec.specs.Text.{hash_of_header, txid_of};

use crate::block::Block;
use crate::hashing::{block_hash, txids};
use base_types::Hash32;
use std::alloc::{AllocError, Global};
use std::marker::Model;

/// A block with its hash and the txids of its transactions, each of which is hashed once. Contracts see it as its block.
#[derive(Debug, Drop)]
pub struct HashedBlock {
    block: Block,
    hash: Hash32,
    txids: Vec<Hash32>,
}

impl Model for HashedBlock {
    ghost use Rattle.std.specs.Prelude.{◌≡◌, map};
    ghost use Rattle.block_codec.specs.declared.block.Block.{Block};
    ghost use Rattle.block_codec.specs.Text.{hash_of_header, txid_of};

    ghost Value = { Block };

    ghost view = { λ hashed. hashed.block };

    ghost invariant = { λ hashed. (hashed.hash ≡ hash_of_header hashed.block.header) × (hashed.txids.items ≡ map txid_of hashed.block.txs) };
}

impl HashedBlock {
    /// Hashes the header and each transaction. It fails where no memory is left for the txids.
    pub fn new(alloc: Global, block: Block) -> Result<Self, AllocError>
        ensures { IfOk result (λ hashed. hashed ≡ block) }
    {
        let hash = block_hash(&block.header);
        let txids = txids(alloc, block.txs.as_slice())?;
        Ok(HashedBlock { block, hash, txids })
    }

    /// The block itself.
    pub fn block(&self) -> &Block
        ensures { result.now ≡ self.now }
    {
        &self.block
    }

    /// The hash of the block.
    pub fn hash(&self) -> &Hash32
        ensures { result.now ≡ hash_of_header self.now.header }
    {
        &self.hash
    }

    /// The txids of the transactions, in their order.
    pub fn txids(&self) -> &[Hash32]
        ensures { result.now ≡ map txid_of self.now.txs }
    {
        &self.txids
    }

    /// The block alone.
    pub fn into_block(self) -> Block
        ensures { result ≡ self }
    {
        self.block
    }
}
