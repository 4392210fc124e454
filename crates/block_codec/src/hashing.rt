//! The hashes that name transactions and blocks.

ghost use Rattle.std.specs.Prelude.{◌≡◌, ◌++◌, IfOk, map};
ghost use Rattle.block_codec.specs.Text.{hash_of_text, hash_of_header, txid_of, wtxid_of};

use crate::block::{Header, Tx};
use crate::encoder::{Encoder, TextHasher};
use crate::encoding::{put_header, put_stripped, put_tx};
use base_types::Hash32;
use std::alloc::{AllocError, Global};

/// The hash of a block, which is that of its header alone.
pub fn block_hash(header: &Header) -> Hash32
    ensures { result ≡ hash_of_header header.now }
{
    let mut hasher = TextHasher::new();
    put_header(&mut hasher, header);
    hasher.finish()
}

/// The hash of a transaction without its witness, by which outpoints name it.
pub fn txid(tx: &Tx) -> Hash32
    ensures { result ≡ txid_of tx.now }
{
    let mut hasher = TextHasher::new();
    put_stripped(&mut hasher, tx);
    hasher.finish()
}

/// The txids of transactions, in their order: each transaction is hashed once. It fails where no memory is left for them.
pub fn txids(alloc: Global, txs: &[Tx]) -> Result<Vec<Hash32>, AllocError>
    ensures { IfOk result (λ hashes. hashes.items ≡ map txid_of txs.now) }
{
    txs.iter().map(|tx| txid(tx)).collect(alloc)
}

/// The hash of a transaction as it is written, with its witness (BIP 141).
pub fn wtxid(tx: &Tx) -> Hash32
    ensures { result ≡ wtxid_of tx.now }
{
    let mut hasher = TextHasher::new();
    put_tx(&mut hasher, tx);
    hasher.finish()
}

/// The hash of two texts, one after the other, as of a pair in a merkle tree.
pub fn hash_of_both(first: &[u8], second: &[u8]) -> Hash32
    ensures { result ≡ hash_of_text (first.now ++ second.now) }
{
    let mut hasher = TextHasher::new();
    hasher.emit(first);
    hasher.emit(second);
    hasher.finish()
}
