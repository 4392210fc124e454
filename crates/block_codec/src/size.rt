//! Sizes of blocks and transactions. Each is 2^64 - 1 where it would be above that.

ghost use Rattle.std.specs.Prelude.{◌≡◌, ◌^◌, ◌-◌, min};
ghost use Rattle.block_codec.specs.TxAlone.{stripped_tx_size_of, total_tx_size_of, tx_weight_of};
ghost use Rattle.block_codec.specs.Weight.{stripped_size_of, total_size_of, weight_of};

use crate::block::{Block, Tx};
use crate::encoder::Counter;
use crate::encoding::{put_block, put_stripped, put_stripped_block, put_tx};

/// The bytes of a block with each transaction in the form without witness.
pub fn stripped_size(block: &Block) -> u64
    ensures { result ≡ min (stripped_size_of block.now) (2 ^ 64 - 1) }
{
    let mut counter = Counter::new();
    put_stripped_block(&mut counter, block);
    counter.count()
}

/// The bytes of a block as it is written.
pub fn total_size(block: &Block) -> u64
    ensures { result ≡ min (total_size_of block.now) (2 ^ 64 - 1) }
{
    let mut counter = Counter::new();
    put_block(&mut counter, block);
    counter.count()
}

/// The weight of a block (BIP 141): three times its stripped size and its total size.
pub fn weight(block: &Block) -> u64
    ensures { result ≡ min (weight_of block.now) (2 ^ 64 - 1) }
{
    let stripped = stripped_size(block);
    stripped.saturating_mul(3).saturating_add(total_size(block))
}

/// The bytes of a transaction in the form without witness.
pub fn stripped_tx_size(tx: &Tx) -> u64
    ensures { result ≡ min (stripped_tx_size_of tx.now) (2 ^ 64 - 1) }
{
    let mut counter = Counter::new();
    put_stripped(&mut counter, tx);
    counter.count()
}

/// The bytes of a transaction as it is written.
pub fn total_tx_size(tx: &Tx) -> u64
    ensures { result ≡ min (total_tx_size_of tx.now) (2 ^ 64 - 1) }
{
    let mut counter = Counter::new();
    put_tx(&mut counter, tx);
    counter.count()
}

/// The weight of a transaction (BIP 141): three times its stripped size and its total size.
pub fn tx_weight(tx: &Tx) -> u64
    ensures { result ≡ min (tx_weight_of tx.now) (2 ^ 64 - 1) }
{
    let stripped = stripped_tx_size(tx);
    stripped.saturating_mul(3).saturating_add(total_tx_size(tx))
}
