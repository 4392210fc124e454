//! Transactions and blocks: their types, their one text, reading, testing and writing it, and the hashes and sizes that are taken
//! over it. The definitions of the frames of a block file, of the merkle root and of the witness commitment stand in
//! `specs`, for the crates that compute them.
#![tactic(auto)]

mod block;
mod checking;
mod encoder;
mod encoding;
mod fault;
mod hashed_block;
mod hashing;
mod members;
mod parameters;
mod reading;
mod size;
mod witness;
mod writing;

pub use block::{Block, Header, Inputs, Outputs, Stack, Tx, TxIn, Txs};
pub use checking::is_block;
pub use fault::{BlockError, BlockFault};
pub use hashed_block::HashedBlock;
pub use hashing::{block_hash, hash_of_both, txid, txids, wtxid};
pub use parameters::{GENESIS, MAX_FRAME_SIZE, MIN_FRAME_SIZE, genesis_hash};
pub use reading::{read_block, read_header, read_tx};
pub use size::{stripped_size, stripped_tx_size, total_size, total_tx_size, tx_weight, weight};
pub use witness::{has_witness, is_coinbase};
pub use writing::{write_block, write_header};

#[cfg(test)]
mod tests;
