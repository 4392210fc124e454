//! Transactions and blocks.

use base_types::{Hash32, List, OutPoint, Script, TxOut};

/// The items of an input's witness.
pub type Stack = List<Script>;

/// An input of a transaction (Bitcoin Core's `CTxIn`), with its witness.
#[derive(Clone, Debug, PartialEq, Eq, Drop)]
pub struct TxIn {
    /// The output that it spends.
    pub prev: OutPoint,
    pub script: Script,
    pub sequence: u32,
    pub stack: Stack,
}

/// The inputs of a transaction.
pub type Inputs = List<TxIn>;

/// The outputs of a transaction.
pub type Outputs = List<TxOut>;

/// A transaction (Bitcoin Core's `CTransaction`).
#[derive(Clone, Debug, PartialEq, Eq, Drop)]
pub struct Tx {
    pub version: u32,
    pub inputs: Inputs,
    pub outputs: Outputs,
    pub lock_time: u32,
}

/// The transactions of a block.
pub type Txs = List<Tx>;

/// The header of a block (Bitcoin Core's `CBlockHeader`).
#[derive(Clone, Copy, Debug, PartialEq, Eq)]
pub struct Header {
    pub version: i32,
    /// The hash of the block before it.
    pub prev: Hash32,
    /// The merkle root of the transactions.
    pub root: Hash32,
    /// Seconds since 1970.
    pub time: u32,
    /// The target, in the compact form.
    pub bits: u32,
    pub nonce: u32,
}

/// A block (Bitcoin Core's `CBlock`).
#[derive(Clone, Debug, PartialEq, Eq, Drop)]
pub struct Block {
    pub header: Header,
    pub txs: Txs,
}
