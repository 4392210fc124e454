//! The values that every other crate speaks of: hashes, outpoints, scripts and coins, the faults of the store,
//! the settings and statuses of a run, and the forms of numbers in bytes, both ways.
#![tactic(auto)]

mod coin;
mod cursor;
mod fault;
mod flushes;
mod hash;
mod keys;
mod list;
mod numbers;
mod obfuscation;
mod parameters;
mod program;
mod refused;
mod script;
mod snapshot_error;
mod view;
mod writing;

pub use coin::{Coin, TxOut};
pub use cursor::{Cursor, ReadError};
pub use fault::StoreFault;
pub use flushes::{Chain, Flushed, Flushes, Why};
pub use hash::{Hash32, OutPoint, hash_twice, outpoint_order};
pub use keys::Keys;
pub use list::List;
pub use obfuscation::obfuscate;
pub use parameters::{
    COINBASE_MATURITY, MAX_MONEY, MAX_SCRIPT_SIZE, MAX_SIZE, MESSAGE_START, TARGET, TARGET_BITS,
    subsidy,
};
pub use program::{Limits, Rules, Salt, Status, Words};
pub use refused::{BodyRefused, CoinError, CoinRefused, HeaderRefused};
pub use script::Script;
pub use snapshot_error::SnapError;
pub use view::{CoinEdit, View};
pub use writing::{put_compact_size, put_u16, put_u32, put_u64, put_varint};

#[cfg(test)]
mod tests;
