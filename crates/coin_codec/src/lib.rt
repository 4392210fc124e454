//! Coins and outpoints as bytes, in the forms that the stores and snapshots keep: one spelling for each, both ways.
#![tactic(auto)]

mod amount;
mod appending;
mod fault;
mod key;
mod lengths;
mod parts;
mod reading;
mod script_form;
mod writing;

pub use amount::{compress_amount, decompress_amount};
pub use appending::all_or_nothing;
pub use fault::{BadCoin, CoinFault};
pub use key::{read_key, write_key};
pub use lengths::{coin_len, key_len};
pub use reading::{is_coin, read_amount, read_coin, read_script};
pub use writing::write_coin;

#[cfg(test)]
mod tests;
