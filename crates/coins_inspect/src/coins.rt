//! Coins, their parts and their keys.

ghost use Rattle.std.specs.Prelude.{◌≡◌, ◌++◌, length, OnOk};
ghost use Rattle.coins_inspect.specs.Reports.{amount_line, amount_report, script_report, coin_line, script_line, coin_lines, coin_report, unspent_line, unspent_lines, key_line, key_report, key_place, fault_line};
ghost use Rattle.coins_inspect.specs.Names.{read_error as name_of};

use crate::names::{coin_error, put_end, put_fault, read_error, truth};
use crate::words::Word::{Hash, Number, Text};
use crate::words::{put_bytes, put_line};
use base_types::{Coin, Cursor, OutPoint, ReadError};
use coin_codec::{CoinFault, read_amount, read_coin, read_key, read_script};
use std::alloc::{AllocError, Global};

/// An amount.
pub(crate) fn amount(out: &mut Vec<u8>, bytes: &[u8]) -> Result<(), AllocError>
    ensures { OnOk result (out.new.items ≡ out.old.items ++ amount_report bytes.now) }
{
    let mut cursor = Cursor::new(bytes);
    match read_amount(&mut cursor) {
        Ok(value) => put_amount(out, value, cursor.place()),
        Err(bad) => put_fault(out, coin_error(bad.error), bad.at),
    }
}

// Adds an amount, which ends at an offset.
#[tactic(auto, unfolding(crate::specs::Reports::amount_line))]
fn put_amount(out: &mut Vec<u8>, amount: u64, end: usize) -> Result<(), AllocError>
    ensures { OnOk result (out.new.items ≡ out.old.items ++ amount_line amount end) }
{
    put_line(
        out,
        "amount",
        &[Number(amount), Text("end"), Number(end as u64)],
    )
}

/// A script in the form that it has in a coin.
pub(crate) fn script(alloc: Global, out: &mut Vec<u8>, bytes: &[u8]) -> Result<(), AllocError>
    ensures { OnOk result (out.new.items ≡ out.old.items ++ script_report bytes.now) }
{
    let mut cursor = Cursor::new(bytes);
    match read_script(alloc, &mut cursor) {
        Ok(script) => {
            put_script(out, script.as_slice())?;
            put_end(out, cursor.place() as u64)
        }
        Err(CoinFault::NoMemory) => Err(AllocError),
        Err(CoinFault::Bad { error, at }) => put_fault(out, coin_error(error), at),
    }
}

/// A coin.
pub(crate) fn coin(alloc: Global, out: &mut Vec<u8>, bytes: &[u8]) -> Result<(), AllocError>
    ensures { OnOk result (out.new.items ≡ out.old.items ++ coin_report bytes.now) }
{
    let mut cursor = Cursor::new(bytes);
    match read_coin(alloc, &mut cursor) {
        Ok(coin) => put_coin(out, &coin, cursor.place()),
        Err(CoinFault::NoMemory) => Err(AllocError),
        Err(CoinFault::Bad { error, at }) => put_fault(out, coin_error(error), at),
    }
}

// Adds a coin, which ends at an offset.
fn put_coin(out: &mut Vec<u8>, coin: &Coin, end: usize) -> Result<(), AllocError>
    ensures { OnOk result (out.new.items ≡ out.old.items ++ coin_lines coin.now end) }
{
    put_coin_line(out, coin.height, truth(coin.coinbase), coin.value, end)?;
    put_script(out, coin.script.as_slice())
}

#[tactic(auto, unfolding(crate::specs::Reports::coin_line))]
fn put_coin_line(
    out: &mut Vec<u8>,
    height: u32,
    coinbase: &'static str,
    value: u64,
    end: usize,
) -> Result<(), AllocError>
    ensures { OnOk result (out.new.items ≡ out.old.items ++ coin_line height coinbase.now value end) }
{
    put_line(
        out,
        "coin",
        &[
            Text("height"),
            Number(u64::from(height)),
            Text("coinbase"),
            Text(coinbase),
            Text("value"),
            Number(value),
            Text("end"),
            Number(end as u64),
        ],
    )
}

#[tactic(auto, unfolding(crate::specs::Reports::script_line))]
fn put_script(out: &mut Vec<u8>, script: &[u8]) -> Result<(), AllocError>
    ensures { OnOk result (out.new.items ≡ out.old.items ++ script_line script.now) }
{
    put_bytes(out, "script", script)
}

/// Adds a coin with its outpoint.
pub(crate) fn put_unspent(out: &mut Vec<u8>, key: &OutPoint, coin: &Coin) -> Result<(), AllocError>
    ensures { OnOk result (out.new.items ≡ out.old.items ++ unspent_lines key.now coin.now) }
{
    put_unspent_line(out, key, coin.height, truth(coin.coinbase), coin.value)?;
    put_script(out, coin.script.as_slice())
}

#[tactic(auto, unfolding(crate::specs::Reports::unspent_line))]
fn put_unspent_line(
    out: &mut Vec<u8>,
    key: &OutPoint,
    height: u32,
    coinbase: &'static str,
    value: u64,
) -> Result<(), AllocError>
    ensures { OnOk result (out.new.items ≡ out.old.items ++ unspent_line key.now height coinbase.now value) }
{
    put_line(
        out,
        "unspent",
        &[
            Hash(key.txid),
            Number(u64::from(key.index)),
            Text("height"),
            Number(u64::from(height)),
            Text("coinbase"),
            Text(coinbase),
            Text("value"),
            Number(value),
        ],
    )
}

/// An outpoint as the key of a coin.
pub(crate) fn key(out: &mut Vec<u8>, bytes: &[u8]) -> Result<(), AllocError>
    ensures { OnOk result (out.new.items ≡ out.old.items ++ key_report bytes.now) }
{
    let mut cursor = Cursor::new(bytes);
    match read_key(&mut cursor) {
        Ok(key) => put_key(out, &key, cursor.place()),
        Err(error) => put_key_fault(out, error, bytes.len()),
    }
}

// Adds a key, which ends at an offset.
#[tactic(auto, unfolding(crate::specs::Reports::key_line))]
fn put_key(out: &mut Vec<u8>, key: &OutPoint, end: usize) -> Result<(), AllocError>
    ensures { OnOk result (out.new.items ≡ out.old.items ++ key_line key.now end) }
{
    put_line(
        out,
        "key",
        &[
            Hash(key.txid),
            Number(u64::from(key.index)),
            Text("end"),
            Number(end as u64),
        ],
    )
}

// Adds the fault of a key that so many bytes were to begin with: the letter stands at 0, and the number at 33.
fn put_key_fault(out: &mut Vec<u8>, error: ReadError, len: usize) -> Result<(), AllocError>
    ensures { OnOk result (out.new.items ≡ out.old.items ++ fault_line (name_of error) (key_place error len)) }
{
    match error {
        ReadError::Short => put_fault(out, read_error(error), len),
        ReadError::LongSpelling => put_fault(out, read_error(error), 0),
        ReadError::TooLarge => put_fault(out, read_error(error), 33),
    }
}
