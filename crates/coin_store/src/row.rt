//! Reading rows.

ghost use Rattle.std.specs.Prelude.{◌≡◌, ◌+◌, ◌≤◌, length, drop, Some, None, IfOk, IfSome, IfNone};
ghost use Rattle.base_types.specs.Codec.{IsBytes};
ghost use Rattle.base_types.specs.declared.coin.Coin.{Coin};
ghost use Rattle.base_types.specs.Coins.{CoinFits};
ghost use Rattle.coin_store.specs.Reading.{row_of};
ghost use Rattle.coin_store.specs.Rows.{IsHead, IsValue, IsChecked, IsRow};

use base_types::{Coin, Cursor, OutPoint, obfuscate};
use coin_codec::{CoinFault, is_coin, read_coin, read_key};
use std::alloc::Global;

/// The key with which the coins of a store are obfuscated.
pub type Mask = [u8; 8];

/// The outpoint of a row, and where the bytes of its coin stand in it.
#[derive(Clone, Copy, Debug)]
pub struct RowHead {
    pub key: OutPoint,
    pub from: usize,
    pub len: usize,
}

/// Why a row was not read.
#[derive(Clone, Copy, Debug)]
pub enum RowFault {
    NoMemory,
    Broken,
}

/// Reads what stands before the coin of the first row, if it has its form and the coin's bytes are all there.
pub fn read_head(bytes: &[u8]) -> Option<RowHead>
    ensures { IsHead bytes.now result }
{
    let mut cursor = Cursor::new(bytes);
    let Ok(key) = read_key(&mut cursor) else {
        return None;
    };
    let Ok(len) = cursor.compact_size() else {
        return None;
    };
    let from = cursor.place();
    let Ok(value) = cursor.take(len as usize) else {
        return None;
    };
    Some(RowHead {
        key,
        from,
        len: value.len(),
    })
}

/// The coin whose text these bytes are; none where there are no bytes.
pub fn read_value(alloc: Global, bytes: &[u8]) -> Result<Option<Coin>, RowFault>
    ensures value { IsValue bytes.now result }
    ensures fits { IfOk result (λ coin. IfSome coin CoinFits) }
{
    if bytes.is_empty() {
        return Ok(None);
    }
    let mut cursor = Cursor::new(bytes);
    match read_coin(alloc, &mut cursor) {
        Ok(coin) if cursor.is_at_end() => Ok(Some(coin)),
        Ok(_) => Err(RowFault::Broken),
        Err(CoinFault::NoMemory) => Err(RowFault::NoMemory),
        Err(CoinFault::Bad { .. }) => Err(RowFault::Broken),
    }
}

// Whether the bytes are the text of a coin, or none.
fn is_value(bytes: &[u8]) -> bool
    ensures { IsChecked bytes.now result }
{
    bytes.is_empty() || is_coin(bytes)
}

/// Reads the first row, and takes the obfuscation off its coin where it stands. What follows the row stays.
pub fn read_row(bytes: &mut [u8], mask: &Mask) -> Option<RowHead>
    ensures row { IfSome result (IsRow mask.now bytes.old) }
    ensures behind { IfSome result (λ head. drop (head.from + head.len) bytes.new ≡ drop (head.from + head.len) bytes.old) }
    ensures broken { IfNone result (row_of mask.now bytes.old ≡ None) }
{
    let Some(head) = read_head(bytes) else {
        return None;
    };
    let value = &mut bytes[head.from..head.from + head.len];
    obfuscate(value, mask, 0);
    if !is_value(value) {
        return None;
    }
    Some(head)
}
