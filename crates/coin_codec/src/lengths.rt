//! The lengths of the texts of coins and outpoints, without writing them.

ghost use Rattle.std.specs.Prelude.{◌≡◌, ◌+◌, ◌≤◌, length};
ghost use Rattle.base_types.specs.Bytes.{varint};
ghost use Rattle.base_types.specs.Coins.{CoinFits};
ghost use Rattle.base_types.specs.Parameters.{max_script_size};
ghost use Rattle.coin_codec.specs.CoinText.{coin_text};
ghost use Rattle.coin_codec.specs.KeyText.{key_text};
ghost use Rattle.coin_codec.specs.ScriptForm.{script_form};

use crate::amount::compress_amount;
use crate::script_form::{SPECIAL_SCRIPTS, short_form};
use base_types::{Coin, OutPoint};

// The length of a VARINT.
fn varint_len(n: u64) -> usize
    ensures exact { result ≡ length (varint n) }
    ensures most { result ≤ 10 }
{
    let mut len = 1;
    let mut above = n / 128;
    while above > 0 {
        len += 1;
        above = (above - 1) / 128;
    }
    len
}

#[tactic(auto, unfolding(crate::specs::ScriptForm::script_form))]
fn script_len(script: &[u8]) -> usize
    requires { length script.now ≤ max_script_size }
    ensures exact { result ≡ length (script_form script.now) }
    ensures most { result ≤ max_script_size + 10 }
{
    match short_form(script) {
        Some((_, kept)) => 1 + kept.len(),
        None => varint_len(script.len() as u64 + SPECIAL_SCRIPTS) + script.len(),
    }
}

/// The length in bytes of the text of a coin, as `write_coin` adds it.
#[tactic(auto, unfolding(crate::specs::CoinText::coin_text))]
pub fn coin_len(coin: &Coin) -> usize
    requires { CoinFits coin.now }
    ensures { result ≡ length (coin_text coin.now) }
{
    varint_len(u64::from(coin.height_code()))
        + varint_len(compress_amount(coin.value))
        + script_len(coin.script.as_slice())
}

/// The length in bytes of the text of an outpoint, as `write_key` adds it.
#[tactic(auto, unfolding(crate::specs::KeyText::key_text))]
pub fn key_len(key: &OutPoint) -> usize
    ensures { result ≡ length (key_text key.now) }
{
    let txid: &[u8] = &key.txid.bytes;
    1 + txid.len() + varint_len(u64::from(key.index))
}
