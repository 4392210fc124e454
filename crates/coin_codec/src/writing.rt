//! Writing coins.

ghost use Rattle.std.specs.Prelude.{◌≡◌, ◌+◌, ◌^◌, ◌<◌, ◌≤◌, ◌++◌, length, take, vec_len, vec_capacity, IsOk, OnOk, OnErr};
ghost use Rattle.base_types.specs.Coins.{CoinFits};
ghost use Rattle.base_types.specs.Parameters.{max_script_size};
ghost use Rattle.coin_codec.specs.CoinText.{coin_text};
ghost use Rattle.coin_codec.specs.ScriptForm.{script_form};

use crate::amount::compress_amount;
use crate::appending::all_or_nothing;
use crate::script_form::{SPECIAL_SCRIPTS, short_form};
use base_types::{Coin, put_varint};
use std::alloc::AllocError;

#[tactic(auto, unfolding(crate::specs::ScriptForm::script_form))]
fn put_script(out: &mut Vec<u8>, script: &[u8]) -> Result<(), AllocError>
    requires { length script.now ≤ max_script_size }
    ensures ok { OnOk result (out.new.items ≡ out.old.items ++ script_form script.now) }
    ensures err { OnErr result (take (length out.old.items) out.new.items ≡ out.old.items) }

    // Where there is room for them this takes no memory, and no room is given back.
    ensures room { vec_len out.old + length (script_form script.now) ≤ vec_capacity out.old → IsOk result }
    ensures capacity { vec_capacity out.old ≤ vec_capacity out.new }
{
    match short_form(script) {
        Some((mark, kept)) => {
            out.push(mark)?;
            out.extend_from_slice(kept)
        }
        None => {
            put_varint(out, script.len() as u64 + SPECIAL_SCRIPTS)?;
            out.extend_from_slice(script)
        }
    }
}

#[tactic(auto, unfolding(crate::specs::CoinText::coin_text))]
fn put_coin(out: &mut Vec<u8>, coin: &Coin) -> Result<(), AllocError>
    requires { CoinFits coin.now }
    ensures ok { OnOk result (out.new.items ≡ out.old.items ++ coin_text coin.now) }
    ensures err { OnErr result (take (length out.old.items) out.new.items ≡ out.old.items) }

    // Where there is room for them this takes no memory, and no room is given back.
    ensures room { vec_len out.old + length (coin_text coin.now) ≤ vec_capacity out.old → IsOk result }
    ensures capacity { vec_capacity out.old ≤ vec_capacity out.new }
{
    put_varint(out, u64::from(coin.height_code()))?;
    put_varint(out, compress_amount(coin.value))?;
    put_script(out, coin.script.as_slice())
}

/// Adds the text of a coin (the form in Bitcoin Core's `coins.h` and `compressor.h`). Where memory runs out nothing is
/// added.
pub fn write_coin(out: &mut Vec<u8>, coin: &Coin) -> Result<(), AllocError>
    requires { CoinFits coin.now }
    ensures ok { OnOk result (out.new.items ≡ out.old.items ++ coin_text coin.now) }
    ensures err { OnErr result (out.new.items ≡ out.old.items) }

    // Where there is room for them this takes no memory, and no room is given back.
    ensures room { vec_len out.old + length (coin_text coin.now) ≤ vec_capacity out.old → IsOk result }
    ensures capacity { vec_capacity out.old ≤ vec_capacity out.new }
{
    let len = out.len();
    let written = put_coin(out, coin);
    all_or_nothing(out, len, written)
}
