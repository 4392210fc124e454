//! Reading coins.

ghost use Rattle.std.specs.Prelude.{◌≡◌, ◌↔◌, ℕ, ◌++◌, length, List, Ok, IfOk, IsTrue};
ghost use Rattle.base_types.specs.Codec.{at};
ghost use Rattle.base_types.specs.declared.coin.Coin.{Coin};
ghost use Rattle.base_types.specs.Coins.{CoinFits};
ghost use Rattle.coin_codec.specs.CoinText.{coin_text, IsCoinText};
ghost use Rattle.coin_codec.specs.Parts.{ReadsPart};
ghost use Rattle.coin_codec.specs.Reading.{amount_at, script_at, coin_at, is_whole, IsFurther, ReadsCoin};

use crate::fault::{BadCoin, CoinFault};
use crate::parts::{amount_of, parts_of, script_of};
use base_types::{Coin, Cursor, Script};
use std::alloc::Global;

/// Reads a coin, with an error's offset (the form in Bitcoin Core's `coins.h` and `compressor.h`). Its value is at
/// most 2,100,000,000,000,000 satoshis, its script at most 10,000 bytes and its height below 2^31. It takes one
/// allocation, for the script. After an error the cursor may stand behind fields that were read (`Cursor::copy` keeps the
/// place before the coin).
#[tactic(auto, using(crate::proofs::Further::further_steps))]
pub fn read_coin(alloc: Global, cursor: &mut Cursor<'_>) -> Result<Coin, CoinFault>
    // What is read has this text.
    ensures found { IfOk result (λ coin. CoinFits coin × (cursor.old.rest ≡ coin_text coin ++ cursor.new.rest)) }

    // The coin whose text stands there is read, whatever follows, unless memory runs out.
    ensures only { (coin : Coin) (rest : List ℕ) → CoinFits coin → cursor.old.rest ≡ coin_text coin ++ rest → ReadsCoin result cursor.new (Ok (coin, at cursor.old.end rest)) }

    // Which error it is, and where.
    ensures exact { ReadsCoin result cursor.new (coin_at cursor.old) }

    // Where the cursor stands, after an error too.
    ensures further { IsFurther cursor.old cursor.new }
{
    let parts = parts_of(cursor)?;
    Ok(parts.to_coin(alloc)?)
}

/// Reads an amount in satoshis as it stands in a coin, the VARINT of its code, with an error's offset. It takes no memory.
pub fn read_amount(cursor: &mut Cursor<'_>) -> Result<u64, BadCoin>
    // The amount, or which error it is, and where.
    ensures exact { ReadsPart (λ value. value) result cursor.new (amount_at cursor.old) }

    // Where the cursor stands, after an error too.
    ensures further { IsFurther cursor.old cursor.new }
{
    amount_of(cursor)
}

/// Reads a script in the form that it has in a coin, with an error's offset. It takes one allocation.
#[tactic(auto, using(crate::proofs::Further::further_steps))]
pub fn read_script(alloc: Global, cursor: &mut Cursor<'_>) -> Result<Script, CoinFault>
    // The script, or which error it is, and where.
    ensures exact { ReadsCoin result cursor.new (script_at cursor.old) }

    // Where the cursor stands, after an error too.
    ensures further { IsFurther cursor.old cursor.new }
{
    let part = script_of(cursor)?;
    Ok(part.to_script(alloc)?)
}

/// Whether the bytes are the text of a coin, the whole of it and no more. It takes no memory.
pub fn is_coin(bytes: &[u8]) -> bool
    // Some coin has this text.
    ensures text { IsTrue result ↔ IsCoinText bytes.now }

    // It is read to its end.
    ensures whole { result ≡ is_whole (coin_at (at (length bytes.now) bytes.now)) }
{
    let mut cursor = Cursor::new(bytes);
    parts_of(&mut cursor).is_ok() && cursor.is_at_end()
}
