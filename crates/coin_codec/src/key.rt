//! Outpoints as the keys of coins.

ghost use Rattle.std.specs.Prelude.{◌≡◌, ℕ, ◌+◌, ◌≤◌, ◌++◌, length, take, vec_len, vec_capacity, List, Ok, IsOk, IfOk, OnOk, OnErr};
ghost use Rattle.base_types.specs.Codec.{at};
ghost use Rattle.base_types.specs.declared.hash.OutPoint.{OutPoint};
ghost use Rattle.coin_codec.specs.Reading.{IsNumber, TakesText};
ghost use Rattle.coin_codec.specs.Reading.{IsFurther};
ghost use Rattle.coin_codec.specs.KeyText.{key_text, KeyFits};
ghost use Rattle.coin_codec.specs.Reading.{same_error, is_u32, letter_at, checked_varint_at, key_at, Reads};

use crate::appending::all_or_nothing;
use base_types::{Cursor, Hash32, OutPoint, ReadError, put_varint};
use std::alloc::AllocError;

// The letter before each key of a coin (`DB_COIN` in Bitcoin Core's `txdb.cpp`).
const LETTER: u8 = b'C';

#[tactic(auto, unfolding(crate::specs::KeyText::key_text))]
fn put_key(out: &mut Vec<u8>, key: &OutPoint) -> Result<(), AllocError>
    ensures ok { OnOk result (out.new.items ≡ out.old.items ++ key_text key.now) }
    ensures err { OnErr result (take (length out.old.items) out.new.items ≡ out.old.items) }

    // Where there is room for them this takes no memory, and no room is given back.
    ensures room { vec_len out.old + length (key_text key.now) ≤ vec_capacity out.old → IsOk result }
    ensures capacity { vec_capacity out.old ≤ vec_capacity out.new }
{
    out.push(LETTER)?;
    out.extend_from_slice(&key.txid.bytes)?;
    put_varint(out, u64::from(key.index))
}

/// Adds the text of an outpoint: the letter C, the transaction's hash and the VARINT of the number. Where memory runs
/// out nothing is added.
pub fn write_key(out: &mut Vec<u8>, key: &OutPoint) -> Result<(), AllocError>
    ensures ok { OnOk result (out.new.items ≡ out.old.items ++ key_text key.now) }
    ensures err { OnErr result (out.new.items ≡ out.old.items) }

    // Where there is room for them this takes no memory, and no room is given back.
    ensures room { vec_len out.old + length (key_text key.now) ≤ vec_capacity out.old → IsOk result }
    ensures capacity { vec_capacity out.old ≤ vec_capacity out.new }
{
    let len = out.len();
    let written = put_key(out, key);
    all_or_nothing(out, len, written)
}

#[tactic(auto, using(crate::proofs::Further::further_steps), unfolding(crate::specs::Reading::letter_at))]
fn letter_of(cursor: &mut Cursor<'_>) -> Result<u8, ReadError>
    ensures value { Reads result cursor.new (letter_at cursor.old) }
    ensures further { IsFurther cursor.old cursor.new }
{
    let letter = cursor.u8()?;
    if letter != LETTER {
        return Err(ReadError::LongSpelling);
    }
    Ok(letter)
}

#[tactic(auto, using(crate::proofs::Further::further_steps), unfolding(crate::specs::Reading::checked_varint_at))]
fn index_of(cursor: &mut Cursor<'_>) -> Result<u32, ReadError>
    ensures value { Reads result cursor.new (checked_varint_at same_error is_u32 cursor.old) }
    ensures number { IsNumber cursor.old.rest }
    ensures further { IsFurther cursor.old cursor.new }
{
    let index = cursor.varint()?;
    if index >= 1 << 32 {
        return Err(ReadError::TooLarge);
    }
    Ok(index as u32)
}

#[tactic(auto, using(crate::proofs::Further::further_steps), unfolding(crate::specs::Reading::key_at))]
fn key_of(cursor: &mut Cursor<'_>) -> Result<OutPoint, ReadError>
    ensures value { Reads result cursor.new (key_at cursor.old) }
    ensures found { IfOk result (λ key. TakesText key_text KeyFits cursor.old key cursor.new) }
    ensures further { IsFurther cursor.old cursor.new }
{
    letter_of(cursor)?;
    let taken = cursor.take(32)?;
    let mut bytes = [0; 32];
    bytes.copy_from_slice(taken);
    let index = index_of(cursor)?;
    Ok(OutPoint {
        txid: Hash32 { bytes },
        index,
    })
}

/// Reads an outpoint. The error is LongSpelling where the first byte isn't the letter C, and TooLarge where the number
/// is above 2^32 - 1. After an error the cursor is as before.
#[tactic(auto, using(crate::proofs::Further::further_steps))]
pub fn read_key(cursor: &mut Cursor<'_>) -> Result<OutPoint, ReadError>
    // What is read has this text.
    ensures found { IfOk result (λ key. KeyFits key × (cursor.old.rest ≡ key_text key ++ cursor.new.rest)) }

    // The outpoint whose text stands there is read, whatever follows.
    ensures only { (key : OutPoint) (rest : List ℕ) → KeyFits key → cursor.old.rest ≡ key_text key ++ rest → Reads result cursor.new (Ok (key, at cursor.old.end rest)) }

    // Which error it is.
    ensures exact { Reads result cursor.new (key_at cursor.old) }

    // Where the cursor stands.
    ensures further { IsFurther cursor.old cursor.new }
    ensures kept { OnErr result (cursor.new ≡ cursor.old) }
{
    let mut ahead = cursor.copy();
    let key = key_of(&mut ahead)?;
    *cursor = ahead;
    Ok(key)
}
