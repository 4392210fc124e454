//! Reading the parts of a coin, which takes no memory.

ghost use Rattle.std.specs.Prelude.{◌≡◌, ℕ, ◌++◌, ◌<◌, length, IfOk, is_some};
ghost use Rattle.base_types.specs.Reading.{varint_at, bytes_at};
ghost use Rattle.base_types.specs.Codec.{field};
ghost use Rattle.base_types.specs.Coins.{CoinFits};
ghost use Rattle.coin_codec.specs.CoinText.{coin_text};
ghost use Rattle.coin_codec.specs.Parts.{coin_in, script_in, HasKept, ReadsPart};
ghost use Rattle.coin_codec.specs.Reading.{varint_wrong, bytes_wrong, checked_varint_at, is_u32, is_amount_code, is_script_code, amount_at, kept_script_at, raw_script_at, script_at, coin_at, IsNumber, IsFurther, TakesText};

use crate::amount::decompress_amount;
use crate::fault::BadCoin;
use crate::script_form::{SPECIAL_SCRIPTS, kept_len, short_form, whole_script};
use base_types::{Coin, CoinError, Cursor, MAX_SCRIPT_SIZE, ReadError, Script};
use std::alloc::{AllocError, Global};

// The greatest number before a script in raw form.
const MAX_SCRIPT_CODE: u64 = MAX_SCRIPT_SIZE as u64 + SPECIAL_SCRIPTS;

// A script as it stands in the text of a coin.
#[derive(Clone, Copy, Debug)]
pub(crate) enum ScriptPart<'a> {
    // The mark of a kind, and the bytes that are kept.
    Short { mark: u8, kept: &'a [u8] },
    // All bytes of a script that is of no kind.
    Raw { bytes: &'a [u8] },
}

impl ScriptPart<'_> {
    pub(crate) fn to_script(&self, alloc: Global) -> Result<Script, AllocError>
        requires { HasKept self.now }
        ensures { IfOk result (λ script. script ≡ script_in self.now) }
    {
        match *self {
            ScriptPart::Short { mark, kept } => whole_script(alloc, mark, kept),
            ScriptPart::Raw { bytes } => Script::from_slice(alloc, bytes),
        }
    }
}

// The parts of a coin as they stand in its text.
#[derive(Clone, Copy, Debug)]
pub(crate) struct CoinParts<'a> {
    height_code: u32,
    value: u64,
    script: ScriptPart<'a>,
}

impl CoinParts<'_> {
    // The coin, with its script in memory of its own.
    pub(crate) fn to_coin(&self, alloc: Global) -> Result<Coin, AllocError>
        requires { HasKept self.now.script }
        ensures { IfOk result (λ coin. coin ≡ coin_in self.now) }
    {
        Ok(Coin {
            value: self.value,
            script: self.script.to_script(alloc)?,
            height: self.height_code / 2,
            coinbase: self.height_code % 2 == 1,
        })
    }
}

fn too_short(cursor: &Cursor<'_>) -> BadCoin
    ensures { result ≡ record { error = CoinError.Short; at = cursor.now.end } }
{
    BadCoin {
        error: CoinError::Short,
        at: cursor.end(),
    }
}

// A VARINT; where it is too large, the error is of this kind.
#[tactic(auto, using(crate::proofs::Further::further_steps))]
fn number_of(cursor: &mut Cursor<'_>, error: CoinError) -> Result<u64, BadCoin>
    ensures value { ReadsPart (λ number. number) result cursor.new (field (varint_wrong error) varint_at cursor.old) }
    ensures number { IsNumber cursor.old.rest }
    ensures further { IsFurther cursor.old cursor.new }
{
    match cursor.varint() {
        Ok(number) => Ok(number),
        Err(ReadError::Short) => Err(too_short(cursor)),
        Err(ReadError::LongSpelling | ReadError::TooLarge) => Err(BadCoin {
            error,
            at: cursor.place(),
        }),
    }
}

#[tactic(auto, using(crate::proofs::Further::further_steps))]
fn bytes_of<'a>(cursor: &mut Cursor<'a>, len: usize) -> Result<&'a [u8], BadCoin>
    ensures value { ReadsPart (λ taken. taken.now) result cursor.new (field bytes_wrong (bytes_at len) cursor.old) }
    ensures len { IfOk result (λ taken. length taken.now ≡ len) }
    ensures further { IsFurther cursor.old cursor.new }
{
    match cursor.take(len) {
        Ok(bytes) => Ok(bytes),
        Err(_) => Err(too_short(cursor)),
    }
}

#[tactic(auto, using(crate::proofs::Further::further_steps), unfolding(crate::specs::Reading::checked_varint_at))]
fn height_code_of(cursor: &mut Cursor<'_>) -> Result<u32, BadCoin>
    ensures value { ReadsPart (λ code. code) result cursor.new (checked_varint_at (varint_wrong CoinError.HeightTooLarge) is_u32 cursor.old) }
    ensures number { IsNumber cursor.old.rest }
    ensures further { IsFurther cursor.old cursor.new }
{
    let at = cursor.place();
    let error = CoinError::HeightTooLarge;
    let code = number_of(cursor, error)?;
    if code >= 1 << 32 {
        return Err(BadCoin { error, at });
    }
    Ok(code as u32)
}

#[tactic(auto, using(crate::proofs::Further::further_steps), unfolding(crate::specs::Reading::checked_varint_at, crate::specs::Reading::amount_at))]
pub(crate) fn amount_of(cursor: &mut Cursor<'_>) -> Result<u64, BadCoin>
    ensures value { ReadsPart (λ value. value) result cursor.new (amount_at cursor.old) }
    ensures number { IsNumber cursor.old.rest }
    ensures further { IsFurther cursor.old cursor.new }
{
    let at = cursor.place();
    let error = CoinError::BadAmount;
    let code = number_of(cursor, error)?;
    match decompress_amount(code) {
        Some(value) => Ok(value),
        None => Err(BadCoin { error, at }),
    }
}

#[tactic(auto, using(crate::proofs::Further::further_steps), unfolding(crate::specs::Reading::kept_script_at))]
fn kept_of<'a>(cursor: &mut Cursor<'a>, mark: u8) -> Result<ScriptPart<'a>, BadCoin>
    requires { mark < 4 }
    ensures value { ReadsPart script_in result cursor.new (kept_script_at mark cursor.old) }
    ensures len { IfOk result HasKept }
    ensures further { IsFurther cursor.old cursor.new }
{
    let kept = bytes_of(cursor, kept_len(mark))?;
    Ok(ScriptPart::Short { mark, kept })
}

#[tactic(auto, using(crate::proofs::Further::further_steps), unfolding(crate::specs::Reading::raw_script_at))]
fn raw_of<'a>(cursor: &mut Cursor<'a>, began: usize, len: usize) -> Result<ScriptPart<'a>, BadCoin>
    ensures value { ReadsPart script_in result cursor.new (raw_script_at began len cursor.old) }
    ensures len { IfOk result HasKept }
    ensures further { IsFurther cursor.old cursor.new }
{
    let bytes = bytes_of(cursor, len)?;
    if short_form(bytes).is_some() {
        return Err(BadCoin {
            error: CoinError::SecondSpelling,
            at: began,
        });
    }
    Ok(ScriptPart::Raw { bytes })
}

#[tactic(auto, using(crate::proofs::Further::further_steps), unfolding(crate::specs::Reading::checked_varint_at))]
fn script_code_of(cursor: &mut Cursor<'_>) -> Result<u64, BadCoin>
    ensures value { ReadsPart (λ code. code) result cursor.new (checked_varint_at (varint_wrong CoinError.ScriptTooLong) is_script_code cursor.old) }
    ensures number { IsNumber cursor.old.rest }
    ensures further { IsFurther cursor.old cursor.new }
{
    let at = cursor.place();
    let error = CoinError::ScriptTooLong;
    let code = number_of(cursor, error)?;
    if code > MAX_SCRIPT_CODE {
        return Err(BadCoin { error, at });
    }
    Ok(code)
}

#[tactic(auto, using(crate::proofs::Further::further_steps), unfolding(crate::specs::Reading::script_at))]
pub(crate) fn script_of<'a>(cursor: &mut Cursor<'a>) -> Result<ScriptPart<'a>, BadCoin>
    ensures value { ReadsPart script_in result cursor.new (script_at cursor.old) }
    ensures number { IsNumber cursor.old.rest }
    ensures len { IfOk result HasKept }
    ensures further { IsFurther cursor.old cursor.new }
{
    let at = cursor.place();
    let code = script_code_of(cursor)?;
    match code {
        0..=3 => kept_of(cursor, code as u8),
        4 | 5 => Err(BadCoin {
            error: CoinError::UncompressedKey,
            at,
        }),
        _ => raw_of(cursor, at, (code - SPECIAL_SCRIPTS) as usize),
    }
}

// The parts of the coin whose text stands there.
#[tactic(auto, using(crate::proofs::Further::further_steps), unfolding(crate::specs::Reading::coin_at))]
pub(crate) fn parts_of<'a>(cursor: &mut Cursor<'a>) -> Result<CoinParts<'a>, BadCoin>
    ensures value { ReadsPart coin_in result cursor.new (coin_at cursor.old) }
    ensures found { IfOk result (λ parts. TakesText coin_text CoinFits cursor.old (coin_in parts) cursor.new) }
    ensures len { IfOk result (λ parts. HasKept parts.script) }
    ensures further { IsFurther cursor.old cursor.new }
{
    let height_code = height_code_of(cursor)?;
    let value = amount_of(cursor)?;
    let script = script_of(cursor)?;
    Ok(CoinParts {
        height_code,
        value,
        script,
    })
}
