//! Numbers at the front of a slice.

ghost use Rattle.std.specs.Prelude.{◌≡◌, ◌==◌, ◌^◌, ◌<◌, ◌≤◌, length, Ok, Err, nat_lt, if◌then◌else◌, IfOk};
ghost use Rattle.std.specs.Int.{w16, w32, w64};
ghost use Rattle.base_types.specs.Bytes.{compact, varint, number_text};
ghost use Rattle.base_types.specs.Reading.{number_at, compact_at, length_at, groups_at, varint_at, Splits, Spelled};

use crate::cursor::ReadError;

pub(crate) fn u16_of(bytes: &[u8]) -> Result<(u16, &[u8]), ReadError>
    ensures value { Splits (λ x. (x.0, x.1.now)) result (number_at w16 bytes.now) }
    ensures spelled { Spelled (number_text w16) (λ n. n < 2 ^ 16) bytes.now (number_at w16 bytes.now) }
{
    if bytes.len() < 2 {
        return Err(ReadError::Short);
    }
    let (front, rest) = bytes.split_at(2);
    Ok((u16::from_le_bytes([front[0], front[1]]), rest))
}

pub(crate) fn u32_of(bytes: &[u8]) -> Result<(u32, &[u8]), ReadError>
    ensures value { Splits (λ x. (x.0, x.1.now)) result (number_at w32 bytes.now) }
    ensures spelled { Spelled (number_text w32) (λ n. n < 2 ^ 32) bytes.now (number_at w32 bytes.now) }
{
    if bytes.len() < 4 {
        return Err(ReadError::Short);
    }
    let (front, rest) = bytes.split_at(4);
    let number = u32::from_le_bytes([front[0], front[1], front[2], front[3]]);
    Ok((number, rest))
}

pub(crate) fn u64_of(bytes: &[u8]) -> Result<(u64, &[u8]), ReadError>
    ensures value { Splits (λ x. (x.0, x.1.now)) result (number_at w64 bytes.now) }
    ensures spelled { Spelled (number_text w64) (λ n. n < 2 ^ 64) bytes.now (number_at w64 bytes.now) }
{
    if bytes.len() < 8 {
        return Err(ReadError::Short);
    }
    let (front, rest) = bytes.split_at(8);
    let number = u64::from_le_bytes([
        front[0], front[1], front[2], front[3], front[4], front[5], front[6], front[7],
    ]);
    Ok((number, rest))
}

// The number, unless a shorter form has it.
fn not_below(read: (u64, &[u8]), least: u64) -> Result<(u64, &[u8]), ReadError>
    ensures { Splits (λ x. (x.0, x.1.now)) result (if nat_lt read.entry.0 least then Err ReadError.LongSpelling else Ok (read.entry.0, read.entry.1.now)) }
{
    if read.0 < least {
        return Err(ReadError::LongSpelling);
    }
    Ok(read)
}

#[tactic(auto, unfolding(crate::specs::Reading::compact_at))]
fn shortest_of(bytes: &[u8]) -> Result<(u64, &[u8]), ReadError>
    ensures value { Splits (λ x. (x.0, x.1.now)) result (compact_at bytes.now) }
    ensures shorter { IfOk result (λ x. length x.1.now ≤ length bytes.now) }
{
    match bytes {
        [] => Err(ReadError::Short),
        [253, rest @ ..] => {
            let (number, rest) = u16_of(rest)?;
            not_below((u64::from(number), rest), 253)
        }
        [254, rest @ ..] => {
            let (number, rest) = u32_of(rest)?;
            not_below((u64::from(number), rest), 1 << 16)
        }
        [255, rest @ ..] => not_below(u64_of(rest)?, 1 << 32),
        [first, rest @ ..] => Ok((u64::from(*first), rest)),
    }
}

pub(crate) fn compact_of(bytes: &[u8]) -> Result<(u64, &[u8]), ReadError>
    ensures value { Splits (λ x. (x.0, x.1.now)) result (compact_at bytes.now) }
    ensures shorter { IfOk result (λ x. length x.1.now ≤ length bytes.now) }
    ensures spelled { Spelled compact (λ n. n < 2 ^ 64) bytes.now (compact_at bytes.now) }
{
    shortest_of(bytes)
}

/// The greatest length, count or index (`MAX_SIZE` in Bitcoin Core's `serialize.h`).
const MAX_LENGTH: u64 = 33_554_432;

#[tactic(auto, unfolding(crate::specs::Reading::length_at))]
fn within_limit(bytes: &[u8]) -> Result<(usize, &[u8]), ReadError>
    ensures value { Splits (λ x. (x.0, x.1.now)) result (length_at bytes.now) }
    ensures shorter { IfOk result (λ x. length x.1.now ≤ length bytes.now) }
{
    let (number, rest) = shortest_of(bytes)?;
    if number > MAX_LENGTH {
        return Err(ReadError::TooLarge);
    }
    Ok((number as usize, rest))
}

pub(crate) fn length_of(bytes: &[u8]) -> Result<(usize, &[u8]), ReadError>
    ensures value { Splits (λ x. (x.0, x.1.now)) result (length_at bytes.now) }
    ensures shorter { IfOk result (λ x. length x.1.now ≤ length bytes.now) }
    ensures spelled { Spelled compact (λ n. n ≤ 33554432) bytes.now (length_at bytes.now) }
{
    within_limit(bytes)
}

/// The greatest number of which 128 times, and a group of seven bits, fits in 64 bits.
const MAX_ABOVE: u64 = (1 << 57) - 1;

// The groups behind those that make this number. Each marked group makes the number greater, so there are at most ten.
#[tactic(auto, unfolding(crate::specs::Reading::groups_at))]
fn groups_of(above: u64, bytes: &[u8]) -> Result<(u64, &[u8]), ReadError>
    requires { above < 2 ^ 57 }
    ensures value { Splits (λ x. (x.0, x.1.now)) result (groups_at above bytes.now) }
    ensures shorter { IfOk result (λ x. length x.1.now ≤ length bytes.now) }
{
    let [first, rest @ ..] = bytes else {
        return Err(ReadError::Short);
    };
    let byte = *first;
    if byte < 128 {
        return Ok((128 * above + u64::from(byte), rest));
    }
    let above = (128 * above).saturating_add(u64::from(byte - 127));
    if above > MAX_ABOVE {
        return Err(ReadError::TooLarge);
    }
    groups_of(above, rest)
}

pub(crate) fn varint_of(bytes: &[u8]) -> Result<(u64, &[u8]), ReadError>
    ensures value { Splits (λ x. (x.0, x.1.now)) result (varint_at bytes.now) }
    ensures shorter { IfOk result (λ x. length x.1.now ≤ length bytes.now) }
    ensures spelled { Spelled varint (λ n. n < 2 ^ 64) bytes.now (varint_at bytes.now) }
{
    groups_of(0, bytes)
}
