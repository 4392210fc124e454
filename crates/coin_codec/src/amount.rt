//! The codes of amounts (Bitcoin Core's `compressor.cpp`).

ghost use Rattle.std.specs.Prelude.{◌≡◌, ◌^◌, ◌<◌, ◌≤◌, Some, None, nat_le, if◌then◌else◌};
ghost use Rattle.base_types.specs.Parameters.{max_money};
ghost use Rattle.coin_codec.specs.Amount.{amount_code, amount_of, left_of as left_in};

use base_types::MAX_MONEY;

/// The code of an amount in satoshis (`CompressAmount` in Bitcoin Core), which is at most 2,100,000,000,000,000.
pub fn compress_amount(value: u64) -> u64
    requires { value ≤ max_money }
    ensures { result ≡ amount_code value }
{
    if value == 0 {
        return 0;
    }
    let mut tens = 0;
    let mut left = value;
    while tens < 9 && left % 10 == 0 {
        tens += 1;
        left /= 10;
    }
    if tens < 9 {
        1 + 10 * (9 * (left / 10) + left % 10 - 1) + tens
    } else {
        1 + 10 * (left - 1) + tens
    }
}

// What is left of the amount when its factors of ten are taken out.
#[tactic(auto, unfolding(crate::specs::Amount::left_of))]
fn left_of(tens: u64, above: u64) -> u64
    requires { above < 2 ^ 61 }
    ensures { result ≡ left_in tens above }
{
    if tens < 9 {
        10 * (above / 9) + above % 9 + 1
    } else {
        above + 1
    }
}

/// The amount in satoshis of a code (`DecompressAmount` in Bitcoin Core), or none where it is above
/// 2,100,000,000,000,000.
pub fn decompress_amount(code: u64) -> Option<u64>
    ensures { result ≡ (if nat_le (amount_of code) max_money then Some (amount_of code) else None) }
{
    if code == 0 {
        return Some(0);
    }
    let tens = (code - 1) % 10;
    let above = (code - 1) / 10;
    let left = left_of(tens, above);
    let value = left.checked_mul(10u64.pow(tens as u32))?;
    if value > MAX_MONEY {
        return None;
    }
    Some(value)
}
