//! Fields of a line.

ghost use Rattle.std.specs.Prelude.{◌≡◌, ◌≤◌, reverse, Ok, Err, IfOk, MatchResult, IsTrue, IsAscii};
ghost use Rattle.std.specs.List.{list_all};
ghost use Rattle.std.specs.Char.{is_ascii_digit};
ghost use Rattle.std.specs.Int.{is_in_range};
ghost use Rattle.command_text.specs.FileNames.{is_name as is_file_name};
ghost use Rattle.command_text.specs.Lines.{name_of, key_of, txid_of, number_of, index_of, seed_of, count_of};

use crate::line::LineRefused;
use base_types::Hash32;
use hex::FromHex;

// The greatest number of characters of a file's name.
const MAX_NAME: usize = 200;

// The greatest number of blocks of one file.
const MAX_COUNT: u64 = 100_000;

// A field of ASCII characters as text.
fn as_text(field: &[u8]) -> &str
    requires { IsAscii field.now }
    ensures { result.now ≡ field.now }
{
    match std::str::from_utf8(field) {
        Ok(text) => text,
        Err(_) => unreachable!(),
    }
}

fn all_visible(field: &[u8]) -> bool
    ensures { result ≡ list_all (is_in_range 33 126) field.now }
{
    field.iter().all(|byte| (33..=126).contains(byte))
}

fn is_name(field: &[u8]) -> bool
    ensures { result ≡ is_file_name field.now }
{
    !field.is_empty() && field.len() <= MAX_NAME && all_visible(field)
}

// FILE: 1 to 200 visible ASCII characters.
pub(crate) fn file(field: &[u8]) -> Result<&str, LineRefused>
    ensures value { MatchResult result (λ text. name_of field.now ≡ Ok text.now)
        (λ why. name_of field.now ≡ Err why) }
    ensures name { IfOk result (λ text. IsTrue (is_file_name text.now)) }
{
    if is_name(field) {
        Ok(as_text(field))
    } else {
        Err(LineRefused::BadName)
    }
}

// KEY: 16 hexadecimal digits in either case, which are the key's bytes in their order.
pub(crate) fn key(field: &[u8]) -> Result<[u8; 8], LineRefused>
    ensures { result ≡ key_of field.now }
{
    <[u8; 8]>::from_hex(field).map_err(|_| LineRefused::BadKey)
}

// TXID: 64 hexadecimal digits in either case, the hash's last byte first.
pub(crate) fn txid(field: &[u8]) -> Result<Hash32, LineRefused>
    ensures { MatchResult (txid_of field.now)
        (λ bytes. result ≡ Ok (record { bytes = reverse bytes }))
        (λ why. result ≡ Err why) }
{
    match <[u8; 32]>::from_hex(field) {
        Ok(mut bytes) => {
            bytes.reverse();
            Ok(Hash32 { bytes })
        }
        Err(_) => Err(LineRefused::BadTxid),
    }
}

fn all_digits(field: &[u8]) -> bool
    ensures { result ≡ list_all is_ascii_digit field.now }
{
    field.iter().all(|byte| byte.is_ascii_digit())
}

// The form of a number: one to so many decimal digits, leading zeros among them, a value within a range, and why a
// field of another form is refused.
#[derive(Clone, Copy)]
struct NumberForm {
    digits: usize,
    least: u64,
    most: u64,
    refusal: LineRefused,
}

fn number(field: &[u8], form: NumberForm) -> Result<u64, LineRefused>
    ensures value { result ≡ number_of form field.now }
    ensures most { IfOk result (λ n. n ≤ form.most) }
{
    if field.len() > form.digits || !all_digits(field) {
        return Err(form.refusal);
    }
    match as_text(field).parse::<u64>() {
        Ok(n) if form.least <= n && n <= form.most => Ok(n),
        _ => Err(form.refusal),
    }
}

// N, the place of an output: 1 to 10 decimal digits.
pub(crate) fn index(field: &[u8]) -> Result<u32, LineRefused>
    ensures { result ≡ index_of field.now }
{
    let form = NumberForm {
        digits: 10,
        least: 0,
        most: u64::from(u32::MAX),
        refusal: LineRefused::BadIndex,
    };
    Ok(number(field, form)? as u32)
}

// NUMBER, which tells generated chains apart: 1 to 20 decimal digits.
pub(crate) fn seed(field: &[u8]) -> Result<u64, LineRefused>
    ensures { result ≡ seed_of field.now }
{
    let form = NumberForm {
        digits: 20,
        least: 0,
        most: u64::MAX,
        refusal: LineRefused::BadNumber,
    };
    number(field, form)
}

// COUNT, from 1 to 100,000: 1 to 6 decimal digits.
pub(crate) fn count(field: &[u8]) -> Result<u64, LineRefused>
    ensures { result ≡ count_of field.now }
{
    let form = NumberForm {
        digits: 6,
        least: 1,
        most: MAX_COUNT,
        refusal: LineRefused::BadCount,
    };
    number(field, form)
}
