//! Lines of words.

ghost use Rattle.std.specs.Prelude.{◌≡◌, ◌++◌, ◌∷◌, [], OnOk};
ghost use Rattle.hex.specs.Hex.{encode_lower};
ghost use Rattle.coins_inspect.specs.Lines.{line, word_text, line_text};

use base_types::Hash32;
use itoa::Buffer;
use std::alloc::AllocError;

/// A word of a line.
#[derive(Clone, Copy)]
pub(crate) enum Word {
    Text(&'static str),
    /// Decimal digits.
    Number(u64),
    /// Decimal digits, behind a minus sign where it is negative.
    Signed(i64),
    /// As people see it.
    Hash(Hash32),
}

/// Adds a line: a head, and words that each have a space before them.
pub(crate) fn put_line(out: &mut Vec<u8>, head: &str, words: &[Word]) -> Result<(), AllocError>
    ensures { OnOk result (out.new.items ≡ out.old.items ++ line_text head.now words.now) }
{
    out.extend_from_slice(head.as_bytes())?;
    for word in words {
        out.push(b' ')?;
        put_word(out, word)?;
    }
    out.push(b'\n')?;
    Ok(())
}

fn put_word(out: &mut Vec<u8>, word: &Word) -> Result<(), AllocError>
    ensures { OnOk result (out.new.items ≡ out.old.items ++ word_text word.now) }
{
    match word {
        Word::Text(text) => out.extend_from_slice(text.as_bytes()),
        Word::Number(number) => {
            let mut digits = Buffer::new();
            out.extend_from_slice(digits.format(*number).as_bytes())
        }
        Word::Signed(number) => {
            let mut digits = Buffer::new();
            out.extend_from_slice(digits.format(*number).as_bytes())
        }
        Word::Hash(hash) => out.extend_from_slice(&hash.printed()),
    }
}

/// Adds a line: a head, and bytes in hexadecimal.
pub(crate) fn put_bytes(out: &mut Vec<u8>, head: &str, bytes: &[u8]) -> Result<(), AllocError>
    ensures { OnOk result (out.new.items ≡ out.old.items ++ line head.now (encode_lower bytes.now ∷ [])) }
{
    let digits = hex::encode(*out.allocator(), bytes)?;
    out.extend_from_slice(head.as_bytes())?;
    out.push(b' ')?;
    out.extend_from_slice(digits.as_bytes())?;
    out.push(b'\n')?;
    Ok(())
}
