//! Lines of words.

ghost use Rattle.std.specs.Prelude.{◌≡◌, ◌++◌, ◌∷◌, [], length, take, OnOk, OnErr};
ghost use Rattle.command_text.specs.WordLines.{word_text, line_text};

use base_types::Hash32;
use itoa::Buffer;
use std::alloc::AllocError;

// A word of a line.
#[derive(Clone, Copy)]
pub(crate) enum Word<'a> {
    Text(&'a str),
    // Decimal digits.
    Number(u64),
    // As people see it.
    Hash(&'a Hash32),
}

// Adds a line: a head, and words that each have a space before them. Where memory runs out nothing is added.
pub(crate) fn put_line(out: &mut Vec<u8>, head: &str, words: &[Word]) -> Result<(), AllocError>
    ensures ok { OnOk result (out.new.items ≡ out.old.items ++ line_text head.now words.now) }
    ensures err { OnErr result (out.new.items ≡ out.old.items) }
{
    let start = out.len();
    let put = put_words(out, head, words);
    if put.is_err() {
        out.truncate(start);
    }
    put
}

// Adds a line, or a part of it where memory runs out.
fn put_words(out: &mut Vec<u8>, head: &str, words: &[Word]) -> Result<(), AllocError>
    ensures ok { OnOk result (out.new.items ≡ out.old.items ++ line_text head.now words.now) }
    ensures err { OnErr result (take (length out.old.items) out.new.items ≡ out.old.items) }
{
    out.extend_from_slice(head.as_bytes())?;
    for word in words {
        out.push(b' ')?;
        put_word(out, word)?;
    }
    out.push(b'\n')?;
    Ok(())
}

fn put_word(out: &mut Vec<u8>, word: &Word) -> Result<(), AllocError>
    ensures ok { OnOk result (out.new.items ≡ out.old.items ++ word_text word.now) }
    ensures err { OnErr result (out.new.items ≡ out.old.items) }
{
    match word {
        Word::Text(text) => out.extend_from_slice(text.as_bytes()),
        Word::Number(number) => {
            let mut digits = Buffer::new();
            out.extend_from_slice(digits.format(*number).as_bytes())
        }
        Word::Hash(hash) => out.extend_from_slice(&hash.printed()),
    }
}
