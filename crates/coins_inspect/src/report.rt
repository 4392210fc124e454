//! What is printed of bytes, and of a line of the input.

ghost use Rattle.std.specs.Prelude.{◌≡◌, ◌==◌, ◌++◌, position, OnOk};
ghost use Rattle.coins_inspect.specs.LineAnswers.{report_of, lines_for, answer_of};

use crate::blocks::{block, header, tx};
use crate::chain::headers;
use crate::coins::{amount, coin, key, script};
use crate::form::Form;
use crate::logs::log;
use crate::numbers::{compact_size, length, varint};
use crate::snapshots::snapshot;
use crate::words::Word::Text;
use crate::words::put_line;
use hex::FromHexError;
use std::alloc::{AllocError, Global};

/// Adds what bytes mean in a form, or what is wrong with them.
#[tactic(auto, unfolding(crate::specs::LineAnswers::report_of))]
pub fn report(alloc: Global, out: &mut Vec<u8>, form: Form, bytes: &[u8]) -> Result<(), AllocError>
    ensures { OnOk result (out.new.items ≡ out.old.items ++ report_of form bytes.now) }
{
    match form {
        Form::CompactSize => compact_size(out, bytes),
        Form::Varint => varint(out, bytes),
        Form::Length => length(out, bytes),
        Form::Amount => amount(out, bytes),
        Form::Script => script(alloc, out, bytes),
        Form::Coin => coin(alloc, out, bytes),
        Form::Key => key(out, bytes),
        Form::Header => header(out, bytes),
        Form::Headers => headers(alloc, out, bytes),
        Form::Tx => tx(alloc, out, bytes),
        Form::Block => block(alloc, out, bytes),
        Form::Snapshot => snapshot(alloc, out, bytes),
        Form::Log(kind) => log(alloc, out, kind, bytes),
    }
}

/// Adds the answer to a line: a form, and behind a space the bytes in hexadecimal.
pub fn answer(alloc: Global, out: &mut Vec<u8>, line: &[u8]) -> Result<(), AllocError>
    ensures { OnOk result (out.new.items ≡ out.old.items ++ answer_of line.now) }
{
    match first_space(line) {
        Some(space) => put_lines(alloc, out, Form::named(&line[..space]), &line[space + 1..]),
        None => put_lines(alloc, out, Form::named(line), &[]),
    }
}

fn first_space(line: &[u8]) -> Option<usize>
    ensures { result ≡ position (λ byte. byte == 32) line.now }
{
    line.iter().position(|byte| *byte == b' ')
}

// Adds what is printed for a form that may not be one, and digits that may not be bytes.
#[tactic(auto, unfolding(crate::specs::LineAnswers::lines_for))]
fn put_lines(
    alloc: Global,
    out: &mut Vec<u8>,
    form: Option<Form>,
    digits: &[u8],
) -> Result<(), AllocError>
    ensures { OnOk result (out.new.items ≡ out.old.items ++ lines_for form digits.now) }
{
    let Some(form) = form else {
        return put_line(out, "refused", &[Text("unknown-form")]);
    };
    match hex::decode(alloc, digits) {
        Ok(bytes) => report(alloc, out, form, &bytes),
        Err(FromHexError::OutOfMemory) => Err(AllocError),
        Err(_) => put_line(out, "refused", &[Text("bad-hexadecimal")]),
    }
}
