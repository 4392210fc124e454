//! Reading lines.

ghost use Rattle.std.specs.Prelude.{codes};
ghost use Rattle.command_text.specs.Lines.{line_of, alone as alone_of, with_one as with_one_of, with_two as with_two_of, with_three as with_three_of};
ghost use Rattle.command_text.specs.Parsed.{Parses};

use crate::field;
use crate::line::{Line, LineFault, LineRefused};
use crate::name::Name;
use base_types::OutPoint;
use std::alloc::Global;

// The greatest number of bytes of a line.
const MAX_LINE: usize = 4096;

/// What a line of the input asks for, without the bytes that end it. Its fields are separated by one space. The first
/// reason to refuse it is told: its length, then its name and the number of its fields, then the fields from left to right.
/// Only a line that names a file takes memory.
pub fn parse(alloc: Global, line: &[u8]) -> Result<Line, LineFault>
    ensures { Parses (line_of line.now) result }
{
    if line.is_empty() {
        return Ok(Line::Empty);
    }
    if line.len() > MAX_LINE {
        return Err(LineRefused::LineTooLong.into());
    }
    let mut fields = line.split(|byte| *byte == b' ');
    match (
        fields.next(),
        fields.next(),
        fields.next(),
        fields.next(),
        fields.next(),
    ) {
        (Some(name), None, ..) => alone(name),
        (Some(name), Some(a), None, ..) => with_one(alloc, name, a),
        (Some(name), Some(a), Some(b), None, _) => with_two(alloc, name, a, b),
        (Some(name), Some(a), Some(b), Some(c), None) => with_three(alloc, name, a, b, c),
        _ => Err(LineRefused::UnknownCommand.into()),
    }
}

fn alone(name: &[u8]) -> Result<Line, LineFault>
    ensures { Parses (alone_of name.now) result }
{
    if name == b"flush".as_slice() {
        Ok(Line::Flush)
    } else if name == b"info".as_slice() {
        Ok(Line::Info)
    } else {
        Err(LineRefused::UnknownCommand.into())
    }
}

fn with_one(alloc: Global, name: &[u8], a: &[u8]) -> Result<Line, LineFault>
    ensures { Parses (with_one_of name.now a.now) result }
{
    if name == b"fold".as_slice() {
        let file = Name::new(alloc, field::file(a)?)?;
        Ok(Line::Fold { file })
    } else if name == b"headers".as_slice() {
        let file = Name::new(alloc, field::file(a)?)?;
        Ok(Line::Headers { file, key: None })
    } else if name == b"import".as_slice() {
        let file = Name::new(alloc, field::file(a)?)?;
        Ok(Line::Import { file, key: None })
    } else {
        Err(LineRefused::UnknownCommand.into())
    }
}

fn with_two(alloc: Global, name: &[u8], a: &[u8], b: &[u8]) -> Result<Line, LineFault>
    ensures { Parses (with_two_of name.now a.now b.now) result }
{
    if name == b"headers".as_slice() {
        let text = field::file(a)?;
        let key = Some(field::key(b)?);
        let file = Name::new(alloc, text)?;
        Ok(Line::Headers { file, key })
    } else if name == b"import".as_slice() {
        let text = field::file(a)?;
        let key = Some(field::key(b)?);
        let file = Name::new(alloc, text)?;
        Ok(Line::Import { file, key })
    } else if name == b"gettxout".as_slice() {
        let txid = field::txid(a)?;
        let index = field::index(b)?;
        Ok(Line::GetTxOut {
            key: OutPoint { txid, index },
        })
    } else {
        Err(LineRefused::UnknownCommand.into())
    }
}

fn with_three(alloc: Global, name: &[u8], a: &[u8], b: &[u8], c: &[u8]) -> Result<Line, LineFault>
    ensures { Parses (with_three_of name.now a.now b.now c.now) result }
{
    if name != b"generate".as_slice() {
        return Err(LineRefused::UnknownCommand.into());
    }
    let number = field::seed(a)?;
    let count = field::count(b)?;
    let file = Name::new(alloc, field::file(c)?)?;
    Ok(Line::Generate {
        number,
        count,
        file,
    })
}
