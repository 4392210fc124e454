//! Members that stand one after the other in a block's text, behind their number.

ghost use Rattle.std.specs.Prelude.{◌≡◌, ◌<◌, ◌≤◌, ◌-◌, ◌/◌, [], vec_capacity, IfOk};
ghost use Rattle.base_types.specs.Reading.{place};
ghost use Rattle.base_types.specs.Codec.{Reader, many_at};
ghost use Rattle.block_codec.specs.Reading.{Wrong, Reads, script_at, output_at, input_at, tx_at};
ghost use Rattle.block_codec.specs.Skipping.{Skips};

use crate::block::{Tx, TxIn};
use crate::checking::{Faulty, skip_input, skip_output, skip_script, skip_tx};
use crate::fault::BlockFault;
use crate::reading::{input_of, output_of, script_of, tx_in};
use base_types::{Cursor, List, Script, TxOut};
use std::alloc::{AllocError, Global};

/// A part of a block of which lists stand in its text.
pub(crate) trait Member: Drop {
    // How it is read.
    ghost at: { Reader Wrong Self };

    fn read(alloc: Global, cursor: &mut Cursor<'_>) -> Result<Self, BlockFault>
        ensures { Reads result cursor.new (at cursor.old) };

    /// Goes past it and keeps nothing.
    fn skip(cursor: &mut Cursor<'_>) -> Result<(), Faulty>
        ensures { Skips result cursor.new (at cursor.old) };
}

impl Member for Script {
    ghost at = { script_at };

    fn read(alloc: Global, cursor: &mut Cursor<'_>) -> Result<Self, BlockFault> {
        script_of(alloc, cursor)
    }

    fn skip(cursor: &mut Cursor<'_>) -> Result<(), Faulty> {
        skip_script(cursor)
    }
}

impl Member for TxOut {
    ghost at = { output_at };

    fn read(alloc: Global, cursor: &mut Cursor<'_>) -> Result<Self, BlockFault> {
        output_of(alloc, cursor)
    }

    fn skip(cursor: &mut Cursor<'_>) -> Result<(), Faulty> {
        skip_output(cursor)
    }
}

impl Member for TxIn {
    ghost at = { input_at };

    fn read(alloc: Global, cursor: &mut Cursor<'_>) -> Result<Self, BlockFault> {
        input_of(alloc, cursor)
    }

    fn skip(cursor: &mut Cursor<'_>) -> Result<(), Faulty> {
        skip_input(cursor)
    }
}

impl Member for Tx {
    ghost at = { tx_at };

    fn read(alloc: Global, cursor: &mut Cursor<'_>) -> Result<Self, BlockFault> {
        tx_in(alloc, cursor)
    }

    fn skip(cursor: &mut Cursor<'_>) -> Result<(), Faulty> {
        skip_tx(cursor)
    }
}

// No members yet, with room for as many as are said to follow, but for no more than the bytes left can hold, where each
// has at least so many bytes.
fn reserved<T>(
    alloc: Global,
    count: usize,
    least_len: usize,
    cursor: &Cursor<'_>,
) -> Result<Vec<T>, AllocError>
    requires { 0 < least_len }
    ensures none { IfOk result (λ members. members.items ≡ []) }
    ensures room { IfOk result (λ members. vec_capacity members ≤ (cursor.now.end - place cursor.now) / least_len) }
{
    let left = cursor.end() - cursor.place();
    Vec::with_capacity(alloc, count.min(left / least_len))
}

/// So many members, each of at least so many bytes.
pub(crate) fn read_many<T: Member>(
    alloc: Global,
    count: usize,
    least_len: usize,
    cursor: &mut Cursor<'_>,
) -> Result<List<T>, BlockFault>
    requires { 0 < least_len }
    ensures { Reads result cursor.new (many_at T.at count cursor.old) }
{
    let mut members = List::from(reserved(alloc, count, least_len, cursor)?);
    for _ in 0..count {
        let member = T::read(alloc, cursor)?;
        members.push(member)?;
    }
    Ok(members)
}

/// Goes past so many members.
pub(crate) fn skip_many<T: Member>(count: usize, cursor: &mut Cursor<'_>) -> Result<(), Faulty>
    ensures { Skips result cursor.new (many_at T.at count cursor.old) }
{
    for _ in 0..count {
        T::skip(cursor)?;
    }
    Ok(())
}
