//! Numbers.

ghost use Rattle.std.specs.Prelude.{◌≡◌, ◌++◌, length, OnOk};
ghost use Rattle.base_types.specs.Reading.{compact_at, length_at, varint_at, on_rest};
ghost use Rattle.coins_inspect.specs.Names.{read_error as name_of};
ghost use Rattle.coins_inspect.specs.Reports.{all_of, number_line, fault_line, error_place, number_report};

use crate::names::{put_fault, read_error};
use crate::words::Word::{Number, Text};
use crate::words::put_line;
use base_types::{Cursor, ReadError};
use std::alloc::AllocError;

/// A CompactSize.
pub(crate) fn compact_size(out: &mut Vec<u8>, bytes: &[u8]) -> Result<(), AllocError>
    ensures { OnOk result (out.new.items ≡ out.old.items ++ number_report (length bytes.now) (on_rest compact_at (all_of bytes.now))) }
{
    let mut cursor = Cursor::new(bytes);
    match cursor.compact_size() {
        Ok(number) => put_number(out, number, cursor.place()),
        Err(error) => put_error(out, error, bytes.len()),
    }
}

/// A VARINT.
pub(crate) fn varint(out: &mut Vec<u8>, bytes: &[u8]) -> Result<(), AllocError>
    ensures { OnOk result (out.new.items ≡ out.old.items ++ number_report (length bytes.now) (on_rest varint_at (all_of bytes.now))) }
{
    let mut cursor = Cursor::new(bytes);
    match cursor.varint() {
        Ok(number) => put_number(out, number, cursor.place()),
        Err(error) => put_error(out, error, bytes.len()),
    }
}

/// A length.
pub(crate) fn length(out: &mut Vec<u8>, bytes: &[u8]) -> Result<(), AllocError>
    ensures { OnOk result (out.new.items ≡ out.old.items ++ number_report (length bytes.now) (on_rest length_at (all_of bytes.now))) }
{
    let mut cursor = Cursor::new(bytes);
    match cursor.compact_len() {
        Ok(number) => put_number(out, number as u64, cursor.place()),
        Err(error) => put_error(out, error, bytes.len()),
    }
}

// Adds a number, and the offset behind it.
#[tactic(auto, unfolding(crate::specs::Reports::number_line))]
fn put_number(out: &mut Vec<u8>, number: u64, end: usize) -> Result<(), AllocError>
    ensures { OnOk result (out.new.items ≡ out.old.items ++ number_line number end) }
{
    put_line(
        out,
        "number",
        &[Number(number), Text("end"), Number(end as u64)],
    )
}

// Adds the fault of the field with which so many bytes begin.
fn put_error(out: &mut Vec<u8>, error: ReadError, len: usize) -> Result<(), AllocError>
    ensures { OnOk result (out.new.items ≡ out.old.items ++ fault_line (name_of error) (error_place error 0 len)) }
{
    match error {
        ReadError::Short => put_fault(out, read_error(error), len),
        ReadError::LongSpelling | ReadError::TooLarge => put_fault(out, read_error(error), 0),
    }
}
