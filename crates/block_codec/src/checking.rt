//! Testing whether bytes are a block, with no memory taken and nothing kept of them.

ghost use Rattle.std.specs.Prelude.{◌≡◌, ◌==◌, ℕ, List, length, not, is_ok};
ghost use Rattle.block_codec.specs.Reading.{script_at, output_at, input_at, stack_at, stacks_at, lists_at, stripped_at, full_at, flagged_at, tx_at, header_at, block_at, block_of};
ghost use Rattle.block_codec.specs.Skipping.{Skips, Shows};
ghost use Rattle.block_codec.specs.Text.{some_witness};
ghost use Rattle.block_codec.specs.declared.block.TxIn.{TxIn};

use crate::block::{Tx, TxIn};
use crate::members::skip_many;
use base_types::{Cursor, ReadError, Script, TxOut};

/// Some field is wrong. Which one, and how, only `read_block` says.
pub(crate) struct Faulty;

impl From<ReadError> for Faulty {
    fn from(_error: ReadError) -> Faulty {
        Faulty
    }
}

// A script, or an item of a witness.
#[tactic(auto, unfolding(crate::specs::Reading::script_at))]
pub(crate) fn skip_script(cursor: &mut Cursor<'_>) -> Result<(), Faulty>
    ensures { Skips result cursor.new (script_at cursor.old) }
{
    let len = cursor.compact_len()?;
    cursor.take(len)?;
    Ok(())
}

#[tactic(auto, unfolding(crate::specs::Reading::output_at))]
pub(crate) fn skip_output(cursor: &mut Cursor<'_>) -> Result<(), Faulty>
    ensures { Skips result cursor.new (output_at cursor.old) }
{
    cursor.u64()?;
    skip_script(cursor)
}

#[tactic(auto, unfolding(crate::specs::Reading::input_at))]
pub(crate) fn skip_input(cursor: &mut Cursor<'_>) -> Result<(), Faulty>
    ensures { Skips result cursor.new (input_at cursor.old) }
{
    // The outpoint.
    cursor.take(32)?;
    cursor.u32()?;
    skip_script(cursor)?;
    cursor.u32()?;
    Ok(())
}

// The witness of an input. Whether it has an item.
#[tactic(auto, unfolding(crate::specs::Reading::stack_at))]
fn skip_stack(cursor: &mut Cursor<'_>) -> Result<bool, Faulty>
    ensures { Shows (λ has_item stack. has_item ≡ not (length stack == 0)) result cursor.new (stack_at cursor.old) }
{
    let count = cursor.compact_len()?;
    skip_many::<Script>(count, cursor)?;
    Ok(count != 0)
}

// A stack for each of so many inputs. Whether one of them has an item.
fn skip_stacks(count: usize, cursor: &mut Cursor<'_>) -> Result<bool, Faulty>
    ensures { (inputs : List TxIn) → length inputs ≡ count → Shows (λ has_witness read. has_witness ≡ some_witness read) result cursor.new (stacks_at inputs cursor.old) }
{
    let mut has_witness = false;
    for _ in 0..count {
        has_witness |= skip_stack(cursor)?;
    }
    Ok(has_witness)
}

// So many inputs, and the outputs behind their number.
#[tactic(auto, unfolding(crate::specs::Reading::lists_at))]
fn skip_lists(count: usize, cursor: &mut Cursor<'_>) -> Result<(), Faulty>
    ensures { Skips result cursor.new (lists_at count cursor.old) }
{
    skip_many::<TxIn>(count, cursor)?;
    let count = cursor.compact_len()?;
    skip_many::<TxOut>(count, cursor)
}

// The form without witness, behind the number of inputs.
#[tactic(auto, unfolding(crate::specs::Reading::stripped_at, crate::specs::Reading::ended_at))]
fn skip_stripped(count: usize, cursor: &mut Cursor<'_>) -> Result<(), Faulty>
    ensures { (version : ℕ) → Skips result cursor.new (stripped_at version count cursor.old) }
{
    skip_lists(count, cursor)?;
    cursor.u32()?;
    Ok(())
}

// The form with witness, behind the flag.
#[tactic(auto, unfolding(crate::specs::Reading::full_at, crate::specs::Reading::ended_at))]
fn skip_full(cursor: &mut Cursor<'_>) -> Result<(), Faulty>
    ensures { (version flag : ℕ) → Skips result cursor.new (full_at version flag cursor.old) }
{
    let count = cursor.compact_len()?;
    skip_lists(count, cursor)?;
    if !skip_stacks(count, cursor)? {
        return Err(Faulty);
    }
    // The lock time.
    cursor.u32()?;
    Ok(())
}

// What follows a number of inputs that is 0.
#[tactic(auto, unfolding(crate::specs::Reading::flagged_at, crate::specs::Reading::ended_at))]
fn skip_flagged(cursor: &mut Cursor<'_>) -> Result<(), Faulty>
    ensures { (version : ℕ) → Skips result cursor.new (flagged_at version cursor.old) }
{
    match cursor.u8()? {
        0 => {
            cursor.u32()?;
            Ok(())
        }
        1 => skip_full(cursor),
        _ => Err(Faulty),
    }
}

#[tactic(auto, unfolding(crate::specs::Reading::tx_at))]
pub(crate) fn skip_tx(cursor: &mut Cursor<'_>) -> Result<(), Faulty>
    ensures { Skips result cursor.new (tx_at cursor.old) }
{
    cursor.u32()?;
    let count = cursor.compact_len()?;
    if count == 0 {
        skip_flagged(cursor)
    } else {
        skip_stripped(count, cursor)
    }
}

#[tactic(auto, unfolding(crate::specs::Reading::header_at))]
fn skip_header(cursor: &mut Cursor<'_>) -> Result<(), Faulty>
    ensures { Skips result cursor.new (header_at cursor.old) }
{
    cursor.u32()?;
    // The hashes of the block before and of the root.
    cursor.take(32)?;
    cursor.take(32)?;
    // Time, bits and nonce.
    cursor.u32()?;
    cursor.u32()?;
    cursor.u32()?;
    Ok(())
}

#[tactic(auto, unfolding(crate::specs::Reading::block_at))]
fn skip_block(cursor: &mut Cursor<'_>) -> Result<(), Faulty>
    ensures { Skips result cursor.new (block_at cursor.old) }
{
    skip_header(cursor)?;
    let count = cursor.compact_len()?;
    skip_many::<Tx>(count, cursor)
}

/// Whether the bytes are the text of a block, so that `read_block` reads them unless memory runs out. It takes no memory
/// and copies nothing, so bytes from strangers can be tested before they cost anything.
#[tactic(auto, unfolding(crate::specs::Reading::block_of))]
pub fn is_block(bytes: &[u8]) -> bool
    ensures { result ≡ is_ok (block_of bytes.now) }
{
    let mut cursor = Cursor::new(bytes);
    match skip_block(&mut cursor) {
        Ok(()) => cursor.is_at_end(),
        Err(Faulty) => false,
    }
}
