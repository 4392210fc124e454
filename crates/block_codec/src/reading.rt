//! Reading blocks.

ghost use Rattle.std.specs.Prelude.{◌≡◌, ℕ, length, Ok, Err, IfOk, IfErr, Some};
ghost use Rattle.std.specs.Int.{w32, w64};
ghost use Rattle.base_types.specs.Reading.{byte_at, bytes_at, number_at, length_at};
ghost use Rattle.base_types.specs.Codec.{field, renamed};
ghost use Rattle.block_codec.specs.Reading.{Wrong, wrong, Answers, Reads, ReadsAs, Fails, script_at, output_at, input_at, stack_at, stacks_at, lists_at, ended_at, stripped_at, full_at, flagged_at, tx_at, header_at, block_at, block_of};
ghost use Rattle.block_codec.specs.Text.{text_of};
ghost use Rattle.block_codec.specs.Told.{IsTold};
ghost use Rattle.block_codec.specs.TxAlone.{tx_of, tx_text_of};
ghost use Rattle.block_codec.specs.declared.block.Block.{Block};
ghost use Rattle.block_codec.specs.declared.block.Tx.{Tx};

use crate::block::{Block, Header, Inputs, Outputs, Stack, Tx, TxIn};
use crate::fault::{BlockError, BlockFault};
use crate::members::read_many;
use crate::witness::some_witness;
use base_types::{Cursor, Hash32, List, OutPoint, ReadError, Script, TxOut};
use std::alloc::Global;

// The least bytes of an item of a witness, an output, an input and a transaction.
const LEAST_ITEM: usize = 1;

const LEAST_OUTPUT: usize = 9;

const LEAST_INPUT: usize = 41;

const LEAST_TX: usize = 10;

fn fault_at(cursor: &Cursor<'_>, error: ReadError) -> BlockFault
    ensures value { Fails {Y = ℕ} result (Err (wrong cursor.now error)) }
    ensures told { IsTold result }
{
    match error {
        ReadError::Short => BlockFault::Bad {
            error: BlockError::Short,
            at: cursor.end(),
        },
        ReadError::LongSpelling => BlockFault::Bad {
            error: BlockError::LongSpelling,
            at: cursor.place(),
        },
        ReadError::TooLarge => BlockFault::Bad {
            error: BlockError::TooLarge,
            at: cursor.place(),
        },
    }
}

fn u8_of(cursor: &mut Cursor<'_>) -> Result<u8, BlockFault>
    ensures { Reads result cursor.new (field wrong byte_at cursor.old) }
{
    match cursor.u8() {
        Ok(number) => Ok(number),
        Err(error) => Err(fault_at(cursor, error)),
    }
}

fn u32_of(cursor: &mut Cursor<'_>) -> Result<u32, BlockFault>
    ensures value { Reads result cursor.new (field wrong (number_at w32) cursor.old) }
    ensures told { IfErr result IsTold }
{
    match cursor.u32() {
        Ok(number) => Ok(number),
        Err(error) => Err(fault_at(cursor, error)),
    }
}

fn u64_of(cursor: &mut Cursor<'_>) -> Result<u64, BlockFault>
    ensures { Reads result cursor.new (field wrong (number_at w64) cursor.old) }
{
    match cursor.u64() {
        Ok(number) => Ok(number),
        Err(error) => Err(fault_at(cursor, error)),
    }
}

fn length_of(cursor: &mut Cursor<'_>) -> Result<usize, BlockFault>
    ensures { Reads result cursor.new (field wrong length_at cursor.old) }
{
    match cursor.compact_len() {
        Ok(len) => Ok(len),
        Err(error) => Err(fault_at(cursor, error)),
    }
}

fn hash_of(cursor: &mut Cursor<'_>) -> Result<Hash32, BlockFault>
    ensures value { ReadsAs (λ h. h.bytes) result cursor.new (field wrong (bytes_at 32) cursor.old) }
    ensures told { IfErr result IsTold }
{
    match cursor.take(32) {
        Ok(taken) => {
            let mut bytes = [0; 32];
            bytes.copy_from_slice(taken);
            Ok(Hash32 { bytes })
        }
        Err(error) => Err(fault_at(cursor, error)),
    }
}

#[tactic(auto, unfolding(crate::specs::Reading::script_at))]
pub(crate) fn script_of(alloc: Global, cursor: &mut Cursor<'_>) -> Result<Script, BlockFault>
    ensures { Reads result cursor.new (script_at cursor.old) }
{
    let len = length_of(cursor)?;
    match cursor.take(len) {
        Ok(bytes) => Ok(Script::from_slice(alloc, bytes)?),
        Err(error) => Err(fault_at(cursor, error)),
    }
}

#[tactic(auto, unfolding(crate::specs::Reading::output_at))]
pub(crate) fn output_of(alloc: Global, cursor: &mut Cursor<'_>) -> Result<TxOut, BlockFault>
    ensures { Reads result cursor.new (output_at cursor.old) }
{
    let value = u64_of(cursor)?.cast_signed();
    let script = script_of(alloc, cursor)?;
    Ok(TxOut { value, script })
}

#[tactic(auto, unfolding(crate::specs::Reading::input_at))]
pub(crate) fn input_of(alloc: Global, cursor: &mut Cursor<'_>) -> Result<TxIn, BlockFault>
    ensures { Reads result cursor.new (input_at cursor.old) }
{
    let txid = hash_of(cursor)?;
    let index = u32_of(cursor)?;
    let script = script_of(alloc, cursor)?;
    let sequence = u32_of(cursor)?;
    Ok(TxIn {
        prev: OutPoint { txid, index },
        script,
        sequence,
        stack: Stack::new(alloc),
    })
}

#[tactic(auto, unfolding(crate::specs::Reading::stack_at))]
fn stack_of(alloc: Global, cursor: &mut Cursor<'_>) -> Result<Stack, BlockFault>
    ensures { Reads result cursor.new (stack_at cursor.old) }
{
    let count = length_of(cursor)?;
    read_many(alloc, count, LEAST_ITEM, cursor)
}

// A stack for each of the inputs, which are read without one.
fn stacks_of(alloc: Global, inputs: Inputs, cursor: &mut Cursor<'_>) -> Result<Inputs, BlockFault>
    ensures { Reads result cursor.new (stacks_at inputs cursor.old) }
{
    let mut inputs = inputs.into_vec();
    for index in 0..inputs.len() {
        inputs[index].stack = stack_of(alloc, cursor)?;
    }
    Ok(List::from(inputs))
}

#[tactic(auto, unfolding(crate::specs::Reading::lists_at))]
fn lists_of(
    alloc: Global,
    count: usize,
    cursor: &mut Cursor<'_>,
) -> Result<(Inputs, Outputs), BlockFault>
    ensures { Reads result cursor.new (lists_at count cursor.old) }
{
    let inputs = read_many(alloc, count, LEAST_INPUT, cursor)?;
    let count = length_of(cursor)?;
    let outputs = read_many(alloc, count, LEAST_OUTPUT, cursor)?;
    Ok((inputs, outputs))
}

#[tactic(auto, unfolding(crate::specs::Reading::ended_at))]
fn ended(
    version: u32,
    inputs: Inputs,
    outputs: Outputs,
    cursor: &mut Cursor<'_>,
) -> Result<Tx, BlockFault>
    ensures { Reads result cursor.new (ended_at version inputs outputs cursor.old) }
{
    let lock_time = u32_of(cursor)?;
    Ok(Tx {
        version,
        inputs,
        outputs,
        lock_time,
    })
}

// The form without witness, behind the number of inputs.
#[tactic(auto, unfolding(crate::specs::Reading::stripped_at))]
fn stripped_of(
    alloc: Global,
    version: u32,
    count: usize,
    cursor: &mut Cursor<'_>,
) -> Result<Tx, BlockFault>
    ensures { Reads result cursor.new (stripped_at version count cursor.old) }
{
    let (inputs, outputs) = lists_of(alloc, count, cursor)?;
    ended(version, inputs, outputs, cursor)
}

// The form with witness, behind the flag.
#[tactic(auto, unfolding(crate::specs::Reading::full_at))]
fn full_of(
    alloc: Global,
    version: u32,
    flag: usize,
    cursor: &mut Cursor<'_>,
) -> Result<Tx, BlockFault>
    ensures { Reads result cursor.new (full_at version flag cursor.old) }
{
    let count = length_of(cursor)?;
    let (inputs, outputs) = lists_of(alloc, count, cursor)?;
    let inputs = stacks_of(alloc, inputs, cursor)?;
    if !some_witness(inputs.as_slice()) {
        return Err(BlockFault::Bad {
            error: BlockError::EmptyWitness,
            at: flag,
        });
    }
    ended(version, inputs, outputs, cursor)
}

// What follows a number of inputs that is 0.
#[tactic(auto, unfolding(crate::specs::Reading::flagged_at))]
fn flagged_of(alloc: Global, version: u32, cursor: &mut Cursor<'_>) -> Result<Tx, BlockFault>
    ensures { Reads result cursor.new (flagged_at version cursor.old) }
{
    let at = cursor.place();
    match u8_of(cursor)? {
        0 => ended(version, Inputs::new(alloc), Outputs::new(alloc), cursor),
        1 => full_of(alloc, version, at, cursor),
        _ => Err(BlockFault::Bad {
            error: BlockError::BadFlag,
            at,
        }),
    }
}

#[tactic(auto, unfolding(crate::specs::Reading::tx_at))]
pub(crate) fn tx_in(alloc: Global, cursor: &mut Cursor<'_>) -> Result<Tx, BlockFault>
    ensures { Reads result cursor.new (tx_at cursor.old) }
{
    let version = u32_of(cursor)?;
    let count = length_of(cursor)?;
    if count == 0 {
        flagged_of(alloc, version, cursor)
    } else {
        stripped_of(alloc, version, count, cursor)
    }
}

/// The header that stands at the cursor, of 80 bytes, which have no fault but that they end too early. It takes no memory,
/// and never answers that none was left.
#[tactic(auto, unfolding(crate::specs::Reading::header_at))]
pub fn read_header(cursor: &mut Cursor<'_>) -> Result<Header, BlockFault>
    // The header, or that the bytes end too early, and where they end.
    ensures exact { Reads result cursor.new (header_at cursor.old) }

    // It takes no memory.
    ensures told { IfErr result IsTold }
{
    let version = u32_of(cursor)?.cast_signed();
    let prev = hash_of(cursor)?;
    let root = hash_of(cursor)?;
    let time = u32_of(cursor)?;
    let bits = u32_of(cursor)?;
    let nonce = u32_of(cursor)?;
    Ok(Header {
        version,
        prev,
        root,
        time,
        bits,
        nonce,
    })
}

#[tactic(auto, unfolding(crate::specs::Reading::block_at))]
fn block_in(alloc: Global, cursor: &mut Cursor<'_>) -> Result<Block, BlockFault>
    ensures { Reads result cursor.new (block_at cursor.old) }
{
    let header = read_header(cursor)?;
    let count = length_of(cursor)?;
    let txs = read_many(alloc, count, LEAST_TX, cursor)?;
    Ok(Block { header, txs })
}

#[tactic(auto, unfolding(crate::specs::Reading::block_of))]
fn whole_block(alloc: Global, bytes: &[u8]) -> Result<Block, BlockFault>
    ensures { Answers result (block_of bytes.now) }
{
    let mut cursor = Cursor::new(bytes);
    let block = block_in(alloc, &mut cursor)?;
    if !cursor.is_at_end() {
        return Err(BlockFault::Bad {
            error: BlockError::Trailing,
            at: cursor.place(),
        });
    }
    Ok(block)
}

/// The block whose text the bytes are (`UnserializeBlock` of Bitcoin Core, with the witness form of BIP 144). The first
/// fault from left to right is answered with the offset of the field that is wrong.
pub fn read_block(alloc: Global, bytes: &[u8]) -> Result<Block, BlockFault>
    // What is read has that text.
    ensures found { IfOk result (λ block. text_of block ≡ Some bytes.now) }

    // What has the text is read, unless memory runs out.
    ensures only { (block : Block) → text_of block ≡ Some bytes.now → Answers result (Ok block) }

    // Which fault is answered, and with which offset.
    ensures exact { Answers result (block_of bytes.now) }
{
    whole_block(alloc, bytes)
}

#[tactic(auto, unfolding(crate::specs::TxAlone::tx_of))]
fn whole_tx(alloc: Global, bytes: &[u8]) -> Result<Tx, BlockFault>
    ensures { Answers result (tx_of bytes.now) }
{
    let mut cursor = Cursor::new(bytes);
    let tx = tx_in(alloc, &mut cursor)?;
    if cursor.is_at_end() {
        Ok(tx)
    } else {
        Err(BlockFault::Bad {
            error: BlockError::Trailing,
            at: cursor.place(),
        })
    }
}

/// The transaction whose text the bytes are (`UnserializeTransaction` of Bitcoin Core, with the witness form of BIP 144). The
/// first fault from left to right is answered with the offset of the field that is wrong, as in a block.
pub fn read_tx(alloc: Global, bytes: &[u8]) -> Result<Tx, BlockFault>
    // What is read has that text.
    ensures found { IfOk result (λ tx. tx_text_of tx ≡ Some bytes.now) }

    // What has the text is read, unless memory runs out.
    ensures only { (tx : Tx) → tx_text_of tx ≡ Some bytes.now → Answers result (Ok tx) }

    // Which fault is answered, and with which offset.
    ensures exact { Answers result (tx_of bytes.now) }
{
    whole_tx(alloc, bytes)
}
