//! The text of a transaction and of a block, piece by piece.

ghost use Rattle.std.specs.Prelude.{◌++◌};
ghost use Rattle.std.specs.List.{flat_map};
ghost use Rattle.std.specs.Int.{w32, w64, cast_unsigned};
ghost use Rattle.base_types.specs.Bytes.{compact, number_text};
ghost use Rattle.block_codec.specs.Encoding.{Adds};
ghost use Rattle.block_codec.specs.Text.{script_text, outpoint_text, output_text, input_text, stack_text, lists_text, stripped_text, full_text, tx_text, header_text, block_text};
ghost use Rattle.block_codec.specs.Weight.{stripped_block_text};

use crate::block::{Block, Header, Stack, Tx, TxIn};
use crate::encoder::Encoder;
use crate::witness::has_witness;
use base_types::{OutPoint, Script, TxOut};

#[tactic(auto, unfolding(base_types::specs::Bytes::number_text))]
fn put_u32<E: Encoder>(encoder: &mut E, n: u32)
    ensures { Adds E.holds encoder.old encoder.new (number_text w32 n) }
{
    encoder.emit(&n.to_le_bytes());
}

fn put_i32<E: Encoder>(encoder: &mut E, n: i32)
    ensures { Adds E.holds encoder.old encoder.new (number_text w32 (cast_unsigned w32 n)) }
{
    put_u32(encoder, n.cast_unsigned());
}

#[tactic(auto, unfolding(base_types::specs::Bytes::number_text))]
fn put_i64<E: Encoder>(encoder: &mut E, n: i64)
    ensures { Adds E.holds encoder.old encoder.new (number_text w64 (cast_unsigned w64 n)) }
{
    encoder.emit(&n.cast_unsigned().to_le_bytes());
}

#[tactic(auto, unfolding(base_types::specs::Bytes::compact, base_types::specs::Bytes::number_text))]
fn put_compact_size<E: Encoder>(encoder: &mut E, n: u64)
    ensures { Adds E.holds encoder.old encoder.new (compact n) }
{
    if n < 253 {
        encoder.emit(&[n as u8]);
    } else if n < 1 << 16 {
        let [a, b] = (n as u16).to_le_bytes();
        encoder.emit(&[253, a, b]);
    } else if n < 1 << 32 {
        let [a, b, c, d] = (n as u32).to_le_bytes();
        encoder.emit(&[254, a, b, c, d]);
    } else {
        let [a, b, c, d, e, f, g, h] = n.to_le_bytes();
        encoder.emit(&[255, a, b, c, d, e, f, g, h]);
    }
}

fn put_script<E: Encoder>(encoder: &mut E, script: &Script)
    ensures { Adds E.holds encoder.old encoder.new (script_text script.now) }
{
    let bytes = script.as_slice();
    put_compact_size(encoder, bytes.len() as u64);
    encoder.emit(bytes);
}

fn put_outpoint<E: Encoder>(encoder: &mut E, point: &OutPoint)
    ensures { Adds E.holds encoder.old encoder.new (outpoint_text point.now) }
{
    encoder.emit(&point.txid.bytes);
    put_u32(encoder, point.index);
}

fn put_output<E: Encoder>(encoder: &mut E, output: &TxOut)
    ensures { Adds E.holds encoder.old encoder.new (output_text output.now) }
{
    put_i64(encoder, output.value);
    put_script(encoder, &output.script);
}

fn put_input<E: Encoder>(encoder: &mut E, input: &TxIn)
    ensures { Adds E.holds encoder.old encoder.new (input_text input.now) }
{
    put_outpoint(encoder, &input.prev);
    put_script(encoder, &input.script);
    put_u32(encoder, input.sequence);
}

fn put_scripts<E: Encoder>(encoder: &mut E, scripts: &[Script])
    ensures { Adds E.holds encoder.old encoder.new (flat_map script_text scripts.now) }
{
    for script in scripts {
        put_script(encoder, script);
    }
}

fn put_stack<E: Encoder>(encoder: &mut E, stack: &Stack)
    ensures { Adds E.holds encoder.old encoder.new (stack_text stack.now) }
{
    let items = stack.as_slice();
    put_compact_size(encoder, items.len() as u64);
    put_scripts(encoder, items);
}

fn put_stacks<E: Encoder>(encoder: &mut E, inputs: &[TxIn])
    ensures { Adds E.holds encoder.old encoder.new (flat_map (λ i. stack_text i.stack) inputs.now) }
{
    for input in inputs {
        put_stack(encoder, &input.stack);
    }
}

fn put_inputs<E: Encoder>(encoder: &mut E, inputs: &[TxIn])
    ensures { Adds E.holds encoder.old encoder.new (flat_map input_text inputs.now) }
{
    for input in inputs {
        put_input(encoder, input);
    }
}

fn put_outputs<E: Encoder>(encoder: &mut E, outputs: &[TxOut])
    ensures { Adds E.holds encoder.old encoder.new (flat_map output_text outputs.now) }
{
    for output in outputs {
        put_output(encoder, output);
    }
}

fn put_lists<E: Encoder>(encoder: &mut E, tx: &Tx)
    ensures { Adds E.holds encoder.old encoder.new (lists_text tx.now) }
{
    let inputs = tx.inputs.as_slice();
    put_compact_size(encoder, inputs.len() as u64);
    put_inputs(encoder, inputs);
    let outputs = tx.outputs.as_slice();
    put_compact_size(encoder, outputs.len() as u64);
    put_outputs(encoder, outputs);
}

/// Adds the form without witness.
pub(crate) fn put_stripped<E: Encoder>(encoder: &mut E, tx: &Tx)
    ensures { Adds E.holds encoder.old encoder.new (stripped_text tx.now) }
{
    put_u32(encoder, tx.version);
    put_lists(encoder, tx);
    put_u32(encoder, tx.lock_time);
}

fn put_full<E: Encoder>(encoder: &mut E, tx: &Tx)
    ensures { Adds E.holds encoder.old encoder.new (full_text tx.now) }
{
    put_u32(encoder, tx.version);
    encoder.emit(&[0, 1]);
    put_lists(encoder, tx);
    put_stacks(encoder, tx.inputs.as_slice());
    put_u32(encoder, tx.lock_time);
}

/// Adds a transaction as it is written.
pub(crate) fn put_tx<E: Encoder>(encoder: &mut E, tx: &Tx)
    ensures { Adds E.holds encoder.old encoder.new (tx_text tx.now) }
{
    if has_witness(tx) {
        put_full(encoder, tx);
    } else {
        put_stripped(encoder, tx);
    }
}

// The version and the hashes of a header.
fn put_links<E: Encoder>(encoder: &mut E, header: &Header)
    ensures { Adds E.holds encoder.old encoder.new (number_text w32 (cast_unsigned w32 header.now.version) ++ header.now.prev.bytes ++ header.now.root.bytes) }
{
    put_i32(encoder, header.version);
    encoder.emit(&header.prev.bytes);
    encoder.emit(&header.root.bytes);
}

/// Adds the 80 bytes of a header.
pub(crate) fn put_header<E: Encoder>(encoder: &mut E, header: &Header)
    ensures { Adds E.holds encoder.old encoder.new (header_text header.now) }
{
    put_links(encoder, header);
    put_u32(encoder, header.time);
    put_u32(encoder, header.bits);
    put_u32(encoder, header.nonce);
}

fn put_txs<E: Encoder>(encoder: &mut E, txs: &[Tx])
    ensures { Adds E.holds encoder.old encoder.new (flat_map tx_text txs.now) }
{
    for tx in txs {
        put_tx(encoder, tx);
    }
}

fn put_stripped_txs<E: Encoder>(encoder: &mut E, txs: &[Tx])
    ensures { Adds E.holds encoder.old encoder.new (flat_map stripped_text txs.now) }
{
    for tx in txs {
        put_stripped(encoder, tx);
    }
}

/// Adds a block as it is written.
pub(crate) fn put_block<E: Encoder>(encoder: &mut E, block: &Block)
    ensures { Adds E.holds encoder.old encoder.new (block_text block.now) }
{
    put_header(encoder, &block.header);
    let txs = block.txs.as_slice();
    put_compact_size(encoder, txs.len() as u64);
    put_txs(encoder, txs);
}

/// Adds a block with each transaction in the form without witness.
pub(crate) fn put_stripped_block<E: Encoder>(encoder: &mut E, block: &Block)
    ensures { Adds E.holds encoder.old encoder.new (stripped_block_text block.now) }
{
    put_header(encoder, &block.header);
    let txs = block.txs.as_slice();
    put_compact_size(encoder, txs.len() as u64);
    put_stripped_txs(encoder, txs);
}
