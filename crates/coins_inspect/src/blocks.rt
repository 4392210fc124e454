//! Headers, transactions and blocks.

ghost use Rattle.std.specs.Prelude.{◌≡◌, ◌++◌, OnOk};
ghost use Rattle.std.specs.List.{flat_map};
ghost use Rattle.coins_inspect.specs.Reports.{header_report, header_lines, sizes_line, root_line, commitment_line, tx_line, counted_tx_line, measures_line, tx_sizes_line, tx_report, block_report};

use crate::names::{block_error, put_fault, truth};
use crate::words::Word::{Hash, Number, Signed, Text};
use crate::words::put_line;
use base_types::{Cursor, Hash32};
use block_codec::{
    Block, BlockFault, Header, Tx, block_hash, is_coinbase, read_block, read_header, read_tx,
    stripped_size, stripped_tx_size, total_size, total_tx_size, tx_weight, txid, txids, weight,
    wtxid,
};
use merkle::{commitment, root};
use std::alloc::{AllocError, Global};

/// A header.
pub(crate) fn header(out: &mut Vec<u8>, bytes: &[u8]) -> Result<(), AllocError>
    ensures { OnOk result (out.new.items ≡ out.old.items ++ header_report bytes.now) }
{
    let mut cursor = Cursor::new(bytes);
    match read_header(&mut cursor) {
        Ok(header) => put_header(out, &header, cursor.place()),
        Err(BlockFault::NoMemory) => Err(AllocError),
        Err(BlockFault::Bad { error, at }) => put_fault(out, block_error(error), at),
    }
}

// Adds a header, which ends at an offset.
#[tactic(auto, unfolding(crate::specs::Reports::header_lines))]
fn put_header(out: &mut Vec<u8>, header: &Header, end: usize) -> Result<(), AllocError>
    ensures { OnOk result (out.new.items ≡ out.old.items ++ header_lines header.now end) }
{
    put_line(
        out,
        "header",
        &[
            Hash(block_hash(header)),
            Text("version"),
            Signed(i64::from(header.version)),
            Text("time"),
            Number(u64::from(header.time)),
            Text("bits"),
            Number(u64::from(header.bits)),
            Text("nonce"),
            Number(u64::from(header.nonce)),
            Text("end"),
            Number(end as u64),
        ],
    )?;
    put_line(
        out,
        "parent",
        &[Hash(header.prev), Text("root"), Hash(header.root)],
    )
}

/// A transaction.
pub(crate) fn tx(alloc: Global, out: &mut Vec<u8>, bytes: &[u8]) -> Result<(), AllocError>
    ensures { OnOk result (out.new.items ≡ out.old.items ++ tx_report bytes.now) }
{
    match read_tx(alloc, bytes) {
        Ok(tx) => {
            put_tx(out, &tx)?;
            put_tx_sizes(out, &tx)
        }
        Err(BlockFault::NoMemory) => Err(AllocError),
        Err(BlockFault::Bad { error, at }) => put_fault(out, block_error(error), at),
    }
}

#[tactic(auto, unfolding(crate::specs::Reports::tx_sizes_line))]
fn put_tx_sizes(out: &mut Vec<u8>, tx: &Tx) -> Result<(), AllocError>
    ensures { OnOk result (out.new.items ≡ out.old.items ++ tx_sizes_line tx.now) }
{
    let coinbase = truth(is_coinbase(tx));
    put_measures(
        out,
        stripped_tx_size(tx),
        total_tx_size(tx),
        tx_weight(tx),
        coinbase,
    )
}

#[tactic(auto, unfolding(crate::specs::Reports::measures_line))]
fn put_measures(
    out: &mut Vec<u8>,
    stripped: u64,
    size: u64,
    weight: u64,
    coinbase: &'static str,
) -> Result<(), AllocError>
    ensures { OnOk result (out.new.items ≡ out.old.items ++ measures_line stripped size weight coinbase.now) }
{
    put_line(
        out,
        "sizes",
        &[
            Text("stripped"),
            Number(stripped),
            Text("size"),
            Number(size),
            Text("weight"),
            Number(weight),
            Text("coinbase"),
            Text(coinbase),
        ],
    )
}

/// A block.
#[tactic(auto, unfolding(crate::specs::Reports::block_report))]
pub(crate) fn block(alloc: Global, out: &mut Vec<u8>, bytes: &[u8]) -> Result<(), AllocError>
    ensures { OnOk result (out.new.items ≡ out.old.items ++ block_report bytes.now) }
{
    match read_block(alloc, bytes) {
        Ok(block) => {
            put_sizes(out, &block)?;
            put_root(alloc, out, &block)?;
            put_commitment(out, commitment(&block))?;
            put_txs(out, block.txs.as_slice())
        }
        Err(BlockFault::NoMemory) => Err(AllocError),
        Err(BlockFault::Bad { error, at }) => put_fault(out, block_error(error), at),
    }
}

#[tactic(auto, unfolding(crate::specs::Reports::sizes_line))]
fn put_sizes(out: &mut Vec<u8>, block: &Block) -> Result<(), AllocError>
    ensures { OnOk result (out.new.items ≡ out.old.items ++ sizes_line block.now) }
{
    put_line(
        out,
        "block",
        &[
            Hash(block_hash(&block.header)),
            Text("transactions"),
            Number(block.txs.as_slice().len() as u64),
            Text("stripped"),
            Number(stripped_size(block)),
            Text("size"),
            Number(total_size(block)),
            Text("weight"),
            Number(weight(block)),
        ],
    )
}

#[tactic(auto, unfolding(crate::specs::Reports::root_line))]
fn put_root(alloc: Global, out: &mut Vec<u8>, block: &Block) -> Result<(), AllocError>
    ensures { OnOk result (out.new.items ≡ out.old.items ++ root_line block.now) }
{
    let hashes = txids(alloc, block.txs.as_slice())?;
    let computed = root(alloc, &hashes)?;
    put_line(
        out,
        "root",
        &[
            Hash(block.header.root),
            Text("computed"),
            Hash(computed.hash),
            Text("mutated"),
            Text(truth(computed.mutated)),
        ],
    )
}

#[tactic(auto, unfolding(crate::specs::Reports::commitment_line))]
fn put_commitment(out: &mut Vec<u8>, found: Option<Hash32>) -> Result<(), AllocError>
    ensures { OnOk result (out.new.items ≡ out.old.items ++ commitment_line found) }
{
    match found {
        None => put_line(out, "commitment", &[Text("none")]),
        Some(hash) => put_line(out, "commitment", &[Hash(hash)]),
    }
}

fn put_txs(out: &mut Vec<u8>, txs: &[Tx]) -> Result<(), AllocError>
    ensures { OnOk result (out.new.items ≡ out.old.items ++ flat_map tx_line txs.now) }
{
    for tx in txs {
        put_tx(out, tx)?;
    }
    Ok(())
}

#[tactic(auto, unfolding(crate::specs::Reports::tx_line))]
fn put_tx(out: &mut Vec<u8>, tx: &Tx) -> Result<(), AllocError>
    ensures { OnOk result (out.new.items ≡ out.old.items ++ tx_line tx.now) }
{
    let inputs = tx.inputs.as_slice().len();
    let outputs = tx.outputs.as_slice().len();
    put_counted_tx(out, txid(tx), wtxid(tx), inputs, outputs)
}

#[tactic(auto, unfolding(crate::specs::Reports::counted_tx_line))]
fn put_counted_tx(
    out: &mut Vec<u8>,
    txid: Hash32,
    wtxid: Hash32,
    inputs: usize,
    outputs: usize,
) -> Result<(), AllocError>
    ensures { OnOk result (out.new.items ≡ out.old.items ++ counted_tx_line txid wtxid inputs outputs) }
{
    put_line(
        out,
        "transaction",
        &[
            Hash(txid),
            Text("with-witness"),
            Hash(wtxid),
            Text("inputs"),
            Number(inputs as u64),
            Text("outputs"),
            Number(outputs as u64),
        ],
    )
}
