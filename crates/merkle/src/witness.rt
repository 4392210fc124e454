//! The commitment of a block to the witnesses of its transactions (BIP 141).

ghost use Rattle.std.specs.Prelude.{◌≡◌, IfOk, Some, None, if◌then◌else◌};
ghost use Rattle.block_codec.specs.Commitment.{last_commitment as last_commitment_of, commits, committed_hash as committed_hash_of, commitment_of, witness_root_of, computed_commitment as computed_commitment_of};

use crate::levels::root_in_place;
use base_types::{Hash32, TxOut};
use block_codec::{Block, hash_of_both, wtxid};
use std::alloc::{AllocError, Global};

/// The hash that the coinbase commits to: that in the last of its outputs that holds a commitment
/// (`GetWitnessCommitmentIndex` in Bitcoin Core's `consensus/validation.h`).
pub fn commitment(block: &Block) -> Option<Hash32>
    ensures { result ≡ commitment_of block.now }
{
    let coinbase = block.txs.as_slice().first()?;
    last_commitment(coinbase.outputs.as_slice())
}

/// The hash in the last of the outputs that hold a commitment.
fn last_commitment(outputs: &[TxOut]) -> Option<Hash32>
    ensures { result ≡ last_commitment_of None outputs.now }
{
    for output in outputs.iter().rev() {
        if let Some(hash) = committed_hash(output.script.as_slice()) {
            return Some(hash);
        }
    }
    None
}

/// The hash that a script commits to: the 32 bytes behind `OP_RETURN`, a push of 36 bytes and a mark of four. What
/// follows them is free.
fn committed_hash(script: &[u8]) -> Option<Hash32>
    ensures { result ≡ (if commits script.now then Some (committed_hash_of script.now) else None) }
{
    let [0x6a, 0x24, 0xaa, 0x21, 0xa9, 0xed, rest @ ..] = script else {
        return None;
    };
    let bytes = rest.first_chunk::<32>()?;
    Some(Hash32 { bytes: *bytes })
}

/// The merkle root of the transactions' hashes with their witnesses, with zero in the coinbase's place
/// (`BlockWitnessMerkleRoot` in Bitcoin Core's `consensus/merkle.cpp`). It fails where no memory is left for the hashes.
pub fn witness_root(alloc: Global, block: &Block) -> Result<Hash32, AllocError>
    ensures { IfOk result (λ root. root ≡ witness_root_of block.now) }
{
    let txs = block.txs.as_slice();
    let mut hashes = Vec::with_capacity(alloc, txs.len())?;
    if let [_coinbase, others @ ..] = txs {
        hashes.push(Hash32 { bytes: [0; 32] })?;
        for tx in others {
            hashes.push(wtxid(tx))?;
        }
    }
    Ok(root_in_place(hashes).hash)
}

/// The hash that a block's commitment is to have: that of the witness root and of the item of 32 bytes which the
/// coinbase's witness holds. It fails where no memory is left for the witness root.
pub fn computed_commitment(alloc: Global, block: &Block, item: &[u8]) -> Result<Hash32, AllocError>
    ensures { IfOk result (λ hash. hash ≡ computed_commitment_of block.now item.now) }
{
    let root = witness_root(alloc, block)?;
    Ok(hash_of_both(&root.bytes, item))
}
