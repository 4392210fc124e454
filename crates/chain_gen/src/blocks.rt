//! Generated blocks, and their frames.

ghost use Rattle.std.specs.Prelude.{◌≡◌, ◌≤◌, ◌++◌, ◌-◌, length, take, drop, IfOk, OnOk};
ghost use Rattle.std.specs.Int.{w32};
ghost use Rattle.base_types.specs.Bytes.{number_text};
ghost use Rattle.chain_model.specs.Generated.{block_at as block_of, frame_text};
ghost use Rattle.block_codec.specs.Merkle.{merkle_root};
ghost use Rattle.chain_gen.specs.Blocks.{IsBlock};

use crate::fault::GenFault;
use crate::mining::mine;
use crate::transactions::txs_at;
use base_types::{Hash32, MESSAGE_START, TARGET_BITS};
use block_codec::{Block, GENESIS, Header, txids, write_block};
use merkle::root_in_place;
use std::alloc::{AllocError, Global};

// The seconds from one block to the next.
const SPACING: u32 = 600;

/// The block of a height over the previous block's hash, and its own hash.
#[tactic(auto, unfolding(chain_model::specs::Generated::block_at))]
pub(crate) fn block_at(
    alloc: Global,
    number: u64,
    prev: &Hash32,
    height: u32,
) -> Result<(Block, Hash32), GenFault>
    requires { (1 ≤ height) × (height ≤ 100000) }
    ensures { IsBlock result (block_of number prev.now height) }
{
    let txs = txs_at(alloc, number, height)?;
    let hashes = txids(alloc, txs.as_slice())?;
    let mut header = Header {
        version: 0x2000_0000,
        prev: *prev,
        root: root_in_place(hashes).hash,
        time: GENESIS.time + SPACING * height,
        bits: TARGET_BITS,
        nonce: 0,
    };
    match mine(&mut header) {
        Some(hash) => Ok((Block { header, txs }, hash)),
        None => Err(GenFault::NoNonce),
    }
}

/// Puts a block's frame in place of what stood in a buffer.
pub(crate) fn put_frame(frame: &mut Vec<u8>, block: &Block) -> Result<(), AllocError>
    ensures { OnOk result (frame.new.items ≡ frame_text block.now) }
{
    frame.clear();
    frame.extend_from_slice(&MESSAGE_START)?;
    frame.extend_from_slice(&[0; 4])?;
    write_block(frame, block)?;
    set_length(frame);
    Ok(())
}

// Puts the length of what stands behind a frame's head into the head: its four lower bytes.
#[tactic(auto, unfolding(base_types::specs::Bytes::number_text))]
fn set_length(frame: &mut [u8])
    requires { 8 ≤ length frame.old }
    ensures { frame.new ≡ take 4 frame.old ++ number_text w32 (length frame.old - 8) ++ drop 8 frame.old }
{
    let len = (frame.len() - 8) as u64;
    frame[4..8].copy_from_slice(&len.to_le_bytes()[..4]);
}
