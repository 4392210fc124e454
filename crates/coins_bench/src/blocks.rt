//! Block files: making one, and the time of reading its blocks beside that of hashing them.

ghost use Rattle.std.specs.Prelude.{◌≡◌, ◌++◌, drop, IfSome};

use anyhow::{Result, bail};
use base_types::{Hash32, MESSAGE_START, OutPoint, Script, TxOut, hash_twice, put_u32};
use block_codec::{Block, Header, Inputs, Outputs, Stack, Tx, TxIn, Txs, read_block, write_block};
use std::alloc::{AllocError, Global};
use std::fs::{self, File};
use std::io::Write;
use std::time::Instant;

/// The transactions of a block that is made, the coinbase aside.
const TRANSACTIONS: u32 = 200;

// A transaction with two inputs and two outputs, of the size that is usual.
fn transaction(alloc: Global, number: u32) -> Result<Tx, AllocError> {
    let mut inputs = Inputs::new(alloc);
    for index in 0..2u32 {
        inputs.push(TxIn {
            prev: OutPoint {
                txid: hash_twice(&number.to_le_bytes()),
                index,
            },
            script: Script::from_slice(alloc, &[0x51; 107])?,
            sequence: u32::MAX,
            stack: Stack::new(alloc),
        })?;
    }
    let mut outputs = Outputs::new(alloc);
    for _ in 0..2u32 {
        outputs.push(TxOut {
            value: 5_000_000_000,
            script: Script::from_slice(alloc, &[0x76; 25])?,
        })?;
    }
    Ok(Tx {
        version: 2,
        inputs,
        outputs,
        lock_time: 0,
    })
}

fn block(alloc: Global, number: u32) -> Result<Block, AllocError> {
    let mut txs = Txs::new(alloc);
    for place in 0..TRANSACTIONS {
        txs.push(transaction(alloc, number.wrapping_mul(TRANSACTIONS).wrapping_add(place))?)?;
    }
    let zero = Hash32 { bytes: [0; 32] };
    Ok(Block {
        header: Header {
            version: 4,
            prev: zero,
            root: zero,
            time: number,
            bits: 0x207f_ffff,
            nonce: 0,
        },
        txs,
    })
}

/// Writes a file of so many frames.
pub fn make(rt: &HostRuntime, name: &str, count: u32) -> Result<()> {
    let mut file = File::create(rt, name)?;
    for number in 0..count {
        let mut text = Vec::new(rt.alloc());
        write_block(&mut text, &block(rt.alloc(), number)?)?;
        let mut head = Vec::new(rt.alloc());
        head.extend_from_slice(&MESSAGE_START)?;
        put_u32(&mut head, u32::try_from(text.len())?)?;
        file.write_all(&head)?;
        file.write_all(&text)?;
    }
    Ok(())
}

// The bytes of the first frame's block, and what follows it.
fn next_frame(bytes: &[u8]) -> Option<(&[u8], &[u8])>
    ensures { IfSome result (λ parts. drop 8 bytes.now ≡ parts.0.now ++ parts.1.now) }
{
    if bytes.len() < 8 {
        return None;
    }
    let (head, rest) = bytes.split_at(8);
    let count = u32::from_le_bytes([head[4], head[5], head[6], head[7]]) as usize;
    if rest.len() < count {
        return None;
    }
    Some(rest.split_at(count))
}

/// Prints how long hashing the blocks of a file twice takes, and how long reading them does.
pub fn read(rt: &HostRuntime, name: &str) -> Result<()> {
    let bytes = fs::read(rt, name)?;
    let start = Instant::now(rt)?;
    let mut hashed = 0u8;
    let mut rest = bytes.as_slice();
    for _ in 0..bytes.len() {
        let Some((frame, behind)) = next_frame(rest) else {
            break;
        };
        hashed ^= hash_twice(frame).bytes[0];
        rest = behind;
    }
    let hashing = start.elapsed(rt)?.as_micros();
    let start = Instant::now(rt)?;
    let mut count = 0u64;
    let mut rest = bytes.as_slice();
    for _ in 0..bytes.len() {
        let Some((frame, behind)) = next_frame(rest) else {
            break;
        };
        if read_block(rt.alloc(), frame).is_err() {
            bail!("a frame holds no block");
        }
        count = count.saturating_add(1);
        rest = behind;
    }
    let reading = start.elapsed(rt)?.as_micros();
    println!(rt; "{count} {hashing} {reading} {hashed}")?;
    Ok(())
}
