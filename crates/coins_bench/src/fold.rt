//! Folding: the time of a `fold` of generated blocks beside that of their double hashes alone.

ghost use Rattle.std.specs.Prelude.{◌≡◌, vec_len, IfOk};

use anyhow::{Result, bail};
use base_types::{Limits, Salt, Words};
use block_codec::{Block, block_hash, txid};
use chain_gen::generate;
use coins_top::run;
use disk_model::MemDisk;
use frame_scan::Frames;
use io_traits::{Host, MemHost, MemSink, MemSource};
use merkle::root_in_place;
use std::alloc::Global;
use std::time::Instant;

/// The file of the host that holds the blocks.
const NAME: &str = "blocks.dat";

const SALT: Salt = Salt { a: 0, b: 0 };

const LIMITS: Limits = Limits {
    file_bytes: 68_719_476_736,
    headers: 4_194_304,
};

// The blocks of the file, so many, read once so that hashing them can be measured alone.
fn blocks(alloc: Global, host: &mut MemHost, count: u32) -> Result<Vec<Block>>
    ensures { IfOk result (λ blocks. vec_len blocks ≡ count) }
{
    if host.open_in(NAME).is_err() {
        bail!("no file");
    }
    let mut frames = Frames::new(alloc, None)?;
    let mut blocks = Vec::new(alloc);
    for _ in 0..count {
        match frames.next(host) {
            Ok(Some(block)) => blocks.push(block)?,
            Ok(None) => bail!("a frame is missing"),
            Err(_) => bail!("the file isn't read to its end"),
        }
    }
    Ok(blocks)
}

// A byte of the merkle root, for which each transaction is hashed once, and one of the block's hash.
fn hashed(alloc: Global, block: &Block) -> Result<u8> {
    let mut hashes = Vec::new(alloc);
    for tx in block.txs.as_slice() {
        hashes.push(txid(tx))?;
    }
    Ok(root_in_place(hashes).hash.bytes[0] ^ block_hash(&block.header).bytes[0])
}

// Folds the file as the program does.
fn fold(
    alloc: Global,
    words: &Words,
    host: &mut MemHost,
    input: &mut MemSource,
    out: &mut MemSink,
) {
    let mut disk = MemDisk::new(alloc);
    run(alloc, words, &mut disk, host, input, out, &SALT, &LIMITS);
}

// The file with a chain of so many blocks.
fn generated(alloc: Global, count: u32) -> Result<MemHost> {
    if count == 0 || count > 100_000 {
        bail!("from 1 to 100000 blocks");
    }
    let mut host = MemHost::new(alloc, &[])?;
    if generate(alloc, &mut host, NAME, 7, count).is_err() {
        bail!("no chain was generated");
    }
    Ok(host)
}

// How many microseconds the double hashes of these blocks take, and a byte of them.
fn hashing(rt: &HostRuntime, blocks: &[Block]) -> Result<(u128, u8)> {
    let start = Instant::now(rt)?;
    let mut sum = 0u8;
    for block in blocks {
        sum ^= hashed(rt.alloc(), block)?;
    }
    Ok((start.elapsed(rt)?.as_micros(), sum))
}

// How many microseconds a fold of the file takes.
fn folding(rt: &HostRuntime, host: &mut MemHost) -> Result<u128> {
    let words = Words::new(rt.alloc());
    let mut input = MemSource::new(rt.alloc(), b"fold blocks.dat\n", &[])?;
    let mut out = MemSink::new(rt.alloc(), &[])?;
    let start = Instant::now(rt)?;
    fold(rt.alloc(), &words, host, &mut input, &mut out);
    let folding = start.elapsed(rt)?.as_micros();
    if !out.as_slice().starts_with(b"folded ") {
        bail!("the chain isn't folded");
    }
    Ok(folding)
}

/// Prints how many blocks and bytes a generated chain of so many blocks has, how long its double hashes take, and how long
/// folding it does.
pub fn measure(rt: &HostRuntime, count: u32) -> Result<()> {
    let mut host = generated(rt.alloc(), count)?;
    let bytes = host.get(NAME).map_or(0, <[u8]>::len);
    let blocks = blocks(rt.alloc(), &mut host, count)?;
    let (hashing, sum) = hashing(rt, &blocks)?;
    let folding = folding(rt, &mut host)?;
    println!(rt; "{count} {hashing} {folding} {bytes} {sum}")?;
    Ok(())
}
