//! Headers: the time of accepting a chain of them beside that of hashing them.

ghost use Rattle.std.specs.Prelude.{◌≡◌, vec_len, IfOk};

use anyhow::{Result, bail};
use base_types::{Hash32, Limits, Rules};
use block_codec::{Header, block_hash};
use header_tree::Tree;
use std::alloc::Global;
use std::time::{Duration, Instant};

/// The one target that headers may carry, in its short form.
const TARGET_BITS: u32 = 0x207f_ffff;

/// So many headers are hashed and accepted in turns, so that what else the machine does slows both.
const SLICE: usize = 1000;

/// The time of genesis; blocks are ten minutes apart.
const GENESIS_TIME: u32 = 1_296_688_602;

const LIMITS: Limits = Limits {
    file_bytes: 0,
    headers: u32::MAX,
};

const RULES: Rules = Rules {
    version4: 1,
    bip34: 1,
    csv: 1,
    segwit: 1,
};

// The header below a block with the least nonce that meets the target.
fn mined(prev: Hash32, time: u32) -> Header {
    let mut header = Header {
        version: 4,
        prev,
        root: prev,
        time,
        bits: TARGET_BITS,
        nonce: 0,
    };
    for nonce in 0..1000 {
        header.nonce = nonce;
        if block_hash(&header).bytes[31] < 0x7f {
            return header;
        }
    }
    header
}

// A chain of so many headers above genesis.
fn chain(alloc: Global, genesis: Hash32, count: u32) -> Result<Vec<Header>>
    ensures { IfOk result (λ headers. vec_len headers ≡ count) }
{
    let mut headers = Vec::new(alloc);
    let mut prev = genesis;
    let mut time = GENESIS_TIME;
    for _ in 0..count {
        time = time.wrapping_add(600);
        let header = mined(prev, time);
        prev = block_hash(&header);
        headers.push(header)?;
    }
    Ok(headers)
}

/// Prints how long hashing a chain of so many headers takes, and how long accepting it does.
pub fn accept(rt: &HostRuntime, count: u32) -> Result<()> {
    let mut tree = Tree::new(rt.alloc(), &LIMITS, &RULES)?;
    let Some(genesis) = tree.at(0) else {
        bail!("a tree without genesis");
    };
    let headers = chain(rt.alloc(), genesis, count)?;
    let mut hashing = Duration::ZERO;
    let mut accepting = Duration::ZERO;
    let mut hashed = 0u8;
    for slice in headers.chunks(SLICE) {
        let start = Instant::now(rt)?;
        for header in slice {
            hashed ^= block_hash(header).bytes[0];
        }
        let middle = Instant::now(rt)?;
        for header in slice {
            if tree.accept(header).is_err() {
                bail!("a header is refused");
            }
        }
        hashing = hashing.saturating_add(middle.duration_since(start));
        accepting = accepting.saturating_add(middle.elapsed(rt)?);
    }
    let (hashing, accepting) = (hashing.as_micros(), accepting.as_micros());
    println!(rt; "{count} {hashing} {accepting} {hashed}")?;
    Ok(())
}
