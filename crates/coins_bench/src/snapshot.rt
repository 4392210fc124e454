//! Snapshot files: the time of reading one beside that of hashing its bytes.

ghost use Rattle.std.specs.Prelude.{◌+◌, ◌≤◌, length, IfOk};
ghost use Rattle.base_types.specs.Coins.{CoinFits};

use anyhow::{Result, bail};
use base_types::{Coin, Hash32, Script, hash_twice};
use sha2::{Digest, Sha256};
use snapshot_file::{Reader, write_group, write_head, write_member};
use std::alloc::{AllocError, Global};
use std::time::{Duration, Instant};

/// A file is hashed and read in pieces of so many bytes, in turns, so that what else the machine does slows both.
const PIECE: usize = 65_536;

/// The bytes of the metadata, behind which a reader is told the height of the base.
const HEAD: usize = 51;

/// The height of the base, above which no coin is.
const HEIGHT: u32 = 1_000_000;

/// A transaction has so many coins.
const COINS_EACH: u32 = 2;

// A script of three parts.
fn joined(alloc: Global, front: &[u8], hash: &[u8], back: &[u8]) -> Result<Script, AllocError>
    requires { length front.now + length hash.now + length back.now ≤ 34 }
    ensures { IfOk result (λ script. length script ≤ 34) }
{
    let mut bytes = [0; 34];
    let hash_end = front.len() + hash.len();
    let end = hash_end + back.len();
    bytes[..front.len()].copy_from_slice(front);
    bytes[front.len()..hash_end].copy_from_slice(hash);
    bytes[hash_end..end].copy_from_slice(back);
    Script::from_slice(alloc, &bytes[..end])
}

// A script that pays to a hash, of one of three kinds that are usual.
fn script(alloc: Global, number: u32) -> Result<Script, AllocError>
    ensures { IfOk result (λ script. length script ≤ 34) }
{
    let hash = hash_twice(&number.to_le_bytes()).bytes;
    match number % 3 {
        0 => joined(alloc, &[0x76, 0xa9, 20], &hash[..20], &[0x88, 0xac]),
        1 => joined(alloc, &[0, 20], &hash[..20], &[]),
        _ => joined(alloc, &[0x51, 32], &hash, &[]),
    }
}

fn coin(alloc: Global, number: u32) -> Result<Coin, AllocError>
    ensures { IfOk result (λ coin. CoinFits coin) }
{
    Ok(Coin {
        value: u64::from(number) * 7919 + 546,
        script: script(alloc, number)?,
        height: number % HEIGHT,
        coinbase: number % 100 == 0,
    })
}

// A snapshot file of so many coins, of two for each transaction.
fn file(alloc: Global, count: u32) -> Result<Vec<u8>, AllocError> {
    let groups = count / COINS_EACH;
    let mut file = Vec::new(alloc);
    let base = Hash32 { bytes: [0x37; 32] };
    write_head(&mut file, &base, u64::from(groups) * u64::from(COINS_EACH))?;
    for group in 0..groups {
        let txid = hash_twice(&group.to_le_bytes());
        write_group(&mut file, &txid, u64::from(COINS_EACH))?;
        for index in 0..COINS_EACH {
            write_member(&mut file, index, &coin(alloc, group * COINS_EACH + index)?)?;
        }
    }
    Ok(file)
}

// How many coins became whole with a piece.
fn feed(reader: &mut Reader, piece: &[u8]) -> Result<usize> {
    if reader.fed() > 1 << 62 || piece.len() > PIECE {
        bail!("a file that is too long");
    }
    match reader.feed(piece) {
        Ok(pieces) => Ok(pieces.coins.as_slice().len()),
        Err(_) => bail!("a snapshot that isn't read"),
    }
}

// A reader that was fed the metadata.
fn reader(alloc: Global, head: &[u8]) -> Result<Reader> {
    let mut reader = Reader::new(alloc)?;
    feed(&mut reader, head)?;
    if reader.fed() != HEAD as u64 {
        bail!("metadata of another length");
    }
    reader.base_height(HEIGHT);
    Ok(reader)
}

/// Prints how long hashing a snapshot file of so many coins takes, and how long reading it does.
pub fn read(rt: &HostRuntime, count: u32) -> Result<()> {
    let file = file(rt.alloc(), count)?;
    let (head, rest) = file.split_at(HEAD.min(file.len()));
    let mut hasher = Sha256::new();
    hasher.update(head);
    let mut reader = reader(rt.alloc(), head)?;
    let mut hashing = Duration::ZERO;
    let mut reading = Duration::ZERO;
    let mut coins = 0usize;
    for piece in rest.chunks(PIECE) {
        let start = Instant::now(rt)?;
        hasher.update(piece);
        let middle = Instant::now(rt)?;
        coins = coins.saturating_add(feed(&mut reader, piece)?);
        reading = reading.saturating_add(middle.elapsed(rt)?);
        hashing = hashing.saturating_add(middle.duration_since(start));
    }
    if reader.finish().is_err() {
        bail!("a snapshot that doesn't end");
    }
    let hashed = hasher.finalize()[0];
    let (bytes, hashing, reading) = (file.len(), hashing.as_micros(), reading.as_micros());
    println!(rt; "{coins} {bytes} {hashing} {reading} {hashed}")?;
    Ok(())
}
