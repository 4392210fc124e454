//! Files of a store without the store: the writes and syncs that appends make, and the reads of an opening.

use anyhow::Result;
use base_types::hash_twice;
use std::alloc::Global;
use std::fs::{File, OpenOptions};
use std::io::Read;
use std::os::unix::fs::FileExt;
use std::time::Instant;

/// How many bytes are read at once.
const WINDOW: usize = 65_536;

/// The bytes of a header.
const HEADER: usize = 80;

// A payload behind an open gate, made durable, and then its gate, made durable.
fn append(file: &File, at: u64, payload: &[u8]) -> Result<()> {
    file.write_all_at(payload, at.saturating_add(1))?;
    file.sync_data()?;
    file.write_all_at(&[1], at)?;
    file.sync_data()?;
    Ok(())
}

fn payload_of(alloc: Global, length: u32) -> Result<Vec<u8>> {
    Ok(vec![in alloc; 7; length as usize]?)
}

/// Appends so many payloads of so many bytes to a file as a log does, and prints how long that takes.
pub fn append_all(rt: &HostRuntime, name: &str, count: u32, length: u32) -> Result<()> {
    let payload = payload_of(rt.alloc(), length)?;
    let file = OpenOptions::new()
        .read(true)
        .write(true)
        .create(true)
        .open(rt, name)?;
    let start = Instant::now(rt)?;
    for number in 0..count {
        let at = u64::from(number).wrapping_mul(u64::from(length).wrapping_add(1));
        append(&file, at, &payload)?;
    }
    let appending = start.elapsed(rt)?.as_micros();
    println!(rt; "{count} {appending}")?;
    Ok(())
}

// A byte of the hashes of as many headers as the bytes hold.
fn hashed(bytes: &[u8]) -> u8 {
    bytes
        .chunks_exact(HEADER)
        .fold(0, |sum, header| sum ^ hash_twice(header).bytes[0])
}

// Reads a file to its end, and hashes what was read where that is asked for.
fn read_through(rt: &HostRuntime, name: &str, room: &mut [u8], hashes: bool) -> Result<u8> {
    let mut file = File::open(rt, name)?;
    let mut sum = 0;
    for _ in 0..u64::MAX {
        let count = file.read(room)?;
        if count == 0 {
            break;
        }
        if hashes {
            sum ^= hashed(&room[..count]);
        }
    }
    Ok(sum)
}

/// Reads the files of headers, bodies and coins of a folder, hashes the first as headers, and prints how long that takes.
pub fn read_all(rt: &HostRuntime, headers: &str, bodies: &str, coins: &str) -> Result<()> {
    let mut room = vec![in rt.alloc(); 0; WINDOW]?;
    let start = Instant::now(rt)?;
    let mut sum = read_through(rt, headers, &mut room, true)?;
    sum ^= read_through(rt, bodies, &mut room, false)?;
    sum ^= read_through(rt, coins, &mut room, false)?;
    let reading = start.elapsed(rt)?.as_micros();
    println!(rt; "{reading} {sum}")?;
    Ok(())
}
