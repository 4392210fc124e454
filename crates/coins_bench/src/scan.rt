//! Scanning: the time of a scan over false heads of frames beside that of reading the same bytes.

use anyhow::{Result, bail};
use base_types::MESSAGE_START;
use frame_scan::Frames;
use io_traits::{Host, MemHost};
use std::time::Instant;

/// The file of the host that holds the heads.
const NAME: &str = "heads.dat";

/// How many bytes are read at once.
const PIECE: usize = 65_536;

// Reads the file to its end, and gives the number of its bytes.
fn read(rt: &HostRuntime, host: &mut MemHost) -> Result<u64> {
    let mut piece = vec![in rt.alloc(); 0u8; PIECE]?;
    let mut taken = 0u64;
    if host.open_in(NAME).is_err() {
        bail!("no file");
    }
    for _ in 0..u32::MAX {
        match host.read_in(&mut piece) {
            Ok(0) => break,
            Ok(count) => taken = taken.saturating_add(count as u64),
            Err(_) => bail!("a read failed"),
        }
    }
    Ok(taken)
}

// Scans the file, in which no frame stands.
fn scan(rt: &HostRuntime, host: &mut MemHost) -> Result<()> {
    if host.open_in(NAME).is_err() {
        bail!("no file");
    }
    let mut frames = Frames::new(rt.alloc(), None)?;
    match frames.next(host) {
        Ok(None) => Ok(()),
        Ok(Some(_)) => bail!("a frame among false heads"),
        Err(_) => bail!("a read failed"),
    }
}

// A file of so many heads, each of which claims so many bytes.
fn heads(rt: &HostRuntime, count: u32, claim: u32) -> Result<MemHost> {
    let mut bytes = Vec::new(rt.alloc());
    for _ in 0..count {
        bytes.extend_from_slice(&MESSAGE_START)?;
        bytes.extend_from_slice(&claim.to_le_bytes())?;
    }
    let mut host = MemHost::new(rt.alloc(), &[])?;
    host.put(NAME, &bytes)?;
    Ok(host)
}

/// Prints how long reading a file of so many heads takes, each of which claims so many bytes, and how long scanning it does.
pub fn measure(rt: &HostRuntime, count: u32, claim: u32) -> Result<()> {
    let mut host = heads(rt, count, claim)?;
    let start = Instant::now(rt)?;
    let taken = read(rt, &mut host)?;
    let reading = start.elapsed(rt)?.as_micros();
    let start = Instant::now(rt)?;
    scan(rt, &mut host)?;
    let scanning = start.elapsed(rt)?.as_micros();
    println!(rt; "{count} {reading} {scanning} {taken}")?;
    Ok(())
}
