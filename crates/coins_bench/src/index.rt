//! The index of a pool: the times of its calls beside those of the kit's hash map, and the memory that it takes.

use crate::shelf::Shelf;
use crate::words::Words;
use anyhow::{Result, bail};
use base_types::{Hash32, OutPoint, Salt, hash_twice};
use std::alloc::{AllocError, Global};
use std::collections::HashMap;
use std::fs;
use std::hash::{BuildHasherDefault, FoldHasher};
use std::time::{Duration, Instant};

const SALT: Salt = Salt {
    a: 0x0123_4567_89ab_cdef,
    b: 0xfedc_ba98_7654_3210,
};

/// Keys are looked up and taken out so many places apart, so that neighbours in time aren't neighbours in memory.
const STEP: usize = 618_033;

/// So many keys go to the index and to the map in turns, so that what else the machine does slows both.
const SLICE: usize = 10_000;

// How long the index and the map took for the same calls, and the sum of what they answered.
#[derive(Clone, Copy)]
struct Turns {
    index: Duration,
    map: Duration,
    index_sum: u64,
    map_sum: u64,
}

const NO_TURNS: Turns = Turns {
    index: Duration::ZERO,
    map: Duration::ZERO,
    index_sum: 0,
    map_sum: 0,
};

type Map = HashMap<Words, u64, BuildHasherDefault<FoldHasher>, Global>;

fn key_of(number: u32) -> OutPoint {
    OutPoint {
        txid: hash_twice(&number.to_le_bytes()),
        index: number % 4,
    }
}

fn keys_of(alloc: Global, count: u32) -> Result<Vec<OutPoint>, AllocError> {
    let mut keys = Vec::with_capacity(alloc, count as usize)?;
    for number in 0..count {
        keys.push(key_of(number))?;
    }
    Ok(keys)
}

// The keys in another order.
fn mixed(alloc: Global, keys: &[OutPoint]) -> Result<Vec<OutPoint>, AllocError> {
    let mut mixed = Vec::with_capacity(alloc, keys.len())?;
    let mut place = 0usize;
    for _ in 0..keys.len() {
        place = place.wrapping_add(STEP) % keys.len().max(1);
        if let Some(key) = keys.get(place) {
            mixed.push(*key)?;
        }
    }
    Ok(mixed)
}

fn store(rt: &HostRuntime, shelf: &mut Shelf, map: &mut Map, keys: &[OutPoint]) -> Result<Turns> {
    let mut turns = NO_TURNS;
    for slice in keys.chunks(SLICE) {
        let start = Instant::now(rt)?;
        for key in slice {
            shelf.store(*key, key.index as u64)?;
        }
        let middle = Instant::now(rt)?;
        for key in slice {
            map.insert(Words::of(key, &SALT), key.index as u64)?;
        }
        turns.map = turns.map.saturating_add(middle.elapsed(rt)?);
        turns.index = turns.index.saturating_add(middle.duration_since(start));
    }
    Ok(turns)
}

fn find(rt: &HostRuntime, shelf: &Shelf, map: &Map, keys: &[OutPoint]) -> Result<Turns> {
    let mut turns = NO_TURNS;
    for slice in keys.chunks(SLICE) {
        let start = Instant::now(rt)?;
        for key in slice {
            turns.index_sum = turns.index_sum.wrapping_add(shelf.find(key).unwrap_or(9));
        }
        let middle = Instant::now(rt)?;
        for key in slice {
            let value = map.get(&Words::of(key, &SALT)).copied();
            turns.map_sum = turns.map_sum.wrapping_add(value.unwrap_or(9));
        }
        turns.map = turns.map.saturating_add(middle.elapsed(rt)?);
        turns.index = turns.index.saturating_add(middle.duration_since(start));
    }
    Ok(turns)
}

fn take(rt: &HostRuntime, shelf: &mut Shelf, map: &mut Map, keys: &[OutPoint]) -> Result<Turns> {
    let mut turns = NO_TURNS;
    for slice in keys.chunks(SLICE) {
        let start = Instant::now(rt)?;
        for key in slice {
            turns.index_sum = turns.index_sum.wrapping_add(shelf.take(key).unwrap_or(9));
        }
        let middle = Instant::now(rt)?;
        for key in slice {
            let value = map.remove(&Words::of(key, &SALT));
            turns.map_sum = turns.map_sum.wrapping_add(value.unwrap_or(9));
        }
        turns.map = turns.map.saturating_add(middle.elapsed(rt)?);
        turns.index = turns.index.saturating_add(middle.duration_since(start));
    }
    Ok(turns)
}

/// Prints how long storing, finding and taking so many keys takes, each with the index of a pool and with a hash map.
pub fn measure(rt: &HostRuntime, count: u32) -> Result<()> {
    let keys = keys_of(rt.alloc(), count)?;
    let mixed = mixed(rt.alloc(), &keys)?;
    let mut shelf = Shelf::new(rt.alloc(), &SALT);
    let mut map = HashMap::new(rt.alloc());
    let stored = store(rt, &mut shelf, &mut map, &keys)?;
    let found = find(rt, &shelf, &map, &mixed)?;
    let taken = take(rt, &mut shelf, &mut map, &mixed)?;
    for turns in [stored, found, taken] {
        if turns.index_sum != turns.map_sum {
            bail!("the index and the map found other values");
        }
        let (index, map) = (turns.index.as_micros(), turns.map.as_micros());
        println!(rt; "{count} {index} {map}")?;
    }
    Ok(())
}

// The greatest memory that this process took so far, in kibibytes.
fn peak(rt: &HostRuntime) -> Result<u64> {
    let status = fs::read_to_string(rt, "/proc/self/status")?;
    for line in status.lines() {
        if let Some(rest) = line.strip_prefix("VmHWM:") {
            return Ok(rest.trim_end_matches("kB").trim().parse::<u64>()?);
        }
    }
    bail!("the system doesn't say how much memory a process takes");
}

/// Stores so many keys. Prints how many bytes an entry takes, how many of them are its link, and the greatest memory that
/// this process took, in kibibytes.
pub fn fill(rt: &HostRuntime, count: u32) -> Result<()> {
    let mut shelf = Shelf::new(rt.alloc(), &SALT);
    for number in 0..count {
        shelf.store(key_of(number), number as u64)?;
    }
    let (entry, link) = shelf.sizes();
    let peak = peak(rt)?;
    println!(rt; "{count} {entry} {link} {peak}")?;
    Ok(())
}
