//! The rows of a flush are staged: one for each changed entry of a cache.

ghost use Rattle.std.specs.Prelude.{◌≡◌, ◌+◌, ℕ, [], List, length, IfOk, IfErr, IfSome, OnOk};
ghost use Rattle.batch_log.specs.OpenLog.{RoomCause};
ghost use Rattle.coin_cache.specs.Entries.{IsSound};
ghost use Rattle.coin_store.specs.Staging.{IsReady, SameRows};
ghost use Rattle.coin_store.specs.declared.marker.Marker.TheVariants.{At};
ghost use Rattle.flusher.specs.Changes.{AreFlagged, HasStaged, IsStagedFor, keys_of, payload_length, rows_in};
ghost use Rattle.flusher.specs.Flushing.{PayloadFails};

use crate::changes::changes_in_order;
use base_types::{Hash32, OutPoint, StoreFault};
use coin_cache::Cache;
use coin_store::{CoinStore, row_len};
use slot_pool::Slot;
use std::alloc::{AllocError, Global};

/// The length of a marker `At` a tip.
const MARKER_LEN: u32 = 33;

// The length of the payload of these entries `At` a tip, unless no payload is as long.
fn length_of(cache: &Cache, slots: &[Slot]) -> Option<u32>
    requires sound { IsSound cache.now }
    requires flagged { AreFlagged cache.now slots.now }
    ensures { (mask : List ℕ) → IfSome result (λ len. len ≡ payload_length mask (rows_in cache.now.slots slots.now)) }
{
    let mut len = MARKER_LEN;
    for slot in slots {
        let change = cache.change(*slot);
        let row = row_len(&change.key, change.coin);
        if row > (u32::MAX - len) as usize {
            return None;
        }
        len += row as u32;
    }
    Some(len)
}

// The outpoints of these entries.
fn outpoints_of(alloc: Global, cache: &Cache, slots: &[Slot]) -> Result<Vec<OutPoint>, AllocError>
    requires sound { IsSound cache.now }
    requires flagged { AreFlagged cache.now slots.now }
    ensures { IfOk result (λ keys. keys.items ≡ keys_of (rows_in cache.now.slots slots.now)) }
{
    let mut keys = Vec::with_capacity(alloc, slots.len())?;
    for slot in slots {
        keys.push(cache.change(*slot).key)?;
    }
    Ok(keys)
}

// Makes room for one payload of the rows of these entries `At` a tip.
fn prepare_rows(
    alloc: Global,
    coins: &mut CoinStore,
    cache: &Cache,
    slots: &[Slot],
) -> Result<(), StoreFault>
    requires sound { IsSound cache.now }
    requires flagged { AreFlagged cache.now slots.now }
    ensures ready { OnOk result (IsStagedFor coins.old.mask coins.new (rows_in cache.now.slots slots.now) []) }
    ensures same { SameRows coins.old coins.new }
    ensures cause { IfErr result (RoomCause coins.old.log (5 + payload_length coins.old.mask (rows_in cache.now.slots slots.now))) }
{
    let Some(len) = length_of(cache, slots) else {
        return Err(StoreFault::NoMemory);
    };
    let keys = match outpoints_of(alloc, cache, slots) {
        Ok(keys) => keys,
        Err(AllocError) => return Err(StoreFault::NoMemory),
    };
    coins.prepare(&keys, len, 5 + len as u64)
}

// Stages the rows of these entries, for which there is room.
fn stage_rows(coins: &mut CoinStore, cache: &Cache, slots: &[Slot])
    requires sound { IsSound cache.now }
    requires flagged { AreFlagged cache.now slots.now }
    requires room { IsStagedFor coins.old.mask coins.old (rows_in cache.now.slots slots.now) [] }
    ensures staged { IsStagedFor coins.old.mask coins.new (rows_in cache.now.slots slots.now) (rows_in cache.now.slots slots.now) }
    ensures same { coins.new ≡ record coins.old { staged = coins.new.staged } }
{
    for slot in slots {
        let change = cache.change(*slot);
        coins.stage(&change.key, change.coin);
    }
}

// The language says so of a hash that is passed by value.
fn is_hash(hash: Hash32)
    ensures { length hash.bytes ≡ 32 }
{
    let _hash = hash;
}

/// Stages a row for each changed entry of a cache, in the order of their outpoints' key texts, with room for the one payload
/// of them `At` a tip. `Full` where that payload would let the file grow beyond its limit. A payload has less than 4 GiB: where
/// the rows have more, that is want of memory.
pub(crate) fn stage_changes(
    alloc: Global,
    coins: &mut CoinStore,
    cache: &Cache,
    tip: &Hash32,
) -> Result<(), StoreFault>
    ensures staged { OnOk result (HasStaged cache.now coins.old.mask coins.new) }
    ensures ready { OnOk result (IsReady coins.new (At tip.now)) }
    ensures same { SameRows coins.old coins.new }
    ensures cause { (before now : ℕ) → IfErr result (PayloadFails coins.old cache.now tip.now before now) }
{
    is_hash(*tip);
    let slots = match changes_in_order(alloc, cache) {
        Ok(slots) => slots,
        Err(AllocError) => return Err(StoreFault::NoMemory),
    };
    match prepare_rows(alloc, coins, cache, &slots) {
        Ok(()) => {}
        Err(fault) => return Err(fault),
    }
    stage_rows(coins, cache, &slots);
    Ok(())
}
