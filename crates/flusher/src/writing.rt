//! One flush of a cache: its rows are written, or there is nothing to write.

ghost use Rattle.std.specs.Prelude.{◌≡◌, ◌≤◌, ◌++◌, ◌∷◌, [], ℕ, List, true, OnOk, OnErr, IfErr};
ghost use Rattle.base_types.specs.Coins.{Coins};
ghost use Rattle.base_types.specs.declared.fault.StoreFault.TheVariants.{NoMemory};
ghost use Rattle.base_types.specs.declared.hash.OutPoint.{OutPoint};
ghost use Rattle.block_store.specs.OpenStore.{OpenStore};
ghost use Rattle.coin_store.specs.Batches.{Batch, Row};
ghost use Rattle.coin_store.specs.Staging.{SameStore};
ghost use Rattle.coin_store.specs.Store.{Knows, marker_after};
ghost use Rattle.coin_store.specs.declared.marker.Marker.TheVariants.{At};
ghost use Rattle.flusher.specs.Flushing.{PayloadFails};
ghost use Rattle.flusher.specs.Writing.{IsCut, IsMade, LeadsTo, ends_at};
ghost use Rattle.machine.specs.Work.{AddsFlushes};
ghost use Rattle.store_state.specs.State.{StoreState};
ghost use Rattle.store_writes.specs.OnDisk.{OnDisk};

use crate::staging::stage_changes;
use base_types::{Chain, Flushes, Hash32, StoreFault, Why};
use coin_cache::Cache;
use coin_store::{CoinStore, Marker};
use disk_model::Disk;
use std::alloc::{AllocError, Global};
use store_writes::store_coins;

// Writes the changes of a cache as one payload `At` a tip.
fn write_changes<D: Disk>(
    alloc: Global,
    disk: &mut D,
    coins: &mut CoinStore,
    cache: &Cache,
    tip: &Hash32,
    why: Why,
    flushes: &mut Flushes,
) -> Result<(), StoreFault>
    ensures ok { (limit : ℕ) (blocks : OpenStore) (store : StoreState) (meant : Coins) (touched : List OutPoint)
        → OnDisk limit (D.contents disk.old) (D.left_since disk.old (D.time disk.old)) blocks coins.old store → LeadsTo cache.now coins.old store tip.now meant
        → OnOk result (IsMade limit (D.left_since disk.old) (D.left_since disk.new) (D.time disk.old) (D.time disk.new) (D.contents disk.old) (D.contents disk.new) blocks coins.new store tip.now meant why touched flushes.old flushes.new) }
    ensures err { (limit : ℕ) (blocks : OpenStore) (store : StoreState) (meant : Coins) (touched : List OutPoint)
        → OnDisk limit (D.contents disk.old) (D.left_since disk.old (D.time disk.old)) blocks coins.old store → LeadsTo cache.now coins.old store tip.now meant
        → OnErr result (IsCut limit (D.left_since disk.old) (D.left_since disk.new) (D.time disk.old) (D.time disk.new) (D.contents disk.old) (D.contents disk.new) store tip.now why touched flushes.old flushes.new) }
    ensures cause { IfErr result (PayloadFails coins.old cache.now tip.now (D.faults disk.old) (D.faults disk.new)) }
    ensures timed { AddsFlushes (D.time disk.old) (D.time disk.new) flushes.old flushes.new }
    ensures faults { D.faults disk.old ≤ D.faults disk.new }
    ensures read { D.bytes_read disk.new ≡ D.bytes_read disk.old }
    ensures same { SameStore coins.old coins.new }
{
    match stage_changes(alloc, coins, cache, tip) {
        Ok(()) => store_coins(disk, coins, flushes, tip, why),
        Err(fault) => Err(fault),
    }
}

// Whether the last marker is `At` a tip.
fn is_at(coins: &CoinStore, tip: &Hash32) -> bool
    ensures { (base : List (List Row)) (batches : List Batch) → Knows coins.now base batches → result ≡ true → marker_after coins.now.start batches ≡ At tip.now }
{
    match coins.marker() {
        Marker::At { tip: last } => last == *tip,
        Marker::Between { .. } => false,
    }
}

// A flush that has nothing to write is done as it begins.
fn note_flush<D: Disk>(
    disk: &D,
    tip: &Hash32,
    why: Why,
    flushes: &mut Flushes,
) -> Result<(), StoreFault>
    ensures ok { OnOk result (flushes.new ≡ flushes.old ++ ends_at tip.now why (D.time disk.now) (D.time disk.now) ∷ []) }
    ensures err { OnErr result (flushes.new ≡ flushes.old) }
    ensures cause { IfErr result (λ fault. fault ≡ NoMemory) }
{
    match flushes.begin(Chain::Full, tip, why, disk.clock()) {
        Ok(()) => {
            flushes.finish(disk.clock());
            Ok(())
        }
        Err(AllocError) => Err(StoreFault::NoMemory),
    }
}

/// Makes one flush of a cache at a tip. Where nothing changed and the last marker is `At` the tip, nothing is written; else
/// the changes are, as one payload `At` the tip. The cache keeps its flags.
pub(crate) fn make_flush<D: Disk>(
    alloc: Global,
    disk: &mut D,
    coins: &mut CoinStore,
    cache: &Cache,
    tip: &Hash32,
    why: Why,
    flushes: &mut Flushes,
) -> Result<(), StoreFault>
    ensures ok { (limit : ℕ) (blocks : OpenStore) (store : StoreState) (meant : Coins) (touched : List OutPoint)
        → OnDisk limit (D.contents disk.old) (D.left_since disk.old (D.time disk.old)) blocks coins.old store → LeadsTo cache.now coins.old store tip.now meant
        → OnOk result (IsMade limit (D.left_since disk.old) (D.left_since disk.new) (D.time disk.old) (D.time disk.new) (D.contents disk.old) (D.contents disk.new) blocks coins.new store tip.now meant why touched flushes.old flushes.new) }
    ensures err { (limit : ℕ) (blocks : OpenStore) (store : StoreState) (meant : Coins) (touched : List OutPoint)
        → OnDisk limit (D.contents disk.old) (D.left_since disk.old (D.time disk.old)) blocks coins.old store → LeadsTo cache.now coins.old store tip.now meant
        → OnErr result (IsCut limit (D.left_since disk.old) (D.left_since disk.new) (D.time disk.old) (D.time disk.new) (D.contents disk.old) (D.contents disk.new) store tip.now why touched flushes.old flushes.new) }
    ensures cause { IfErr result (PayloadFails coins.old cache.now tip.now (D.faults disk.old) (D.faults disk.new)) }
    ensures timed { AddsFlushes (D.time disk.old) (D.time disk.new) flushes.old flushes.new }
    ensures faults { D.faults disk.old ≤ D.faults disk.new }
    ensures read { D.bytes_read disk.new ≡ D.bytes_read disk.old }
    ensures same { SameStore coins.old coins.new }
{
    let unchanged = cache.first_change().is_none();
    if unchanged && is_at(coins, tip) {
        note_flush(disk, tip, why, flushes)
    } else {
        write_changes(alloc, disk, coins, cache, tip, why, flushes)
    }
}
