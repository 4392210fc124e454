//! Coins.

ghost use Rattle.std.specs.Prelude.{◌≡◌, ◌⊎◌, ◌≤◌, ℕ, List, [], ◌∷◌, ◌++◌, length, Some, OnOk, OnErr, IfErr};
ghost use Rattle.base_types.specs.Flushes.{begun_flush, done_at};
ghost use Rattle.base_types.specs.declared.flushes.Chain.TheVariants.{Full};
ghost use Rattle.base_types.specs.declared.flushes.Flushed.{Flushed};
ghost use Rattle.base_types.specs.declared.hash.OutPoint.{OutPoint};
ghost use Rattle.block_store.specs.OpenStore.{OpenStore};
ghost use Rattle.chain_model.specs.Choice.{coins_at};
ghost use Rattle.coin_store.specs.Batches.{Row};
ghost use Rattle.coin_store.specs.Places.{coins_after_rows};
ghost use Rattle.coin_store.specs.Staging.{IsStaged, IsReady, SameStore};
ghost use Rattle.coin_store.specs.declared.marker.Marker.TheVariants.{At};
ghost use Rattle.machine.specs.State.{Flush};
ghost use Rattle.machine.specs.Work.{AddsFlushes};
ghost use Rattle.store_state.specs.State.{StoreState, choice_of};
ghost use Rattle.store_writes.specs.OnDisk.{OnDisk};
ghost use Rattle.store_writes.specs.Written.{Writes, WritesPart, FlushCause, flushed_to};

use base_types::{Chain, Flushes, Hash32, StoreFault, Why};
use coin_store::{CoinStore, Marker};
use disk_model::Disk;

/// Writes the staged rows, which lead from the coins of the last flush to those at a tip, as one payload `At` that tip: one
/// flush, which begins before the first write and is done once the rows are durable. A crash leaves none of the rows or all.
/// The only errors are `NoMemory`, before the flush begins, and `DiskFailed`, with which the flush stays without an end.
pub fn store_coins<D: Disk>(
    disk: &mut D,
    coins: &mut CoinStore,
    flushes: &mut Flushes,
    tip: &Hash32,
    why: Why,
) -> Result<(), StoreFault>
    requires { IsReady coins.old (At tip.now) }
    ensures ok { (limit : ℕ) (blocks : OpenStore) (store : StoreState) (keys touched : List OutPoint) (payload payloads total : ℕ) (rows : List Row)
        → OnDisk limit (D.contents disk.old) (D.left_since disk.old (D.time disk.old)) blocks coins.old store → IsStaged coins.old keys payload payloads total rows
        → coins_at (choice_of store store.active) tip.now ≡ Some (coins_after_rows store.active.coins rows)
        → OnOk result ((flushes.new ≡ flushes.old ++ done_at (D.time disk.new) (begun_flush Full tip.now why (D.time disk.old)) ∷ [])
        × Writes limit (D.left_since disk.old) (D.left_since disk.new) (D.time disk.old) (D.time disk.new) (D.contents disk.old) (D.contents disk.new) (done_at (D.time disk.new) (begun_flush Full tip.now why (D.time disk.old)) ∷ []) (Flush Full tip.now why touched) store (flushed_to tip.now rows store)
        × OnDisk limit (D.contents disk.new) (D.left_since disk.new (D.time disk.new)) blocks coins.new (flushed_to tip.now rows store)) }
    ensures err { (limit : ℕ) (blocks : OpenStore) (store : StoreState) (keys touched : List OutPoint) (payload payloads total : ℕ) (rows : List Row)
        → OnDisk limit (D.contents disk.old) (D.left_since disk.old (D.time disk.old)) blocks coins.old store → IsStaged coins.old keys payload payloads total rows
        → coins_at (choice_of store store.active) tip.now ≡ Some (coins_after_rows store.active.coins rows)
        → OnErr result ((added : List Flushed) × (flushes.new ≡ flushes.old ++ added) × ((added ≡ []) ⊎ (added ≡ begun_flush Full tip.now why (D.time disk.old) ∷ []))
        × WritesPart limit (D.left_since disk.old) (D.left_since disk.new) (D.time disk.old) (D.time disk.new) (D.contents disk.old) (D.contents disk.new) added (Flush Full tip.now why touched) store) }
    ensures same { SameStore coins.old coins.new }
    ensures cause { IfErr result (FlushCause (D.faults disk.old) (D.faults disk.new)) }
    ensures timed { AddsFlushes (D.time disk.old) (D.time disk.new) flushes.old flushes.new }
    ensures faults { D.faults disk.old ≤ D.faults disk.new }
    ensures read { D.bytes_read disk.new ≡ D.bytes_read disk.old }
{
    is_hash(&tip.bytes);
    flushes.begin(Chain::Full, tip, why, disk.clock())?;
    coins.apply(disk, &Marker::At { tip: *tip })?;
    flushes.finish(disk.clock());
    Ok(())
}

// The language says so of a field behind a reference where it was passed by value.
fn is_hash(bytes: &[u8; 32])
    ensures { length bytes.now ≡ 32 }
{
    let _bytes = bytes;
}
