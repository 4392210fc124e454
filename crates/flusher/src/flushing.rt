//! A flush.

ghost use Rattle.std.specs.Prelude.{◌≡◌, ◌≤◌, ℕ, OnOk, OnErr, IfErr};
ghost use Rattle.chain_state.specs.Standing.{IsStanding};
ghost use Rattle.chain_state.specs.declared.state.Shared.{Shared};
ghost use Rattle.coin_store.specs.Staging.{SameStore};
ghost use Rattle.flusher.specs.Flushing.{FlushFails, HasFailedToFlush, HasFlushed};
ghost use Rattle.machine.specs.State.{State};
ghost use Rattle.machine.specs.Work.{AddsFlushes};
ghost use Rattle.store_state.specs.Settled.{IsSettled};
ghost use Rattle.store_state.specs.State.{StoreState};

use crate::writing::make_flush;
use base_types::{Flushes, StoreFault, Why};
use chain_state::ChainState;
use disk_model::Disk;
use std::alloc::Global;

/// Writes the entries of the tip cache that changed since the last flush, in the order of their keys, as one payload `At` the
/// tip, which is prepared whole before its first write. Where nothing changed and the last marker is `At` the tip, nothing is
/// written. The entries stay, without their flags. A crash leaves none of the rows or all; after an error the chainstate is
/// used no more.
pub fn flush<D: Disk>(
    alloc: Global,
    disk: &mut D,
    chain: &mut ChainState,
    why: Why,
    flushes: &mut Flushes,
) -> Result<(), StoreFault>
    ensures ok { (limit : ℕ) (shared : Shared) (state : State) (store : StoreState)
        → IsStanding limit (D.contents disk.old) (D.left_since disk.old (D.time disk.old)) shared chain.old state store → IsSettled store
        → OnOk result (HasFlushed limit (D.left_since disk.old) (D.left_since disk.new) (D.time disk.old) (D.time disk.new) (D.contents disk.old) (D.contents disk.new) shared chain.new state store why flushes.old flushes.new) }
    ensures err { (limit : ℕ) (shared : Shared) (state : State) (store : StoreState)
        → IsStanding limit (D.contents disk.old) (D.left_since disk.old (D.time disk.old)) shared chain.old state store → IsSettled store
        → OnErr result (HasFailedToFlush limit (D.left_since disk.old) (D.left_since disk.new) (D.time disk.old) (D.time disk.new) (D.contents disk.old) (D.contents disk.new) state store why flushes.old flushes.new) }
    ensures cause { IfErr result (FlushFails chain.old (D.faults disk.old) (D.faults disk.new)) }
    ensures timed { AddsFlushes (D.time disk.old) (D.time disk.new) flushes.old flushes.new }
    ensures faults { D.faults disk.old ≤ D.faults disk.new }
    ensures read { D.bytes_read disk.new ≡ D.bytes_read disk.old }
    ensures tip { chain.new.tip ≡ chain.old.tip }
    ensures same { SameStore chain.old.store chain.new.store }
{
    // It is empty, unless a block was left unfinished.
    chain.layers.drop_top();
    let cache = chain.layers.tip_cache();
    match make_flush(
        alloc,
        disk,
        &mut chain.store,
        cache,
        &chain.tip,
        why,
        flushes,
    ) {
        Ok(()) => {
            cache.keep_clean();
            Ok(())
        }
        Err(fault) => Err(fault),
    }
}
