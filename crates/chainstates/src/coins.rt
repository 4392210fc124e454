//! The coins at the tip: a coin that is asked for, and the flush of what changed.

ghost use Rattle.std.specs.Prelude.{◌≡◌, ◌≤◌, ◌∷◌, [], ℕ, IfOk, IfErr, OnOk, OnErr};
ghost use Rattle.base_types.specs.Views.{AnswersCoin};
ghost use Rattle.base_types.specs.declared.fault.StoreFault.TheVariants.{DiskFailed};
ghost use Rattle.chainstates.specs.Offers.{Stands};
ghost use Rattle.chainstates.specs.Standing.{CoinFails, HasAnswered, KeepsFiles, KeepsSettings};
ghost use Rattle.coin_cache.specs.Entries.{StandsOver, means};
ghost use Rattle.coin_store.specs.Behind.{HasPlaceIn};
ghost use Rattle.coin_store.specs.Viewing.{coins_seen};
ghost use Rattle.disk_model.specs.Disk.{Quiet, Rose};
ghost use Rattle.disk_model.specs.Reads.{OnlyRead};
ghost use Rattle.flusher.specs.Flushing.{FlushFails, HasFailedToFlush, HasFlushed};
ghost use Rattle.machine.specs.State.{State};
ghost use Rattle.machine.specs.Work.{AddsFlushes};
ghost use Rattle.store_state.specs.Settled.{IsSettled};
ghost use Rattle.store_state.specs.State.{StoreState};

use crate::checks::COIN_FILE;
use crate::session::Session;
use base_types::{Coin, Flushes, OutPoint, StoreFault, Why};
use coin_cache::Cache;
use coin_store::CoinStore;
use disk_model::Disk;
use flusher::flush;
use std::alloc::Global;

// The coin of an outpoint, by its entry in the tip cache or by its row.
fn find_coin<D: Disk>(
    alloc: Global,
    disk: &mut D,
    store: &CoinStore,
    cache: &mut Cache,
    key: &OutPoint,
) -> Result<Option<Coin>, StoreFault>
    ensures coin { AnswersCoin (means cache.old (coins_seen store.now.mask store.now.index (D.contents disk.old))) key.now result }
    ensures coins { means cache.new (coins_seen store.now.mask store.now.index (D.contents disk.old)) ≡ means cache.old (coins_seen store.now.mask store.now.index (D.contents disk.old)) }
    ensures stands { StandsOver cache.old (coins_seen store.now.mask store.now.index (D.contents disk.old)) → StandsOver cache.new (coins_seen store.now.mask store.now.index (D.contents disk.old)) }
    ensures read { OnlyRead D.contents D.time D.left_since D.bytes_read (HasPlaceIn store.now.index (key.now ∷ [])) disk.old disk.new }
    ensures failed { IfErr result (λ fault. fault ≡ DiskFailed → Rose (D.faults disk.old) (D.faults disk.new)) }
    ensures faults { D.faults disk.old ≤ D.faults disk.new }
{
    let mut broken = Vec::new(alloc);
    let mut rows = store.view(disk, &mut broken);
    cache.get(&mut rows, key)
}

// What is answered where a coin isn't found. All rows stand in the file of coins; where the cache is full, there is no room.
fn as_coin_fault(fault: StoreFault) -> StoreFault
    ensures { (before now : ℕ) → (fault ≡ DiskFailed → Rose before now) → CoinFails before now result }
{
    match fault {
        StoreFault::DiskFailed => StoreFault::DiskFailed,
        StoreFault::Damaged { at, .. } => StoreFault::Damaged {
            file: COIN_FILE,
            at,
        },
        _ => StoreFault::NoMemory,
    }
}

impl Session {
    /// The coin of an outpoint at the tip. Nothing is written.
    pub fn get_coin<D: Disk>(
        &mut self,
        alloc: Global,
        disk: &mut D,
        key: &OutPoint,
    ) -> Result<Option<Coin>, StoreFault>
        ensures ok { (limit : ℕ) (state : State) (store : StoreState)
            → Stands limit (D.contents disk.old) (D.left_since disk.old (D.time disk.old)) self.old state store → IsSettled store
            → IfOk result (HasAnswered limit (D.contents disk.new) (D.left_since disk.new (D.time disk.new)) self.new state store key.now) }
        ensures cause { IfErr result (CoinFails (D.faults disk.old) (D.faults disk.new)) }
        ensures faults { D.faults disk.old ≤ D.faults disk.new }
        ensures contents { D.contents disk.new ≡ D.contents disk.old }
        ensures quiet { Quiet D.time D.left_since disk.old disk.new }
        ensures set { KeepsSettings self.old self.new }
        ensures files { KeepsFiles self.old self.new }
    {
        let active = &mut self.active;
        // It is empty, unless a block was left unfinished.
        active.layers.drop_top();
        match find_coin(alloc, disk, &active.store, active.layers.tip_cache(), key) {
            Ok(coin) => Ok(coin),
            Err(fault) => Err(as_coin_fault(fault)),
        }
    }

    /// Flushes the chainstate: the coins that changed since the last flush are written as one payload `At` the tip. Where
    /// nothing changed and the last marker is `At` the tip, nothing is written. A crash leaves none of it or all. After an
    /// error the session is used no more.
    pub fn flush<D: Disk>(
        &mut self,
        alloc: Global,
        disk: &mut D,
        why: Why,
        flushes: &mut Flushes,
    ) -> Result<(), StoreFault>
        ensures ok { (limit : ℕ) (state : State) (store : StoreState)
            → Stands limit (D.contents disk.old) (D.left_since disk.old (D.time disk.old)) self.old state store → IsSettled store
            → OnOk result (HasFlushed limit (D.left_since disk.old) (D.left_since disk.new) (D.time disk.old) (D.time disk.new) (D.contents disk.old) (D.contents disk.new) self.new.shared self.new.active state store why flushes.old flushes.new) }
        ensures err { (limit : ℕ) (state : State) (store : StoreState)
            → Stands limit (D.contents disk.old) (D.left_since disk.old (D.time disk.old)) self.old state store → IsSettled store
            → OnErr result (HasFailedToFlush limit (D.left_since disk.old) (D.left_since disk.new) (D.time disk.old) (D.time disk.new) (D.contents disk.old) (D.contents disk.new) state store why flushes.old flushes.new) }
        ensures cause { IfErr result (FlushFails self.old.active (D.faults disk.old) (D.faults disk.new)) }
        ensures timed { AddsFlushes (D.time disk.old) (D.time disk.new) flushes.old flushes.new }
        ensures faults { D.faults disk.old ≤ D.faults disk.new }
        ensures set { KeepsSettings self.old self.new }
        ensures files { KeepsFiles self.old self.new }
    {
        flush(alloc, disk, &mut self.active, why, flushes)
    }
}
