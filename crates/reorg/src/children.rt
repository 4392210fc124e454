//! A child of the tip that is tried.

ghost use Rattle.std.specs.Prelude.{◌≡◌, ◌≤◌, ℕ, Some, IfOk, IfErr};
ghost use Rattle.std.specs.FinMap.{get};
ghost use Rattle.block_codec.specs.Text.{hash_of_header};
ghost use Rattle.block_store.specs.Reading.{NoDamage};
ghost use Rattle.chain_state.specs.Standing.{IsStanding};
ghost use Rattle.chain_state.specs.Waiting.{IsOpenBlock};
ghost use Rattle.disk_model.specs.Disk.{Quiet};
ghost use Rattle.machine.specs.State.{State};
ghost use Rattle.reorg.specs.Advancing.{AdvanceFails};
ghost use Rattle.reorg.specs.Trials.{HasTried};
ghost use Rattle.store_state.specs.Settled.{IsSettled};
ghost use Rattle.store_state.specs.State.{StoreState};

use crate::bodies::{broken_body, read_block};
use crate::trials::try_block;
use base_types::{CoinRefused, Hash32, StoreFault};
use block_checks::has_unpayable;
use block_codec::HashedBlock;
use chain_state::{ChainState, Shared};
use disk_model::Disk;
use std::alloc::Global;

/// Tries a stored child of the tip: it is the tip then, or the rule of coins that it breaks is answered. It waits no more. The
/// given block isn't read back.
pub(crate) fn try_child<D: Disk>(
    alloc: Global,
    disk: &mut D,
    shared: &Shared,
    chain: &mut ChainState,
    stored: &HashedBlock,
    hash: &Hash32,
) -> Result<Option<CoinRefused>, StoreFault>
    ensures ok { (limit : ℕ) (state : State) (store : StoreState)
        → IsStanding limit (D.contents disk.old) (D.left_since disk.old (D.time disk.old)) shared.now chain.old state store → IsSettled store
        → get state.bodies (hash_of_header stored.now.header) ≡ Some stored.now → IsOpenBlock state state.active.tip hash.now
        → IfOk result (HasTried limit (D.contents disk.new) (D.left_since disk.new (D.time disk.new)) shared.now chain.new state store hash.now) }
    ensures whole { (limit : ℕ) (state : State) (store : StoreState)
        → IsStanding limit (D.contents disk.old) (D.left_since disk.old (D.time disk.old)) shared.now chain.old state store → IsSettled store
        → get state.bodies (hash_of_header stored.now.header) ≡ Some stored.now → IsOpenBlock state state.active.tip hash.now → IfErr result NoDamage }
    ensures cause { IfErr result (AdvanceFails (D.faults disk.old) (D.faults disk.new)) }
    ensures faults { D.faults disk.old ≤ D.faults disk.new }
    ensures contents { D.contents disk.new ≡ D.contents disk.old }
    ensures quiet { Quiet D.time D.left_since disk.old disk.new }
    ensures file { chain.new.store ≡ chain.old.store }
{
    if *stored.hash() == *hash {
        return move_over(alloc, disk, shared, chain, stored, hash);
    }
    match read_block(alloc, disk, &shared.blocks, hash) {
        Ok(block) => move_over(alloc, disk, shared, chain, &block, hash),
        Err(fault) => Err(fault),
    }
}

// The same of the child's block.
fn move_over<D: Disk>(
    alloc: Global,
    disk: &mut D,
    shared: &Shared,
    chain: &mut ChainState,
    block: &HashedBlock,
    hash: &Hash32,
) -> Result<Option<CoinRefused>, StoreFault>
    ensures ok { (limit : ℕ) (state : State) (store : StoreState)
        → IsStanding limit (D.contents disk.old) (D.left_since disk.old (D.time disk.old)) shared.now chain.old state store → IsSettled store
        → IsOpenBlock state state.active.tip hash.now → get state.bodies hash.now ≡ Some block.now
        → IfOk result (HasTried limit (D.contents disk.new) (D.left_since disk.new (D.time disk.new)) shared.now chain.new state store hash.now) }
    ensures whole { (limit : ℕ) (state : State) (store : StoreState)
        → IsStanding limit (D.contents disk.old) (D.left_since disk.old (D.time disk.old)) shared.now chain.old state store → IsSettled store
        → IsOpenBlock state state.active.tip hash.now → get state.bodies hash.now ≡ Some block.now → IfErr result NoDamage }
    ensures cause { IfErr result (AdvanceFails (D.faults disk.old) (D.faults disk.new)) }
    ensures faults { D.faults disk.old ≤ D.faults disk.new }
    ensures contents { D.contents disk.new ≡ D.contents disk.old }
    ensures quiet { Quiet D.time D.left_since disk.old disk.new }
    ensures file { chain.new.store ≡ chain.old.store }
{
    // A body that breaks no rule passes. One that doesn't can't be applied to coins.
    match has_unpayable(alloc, block.block().txs.as_slice()) {
        Ok(false) => {}
        Ok(true) => return Err(broken_body(&shared.blocks, hash)),
        Err(_) => return Err(StoreFault::NoMemory),
    }
    let tried = try_block(
        alloc,
        disk,
        &shared.tree,
        &chain.store,
        &mut chain.layers,
        block,
    );
    let refused = match tried {
        Ok(refused) => refused,
        Err(fault) => return Err(fault),
    };
    chain.waiting.remove(&chain.tip, hash);
    if refused.is_none() {
        chain.tip = *hash;
    }
    Ok(refused)
}
