//! Moving forward.

ghost use Rattle.std.specs.Prelude.{◌≡◌, ◌≤◌, ℕ, Some, IfOk, IfErr};
ghost use Rattle.std.specs.FinMap.{get};
ghost use Rattle.block_store.specs.Reading.{NoDamage};
ghost use Rattle.block_codec.specs.Text.{hash_of_header};
ghost use Rattle.chain_state.specs.Standing.{IsStanding};
ghost use Rattle.disk_model.specs.Disk.{Quiet};
ghost use Rattle.machine.specs.State.{State};
ghost use Rattle.reorg.specs.Advancing.{AdvanceFails, HasAdvanced};
ghost use Rattle.store_state.specs.Settled.{IsSettled};
ghost use Rattle.store_state.specs.State.{StoreState};

use crate::children::try_child;
use crate::refusals::Refusals;
use base_types::StoreFault;
use block_codec::HashedBlock;
use chain_state::{ChainState, Shared};
use disk_model::Disk;
use std::alloc::Global;

/// Connects the stored blocks that wait above the tip, one after the other, until none is left: of the children of a tip the
/// one with the smallest hash first. A block that breaks a rule of coins is refused, and waits no more. The block that was
/// stored last is given, so that its body isn't read back. Nothing is written. After an error the chainstate is used no more.
pub fn advance<D: Disk>(
    alloc: Global,
    disk: &mut D,
    shared: &Shared,
    chain: &mut ChainState,
    stored: &HashedBlock,
) -> Result<Refusals, StoreFault>
    ensures ok { (limit : ℕ) (state : State) (store : StoreState)
        → IsStanding limit (D.contents disk.old) (D.left_since disk.old (D.time disk.old)) shared.now chain.old state store → IsSettled store
        → get state.bodies (hash_of_header stored.now.header) ≡ Some stored.now
        → IfOk result (HasAdvanced limit (D.contents disk.new) (D.left_since disk.new (D.time disk.new)) shared.now chain.new state store) }

    // Over a store that is settled no body and no coin is broken.
    ensures whole { (limit : ℕ) (state : State) (store : StoreState)
        → IsStanding limit (D.contents disk.old) (D.left_since disk.old (D.time disk.old)) shared.now chain.old state store → IsSettled store
        → get state.bodies (hash_of_header stored.now.header) ≡ Some stored.now
        → IfErr result NoDamage }
    ensures cause { IfErr result (AdvanceFails (D.faults disk.old) (D.faults disk.new)) }
    ensures faults { D.faults disk.old ≤ D.faults disk.new }
    ensures contents { D.contents disk.new ≡ D.contents disk.old }
    ensures quiet { Quiet D.time D.left_since disk.old disk.new }
    ensures file { chain.new.store ≡ chain.old.store }
{
    let mut refusals = Refusals::new(alloc);
    // Each trial takes a child of a tip away, so that there are no more than headers.
    for _step in 0..shared.tree.size() {
        let Some(hash) = chain.waiting.least(&chain.tip) else {
            return Ok(refusals);
        };
        let refused = match try_child(alloc, disk, shared, chain, stored, &hash) {
            Ok(refused) => refused,
            Err(fault) => return Err(fault),
        };
        let Ok(()) = refusals.note(&hash, refused) else {
            return Err(StoreFault::NoMemory);
        };
    }
    Ok(refusals)
}
