//! Stored blocks.

ghost use Rattle.std.specs.Prelude.{◌≡◌, ◌≤◌, ℕ, All, Some, IfOk, IfErr};
ghost use Rattle.std.specs.FinMap.{empty, get};
ghost use Rattle.block_store.specs.Reading.{NoDamage};
ghost use Rattle.block_codec.specs.declared.block.Block.{Block as ABlock};
ghost use Rattle.coin_store.specs.declared.store.CoinStore.{CoinStore as Coins};
ghost use Rattle.disk_model.specs.Disk.{Quiet};
ghost use Rattle.reorg.specs.Advancing.{AdvanceFails, IsBodyFault};
ghost use Rattle.store_state.specs.Settled.{IsBody};
ghost use Rattle.store_state.specs.State.{StoreState, blocks_in};
ghost use Rattle.store_writes.specs.OnDisk.{OnDisk};

use base_types::{Hash32, StoreFault};
use block_codec::HashedBlock;
use block_store::BlockStore;
use disk_model::Disk;
use std::alloc::Global;

/// The file of bodies.
const BODY_FILE: u32 = 2;

/// Reads a stored block. `Damaged` where its body isn't there, or is none.
pub(crate) fn read_block<D: Disk>(
    alloc: Global,
    disk: &mut D,
    blocks: &BlockStore,
    hash: &Hash32,
) -> Result<HashedBlock, StoreFault>
    ensures ok { (limit : ℕ) (coins : Coins) (store : StoreState) (block : ABlock)
        → OnDisk limit (D.contents disk.old) (D.left_since disk.old (D.time disk.old)) blocks.now coins store → All (IsBody store.tree) store.bodies
        → get (blocks_in empty store.bodies) hash.now ≡ Some block → IfOk result (λ read. read ≡ block) }
    ensures whole { (limit : ℕ) (coins : Coins) (store : StoreState) (block : ABlock)
        → OnDisk limit (D.contents disk.old) (D.left_since disk.old (D.time disk.old)) blocks.now coins store → All (IsBody store.tree) store.bodies
        → get (blocks_in empty store.bodies) hash.now ≡ Some block → IfErr result NoDamage }
    ensures cause { IfErr result (AdvanceFails (D.faults disk.old) (D.faults disk.new)) }
    ensures faults { D.faults disk.old ≤ D.faults disk.new }
    ensures contents { D.contents disk.new ≡ D.contents disk.old }
    ensures quiet { Quiet D.time D.left_since disk.old disk.new }
{
    match blocks.body(disk, hash) {
        Ok(Some(block)) => match HashedBlock::new(alloc, block) {
            Ok(hashed) => Ok(hashed),
            Err(_) => Err(StoreFault::NoMemory),
        },
        Ok(None) => Err(broken_body(blocks, hash)),
        Err(fault) => Err(fault),
    }
}

/// Names the record of a body as broken: the last one of this hash.
pub(crate) fn broken_body(blocks: &BlockStore, hash: &Hash32) -> StoreFault
    ensures { IsBodyFault result }
{
    let mut gate = 0;
    for number in 0..u64::MAX {
        let Some((stored, at)) = blocks.body_at(number) else {
            break;
        };
        if stored == *hash {
            gate = at;
        }
    }
    StoreFault::Damaged {
        file: BODY_FILE,
        at: gate,
    }
}
