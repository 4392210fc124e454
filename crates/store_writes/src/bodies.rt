//! Bodies.

ghost use Rattle.std.specs.Prelude.{◌≡◌, ◌≢◌, ◌≤◌, ℕ, List, [], length, Some, None, false, OnOk, OnErr, IfErr};
ghost use Rattle.std.specs.FinMap.{get};
ghost use Rattle.batch_log.specs.OpenLog.{AppendCause};
ghost use Rattle.block_codec.specs.Genesis.{genesis_hash};
ghost use Rattle.block_codec.specs.Text.{text_of};
ghost use Rattle.block_store.specs.Bodies.{body_text};
ghost use Rattle.block_store.specs.OpenStore.{SameStore};
ghost use Rattle.chain_model.specs.BodyRules.{body_broken, place_below};
ghost use Rattle.coin_store.specs.declared.store.CoinStore.{CoinStore};
ghost use Rattle.machine.specs.State.{BodyStored};
ghost use Rattle.store_state.specs.State.{StoreState, has_record};
ghost use Rattle.store_writes.specs.OnDisk.{OnDisk};
ghost use Rattle.store_writes.specs.Written.{SameFiles, Writes, WritesPart, body_as_stored, with_stored};

use base_types::{Hash32, StoreFault};
use block_codec::Block;
use block_store::BlockStore;
use disk_model::Disk;

/// Stores the body of a block whose header stands in the tree under this hash, and which breaks no rule of bodies. No body is
/// stored under the hash, and it isn't genesis's. A crash leaves it or not. `Full` where the file would grow beyond its limit.
pub fn store_body<D: Disk>(
    disk: &mut D,
    blocks: &mut BlockStore,
    hash: &Hash32,
    block: &Block,
) -> Result<(), StoreFault>
    ensures ok { (limit : ℕ) (coins : CoinStore) (store : StoreState) (text : List ℕ)
        → OnDisk limit (D.contents disk.old) (D.left_since disk.old (D.time disk.old)) blocks.old coins store
        → text_of block.now ≡ Some text → get store.tree.headers hash.now ≡ Some block.now.header → hash.now ≢ genesis_hash
        → body_broken (place_below store.tree block.now.header.prev) block.now ≡ None → has_record store.bodies hash.now ≡ false
        → OnOk result (Writes limit (D.left_since disk.old) (D.left_since disk.new) (D.time disk.old) (D.time disk.new) (D.contents disk.old) (D.contents disk.new) [] (BodyStored hash.now block.now) store (with_stored (body_as_stored hash.now block.now) store)
        × OnDisk limit (D.contents disk.new) (D.left_since disk.new (D.time disk.new)) blocks.new coins (with_stored (body_as_stored hash.now block.now) store)) }
    ensures err { (limit : ℕ) (coins : CoinStore) (store : StoreState) (text : List ℕ)
        → OnDisk limit (D.contents disk.old) (D.left_since disk.old (D.time disk.old)) blocks.old coins store
        → text_of block.now ≡ Some text → get store.tree.headers hash.now ≡ Some block.now.header → hash.now ≢ genesis_hash
        → body_broken (place_below store.tree block.now.header.prev) block.now ≡ None → has_record store.bodies hash.now ≡ false
        → OnErr result (WritesPart limit (D.left_since disk.old) (D.left_since disk.new) (D.time disk.old) (D.time disk.new) (D.contents disk.old) (D.contents disk.new) [] (BodyStored hash.now block.now) store) }
    ensures same { OnErr result (SameStore blocks.old blocks.new) }
    ensures files { SameFiles blocks.old blocks.new }
    ensures cause { IfErr result (AppendCause blocks.old.bodies (length (body_text hash.now block.now)) (D.faults disk.old) (D.faults disk.new)) }
    ensures later { D.time disk.old ≤ D.time disk.new }
    ensures faults { D.faults disk.old ≤ D.faults disk.new }
    ensures read { D.bytes_read disk.new ≡ D.bytes_read disk.old }
{
    blocks.put_body(disk, hash, block)
}
