//! Headers.

ghost use Rattle.std.specs.Prelude.{◌≡◌, ◌≤◌, ◌*◌, ℕ, [], length, Some, OnOk, OnErr, IfErr};
ghost use Rattle.base_types.specs.declared.program.Rules.{Rules};
ghost use Rattle.batch_log.specs.OpenLog.{AppendCause};
ghost use Rattle.block_store.specs.OpenStore.{SameStore};
ghost use Rattle.chain_model.specs.HeaderRules.{tree_with};
ghost use Rattle.chain_model.specs.Tree.{Tree};
ghost use Rattle.coin_store.specs.declared.store.CoinStore.{CoinStore};
ghost use Rattle.machine.specs.State.{HeadersStored, header_events};
ghost use Rattle.store_state.specs.State.{StoreState};
ghost use Rattle.store_writes.specs.OnDisk.{OnDisk};
ghost use Rattle.store_writes.specs.Written.{HeadersCause, SameFiles, Writes, WritesAll, WritesPart, WritesSome, with_tree};

use base_types::StoreFault;
use block_codec::Header;
use block_store::BlockStore;
use disk_model::Disk;

/// Stores headers that the tree takes one after the other, at least one and at most 1,000, as one payload. A crash leaves
/// none of them or all. `Full` where their file would grow beyond its limit.
pub fn store_headers<D: Disk>(
    disk: &mut D,
    blocks: &mut BlockStore,
    headers: &[Header],
) -> Result<(), StoreFault>
    requires some { 1 ≤ length headers.now }
    requires few { length headers.now ≤ 1000 }
    ensures ok { (limit : ℕ) (coins : CoinStore) (store : StoreState) (tree : Tree)
        → OnDisk limit (D.contents disk.old) (D.left_since disk.old (D.time disk.old)) blocks.old coins store → tree_with limit store.tree headers.now ≡ Some tree
        → OnOk result (Writes limit (D.left_since disk.old) (D.left_since disk.new) (D.time disk.old) (D.time disk.new) (D.contents disk.old) (D.contents disk.new) [] (HeadersStored headers.now) store (with_tree tree store)
        × OnDisk limit (D.contents disk.new) (D.left_since disk.new (D.time disk.new)) blocks.new coins (with_tree tree store)) }
    ensures err { (limit : ℕ) (coins : CoinStore) (store : StoreState) (tree : Tree)
        → OnDisk limit (D.contents disk.old) (D.left_since disk.old (D.time disk.old)) blocks.old coins store → tree_with limit store.tree headers.now ≡ Some tree
        → OnErr result (WritesPart limit (D.left_since disk.old) (D.left_since disk.new) (D.time disk.old) (D.time disk.new) (D.contents disk.old) (D.contents disk.new) [] (HeadersStored headers.now) store) }
    ensures same { OnErr result (SameStore blocks.old blocks.new) }
    ensures files { SameFiles blocks.old blocks.new }
    ensures cause { IfErr result (AppendCause blocks.old.headers (80 * length headers.now) (D.faults disk.old) (D.faults disk.new)) }
    ensures later { D.time disk.old ≤ D.time disk.new }
    ensures faults { D.faults disk.old ≤ D.faults disk.new }
    ensures read { D.bytes_read disk.new ≡ D.bytes_read disk.old }
{
    blocks.put_headers(disk, headers)
}

/// The greatest number of headers in one payload.
const MOST_AT_ONCE: usize = 1000;

/// Stores headers that the tree takes one after the other, up to 1,000 in one payload. A crash leaves a first part of the
/// payloads. After an error nothing is written of a payload that would let their file grow beyond its limit, and the ones
/// before it stay.
pub fn store_all_headers<D: Disk>(
    disk: &mut D,
    blocks: &mut BlockStore,
    headers: &[Header],
) -> Result<(), StoreFault>
    ensures ok { (limit : ℕ) (coins : CoinStore) (store : StoreState) (tree : Tree)
        → OnDisk limit (D.contents disk.old) (D.left_since disk.old (D.time disk.old)) blocks.old coins store → tree_with limit store.tree headers.now ≡ Some tree
        → OnOk result (WritesAll limit (D.left_since disk.old) (D.left_since disk.new) (D.time disk.old) (D.time disk.new) (D.contents disk.old) (D.contents disk.new) [] (header_events headers.now) store (with_tree tree store)
        × OnDisk limit (D.contents disk.new) (D.left_since disk.new (D.time disk.new)) blocks.new coins (with_tree tree store)) }
    ensures err { (limit : ℕ) (coins : CoinStore) (store : StoreState) (tree : Tree)
        → OnDisk limit (D.contents disk.old) (D.left_since disk.old (D.time disk.old)) blocks.old coins store → tree_with limit store.tree headers.now ≡ Some tree
        → OnErr result (WritesSome limit (D.left_since disk.old) (D.left_since disk.new) (D.time disk.old) (D.time disk.new) (D.contents disk.old) (D.contents disk.new) [] (header_events headers.now) store) }
    ensures files { SameFiles blocks.old blocks.new }
    ensures cause { IfErr result (HeadersCause blocks.new.headers (D.faults disk.old) (D.faults disk.new)) }
    ensures later { D.time disk.old ≤ D.time disk.new }
    ensures faults { D.faults disk.old ≤ D.faults disk.new }
    ensures read { D.bytes_read disk.new ≡ D.bytes_read disk.old }
{
    let mut rest = headers;
    while rest.len() > 0 {
        let count = rest.len().min(MOST_AT_ONCE);
        let front = &rest[..count];
        let behind = &rest[count..];
        match store_headers(disk, blocks, front) {
            Ok(()) => rest = behind,
            Err(fault) => return Err(fault),
        }
    }
    Ok(())
}
