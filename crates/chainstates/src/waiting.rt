//! The stored blocks that wait to be connected as a store is opened.

ghost use Rattle.std.specs.Prelude.{◌≡◌, ◌&&◌, true, not, IfOk};
ghost use Rattle.base_types.specs.declared.hash.Hash32.{Hash32 as Hash};
ghost use Rattle.chain_model.specs.Choice.{is_at_or_below};
ghost use Rattle.chain_state.specs.Waiting.{waits};
ghost use Rattle.chainstates.specs.Waits.{is_child, is_left_over, is_stored_child};

use base_types::Hash32;
use block_codec::genesis_hash;
use block_store::BlockStore;
use chain_state::Waiting;
use header_tree::Tree;
use std::alloc::{AllocError, Global};

/// Each block that has a body and isn't on the chain of the tip waits above its parent. The chain is gone down once.
pub(crate) fn find_waiting(
    alloc: Global,
    blocks: &BlockStore,
    tree: &Tree,
    tip: &Hash32,
) -> Result<Waiting, AllocError>
    ensures { IfOk result (λ waiting. (parent hash : Hash) → waits waiting parent hash ≡ is_left_over tree.now.tree.headers blocks.now.hashes tip.now parent hash) }
{
    match find_stored(alloc, blocks, tree) {
        Ok(mut waiting) => {
            remove_chain(&mut waiting, tree, tip);
            Ok(waiting)
        }
        Err(error) => Err(error),
    }
}

// Each block that has a body, above its parent.
fn find_stored(alloc: Global, blocks: &BlockStore, tree: &Tree) -> Result<Waiting, AllocError>
    ensures { IfOk result (λ waiting. (parent hash : Hash) → waits waiting parent hash ≡ is_stored_child tree.now.tree.headers blocks.now.hashes parent hash) }
{
    let mut waiting = Waiting::new(alloc);
    for number in 0..u64::MAX {
        let Some((hash, _)) = blocks.body_at(number) else {
            return Ok(waiting);
        };
        if let Some(header) = tree.header(&hash) {
            waiting.add(&header.prev, &hash)?;
        }
    }
    Err(AllocError)
}

// The tip and its ancestors wait no more.
fn remove_chain(waiting: &mut Waiting, tree: &Tree, tip: &Hash32)
    ensures { ((parent hash : Hash) → waits waiting.old parent hash ≡ true → is_child tree.now.tree.headers parent hash ≡ true)
        → (parent hash : Hash) → waits waiting.new parent hash ≡ (waits waiting.old parent hash && not (is_at_or_below tree.now.tree.headers hash tip.now)) }
{
    let genesis = genesis_hash();
    let mut hash = *tip;
    for _step in 0..tree.size() {
        let Some(header) = tree.header(&hash) else {
            return;
        };
        waiting.remove(&header.prev, &hash);
        if hash == genesis {
            return;
        }
        hash = header.prev;
    }
}
