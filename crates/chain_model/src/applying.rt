//! Applying a block to coins (`ConnectBlock` in Bitcoin Core's `validation.cpp`).

ghost use Rattle.std.specs.Prelude.{◌≡◌, ◌+◌, All, Ok, Err, OnOk, MatchResult, map};
ghost use Rattle.base_types.specs.declared.refused.CoinRefused.{CoinRefused};
ghost use Rattle.block_codec.specs.Text.{txid_of, hash_of_header};
ghost use Rattle.chain_model.specs.Tree.{height};
ghost use Rattle.chain_model.specs.Apply.{outcome};
ghost use Rattle.chain_model.specs.Answers.{Refuses, KeptOnRefusal, OnRefused, RefusedBy};
ghost use Rattle.chain_model.specs.Connecting.{IsPayable};
ghost use Rattle.chain_model.specs.Laws.{Untouched, MakesAtMostTheSubsidy};
ghost use Rattle.chain_model.specs.Standing.{Stands};

use crate::fault::{ApplyFault, ReplayFault};
use crate::paying::apply_over;
use crate::plain::Plain;
use crate::plain_edit::PlainEdit;
use crate::tree_view::TreeView;
use base_types::Hash32;
use block_codec::{Block, HashedBlock, block_hash, txids};
use std::alloc::Global;

/// Applies a block that stands in a tree to coins. `Refused` has the block's hash and the first rule that it breaks; the coins
/// are then as before. After `NoMemory` they may be anything.
pub fn apply_block<T: TreeView>(
    alloc: Global,
    coins: &mut Plain,
    block: &Block,
    tree: &T,
) -> Result<(), ReplayFault>
    requires { Stands (T.tree tree.now) block.now }

    // The coins after the block, or the rule that it breaks, and the other way round.
    ensures ok { OnOk result (outcome (T.tree tree.now) coins.old block.now ≡ Ok coins.new) }
    ensures refused { OnRefused result (λ hash rule. (outcome (T.tree tree.now) coins.old block.now ≡ Err rule) × (hash ≡ hash_of_header block.now.header)) }
    ensures only { (rule : CoinRefused) → outcome (T.tree tree.now) coins.old block.now ≡ Err rule → RefusedBy result rule }
    ensures kept { OnRefused result (λ _ _. coins.new ≡ coins.old) }

    // What holds of every block.
    ensures untouched { OnOk result (Untouched block.now coins.old coins.new) }
    ensures values { OnOk result (MakesAtMostTheSubsidy (height (T.tree tree.now).headers block.now.header.prev + 1) coins.old coins.new) }
{
    let txids = txids(alloc, block.txs.as_slice())?;
    match apply(alloc, coins, block, &txids, tree) {
        Ok(()) => Ok(()),
        Err(fault) => Err(fault.of_block(block_hash(&block.header))),
    }
}

/// The same of a block whose hashes are known, so that nothing is hashed once more.
pub fn apply_hashed_block<T: TreeView>(
    alloc: Global,
    coins: &mut Plain,
    block: &HashedBlock,
    tree: &T,
) -> Result<(), ReplayFault>
    requires { Stands (T.tree tree.now) block.now }

    // The coins after the block, or the rule that it breaks, and the other way round.
    ensures ok { OnOk result (outcome (T.tree tree.now) coins.old block.now ≡ Ok coins.new) }
    ensures refused { OnRefused result (λ hash rule. (outcome (T.tree tree.now) coins.old block.now ≡ Err rule) × (hash ≡ hash_of_header block.now.header)) }
    ensures only { (rule : CoinRefused) → outcome (T.tree tree.now) coins.old block.now ≡ Err rule → RefusedBy result rule }
    ensures kept { OnRefused result (λ _ _. coins.new ≡ coins.old) }

    // What holds of every block.
    ensures untouched { OnOk result (Untouched block.now coins.old coins.new) }
    ensures values { OnOk result (MakesAtMostTheSubsidy (height (T.tree tree.now).headers block.now.header.prev + 1) coins.old coins.new) }
{
    match apply(alloc, coins, block.block(), block.txids(), tree) {
        Ok(()) => Ok(()),
        Err(fault) => Err(fault.of_block(*block.hash())),
    }
}

/// The same for any block, with the rule alone.
pub(crate) fn apply<T: TreeView>(
    alloc: Global,
    coins: &mut Plain,
    block: &Block,
    txids: &[Hash32],
    tree: &T,
) -> Result<(), ApplyFault>
    requires txids { txids.now ≡ map txid_of block.now.txs }
    requires payable { All IsPayable block.now.txs }
    ensures answers { MatchResult result (λ _. outcome (T.tree tree.now) coins.old block.now ≡ Ok coins.new) (λ fault. Refuses (outcome (T.tree tree.now) coins.old block.now) fault) }
    ensures kept { KeptOnRefusal result coins.old coins.new }
{
    let mut edited = PlainEdit::new(alloc, coins);
    apply_over(alloc, &mut edited, tree, block, txids)?;
    edited.into_changes().merge_into(coins)?;
    Ok(())
}
