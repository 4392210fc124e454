//! Connecting a block.

ghost use Rattle.std.specs.Prelude.{◌≡◌, List, All, Err, Some, IfOk, IfSome};
ghost use Rattle.base_types.specs.Coins.{Coins, CoinFits};
ghost use Rattle.base_types.specs.Views.{FindsFault};
ghost use Rattle.base_types.specs.declared.hash.OutPoint.{OutPoint as Key};
ghost use Rattle.base_types.specs.declared.refused.CoinRefused.{CoinRefused as Rule};
ghost use Rattle.chain_model.specs.Apply.{outcome, undo_of};
ghost use Rattle.chain_model.specs.Connecting.{IsPayable, Leads, OnRefusal, RefusedFor, asked_by, calls_of, store_part};
ghost use Rattle.chain_model.specs.Editing.{Among, EditsOnly};
ghost use Rattle.chain_model.specs.Laws.{named_by};

use base_types::CoinEdit;
use block_codec::HashedBlock;
use chain_model::{BlockUndo, ConnectFault, TreeView, apply_over};
use std::alloc::Global;

/// Applies a block to coins, and answers what it spends. Its transactions have to be such as a body that breaks no rule has.
/// `Refused` has the first rule that it breaks. The coins may hold part of the block then, as they may after a fault of the
/// store.
pub fn connect<E: CoinEdit, T: TreeView>(
    alloc: Global,
    coins: &mut E,
    tree: &T,
    block: &HashedBlock,
) -> Result<BlockUndo, ConnectFault>
    requires { All IsPayable block.now.txs }

    // The coins after the block and what it spent, or the rule that it breaks, and the other way round.
    ensures ok { IfOk result (λ _. Leads (λ before. outcome (T.tree tree.now) before block.now) (E.coins coins.old) (E.coins coins.new)) }
    ensures undo { IfOk result (λ undo. IfSome (E.coins coins.old) (λ before. undo ≡ undo_of (T.tree tree.now) before block.now)) }
    ensures refused { OnRefusal result (λ rule. IfSome (E.coins coins.old) (λ before. outcome (T.tree tree.now) before block.now ≡ Err rule)) }
    ensures only { (before : Coins) (rule : Rule) → E.coins coins.old ≡ Some before → outcome (T.tree tree.now) before block.now ≡ Err rule → RefusedFor result rule }

    // What holds of every end.
    ensures fits { IfOk result (λ undo. All (λ spent. All CoinFits spent) undo) }
    ensures untouched { EditsOnly (named_by block.now) (E.coins coins.old) (E.coins coins.new) }
    ensures cause { FindsFault (calls_of block.now.txs) (E.counts coins.old) (E.counts coins.new) (store_part result) }
    ensures behind { (keys : List Key) → Among keys (asked_by block.now) → E.behind keys coins.old coins.new }
{
    apply_over(alloc, coins, tree, block.block(), block.txids())
}
