//! Replaying blocks, the plain way.

ghost use Rattle.std.specs.Prelude.{◌≡◌, Ok, Err, IfOk, All};
ghost use Rattle.base_types.specs.declared.refused.CoinRefused.{CoinRefused};
ghost use Rattle.chain_model.specs.Apply.{replayed};
ghost use Rattle.chain_model.specs.Answers.{OnRefused, RefusedBy};
ghost use Rattle.chain_model.specs.Laws.{BreaksAt, Joins};
ghost use Rattle.chain_model.specs.Standing.{Stands};

use crate::applying::apply_block;
use crate::fault::ReplayFault;
use crate::plain::Plain;
use crate::tree_view::TreeView;
use block_codec::Block;
use std::alloc::Global;

/// The coins after blocks that stand in a tree, one after the other from these coins on. `Refused` has the hash of the
/// lowest block that breaks a rule, and that rule.
pub fn replay<T: TreeView>(
    alloc: Global,
    start: &Plain,
    blocks: &[Block],
    tree: &T,
) -> Result<Plain, ReplayFault>
    requires { All (Stands (T.tree tree.now)) blocks.now }

    // The coins after the blocks, or the lowest block that breaks a rule, and the other way round.
    ensures ok { IfOk result (λ coins. replayed (T.tree tree.now) start.now blocks.now ≡ Ok coins) }
    ensures refused { OnRefused result (λ hash rule. (replayed (T.tree tree.now) start.now blocks.now ≡ Err rule) × BreaksAt (T.tree tree.now) start.now blocks.now hash rule) }
    ensures only { (rule : CoinRefused) → replayed (T.tree tree.now) start.now blocks.now ≡ Err rule → RefusedBy result rule }

    // Two lists one after the other.
    ensures joined { Joins (T.tree tree.now) start.now blocks.now }
{
    let mut coins = start.copy()?;
    for block in blocks {
        apply_block(alloc, &mut coins, block, tree)?;
    }
    Ok(coins)
}
