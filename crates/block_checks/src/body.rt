//! The check of a body.

ghost use Rattle.std.specs.Prelude.{◌≡◌, true, map, nat_lt};
ghost use Rattle.std.specs.FinMap.{contains_key};
ghost use Rattle.chain_model.specs.Rules.{first_some, first_broken};
ghost use Rattle.chain_model.specs.BodyRules.{body_broken, place_below, tx_broken};
ghost use Rattle.block_codec.specs.Text.{txid_of};
ghost use Rattle.block_codec.specs.Weight.{weight_of};
ghost use Rattle.block_checks.specs.Answer.{Answers};
ghost use Rattle.block_checks.specs.Place.{place_of};
ghost use Rattle.chain_model.specs.BodyRules.{place_rules};

use crate::fault::CheckFault;
use crate::finality::has_unfinal_transaction;
use crate::height_push::has_bad_height;
use crate::place::Place;
use crate::structure::check_structure;
use crate::transaction::check_transaction;
use crate::witness::check_witness;
use base_types::{BodyRefused, Hash32};
use block_codec::{Block, HashedBlock, Tx, txids, weight};
use chain_model::TreeView;
use merkle::commitment;
use std::alloc::Global;

// The most weight that a block may have (BIP 141).
const MAX_WEIGHT: u64 = 4_000_000;

/// Checks the body of a block whose parent is in the tree: all rules that need no coins, by the heights from which the
/// tree's rules hold. `Refused` has the first rule that is broken.
pub fn check_body<T: TreeView>(alloc: Global, block: &Block, tree: &T) -> Result<(), CheckFault>
    requires { contains_key (T.tree tree.now).headers block.now.header.prev ≡ true }
    ensures { Answers (body_broken (place_below (T.tree tree.now) block.now.header.prev) block.now) result }
{
    let txids = txids(alloc, block.txs.as_slice())?;
    let place = Place::below(tree, &block.header.prev);
    check_at(alloc, &place, block, &txids)
}

/// The same of a block whose txids are known, so that no transaction is hashed once more.
pub fn check_hashed_body<T: TreeView>(
    alloc: Global,
    block: &HashedBlock,
    tree: &T,
) -> Result<(), CheckFault>
    requires { contains_key (T.tree tree.now).headers block.now.header.prev ≡ true }
    ensures { Answers (body_broken (place_below (T.tree tree.now) block.now.header.prev) block.now) result }
{
    let place = Place::below(tree, &block.block().header.prev);
    check_at(alloc, &place, block.block(), block.txids())
}

/// The same by where the block stands.
pub(crate) fn check_at(
    alloc: Global,
    place: &Place,
    block: &Block,
    txids: &[Hash32],
) -> Result<(), CheckFault>
    requires { txids.now ≡ map txid_of block.now.txs }
    ensures { Answers (body_broken (place_of place.now) block.now) result }
{
    check_structure(alloc, block, txids)?;
    check_transactions(alloc, block.txs.as_slice())?;
    check_place(alloc, place, block)
}

fn check_transactions(alloc: Global, txs: &[Tx]) -> Result<(), CheckFault>
    ensures { Answers (first_some (map tx_broken txs.now)) result }
{
    for tx in txs {
        check_transaction(alloc, tx)?;
    }
    Ok(())
}

fn is_too_heavy(block: &Block) -> bool
    ensures { result ≡ nat_lt 4000000 (weight_of block.now) }
{
    weight(block) > MAX_WEIGHT
}

// The rules that ask where the block stands, and the weight.
#[tactic(auto, unfolding(chain_model::specs::Rules::first_broken))]
fn check_place(alloc: Global, place: &Place, block: &Block) -> Result<(), CheckFault>
    ensures { Answers (first_broken (place_rules (place_of place.now) block.now)) result }
{
    if has_unfinal_transaction(place, block) {
        return Err(CheckFault::Refused(BodyRefused::NotFinal));
    }
    if has_bad_height(alloc, place, block)? {
        return Err(CheckFault::Refused(BodyRefused::BadHeight));
    }
    check_witness(alloc, place.knows_witnesses(), commitment(block), block)?;
    if is_too_heavy(block) {
        return Err(CheckFault::Refused(BodyRefused::Weight));
    }
    Ok(())
}
