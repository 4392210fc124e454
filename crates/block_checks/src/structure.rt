//! The parts of a block: its root, its size, and where its coinbase is.

ghost use Rattle.std.specs.Prelude.{◌≡◌, map};
ghost use Rattle.std.specs.List.{list_any};
ghost use Rattle.block_codec.specs.Text.{txid_of, is_coinbase as names_no_output};
ghost use Rattle.chain_model.specs.Rules.{first_broken};
ghost use Rattle.chain_model.specs.BodyRules.{starts_with_coinbase as first_is_coinbase, others_of};
ghost use Rattle.block_checks.specs.Answer.{Answers};
ghost use Rattle.chain_model.specs.BodyRules.{structure_rules, is_too_large as exceeds_limits};

use crate::fault::CheckFault;
use base_types::{BodyRefused, Hash32};
use block_codec::{Block, Tx, is_coinbase, stripped_size};
use merkle::root;
use std::alloc::Global;

// The most bytes that a block may have in the form without witnesses, and the most transactions.
const MAX_STRIPPED: u64 = 1_000_000;

/// The first rule of its parts that a block with these txids breaks.
#[tactic(auto, unfolding(chain_model::specs::Rules::first_broken))]
pub(crate) fn check_structure(
    alloc: Global,
    block: &Block,
    txids: &[Hash32],
) -> Result<(), CheckFault>
    requires { txids.now ≡ map txid_of block.now.txs }
    ensures { Answers (first_broken (structure_rules block.now)) result }
{
    let txs = block.txs.as_slice();
    let root = root(alloc, txids)?;
    if root.hash != block.header.root {
        return Err(CheckFault::Refused(BodyRefused::BadMerkle));
    }
    if root.mutated {
        return Err(CheckFault::Refused(BodyRefused::Mutated));
    }
    if is_too_large(block) {
        return Err(CheckFault::Refused(BodyRefused::TooLarge));
    }
    if !starts_with_coinbase(txs) {
        return Err(CheckFault::Refused(BodyRefused::FirstNotCoinbase));
    }
    if has_second_coinbase(txs) {
        return Err(CheckFault::Refused(BodyRefused::SecondCoinbase));
    }
    Ok(())
}

fn is_too_large(block: &Block) -> bool
    ensures { result ≡ exceeds_limits block.now }
{
    let count = block.txs.as_slice().len();
    count == 0 || stripped_size(block) > MAX_STRIPPED || count as u64 > MAX_STRIPPED
}

fn starts_with_coinbase(txs: &[Tx]) -> bool
    ensures { result ≡ first_is_coinbase txs.now }
{
    match txs {
        [first, ..] => is_coinbase(first),
        [] => false,
    }
}

fn has_second_coinbase(txs: &[Tx]) -> bool
    ensures { result ≡ list_any names_no_output (others_of txs.now) }
{
    match txs {
        [_, others @ ..] => has_coinbase(others),
        [] => false,
    }
}

fn has_coinbase(txs: &[Tx]) -> bool
    ensures { result ≡ list_any names_no_output txs.now }
{
    for tx in txs {
        if is_coinbase(tx) {
            return true;
        }
    }
    false
}
