//! Witnesses and the commitment to them (BIP 141).

ghost use Rattle.std.specs.Prelude.{◌≡◌, Some, true};
ghost use Rattle.std.specs.Option.{option_copied};
ghost use Rattle.std.specs.List.{list_any};
ghost use Rattle.block_codec.specs.Text.{has_witness as some_stack};
ghost use Rattle.chain_model.specs.Rules.{first_broken};
ghost use Rattle.chain_model.specs.BodyRules.{first_stack as first_stack_of, nonce_of};
ghost use Rattle.block_checks.specs.Answer.{Answers};
ghost use Rattle.chain_model.specs.BodyRules.{witness_rules};

use crate::fault::CheckFault;
use base_types::{BodyRefused, Hash32, Script};
use block_codec::{Block, Tx, has_witness};
use merkle::computed_commitment;
use std::alloc::Global;

/// The first rule of witnesses that a block breaks, given whether witnesses are known where it stands, and the
/// commitment to them in its coinbase.
#[tactic(auto, unfolding(chain_model::specs::Rules::first_broken))]
pub(crate) fn check_witness(
    alloc: Global,
    known: bool,
    committed: Option<Hash32>,
    block: &Block,
) -> Result<(), CheckFault>
    ensures { Answers (first_broken (witness_rules known committed block.now)) result }
{
    if known {
        if let Some(hash) = committed {
            return check_commitment(alloc, block, hash);
        }
    }
    if has_some_witness(block.txs.as_slice()) {
        return Err(CheckFault::Refused(BodyRefused::UnexpectedWitness));
    }
    Ok(())
}

// The rules of a block whose coinbase commits to the witnesses.
#[tactic(auto, unfolding(chain_model::specs::Rules::first_broken))]
fn check_commitment(alloc: Global, block: &Block, committed: Hash32) -> Result<(), CheckFault>
    ensures { Answers (first_broken (witness_rules true (Some committed) block.now)) result }
{
    let Some(item) = nonce(first_stack(block.txs.as_slice())) else {
        return Err(CheckFault::Refused(BodyRefused::WitnessNonce));
    };
    if committed != computed_commitment(alloc, block, item)? {
        return Err(CheckFault::Refused(BodyRefused::WitnessCommitment));
    }
    Ok(())
}

// The items of the first input's witness.
fn first_stack(txs: &[Tx]) -> &[Script]
    ensures { result.now ≡ first_stack_of txs.now }
{
    match txs {
        [coinbase, ..] => match coinbase.inputs.as_slice() {
            [input, ..] => input.stack.as_slice(),
            [] => &[],
        },
        [] => &[],
    }
}

// The one item of 32 bytes.
fn nonce(stack: &[Script]) -> Option<&[u8]>
    ensures { option_copied result ≡ nonce_of stack.now }
{
    match stack {
        [item] if item.as_slice().len() == 32 => Some(item.as_slice()),
        _ => None,
    }
}

fn has_some_witness(txs: &[Tx]) -> bool
    ensures { result ≡ list_any some_stack txs.now }
{
    for tx in txs {
        if has_witness(tx) {
            return true;
        }
    }
    false
}
