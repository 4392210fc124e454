//! The outpoints that the inputs of a transaction name.

ghost use Rattle.std.specs.Prelude.{◌≡◌, IfOk};
ghost use Rattle.std.specs.List.{list_any};
ghost use Rattle.chain_model.specs.BodyRules.{has_twin_inputs as some_twins};
ghost use Rattle.block_codec.specs.Text.{names_nothing as names_no_output};

use base_types::{Hash32, OutPoint};
use block_codec::TxIn;
use std::alloc::{AllocError, Global};
use std::collections::BTreeSet;

/// Whether two inputs name one outpoint. Up to two inputs are compared without memory.
pub(crate) fn has_duplicate_input(alloc: Global, inputs: &[TxIn]) -> Result<bool, AllocError>
    ensures { IfOk result (λ found. found ≡ some_twins inputs.now) }
{
    match inputs {
        [] | [_] => Ok(false),
        [first, second] => Ok(first.prev == second.prev),
        _ => has_repeated_outpoint(alloc, inputs),
    }
}

// The same by a set of the outpoints before each input.
fn has_repeated_outpoint(alloc: Global, inputs: &[TxIn]) -> Result<bool, AllocError>
    ensures { IfOk result (λ found. found ≡ some_twins inputs.now) }
{
    let mut before: BTreeSet<OutPoint> = BTreeSet::new(alloc);
    for input in inputs {
        if !before.insert(input.prev)? {
            return Ok(true);
        }
    }
    Ok(false)
}

/// Whether some input names no output.
pub(crate) fn has_null_outpoint(inputs: &[TxIn]) -> bool
    ensures { result ≡ list_any names_no_output inputs.now }
{
    for input in inputs {
        if names_nothing(input) {
            return true;
        }
    }
    false
}

// Whether an input names the zero hash and the index 4,294,967,295, as a coinbase's one does.
fn names_nothing(input: &TxIn) -> bool
    ensures { result ≡ names_no_output input.now }
{
    input.prev.txid == Hash32 { bytes: [0; 32] } && input.prev.index == u32::MAX
}
