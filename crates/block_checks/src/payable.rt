//! What applying a block to coins takes for granted of its transactions.

ghost use Rattle.std.specs.Prelude.{◌≡◌, IfOk};
ghost use Rattle.std.specs.List.{list_any};
ghost use Rattle.block_checks.specs.Unpayable.{is_too_high, is_unpayable as cannot_be_paid};

use crate::inputs::has_duplicate_input;
use base_types::{MAX_MONEY, TxOut};
use block_codec::Tx;
use std::alloc::{AllocError, Global};

/// Whether some transaction can't be applied to coins: two of its inputs name one outpoint, or the value of an output is above
/// all money. No block whose body breaks no rule has one.
pub fn has_unpayable(alloc: Global, txs: &[Tx]) -> Result<bool, AllocError>
    ensures { IfOk result (λ found. found ≡ list_any cannot_be_paid txs.now) }
{
    for tx in txs {
        if is_unpayable(alloc, tx)? {
            return Ok(true);
        }
    }
    Ok(false)
}

fn is_unpayable(alloc: Global, tx: &Tx) -> Result<bool, AllocError>
    ensures { IfOk result (λ found. found ≡ cannot_be_paid tx.now) }
{
    if has_high_value(tx.outputs.as_slice()) {
        return Ok(true);
    }
    has_duplicate_input(alloc, tx.inputs.as_slice())
}

// Whether the value of some output is above all money.
fn has_high_value(outputs: &[TxOut]) -> bool
    ensures { result ≡ list_any is_too_high outputs.now }
{
    for output in outputs {
        if is_high(output) {
            return true;
        }
    }
    false
}

fn is_high(output: &TxOut) -> bool
    ensures { result ≡ is_too_high output.now }
{
    output.value.max(0) as u64 > MAX_MONEY
}
