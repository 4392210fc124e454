//! The rules of one transaction by itself (`CheckTransaction` in Bitcoin Core's `consensus/tx_check.cpp`).

ghost use Rattle.std.specs.Prelude.{◌≡◌, ◌||◌, pos, length, nat_lt, unsigned_abs};
ghost use Rattle.std.specs.List.{list_any};
ghost use Rattle.base_types.specs.Parameters.{max_money};
ghost use Rattle.chain_model.specs.BodyRules.{is_out_of_range as beyond_money, has_bad_value as some_bad_value, has_bad_coinbase_script as bad_coinbase_script, has_null_input as some_null_input, tx_broken};
ghost use Rattle.block_checks.specs.Answer.{Answers};

use crate::fault::CheckFault;
use crate::inputs::{has_duplicate_input, has_null_outpoint};
use base_types::{BodyRefused, MAX_MONEY, TxOut};
use block_codec::{Tx, TxIn, is_coinbase};
use std::alloc::Global;

/// The first rule that a transaction breaks by itself.
#[tactic(auto, unfolding(chain_model::specs::Rules::first_broken))]
pub(crate) fn check_transaction(alloc: Global, tx: &Tx) -> Result<(), CheckFault>
    ensures { Answers (tx_broken tx.now) result }
{
    let inputs = tx.inputs.as_slice();
    let outputs = tx.outputs.as_slice();
    if inputs.is_empty() {
        return Err(CheckFault::Refused(BodyRefused::NoInputs));
    }
    if outputs.is_empty() {
        return Err(CheckFault::Refused(BodyRefused::NoOutputs));
    }
    if has_bad_value(outputs) {
        return Err(CheckFault::Refused(BodyRefused::BadValue));
    }
    if has_duplicate_input(alloc, inputs)? {
        return Err(CheckFault::Refused(BodyRefused::DuplicateInput));
    }
    if has_bad_coinbase_script(tx) {
        return Err(CheckFault::Refused(BodyRefused::CoinbaseScript));
    }
    if has_null_input(tx) {
        return Err(CheckFault::Refused(BodyRefused::NullInput));
    }
    Ok(())
}

// Whether an output's value, or a sum of the first outputs, is out of range.
fn has_bad_value(outputs: &[TxOut]) -> bool
    ensures { result ≡ some_bad_value (pos 0) outputs.now }
{
    let mut total = 0u64;
    for output in outputs {
        if is_out_of_range(output) {
            return true;
        }
        total += satoshis(output);
        if is_too_much(total) {
            return true;
        }
    }
    false
}

fn is_out_of_range(output: &TxOut) -> bool
    ensures { result ≡ beyond_money output.now.value }
{
    output.value < 0 || output.value > MAX_MONEY as i64
}

fn satoshis(output: &TxOut) -> u64
    ensures { result ≡ unsigned_abs output.now.value }
{
    output.value.unsigned_abs()
}

fn is_too_much(total: u64) -> bool
    ensures { result ≡ nat_lt max_money total }
{
    total > MAX_MONEY
}

// Whether the script of a coinbase has fewer than 2 or more than 100 bytes.
fn has_bad_coinbase_script(tx: &Tx) -> bool
    ensures { result ≡ bad_coinbase_script tx.now }
{
    is_coinbase(tx) && has_bad_script(tx.inputs.as_slice())
}

// Whether some input's script has fewer than 2 or more than 100 bytes.
fn has_bad_script(inputs: &[TxIn]) -> bool
    ensures { result ≡ list_any (λ input. nat_lt (length input.script) 2 || nat_lt 100 (length input.script)) inputs.now }
{
    for input in inputs {
        let length = input.script.as_slice().len();
        if length < 2 || length > 100 {
            return true;
        }
    }
    false
}

// Whether a transaction that isn't a coinbase has an input that names no output.
fn has_null_input(tx: &Tx) -> bool
    ensures { result ≡ some_null_input tx.now }
{
    !is_coinbase(tx) && has_null_outpoint(tx.inputs.as_slice())
}
