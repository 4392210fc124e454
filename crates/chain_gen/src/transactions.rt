//! The transactions of a generated block.

ghost use Rattle.std.specs.Prelude.{◌≡◌, ◌^◌, ◌<◌, ◌≤◌, [], ◌∷◌, ◌++◌, IfOk, OnOk};
ghost use Rattle.chain_model.specs.Generated.{coinbase_at as coinbase_of, spend_at as spend_of, txs_at as txs_of};

use crate::scripts::{coinbase_script, script_at};
use base_types::{COINBASE_MATURITY, Hash32, OutPoint, Script, TxOut, subsidy};
use block_codec::{Inputs, Outputs, Stack, Tx, TxIn, Txs, txid};
use std::alloc::{AllocError, Global};

// What the input of a coinbase names.
const NOTHING: OutPoint = OutPoint {
    txid: Hash32 { bytes: [0; 32] },
    index: u32::MAX,
};

// The one input of a transaction.
fn inputs_of(alloc: Global, prev: OutPoint, script: Script) -> Result<Inputs, AllocError>
    ensures { IfOk result (λ inputs. inputs ≡ record { prev = prev; script = script; sequence = 0xffffffff; stack = [] } ∷ []) }
{
    let mut inputs = Inputs::new(alloc);
    inputs.push(TxIn {
        prev,
        script,
        sequence: u32::MAX,
        stack: Stack::new(alloc),
    })?;
    Ok(inputs)
}

fn coinbase_at(alloc: Global, number: u64, height: u32) -> Result<Tx, AllocError>
    requires { (1 ≤ height) × (height < 2 ^ 23) }
    ensures { IfOk result (λ tx. tx ≡ coinbase_of number height) }
{
    let script = coinbase_script(alloc, number, height)?;
    let inputs = inputs_of(alloc, NOTHING, script)?;
    let mut outputs = Outputs::new(alloc);
    outputs.push(TxOut {
        value: subsidy(height) as i64,
        script: script_at(alloc, number, height)?,
    })?;
    Ok(Tx {
        version: 2,
        inputs,
        outputs,
        lock_time: 0,
    })
}

// Spends the coinbase of a hundred blocks before, whose hash is made once more rather than kept.
fn spend_at(alloc: Global, number: u64, height: u32) -> Result<Tx, AllocError>
    requires { (101 ≤ height) × (height < 2 ^ 23) }
    ensures { IfOk result (λ tx. tx ≡ spend_of number height) }
{
    let coinbase = coinbase_at(alloc, number, height - COINBASE_MATURITY)?;
    let prev = OutPoint {
        txid: txid(&coinbase),
        index: 0,
    };
    let inputs = inputs_of(alloc, prev, Script::new(alloc))?;
    let value = subsidy(height - COINBASE_MATURITY);
    let mut outputs = Outputs::new(alloc);
    outputs.push(TxOut {
        value: (value / 2) as i64,
        script: script_at(alloc, number, height)?,
    })?;
    outputs.push(TxOut {
        value: (value - value / 2) as i64,
        script: Script::from_slice(alloc, &[0x51])?,
    })?;
    Ok(Tx {
        version: 2,
        inputs,
        outputs,
        lock_time: 0,
    })
}

/// The transactions of the block of a height.
#[tactic(auto, unfolding(chain_model::specs::Generated::txs_at))]
pub(crate) fn txs_at(alloc: Global, number: u64, height: u32) -> Result<Txs, AllocError>
    requires { (1 ≤ height) × (height < 2 ^ 23) }
    ensures { IfOk result (λ txs. txs ≡ txs_of number height) }
{
    let mut txs = Txs::new(alloc);
    txs.push(coinbase_at(alloc, number, height)?)?;
    if height > COINBASE_MATURITY {
        txs.push(spend_at(alloc, number, height)?)?;
    }
    Ok(txs)
}
