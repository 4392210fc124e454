//! The outputs of a transaction, as coins.

ghost use Rattle.std.specs.Prelude.{◌≡◌, ◌-◌, ◌^◌, min, IfOk};
ghost use Rattle.chain_model.specs.Coins.{is_spendable as can_be_spent, output_value, value_of_outputs};

use base_types::{Coin, MAX_SCRIPT_SIZE, TxOut};
use std::alloc::AllocError;

// The byte at which an output's script begins that nobody can spend.
const OP_RETURN: u8 = 0x6a;

/// Whether an output can be spent (`IsUnspendable` in Bitcoin Core's `script/script.h`).
pub(crate) fn is_spendable(output: &TxOut) -> bool
    ensures { result ≡ can_be_spent output.now }
{
    let script = output.script.as_slice();
    !(script.starts_with(&[OP_RETURN]) || script.len() > MAX_SCRIPT_SIZE)
}

// The satoshis of an output, and 0 where its value is below 0.
fn satoshis(output: &TxOut) -> u64
    ensures { result ≡ output_value output.now }
{
    output.value.max(0) as u64
}

/// The sum of the outputs' satoshis, or 2^64 − 1 where it is above that.
pub(crate) fn value_of(outputs: &[TxOut]) -> u64
    ensures { result ≡ min (value_of_outputs outputs.now) (2 ^ 64 - 1) }
{
    let mut total = 0u64;
    for output in outputs {
        total = total.saturating_add(satoshis(output));
    }
    total
}

/// The coin that an output is, in a block at a height.
pub(crate) fn coin_of(output: &TxOut, height: u32, coinbase: bool) -> Result<Coin, AllocError>
    ensures { IfOk result (λ coin. coin ≡ record { value = output_value output.now; script = output.now.script; height = height; coinbase = coinbase }) }
{
    Ok(Coin {
        value: satoshis(output),
        script: output.script.clone()?,
        height,
        coinbase,
    })
}

/// The number of an output among those of its transaction. No memory holds 2^32 outputs.
pub(crate) fn number_of(index: usize) -> Result<u32, AllocError>
    ensures { IfOk result (λ number. number ≡ index) }
{
    match u32::try_from(index) {
        Ok(number) => Ok(number),
        Err(_) => Err(AllocError),
    }
}
