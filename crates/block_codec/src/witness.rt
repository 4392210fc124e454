//! What kind of transaction it is.

ghost use Rattle.std.specs.Prelude.{◌≡◌};
ghost use Rattle.block_codec.specs.Text.{has_witness as some_stack, some_witness, is_coinbase as names_no_output};

use crate::block::{Tx, TxIn};

/// Whether some input has a witness, so that the transaction is written with the form of BIP 144.
pub fn has_witness(tx: &Tx) -> bool
    ensures { result ≡ some_stack tx.now }
{
    some_witness(tx.inputs.as_slice())
}

/// Whether the transaction is a coinbase: its one input names the zero hash and the index 4,294,967,295.
pub fn is_coinbase(tx: &Tx) -> bool
    ensures { result ≡ names_no_output tx.now }
{
    match tx.inputs.as_slice() {
        [input] => input.prev.txid.bytes == [0; 32] && input.prev.index == u32::MAX,
        _ => false,
    }
}

/// Whether some input has a witness.
pub(crate) fn some_witness(inputs: &[TxIn]) -> bool
    ensures { result ≡ some_witness inputs.now }
{
    for input in inputs {
        if !input.stack.as_slice().is_empty() {
            return true;
        }
    }
    false
}
