//! Lock times (`IsFinalTx` in Bitcoin Core's `consensus/tx_verify.cpp`, BIP 113).

ghost use Rattle.std.specs.Prelude.{◌≡◌, ◌==◌};
ghost use Rattle.std.specs.List.{list_all};
ghost use Rattle.chain_model.specs.BodyRules.{lock_clock as clock_of, lock_has_passed as has_passed, is_final as final_at};
ghost use Rattle.block_checks.specs.Place.{place_of};
ghost use Rattle.chain_model.specs.BodyRules.{has_unfinal};

use crate::place::Place;
use block_codec::{Block, Tx, TxIn};

// Lock times below it are heights, the others times in seconds since 1970.
const LOCK_TIME_THRESHOLD: u32 = 500_000_000;

/// Whether some transaction of the block isn't final where the block stands.
pub(crate) fn has_unfinal_transaction(place: &Place, block: &Block) -> bool
    ensures { result ≡ has_unfinal (place_of place.now) block.now }
{
    for tx in block.txs.as_slice() {
        if !is_final(place, block, tx) {
            return true;
        }
    }
    false
}

fn is_final(place: &Place, block: &Block, tx: &Tx) -> bool
    ensures { result ≡ final_at (place_of place.now) block.now tx.now }
{
    tx.lock_time == 0
        || lock_has_passed(place, block, tx.lock_time)
        || has_final_sequences(tx.inputs.as_slice())
}

fn lock_has_passed(place: &Place, block: &Block, lock_time: u32) -> bool
    ensures { result ≡ has_passed (place_of place.now) block.now lock_time }
{
    if lock_time < LOCK_TIME_THRESHOLD {
        u64::from(lock_time) < place.height
    } else {
        lock_time < lock_clock(place, block)
    }
}

// The time by which lock times are judged.
fn lock_clock(place: &Place, block: &Block) -> u32
    ensures { result ≡ clock_of (place_of place.now) block.now }
{
    if u64::from(place.rules.csv) <= place.height {
        place.median
    } else {
        block.header.time
    }
}

fn has_final_sequences(inputs: &[TxIn]) -> bool
    ensures { result ≡ list_all (λ input. input.sequence == 4294967295) inputs.now }
{
    for input in inputs {
        if input.sequence != u32::MAX {
            return false;
        }
    }
    true
}
