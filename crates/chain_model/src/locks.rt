//! Relative lock times (BIP 68; `CalculateSequenceLocks` in Bitcoin Core's `consensus/tx_verify.cpp`).

ghost use Rattle.std.specs.Prelude.{◌≡◌, ◌+◌, ◌*◌, ◌%◌, ◌-◌, ◌&&◌, nat_le};
ghost use Rattle.chain_model.specs.Apply.{is_locked as locked, has_lock as some_lock, lock_passed, is_free as free, counts_time as in_time};

use crate::context::Context;
use crate::tree_view::TreeView;
use base_types::Coin;
use block_codec::{Tx, TxIn};

// The bit of a sequence that frees its input.
const DISABLE_FLAG: u32 = 1 << 31;

// The bit of a sequence by which its lock counts time, and not blocks.
const TYPE_FLAG: u32 = 1 << 22;

// The number of seconds that a lock counts as one.
const GRANULARITY: u64 = 512;

/// Whether the lock of some input hasn't passed yet in a block that stands here. The coins that the inputs spend come in
/// the inputs' order.
pub(crate) fn is_locked<T: TreeView>(context: &Context<T>, tx: &Tx, spent: &[Coin]) -> bool
    ensures { result ≡ locked (record { tree = T.tree context.now.tree.now; parent = context.now.parent.now; at = context.now.height }) tx.now spent.now }
{
    context.tree.rules().csv <= context.height
        && tx.version >= 2
        && has_lock(context, tx.inputs.as_slice(), spent)
}

fn has_lock<T: TreeView>(context: &Context<T>, inputs: &[TxIn], spent: &[Coin]) -> bool
    ensures { result ≡ some_lock (record { tree = T.tree context.now.tree.now; parent = context.now.parent.now; at = context.now.height }) inputs.now spent.now }
{
    for (input, coin) in inputs.iter().zip(spent) {
        if !is_free(input.sequence) && !has_passed(context, input.sequence, coin) {
            return true;
        }
    }
    false
}

fn has_passed<T: TreeView>(context: &Context<T>, sequence: u32, coin: &Coin) -> bool
    ensures { result ≡ lock_passed (record { tree = T.tree context.now.tree.now; parent = context.now.parent.now; at = context.now.height }) sequence coin.now }
{
    if counts_time(sequence) {
        coin.height <= context.height
            && time_has_passed(
                context.median_at(coin.height.saturating_sub(1)),
                sequence,
                context.median(),
            )
    } else {
        blocks_have_passed(coin.height, sequence, context.height)
    }
}

fn is_free(sequence: u32) -> bool
    ensures { result ≡ free sequence }
{
    sequence >= DISABLE_FLAG
}

fn counts_time(sequence: u32) -> bool
    ensures { result ≡ in_time sequence }
{
    sequence & TYPE_FLAG != 0
}

/// Whether a lock that began at a time has passed at another, in seconds since 1970.
pub(crate) fn time_has_passed(since: u32, sequence: u32, now: u32) -> bool
    ensures { result ≡ nat_le (since + 512 * (sequence % 65536)) now }
{
    u64::from(since) + GRANULARITY * u64::from(sequence % 65536) <= u64::from(now)
}

/// Whether a lock that began at a height has passed at another.
pub(crate) fn blocks_have_passed(since: u32, sequence: u32, now: u32) -> bool
    ensures { result ≡ nat_le (since + sequence % 65536) now }
{
    u64::from(since) + u64::from(sequence % 65536) <= u64::from(now)
}
