//! The checks of one transaction on the coins that it spends (`CheckTxInputs` in Bitcoin Core's
//! `consensus/tx_verify.cpp`).

ghost use Rattle.std.specs.Prelude.{◌≡◌, ◌≤◌, ◌+◌, ◌-◌, [], ◌∷◌, nat_lt, Some, None, IfOk, IfErr};
ghost use Rattle.base_types.specs.declared.refused.CoinRefused.TheVariants.{InBelowOut, ValueRange};
ghost use Rattle.chain_model.specs.Apply.{is_immature as immature, coins_broken, unless};
ghost use Rattle.chain_model.specs.Rules.{first_broken};
ghost use Rattle.base_types.specs.Parameters.{max_money};
ghost use Rattle.chain_model.specs.Coins.{value_of_coins};
ghost use Rattle.chain_model.specs.Fees.{fees_by};

use crate::context::Context;
use crate::locks::is_locked;
use crate::outputs::value_of;
use crate::tree_view::TreeView;
use base_types::{COINBASE_MATURITY, Coin, CoinRefused, MAX_MONEY};
use block_codec::Tx;

/// The fees so far with those of a transaction that isn't a coinbase, or the first rule that it breaks, by the coins that
/// its inputs spend.
pub(crate) fn fees_after<T: TreeView>(
    context: &Context<T>,
    fees: u64,
    tx: &Tx,
    spent: &[Coin],
) -> Result<u64, CoinRefused>
    requires { fees ≤ max_money }
    ensures result { result ≡ fees_by (record { tree = T.tree context.now.tree.now; parent = context.now.parent.now; at = context.now.height }) fees tx.now spent.now }
    ensures in_range { IfOk result (λ after. after ≤ max_money) }
{
    let paid_in = value_of_spent(context.height, spent)?;
    let after = fees_with_change(fees, paid_in, value_of(tx.outputs.as_slice()))?;
    if is_locked(context, tx, spent) {
        return Err(CoinRefused::SequenceLock);
    }
    Ok(after)
}

// The sum of the values of coins that are spent at a height, or the first rule that one breaks, coin by coin.
fn value_of_spent(height: u32, coins: &[Coin]) -> Result<u64, CoinRefused>
    ensures ok { IfOk result (λ total. coins_broken height 0 coins.now ≡ None) }
    ensures total { IfOk result (λ total. total ≡ value_of_coins coins.now) }
    ensures in_range { IfOk result (λ total. total ≤ max_money) }
    ensures err { IfErr result (λ rule. coins_broken height 0 coins.now ≡ Some rule) }
{
    let mut total = 0u64;
    for coin in coins {
        if is_immature(height, coin) {
            return Err(CoinRefused::Immature);
        }
        if coin.value > MAX_MONEY - total {
            return Err(CoinRefused::ValueRange);
        }
        total += coin.value;
    }
    Ok(total)
}

// Whether a coin is a coinbase's, and a height is too low to spend it.
fn is_immature(height: u32, coin: &Coin) -> bool
    ensures { result ≡ immature height coin.now }
{
    coin.coinbase && u64::from(height) < u64::from(coin.height) + u64::from(COINBASE_MATURITY)
}

// The fees so far with those of a transaction whose inputs and outputs have these sums.
#[tactic(auto, unfolding(crate::specs::Rules::first_broken))]
fn fees_with_change(fees: u64, paid_in: u64, paid_out: u64) -> Result<u64, CoinRefused>
    requires fees { fees ≤ max_money }
    requires paid_in { paid_in ≤ max_money }
    ensures in_range { IfOk result (λ after. after ≤ max_money) }
    ensures result { result ≡ unless (first_broken ((nat_lt paid_in paid_out, InBelowOut) ∷ (nat_lt max_money (fees + (paid_in - paid_out)), ValueRange) ∷ [])) (fees + (paid_in - paid_out)) }
{
    if paid_in < paid_out {
        return Err(CoinRefused::InBelowOut);
    }
    let after = fees + (paid_in - paid_out);
    if after > MAX_MONEY {
        return Err(CoinRefused::ValueRange);
    }
    Ok(after)
}
