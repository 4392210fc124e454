//! What a transaction does to coins that can be changed.

ghost use Rattle.std.specs.Prelude.{◌≡◌, ◌*◌, ◌<◌, ◌^◌, ◌≤◌, false, List, Contains, All, length, map, option_map, IfOk, IfSome, OnOk};
ghost use Rattle.base_types.specs.Coins.{CoinFits};
ghost use Rattle.base_types.specs.Parameters.{max_money};
ghost use Rattle.base_types.specs.Views.{FindsFault, with_coin, without_coin};
ghost use Rattle.base_types.specs.declared.hash.OutPoint.{OutPoint as Key};
ghost use Rattle.block_codec.specs.Text.{txid_of};
ghost use Rattle.chain_model.specs.BodyRules.{has_twin_inputs};
ghost use Rattle.chain_model.specs.Coins.{output_value, spendable_of, spent_by, with_outputs, without, without_outputs};
ghost use Rattle.chain_model.specs.Connecting.{calls_to_make};
ghost use Rattle.chain_model.specs.Editing.{Among, EditsOnly};
ghost use Rattle.chain_model.specs.Laws.{outputs_named};

use crate::outputs::{coin_of, is_spendable, number_of};
use crate::undo::SpentCoins;
use base_types::{Coin, CoinEdit, Hash32, OutPoint, StoreFault, View};
use block_codec::{Tx, TxIn, is_coinbase};
use std::alloc::Global;

/// Puts a coin at an outpoint, whether it has one or not.
pub fn put_coin<E: CoinEdit>(coins: &mut E, key: &OutPoint, coin: Coin) -> Result<(), StoreFault>
    requires { CoinFits coin }
    ensures coins { E.coins coins.new ≡ option_map (with_coin result key.now coin) (E.coins coins.old) }
    ensures cause { FindsFault 2 (E.counts coins.old) (E.counts coins.new) result }
    ensures behind { (keys : List Key) → Contains keys key.now → E.behind keys coins.old coins.new }
{
    let taken = coins.get(key)?.is_some();
    coins.add(key, coin, taken)
}

// Takes away the coin of an outpoint, if it has one.
fn take_coin<E: CoinEdit>(coins: &mut E, key: &OutPoint) -> Result<(), StoreFault>
    ensures coins { E.coins coins.new ≡ option_map (without_coin result key.now) (E.coins coins.old) }
    ensures cause { FindsFault 1 (E.counts coins.old) (E.counts coins.new) result }
    ensures behind { (keys : List Key) → Contains keys key.now → E.behind keys coins.old coins.new }
{
    let _coin = coins.spend(key)?;
    Ok(())
}

/// Takes away the coins that inputs spend, none of which stands twice; none are answered where one isn't there. Then those
/// before it are taken away.
pub(crate) fn spend_inputs<E: CoinEdit>(
    alloc: Global,
    coins: &mut E,
    inputs: &[TxIn],
) -> Result<Option<SpentCoins>, StoreFault>
    requires { has_twin_inputs inputs.now ≡ false }
    ensures spent { IfOk result (λ spent. IfSome (E.coins coins.old) (λ before. spent_by before inputs.now ≡ spent)) }
    ensures coins { IfOk result (λ spent. IfSome spent (λ _. E.coins coins.new ≡ option_map (without inputs.now) (E.coins coins.old))) }
    ensures fits { IfOk result (λ spent. IfSome spent (λ list. All CoinFits list)) }
    ensures cause { FindsFault (length inputs.now) (E.counts coins.old) (E.counts coins.new) result }
    ensures within { (keys : List Key) → Among keys (map (λ input. input.prev) inputs.now) → E.behind keys coins.old coins.new × EditsOnly keys (E.coins coins.old) (E.coins coins.new) }
{
    let mut spent = SpentCoins::new(alloc);
    for input in inputs {
        let Some(coin) = coins.spend(&input.prev)? else {
            return Ok(None);
        };
        spent.push(coin)?;
    }
    Ok(Some(spent))
}

/// Puts the outputs of a transaction that can be spent, in a block at a height.
pub(crate) fn make_outputs<E: CoinEdit>(
    coins: &mut E,
    tx: &Tx,
    txid: &Hash32,
    height: u32,
) -> Result<(), StoreFault>
    requires txid { txid.now ≡ txid_of tx.now }
    requires values { All (λ output. output_value output ≤ max_money) tx.now.outputs }
    requires height { height < 2 ^ 31 }
    ensures coins { OnOk result (E.coins coins.new ≡ option_map (with_outputs height tx.now) (E.coins coins.old)) }
    ensures cause { FindsFault (calls_to_make tx.now) (E.counts coins.old) (E.counts coins.new) result }
    ensures within { (keys : List Key) → Among keys (outputs_named tx.now) → E.behind keys coins.old coins.new × EditsOnly keys (E.coins coins.old) (E.coins coins.new) }
{
    let coinbase = is_coinbase(tx);
    for (index, output) in tx.outputs.as_slice().iter().enumerate() {
        if is_spendable(output) {
            let key = OutPoint {
                txid: *txid,
                index: number_of(index)?,
            };
            put_coin(coins, &key, coin_of(output, height, coinbase)?)?;
        }
    }
    Ok(())
}

/// Takes away the outputs of a transaction that can be spent, whether they are there or not.
pub fn take_outputs<E: CoinEdit>(coins: &mut E, tx: &Tx, txid: &Hash32) -> Result<(), StoreFault>
    requires { txid.now ≡ txid_of tx.now }
    ensures coins { OnOk result (E.coins coins.new ≡ option_map (without_outputs tx.now) (E.coins coins.old)) }
    ensures cause { FindsFault (length (spendable_of tx.now)) (E.counts coins.old) (E.counts coins.new) result }
    ensures within { (keys : List Key) → Among keys (outputs_named tx.now) → E.behind keys coins.old coins.new × EditsOnly keys (E.coins coins.old) (E.coins coins.new) }
{
    for (index, output) in tx.outputs.as_slice().iter().enumerate() {
        if is_spendable(output) {
            let key = OutPoint {
                txid: *txid,
                index: number_of(index)?,
            };
            take_coin(coins, &key)?;
        }
    }
    Ok(())
}
