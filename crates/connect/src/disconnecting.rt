//! Taking a block back.

ghost use Rattle.std.specs.Prelude.{◌≡◌, ◌*◌, List, All, Ok, Some, OnOk, length, map, sum_by, option_map};
ghost use Rattle.std.specs.List.{flat_map};
ghost use Rattle.base_types.specs.Coins.{Coins, CoinFits};
ghost use Rattle.base_types.specs.Views.{FindsFault};
ghost use Rattle.base_types.specs.declared.hash.OutPoint.{OutPoint as Key};
ghost use Rattle.block_codec.specs.Text.{txid_of};
ghost use Rattle.chain_model.specs.Apply.{outcome, undo_of};
ghost use Rattle.chain_model.specs.Editing.{Among, EditsOnly};
ghost use Rattle.chain_model.specs.Laws.{inputs_named, outputs_named, named_by};
ghost use Rattle.chain_model.specs.Tree.{Tree};
ghost use Rattle.connect.specs.Rolling.{all_taken_back, calls_back, calls_to_take_back, given_back, rolled_back, taken_back};

use base_types::{Coin, CoinEdit, Hash32, StoreFault};
use block_codec::{HashedBlock, Tx, TxIn};
use chain_model::{BlockUndo, SpentCoins, put_coin, take_outputs};

/// The coins before a block, where they are those after it and the undo data is its own.
pub fn disconnect<E: CoinEdit>(
    coins: &mut E,
    block: &HashedBlock,
    undo: &BlockUndo,
) -> Result<(), StoreFault>
    requires { All (λ spent. All CoinFits spent) undo.now }
    ensures before { (tree : Tree) (before after : Coins) → E.coins coins.old ≡ Some after → outcome tree before block.now ≡ Ok after → undo.now ≡ undo_of tree before block.now → OnOk result (E.coins coins.new ≡ Some before) }
    ensures untouched { EditsOnly (named_by block.now) (E.coins coins.old) (E.coins coins.new) }
    ensures cause { FindsFault (calls_back block.now.txs) (E.counts coins.old) (E.counts coins.new) result }
    ensures behind { (keys : List Key) → Among keys (named_by block.now) → E.behind keys coins.old coins.new }
{
    roll_back(coins, block, undo)
}

/// Takes a block back, whatever the coins are: from the last transaction to the first its outputs leave the coins, and the
/// coins that its inputs spent are there again.
pub fn roll_back<E: CoinEdit>(
    coins: &mut E,
    block: &HashedBlock,
    undo: &BlockUndo,
) -> Result<(), StoreFault>
    requires { All (λ spent. All CoinFits spent) undo.now }
    ensures coins { OnOk result (E.coins coins.new ≡ option_map (rolled_back block.now.txs undo.now) (E.coins coins.old)) }
    ensures untouched { EditsOnly (named_by block.now) (E.coins coins.old) (E.coins coins.new) }
    ensures cause { FindsFault (calls_back block.now.txs) (E.counts coins.old) (E.counts coins.new) result }
    ensures behind { (keys : List Key) → Among keys (named_by block.now) → E.behind keys coins.old coins.new }
{
    let [coinbase, others @ ..] = block.block().txs.as_slice() else {
        return Ok(());
    };
    let txids = block.txids();
    take_back_all(coins, others, &txids[1..], undo.as_slice())?;
    take_outputs(coins, coinbase, &txids[0])
}

// Takes back transactions which aren't coinbases, from the last to the first.
fn take_back_all<E: CoinEdit>(
    coins: &mut E,
    txs: &[Tx],
    txids: &[Hash32],
    undo: &[SpentCoins],
) -> Result<(), StoreFault>
    requires txids { txids.now ≡ map txid_of txs.now }
    requires fits { All (λ spent. All CoinFits spent) undo.now }
    ensures coins { OnOk result (E.coins coins.new ≡ option_map (all_taken_back txs.now undo.now) (E.coins coins.old)) }
    ensures cause { FindsFault (sum_by calls_to_take_back txs.now) (E.counts coins.old) (E.counts coins.new) result }
    ensures within { (keys : List Key) → Among keys (flat_map inputs_named txs.now) → Among keys (flat_map outputs_named txs.now) → E.behind keys coins.old coins.new × EditsOnly keys (E.coins coins.old) (E.coins coins.new) }
{
    let mut left = txs.len().min(undo.len());
    while left > 0 {
        left -= 1;
        take_back(coins, &txs[left], &txids[left], undo[left].as_slice())?;
    }
    Ok(())
}

// Takes back a transaction which isn't a coinbase.
fn take_back<E: CoinEdit>(
    coins: &mut E,
    tx: &Tx,
    txid: &Hash32,
    spent: &[Coin],
) -> Result<(), StoreFault>
    requires txid { txid.now ≡ txid_of tx.now }
    requires fits { All CoinFits spent.now }
    ensures coins { OnOk result (E.coins coins.new ≡ option_map (taken_back tx.now spent.now) (E.coins coins.old)) }
    ensures cause { FindsFault (calls_to_take_back tx.now) (E.counts coins.old) (E.counts coins.new) result }
    ensures within { (keys : List Key) → Among keys (inputs_named tx.now) → Among keys (outputs_named tx.now) → E.behind keys coins.old coins.new × EditsOnly keys (E.coins coins.old) (E.coins coins.new) }
{
    take_outputs(coins, tx, txid)?;
    give_back(coins, tx.inputs.as_slice(), spent)
}

// Puts back the coins that inputs spent, from the last input to the first.
fn give_back<E: CoinEdit>(coins: &mut E, inputs: &[TxIn], spent: &[Coin]) -> Result<(), StoreFault>
    requires { All CoinFits spent.now }
    ensures coins { OnOk result (E.coins coins.new ≡ option_map (given_back inputs.now spent.now) (E.coins coins.old)) }
    ensures cause { FindsFault (2 * length inputs.now) (E.counts coins.old) (E.counts coins.new) result }
    ensures within { (keys : List Key) → Among keys (map (λ input. input.prev) inputs.now) → E.behind keys coins.old coins.new × EditsOnly keys (E.coins coins.old) (E.coins coins.new) }
{
    let mut left = inputs.len().min(spent.len());
    while left > 0 {
        left -= 1;
        put_coin(coins, &inputs[left].prev, spent[left].copy()?)?;
    }
    Ok(())
}
