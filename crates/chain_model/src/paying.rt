//! The rules of coins on a block, over any coins that can be changed (`ConnectBlock` in Bitcoin Core's `validation.cpp`).

ghost use Rattle.std.specs.Prelude.{◌≡◌, ◌≤◌, ◌+◌, ◌<◌, ◌^◌, List, All, Ok, Err, IfOk, IfSome, map, sum_by, option_map};
ghost use Rattle.std.specs.List.{flat_map};
ghost use Rattle.base_types.specs.Coins.{Coins, CoinFits};
ghost use Rattle.base_types.specs.Parameters.{max_money};
ghost use Rattle.base_types.specs.Views.{FindsFault};
ghost use Rattle.base_types.specs.declared.hash.OutPoint.{OutPoint as Key};
ghost use Rattle.base_types.specs.declared.refused.CoinRefused.{CoinRefused as Rule};
ghost use Rattle.block_codec.specs.Text.{txid_of};
ghost use Rattle.chain_model.specs.Apply.{after_all, after_tx, after_txs, outcome, spent_and_made, spent_in, undo_of, undo_of_txs};
ghost use Rattle.chain_model.specs.BodyRules.{others_of};
ghost use Rattle.chain_model.specs.Coins.{spent_by};
ghost use Rattle.chain_model.specs.Connecting.{IsPayable, Leads, OnRefusal, RefusedFor, asked_by, calls_of, calls_of_txs, calls_to_pay, store_part};
ghost use Rattle.chain_model.specs.Editing.{Among, EditsOnly};
ghost use Rattle.chain_model.specs.Laws.{inputs_named, outputs_named, named_by};

use crate::context::Context;
use crate::editing::{make_outputs, spend_inputs};
use crate::fault::ConnectFault;
use crate::outputs::value_of;
use crate::overwriting::overwrites;
use crate::spending::fees_after;
use crate::tree_view::TreeView;
use crate::undo::{BlockUndo, SpentCoins};
use base_types::{CoinEdit, CoinRefused, Hash32, subsidy};
use block_codec::{Block, Tx};
use std::alloc::Global;

// The fees so far, and the coins that a transaction spends.
#[derive(Drop)]
struct Payment {
    fees: u64,
    spent: SpentCoins,
}

// The fees of transactions, and the coins that each spends.
#[derive(Drop)]
struct Payments {
    fees: u64,
    undo: BlockUndo,
}

/// Applies a block, whose txids these are, to coins. `Refused` has the first rule that it breaks. The coins may hold part of
/// the block then, as they may after a fault of the store.
pub fn apply_over<E: CoinEdit, T: TreeView>(
    alloc: Global,
    coins: &mut E,
    tree: &T,
    block: &Block,
    txids: &[Hash32],
) -> Result<BlockUndo, ConnectFault>
    requires txids { txids.now ≡ map txid_of block.now.txs }
    requires payable { All IsPayable block.now.txs }

    // The coins after the block and what it spent, or the rule that it breaks, and the other way round.
    ensures ok { IfOk result (λ _. Leads (λ before. outcome (T.tree tree.now) before block.now) (E.coins coins.old) (E.coins coins.new)) }
    ensures undo { IfOk result (λ undo. IfSome (E.coins coins.old) (λ before. undo ≡ undo_of (T.tree tree.now) before block.now)) }
    ensures refused { OnRefusal result (λ rule. IfSome (E.coins coins.old) (λ before. outcome (T.tree tree.now) before block.now ≡ Err rule)) }
    ensures only { (before : Coins) (rule : Rule) → E.coins coins.old ≡ Some before → outcome (T.tree tree.now) before block.now ≡ Err rule → RefusedFor result rule }

    // What holds of every end.
    ensures fits { IfOk result (λ undo. All (λ spent. All CoinFits spent) undo) }
    ensures untouched { EditsOnly (named_by block.now) (E.coins coins.old) (E.coins coins.new) }
    ensures cause { FindsFault (calls_of block.now.txs) (E.counts coins.old) (E.counts coins.new) (store_part result) }
    ensures behind { (keys : List Key) → Among keys (asked_by block.now) → E.behind keys coins.old coins.new }
{
    let context = Context::below(tree, &block.header.prev)?;
    if overwrites(coins, block.txs.as_slice(), txids)? {
        return Err(ConnectFault::Refused(CoinRefused::Bip30));
    }
    pay_block(alloc, &context, coins, block.txs.as_slice(), txids)
}

// The same of transactions of which none takes the place of a coin. The first is the coinbase.
fn pay_block<E: CoinEdit, T: TreeView>(
    alloc: Global,
    context: &Context<T>,
    coins: &mut E,
    txs: &[Tx],
    txids: &[Hash32],
) -> Result<BlockUndo, ConnectFault>
    requires txids { txids.now ≡ map txid_of txs.now }
    requires payable { All IsPayable txs.now }
    requires height { context.now.height < 2 ^ 31 }
    ensures ok { IfOk result (λ _. Leads (λ before. after_all (record { tree = T.tree context.now.tree.now; parent = context.now.parent.now; at = context.now.height }) before txs.now) (E.coins coins.old) (E.coins coins.new)) }
    ensures undo { IfOk result (λ undo. IfSome (E.coins coins.old) (λ before. undo ≡ undo_of_txs context.now.height before txs.now)) }
    ensures refused { OnRefusal result (λ rule. IfSome (E.coins coins.old) (λ before. after_all (record { tree = T.tree context.now.tree.now; parent = context.now.parent.now; at = context.now.height }) before txs.now ≡ Err rule)) }
    ensures fits { IfOk result (λ undo. All (λ spent. All CoinFits spent) undo) }
    ensures cause { FindsFault (calls_of_txs txs.now) (E.counts coins.old) (E.counts coins.new) (store_part result) }
    ensures within { (keys : List Key) → Among keys (flat_map inputs_named (others_of txs.now)) → Among keys (flat_map outputs_named txs.now) → E.behind keys coins.old coins.new × EditsOnly keys (E.coins coins.old) (E.coins coins.new) }
{
    let [coinbase, others @ ..] = txs else {
        return Ok(BlockUndo::new(alloc));
    };
    make_outputs(coins, coinbase, &txids[0], context.height)?;
    let paid = pay_all(alloc, context, coins, others, &txids[1..])?;
    if paid.fees + subsidy(context.height) < value_of(coinbase.outputs.as_slice()) {
        return Err(ConnectFault::Refused(CoinRefused::CoinbaseAmount));
    }
    Ok(paid.undo)
}

// Applies transactions which aren't coinbases, one after the other.
fn pay_all<E: CoinEdit, T: TreeView>(
    alloc: Global,
    context: &Context<T>,
    coins: &mut E,
    txs: &[Tx],
    txids: &[Hash32],
) -> Result<Payments, ConnectFault>
    requires txids { txids.now ≡ map txid_of txs.now }
    requires payable { All IsPayable txs.now }
    requires height { context.now.height < 2 ^ 31 }
    ensures ok { IfOk result (λ paid. option_map (λ before. after_txs (record { tree = T.tree context.now.tree.now; parent = context.now.parent.now; at = context.now.height }) (record { coins = before; fees = 0 }) txs.now) (E.coins coins.old) ≡ option_map (λ after. Ok (record { coins = after; fees = paid.fees })) (E.coins coins.new)) }
    ensures in_range { IfOk result (λ paid. paid.fees ≤ max_money) }
    ensures undo { IfOk result (λ paid. IfSome (E.coins coins.old) (λ before. paid.undo ≡ spent_in context.now.height before txs.now)) }
    ensures refused { OnRefusal result (λ rule. IfSome (E.coins coins.old) (λ before. after_txs (record { tree = T.tree context.now.tree.now; parent = context.now.parent.now; at = context.now.height }) (record { coins = before; fees = 0 }) txs.now ≡ Err rule)) }
    ensures fits { IfOk result (λ paid. All (λ spent. All CoinFits spent) paid.undo) }
    ensures cause { FindsFault (sum_by calls_to_pay txs.now) (E.counts coins.old) (E.counts coins.new) (store_part result) }
    ensures within { (keys : List Key) → Among keys (flat_map inputs_named txs.now) → Among keys (flat_map outputs_named txs.now) → E.behind keys coins.old coins.new × EditsOnly keys (E.coins coins.old) (E.coins coins.new) }
{
    let mut fees = 0u64;
    let mut undo = BlockUndo::new(alloc);
    for (tx, txid) in txs.iter().zip(txids) {
        let paid = pay(alloc, context, coins, fees, tx, txid)?;
        fees = paid.fees;
        undo.push(paid.spent)?;
    }
    Ok(Payments { fees, undo })
}

// Applies a transaction which isn't a coinbase, where so much was paid in fees before it.
fn pay<E: CoinEdit, T: TreeView>(
    alloc: Global,
    context: &Context<T>,
    coins: &mut E,
    fees: u64,
    tx: &Tx,
    txid: &Hash32,
) -> Result<Payment, ConnectFault>
    requires fees { fees ≤ max_money }
    requires txid { txid.now ≡ txid_of tx.now }
    requires payable { IsPayable tx.now }
    requires height { context.now.height < 2 ^ 31 }
    ensures ok { IfOk result (λ paid. IfSome (E.coins coins.old) (λ before. after_tx (record { tree = T.tree context.now.tree.now; parent = context.now.parent.now; at = context.now.height }) (record { coins = before; fees = fees }) tx.now ≡ Ok (record { coins = spent_and_made context.now.height tx.now before; fees = paid.fees }))) }
    ensures coins { IfOk result (λ _. E.coins coins.new ≡ option_map (spent_and_made context.now.height tx.now) (E.coins coins.old)) }
    ensures in_range { IfOk result (λ paid. paid.fees ≤ max_money) }
    ensures spent { IfOk result (λ paid. IfSome (E.coins coins.old) (λ before. spent_by before tx.now.inputs ≡ Some paid.spent)) }
    ensures refused { OnRefusal result (λ rule. IfSome (E.coins coins.old) (λ before. after_tx (record { tree = T.tree context.now.tree.now; parent = context.now.parent.now; at = context.now.height }) (record { coins = before; fees = fees }) tx.now ≡ Err rule)) }
    ensures fits { IfOk result (λ paid. All CoinFits paid.spent) }
    ensures cause { FindsFault (calls_to_pay tx.now) (E.counts coins.old) (E.counts coins.new) (store_part result) }
    ensures within { (keys : List Key) → Among keys (inputs_named tx.now) → Among keys (outputs_named tx.now) → E.behind keys coins.old coins.new × EditsOnly keys (E.coins coins.old) (E.coins coins.new) }
{
    let Some(spent) = spend_inputs(alloc, coins, tx.inputs.as_slice())? else {
        return Err(ConnectFault::Refused(CoinRefused::MissingInput));
    };
    let fees = fees_after(context, fees, tx, spent.as_slice())?;
    make_outputs(coins, tx, txid, context.height)?;
    Ok(Payment { fees, spent })
}
