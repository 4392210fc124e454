//! Outputs whose outpoints have coins already (BIP 30).

ghost use Rattle.std.specs.Prelude.{◌≡◌, List, length, IfOk, IfSome, map, sum_by};
ghost use Rattle.std.specs.List.{list_any, flat_map};
ghost use Rattle.std.specs.FinMap.{contains_key};
ghost use Rattle.base_types.specs.Views.{FindsFault};
ghost use Rattle.base_types.specs.declared.hash.OutPoint.{OutPoint as Key};
ghost use Rattle.block_codec.specs.Text.{txid_of};
ghost use Rattle.chain_model.specs.Coins.{numbered};
ghost use Rattle.chain_model.specs.Apply.{overwrites as some_overwritten};
ghost use Rattle.chain_model.specs.Connecting.{outputs_asked};
ghost use Rattle.chain_model.specs.Editing.{Among};

use crate::outputs::number_of;
use base_types::{Hash32, OutPoint, StoreFault, TxOut, View};
use block_codec::Tx;

/// Whether some output of the transactions, whether it can be spent or not, has its outpoint in the coins.
pub(crate) fn overwrites<V: View>(
    coins: &mut V,
    txs: &[Tx],
    txids: &[Hash32],
) -> Result<bool, StoreFault>
    requires { txids.now ≡ map txid_of txs.now }
    ensures found { IfOk result (λ found. IfSome (V.coins coins.old) (λ before. found ≡ some_overwritten before txs.now)) }
    ensures coins { V.coins coins.new ≡ V.coins coins.old }
    ensures cause { FindsFault (sum_by (λ tx. length tx.outputs) txs.now) (V.counts coins.old) (V.counts coins.new) result }
    ensures behind { (keys : List Key) → Among keys (flat_map outputs_asked txs.now) → V.behind keys coins.old coins.new }
{
    for (tx, txid) in txs.iter().zip(txids) {
        if has_output(coins, txid, tx.outputs.as_slice())? {
            return Ok(true);
        }
    }
    Ok(false)
}

fn has_output<V: View>(coins: &mut V, txid: &Hash32, outputs: &[TxOut]) -> Result<bool, StoreFault>
    ensures found { IfOk result (λ found. IfSome (V.coins coins.old) (λ before. found ≡ list_any (λ named. contains_key before named.0) (numbered txid.now 0 outputs.now))) }
    ensures coins { V.coins coins.new ≡ V.coins coins.old }
    ensures cause { FindsFault (length outputs.now) (V.counts coins.old) (V.counts coins.new) result }
    ensures behind { (keys : List Key) → Among keys (map (λ named. named.0) (numbered txid.now 0 outputs.now)) → V.behind keys coins.old coins.new }
{
    for index in 0..outputs.len() {
        let key = OutPoint {
            txid: *txid,
            index: number_of(index)?,
        };
        if coins.get(&key)?.is_some() {
            return Ok(true);
        }
    }
    Ok(false)
}
