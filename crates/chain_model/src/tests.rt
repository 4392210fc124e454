ghost use Rattle.std.specs.Prelude.{IfOk};
ghost use Rattle.base_types.specs.Coins.{CoinFits};
ghost use Rattle.chain_model.specs.Connecting.{IsPayable};

use crate::applying::apply;
use crate::fault::ApplyFault;
use crate::plain::Plain;
use crate::proof_of_work::meets_target;
use crate::replaying::replay;
use crate::tree_view::TreeView;
use base_types::{Coin, CoinRefused, Hash32, OutPoint, Rules, Script, TARGET, TxOut};
use block_codec::{
    Block, GENESIS, Header, Inputs, Outputs, Stack, Tx, TxIn, Txs, genesis_hash, txids,
};
use std::alloc::{AllocError, Global};
use std::test::Fail;

const ZERO: Hash32 = Hash32 { bytes: [0; 32] };

const NOTHING: OutPoint = OutPoint {
    txid: ZERO,
    index: u32::MAX,
};

const RULES: Rules = Rules {
    version4: 1,
    bip34: 1,
    csv: 1,
    segwit: 1,
};

// A tree without headers: every median time is 0.
#[derive(Clone, Copy)]
struct NoTree {
    rules: Rules,
}

impl TreeView for NoTree {
    ghost use Rattle.std.specs.FinMap as finite;

    ghost tree = { λ fake. record { headers = finite.empty; rules = fake.rules } };

    fn header(&self, _hash: &Hash32) -> Option<&Header> {
        None
    }

    fn height(&self, _hash: &Hash32) -> Option<u32> {
        None
    }

    fn ancestor(&self, _hash: &Hash32, _height: u32) -> Option<Hash32> {
        None
    }

    fn median_time(&self, _hash: &Hash32) -> Option<u32> {
        None
    }

    fn rules(&self) -> &Rules {
        &self.rules
    }
}

// A transaction that spends an output for one of so many satoshis.
#[tactic(auto, unfolding(crate::specs::BodyRules::has_twin_inputs))]
fn tx_of(alloc: Global, prev: OutPoint, value: u32) -> Result<Tx, AllocError>
    ensures { IfOk result IsPayable }
{
    let mut inputs = Inputs::new(alloc);
    inputs.push(TxIn {
        prev,
        script: Script::new(alloc),
        sequence: 0,
        stack: Stack::new(alloc),
    })?;
    let mut outputs = Outputs::new(alloc);
    outputs.push(TxOut {
        value: i64::from(value),
        script: Script::from_slice(alloc, &[0x51])?,
    })?;
    Ok(Tx {
        version: 2,
        inputs,
        outputs,
        lock_time: 0,
    })
}

fn coin_of(alloc: Global, value: u32) -> Coin
    ensures { CoinFits result }
{
    Coin {
        value: u64::from(value),
        script: Script::new(alloc),
        height: 0,
        coinbase: false,
    }
}

// Coins by their outpoints, in their order; the second coin of an outpoint takes the place of the first.
#[test]
fn plain_coins(rt: HostRuntime) -> Result<(), Fail> {
    let key = OutPoint {
        txid: ZERO,
        index: 1,
    };
    let mut coins = Plain::new(rt.alloc());
    coins.put(NOTHING, coin_of(rt.alloc(), 5))?;
    coins.put(key, coin_of(rt.alloc(), 7))?;
    coins.put(key, coin_of(rt.alloc(), 8))?;
    assert_eq!(rt; coins.count(), 2);
    assert_eq!(rt; coins.outpoints()?.as_slice(), [key, NOTHING].as_slice());
    assert!(rt; matches!(coins.get(&key), Some(coin) if coin.value == 8));
    Ok(())
}

// A block of height 1 that spends a coin is applied once; the second time its outputs would take the place of coins.
#[test]
fn a_block_twice(rt: HostRuntime) -> Result<(), Fail> {
    let tree = NoTree { rules: RULES };
    let key = OutPoint {
        txid: ZERO,
        index: 1,
    };
    let mut coins = Plain::new(rt.alloc());
    coins.put(key, coin_of(rt.alloc(), 60))?;
    let mut txs = Txs::new(rt.alloc());
    txs.push(tx_of(rt.alloc(), NOTHING, 1)?)?;
    txs.push(tx_of(rt.alloc(), key, 60)?)?;
    let txids = txids(rt.alloc(), txs.as_slice())?;
    let block = Block {
        header: GENESIS,
        txs,
    };
    let first = apply(rt.alloc(), &mut coins, &block, &txids, &tree);
    assert_eq!(rt; first, Ok(()));
    assert_eq!(rt; coins.count(), 2);
    let second = apply(rt.alloc(), &mut coins, &block, &txids, &tree);
    assert_eq!(rt; second, Err(ApplyFault::Refused(CoinRefused::Bip30)));
    let copy = replay(rt.alloc(), &coins, &[], &tree);
    assert!(rt; matches!(&copy, Ok(same) if same.count() == 2));
    Ok(())
}

#[test]
fn the_target(rt: HostRuntime) -> Result<(), Fail> {
    let mut above = TARGET;
    above[0] = 1;
    assert_eq!(rt; meets_target(&genesis_hash()), true);
    assert_eq!(rt; meets_target(&Hash32 { bytes: TARGET }), true);
    assert_eq!(rt; meets_target(&Hash32 { bytes: above }), false);
    Ok(())
}
