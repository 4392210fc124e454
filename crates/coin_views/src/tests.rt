ghost use Rattle.base_types.specs.Coins.{CoinFits};

use super::*;
use base_types::{Coin, CoinEdit, OutPoint, Salt, Script, StoreFault, View, hash_twice};
use coin_cache::Cache;
use std::alloc::Global;
use std::test::Fail;

const SALT: Salt = Salt { a: 3, b: 5 };

// A view with one coin at every outpoint, which counts how often it is asked, and fails at the second call.
#[derive(Drop)]
struct Counted {
    alloc: Global,
    calls: u64,
}

fn coin_of(alloc: Global, value: u32) -> Coin
    ensures { CoinFits result }
{
    Coin {
        value: value as u64,
        script: Script::new(alloc),
        height: 7,
        coinbase: false,
    }
}

impl View for Counted {
    ghost use Rattle.std.specs.Prelude.{⊤, None, []};

    ghost coins = { λ _. None };

    ghost counts = { λ _. record { faults = 0; broken = []; entries = 0 } };

    ghost behind = { λ _ _ _. ⊤ };

    ghost behind_none = { λ _ _. tt };

    ghost behind_then = { λ _ _ _ _ _ _. tt };

    fn get(&mut self, _key: &OutPoint) -> Result<Option<Coin>, StoreFault> {
        self.calls = self.calls.saturating_add(1);
        if self.calls == 2 {
            return Err(StoreFault::NoMemory);
        }
        Ok(Some(coin_of(self.alloc, 5)))
    }
}

fn key_of(number: u32) -> OutPoint {
    OutPoint {
        txid: hash_twice(&number.to_le_bytes()),
        index: number,
    }
}

// The value of a coin that was answered; 0 for none, and 1 for a fault.
fn value_of(answered: Result<Option<Coin>, StoreFault>) -> u64 {
    match answered {
        Ok(Some(coin)) => coin.value,
        Ok(None) => 0,
        Err(_) => 1,
    }
}

// What is done over a view, whose second call fails: a coin is spent and one added.
fn edit<E: CoinEdit>(alloc: Global, coins: &mut E) -> [u64; 5] {
    let first = value_of(coins.spend(&key_of(1)));
    let failed = value_of(coins.get(&key_of(2)));
    let again = value_of(coins.get(&key_of(1)));
    let added = match coins.add(&key_of(2), coin_of(alloc, 9), true) {
        Ok(()) => 0,
        Err(_) => 1,
    };
    [first, failed, again, added, value_of(coins.get(&key_of(2)))]
}

// A call that fails in between changes nothing, and a coin is asked for once.
#[test]
fn edits_over_a_view_that_fails_once(rt: HostRuntime) -> Result<(), Fail> {
    let mut under = Counted {
        alloc: rt.alloc(),
        calls: 0,
    };
    let mut cache = Cache::new(rt.alloc(), &SALT);
    let answers = edit(rt.alloc(), &mut Over::new(&mut cache, &mut under));
    assert_eq!(rt; answers, [5, 1, 0, 0, 9]);
    assert_eq!(rt; (under.calls, cache.entries(), cache.dirty()), (2, 2, 2));
    Ok(())
}

// What the block view has is dropped. The coin that was fetched for it stays in the tip cache.
#[test]
fn drops_what_was_spent(rt: HostRuntime) -> Result<(), Fail> {
    let mut under = Counted {
        alloc: rt.alloc(),
        calls: 2,
    };
    let mut layers = Layers::new(rt.alloc(), &SALT);
    let spent = value_of(layers.block_view(&mut under).spend(&key_of(1)));
    layers.drop_top();
    let cache = layers.tip_cache();
    assert_eq!(rt; (spent, cache.entries(), cache.dirty()), (5, 1, 0));
    Ok(())
}

// It is taken over into the tip cache.
#[test]
fn commits_what_was_spent(rt: HostRuntime) -> Result<(), Fail> {
    let mut under = Counted {
        alloc: rt.alloc(),
        calls: 2,
    };
    let mut layers = Layers::new(rt.alloc(), &SALT);
    let spent = value_of(layers.block_view(&mut under).spend(&key_of(1)));
    let Ok(()) = layers.commit() else {
        return Err(Fail::from("no memory"));
    };
    let cache = layers.tip_cache();
    assert_eq!(rt; (spent, cache.entries(), cache.dirty()), (5, 1, 1));
    Ok(())
}
