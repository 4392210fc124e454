ghost use Rattle.base_types.specs.Coins.{CoinFits};

use super::*;
use base_types::{Coin, OutPoint, Salt, Script, StoreFault, View, hash_twice};
use std::alloc::{AllocError, Global};
use std::test::Fail;

const SALT: Salt = Salt {
    a: 0x0123_4567_89ab_cdef,
    b: 0xfedc_ba98_7654_3210,
};

// A view with one coin at every outpoint, which counts how often it is asked.
#[derive(Drop)]
struct Counted {
    alloc: Global,
    calls: u64,
}

fn coin_of(alloc: Global, value: u32) -> Coin
    ensures { CoinFits result }
{
    Coin {
        value: value as u64,
        script: Script::new(alloc),
        height: 7,
        coinbase: false,
    }
}

impl View for Counted {
    ghost use Rattle.std.specs.Prelude.{⊤, None, []};

    ghost coins = { λ _. None };

    ghost counts = { λ _. record { faults = 0; broken = []; entries = 0 } };

    ghost behind = { λ _ _ _. ⊤ };

    ghost behind_none = { λ _ _. tt };

    ghost behind_then = { λ _ _ _ _ _ _. tt };

    fn get(&mut self, _key: &OutPoint) -> Result<Option<Coin>, StoreFault> {
        self.calls = self.calls.saturating_add(1);
        Ok(Some(coin_of(self.alloc, 5)))
    }
}

fn key_of(number: u32) -> OutPoint {
    OutPoint {
        txid: hash_twice(&number.to_le_bytes()),
        index: number,
    }
}

// A cache with a coin under a flag at each of these numbers.
fn cache_of(alloc: Global, salt: &Salt, first: u32, end: u32) -> Result<Cache, StoreFault> {
    let mut cache = Cache::new(alloc, salt);
    for number in first..end {
        cache.add(&key_of(number), coin_of(alloc, number), false)?;
    }
    Ok(cache)
}

// A coin of the parent is asked for once, and spent.
#[test]
fn asks_once(rt: HostRuntime) -> Result<(), Fail> {
    let mut under = Counted {
        alloc: rt.alloc(),
        calls: 0,
    };
    let mut cache = Cache::new(rt.alloc(), &SALT);
    for _ in 0..3 {
        assert!(rt; cache.get(&mut under, &key_of(1)).is_ok());
    }
    assert_eq!(rt; under.calls, 1);
    assert_eq!(rt;
        cache.spend(&mut under, &key_of(1)),
        Ok(Some(coin_of(rt.alloc(), 5)))
    );
    assert_eq!(rt; cache.get(&mut under, &key_of(1)), Ok(None));
    assert_eq!(rt; (under.calls, cache.entries(), cache.dirty()), (1, 1, 1));
    cache.keep_clean();
    assert_eq!(rt; (cache.entries(), cache.dirty()), (0, 0));
    Ok(())
}

// Three hundred entries of a child are taken over.
#[test]
fn takes_over_a_child(rt: HostRuntime) -> Result<(), Fail> {
    let Ok(mut child) = cache_of(rt.alloc(), &SALT, 0, 300) else {
        return Err(Fail::from("no memory"));
    };
    let mut cache = Cache::new(rt.alloc(), &SALT);
    assert!(rt; cache.reserve(300).is_ok());
    if child.dirty() == 300 {
        cache.merge(&mut child);
    }
    assert_eq!(rt;
        (cache.entries(), child.entries(), child.dirty()),
        (300, 0, 0)
    );
    Ok(())
}

// A child's spent entry takes a fresh one away.
#[test]
fn forgets_a_fresh_coin_that_a_child_spends(rt: HostRuntime) -> Result<(), Fail> {
    let mut under = Counted {
        alloc: rt.alloc(),
        calls: 0,
    };
    let Ok(mut cache) = cache_of(rt.alloc(), &SALT, 1, 2) else {
        return Err(Fail::from("no memory"));
    };
    let mut child = Cache::new(rt.alloc(), &SALT);
    assert!(rt; child.spend(&mut under, &key_of(1)).is_ok());
    assert!(rt; cache.reserve(1).is_ok());
    if child.dirty() == 1 {
        cache.merge(&mut child);
    }
    assert_eq!(rt; (cache.entries(), cache.dirty()), (0, 0));
    assert!(rt; cache.first_change().is_none());
    Ok(())
}

// What is done at an outpoint.
#[derive(Clone, Copy)]
enum Call {
    Get(u32),
    Add(u32),
    Spend(u32),
}

const CALLS: [Call; 8] = [
    Call::Get(1),
    Call::Add(2),
    Call::Spend(1),
    Call::Get(1),
    Call::Spend(2),
    Call::Spend(2),
    Call::Add(1),
    Call::Get(1),
];

// The value of the coin that a call answers; 0 for none, and 1 for a fault.
fn answer(cache: &mut Cache, under: &mut Counted, call: Call) -> u64 {
    let answered = match call {
        Call::Get(number) => cache.get(under, &key_of(number)),
        Call::Spend(number) => cache.spend(under, &key_of(number)),
        Call::Add(number) => match cache.add(&key_of(number), coin_of(under.alloc, 9), true) {
            Ok(()) => Ok(None),
            Err(fault) => Err(fault),
        },
    };
    match answered {
        Ok(Some(coin)) => coin.value,
        Ok(None) => 0,
        Err(_) => 1,
    }
}

fn answers(alloc: Global, salt: &Salt) -> Result<Vec<u64>, AllocError> {
    let mut under = Counted { alloc, calls: 0 };
    let mut cache = Cache::new(alloc, salt);
    let mut values = Vec::new(alloc);
    for call in CALLS {
        values.push(answer(&mut cache, &mut under, call))?;
    }
    Ok(values)
}

// No answer hangs on the salt.
#[test]
fn answers_alike_with_another_salt(rt: HostRuntime) -> Result<(), Fail> {
    let expected = [5, 0, 5, 0, 9, 0, 0, 9];
    let values = answers(rt.alloc(), &SALT)?;
    assert_eq!(rt; values.as_slice(), expected.as_slice());
    let values = answers(rt.alloc(), &Salt { a: 0, b: 0 })?;
    assert_eq!(rt; values.as_slice(), expected.as_slice());
    Ok(())
}
