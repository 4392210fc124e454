//! Coins in memory.

ghost use Rattle.std.specs.Prelude.{◌≡◌, IfOk, IfSome, OnOk, OnErr};
ghost use Rattle.std.specs.Option.{option_copied};
ghost use Rattle.std.specs.BTreeMap as tree;
ghost use Rattle.std.specs.FinMap as finite;
ghost use Rattle.base_types.specs.Coins.{CoinFits};
ghost use Rattle.base_types.specs.Keys.{outpoint_cmp};

use base_types::{Coin, Keys, OutPoint};
use std::alloc::{AllocError, Global};
use std::collections::BTreeMap;
use std::marker::Model;

/// Coins by their outpoints, in memory alone. Each fits its ranges.
#[derive(Debug, Drop)]
pub struct Plain {
    coins: BTreeMap<OutPoint, Coin>,
    alloc: Global,
}

impl Model for Plain {
    ghost use Rattle.std.specs.FinMap as finite;
    ghost use Rattle.base_types.specs.Coins.{Coins};
    ghost use Rattle.base_types.specs.Codes.{coins_code};

    ghost Value = { Coins };

    ghost coded = { coins_code };

    ghost view = { λ plain. finite.from_entries plain.coins.entries };

    ghost use Rattle.chain_model.specs.Changes.{CoinsFit};

    ghost invariant = { λ plain. CoinsFit (finite.from_entries plain.coins.entries) };
}

impl Plain {
    /// No coins, which takes no memory.
    pub fn new(alloc: Global) -> Self
        ensures { result ≡ finite.empty }
    {
        Plain {
            coins: BTreeMap::new(alloc),
            alloc,
        }
    }

    /// The coin of an outpoint, if there is one.
    pub fn get(&self, key: &OutPoint) -> Option<&Coin>
        ensures coin { option_copied result ≡ finite.get self.now key.now }
        ensures fits { IfSome result (λ coin. CoinFits coin.now) }
    {
        self.coins.get(key)
    }

    /// Puts a coin at an outpoint, in place of one that was there. Where memory runs out the coins stay as they were.
    pub fn put(&mut self, key: OutPoint, coin: Coin) -> Result<(), AllocError>
        requires { CoinFits coin }
        ensures ok { OnOk result (self.new ≡ finite.insert self.old key coin) }
        ensures err { OnErr result (self.new ≡ self.old) }
    {
        self.coins.insert(key, coin)?;
        Ok(())
    }

    /// Takes the coin of an outpoint away, if there is one.
    pub(crate) fn take(&mut self, key: &OutPoint)
        ensures { self.new ≡ finite.remove self.old key.now }
    {
        self.coins.remove(key);
    }

    /// The number of coins.
    pub fn count(&self) -> u64
        ensures { result ≡ finite.len self.now }
    {
        self.coins.len() as u64
    }

    /// The outpoints of the coins, in their order.
    pub fn outpoints(&self) -> Result<Keys, AllocError>
        ensures { IfOk result (λ keys. keys ≡ finite.keys self.now) }
    {
        Ok(Keys::from(keys_of(self.alloc, &self.coins)?))
    }

    /// The same coins in memory of their own.
    pub(crate) fn copy(&self) -> Result<Plain, AllocError>
        ensures { IfOk result (λ plain. plain ≡ self.now) }
    {
        Ok(Plain {
            coins: self.coins.clone()?,
            alloc: self.alloc,
        })
    }
}

fn keys_of(alloc: Global, coins: &BTreeMap<OutPoint, Coin>) -> Result<Vec<OutPoint>, AllocError>
    ensures keys { IfOk result (λ keys. keys.items ≡ tree.keys coins.now) }
    ensures ordered { tree.IsOrdered outpoint_cmp coins.now }
{
    coins.keys().copied().collect(alloc)
}
