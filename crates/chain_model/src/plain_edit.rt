//! Coins in memory under changes, as coins that can be changed.

ghost use Rattle.std.specs.Prelude.{◌≡◌, [], Some, refl};
ghost use Rattle.std.proofs.Common.{◌∙◌};
ghost use Rattle.std.specs.FinMap as finite;
ghost use Rattle.chain_model.specs.Changes.{with_changes};

use crate::changes::Changes;
use crate::plain::Plain;
use base_types::{Coin, CoinEdit, OutPoint, StoreFault, View};
use std::alloc::Global;

/// Coins that stay as they are, and what a block changes of them.
#[derive(Drop)]
pub(crate) struct PlainEdit<'a> {
    coins: &'a Plain,
    changes: Changes,
}

impl<'a> PlainEdit<'a> {
    /// These coins without changes.
    pub(crate) fn new(alloc: Global, coins: &'a Plain) -> Self
        ensures { (result.coins.now ≡ coins.now) × (result.changes ≡ finite.empty) }
    {
        PlainEdit {
            coins,
            changes: Changes::new(alloc),
        }
    }

    /// The changes alone.
    pub(crate) fn into_changes(self) -> Changes
        ensures { result ≡ self.entry.changes }
    {
        self.changes
    }
}

impl<'a> View for PlainEdit<'a> {
    ghost coins = { λ v. Some (with_changes v.changes v.coins.now) };

    ghost counts = { λ v. record { faults = 0; broken = []; entries = 0 } };

    ghost behind = { λ keys v w. w.coins.now ≡ v.coins.now };

    ghost behind_none = { λ keys v. refl };

    ghost behind_then = { λ keys u v w a b. b ∙ a };

    fn get(&mut self, key: &OutPoint) -> Result<Option<Coin>, StoreFault> {
        match self.changes.coin(self.coins, key) {
            Some(coin) => Ok(Some(coin.copy()?)),
            None => Ok(None),
        }
    }
}

impl<'a> CoinEdit for PlainEdit<'a> {
    fn add(&mut self, key: &OutPoint, coin: Coin, _may_overwrite: bool) -> Result<(), StoreFault> {
        Ok(self.changes.make(*key, coin)?)
    }

    fn spend(&mut self, key: &OutPoint) -> Result<Option<Coin>, StoreFault> {
        let coin = self.get(key)?;
        self.changes.spend(*key)?;
        Ok(coin)
    }
}
