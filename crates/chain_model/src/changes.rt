//! What one block does to coins, kept beside them until it is known that the block may do it.

ghost use Rattle.std.specs.Prelude.{◌≡◌, Some, None, IfSome, OnOk, OnErr};
ghost use Rattle.std.specs.Option.{option_copied};
ghost use Rattle.std.specs.FinMap as finite;
ghost use Rattle.base_types.specs.Coins.{CoinFits};
ghost use Rattle.chain_model.specs.Changes.{with_changes};

use crate::plain::Plain;
use base_types::{Coin, OutPoint};
use std::alloc::{AllocError, Global};
use std::collections::BTreeMap;
use std::marker::Model;

/// At each outpoint that a block has named so far, the coin that it leaves there, or none.
#[derive(Debug, Drop)]
pub(crate) struct Changes {
    changed: BTreeMap<OutPoint, Option<Coin>>,
}

impl Model for Changes {
    ghost use Rattle.std.specs.FinMap as finite;
    ghost use Rattle.chain_model.specs.Changes.{Changes, changes_code};

    ghost Value = { Changes };

    ghost coded = { changes_code };

    ghost view = { λ changes. finite.from_entries changes.changed.entries };

    ghost use Rattle.chain_model.specs.Changes.{ChangesFit};

    ghost invariant = { λ changes. ChangesFit (finite.from_entries changes.changed.entries) };
}

impl Changes {
    /// No changes, which takes no memory.
    pub(crate) fn new(alloc: Global) -> Self
        ensures { result ≡ finite.empty }
    {
        Changes {
            changed: BTreeMap::new(alloc),
        }
    }

    /// The coin of an outpoint after these changes to coins.
    pub(crate) fn coin<'a>(&'a self, coins: &'a Plain, key: &OutPoint) -> Option<&'a Coin>
        ensures coin { option_copied result ≡ finite.get (with_changes self.now coins.now) key.now }
        ensures fits { IfSome result (λ coin. CoinFits coin.now) }
    {
        match self.changed.get(key) {
            Some(change) => change.as_ref(),
            None => coins.get(key),
        }
    }

    /// Puts a coin at an outpoint. Where memory runs out the changes stay as they were.
    pub(crate) fn make(&mut self, key: OutPoint, coin: Coin) -> Result<(), AllocError>
        requires { CoinFits coin }
        ensures ok { OnOk result (self.new ≡ finite.insert self.old key (Some coin)) }
        ensures err { OnErr result (self.new ≡ self.old) }
    {
        self.changed.insert(key, Some(coin))?;
        Ok(())
    }

    /// Takes the coin of an outpoint away. Where memory runs out the changes stay as they were.
    pub(crate) fn spend(&mut self, key: OutPoint) -> Result<(), AllocError>
        ensures ok { OnOk result (self.new ≡ finite.insert self.old key None) }
        ensures err { OnErr result (self.new ≡ self.old) }
    {
        self.changed.insert(key, None)?;
        Ok(())
    }

    /// Makes the changes to coins.
    pub(crate) fn merge_into(self, coins: &mut Plain) -> Result<(), AllocError>
        ensures { OnOk result (coins.new ≡ with_changes self coins.old) }
    {
        for (key, change) in self.changed {
            match change {
                Some(coin) => coins.put(key, coin)?,
                None => coins.take(&key),
            }
        }
        Ok(())
    }
}
