//! Coins are asked for, added and spent.

ghost use Rattle.std.specs.Prelude.{◌≡◌, ◌≢◌, ◌+◌, ◌<◌, ◌≤◌, ◌⊎◌, ℕ, true, false, List, Option, Some, None, IsSome, IfSome, Contains, OnOk, OnErr, IfOk, IfErr, IsErrOf, ◌↔◌, is_ok, option_map};
ghost use Rattle.std.specs.FinMap as map;
ghost use Rattle.base_types.specs.Coins.{Coins, CoinFits};
ghost use Rattle.base_types.specs.Views.{ViewCounts, AnswersCoin, FindsFault, HasNoCoin, with_coin, without_coin, max_entries};
ghost use Rattle.coin_cache.specs.Contents.{Entry, entry_without_flag};
ghost use Rattle.coin_cache.specs.Entries.{IsSound, IsSpent, KeepsEntries, entries_of, changed, is_fresh, means, StandsOver, AddsOnly, counts_over};
ghost use Rattle.coin_cache.specs.Flags.{ChangesOne};

use crate::cache::Cache;
use base_types::{Coin, OutPoint, StoreFault, View};
use slot_pool::Slot;

impl Cache {
    // A copy of the coin of an entry.
    fn coin_in(&self, slot: Slot) -> Result<Option<Coin>, StoreFault>
        requires { IsSome (map.get self.now.slots slot) }
        ensures coin { (x : Entry) → map.get self.now.slots slot ≡ Some x → IfOk result (λ coin. coin ≡ x.coin) }
        ensures cause { IfErr result (λ fault. fault ≡ StoreFault.NoMemory) }
    {
        match &self.entry(slot).coin {
            None => Ok(None),
            Some(coin) => match coin.copy() {
                Ok(copy) => Ok(Some(copy)),
                Err(_refused) => Err(StoreFault::NoMemory),
            },
        }
    }

    // Makes the parent's coin of an outpoint an entry, and answers it.
    #[tactic(auto, using(crate::proofs::Flags::one_same, crate::proofs::Flags::one_keeps, crate::proofs::Flags::one_after))]
    fn hold(&mut self, key: &OutPoint, coin: Coin) -> Result<Option<Coin>, StoreFault>
        requires free { (s : Slot) (x : Entry) → map.get self.old.slots s ≡ Some x → x.key ≢ key.now }
        requires sound { IsSound self.old }
        requires fits { CoinFits coin }
        ensures ok { IfOk result (λ answer. (answer ≡ Some coin) × (entries_of self.new ≡ map.insert (entries_of self.old) key.now (entry_without_flag key.now (Some coin) false))
            × (map.len self.new.slots ≡ map.len self.old.slots + 1)) }
        ensures err { OnErr result (KeepsEntries self.old self.new) }
        ensures changes { self.new.changes ≡ self.old.changes }
        ensures one { ChangesOne key.now self.old self.new }
        ensures cause { IfErr result (λ fault. (fault ≡ StoreFault.NoMemory) ⊎ ((fault ≡ StoreFault.CacheFull) × (max_entries < map.len self.old.slots + 1))) }
    {
        let copy = match coin.copy() {
            Ok(copy) => copy,
            Err(_refused) => return Err(StoreFault::NoMemory),
        };
        match self.reserve(1) {
            Ok(()) => {}
            Err(fault) => return Err(fault),
        }
        self.keep(*key, copy);
        Ok(Some(coin))
    }

    // The coin that the parent has of an outpoint without an entry.
    #[tactic(auto, using(crate::proofs::Flags::one_same))]
    fn fetch<V: View>(&mut self, under: &mut V, key: &OutPoint) -> Result<Option<Coin>, StoreFault>
        requires free { (s : Slot) (x : Entry) → map.get self.old.slots s ≡ Some x → x.key ≢ key.now }
        requires absent { map.get (entries_of self.old) key.now ≡ None }
        requires sound { IsSound self.old }
        ensures coin { AnswersCoin (means self.old (V.coins under.old)) key.now result }
        ensures fits { IfOk result (λ coin. IfSome coin CoinFits) }
        ensures coins { means self.new (V.coins under.new) ≡ means self.old (V.coins under.old) }
        ensures parent { V.coins under.new ≡ V.coins under.old }
        ensures stands { StandsOver self.old (V.coins under.old) → StandsOver self.new (V.coins under.new) }
        ensures held { IfOk result (λ coin. IsSome coin → map.contains_key (entries_of self.new) key.now ≡ true) }
        ensures entries { (keys : List OutPoint) → Contains keys key.now → AddsOnly keys self.old self.new }
        ensures one { ChangesOne key.now self.old self.new }
        ensures changes { self.new.changes ≡ self.old.changes }
        ensures cause { FindsFault 1 (counts_over self.old (V.counts under.old)) (counts_over self.new (V.counts under.new)) result }
        ensures behind { (keys : List OutPoint) → Contains keys key.now → V.behind keys under.old under.new }
    {
        match under.get(key) {
            Ok(None) => Ok(None),
            Ok(Some(coin)) => self.hold(key, coin),
            Err(fault) => Err(fault),
        }
    }

    /// The coin of an outpoint, if there is one, by its entry, or else by the parent, whose coin becomes an entry.
    #[tactic(auto, using(crate::proofs::Flags::one_same))]
    pub fn get<V: View>(
        &mut self,
        under: &mut V,
        key: &OutPoint,
    ) -> Result<Option<Coin>, StoreFault>
        ensures coin { AnswersCoin (means self.old (V.coins under.old)) key.now result }
        ensures fits { IfOk result (λ coin. IfSome coin CoinFits) }
        ensures coins { means self.new (V.coins under.new) ≡ means self.old (V.coins under.old) }
        ensures parent { V.coins under.new ≡ V.coins under.old }
        ensures stands { StandsOver self.old (V.coins under.old) → StandsOver self.new (V.coins under.new) }
        ensures hit { map.contains_key (entries_of self.old) key.now ≡ true → (under.new ≡ under.old) × (self.new ≡ self.old) }
        ensures held { IfOk result (λ coin. IsSome coin → map.contains_key (entries_of self.new) key.now ≡ true) }
        ensures entries { (keys : List OutPoint) → Contains keys key.now → AddsOnly keys self.old self.new }
        ensures one { ChangesOne key.now self.old self.new }
        ensures changes { self.new.changes ≡ self.old.changes }
        ensures cause { FindsFault 1 (counts_over self.old (V.counts under.old)) (counts_over self.new (V.counts under.new)) result }
        ensures behind { (keys : List OutPoint) → Contains keys key.now → V.behind keys under.old under.new }
    {
        match self.find(key) {
            Some(slot) => self.coin_in(slot),
            None => self.fetch(under, key),
        }
    }

    // Makes an outpoint without an entry a spent one, and answers the coin that the parent had.
    #[tactic(auto, using(crate::proofs::Flags::one_keeps, crate::proofs::Flags::one_after))]
    fn hold_spent(&mut self, key: &OutPoint, coin: Coin) -> Result<Option<Coin>, StoreFault>
        requires free { (s : Slot) (x : Entry) → map.get self.old.slots s ≡ Some x → x.key ≢ key.now }
        requires sound { IsSound self.old }
        ensures ok { IfOk result (λ answer. (answer ≡ Some coin) × (entries_of self.new ≡ map.insert (entries_of self.old) key.now (changed key.now None false))
            × (map.len self.new.slots ≡ map.len self.old.slots + 1)) }
        ensures err { OnErr result (KeepsEntries self.old self.new) }
        ensures one { ChangesOne key.now self.old self.new }
        ensures cause { IfErr result (λ fault. (fault ≡ StoreFault.NoMemory) ⊎ ((fault ≡ StoreFault.CacheFull) × (max_entries < map.len self.old.slots + 1))) }
    {
        match self.reserve(1) {
            Ok(()) => {}
            Err(fault) => return Err(fault),
        }
        self.set_new(*key, None, false);
        Ok(Some(coin))
    }

    // Spends the coin that the parent has of an outpoint without an entry.
    #[tactic(auto, using(crate::proofs::Flags::one_same))]
    fn spend_parent<V: View>(
        &mut self,
        under: &mut V,
        key: &OutPoint,
    ) -> Result<Option<Coin>, StoreFault>
        requires free { (s : Slot) (x : Entry) → map.get self.old.slots s ≡ Some x → x.key ≢ key.now }
        requires absent { map.get (entries_of self.old) key.now ≡ None }
        requires sound { IsSound self.old }
        ensures coin { AnswersCoin (means self.old (V.coins under.old)) key.now result }
        ensures fits { IfOk result (λ coin. IfSome coin CoinFits) }
        ensures coins { means self.new (V.coins under.new) ≡ option_map (without_coin result key.now) (means self.old (V.coins under.old)) }
        ensures parent { V.coins under.new ≡ V.coins under.old }
        ensures stands { StandsOver self.old (V.coins under.old) → StandsOver self.new (V.coins under.new) }
        ensures entries { (keys : List OutPoint) → Contains keys key.now → AddsOnly keys self.old self.new }
        ensures one { ChangesOne key.now self.old self.new }
        ensures cause { FindsFault 1 (counts_over self.old (V.counts under.old)) (counts_over self.new (V.counts under.new)) result }
        ensures behind { (keys : List OutPoint) → Contains keys key.now → V.behind keys under.old under.new }
    {
        match under.get(key) {
            Ok(None) => Ok(None),
            Ok(Some(coin)) => self.hold_spent(key, coin),
            Err(fault) => Err(fault),
        }
    }

    /// Takes the coin of an outpoint away, and answers it, if there is one. A fresh entry is taken out; another is spent, and
    /// dirty. Where there is an entry, the call takes no memory and can't be refused.
    pub fn spend<V: View>(
        &mut self,
        under: &mut V,
        key: &OutPoint,
    ) -> Result<Option<Coin>, StoreFault>
        ensures coin { AnswersCoin (means self.old (V.coins under.old)) key.now result }
        ensures fits { IfOk result (λ coin. IfSome coin CoinFits) }
        ensures coins { StandsOver self.old (V.coins under.old) → means self.new (V.coins under.new) ≡ option_map (without_coin result key.now) (means self.old (V.coins under.old)) }
        ensures parent { V.coins under.new ≡ V.coins under.old }
        ensures stands { StandsOver self.old (V.coins under.old) → StandsOver self.new (V.coins under.new) }
        ensures hit { map.contains_key (entries_of self.old) key.now ≡ true → (under.new ≡ under.old) × (is_ok result ≡ true) }
        ensures entry { (x : Entry) → map.get (entries_of self.old) key.now ≡ Some x → IsSpent x (entries_of self.old) (entries_of self.new) }
        ensures entries { (keys : List OutPoint) → Contains keys key.now → AddsOnly keys self.old self.new }
        ensures one { ChangesOne key.now self.old self.new }
        ensures cause { FindsFault 1 (counts_over self.old (V.counts under.old)) (counts_over self.new (V.counts under.new)) result }
        ensures behind { (keys : List OutPoint) → Contains keys key.now → V.behind keys under.old under.new }
    {
        match self.find(key) {
            Some(slot) => Ok(self.spend_entry(slot)),
            None => self.spend_parent(under, key),
        }
    }

    /// Puts a coin at an outpoint, in a dirty entry. Without `may_overwrite` the coins that the cache means have none there.
    pub fn add(&mut self, key: &OutPoint, coin: Coin, may_overwrite: bool) -> Result<(), StoreFault>
        requires { CoinFits coin }
        ensures coins { (told : Option Coins) → means self.new told ≡ option_map (with_coin result key.now coin) (means self.old told) }
        ensures stands { (told : Option Coins) → (may_overwrite ≡ false → HasNoCoin (means self.old told) key.now) → StandsOver self.old told → StandsOver self.new told }
        ensures entries { (keys : List OutPoint) → Contains keys key.now → AddsOnly keys self.old self.new }
        ensures one { ChangesOne key.now self.old self.new }
        ensures entry { OnOk result (entries_of self.new ≡ map.insert (entries_of self.old) key.now (changed key.now (Some coin) (is_fresh may_overwrite (map.get (entries_of self.old) key.now)))) }
        ensures err { OnErr result (KeepsEntries self.old self.new) }
        ensures full { IsErrOf result StoreFault.CacheFull ↔ ((map.get (entries_of self.old) key.now ≡ None) × (max_entries < map.len self.old.slots + 1)) }
        ensures cause { (counts : ViewCounts) → FindsFault 1 (counts_over self.old counts) (counts_over self.new counts) result }
    {
        match self.find(key) {
            Some(slot) => {
                let fresh = self.stays_fresh(slot, may_overwrite);
                self.set(slot, Some(coin), fresh);
                Ok(())
            }
            None => {
                match self.reserve(1) {
                    Ok(()) => {}
                    Err(fault) => return Err(fault),
                }
                self.set_new(*key, Some(coin), !may_overwrite);
                Ok(())
            }
        }
    }
}
