//! Steps on the entry of an outpoint.

ghost use Rattle.std.specs.Prelude.{◌≡◌, ◌≢◌, ◌⊎◌, ◌+◌, ◌<◌, ◌≤◌, ◌++◌, ◌∷◌, ℕ, true, false, List, [], Some, IsSome, IfSome};
ghost use Rattle.std.specs.FinMap as map;
ghost use Rattle.base_types.specs.Coins.{CoinFits};
ghost use Rattle.coin_cache.specs.Contents.{Entry, entry_without_flag};
ghost use Rattle.coin_cache.specs.Entries.{IsSound, IsSpent, entries_of, changed, is_fresh};
ghost use Rattle.coin_cache.specs.Flags.{ChangesOne};

use crate::cache::Cache;
use base_types::{Coin, OutPoint};
use slot_pool::Slot;

impl Cache {
    // Gives an outpoint without an entry one that has no flag.
    pub(crate) fn keep(&mut self, key: OutPoint, coin: Coin)
        requires room { 0 < self.old.spare }
        requires free { (s : Slot) (x : Entry) → map.get self.old.slots s ≡ Some x → x.key ≢ key }
        requires sound { IsSound self.old }
        requires fits { CoinFits coin }
        ensures entries { entries_of self.new ≡ map.insert (entries_of self.old) key (entry_without_flag key (Some coin) false) }
        ensures changes { self.new.changes ≡ self.old.changes }
        ensures one { ChangesOne key self.old self.new }
        ensures count { map.len self.new.slots ≡ map.len self.old.slots + 1 }
    {
        self.put(key, Some(coin), false);
    }

    // Gives an outpoint without an entry one under a flag.
    pub(crate) fn set_new(&mut self, key: OutPoint, coin: Option<Coin>, fresh: bool)
        requires room { 0 < self.old.spare }
        requires free { (s : Slot) (x : Entry) → map.get self.old.slots s ≡ Some x → x.key ≢ key }
        requires sound { IsSound self.old }
        requires fits { IfSome coin CoinFits }
        ensures entries { entries_of self.new ≡ map.insert (entries_of self.old) key (changed key coin fresh) }
        ensures one { ChangesOne key self.old self.new }
        ensures count { map.len self.new.slots ≡ map.len self.old.slots + 1 }
        ensures room { self.new.spare + 1 ≡ self.old.spare }
        ensures sound { IsSound self.new }
    {
        let slot = self.put(key, coin, fresh);
        self.flag(slot);
    }

    // Flags an entry, unless it is flagged.
    fn mark(&mut self, slot: Slot)
        requires { IsSome (map.get self.old.slots slot) }
        ensures slots { (x : Entry) → map.get self.old.slots slot ≡ Some x → self.new.slots ≡ map.insert self.old.slots slot (record x { dirty = true }) }
        ensures clean { (x : Entry) → map.get self.old.slots slot ≡ Some x → x.dirty ≡ false → self.new.changes ≡ self.old.changes ++ slot ∷ [] }
        ensures dirty { (x : Entry) → map.get self.old.slots slot ≡ Some x → x.dirty ≡ true → self.new.changes ≡ self.old.changes }
        ensures room { (self.new.spare ≡ self.old.spare) × (self.new.salt ≡ self.old.salt) }
        ensures sound { (IsSound self.old) × IsSound self.new }
    {
        if !self.entry(slot).dirty {
            self.flag(slot);
        }
    }

    // Gives an entry this coin, or none, under a flag. It answers the coin that it had.
    pub(crate) fn set(&mut self, slot: Slot, coin: Option<Coin>, fresh: bool) -> Option<Coin>
        requires held { IsSome (map.get self.old.slots slot) }
        requires fits { IfSome coin CoinFits }
        ensures coin { (x : Entry) → map.get self.old.slots slot ≡ Some x → result ≡ x.coin }
        ensures entries { (x : Entry) → map.get self.old.slots slot ≡ Some x → entries_of self.new ≡ map.insert (entries_of self.old) x.key (changed x.key coin fresh) }
        ensures one { (x : Entry) → map.get self.old.slots slot ≡ Some x → ChangesOne x.key self.old self.new }
        ensures count { map.len self.new.slots ≡ map.len self.old.slots }
        ensures room { self.new.spare ≡ self.old.spare }
        ensures sound { IsSound self.new }
    {
        self.mark(slot);
        self.write(slot, coin, fresh)
    }

    // Takes the flags of an entry away, if it has any.
    fn clean(&mut self, slot: Slot)
        requires { IsSome (map.get self.old.slots slot) }
        ensures slots { (x : Entry) → map.get self.old.slots slot ≡ Some x → (w : Entry) × (self.new.slots ≡ map.insert self.old.slots slot w) × (w.key ≡ x.key) × (w.coin ≡ x.coin) × (w.dirty ≡ false) }
        ensures changes { (xs ys : List Slot) → self.old.changes ≡ xs ++ slot ∷ ys → self.new.changes ≡ xs ++ ys }
        ensures same { (x : Entry) → map.get self.old.slots slot ≡ Some x → x.dirty ≡ false → self.new.changes ≡ self.old.changes }
        ensures room { (self.new.spare ≡ self.old.spare) × (self.new.salt ≡ self.old.salt) }
        ensures sound { (IsSound self.old) × IsSound self.new }
    {
        if self.entry(slot).dirty {
            self.unflag(slot);
        }
    }

    // Takes an entry out, and answers its coin.
    pub(crate) fn remove(&mut self, slot: Slot) -> Option<Coin>
        requires { IsSome (map.get self.old.slots slot) }
        ensures coin { (x : Entry) → map.get self.old.slots slot ≡ Some x → result ≡ x.coin }
        ensures entries { (x : Entry) → map.get self.old.slots slot ≡ Some x → entries_of self.new ≡ map.remove (entries_of self.old) x.key }
        ensures changes { (xs ys : List Slot) → self.old.changes ≡ xs ++ slot ∷ ys → self.new.changes ≡ xs ++ ys }
        ensures one { (x : Entry) → map.get self.old.slots slot ≡ Some x → ChangesOne x.key self.old self.new }
        ensures count { map.len self.new.slots + 1 ≡ map.len self.old.slots }
        ensures room { self.new.spare ≡ self.old.spare + 1 }
        ensures sound { IsSound self.new }
    {
        self.clean(slot);
        self.take(slot).into_coin()
    }

    // Spends the coin of an entry, and answers it. A fresh entry is taken out.
    #[tactic(auto, using(crate::proofs::Flags::one_same))]
    pub(crate) fn spend_entry(&mut self, slot: Slot) -> Option<Coin>
        requires { IsSome (map.get self.old.slots slot) }
        ensures coin { (x : Entry) → map.get self.old.slots slot ≡ Some x → result ≡ x.coin }
        ensures entries { (x : Entry) → map.get self.old.slots slot ≡ Some x → IsSpent x (entries_of self.old) (entries_of self.new) }
        ensures one { (x : Entry) → map.get self.old.slots slot ≡ Some x → ChangesOne x.key self.old self.new }
        ensures count { map.len self.new.slots ≤ map.len self.old.slots }
    {
        if self.entry(slot).coin.is_none() {
            return None;
        }
        if self.entry(slot).fresh {
            return self.remove(slot);
        }
        self.set(slot, None, false)
    }

    // Whether an entry is fresh once a coin is put over it.
    pub(crate) fn stays_fresh(&self, slot: Slot, may_overwrite: bool) -> bool
        requires { IsSome (map.get self.now.slots slot) }
        ensures { (x : Entry) → map.get self.now.slots slot ≡ Some x → result ≡ is_fresh may_overwrite (Some x) }
    {
        let entry = self.entry(slot);
        entry.fresh || (!may_overwrite && !entry.dirty)
    }
}
