//! A child's changes are taken over, and flags are taken away.

ghost use Rattle.std.specs.Prelude.{◌≡◌, ◌+◌, ◌<◌, ◌≤◌, ◌⊎◌, ◌++◌, ◌∷◌, ℕ, true, false, List, [], Option, Some, None, IsSome, IfSome, length};
ghost use Rattle.std.specs.FinMap as map;
ghost use Rattle.slot_pool.specs.Slots.{IsIn};
ghost use Rattle.base_types.specs.Coins.{Coins, CoinFits};
ghost use Rattle.coin_cache.specs.Contents.{Entry, contents};
ghost use Rattle.coin_cache.specs.Entries.{IsSound, IsMerged, IsSettled, changed, entries_of, merged, means, StandsOver, AddsNone};
ghost use Rattle.coin_cache.specs.Flags.{ChangesOne, flagged, flags_merged};

use crate::cache::Cache;
use base_types::{Coin, OutPoint};
use slot_pool::Slot;

impl Cache {
    // Puts a child's changed entry over an entry.
    fn merge_into(&mut self, slot: Slot, coin: Option<Coin>)
        requires held { IsSome (map.get self.old.slots slot) }
        requires fits { IfSome coin CoinFits }
        ensures entries { (x : Entry) → map.get self.old.slots slot ≡ Some x
            → ((coin ≡ None) × (x.fresh ≡ true) × (entries_of self.new ≡ map.remove (entries_of self.old) x.key)) ⊎ ((coin ≡ None → x.fresh ≡ false) × (entries_of self.new ≡ map.insert (entries_of self.old) x.key (changed x.key coin x.fresh))) }
        ensures one { (x : Entry) → map.get self.old.slots slot ≡ Some x → ChangesOne x.key self.old self.new }
        ensures room { self.old.spare ≤ self.new.spare }
        ensures total { self.new.spare + map.len self.new.slots ≡ self.old.spare + map.len self.old.slots }
    {
        let fresh = self.entry(slot).fresh;
        if coin.is_none() && fresh {
            self.remove(slot);
        } else {
            self.set(slot, coin, fresh);
        }
    }

    // Puts a child's changed entry over what this cache has of its outpoint.
    fn put_over(&mut self, key: OutPoint, coin: Option<Coin>, fresh: bool)
        requires room { 0 < self.old.spare }
        requires fits { IfSome coin CoinFits }
        ensures entries { IsMerged key coin fresh (entries_of self.old) (entries_of self.new) }
        ensures one { ChangesOne key self.old self.new }
        ensures room { self.old.spare ≤ self.new.spare + 1 }
        ensures total { self.new.spare + map.len self.new.slots ≡ self.old.spare + map.len self.old.slots }
    {
        match self.find(&key) {
            Some(slot) => self.merge_into(slot, coin),
            None => self.set_new(key, coin, fresh),
        }
    }

    // Takes over one changed entry of a child.
    fn take_over(&mut self, child: &mut Cache, slot: Slot)
        requires flagged { (x : Entry) × (map.get child.old.slots slot ≡ Some x) }
        requires sound { IsSound child.old }
        requires room { 0 < self.old.spare }
        ensures self_entries { (x : Entry) → map.get child.old.slots slot ≡ Some x → IsMerged x.key x.coin x.fresh (entries_of self.old) (entries_of self.new) }
        ensures child_entries { (x : Entry) → map.get child.old.slots slot ≡ Some x → entries_of child.new ≡ map.remove (entries_of child.old) x.key }
        ensures changes { (xs ys : List Slot) → child.old.changes ≡ xs ++ slot ∷ ys → child.new.changes ≡ xs ++ ys }
        ensures one { (x : Entry) → map.get child.old.slots slot ≡ Some x → ChangesOne x.key self.old self.new × ChangesOne x.key child.old child.new }
        ensures room { self.old.spare ≤ self.new.spare + 1 }
        ensures total { (self.new.spare + map.len self.new.slots ≡ self.old.spare + map.len self.old.slots) × (child.new.spare + map.len child.new.slots ≡ child.old.spare + map.len child.old.slots) }
    {
        let key = child.entry(slot).key;
        let fresh = child.entry(slot).fresh;
        let coin = child.remove(slot);
        self.put_over(key, coin, fresh);
    }

    /// Takes over what a child means that stands over this cache. The child is empty then. It takes no memory.
    pub fn merge(&mut self, child: &mut Cache)
        requires { length child.old.changes ≤ self.old.spare }
        ensures coins { (told : Option Coins) → StandsOver self.old told → StandsOver child.old (means self.old told)
            → (means self.new told ≡ means child.old (means self.old told)) × StandsOver self.new told }
        ensures child { child.new ≡ contents map.empty [] (child.old.spare + map.len child.old.slots) child.old.salt }
        ensures order { flagged self.new ≡ flags_merged (entries_of self.old) (entries_of child.old) (flagged child.old) (flagged self.old) }
        ensures room { self.new.spare + map.len self.new.slots ≡ self.old.spare + map.len self.old.slots }
        ensures salt { self.new.salt ≡ self.old.salt }
        ensures each { (key : OutPoint) → map.get (entries_of self.new) key ≡ merged (map.get (entries_of self.old) key) (map.get (entries_of child.old) key) }
        ensures entries { (key : OutPoint) → map.contains_key (entries_of self.new) key ≡ true
            → (map.contains_key (entries_of self.old) key ≡ true) ⊎ ((x : Entry) × (map.get (entries_of child.old) key ≡ Some x)) }
    {
        while let Some(slot) = child.first_change() {
            self.take_over(child, slot);
        }
        child.clear();
    }

    // Takes the flags of an entry away, and the entry, where it is spent.
    fn settle(&mut self, slot: Slot)
        requires held { IsSome (map.get self.old.slots slot) }
        requires flagged { IsIn slot self.old.changes }
        requires sound { IsSound self.old }
        ensures entries { (x : Entry) → map.get self.old.slots slot ≡ Some x → IsSettled x (entries_of self.old) (entries_of self.new) }
        ensures changes { (xs ys : List Slot) → self.old.changes ≡ xs ++ slot ∷ ys → self.new.changes ≡ xs ++ ys }
        ensures room { (self.new.spare + map.len self.new.slots ≡ self.old.spare + map.len self.old.slots) × (self.new.salt ≡ self.old.salt) }
    {
        if self.entry(slot).coin.is_none() {
            self.remove(slot);
        } else {
            self.unflag(slot);
        }
    }

    /// Takes away the entries of spent coins, and all flags. From then on the parent has to mean what the cache meant.
    pub fn keep_clean(&mut self)
        ensures changes { self.new.changes ≡ [] }
        ensures coins { (told : Option Coins) → StandsOver self.old told
            → (means self.new (means self.old told) ≡ means self.old told) × StandsOver self.new (means self.old told) }
        ensures entries { AddsNone self.old self.new }
        ensures room { self.new.spare + map.len self.new.slots ≡ self.old.spare + map.len self.old.slots }
        ensures salt { self.new.salt ≡ self.old.salt }
    {
        while let Some(slot) = self.first_change() {
            self.settle(slot);
        }
    }
}
