//! The cache, as contracts see it, and the steps on its entries.

ghost use Rattle.std.specs.Prelude.{◌≡◌, ◌≢◌, ◌+◌, ◌-◌, ◌<◌, ◌≤◌, ◌⊎◌, ◌↔◌, ◌++◌, ◌∷◌, ℕ, true, false, List, [], length, Some, None, IsSome, IfSome, OnOk, IfErr, IsErrOf, Option, if◌then◌else◌};
ghost use Rattle.std.specs.FinMap as map;
ghost use Rattle.std.specs.Option.{option_copied};
ghost use Rattle.slot_pool.specs.Slots.{first_or, IsIn};
ghost use Rattle.base_types.specs.Coins.{Coins, CoinFits};
ghost use Rattle.base_types.specs.Views.{max_entries};
ghost use Rattle.coin_cache.specs.Contents.{Entry, contents, entry_without_flag};

use crate::node::Node;
use base_types::{Coin, OutPoint, Salt, StoreFault};
use coin_index::Index;
use flag_list::FlagList;
use slot_pool::{Pool, Slot};
use std::alloc::Global;
use std::marker::Model;
use std::mem::replace;

// The greatest number of entries.
const MAX_ENTRIES: u64 = 4_294_967_294;

/// Entries that are laid over the coins of a parent. An entry has a coin or is spent. It is dirty where it may differ from
/// the parent, and fresh where the parent is known to have no coin there.
#[derive(Drop)]
pub struct Cache {
    pool: Pool<Node>,
    index: Index,
    flags: FlagList,
    count: u32,
    changes: u32,
}

impl Model for Cache {
    ghost use Rattle.coin_cache.specs.Contents.{Contents, contents_code};

    ghost Value = { Contents };

    ghost coded = { contents_code };

    ghost use Rattle.coin_cache.specs.Inside.{contents_of, IsInside};

    ghost view = { contents_of };

    ghost invariant = { IsInside };
}

impl Cache {
    ghost use Rattle.coin_cache.specs.Entries.{StandsOver, means};

    /// A cache without entries, which takes no memory. The salt is that of its index.
    pub fn new(alloc: Global, salt: &Salt) -> Cache
        ensures empty { result ≡ contents map.empty [] 0 salt.now }
        ensures coins { (told : Option Coins) → (means result told ≡ told) × StandsOver result told }
    {
        Cache {
            pool: Pool::new(alloc),
            index: Index::new(alloc, salt),
            flags: FlagList::new(),
            count: 0,
            changes: 0,
        }
    }

    /// The number of entries.
    pub fn entries(&self) -> u32
        ensures { result ≡ map.len self.now.slots }
    {
        self.count
    }

    /// The number of dirty entries.
    pub fn dirty(&self) -> u32
        ensures { result ≡ length self.now.changes }
    {
        self.changes
    }
}

impl Cache {
    ghost use Rattle.coin_cache.specs.Entries.{IsSound, KeepsEntries, StandsOver, entries_of, means};

    // The slot of an outpoint's entry.
    pub(crate) fn find(&self, key: &OutPoint) -> Option<Slot>
        ensures sound { IsSound self.now }
        ensures none { result ≡ None → (s : Slot) (x : Entry) → map.get self.now.slots s ≡ Some x → x.key ≢ key.now }
        ensures some { (s : Slot) → result ≡ Some s → (x : Entry) × (map.get self.now.slots s ≡ Some x) × (x.key ≡ key.now) × (map.get (entries_of self.now) key.now ≡ Some x) }
        ensures absent { result ≡ None → map.get (entries_of self.now) key.now ≡ None }
    {
        self.index.find(&self.pool, key)
    }

    // The entry in a slot.
    pub(crate) fn entry(&self, slot: Slot) -> &Node
        requires { IsSome (map.get self.now.slots slot) }
        ensures sound { IsSound self.now }
        ensures entry { (x : Entry) → map.get self.now.slots slot ≡ Some x → (result.now.key ≡ x.key) × (result.now.coin ≡ x.coin) × (result.now.dirty ≡ x.dirty) × (result.now.fresh ≡ x.fresh) }
    {
        self.pool.get(slot)
    }

    /// Makes room for `n` entries, so that as many can be added without memory.
    pub fn reserve(&mut self, n: u32) -> Result<(), StoreFault>
        ensures entries { KeepsEntries self.old self.new }
        ensures room { OnOk result (n ≤ self.new.spare) }
        ensures full { IsErrOf result StoreFault.CacheFull ↔ (max_entries < map.len self.old.slots + n) }
        ensures cause { IfErr result (λ fault. (fault ≡ StoreFault.NoMemory) ⊎ (fault ≡ StoreFault.CacheFull)) }
    {
        if self.count as u64 + n as u64 > MAX_ENTRIES {
            return Err(StoreFault::CacheFull);
        }
        match self.index.reserve_buckets(&mut self.pool, self.count + n) {
            Ok(()) => {}
            Err(_refused) => return Err(StoreFault::NoMemory),
        }
        match self.pool.reserve(n) {
            Ok(()) => Ok(()),
            Err(_refused) => Err(StoreFault::NoMemory),
        }
    }

    // Puts an entry without a flag in a slot of its own. Its outpoint has none yet.
    pub(crate) fn put(&mut self, key: OutPoint, coin: Option<Coin>, fresh: bool) -> Slot
        requires room { 0 < self.old.spare }
        requires free { (s : Slot) (x : Entry) → map.get self.old.slots s ≡ Some x → x.key ≢ key }
        requires fits { IfSome coin CoinFits }
        ensures slot { map.get self.old.slots result ≡ None }
        ensures put { self.new ≡ contents (map.insert self.old.slots result (entry_without_flag key coin fresh)) self.old.changes (self.old.spare - 1) self.old.salt }
        ensures sound { IsSound self.new }
    {
        let slot = self.pool.put(Node::new(key, coin, false, fresh));
        self.index.link(&mut self.pool, slot);
        self.count += 1;
        slot
    }

    // Flags an entry that has no flag.
    pub(crate) fn flag(&mut self, slot: Slot)
        requires { (x : Entry) × (map.get self.old.slots slot ≡ Some x) × (x.dirty ≡ false) }
        ensures flag { (x : Entry) → map.get self.old.slots slot ≡ Some x
            → self.new ≡ contents (map.insert self.old.slots slot (record x { dirty = true })) (self.old.changes ++ slot ∷ []) self.old.spare self.old.salt }
        ensures sound { IsSound self.new }
    {
        self.pool.get_mut(slot).dirty = true;
        self.flags.push_back(&mut self.pool, slot);
        self.changes += 1;
    }

    // Gives the entry of a slot this coin, or none, and its key and its flag stay. It answers the coin that it had.
    pub(crate) fn write(&mut self, slot: Slot, coin: Option<Coin>, fresh: bool) -> Option<Coin>
        requires held { IsSome (map.get self.old.slots slot) }
        requires fits { IfSome coin CoinFits }
        ensures coin { (x : Entry) → map.get self.old.slots slot ≡ Some x → result ≡ x.coin }
        ensures write { (x : Entry) → map.get self.old.slots slot ≡ Some x
            → self.new ≡ contents (map.insert self.old.slots slot (record x { coin = coin; fresh = fresh })) self.old.changes self.old.spare self.old.salt }
        ensures sound { IsSound self.new }
    {
        let node = self.pool.get_mut(slot);
        node.fresh = fresh;
        replace(&mut node.coin, coin)
    }

    // Takes the flags of an entry away.
    pub(crate) fn unflag(&mut self, slot: Slot)
        requires { IsIn slot self.old.changes }
        ensures flag { (x : Entry) (xs ys : List Slot) → map.get self.old.slots slot ≡ Some x → self.old.changes ≡ xs ++ slot ∷ ys
            → self.new ≡ contents (map.insert self.old.slots slot (record x { dirty = false; fresh = false })) (xs ++ ys) self.old.spare self.old.salt }
        ensures sound { IsSound self.new }
    {
        self.flags.unlink(&mut self.pool, slot);
        self.changes -= 1;
        let node = self.pool.get_mut(slot);
        node.dirty = false;
        node.fresh = false;
    }

    // Takes an entry without a flag out of its slot.
    pub(crate) fn take(&mut self, slot: Slot) -> Node
        requires { (x : Entry) × (map.get self.old.slots slot ≡ Some x) × (x.dirty ≡ false) }
        ensures node { (x : Entry) → map.get self.old.slots slot ≡ Some x → (result.key ≡ x.key) × (result.coin ≡ x.coin) × (result.fresh ≡ x.fresh) }
        ensures rest { self.new ≡ contents (map.remove self.old.slots slot) self.old.changes (self.old.spare + 1) self.old.salt }
        ensures sound { IsSound self.new }
    {
        self.index.unlink(&mut self.pool, slot);
        self.count -= 1;
        self.pool.take(slot)
    }

    /// Takes away all entries. From then on the parent may mean any coins. The room that they had stays.
    pub fn clear(&mut self)
        ensures cleared { self.new ≡ contents map.empty [] (self.old.spare + map.len self.old.slots) self.old.salt }
        ensures coins { (told : Option Coins) → (means self.new told ≡ told) × StandsOver self.new told }
    {
        self.pool.clear();
        self.index.clear();
        self.flags = FlagList::new();
        self.count = 0;
        self.changes = 0;
    }
}

// The walk of the changes.
impl Cache {
    ghost use Rattle.coin_cache.specs.Entries.{IsSound};

    /// The entry that was flagged first.
    pub fn first_change(&self) -> Option<Slot>
        ensures first { result ≡ first_or None self.now.changes }
        ensures sound { IsSound self.now }
    {
        self.flags.first()
    }

    /// The entry that was flagged after this one.
    pub fn next_change(&self, slot: Slot) -> Option<Slot>
        requires { IsIn slot self.now.changes }
        ensures { (xs ys : List Slot) → self.now.changes ≡ xs ++ slot ∷ ys → result ≡ first_or None ys }
    {
        self.flags.next(&self.pool, slot)
    }

    /// The outpoint of a flagged entry, and its coin, if it isn't spent.
    pub fn change(&self, slot: Slot) -> Change<'_>
        requires { IsIn slot self.now.changes }
        ensures { (x : Entry) → map.get self.now.slots slot ≡ Some x → (result.key ≡ x.key) × (option_copied result.coin ≡ x.coin) }
    {
        let node = self.pool.get(slot);
        Change {
            key: node.key,
            coin: node.coin.as_ref(),
        }
    }
}

/// A flagged entry: its outpoint, and its coin, or none where it was spent.
#[derive(Drop)]
pub struct Change<'a> {
    pub key: OutPoint,
    pub coin: Option<&'a Coin>,
}
