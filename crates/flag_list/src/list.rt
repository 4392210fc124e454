//! The list itself: its two ends. All else lies in the pool.
ghost use Rattle.std.specs.Prelude.{◌≡◌, List, ◌++◌, ◌∷◌, [], Some, None, IsSome};
ghost use Rattle.std.specs.FinMap as map;
ghost use Rattle.slot_pool.specs.Changes.{ChangesOnly};
ghost use Rattle.slot_pool.specs.Pool.{with_value};
ghost use Rattle.slot_pool.specs.Slots.{first_or, IsIn};
ghost use Rattle.flag_list.specs.List.{IsList, no_list, start_of};

use crate::linked::{Linked, Links};
use slot_pool::{Pool, Slot};

/// A list of slots of a pool. What it lists is a relation between it and the pool that holds its links: `IsList`.
#[derive(PartialEq, Debug, Drop)]
pub struct FlagList {
    first: Option<Slot>,
    last: Option<Slot>,
}

fn set_links<T: Linked>(pool: &mut Pool<T>, slot: Slot, links: Links)
    requires { IsSome (map.get pool.old.values slot) }
    ensures { (x : T) → map.get pool.old.values slot ≡ Some x → pool.new ≡ with_value pool.old slot (T.with_links x links) }
{
    pool.get_mut(slot).set_links(links);
}

fn set_after<T: Linked>(pool: &mut Pool<T>, slot: Slot, after: Option<Slot>)
    requires { IsSome (map.get pool.old.values slot) }
    ensures { (x : T) → map.get pool.old.values slot ≡ Some x
        → pool.new ≡ with_value pool.old slot (T.with_links x (record (T.links_of x) { after = after })) }
{
    let before = pool.get(slot).links().before;
    set_links(pool, slot, Links { before, after });
}

fn set_before<T: Linked>(pool: &mut Pool<T>, slot: Slot, before: Option<Slot>)
    requires { IsSome (map.get pool.old.values slot) }
    ensures { (x : T) → map.get pool.old.values slot ≡ Some x
        → pool.new ≡ with_value pool.old slot (T.with_links x (record (T.links_of x) { before = before })) }
{
    let after = pool.get(slot).links().after;
    set_links(pool, slot, Links { before, after });
}

impl FlagList {
    /// A list of no slot, over any pool. No call of a list takes memory.
    pub fn new() -> Self
        ensures { result ≡ no_list }
    {
        FlagList {
            first: None,
            last: None,
        }
    }

    /// Puts a slot at the end.
    pub fn push_back<T: Linked>(&mut self, pool: &mut Pool<T>, slot: Slot)
        requires held { IsSome (map.get pool.old.values slot) }
        requires out { (ss : List Slot) × IsList T.links_of pool.old.values self.old ss × (¬ IsIn slot ss) }
        ensures list { (ss : List Slot) → IsList T.links_of pool.old.values self.old ss → ¬ IsIn slot ss
            → IsList T.links_of pool.new.values self.new (ss ++ slot ∷ []) }
        ensures changes { ChangesOnly T.with_links pool.old pool.new }
    {
        let links = Links {
            before: self.last,
            after: None,
        };
        set_links(pool, slot, links);
        match self.last {
            Some(last) => set_after(pool, last, Some(slot)),
            None => self.first = Some(slot),
        }
        self.last = Some(slot);
    }

    /// Takes a slot out of the list.
    pub fn unlink<T: Linked>(&mut self, pool: &mut Pool<T>, slot: Slot)
        requires { (xs ys : List Slot) × IsList T.links_of pool.old.values self.old (xs ++ slot ∷ ys) }
        ensures list { (xs ys : List Slot) → IsList T.links_of pool.old.values self.old (xs ++ slot ∷ ys)
            → IsList T.links_of pool.new.values self.new (xs ++ ys) }
        ensures changes { ChangesOnly T.with_links pool.old pool.new }
    {
        let links = pool.get(slot).links();
        match links.before {
            Some(before) => set_after(pool, before, links.after),
            None => self.first = links.after,
        }
        match links.after {
            Some(after) => set_before(pool, after, links.before),
            None => self.last = links.before,
        }
    }

    /// The slot after this one.
    pub fn next<T: Linked>(&self, pool: &Pool<T>, slot: Slot) -> Option<Slot>
        requires { (xs ys : List Slot) × IsList T.links_of pool.now.values self.now (xs ++ slot ∷ ys) }
        ensures { (xs ys : List Slot) → IsList T.links_of pool.now.values self.now (xs ++ slot ∷ ys) → result ≡ first_or None ys }
    {
        pool.get(slot).links().after
    }

    /// The first slot.
    pub fn first(&self) -> Option<Slot>
        ensures { result ≡ start_of self.now }
    {
        self.first
    }
}
