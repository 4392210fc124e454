//! The values that a list can link.
ghost use Rattle.std.specs.Prelude.{◌≡◌};
ghost use Rattle.flag_list.specs.declared.linked.Links.{Links as Neighbours};

use slot_pool::Slot;

/// The neighbours of a slot in its list; none at an end.
#[derive(Clone, Copy, PartialEq, Eq, Debug)]
pub struct Links {
    pub before: Option<Slot>,
    pub after: Option<Slot>,
}

/// A value that a list can link. `set_links` changes its links and leaves the rest of it.
pub trait Linked {
    // The links that the value holds.
    ghost links_of: { Self → Neighbours };

    // The value with these links, and the rest of it as it is.
    ghost with_links: { Self → Neighbours → Self };

    fn links(&self) -> Links
        ensures { result ≡ links_of self.now };

    fn set_links(&mut self, links: Links)
        ensures { self.new ≡ with_links self.old links };

    ghost links_set: { (x : Self) (l : Neighbours) → links_of (with_links x l) ≡ l };

    ghost set_twice: { (x : Self) (l m : Neighbours) → with_links (with_links x l) m ≡ with_links x m };

    ghost set_own: { (x : Self) → with_links x (links_of x) ≡ x };
}
