//! An entry, with its links.

ghost use Rattle.std.specs.Prelude.{◌≡◌};

use base_types::{Coin, OutPoint};
use coin_index::Chained;
use flag_list::{Linked, Links};
use slot_pool::Slot;

/// What a slot of the pool holds: an entry, the link of its bucket's chain, and those of the list of changes.
#[derive(Drop)]
pub struct Node {
    pub(crate) key: OutPoint,
    // Beside the key, which leaves room for both.
    pub(crate) dirty: bool,
    pub(crate) fresh: bool,
    pub(crate) coin: Option<Coin>,
    chain: Option<Slot>,
    links: Links,
}

impl Node {
    /// An entry that is in no chain and in no list.
    pub(crate) fn new(key: OutPoint, coin: Option<Coin>, dirty: bool, fresh: bool) -> Node
        ensures { (result.key ≡ key) × (result.coin ≡ coin) × (result.dirty ≡ dirty) × (result.fresh ≡ fresh) }
    {
        Node {
            key,
            dirty,
            fresh,
            coin,
            chain: None,
            links: Links {
                before: None,
                after: None,
            },
        }
    }
}

impl Node {
    /// The coin alone.
    pub(crate) fn into_coin(self) -> Option<Coin>
        ensures { result ≡ self.coin }
    {
        self.coin
    }
}

impl Chained for Node {
    ghost use Rattle.std.specs.Prelude.{refl};

    ghost key_of = { λ n. n.key };

    ghost chain_of = { λ n. n.chain };

    ghost with_chain = { λ n next. record n { chain = next } };

    ghost chain_set = { λ n next. refl };

    ghost key_kept = { λ n next. refl };

    ghost set_twice = { λ n next last. refl };

    ghost set_own = { λ n. refl };

    fn key(&self) -> OutPoint {
        self.key
    }

    fn chain(&self) -> Option<Slot> {
        self.chain
    }

    fn set_chain(&mut self, next: Option<Slot>) {
        self.chain = next;
    }
}

impl Linked for Node {
    ghost use Rattle.std.specs.Prelude.{refl};

    ghost links_of = { λ n. n.links };

    ghost with_links = { λ n links. record n { links = links } };

    ghost links_set = { λ n links. refl };

    ghost set_twice = { λ n links last. refl };

    ghost set_own = { λ n. refl };

    fn links(&self) -> Links {
        self.links
    }

    fn set_links(&mut self, links: Links) {
        self.links = links;
    }
}
