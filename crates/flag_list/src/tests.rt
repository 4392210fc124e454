use super::*;
use slot_pool::{Pool, Slot};
use std::test::Fail;

// A number with links.
#[derive(Drop)]
struct Numbered {
    number: u64,
    before: Option<Slot>,
    after: Option<Slot>,
}

impl Linked for Numbered {
    ghost use Rattle.std.specs.Prelude.{refl};

    ghost links_of = { λ e. record { before = e.before; after = e.after } };

    ghost with_links = { λ e l. record e { before = l.before; after = l.after } };

    ghost links_set = { λ e l. refl };

    ghost set_twice = { λ e l m. refl };

    ghost set_own = { λ e. refl };

    fn links(&self) -> Links {
        Links {
            before: self.before,
            after: self.after,
        }
    }

    fn set_links(&mut self, links: Links) {
        self.before = links.before;
        self.after = links.after;
    }
}

fn with_number(number: u64) -> Numbered {
    Numbered {
        number,
        before: None,
        after: None,
    }
}

// Two slots in their order, and the first taken out again.
#[test]
fn lists_slots_in_order(rt: HostRuntime) -> Result<(), Fail> {
    let mut pool = Pool::new(rt.alloc());
    assert!(rt; pool.reserve(2).is_ok());
    let one = pool.put(with_number(1));
    let two = pool.put(with_number(2));
    let mut list = FlagList::new();
    list.push_back(&mut pool, one);
    list.push_back(&mut pool, two);
    assert_eq!(rt; list.next(&pool, one), Some(two));
    list.unlink(&mut pool, one);
    assert_eq!(rt; list.first(), Some(two));
    Ok(())
}
