use super::*;
use base_types::{OutPoint, Salt, hash_twice};
use slot_pool::{Pool, Slot};
use std::test::Fail;

const SALT: Salt = Salt {
    a: 0x0123_4567_89ab_cdef,
    b: 0xfedc_ba98_7654_3210,
};

// A key alone.
#[derive(Drop)]
struct Keyed {
    key: OutPoint,
    next: Option<Slot>,
}

impl Chained for Keyed {
    ghost use Rattle.std.specs.Prelude.{refl};

    ghost key_of = { λ e. e.key };

    ghost chain_of = { λ e. e.next };

    ghost with_chain = { λ e n. record e { next = n } };

    ghost chain_set = { λ e n. refl };

    ghost key_kept = { λ e n. refl };

    ghost set_twice = { λ e n k. refl };

    ghost set_own = { λ e. refl };

    fn key(&self) -> OutPoint {
        self.key
    }

    fn chain(&self) -> Option<Slot> {
        self.next
    }

    fn set_chain(&mut self, next: Option<Slot>) {
        self.next = next;
    }
}

// A key is found from when its slot is linked, in the buckets of that time and in more of them, until it is unlinked.
#[test]
fn finds_a_key_until_it_is_unlinked(rt: HostRuntime) -> Result<(), Fail> {
    let key = OutPoint {
        txid: hash_twice(b"a transaction"),
        index: 1,
    };
    let mut pool = Pool::new(rt.alloc());
    assert!(rt; pool.reserve(1).is_ok());
    let mut index = Index::new(rt.alloc(), &SALT);
    index.reserve_buckets(&mut pool, 1)?;
    let slot = pool.put(Keyed { key, next: None });
    index.link(&mut pool, slot);
    assert_eq!(rt; index.find(&pool, &key), Some(slot));
    index.reserve_buckets(&mut pool, 100)?;
    assert_eq!(rt; index.find(&pool, &key), Some(slot));
    index.unlink(&mut pool, slot);
    assert_eq!(rt; index.find(&pool, &key), None);
    Ok(())
}
