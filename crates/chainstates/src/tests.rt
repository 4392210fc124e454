//! Opening a store of nothing, and one that can't be opened.

use crate::session::{Info, Session};
use base_types::{Limits, Salt, StoreFault};
use block_codec::genesis_hash;
use disk_model::{Image, MemDisk};
use std::test::Fail;

const LIMITS: Limits = Limits {
    file_bytes: 1_000_000,
    headers: 10,
};

const SALT: Salt = Salt { a: 1, b: 2 };

// A disk without files is a store at genesis.
#[test]
fn an_empty_store_opens_at_genesis(rt: HostRuntime) -> Result<(), Fail> {
    let mut disk = MemDisk::new(rt.alloc());
    let opened = Session::open(rt.alloc(), &mut disk, &LIMITS, &SALT);
    let session = opened.ok().ok_or("opened")?;
    let genesis = Info {
        headers: 1,
        height: 0,
        tip: genesis_hash(),
    };
    assert_eq!(rt; session.info(), genesis);
    Ok(())
}

// An open gate without a record behind it, in the file of bodies.
#[test]
fn a_broken_record_is_named(rt: HostRuntime) -> Result<(), Fail> {
    let mut image = Image::new(rt.alloc());
    assert!(rt; image.put(2, &[1, 0]).is_ok());
    let mut disk = MemDisk::from_image(rt.alloc(), &image)
        .ok()
        .ok_or("a disk")?;
    let opened = Session::open(rt.alloc(), &mut disk, &LIMITS, &SALT);
    assert_eq!(rt; opened.err(), Some(StoreFault::Damaged { file: 2, at: 0 }));
    Ok(())
}
