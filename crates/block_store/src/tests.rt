use crate::BlockStore;
use base_types::{Hash32, Limits, StoreFault};
use block_codec::{Block, Header, Txs, read_block};
use disk_model::{Disk, FuseDisk, MemDisk};
use std::alloc::{AllocError, Global};
use std::test::Fail;

const LIMITS: Limits = Limits {
    file_bytes: 1 << 20,
    headers: 1,
};

const FIRST: Hash32 = Hash32 { bytes: [1; 32] };

const SECOND: Hash32 = Hash32 { bytes: [2; 32] };

const THIRD: Hash32 = Hash32 { bytes: [3; 32] };

const TIME: u32 = 0x4d49_e832;

fn header(time: u32) -> Header {
    Header {
        version: 0x2000_0000,
        prev: Hash32 { bytes: [0x22; 32] },
        root: Hash32 { bytes: [0x33; 32] },
        time,
        bits: 0x207f_ffff,
        nonce: 7,
    }
}

// The bytes of a header of that time.
const HEADER: [u8; 80] = [
    0x00, 0x00, 0x00, 0x20, 0x22, 0x22, 0x22, 0x22, 0x22, 0x22, 0x22, 0x22, 0x22, 0x22, 0x22, 0x22,
    0x22, 0x22, 0x22, 0x22, 0x22, 0x22, 0x22, 0x22, 0x22, 0x22, 0x22, 0x22, 0x22, 0x22, 0x22, 0x22,
    0x22, 0x22, 0x22, 0x22, 0x33, 0x33, 0x33, 0x33, 0x33, 0x33, 0x33, 0x33, 0x33, 0x33, 0x33, 0x33,
    0x33, 0x33, 0x33, 0x33, 0x33, 0x33, 0x33, 0x33, 0x33, 0x33, 0x33, 0x33, 0x33, 0x33, 0x33, 0x33,
    0x33, 0x33, 0x33, 0x33, 0x32, 0xe8, 0x49, 0x4d, 0xff, 0xff, 0x7f, 0x20, 0x07, 0x00, 0x00, 0x00,
];

// The coinbase of the block of height 1 of a generated chain, behind the number of transactions.
const COINBASE: [u8; 72] = [
    0x01, 0x02, 0x00, 0x00, 0x00, 0x01, 0x00, 0x00, 0x00, 0x00, 0x00, 0x00, 0x00, 0x00, 0x00, 0x00,
    0x00, 0x00, 0x00, 0x00, 0x00, 0x00, 0x00, 0x00, 0x00, 0x00, 0x00, 0x00, 0x00, 0x00, 0x00, 0x00,
    0x00, 0x00, 0x00, 0x00, 0x00, 0x00, 0xff, 0xff, 0xff, 0xff, 0x0a, 0x51, 0x08, 0x02, 0x00, 0x00,
    0x00, 0x00, 0x00, 0x00, 0x00, 0xff, 0xff, 0xff, 0xff, 0x01, 0x00, 0xf2, 0x05, 0x2a, 0x01, 0x00,
    0x00, 0x00, 0x01, 0x51, 0x00, 0x00, 0x00, 0x00,
];

fn joined(alloc: Global, parts: &[&[u8]]) -> Result<Vec<u8>, AllocError> {
    let mut bytes = Vec::new(alloc);
    for part in parts {
        let part: &[u8] = *part;
        bytes.extend_from_slice(part)?;
    }
    Ok(bytes)
}

// A block of one transaction.
fn full_block(alloc: Global) -> Result<Block, Fail> {
    let bytes = joined(alloc, &[&HEADER, &COINBASE])?;
    Ok(read_block(alloc, &bytes).ok().ok_or("a block")?)
}

// A block without transactions, whose text has 81 bytes.
fn bare_block(alloc: Global) -> Block {
    Block {
        header: header(4),
        txs: Txs::new(alloc),
    }
}

// The numbers of the payloads of headers and of the bodies, or what opening answers.
type Counted = Result<(u64, u64), StoreFault>;

fn counts<D: Disk>(alloc: Global, disk: &mut D) -> Counted {
    let store = BlockStore::open(alloc, disk, &LIMITS)?;
    let mut headers = 0;
    let mut bodies = 0;
    for number in 0..8 {
        if store.headers(disk, number)?.is_some() {
            headers = number + 1;
        }
        if store.body_at(number).is_some() {
            bodies = number + 1;
        }
    }
    Ok((headers, bodies))
}

// How many transactions the block of a hash has.
fn txs<D: Disk>(
    store: &BlockStore,
    disk: &mut D,
    hash: &Hash32,
) -> Result<Option<usize>, StoreFault> {
    match store.body(disk, hash)? {
        Some(block) => Ok(Some(block.txs.as_slice().len())),
        None => Ok(None),
    }
}

// Puts a header and a body.
fn put_both(alloc: Global, disk: &mut MemDisk, block: &Block) -> Result<(), StoreFault> {
    let mut store = BlockStore::open(alloc, disk, &LIMITS)?;
    store.put_headers(disk, &[header(TIME)])?;
    store.put_body(disk, &FIRST, block)
}

fn holds(alloc: Global, disk: &MemDisk, file: u32, parts: &[&[u8]]) -> Result<bool, AllocError> {
    let image = disk.image()?;
    let want = joined(alloc, parts)?;
    Ok(image.get(file) == Some(want.as_slice()))
}

#[test]
fn appends_leave_these_bytes(rt: HostRuntime) -> Result<(), Fail> {
    let alloc = rt.alloc();
    let block = full_block(alloc)?;
    let mut disk = MemDisk::new(alloc);
    put_both(alloc, &mut disk, &block)?;
    let headers: [&[u8]; 3] = [&[1, 80, 0, 0, 0], &HEADER, &[0]];
    assert!(rt; holds(alloc, &disk, 1, &headers)?);
    let bodies: [&[u8]; 5] = [&[1, 184, 0, 0, 0], &[1; 32], &HEADER, &COINBASE, &[0]];
    assert!(rt; holds(alloc, &disk, 2, &bodies)?);
    Ok(())
}

// Whether the headers of a payload are these, behind a gate at this offset.
fn reads<D: Disk>(
    store: &BlockStore,
    disk: &mut D,
    number: u64,
    want: (&[Header], u64),
) -> Result<bool, StoreFault> {
    match store.headers(disk, number)? {
        Some(found) => Ok(found.headers.as_slice() == want.0 && found.at == want.1),
        None => Ok(false),
    }
}

// Bodies without transactions under two hashes, and then one with a transaction under the first hash.
fn put_three(alloc: Global, disk: &mut MemDisk) -> Result<BlockStore, Fail> {
    let full = full_block(alloc)?;
    let bare = bare_block(alloc);
    let mut store = BlockStore::open(alloc, disk, &LIMITS)?;
    store.put_body(disk, &FIRST, &bare)?;
    store.put_body(disk, &SECOND, &bare)?;
    store.put_body(disk, &FIRST, &full)?;
    Ok(store)
}

// How many transactions the blocks of three hashes have.
fn bodies<D: Disk>(store: &BlockStore, disk: &mut D) -> Result<[Option<usize>; 3], StoreFault> {
    let first = txs(store, disk, &FIRST)?;
    let second = txs(store, disk, &SECOND)?;
    Ok([first, second, txs(store, disk, &THIRD)?])
}

#[test]
fn what_was_put_is_read_after_an_opening(rt: HostRuntime) -> Result<(), Fail> {
    let mut disk = MemDisk::new(rt.alloc());
    let mut store = put_three(rt.alloc(), &mut disk)?;
    store.put_headers(&mut disk, &[header(1)])?;
    store.put_headers(&mut disk, &[header(2), header(3)])?;
    let again = BlockStore::open(rt.alloc(), &mut disk, &LIMITS)?;
    assert_eq!(rt; bodies(&again, &mut disk), Ok([Some(1), Some(0), None]));
    assert!(rt; again.has_body(&SECOND) && !again.has_body(&THIRD));
    assert_eq!(rt; again.body_at(2), Some((FIRST, 236)));
    assert_eq!(rt;
        reads(&again, &mut disk, 1, (&[header(2), header(3)], 85)),
        Ok(true)
    );
    Ok(())
}

#[test]
fn a_failed_call_ends_the_opening(rt: HostRuntime) -> Result<(), Fail> {
    let mut whole = MemDisk::new(rt.alloc());
    put_both(rt.alloc(), &mut whole, &bare_block(rt.alloc()))?;
    let image = whole.image()?;
    // Each file takes a sync, its length and two gates; then a hash is read, and a payload of headers.
    for calls in 0..10 {
        let mut disk = FuseDisk::new(MemDisk::from_image(rt.alloc(), &image)?, calls);
        let found = counts(rt.alloc(), &mut disk);
        assert_eq!(rt; found, Err(StoreFault::DiskFailed), "after {calls}");
    }
    Ok(())
}

// What is answered to a body, and what is then counted.
fn put_and_count(
    alloc: Global,
    store: &mut BlockStore,
    disk: &mut MemDisk,
) -> (Result<(), StoreFault>, Counted) {
    let answer = store.put_body(disk, &FIRST, &bare_block(alloc));
    (answer, counts(alloc, disk))
}

#[test]
fn an_append_that_failed_is_made_anew(rt: HostRuntime) -> Result<(), Fail> {
    // Opening takes eight calls, and the append four, of which the third opens the gate. The call that fails, and how
    // many bodies the file then holds.
    for (call, left) in [(9, 0), (10, 0), (11, 0), (12, 1)] {
        let mut disk = MemDisk::new(rt.alloc());
        disk.fail_at(&[call])?;
        let mut store = BlockStore::open(rt.alloc(), &mut disk, &LIMITS)?;
        let failed = put_and_count(rt.alloc(), &mut store, &mut disk);
        assert!(rt; failed == (Err(StoreFault::DiskFailed), Ok((0, left))));
        assert!(rt; !store.has_body(&FIRST));
        let made = put_and_count(rt.alloc(), &mut store, &mut disk);
        assert!(rt; made == (Ok(()), Ok((0, 1))));
    }
    Ok(())
}
