ghost use Rattle.std.specs.Prelude.{IfOk};
ghost use Rattle.base_types.specs.Coins.{CoinFits};

use crate::flush;
use base_types::{Coin, Flushes, Hash32, Limits, OutPoint, Salt, Script, StoreFault, Why};
use chain_state::{ChainState, Waiting};
use coin_store::{CoinStore, Marker, Secrets};
use coin_views::Layers;
use disk_model::{Disk, Image, MemDisk};
use std::alloc::Global;
use std::test::Fail;

const LIMITS: Limits = Limits {
    file_bytes: 1 << 20,
    headers: 1,
};

const SALT: Salt = Salt { a: 1, b: 2 };

const TIP: Hash32 = Hash32 { bytes: [0x22; 32] };

const FILE: u32 = 3;

/// The coin whose text is 03320751.
fn the_coin(alloc: Global) -> Result<Coin, Fail>
    ensures { IfOk result CoinFits }
{
    Ok(Coin {
        value: 5_000_000_000,
        script: Script::from_slice(alloc, &[0x51])?,
        height: 1,
        coinbase: true,
    })
}

fn key_of(index: u32) -> OutPoint {
    OutPoint {
        txid: Hash32 { bytes: [0x11; 32] },
        index,
    }
}

/// A chainstate at the tip over a file of coins, without entries.
fn chain_over<D: Disk>(alloc: Global, disk: &mut D) -> Result<ChainState, StoreFault> {
    let secrets = Secrets {
        salt: SALT,
        key: [0; 8],
    };
    let start = Hash32 { bytes: [0; 32] };
    Ok(ChainState {
        tip: TIP,
        store: CoinStore::open(alloc, disk, FILE, None, &start, &LIMITS, &secrets)?,
        layers: Layers::new(alloc, &SALT),
        waiting: Waiting::new(alloc),
    })
}

/// Adds a coin under a flag.
fn add(alloc: Global, chain: &mut ChainState, index: u32) -> Result<(), Fail> {
    let coin = the_coin(alloc)?;
    chain.layers.drop_top();
    match chain.layers.tip_cache().add(&key_of(index), coin, true) {
        Ok(()) => Ok(()),
        Err(_) => Err(Fail::from("no memory")),
    }
}

/// Adds the row of the coin, with this text of its number.
fn add_row(payload: &mut Vec<u8>, number: &[u8]) -> Result<(), Fail> {
    payload.push(0x43)?;
    payload.extend_from_slice(&[0x11; 32])?;
    payload.extend_from_slice(number)?;
    payload.extend_from_slice(&[0x04, 0x03, 0x32, 0x07, 0x51])?;
    Ok(())
}

/// The rows of the numbers from 0 to 299 and of 16512, in the order of their texts.
fn rows_in_order(alloc: Global) -> Result<Vec<u8>, Fail> {
    let mut payload = Vec::from_slice(alloc, &[0x42])?;
    payload.extend_from_slice(&[0x22; 32])?;
    for number in 0..128u8 {
        add_row(&mut payload, &[number])?;
    }
    for number in 0..128u8 {
        add_row(&mut payload, &[0x80, number])?;
    }
    add_row(&mut payload, &[0x80, 0x80, 0x00])?;
    for number in 0..44u8 {
        add_row(&mut payload, &[0x81, number])?;
    }
    Ok(payload)
}

/// Whether a file has one record, with this payload.
fn has_payload(image: &Image, payload: &[u8]) -> bool {
    let bytes = image.get(FILE).unwrap_or(&[]);
    bytes.len() == payload.len() + 6 && &bytes[5..bytes.len() - 1] == payload
}

// Entries that changed in mixed order are written as rows in the order of their keys, each once; and then nothing.
#[test]
fn writes_rows_in_order(rt: HostRuntime) -> Result<(), Fail> {
    let mut disk = MemDisk::new(rt.alloc());
    let mut chain = chain_over(rt.alloc(), &mut disk)?;
    add(rt.alloc(), &mut chain, 16512)?;
    for number in 0..150 {
        add(rt.alloc(), &mut chain, 299 - number)?;
        add(rt.alloc(), &mut chain, number)?;
    }
    let mut flushes = Flushes::new(rt.alloc());
    let payload = rows_in_order(rt.alloc())?;
    for _ in 0..2 {
        flush(
            rt.alloc(),
            &mut disk,
            &mut chain,
            Why::Command,
            &mut flushes,
        )?;
        assert!(rt; has_payload(&disk.image()?, &payload));
        assert_eq!(rt; chain.store.marker(), Marker::At { tip: TIP });
    }
    assert_eq!(rt; flushes.as_slice().len(), 2);
    Ok(())
}

// A device call that fails ends the flush, which stays without an end.
#[test]
fn a_failed_call_cuts_a_flush(rt: HostRuntime) -> Result<(), Fail> {
    let mut opened = MemDisk::new(rt.alloc());
    chain_over(rt.alloc(), &mut opened)?;
    let first = opened.calls().len().min(1000) as u64;
    for call in 1..=3 {
        let mut disk = MemDisk::new(rt.alloc());
        disk.fail_at(&[first + call])?;
        let mut chain = chain_over(rt.alloc(), &mut disk)?;
        add(rt.alloc(), &mut chain, 7)?;
        let mut flushes = Flushes::new(rt.alloc());
        let failed = flush(rt.alloc(), &mut disk, &mut chain, Why::End, &mut flushes);
        assert_eq!(rt; failed, Err(StoreFault::DiskFailed));
        let done = match flushes.as_slice() {
            [member] => member.done.is_some(),
            _ => true,
        };
        assert!(rt; !done);
    }
    Ok(())
}
