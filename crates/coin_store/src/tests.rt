ghost use Rattle.std.specs.Prelude.{◌≡◌, ◌≤◌, length, IfOk};
ghost use Rattle.coin_codec.specs.CoinText.{coin_text};
ghost use Rattle.base_types.specs.Coins.{CoinFits};
ghost use Rattle.coin_store.specs.Batches.{marker_text};

use crate::{CoinStore, Marker, Secrets};
use base_types::{Coin, Hash32, Limits, OutPoint, Salt, Script, StoreFault, View};
use disk_model::{Disk, Image, MemDisk};
use std::alloc::Global;
use std::test::Fail;

const LIMITS: Limits = Limits {
    file_bytes: 4096,
    headers: 1,
};

const SALT: Salt = Salt { a: 1, b: 2 };

const START: Hash32 = Hash32 { bytes: [0; 32] };

const TIP: Hash32 = Hash32 { bytes: [0x22; 32] };

const FIRST: OutPoint = OutPoint {
    txid: Hash32 { bytes: [0x11; 32] },
    index: 0,
};

const NO_KEY: [u8; 8] = [0; 8];

/// The payloads as a log.
fn log_of(alloc: Global, payloads: &[&[u8]]) -> Result<Vec<u8>, Fail> {
    let mut bytes = Vec::new(alloc);
    for payload in payloads {
        let payload: &[u8] = *payload;
        bytes.push(1)?;
        bytes.extend_from_slice(&(payload.len().min(1 << 16) as u32).to_le_bytes())?;
        bytes.extend_from_slice(payload)?;
    }
    bytes.push(0)?;
    Ok(bytes)
}

/// The payloads as the log of file 3.
fn image_of(alloc: Global, payloads: &[&[u8]]) -> Result<Image, Fail> {
    let mut image = Image::new(alloc);
    image.put(3, &log_of(alloc, payloads)?)?;
    Ok(image)
}

/// Adds a row of that output of the first outpoint's transaction, with these bytes.
fn add_row(payload: &mut Vec<u8>, output: u8, value: &[u8]) -> Result<(), Fail> {
    payload.push(0x43)?;
    payload.extend_from_slice(&[0x11; 32])?;
    payload.push(output)?;
    payload.push(value.len().min(252) as u8)?;
    payload.extend_from_slice(value)?;
    Ok(())
}

/// A marker at the tip, and a row of the first outpoint with these bytes.
fn one_row(alloc: Global, value: &[u8]) -> Result<Vec<u8>, Fail> {
    let mut payload = Vec::new(alloc);
    payload.push(0x42)?;
    payload.extend_from_slice(&[0x22; 32])?;
    add_row(&mut payload, 0, value)?;
    Ok(payload)
}

fn open<D: Disk>(alloc: Global, disk: &mut D, key: [u8; 8]) -> Result<CoinStore, StoreFault> {
    let secrets = Secrets { salt: SALT, key };
    CoinStore::open(alloc, disk, 3, None, &START, &LIMITS, &secrets)
}

/// The value of an outpoint's coin, in satoshis.
fn value_at<D: Disk>(
    alloc: Global,
    store: &CoinStore,
    disk: &mut D,
    key: &OutPoint,
) -> Result<Option<u64>, StoreFault> {
    let mut broken = Vec::new(alloc);
    let mut view = store.view(disk, &mut broken);
    match view.get(key)? {
        Some(coin) => Ok(Some(coin.value)),
        None => Ok(None),
    }
}

/// That of the first outpoint's coin.
fn value<D: Disk>(
    alloc: Global,
    store: &CoinStore,
    disk: &mut D,
) -> Result<Option<u64>, StoreFault> {
    value_at(alloc, store, disk, &FIRST)
}

/// A base of the first two outputs' coins, and a batch that takes the second away.
#[test]
fn batches_overrule_a_base(rt: HostRuntime) -> Result<(), Fail> {
    let coin = [0x03, 0x32, 0x07, 0x51];
    let mut base = Vec::new(rt.alloc());
    add_row(&mut base, 0, &coin)?;
    add_row(&mut base, 1, &coin)?;
    let mut batch = Vec::from_slice(rt.alloc(), &[0x42])?;
    batch.extend_from_slice(&[0x22; 32])?;
    add_row(&mut batch, 1, &[])?;
    let mut image = image_of(rt.alloc(), &[&batch])?;
    image.put(4, &log_of(rt.alloc(), &[&base])?)?;
    let mut disk = MemDisk::from_image(rt.alloc(), &image)?;
    let store = CoinStore::open(
        rt.alloc(),
        &mut disk,
        3,
        Some(4),
        &START,
        &LIMITS,
        &Secrets {
            salt: SALT,
            key: NO_KEY,
        },
    )?;
    let second = OutPoint { index: 1, ..FIRST };
    assert_eq!(rt;
        value(rt.alloc(), &store, &mut disk),
        Ok(Some(5_000_000_000))
    );
    assert_eq!(rt; value_at(rt.alloc(), &store, &mut disk, &second), Ok(None));
    assert_eq!(rt; store.marker_at(0), Some((Marker::At { tip: TIP }, 0)));
    assert_eq!(rt; store.keys()?.as_slice(), [FIRST].as_slice());
    assert_eq!(rt; store.base_keys()?.as_slice(), [FIRST, second].as_slice());
    let mut broken = Vec::new(rt.alloc());
    let mut base = store.base_view(&mut disk, &mut broken);
    assert!(rt; base.get(&second)?.is_some());
    Ok(())
}

#[test]
fn a_failed_read_ends_the_opening(rt: HostRuntime) -> Result<(), Fail> {
    let payload = one_row(rt.alloc(), &[0x03, 0x32, 0x07, 0x51])?;
    let image = image_of(rt.alloc(), &[&payload, &payload])?;
    for call in 1..=7 {
        let mut disk = MemDisk::from_image(rt.alloc(), &image)?;
        disk.fail_at(&[call])?;
        let found = open(rt.alloc(), &mut disk, NO_KEY);
        assert!(rt; found.err() == Some(StoreFault::DiskFailed));
    }
    Ok(())
}

const OTHER: Hash32 = Hash32 { bytes: [0x33; 32] };

/// The coin whose text is 03320751.
fn the_coin(alloc: Global) -> Result<Coin, Fail>
    ensures { IfOk result (λ coin. CoinFits coin × (length (coin_text coin) ≡ 4)) }
{
    Ok(Coin {
        value: 5_000_000_000,
        script: Script::from_slice(alloc, &[0x51])?,
        height: 1,
        coinbase: true,
    })
}

// A hash has 32 bytes, of which the language speaks where it is passed by value.
fn has_32_bytes(hash: Hash32)
    ensures { length hash.bytes ≡ 32 }
{
    let _hash = hash;
}

// The length of a marker's text.
#[tactic(auto, unfolding(crate::specs::Batches::marker_text))]
fn is_short(marker: &Marker)
    ensures { length (marker_text marker.now) ≤ 65 }
{
    match marker {
        Marker::At { tip } => has_32_bytes(*tip),
        Marker::Between { new_tip, old_tip } => {
            has_32_bytes(*new_tip);
            has_32_bytes(*old_tip);
        }
    }
}

/// Flushes a payload with a row of the first outpoint, and at a marker between two tips one more, which takes the coin
/// away again.
fn flush<D: Disk>(
    store: &mut CoinStore,
    disk: &mut D,
    coin: &Coin,
    marker: &Marker,
) -> Result<(), StoreFault>
    requires fits { CoinFits coin.now }
    requires few { length (coin_text coin.now) ≡ 4 }
{
    is_short(marker);
    store.prepare(&[FIRST], 200, 500)?;
    store.stage(&FIRST, Some(coin));
    store.apply(disk, marker)?;
    if let Marker::Between { .. } = marker {
        store.stage(&FIRST, None);
        store.apply(disk, marker)?;
    }
    Ok(())
}

/// A marker between two tips, and a row of the first outpoint with these bytes.
fn between_row(alloc: Global, value: &[u8]) -> Result<Vec<u8>, Fail> {
    let mut payload = Vec::from_slice(alloc, &[0x48])?;
    payload.extend_from_slice(&[0x33; 32])?;
    let at = one_row(alloc, value)?;
    let (_, rest) = at.split_first().unwrap_or((&0, &[]));
    payload.extend_from_slice(rest)?;
    Ok(payload)
}

#[test]
fn a_flush_appends_its_payloads(rt: HostRuntime) -> Result<(), Fail> {
    let coin = the_coin(rt.alloc())?;
    let at = Marker::At { tip: TIP };
    let between = Marker::Between {
        new_tip: OTHER,
        old_tip: TIP,
    };
    let keys: [([u8; 8], [u8; 4]); 2] = [
        (NO_KEY, [0x03, 0x32, 0x07, 0x51]),
        ([1, 2, 3, 4, 5, 6, 7, 8], [0x02, 0x30, 0x04, 0x55]),
    ];
    for (key, value_bytes) in keys {
        let first = one_row(rt.alloc(), &value_bytes)?;
        let second = between_row(rt.alloc(), &value_bytes)?;
        let third = between_row(rt.alloc(), &[])?;
        let steps: [(Marker, &[&[u8]], Option<u64>); 3] = [
            (at, &[&first], Some(5_000_000_000)),
            (between, &[&first, &second, &third], None),
            (at, &[&first, &second, &third, &first], Some(5_000_000_000)),
        ];
        let mut disk = MemDisk::new(rt.alloc());
        let mut store = open(rt.alloc(), &mut disk, key)?;
        for (marker, payloads, want) in steps {
            flush(&mut store, &mut disk, &coin, &marker)?;
            let image = disk.image()?;
            let want_image = image_of(rt.alloc(), payloads)?;
            assert_eq!(rt;
                image.get(3).unwrap_or(&[]),
                want_image.get(3).unwrap_or(&[])
            );
            assert_eq!(rt; value(rt.alloc(), &store, &mut disk), Ok(want));
            assert_eq!(rt; store.marker(), marker);
            let again = open(rt.alloc(), &mut disk, key)?;
            assert_eq!(rt; value(rt.alloc(), &again, &mut disk), Ok(want));
            assert_eq!(rt; again.marker(), marker);
        }
    }
    Ok(())
}
