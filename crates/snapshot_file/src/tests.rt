ghost use Rattle.std.specs.Prelude.{◌≡◌, [], ◌∷◌};
ghost use Rattle.snapshot_file.specs.Dump.{dump_coins, dump_text};
ghost use Rattle.snapshot_file.specs.Examples.{base, small_coins, at_index, three_coins};

use crate::{
    Pieces, Reader, SnapCoin, SnapCoins, SnapFault, SnapHead, write_group, write_head, write_member,
};
use base_types::{Coin, Hash32, OutPoint, Script, SnapError};
use coin_codec::write_key;
use std::alloc::Global;
use std::process::Abort;
use std::test::Fail;

// The dump of one coin: the metadata with the count 1, a transaction's hash of bytes 0x11, and the coin. Coins of one
// transaction are in the order of their keys' bytes, not of their numbers.
fn small_dump() -> [u8; 89]
    ensures text { result ≡ dump_text base small_coins }
    ensures order { dump_coins three_coins ≡ at_index 255 ∷ at_index 16_512 ∷ at_index 256 ∷ [] }
{
    *b"utxo\xff\x02\x00\xfa\xbf\xb5\xda\
        77777777777777777777777777777777\x01\x00\x00\x00\x00\x00\x00\x00\
        \x11\x11\x11\x11\x11\x11\x11\x11\x11\x11\x11\x11\x11\x11\x11\x11\
        \x11\x11\x11\x11\x11\x11\x11\x11\x11\x11\x11\x11\x11\x11\x11\x11\
        \x01\x00\x03\x32\x07\x51"
}

// Adds what a piece made whole.
fn add(all: &mut Pieces, pieces: Pieces) -> Result<(), Fail> {
    if pieces.head.is_some() {
        all.head = pieces.head;
    }
    for coin in pieces.coins.into_vec() {
        all.coins.push(coin)?;
    }
    Ok(())
}

// What a reader answers that is fed these bytes in pieces of a length, the metadata apart where a height is set.
fn read(
    rt: &impl Abort,
    alloc: Global,
    bytes: &[u8],
    len: usize,
    height: Option<u32>,
) -> Result<(Pieces, Result<(), SnapFault>), Fail> {
    let mut reader = Reader::new(alloc)?;
    let mut all = reader.feed(b"")?;
    let mut rest = bytes;
    if let Some(height) = height {
        assert!(rt; bytes.len() > 51);
        let (head, body) = bytes.split_at(51);
        add(&mut all, reader.feed(head)?)?;
        assert!(rt; reader.fed() == 51);
        reader.base_height(height);
        rest = body;
    }
    assert!(rt; len > 0);
    for piece in rest.chunks(len) {
        assert!(rt; reader.fed() < 1 << 20 && piece.len() < 1 << 20);
        match reader.feed(piece) {
            Ok(pieces) => add(&mut all, pieces)?,
            Err(fault) => {
                assert!(rt; reader.fed() < 1 << 20);
                assert!(rt; reader.feed(piece) == Err(fault));
                break;
            }
        }
    }
    Ok((all, reader.finish()))
}

// The same file with bytes in the place of those from one offset to another.
fn altered(alloc: Global, from: usize, to: usize, bytes: &[u8]) -> Result<Vec<u8>, Fail> {
    let small = small_dump();
    let mut file = Vec::new(alloc);
    file.extend_from_slice(&small[..from.min(89)])?;
    file.extend_from_slice(bytes)?;
    file.extend_from_slice(&small[to.min(89)..])?;
    Ok(file)
}

fn bad(error: SnapError, at: u64) -> Result<(), SnapFault> {
    Err(SnapFault::Bad { error, at })
}

#[test]
fn heights(rt: HostRuntime) -> Result<(), Fail> {
    let rows: [(u8, u32, usize, Result<(), SnapFault>); 5] = [
        (3, 1, 1, Ok(())),
        (3, 0, 0, bad(SnapError::HeightAbove, 85)),
        (4, 2, 1, Ok(())),
        (4, 1, 0, bad(SnapError::HeightAbove, 85)),
        (5, 1, 0, bad(SnapError::HeightAbove, 85)),
    ];
    for (code, height, coins, wanted) in rows {
        let file = altered(rt.alloc(), 85, 86, &[code])?;
        for len in [1, 1000] {
            let (pieces, said) = read(&rt, rt.alloc(), &file, len, Some(height))?;
            assert_eq!(rt; said, wanted, "{code} below {height}");
            assert!(rt; pieces.coins.as_slice().len() == coins);
        }
    }
    Ok(())
}

#[test]
fn writing_and_reading(rt: HostRuntime) -> Result<(), Fail> {
    let alloc = rt.alloc();
    let head = SnapHead {
        base: Hash32 { bytes: [0x37; 32] },
        count: 3,
    };
    let txid = Hash32 { bytes: [0x11; 32] };
    let mut file = Vec::new(alloc);
    write_head(&mut file, &head.base, head.count)?;
    write_group(&mut file, &txid, 3)?;
    let mut wanted = Pieces {
        head: Some(head),
        coins: SnapCoins::new(alloc),
    };
    let mut last = Vec::new(alloc);
    for index in [255u32, 16_512, 256] {
        let coin = Coin {
            value: 5_000_000_000,
            script: Script::new(alloc),
            height: 1,
            coinbase: true,
        };
        let key = OutPoint { txid, index };
        let mut text = Vec::new(alloc);
        write_key(&mut text, &key)?;
        assert!(rt; last.as_slice() < text.as_slice());
        last = text;
        let at = file.len() as u64;
        write_member(&mut file, index, &coin)?;
        wanted.coins.push(SnapCoin { key, coin, at })?;
    }
    for len in [1, 1000] {
        let (pieces, said) = read(&rt, alloc, &file, len, None)?;
        assert!(rt; said.is_ok() && pieces == wanted);
    }
    Ok(())
}
