ghost use Rattle.std.specs.Prelude.{◌≡◌};
ghost use Rattle.coin_hash.specs.CoinHash.{hash_text};
ghost use Rattle.coin_hash.specs.Examples.{one_coin};

use crate::Hasher;
use base_types::{Coin, Hash32, OutPoint, Script, hash_twice};
use std::test::Fail;

const ONE: Hash32 = Hash32 {
    bytes: [
        0x3a, 0x67, 0x22, 0x1e, 0x05, 0x39, 0x36, 0x43, 0x75, 0xd9, 0xdd, 0x64, 0x5b, 0xc0, 0x3d,
        0x58, 0xd5, 0x2c, 0x9a, 0x5f, 0x82, 0xae, 0x33, 0xf3, 0x47, 0xd0, 0xdb, 0x34, 0xb4, 0x6e,
        0x0c, 0xda,
    ],
};

const TWO: Hash32 = Hash32 {
    bytes: [
        0x1e, 0xcd, 0x0b, 0x2d, 0xea, 0xcb, 0x00, 0xce, 0x99, 0x1f, 0xcf, 0x0d, 0xdc, 0xe5, 0xf2,
        0x77, 0xf5, 0xe8, 0x3f, 0x8e, 0xe6, 0x39, 0xcc, 0x57, 0xf4, 0x9e, 0xd4, 0x1c, 0x07, 0x4b,
        0x30, 0xbe,
    ],
};

// The 50 bytes that are hashed of the first coin.
fn text_of_one() -> [u8; 50]
    ensures { result ≡ hash_text one_coin }
{
    *b"\x11\x11\x11\x11\x11\x11\x11\x11\x11\x11\x11\x11\x11\x11\x11\x11\
      \x11\x11\x11\x11\x11\x11\x11\x11\x11\x11\x11\x11\x11\x11\x11\x11\
      \x00\x00\x00\x00\x03\x00\x00\x00\x00\xf2\x05\x2a\x01\x00\x00\x00\x01\x51"
}

#[test]
fn hashes(rt: HostRuntime) -> Result<(), Fail> {
    let first = OutPoint {
        txid: Hash32 { bytes: [0x11; 32] },
        index: 0,
    };
    let short = Coin {
        value: 5_000_000_000,
        script: Script::from_slice(rt.alloc(), b"\x51")?,
        height: 1,
        coinbase: true,
    };
    let second = OutPoint {
        txid: Hash32 { bytes: [0x22; 32] },
        index: 258,
    };
    let long = Coin {
        value: 1,
        script: Script::from_slice(rt.alloc(), &[0x51; 300])?,
        height: 7,
        coinbase: false,
    };
    let mut one = Hasher::new();
    one.add(&first, &short);
    assert!(rt; one.finish() == ONE && hash_twice(&text_of_one()) == ONE);
    let mut two = Hasher::new();
    two.add(&first, &short);
    assert!(rt; long.script.as_slice().len() == 300);
    two.add(&second, &long);
    assert!(rt; two.finish() == TWO);
    Ok(())
}
