use crate::{
    CoinFault, coin_len, compress_amount, decompress_amount, is_coin, key_len, read_coin, read_key,
    write_coin, write_key,
};
use base_types::{Coin, CoinError, Cursor, Hash32, OutPoint, ReadError, Script};
use std::alloc::Global;
use std::test::Fail;

// Whether the text is read as the coin, to its end, and written again, and has the length that the coin is told to have.
fn is_text(alloc: Global, text: &[u8], value: u64, script: &[u8], code: u32) -> Result<bool, Fail> {
    let mut cursor = Cursor::new(text);
    let coin = read_coin(alloc, &mut cursor)?;
    let wanted = Coin {
        value,
        script: Script::from_slice(alloc, script)?,
        height: code / 2,
        coinbase: code % 2 == 1,
    };
    let mut out = Vec::new(alloc);
    write_coin(&mut out, &coin)?;
    let exact = is_coin(text) && coin_len(&coin) == text.len();
    Ok(exact && cursor.is_at_end() && coin == wanted && out.as_slice() == text)
}

#[test]
fn coins_both_ways(rt: HostRuntime) -> Result<(), Fail> {
    let alloc = rt.alloc();
    let text =
        b"\x97\xf2\x3c\x83\x58\x00\x81\x61\x15\x94\x4e\x07\x7f\xe7\xc8\x03\xcf\xa5\x7f\x29\xb3\x6b\xf8\x7c\x1d\x35";
    let script =
        b"\x76\xa9\x14\x81\x61\x15\x94\x4e\x07\x7f\xe7\xc8\x03\xcf\xa5\x7f\x29\xb3\x6b\xf8\x7c\x1d\x35\x88\xac";
    assert!(rt; is_text(alloc, text, 60_000_000_000, script, 407_996)?);
    let text =
        b"\x8d\xdf\x77\xbb\xd1\x23\x00\x8c\x98\x8f\x1a\x4a\x4d\xe2\x16\x1e\x0f\x50\xaa\xc7\xf1\x7e\x7f\x95\x55\xca\xa4";
    let script =
        b"\x76\xa9\x14\x8c\x98\x8f\x1a\x4a\x4d\xe2\x16\x1e\x0f\x50\xaa\xc7\xf1\x7e\x7f\x95\x55\xca\xa4\x88\xac";
    assert!(rt; is_text(alloc, text, 110_397, script, 241_783)?);
    assert!(rt; is_text(alloc, b"\x03\x32\x07\x51", 5_000_000_000, b"\x51", 3)?);
    let text = b"\x8e\xfe\xfe\xfe\x7f\x00\x06";
    assert!(rt; is_text(alloc, text, 0, b"", 0xffff_ffff)?);
    let text = b"\x00\x00\x01AAAAAAAAAAAAAAAAAAAA";
    let script = b"\xa9\x14AAAAAAAAAAAAAAAAAAAA\x87";
    assert!(rt; is_text(alloc, text, 0, script, 0)?);
    let text = b"\x00\x00\x03AAAAAAAABBBBBBBBCCCCCCCCDDDDDDDD";
    let script = b"\x21\x03AAAAAAAABBBBBBBBCCCCCCCCDDDDDDDD\xac";
    assert!(rt; is_text(alloc, text, 0, script, 0)?);
    Ok(())
}

#[test]
fn amounts_both_ways(rt: HostRuntime) {
    for (amount, code) in [
        (0, 0),
        (1, 1),
        (1_000_000, 7),
        (100_000_000, 9),
        (5_000_000_000, 50),
        (2_100_000_000_000_000, 21_000_000),
    ] {
        assert!(rt; amount <= 2_100_000_000_000_000);
        assert_eq!(rt; compress_amount(amount), code);
        assert_eq!(rt; decompress_amount(code), Some(amount));
    }
}

// The fault of these bytes behind one byte, so that no offset is a length.
fn fault_of(alloc: Global, bytes: &[u8]) -> Result<Option<CoinFault>, Fail> {
    let mut all = Vec::new(alloc);
    all.push(0xff)?;
    all.extend_from_slice(bytes)?;
    let mut cursor = Cursor::new(&all);
    let _ = cursor.u8();
    Ok(read_coin(alloc, &mut cursor).err())
}

#[test]
fn errors_of_coins(rt: HostRuntime) -> Result<(), Fail> {
    let rows: [(&[u8], CoinError, usize); 14] = [
        (b"", CoinError::Short, 1),
        (b"\x83", CoinError::Short, 2),
        (b"\x03\x32\x07", CoinError::Short, 4),
        (b"\x03\x32\x00AAA", CoinError::Short, 7),
        (b"\x03\x32\x1f\x76\xa9\x14AAAA", CoinError::Short, 11),
        (b"\x8e\xfe\xfe\xff\x00\x32", CoinError::HeightTooLarge, 1),
        (
            b"\xff\xff\xff\xff\xff\xff\xff\xff\xff",
            CoinError::HeightTooLarge,
            1,
        ),
        (
            b"\x03\xa0\xc8\xad\xb1\xd1\x83\xff\x01",
            CoinError::BadAmount,
            2,
        ),
        (
            b"\x03\xff\xff\xff\xff\xff\xff\xff\xff\xff",
            CoinError::BadAmount,
            2,
        ),
        (b"\x03\x32\x04", CoinError::UncompressedKey, 3),
        (b"\x03\x32\x05AAAA", CoinError::UncompressedKey, 3),
        (b"\x03\x32\xcd\x17", CoinError::ScriptTooLong, 3),
        (
            b"\x03\x32\x1f\x76\xa9\x14AAAAAAAAAAAAAAAAAAAA\x88\xac",
            CoinError::SecondSpelling,
            3,
        ),
        (
            b"\x03\x32\x1d\xa9\x14AAAAAAAAAAAAAAAAAAAA\x87",
            CoinError::SecondSpelling,
            3,
        ),
    ];
    for (bytes, error, at) in rows {
        assert!(rt; !is_coin(bytes), "{bytes:?}");
        let fault = fault_of(rt.alloc(), bytes)?;
        assert!(rt; fault == Some(CoinFault::Bad { error, at }), "{bytes:?}");
    }
    Ok(())
}

#[test]
fn keys(rt: HostRuntime) -> Result<(), Fail> {
    let key = OutPoint {
        txid: Hash32 { bytes: [0x11; 32] },
        index: 0xffff_ffff,
    };
    let mut text = Vec::new(rt.alloc());
    write_key(&mut text, &key)?;
    let mut wanted = Vec::new(rt.alloc());
    wanted.push(0x43)?;
    wanted.extend_from_slice(&[0x11; 32])?;
    wanted.extend_from_slice(b"\x8e\xfe\xfe\xfe\x7f")?;
    assert!(rt; text.as_slice() == wanted.as_slice() && key_len(&key) == 38);
    assert!(rt; read_key(&mut Cursor::new(&text)) == Ok(key));
    text.pop();
    assert!(rt; read_key(&mut Cursor::new(&text)) == Err(ReadError::Short));
    text.pop();
    text.extend_from_slice(b"\xff\x00")?;
    assert!(rt; read_key(&mut Cursor::new(&text)) == Err(ReadError::TooLarge));
    assert!(rt; read_key(&mut Cursor::new(b"\x42")) == Err(ReadError::LongSpelling));
    Ok(())
}
