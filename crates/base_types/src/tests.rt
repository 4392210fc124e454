use super::*;
use std::alloc::Global;
use std::test::Fail;

// Each number with its VARINT and its CompactSize.
#[test]
fn numbers_have_one_text(rt: HostRuntime) -> Result<(), Fail> {
    let rows: [(u64, &[u8], &[u8]); 12] = [
        (0, &[0], &[0]),
        (127, &[0x7f], &[0x7f]),
        (128, &[0x80, 0], &[0x80]),
        (252, &[0x80, 0x7c], &[0xfc]),
        (253, &[0x80, 0x7d], &[0xfd, 0xfd, 0]),
        (255, &[0x80, 0x7f], &[0xfd, 0xff, 0]),
        (256, &[0x81, 0], &[0xfd, 0, 1]),
        (16_511, &[0xff, 0x7f], &[0xfd, 0x7f, 0x40]),
        (16_512, &[0x80, 0x80, 0], &[0xfd, 0x80, 0x40]),
        (65_535, &[0x82, 0xfe, 0x7f], &[0xfd, 0xff, 0xff]),
        (
            1 << 32,
            &[0x8e, 0xfe, 0xfe, 0xff, 0],
            &[0xff, 0, 0, 0, 0, 1, 0, 0, 0],
        ),
        (
            u64::MAX,
            &[0x80, 0xfe, 0xfe, 0xfe, 0xfe, 0xfe, 0xfe, 0xfe, 0xfe, 0x7f],
            &[0xff; 9],
        ),
    ];
    for (number, varint, compact) in rows {
        let mut out = Vec::new(rt.alloc());
        put_varint(&mut out, number)?;
        assert_eq!(rt; out.as_slice(), varint, "the VARINT of {number}");
        assert_eq!(rt; Cursor::new(varint).varint(), Ok(number));
        let mut out = Vec::new(rt.alloc());
        put_compact_size(&mut out, number)?;
        assert_eq!(rt; out.as_slice(), compact, "the CompactSize of {number}");
        assert_eq!(rt; Cursor::new(compact).compact_size(), Ok(number));
    }
    Ok(())
}

// What is wrong with each text, and where the cursor then stands.
#[test]
fn faults_leave_the_cursor(rt: HostRuntime) {
    let short = Err(ReadError::Short);
    let long = Err(ReadError::LongSpelling);
    let large = Err(ReadError::TooLarge);
    let varints: [(&[u8], Result<u64, ReadError>); 4] = [
        (&[], short),
        (&[0x80], short),
        (&[0xff; 10], large),
        (
            &[0x80, 0xfe, 0xfe, 0xfe, 0xfe, 0xfe, 0xfe, 0xfe, 0xff, 0],
            large,
        ),
    ];
    for (bytes, fault) in varints {
        let mut cursor = Cursor::new(bytes);
        assert_eq!(rt; cursor.varint(), fault);
        assert_eq!(rt; cursor.place(), 0);
    }
    let lengths: [(&[u8], Result<usize, ReadError>); 7] = [
        (&[0xfd, 5, 0], Err(ReadError::LongSpelling)),
        (&[0xfd, 0xfd], Err(ReadError::Short)),
        (&[0xfe, 1, 0, 0, 2], Err(ReadError::TooLarge)),
        (&[0xfe, 0, 0, 0, 2], Ok(33_554_432)),
        (&[0xfe, 0xff, 0xff, 0, 0], Err(ReadError::LongSpelling)),
        (
            &[0xff, 0xff, 0xff, 0xff, 0xff, 0, 0, 0, 0],
            Err(ReadError::LongSpelling),
        ),
        (&[], Err(ReadError::Short)),
    ];
    for (bytes, read) in lengths {
        let mut cursor = Cursor::new(bytes);
        let got = cursor.compact_len();
        assert_eq!(rt; got, read);
        if got.is_err() {
            assert_eq!(rt; cursor.place(), 0);
        }
    }
    assert_eq!(rt; Cursor::new(&[0xfd, 5, 0]).compact_size(), long);
}

#[test]
fn fields_follow_each_other(rt: HostRuntime) -> Result<(), Fail> {
    let mut out = Vec::new(rt.alloc());
    put_u16(&mut out, 0x0201)?;
    put_u32(&mut out, 0x0605_0403)?;
    put_u64(&mut out, 0x0e0d_0c0b_0a09_0807)?;
    out.extend_from_slice(&[15, 16])?;
    for (place, byte) in out.iter().enumerate() {
        assert_eq!(rt; usize::from(*byte), place + 1);
    }
    let mut cursor = Cursor::new(&out);
    assert_eq!(rt; cursor.u16(), Ok(0x0201));
    assert_eq!(rt; cursor.u32(), Ok(0x0605_0403));
    assert_eq!(rt; cursor.u64(), Ok(0x0e0d_0c0b_0a09_0807));
    assert_eq!(rt; cursor.place(), 14);
    assert_eq!(rt; cursor.take(3), Err(ReadError::Short));
    assert_eq!(rt; cursor.u8(), Ok(15));
    assert_eq!(rt; cursor.take(1), Ok([16].as_slice()));
    assert!(rt; cursor.is_at_end());
    assert_eq!(rt; cursor.end(), 16);
    assert_eq!(rt; cursor.u8(), Err(ReadError::Short));
    assert_eq!(rt; cursor.u16(), Err(ReadError::Short));
    assert_eq!(rt; cursor.u32(), Err(ReadError::Short));
    assert_eq!(rt; cursor.u64(), Err(ReadError::Short));
    Ok(())
}

// The header of the first block of regtest, and its hash as people know it.
#[test]
fn the_first_block_has_its_hash(rt: HostRuntime) -> Result<(), Fail> {
    let mut header = Vec::new(rt.alloc());
    put_u32(&mut header, 1)?;
    header.extend_from_slice(&[0; 32])?;
    hex_into(
        &mut header,
        "3ba3edfd7a7b12b27ac72c3e67768f617fc81bc3888a51323a9fb8aa4b1e5e4a",
    )?;
    put_u32(&mut header, 1_296_688_602)?;
    put_u32(&mut header, 0x207f_ffff)?;
    put_u32(&mut header, 2)?;
    assert_eq!(rt;
        hash_twice(&header).printed().as_slice(),
        b"0f9188f13cb7b2c71f2a335e3a4fc328bf5beb436012afca590b1a11466e2206".as_slice()
    );
    Ok(())
}

fn hex_into(out: &mut Vec<u8>, digits: &str) -> Result<(), Fail> {
    let mut bytes = [0; 32];
    hex::decode_to_slice(digits, &mut bytes)
        .ok()
        .ok_or("no digits")?;
    out.extend_from_slice(&bytes)?;
    Ok(())
}

fn coin_of(alloc: Global) -> Result<Coin, std::alloc::AllocError> {
    Ok(Coin {
        value: 5_000_000_000,
        script: Script::from_slice(alloc, &[0x51])?,
        height: 1,
        coinbase: true,
    })
}

#[test]
fn values_are_made_and_compared(rt: HostRuntime) -> Result<(), Fail> {
    let coin = coin_of(rt.alloc())?;
    assert!(rt; coin.copy()? == coin);
    assert!(rt; coin.script != Script::new(rt.alloc()));
    let output = TxOut {
        value: -1,
        script: Script::new(rt.alloc()),
    };
    assert!(rt; output == output.clone()?);
    let low = OutPoint {
        txid: Hash32 { bytes: [1; 32] },
        index: 7,
    };
    let high = OutPoint { index: 256, ..low };
    assert!(rt; low < high);
    let mut words = Words::new(rt.alloc());
    assert!(rt; words.is_empty());
    words.push("--quick")?;
    assert!(rt; !words.is_empty());
    assert_eq!(rt;
        StoreFault::from(std::alloc::AllocError),
        StoreFault::NoMemory
    );
    Ok(())
}

#[test]
fn names_and_numbers(rt: HostRuntime) {
    assert_eq!(rt; HeaderRefused::HighHash.name(), "HighHash");
    assert_eq!(rt; BodyRefused::UnexpectedWitness.name(), "UnexpectedWitness");
    assert_eq!(rt; CoinRefused::CoinbaseAmount.name(), "CoinbaseAmount");
    let statuses = [
        (Status::Done, 0),
        (Status::DiskFault, 1),
        (Status::HostFault, 2),
        (Status::InFault, 3),
        (Status::OutFault, 4),
        (Status::NoMemory, 5),
        (Status::Damaged { file: 3, at: 7 }, 6),
        (Status::Usage, 7),
        (Status::TooLong, 8),
        (Status::Full { file: 3 }, 9),
        (Status::BadCommitments, 10),
        (Status::CacheFull, 12),
    ];
    for (status, number) in statuses {
        assert_eq!(rt; status.number(), number);
    }
}

#[test]
fn flushes_and_keys_are_listed(rt: HostRuntime) -> Result<(), Fail> {
    let tip = Hash32 { bytes: [7; 32] };
    let mut flushes = Flushes::new(rt.alloc());
    flushes.begin(Chain::Full, &tip, Why::Command, 3)?;
    flushes.finish(5);
    flushes.begin(Chain::Snapshot, &tip, Why::End, 6)?;
    flushes.tell(0);
    let told = Flushed {
        chain: Chain::Full,
        tip,
        why: Why::Command,
        begun: 3,
        done: Some(5),
        told: true,
    };
    assert_eq!(rt; flushes.as_slice()[0], told);
    assert!(rt; flushes.as_slice()[1].done.is_none());

    let key = OutPoint {
        txid: tip,
        index: 1,
    };
    let mut keys = Keys::new(rt.alloc());
    keys.push(key)?;
    assert!(rt; keys.as_slice()[0] == key);
    let mut cursor = Cursor::new(&[1, 2]);
    let mut ahead = cursor.copy();
    assert_eq!(rt; ahead.u16(), Ok(513));
    assert_eq!(rt; cursor.u8(), Ok(1));
    Ok(())
}
