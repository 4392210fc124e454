//! Whole files, and hosts that fail.

use crate::{GenFault, generate};
use io_traits::MemHost;
use sha2::{Digest, Sha256};
use std::alloc::Global;
use std::test::Fail;

// A number and a count, the bytes of the file, the last block's hash as it is printed, and the SHA-256 of the file.
type Row = (u64, u32, usize, &'static str, &'static str);

// By a generator of its own in Python, with hashlib.
const ROWS: [Row; 5] = [
    (
        2,
        2,
        344,
        "0d1a5a730c31c30310b19dbadbbacab667b163e0b6431297944d26d157eafcab",
        "2d0957cf5421c8801e0de2af3bb7d9ca42c604a5342b72b79958693c10dff3ff",
    ),
    (
        0,
        3,
        536,
        "79da68099244885c3f72ba21f9ce94f192cb91f5e8e5403ea2b0fb7ea883e058",
        "5d86c54cde5e26b0b853d0bb32e0de65cecc58a0c530152d903bb313ed93d1cf",
    ),
    (
        2,
        101,
        18_316,
        "3b97e6088f2d81fe4150d05e13d7e57c6fb75317f46223bf12c9f132d2c03e7a",
        "0f397ce296e1b77b71fd148b1517134a4f1d1b8bb4ae6c19ad783d9f6ce4ac81",
    ),
    (
        u64::MAX,
        17,
        3_065,
        "29c923be1d45d2db0d929edd1c2fd005d88839b6a41cf497a582986d0ebaa30a",
        "1b71a2998347be5ba242adb697f43d1ebadddb75e7d9658862e31bbe79909556",
    ),
    (
        3,
        5_200,
        1_410_357,
        "3f9c6d98434b0799a5cba5f06634f50643b4457119ca55236c7528cb8832892f",
        "1951015c8d7998228e7835064a7cbb8d4d74581d0f4cb80f6be2b1f0e5c755fb",
    ),
];

fn digits_of(file: &[u8]) -> Result<[u8; 64], Fail> {
    let digest = Sha256::digest(file);
    let mut digits = [0; 64];
    hex::encode_to_slice(&digest, &mut digits)?;
    Ok(digits)
}

// The length of a file, the last block's hash, and the SHA-256 of the file. A chain has 1 to 100,000 blocks.
fn made(alloc: Global, number: u64, count: u32) -> Result<(usize, [u8; 64], [u8; 64]), Fail> {
    let mut host = MemHost::new(alloc, &[])?;
    let tip = generate(alloc, &mut host, "blocks", number, count.clamp(1, 100_000))?;
    let file = host.get("blocks").unwrap_or(&[]);
    Ok((file.len(), tip.printed(), digits_of(file)?))
}

#[test]
fn files_of_several_lengths(rt: HostRuntime) -> Result<(), Fail> {
    for (number, count, len, tip, hash) in ROWS {
        let found = made(rt.alloc(), number, count)?;
        assert_eq!(rt; found.0, len, "the length of {number} {count}");
        assert_eq!(rt;
            found.1.as_slice(),
            tip.as_bytes(),
            "the tip of {number} {count}"
        );
        assert_eq!(rt;
            found.2.as_slice(),
            hash.as_bytes(),
            "the file of {number} {count}"
        );
    }
    Ok(())
}

fn len_of(host: &MemHost, name: &str) -> usize {
    host.get(name).map_or(0, |bytes| bytes.len())
}

// The calls are one to make the file, one for each frame, and one to end it. The call that fails, and the bytes that the
// file is left with: before the first it has three.
#[test]
fn each_call_of_a_host_fails(rt: HostRuntime) -> Result<(), Fail> {
    for (fail, left) in [(1, 3), (2, 0), (3, 160), (4, 344)] {
        let mut host = MemHost::new(rt.alloc(), &[fail])?;
        host.put("blocks", b"old")?;
        host.put("other", b"other")?;
        let found = generate(rt.alloc(), &mut host, "blocks", 2, 2);
        assert_eq!(rt; found, Err(GenFault::HostFailed), "call {fail}");
        assert_eq!(rt; len_of(&host, "blocks"), left, "call {fail}");
        let found = generate(rt.alloc(), &mut host, "blocks", 2, 2);
        assert!(rt; found.is_ok());
        assert_eq!(rt; len_of(&host, "blocks"), 344, "call {fail}");
        assert_eq!(rt; len_of(&host, "other"), 5);
    }
    Ok(())
}
