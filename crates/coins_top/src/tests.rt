//! Runs over small files, and runs that meet faults.

ghost use Rattle.std.specs.Prelude.{◌≤◌};
ghost use Rattle.disk_model.specs.MemDisk.{clock_of};

use super::*;
use disk_model::{Disk, MemDisk, Pick};
use io_traits::{MemHost, MemSink, MemSource};
use std::alloc::{AllocError, Global};
use std::test::Fail;

const SALT: Salt = Salt { a: 1, b: 2 };

const LIMITS: Limits = Limits {
    file_bytes: 68_719_476_736,
    headers: 4_194_304,
};

// Frames, as digits: genesis, and the blocks that `generate 2 2` makes.
const GENESIS: &str =
    "fabfb5da1d0100000100000000000000000000000000000000000000000000000000000000000000000000003ba3edfd7a7b12b27ac72c3e67768f617fc81bc3888a51323a9fb8aa4b1e5e4adae5494dffff7f20020000000101000000010000000000000000000000000000000000000000000000000000000000000000ffffffff4d04ffff001d0104455468652054696d65732030332f4a616e2f32303039204368616e63656c6c6f72206f6e206272696e6b206f66207365636f6e64206261696c6f757420666f722062616e6b73ffffffff0100f2052a01000000434104678afdb0fe5548271967f1a67130b7105cd6a828e03909a67962e0ea1f61deb649f6bc3f4cef38c4f35504e51ec112de5c384df7ba0b8d578a4c702b6bf11d5fac00000000";

const FIRST: &str =
    "fabfb5da980000000000002006226e46111a0b59caaf126043eb5bbf28c34f3a5e332a1fc7b2b73cf188910fdfe24dd0875cf5e37d2d5da42fea2ab817b756363c574ec1b670655db22cc74032e8494dffff7f20000000000102000000010000000000000000000000000000000000000000000000000000000000000000ffffffff0a51080200000000000000ffffffff0100f2052a01000000015100000000";

const SECOND: &str =
    "fabfb5dab0000000000000202ad58f5a35b905bdcfc7c3db89bc4cd5f963858508b3f1b81387060f0600bd7d117cdd6d993fae3b17a3db5957ce7f01f3450a87df724d3f455f2bd08058c5eb8aea494dffff7f20000000000102000000010000000000000000000000000000000000000000000000000000000000000000ffffffff0a52080200000000000000ffffffff0100f2052a010000001976a9147e884a6b9b449b425901971ed16af90f0a46248088ac00000000";

// A block of version 3.
const VERSION_3: &str =
    "fabfb5da980000000300000006226e46111a0b59caaf126043eb5bbf28c34f3a5e332a1fc7b2b73cf188910fdfe24dd0875cf5e37d2d5da42fea2ab817b756363c574ec1b670655db22cc74032e8494dffff7f20030000000102000000010000000000000000000000000000000000000000000000000000000000000000ffffffff0a51080200000000000000ffffffff0100f2052a01000000015100000000";

// A block at height 1 whose coinbase says 2.
const OTHER_HEIGHT: &str =
    "fabfb5da900000000000002006226e46111a0b59caaf126043eb5bbf28c34f3a5e332a1fc7b2b73cf188910f5478c97c6b5640f25032547788b01544dc6f9a35947594db7c979bbb6dc3261532e8494dffff7f20000000000102000000010000000000000000000000000000000000000000000000000000000000000000ffffffff025201ffffffff0100f2052a01000000015100000000";

// A block whose coinbase pays one satoshi more than the subsidy.
const PAYS_ONE_TOO_MUCH: &str =
    "fabfb5da980000000000002006226e46111a0b59caaf126043eb5bbf28c34f3a5e332a1fc7b2b73cf188910f2f3f29fcaadbb18754c3c996f7d0647d7947b87c6c82318fd53aecebe2a74c6932e8494dffff7f20000000000102000000010000000000000000000000000000000000000000000000000000000000000000ffffffff0a51080200000000000000ffffffff0101f2052a01000000015100000000";

// A block whose last transaction is repeated, under the root of the shorter list.
const REPEATED_TRANSACTION: &str =
    "fabfb5da4f0100000000002006226e46111a0b59caaf126043eb5bbf28c34f3a5e332a1fc7b2b73cf188910f2b9e5dbe7496ef23d6092238ba82ad4950c1507ed0a95d87cbdab23cb323b70532e8494dffff7f20020000000402000000010000000000000000000000000000000000000000000000000000000000000000ffffffff0a51080200000000000000ffffffff0100f2052a01000000015100000000020000000111111111111111111111111111111111111111111111111111111111111111110000000000ffffffff010100000000000000015100000000020000000122222222222222222222222222222222222222222222222222222222222222220000000000ffffffff010100000000000000015100000000020000000122222222222222222222222222222222222222222222222222222222222222220000000000ffffffff010100000000000000015100000000";

// What the last flush of an empty store says.
const FLUSHED: &[u8] =
    b"flushed full 0 0f9188f13cb7b2c71f2a335e3a4fc328bf5beb436012afca590b1a11466e2206\n";

// A run over these streams.
fn run_over(
    alloc: Global,
    disk: &mut MemDisk,
    files: &mut MemHost,
    source: &mut MemSource,
    sink: &mut MemSink,
) -> Status {
    let words = Words::new(alloc);
    run(alloc, &words, disk, files, source, sink, &SALT, &LIMITS).status
}

// What a run ends with and writes, where these calls of the streams fail.
fn outcome(
    alloc: Global,
    disk: &mut MemDisk,
    files: &mut MemHost,
    input: &[u8],
    source: &[u64],
    sink: &[u64],
) -> Result<(Status, MemSink), AllocError> {
    let mut source = MemSource::new(alloc, input, source)?;
    let mut sink = MemSink::new(alloc, sink)?;
    let status = run_over(alloc, disk, files, &mut source, &mut sink);
    Ok((status, sink))
}

// Whether a run that meets no fault is done, and writes this.
fn writes(
    alloc: Global,
    disk: &mut MemDisk,
    files: &mut MemHost,
    input: &[u8],
    output: &[u8],
) -> Result<bool, AllocError> {
    let (status, out) = outcome(alloc, disk, files, input, &[], &[])?;
    Ok(status == Status::Done && out.as_slice() == output)
}

// Whether a run over an empty store and these files that meets no fault writes this, and then that nothing is flushed.
fn answers(
    alloc: Global,
    files: &mut MemHost,
    input: &[u8],
    output: &[u8],
) -> Result<bool, AllocError> {
    let (status, out) = outcome(alloc, &mut MemDisk::new(alloc), files, input, &[], &[])?;
    Ok(status == Status::Done && out.as_slice().strip_suffix(FLUSHED) == Some(output))
}

// The number of the first input that isn't answered so on a host without files, or the number of rows.
fn first_wrong_lines(alloc: Global, rows: &[(&[u8], &[u8])]) -> Result<usize, AllocError> {
    for (number, (input, output)) in rows.iter().enumerate() {
        if !answers(alloc, &mut MemHost::new(alloc, &[])?, input, output)? {
            return Ok(number);
        }
    }
    Ok(rows.len())
}

// Lines with their replies.
#[test]
fn lines_are_answered(rt: HostRuntime) -> Result<(), Fail> {
    let rows: [(&[u8], &[u8]); 3] = [
        (b"\n\r\n", b""),
        (
            b"generate 2 2 a.dat\r\nfold a.dat",
            b"generated 2 0d1a5a730c31c30310b19dbadbbacab667b163e0b6431297944d26d157eafcab\nfolded 2 2 0d1a5a730c31c30310b19dbadbbacab667b163e0b6431297944d26d157eafcab 2\n",
        ),
        (
            b"fold none.dat\ncoins\n",
            b"refused host-fault\nrefused unknown-command\n",
        ),
    ];
    assert_eq!(rt; first_wrong_lines(rt.alloc(), &rows)?, 3);
    Ok(())
}

// Bytes one after the other, from their digits.
fn joined(alloc: Global, frames: &[&str]) -> Result<Vec<u8>, Fail> {
    let mut bytes = Vec::new(alloc);
    for digits in frames {
        let frame = hex::decode(alloc, digits).ok().ok_or("no digits")?;
        bytes.extend_from_slice(&frame)?;
    }
    Ok(bytes)
}

// The number of the first file whose fold isn't answered so, or the number of rows.
fn first_wrong_folds(alloc: Global, rows: &[(&[&str], &[u8])]) -> Result<usize, Fail> {
    for (number, (frames, reply)) in rows.iter().enumerate() {
        let mut files = MemHost::new(alloc, &[])?;
        files.put("a.dat", &joined(alloc, frames)?)?;
        if !answers(alloc, &mut files, b"fold a.dat\n", reply)? {
            return Ok(number);
        }
    }
    Ok(rows.len())
}

// Files with what folding them answers.
#[test]
fn files_are_folded(rt: HostRuntime) -> Result<(), Fail> {
    let rows: [(&[&str], &[u8]); 6] = [
        (
            &[GENESIS, FIRST, SECOND],
            b"folded 3 2 0d1a5a730c31c30310b19dbadbbacab667b163e0b6431297944d26d157eafcab 2\n",
        ),
        (
            &[SECOND],
            b"refused not-next 0d1a5a730c31c30310b19dbadbbacab667b163e0b6431297944d26d157eafcab\n",
        ),
        (
            &[VERSION_3],
            b"refused block 42fd4d29ad2f2f0c2619591fd5cdf0d3153ba507168e4a166d57f5504091a32d BadVersion\n",
        ),
        (
            &[OTHER_HEIGHT],
            b"refused block 0e8ed558ebb186e567fce28d6d1b9f1fae3dab5dd408102bbf56ab054b814d60 BadHeight\n",
        ),
        (
            &[PAYS_ONE_TOO_MUCH],
            b"refused block 27995f3a0ef324a09010e7ac3869a1eec74e8a536ef695ccb7cef2ce6a24f002 CoinbaseAmount\n",
        ),
        (
            &[REPEATED_TRANSACTION],
            b"refused block 6ebf215e42d60aaaf258ccb80849ee1dc9f171af3b0a8224c2ffd379727b949b Mutated\n",
        ),
    ];
    assert_eq!(rt; first_wrong_folds(rt.alloc(), &rows)?, 6);
    Ok(())
}

// A run that meets faults: which calls of the host, the source and the sink fail, its input, and what it ends with and
// writes.
#[derive(Clone, Copy)]
struct Faulty<'a> {
    host: &'a [u64],
    source: &'a [u64],
    sink: &'a [u64],
    input: &'a [u8],
    status: Status,
    output: &'a [u8],
}

// The number of the first run that doesn't end so, or the number of rows.
fn first_wrong_faults(alloc: Global, rows: &[Faulty<'_>]) -> Result<usize, AllocError> {
    for (number, row) in rows.iter().enumerate() {
        let mut files = MemHost::new(alloc, row.host)?;
        let mut disk = MemDisk::new(alloc);
        let (status, out) = outcome(
            alloc, &mut disk, &mut files, row.input, row.source, row.sink,
        )?;
        if status != row.status || out.as_slice() != row.output {
            return Ok(number);
        }
    }
    Ok(rows.len())
}

// A host whose first call fails, a source that fails at its second read, and a sink that fails at once.
#[test]
fn faults_are_told(rt: HostRuntime) -> Result<(), Fail> {
    let rows = [
        Faulty {
            host: &[1],
            source: &[],
            sink: &[],
            input: b"generate 1 1 a.dat",
            status: Status::Done,
            output: b"refused host-fault\nflushed full 0 0f9188f13cb7b2c71f2a335e3a4fc328bf5beb436012afca590b1a11466e2206\n",
        },
        Faulty {
            host: &[],
            source: &[2],
            sink: &[],
            input: b"fold a.dat\n",
            status: Status::InFault,
            output: b"refused host-fault\n",
        },
        Faulty {
            host: &[],
            source: &[],
            sink: &[1],
            input: b"fold a.dat\n",
            status: Status::OutFault,
            output: b"",
        },
    ];
    assert_eq!(rt; first_wrong_faults(rt.alloc(), &rows)?, 3);
    Ok(())
}

// A chain of two blocks is made and imported.
const IMPORT: &[u8] = b"generate 2 2 a.dat\nimport a.dat\n";

const IMPORTED: &[u8] =
    b"generated 2 0d1a5a730c31c30310b19dbadbbacab667b163e0b6431297944d26d157eafcab\nimport 2 2 2 2 0d1a5a730c31c30310b19dbadbbacab667b163e0b6431297944d26d157eafcab\nflushed full 2 0d1a5a730c31c30310b19dbadbbacab667b163e0b6431297944d26d157eafcab\n";

// What its last flush says.
const LAST: &[u8] =
    b"flushed full 2 0d1a5a730c31c30310b19dbadbbacab667b163e0b6431297944d26d157eafcab\n";

// Its first coin is asked for, and where the store stands.
const ASKED: &[u8] =
    b"gettxout 40c72cb25d6570b6c14e573c3656b717b82aea2fa45d2d7de3f55c87d04de2df 0\nflush\ninfo\n";

const ANSWERED: &[u8] =
    b"{\"bestblock\":\"0d1a5a730c31c30310b19dbadbbacab667b163e0b6431297944d26d157eafcab\",\"coinbase\":true,\"confirmations\":2,\"height\":1,\"script\":\"51\",\"value\":5000000000}\nflushed full 2 0d1a5a730c31c30310b19dbadbbacab667b163e0b6431297944d26d157eafcab\n{\"background\":null,\"chain\":\"regtest\",\"headers\":3,\"height\":2,\"role\":\"full\",\"tip\":\"0d1a5a730c31c30310b19dbadbbacab667b163e0b6431297944d26d157eafcab\"}\nflushed full 2 0d1a5a730c31c30310b19dbadbbacab667b163e0b6431297944d26d157eafcab\n";

// A store that one run filled is opened by the next.
#[test]
fn a_store_is_kept(rt: HostRuntime) -> Result<(), Fail> {
    let alloc = rt.alloc();
    let mut disk = MemDisk::new(alloc);
    let mut files = MemHost::new(alloc, &[])?;
    assert!(rt; writes(alloc, &mut disk, &mut files, IMPORT, IMPORTED)?);
    assert!(rt; writes(alloc, &mut disk, &mut files, ASKED, ANSWERED)?);
    Ok(())
}

// Whether a run over what a crash left of a disk is done, at genesis or at the block of the last flush.
fn opens_again(alloc: Global, disk: &MemDisk, moment: u64, pick: Pick) -> Result<bool, AllocError>
    requires { moment ≤ clock_of disk.now }
{
    let mut left = disk.after_crash(moment, pick)?;
    let mut files = MemHost::new(alloc, &[])?;
    let (status, out) = outcome(alloc, &mut left, &mut files, b"", &[], &[])?;
    let text = out.as_slice();
    Ok(status == Status::Done && (text == FLUSHED || IMPORTED.ends_with(text)))
}

// The first reading of the clock at which a crash leaves a store that isn't opened so, or its last reading.
fn first_wrong_crash(alloc: Global, disk: &MemDisk) -> Result<u64, AllocError> {
    let end = disk.clock();
    for moment in 0..end {
        for pick in [Pick::Old, Pick::New, Pick::Fill(255)] {
            if !opens_again(alloc, disk, moment, pick)? {
                return Ok(moment);
            }
        }
    }
    Ok(end)
}

// Whether a run is ended by the failure of this device call, and the next one is done. Bodies that were stored before wait
// above the tip, which moves with the next body that is stored.
fn goes_on(alloc: Global, call: u64) -> Result<bool, AllocError> {
    let mut disk = MemDisk::new(alloc);
    disk.fail_at(&[call])?;
    let mut files = MemHost::new(alloc, &[])?;
    let (status, _) = outcome(alloc, &mut disk, &mut files, IMPORT, &[], &[])?;
    let (next, out) = outcome(alloc, &mut disk, &mut files, IMPORT, &[], &[])?;
    let text = out.as_slice();
    let is_last = text.ends_with(LAST) || text.ends_with(FLUSHED);
    Ok(status == Status::DiskFault && next == Status::Done && is_last)
}

// The first device call whose failure doesn't end a run so, or the number of calls.
fn first_wrong_failure(alloc: Global, calls: u64) -> Result<u64, AllocError> {
    for call in 1..calls {
        if !goes_on(alloc, call)? {
            return Ok(call);
        }
    }
    Ok(calls)
}

// A run that is cut by a crash at any moment, or by the failure of any device call.
#[test]
fn cut_runs_are_gone_on_with(rt: HostRuntime) -> Result<(), Fail> {
    let alloc = rt.alloc();
    let mut disk = MemDisk::new(alloc);
    let mut files = MemHost::new(alloc, &[])?;
    assert!(rt; writes(alloc, &mut disk, &mut files, IMPORT, IMPORTED)?);
    let calls = disk.clock();
    assert_eq!(rt; first_wrong_crash(alloc, &disk)?, calls);
    assert_eq!(rt; first_wrong_failure(alloc, calls)?, calls);
    Ok(())
}
