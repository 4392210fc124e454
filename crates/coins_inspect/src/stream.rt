//! Files that are read and printed a piece at a time.

use crate::chain::{genesis_tree, put_chain};
use crate::form::Payload;
use crate::frames::put_frame;
use crate::log_file::LogFile;
use crate::logs::{FILE, LIMITS, put_damaged, put_record};
use crate::names::{put_end, put_fault};
use crate::snapshots::{put_finish, put_pieces};
use crate::words::Word::Text;
use crate::words::put_line;
use anyhow::Result;
use base_types::{Cursor, StoreFault};
use batch_log::Log;
use disk_model::UntoldDisk;
use frame_scan::{FrameFault, Frames};
use io_traits::Host;
use snapshot_file::{Reader, SnapFault};
use std::alloc::AllocError;
use std::fs::File;
use std::io::Write;

/// The most bytes of one read.
const PIECE: usize = 16_384;

/// The most bytes that are read of a snapshot file.
const MAX_SNAPSHOT: u64 = 1 << 62;

/// The bytes of a header.
const HEADER_BYTES: usize = 80;

// Prints lines.
fn print(rt: &HostRuntime, lines: &[u8]) -> Result<()> {
    rt.stdout().write_all(lines)?;
    Ok(())
}

/// Prints why a line isn't answered.
pub(crate) fn print_refused(rt: &HostRuntime, why: &'static str) -> Result<()> {
    let mut out = Vec::new(rt.alloc());
    put_line(&mut out, "refused", &[Text(why)])?;
    print(rt, &out)
}

/// Prints the frames of a block file.
pub(crate) fn print_frames<H: Host>(rt: &HostRuntime, host: &mut H) -> Result<()> {
    let mut scan = Frames::new(rt.alloc(), None)?;
    for _ in 0..u64::MAX {
        let mut out = Vec::new(rt.alloc());
        match scan.next(host) {
            Ok(Some(block)) => put_frame(&mut out, scan.passed(), &block)?,
            Ok(None) => {
                put_end(&mut out, scan.passed())?;
                return print(rt, &out);
            }
            Err(FrameFault::NoMemory) => return Err(AllocError.into()),
            Err(FrameFault::HostFailed) => return print_refused(rt, "host-fault"),
            Err(FrameFault::FileTooLong) => return print_refused(rt, "file-too-long"),
        }
        print(rt, &out)?;
    }
    Ok(())
}

/// Prints a snapshot file.
pub(crate) fn print_snapshot<H: Host>(rt: &HostRuntime, host: &mut H) -> Result<()> {
    let mut reader = Reader::new(rt.alloc())?;
    for _ in 0..u64::MAX {
        let mut out = Vec::new(rt.alloc());
        let mut piece = [0; PIECE];
        let Ok(count) = host.read_in(&mut piece) else {
            return print_refused(rt, "host-fault");
        };
        if count == 0 {
            put_finish(&mut out, reader.fed(), reader.finish())?;
            return print(rt, &out);
        }
        if reader.fed() > MAX_SNAPSHOT {
            return print_refused(rt, "file-too-long");
        }
        match reader.feed(&piece[..count]) {
            Ok(pieces) => put_pieces(&mut out, &pieces)?,
            Err(SnapFault::NoMemory) => return Err(AllocError.into()),
            Err(fault) => {
                put_finish(&mut out, reader.fed(), Err(fault))?;
                return print(rt, &out);
            }
        }
        print(rt, &out)?;
    }
    Ok(())
}

/// Prints the headers of a file, by the rules of headers.
pub(crate) fn print_headers<H: Host>(rt: &HostRuntime, host: &mut H) -> Result<()> {
    let mut tree = genesis_tree(rt.alloc())?;
    let mut held = Vec::new(rt.alloc());
    let mut end: u64 = 0;
    for _ in 0..u64::MAX {
        let mut out = Vec::new(rt.alloc());
        let mut piece = [0; PIECE];
        let Ok(count) = host.read_in(&mut piece) else {
            return print_refused(rt, "host-fault");
        };
        if count == 0 {
            if !held.is_empty() {
                put_fault(&mut out, "Short", end as usize)?;
            }
            return print(rt, &out);
        }
        end = end.saturating_add(count as u64);
        held.extend_from_slice(&piece[..count])?;
        let whole = held.len() / HEADER_BYTES * HEADER_BYTES;
        put_chain(&mut out, &mut tree, &mut Cursor::new(&held[..whole]), whole)?;
        let mut rest = Vec::new(rt.alloc());
        rest.extend_from_slice(&held[whole..])?;
        held = rest;
        print(rt, &out)?;
    }
    Ok(())
}

/// Prints the records of a log, of which one at a time is held.
pub(crate) fn print_log(rt: &HostRuntime, kind: Payload, file: File) -> Result<()> {
    let Ok(file) = LogFile::new(file) else {
        return print_refused(rt, "host-fault");
    };
    let mut out = Vec::new(rt.alloc());
    if file.size() < 2 {
        put_end(&mut out, 0)?;
        return print(rt, &out);
    }
    let mut disk = UntoldDisk::new(file);
    match Log::open(rt.alloc(), &mut disk, FILE, &LIMITS) {
        Ok(log) => print_records(rt, kind, disk, &log),
        Err(StoreFault::Damaged { at, .. }) => {
            put_damaged(&mut out, at)?;
            print(rt, &out)
        }
        Err(StoreFault::NoMemory) => Err(AllocError.into()),
        Err(_) => print_refused(rt, "host-fault"),
    }
}

// Prints the records of a log, and where it ends.
fn print_records(
    rt: &HostRuntime,
    kind: Payload,
    mut disk: UntoldDisk<LogFile>,
    log: &Log,
) -> Result<()> {
    let mut end = 0;
    for place in log.places() {
        let mut out = Vec::new(rt.alloc());
        if put_record(rt.alloc(), &mut out, kind, &mut disk, log, *place).is_err() {
            if disk.into_inner().has_failed() {
                return print_refused(rt, "host-fault");
            }
            return Err(AllocError.into());
        }
        print(rt, &out)?;
        end = place.at.saturating_add(5 + u64::from(place.len));
    }
    let mut out = Vec::new(rt.alloc());
    put_end(&mut out, end)?;
    print(rt, &out)
}
