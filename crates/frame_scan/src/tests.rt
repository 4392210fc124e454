//! Small files, taken by reads of several sizes, some of which fail.

ghost use Rattle.std.specs.Prelude.{◌≤◌, None};
ghost use Rattle.io_traits.specs.Causes.{Rose};

use crate::{FrameFault, Frames};
use base_types::{MESSAGE_START, obfuscate};
use io_traits::{Host, IoFailed, MemHost};
use std::alloc::{AllocError, Global};
use std::test::Fail;

const KEY: [u8; 8] = [0x11, 0x22, 0xfa, 0xbf, 0xb5, 0xda, 0, 0xff];

/// A host whose open input gives few bytes a read. It tells nothing, has no other file, and fails at the reads with the
/// numbers of `fail`, counted from 1.
#[derive(Drop)]
struct Pieces<'a> {
    left: &'a [u8],
    most: usize,
    fail: &'a [u64],
    reads: u64,
    faults: u64,
}

impl<'a> Pieces<'a> {
    fn new(left: &'a [u8], most: usize, fail: &'a [u64]) -> Self {
        Pieces {
            left,
            most,
            fail,
            reads: 0,
            faults: 0,
        }
    }
}

fn count_fault(faults: &mut u64) -> IoFailed
    ensures rose { Rose faults.old faults.new }
    ensures later { faults.old ≤ faults.new }
{
    *faults = faults.saturating_add(1);
    IoFailed
}

impl<'a> Host for Pieces<'a> {
    ghost held = { λ _. None };

    ghost faults = { λ h. h.faults };

    fn open_in(&mut self, _name: &str) -> Result<(), IoFailed> {
        Err(count_fault(&mut self.faults))
    }

    fn read_in(&mut self, buf: &mut [u8]) -> Result<usize, IoFailed> {
        self.reads = self.reads.saturating_add(1);
        if self.fail.contains(&self.reads) {
            return Err(count_fault(&mut self.faults));
        }
        let count = buf.len().min(self.most).min(self.left.len());
        let (front, rest) = self.left.split_at(count);
        buf[..count].copy_from_slice(front);
        self.left = rest;
        Ok(count)
    }

    fn create(&mut self, _name: &str) -> Result<(), IoFailed> {
        Err(count_fault(&mut self.faults))
    }

    fn write(&mut self, _bytes: &[u8]) -> Result<(), IoFailed> {
        Err(count_fault(&mut self.faults))
    }

    fn finish(&mut self) -> Result<(), IoFailed> {
        Err(count_fault(&mut self.faults))
    }
}

/// A part of a block file.
enum Part {
    /// The frame of a block without transactions, whose header has this nonce and else zeros.
    Frame(u8),
    /// The first bytes of such a frame.
    Cut(u8, usize),
    /// Other bytes.
    Bytes(&'static [u8]),
}

fn put_head(file: &mut Vec<u8>, len: u32) -> Result<(), AllocError> {
    file.extend_from_slice(&MESSAGE_START)?;
    file.extend_from_slice(&len.to_le_bytes())
}

fn put_frame(alloc: Global, file: &mut Vec<u8>, nonce: u8, count: usize) -> Result<(), AllocError> {
    let mut frame = Vec::new(alloc);
    put_head(&mut frame, 81)?;
    frame.resize(84, 0)?;
    frame.push(nonce)?;
    frame.resize(89, 0)?;
    frame.truncate(count);
    file.extend_from_slice(&frame)
}

fn file_of(alloc: Global, parts: &[Part]) -> Result<Vec<u8>, AllocError> {
    let mut file = Vec::new(alloc);
    for part in parts {
        match part {
            Part::Frame(nonce) => put_frame(alloc, &mut file, *nonce, 89)?,
            Part::Cut(nonce, count) => put_frame(alloc, &mut file, *nonce, *count)?,
            Part::Bytes(bytes) => file.extend_from_slice(bytes)?,
        }
    }
    Ok(file)
}

/// The last bytes of the nonces of the blocks that a scan gives, and how often it failed on the way.
fn nonces<H: Host>(
    alloc: Global,
    host: &mut H,
    key: Option<[u8; 8]>,
) -> Result<(Vec<u8>, u32), Fail> {
    let mut scan = Frames::new(alloc, key)?;
    let mut nonces = Vec::new(alloc);
    let mut failures: u32 = 0;
    for _ in 0..100 {
        match scan.next(host) {
            Ok(Some(block)) => nonces.push(block.header.nonce.to_le_bytes()[0])?,
            Ok(None) => break,
            Err(FrameFault::HostFailed) => failures = failures.saturating_add(1),
            Err(fault) => return Err(fault.into()),
        }
    }
    Ok((nonces, failures))
}

#[test]
fn each_whole_block_comes_once_and_in_order(rt: HostRuntime) -> Result<(), Fail> {
    use Part::{Bytes, Cut, Frame};
    let rows: [(&[Part], &[u8]); 2] = [
        // In reverse order, with garbage between frames, a frame cut short and a tail of zero bytes.
        (
            &[
                Frame(3),
                Bytes(&[0xfa, 0xbf, 7]),
                Frame(2),
                Cut(9, 88),
                Frame(1),
                Bytes(&[0; 200]),
            ],
            &[3, 2, 1],
        ),
        // Frames among the bytes that a head claims, of which there are too few.
        (
            &[
                Bytes(&[0xfa, 0xbf, 0xb5, 0xda, 0, 9, 0x3d, 0]),
                Frame(5),
                Frame(6),
            ],
            &[5, 6],
        ),
    ];
    for (parts, want) in rows {
        let mut file = file_of(rt.alloc(), parts)?;
        for key in [None, Some(KEY)] {
            if let Some(key) = key {
                obfuscate(&mut file, &key, 0);
            }
            for (most, fail, failures) in [
                (1, [0, 0], 0),
                (7, [0, 0], 0),
                (89, [1, 2], 2),
                (1_000_000, [1, 0], 1),
            ] {
                let mut host = Pieces::new(&file, most, &fail);
                let (found, failed) = nonces(rt.alloc(), &mut host, key)?;
                assert_eq!(rt; found.as_slice(), want, "{most} bytes a read");
                assert_eq!(rt; failed, failures, "{most} bytes a read");
            }
        }
    }
    Ok(())
}

/// The frame of a block of one transaction of one input, whose script fills so many bytes.
fn long_frame(alloc: Global, len: u32) -> Result<Vec<u8>, AllocError> {
    let mut frame = Vec::new(alloc);
    put_head(&mut frame, len)?;
    // The header, the number of transactions, the version and the number of inputs, and the outpoint.
    frame.resize(88, 0)?;
    frame.push(1)?;
    frame.resize(93, 0)?;
    frame.push(1)?;
    frame.resize(130, 0)?;
    // The length of the script.
    frame.push(0xfe)?;
    frame.extend_from_slice(&len.saturating_sub(136).to_le_bytes())?;
    frame.resize(8 + len as usize, 0)?;
    Ok(frame)
}

#[test]
fn the_longest_frames(rt: HostRuntime) -> Result<(), Fail> {
    for (len, want) in [(4_000_000, [0, 0].as_slice()), (4_000_001, &[0])] {
        let mut file = file_of(rt.alloc(), &[Part::Bytes(&[1; 1000])])?;
        file.extend_from_slice(&long_frame(rt.alloc(), len)?)?;
        file.extend_from_slice(&file_of(rt.alloc(), &[Part::Frame(0)])?)?;
        let mut host = Pieces::new(&file, 50_000, &[3, 40]);
        let (found, failed) = nonces(rt.alloc(), &mut host, None)?;
        assert_eq!(rt; found.as_slice(), want, "a block of {len} bytes");
        assert_eq!(rt; failed, 2);
    }
    Ok(())
}

#[test]
fn a_file_of_a_host(rt: HostRuntime) -> Result<(), Fail> {
    let file = file_of(rt.alloc(), &[Part::Frame(1), Part::Frame(2)])?;
    let mut host = MemHost::new(rt.alloc(), &[2])?;
    host.put("blocks", &file)?;
    assert_eq!(rt; host.open_in("blocks"), Ok(()));
    let mut scan = Frames::new(rt.alloc(), None)?;
    assert!(rt; matches!(scan.next(&mut host), Err(FrameFault::HostFailed)));
    let header = scan.next_header(&mut host)?;
    assert_eq!(rt; header.map(|header| header.nonce), Some(1));
    let block = scan.next(&mut host)?;
    assert_eq!(rt; block.map(|block| block.header.nonce), Some(2));
    assert!(rt; scan.next_header(&mut host)?.is_none());
    assert!(rt; scan.next(&mut host)?.is_none());
    Ok(())
}
