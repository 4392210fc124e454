//! The bytes of a file that were taken and not passed yet.

ghost use Rattle.std.specs.Prelude.{◌≡◌, ◌≢◌, ◌+◌, ◌-◌, ◌^◌, ◌<◌, ◌≤◌, [], length, take, drop, vec_len, IfOk, IfErr, OnOk, OnErr, IsErrOf, Err};
ghost use Rattle.std.specs.List.{between};
ghost use Rattle.io_traits.specs.Causes.{Rose};
ghost use Rattle.io_traits.specs.Told.{OnTold};
ghost use Rattle.io_traits.specs.Host.{unread_bytes};
ghost use Rattle.frame_scan.specs.declared.fault.FrameFault.TheVariants.{NoMemory, HostFailed, FileTooLong};
ghost use Rattle.frame_scan.specs.Scan.{Takes};

use crate::fault::FrameFault;
use crate::reading::read_plain;
use io_traits::Host;
use std::alloc::{AllocError, Global};
use std::marker::Model;

/// The most bytes of one read.
pub(crate) const PIECE_BYTES: usize = 65_536;

/// The most bytes of a window: a frame of the greatest length and a piece.
const MAX_WINDOW: usize = 4_065_544;

/// Bytes in order, which are passed at the front and taken from a host at the end.
#[derive(Drop)]
pub(crate) struct Window {
    bytes: Vec<u8>,
    // Where the bytes that aren't passed begin and end.
    start: usize,
    end: usize,
}

impl Model for Window {
    ghost use Rattle.std.specs.Prelude.{◌≤◌, ℕ, List, vec_len};
    ghost use Rattle.std.specs.List.{between};

    ghost Value = { List ℕ };

    ghost view = { λ w. between w.start w.end w.bytes.items };

    ghost invariant = { λ w. (w.start ≤ w.end) × (w.end ≤ vec_len w.bytes) × (65536 ≤ vec_len w.bytes) × (vec_len w.bytes ≤ 4065544) };
}

impl Window {
    /// A window without bytes, with room for a piece.
    pub fn new(alloc: Global) -> Result<Window, AllocError>
        ensures { IfOk result (λ window. window ≡ []) }
    {
        Ok(Window {
            bytes: vec![in alloc; 0; PIECE_BYTES]?,
            start: 0,
            end: 0,
        })
    }

    /// All of them.
    pub fn as_slice(&self) -> &[u8]
        ensures { result.now ≡ self.now }
    {
        &self.bytes[self.start..self.end]
    }

    /// Passes the first bytes, which takes no time.
    pub fn pass(&mut self, count: usize)
        requires { count ≤ length self.old }
        ensures { self.new ≡ drop count self.old }
    {
        self.start += count;
    }

    /// Takes at most so many bytes that stand from an offset of a file on, and answers their number.
    pub fn take_from<H: Host>(
        &mut self,
        host: &mut H,
        most: usize,
        key: &Option<[u8; 8]>,
        offset: u64,
    ) -> Result<usize, FrameFault>
        requires room { length self.old < 4000008 }
        requires some { 0 < most }
        requires fits { offset + most < 2 ^ 64 }
        ensures count { IfOk result (λ count. (count ≤ most) × (length self.new ≡ length self.old + count)) }
        ensures kept { OnErr result (self.new ≡ self.old) }
        ensures most { length self.new ≤ 4065544 }
        ensures bytes { OnTold (H.held host.old) (H.held host.new) (Takes key.now offset self.old self.new) }
        ensures ended { IfOk result (λ count. count ≡ 0 → OnTold (H.held host.old) (H.held host.new) (λ s t. unread_bytes t ≡ [])) }
        ensures later { H.faults host.old ≤ H.faults host.new }
        ensures failed { IsErrOf result HostFailed → Rose (H.faults host.old) (H.faults host.new) }
        ensures steady { result ≢ Err HostFailed → H.faults host.new ≡ H.faults host.old }
        ensures memory { IsErrOf result NoMemory → 32768 < length self.old }
        ensures causes { IfErr result (λ error. error ≢ FileTooLong) }
    {
        let len = self.end - self.start;
        self.start = make_room(&mut self.bytes, self.start, self.end)?;
        self.end = self.start + len;
        let room = most.min(self.bytes.len() - self.end);
        let piece = &mut self.bytes[self.end..self.end + room];
        let count = read_plain(host, piece, key, offset)?;
        self.end += count;
        Ok(count)
    }
}

/// Makes room behind the bytes from one place to another, and answers where they begin then. They move to the front
/// where at least as many were passed, so that no byte moves twice for one that is passed, or where there is no other room.
fn make_room(bytes: &mut Vec<u8>, start: usize, end: usize) -> Result<usize, AllocError>
    requires places { (start ≤ end) × (end ≤ vec_len bytes.old) }
    requires few { end - start < 4000008 }
    requires size { (65536 ≤ vec_len bytes.old) × (vec_len bytes.old ≤ 4065544) }
    ensures room { IfOk result (λ at. at + (end - start) < vec_len bytes.new) }
    ensures same { IfOk result (λ at. between at (at + (end - start)) bytes.new.items ≡ between start end bytes.old.items) }
    ensures err { OnErr result (bytes.new.items ≡ bytes.old.items) }
    ensures grows { OnErr result (32768 < end - start) }
    ensures size { (65536 ≤ vec_len bytes.new) × (vec_len bytes.new ≤ 4065544) }
{
    if start >= end - start || end == MAX_WINDOW {
        bytes.copy_within(start..end, 0);
        return Ok(0);
    }
    if end == bytes.len() {
        grow(bytes)?;
    }
    Ok(start)
}

/// Makes a window twice as long, up to the greatest length.
fn grow(bytes: &mut Vec<u8>) -> Result<(), AllocError>
    requires { (65536 ≤ vec_len bytes.old) × (vec_len bytes.old < 4065544) }
    ensures front { take (vec_len bytes.old) bytes.new.items ≡ bytes.old.items }
    ensures ok { OnOk result (vec_len bytes.old < vec_len bytes.new) }
    ensures err { OnErr result (bytes.new.items ≡ bytes.old.items) }
    ensures size { (vec_len bytes.old ≤ vec_len bytes.new) × (vec_len bytes.new ≤ 4065544) }
{
    let len = bytes.len();
    let more = len.min(MAX_WINDOW - len);
    bytes.reserve_exact(more)?;
    bytes.resize(len + more, 0)
}
