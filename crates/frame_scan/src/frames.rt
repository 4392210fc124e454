//! The scan itself.

ghost use Rattle.std.specs.Prelude.{◌≡◌, ◌≢◌, ℕ, List, Some, ◌∷◌, [], ◌+◌, ◌-◌, ◌<◌, ◌≤◌, ◌⊎◌, ◌↔◌, length, IsTrue, IsOk, OnOk, OnErr, IfOk, IfSome, IfNone, IfErr, IsErrOf, Ok, Err, false, true};
ghost use Rattle.io_traits.specs.Causes.{Rose};
ghost use Rattle.io_traits.specs.Told.{OnTold};
ghost use Rattle.io_traits.specs.Host.{Held, unread_bytes};
ghost use Rattle.block_codec.specs.Frames.{frames};
ghost use Rattle.block_codec.specs.Text.{text_of};
ghost use Rattle.frame_scan.specs.declared.fault.FrameFault.TheVariants as fault;
ghost use Rattle.block_codec.specs.declared.block.Block.{Block as BlockValue};
ghost use Rattle.frame_scan.specs.Scan.{at_start, bytes_taken, max_file_bytes, max_ahead, bytes_left, frames_left, Moves, Passes, Advances, BeginsFrame, OutgrowsPiece};
ghost use Rattle.frame_scan.specs.Search.{Ends, IsStuck, BeginsBlock};

use crate::fault::FrameFault;
use crate::search::{find_frame, take_block, take_header};
use crate::window::{PIECE_BYTES, Window};
use block_codec::{Block, Header};
use io_traits::Host;
use std::alloc::{AllocError, Global};
use std::marker::Model;

/// The most bytes that are taken of a file, before the one that shows that it is too long.
const MAX_FILE_BYTES: u64 = 68_719_476_736;

/// A scan over the open input of a host, from its first byte on. A clause sees its key, the offset up to which it is
/// done, and the plain bytes that it has taken from there on.
#[derive(Drop)]
pub struct Frames {
    alloc: Global,
    key: Option<[u8; 8]>,
    // How many bytes of the file were taken.
    bytes_taken: u64,
    window: Window,
}

impl Model for Frames {
    ghost use Rattle.std.specs.Prelude.{◌+◌, ◌≤◌, length};
    ghost use Rattle.frame_scan.specs.Scan.{Scan, scan_code, scan_of, max_file_bytes, max_ahead};

    ghost Value = { Scan };

    ghost coded = { scan_code };

    ghost view = { λ f. scan_of f.key f.bytes_taken f.window };

    ghost invariant = { λ f. (length f.window ≤ f.bytes_taken) × (f.bytes_taken ≤ max_file_bytes + 1) × (length f.window ≤ max_ahead) };
}

impl Frames {
    /// A scan over a file that is obfuscated with a key, if there is one.
    pub fn new(alloc: Global, key: Option<[u8; 8]>) -> Result<Frames, AllocError>
        ensures start { IfOk result (λ scan. scan ≡ at_start key) }

        // Over an input that stands at its first byte, the scan has the frames of the whole file before it.
        ensures whole { IfOk result (λ scan. (held : Held) → frames_left scan held ≡ frames (unread_bytes held) key) }
    {
        Ok(Frames {
            alloc,
            key,
            bytes_taken: 0,
            window: Window::new(alloc)?,
        })
    }

    /// The offset up to which the scan is done: behind `next` or `next_header`, where the frame ends that it gave.
    pub fn passed(&self) -> u64
        ensures { result ≡ self.now.passed }
    {
        self.bytes_taken - self.window.as_slice().len() as u64
    }

    /// The block of the next frame; None where the file has ended and no frame is left. It takes the file in pieces of
    /// 64 KiB. Once the file was too long, it stays so.
    pub fn next<H: Host>(&mut self, host: &mut H) -> Result<Option<Block>, FrameFault>
        // Of a host that tells its files: the frames come in order, and None after the last.
        ensures frame { IfOk result (λ found. IfSome found (λ block. OnTold (H.held host.old) (H.held host.new) (λ s t. frames_left self.old s ≡ block ∷ frames_left self.new t))) }
        ensures ended { IfOk result (λ found. IfNone found (OnTold (H.held host.old) (H.held host.new) (λ s t. (frames_left self.old s ≡ []) × (unread_bytes t ≡ [])))) }

        // A block has a text.
        ensures text { IfOk result (λ found. IfSome found (λ block. (text : List ℕ) × (text_of block ≡ Some text))) }

        // An error loses none of them.
        ensures kept { OnErr result (OnTold (H.held host.old) (H.held host.new) (λ s t. frames_left self.new t ≡ frames_left self.old s)) }

        // Whatever the answer, the scan and the input have moved forward, and nothing else of the host has changed.
        ensures moves { OnTold (H.held host.old) (H.held host.new) (Moves self.old self.new) }
        ensures passes { OnTold (H.held host.old) (H.held host.new) (Passes self.old self.new) }
        ensures forward { (self.old.passed ≤ self.new.passed) × (bytes_taken self.old ≤ bytes_taken self.new) }
        ensures read { OnTold (H.held host.old) (H.held host.new) (λ s t. bytes_taken self.new ≤ bytes_taken self.old + length (unread_bytes s)) }
        ensures some { IfOk result (λ found. IfSome found (λ _. self.old.passed < self.new.passed)) }
        ensures key { self.new.key ≡ self.old.key }

        // The file is too long exactly where one byte more than the most was taken.
        ensures too_long { IsErrOf result fault.FileTooLong → OnTold (H.held host.old) (H.held host.new) (λ s t. max_file_bytes < bytes_taken self.old + length (unread_bytes s)) }
        ensures beyond { IsErrOf result fault.FileTooLong → bytes_taken self.new ≡ max_file_bytes + 1 }
        ensures within { OnOk result (bytes_taken self.new ≤ max_file_bytes) }
        ensures bound { bytes_taken self.new ≤ max_file_bytes + 1 }

        // However long the file is, no more of it is held than a frame of the greatest length and a piece.
        ensures held { length self.new.ahead ≤ max_ahead }

        // Memory is wanted for a true block alone, or to hold more of the file behind a head.
        ensures memory { IsErrOf result fault.NoMemory → BeginsFrame self.new ⊎ OutgrowsPiece self.new }

        // The host failed only where it counted that, and it counted nothing else.
        ensures later { H.faults host.old ≤ H.faults host.new }
        ensures cause { IsErrOf result fault.HostFailed → Rose (H.faults host.old) (H.faults host.new) }
        ensures steady { result ≢ Err fault.HostFailed → H.faults host.new ≡ H.faults host.old }
    {
        match self.next_frame(host)? {
            Some(len) => Ok(Some(self.take_block(len)?)),
            None => Ok(None),
        }
    }

    /// The header of the block that `next` would give, which is passed whole. Its transactions are tested and not kept.
    pub fn next_header<H: Host>(&mut self, host: &mut H) -> Result<Option<Header>, FrameFault>
        // Of a host that tells its files: the headers come in the order of their frames, and None after the last.
        ensures frame { IfOk result (λ found. IfSome found (λ header. OnTold (H.held host.old) (H.held host.new) (λ s t. (block : BlockValue) × (header ≡ block.header) × (frames_left self.old s ≡ block ∷ frames_left self.new t)))) }
        ensures ended { IfOk result (λ found. IfNone found (OnTold (H.held host.old) (H.held host.new) (λ s t. (frames_left self.old s ≡ []) × (unread_bytes t ≡ [])))) }

        // An error loses none of them.
        ensures kept { OnErr result (OnTold (H.held host.old) (H.held host.new) (λ s t. frames_left self.new t ≡ frames_left self.old s)) }

        // Whatever the answer, the scan and the input have moved forward, and nothing else of the host has changed.
        ensures moves { OnTold (H.held host.old) (H.held host.new) (Moves self.old self.new) }
        ensures passes { OnTold (H.held host.old) (H.held host.new) (Passes self.old self.new) }
        ensures forward { (self.old.passed ≤ self.new.passed) × (bytes_taken self.old ≤ bytes_taken self.new) }
        ensures read { OnTold (H.held host.old) (H.held host.new) (λ s t. bytes_taken self.new ≤ bytes_taken self.old + length (unread_bytes s)) }
        ensures some { IfOk result (λ found. IfSome found (λ _. self.old.passed < self.new.passed)) }
        ensures key { self.new.key ≡ self.old.key }

        // The file is too long exactly where one byte more than the most was taken.
        ensures too_long { IsErrOf result fault.FileTooLong → OnTold (H.held host.old) (H.held host.new) (λ s t. max_file_bytes < bytes_taken self.old + length (unread_bytes s)) }
        ensures beyond { IsErrOf result fault.FileTooLong → bytes_taken self.new ≡ max_file_bytes + 1 }
        ensures within { OnOk result (bytes_taken self.new ≤ max_file_bytes) }
        ensures bound { bytes_taken self.new ≤ max_file_bytes + 1 }

        // However long the file is, no more of it is held than a frame of the greatest length and a piece.
        ensures held { length self.new.ahead ≤ max_ahead }

        // Memory is wanted for a true block alone, or to hold more of the file behind a head.
        ensures memory { IsErrOf result fault.NoMemory → BeginsFrame self.new ⊎ OutgrowsPiece self.new }

        // The host failed only where it counted that, and it counted nothing else.
        ensures later { H.faults host.old ≤ H.faults host.new }
        ensures cause { IsErrOf result fault.HostFailed → Rose (H.faults host.old) (H.faults host.new) }
        ensures steady { result ≢ Err fault.HostFailed → H.faults host.new ≡ H.faults host.old }
    {
        match self.next_frame(host)? {
            Some(len) => Ok(Some(self.take_header(len)?)),
            None => Ok(None),
        }
    }

    /// Goes on to the next frame, so that it stands first, and answers the length of its block.
    fn next_frame<H: Host>(&mut self, host: &mut H) -> Result<Option<usize>, FrameFault>
        ensures advances { OnTold (H.held host.old) (H.held host.new) (Advances self.old self.new) }
        ensures forward { (self.old.passed ≤ self.new.passed) × (bytes_taken self.old ≤ bytes_taken self.new) }
        ensures key { self.new.key ≡ self.old.key }
        ensures block { IfOk result (λ found. IfSome found (λ len. BeginsBlock len self.new.ahead)) }
        ensures none { IfOk result (λ found. IfNone found (self.new.ahead ≡ [])) }
        ensures ended { IfOk result (λ found. IfNone found (OnTold (H.held host.old) (H.held host.new) (λ s t. unread_bytes t ≡ []))) }
        ensures too_long { IsErrOf result fault.FileTooLong → OnTold (H.held host.old) (H.held host.new) (λ s t. max_file_bytes < bytes_taken self.old + length (unread_bytes s)) }
        ensures beyond { IsErrOf result fault.FileTooLong → bytes_taken self.new ≡ max_file_bytes + 1 }
        ensures within { OnOk result (bytes_taken self.new ≤ max_file_bytes) }
        ensures bound { bytes_taken self.new ≤ max_file_bytes + 1 }
        ensures held { length self.new.ahead ≤ max_ahead }
        ensures memory { IsErrOf result fault.NoMemory → OutgrowsPiece self.new }
        ensures later { H.faults host.old ≤ H.faults host.new }
        ensures cause { IsErrOf result fault.HostFailed → Rose (H.faults host.old) (H.faults host.new) }
        ensures steady { result ≢ Err fault.HostFailed → H.faults host.new ≡ H.faults host.old }
    {
        if self.is_too_long() {
            return Err(FrameFault::FileTooLong);
        }
        loop {
            if let Some(len) = self.find(false) {
                return Ok(Some(len));
            }
            if !self.take_piece(host)? {
                return Ok(self.find(true));
            }
        }
    }

    /// Takes the block of the frame that stands first.
    fn take_block(&mut self, len: usize) -> Result<Block, FrameFault>
        requires { BeginsBlock len self.old.ahead }
        ensures frame { IfOk result (λ block. (held : Held) → frames_left self.old held ≡ block ∷ frames_left self.new held) }
        ensures text { IfOk result (λ block. (text : List ℕ) × (text_of block ≡ Some text)) }
        ensures passes { (held : Held) → Passes self.old self.new held held }
        ensures passed { OnOk result (self.old.passed < self.new.passed) }
        ensures bytes_taken { bytes_taken self.new ≡ bytes_taken self.old }
        ensures key { self.new.key ≡ self.old.key }
        ensures held { length self.new.ahead ≤ max_ahead }
        ensures kept { OnErr result (self.new ≡ self.old) }
        ensures memory { IfErr result (λ error. error ≡ fault.NoMemory) }
    {
        take_block(self.alloc, &mut self.window, len)
    }

    /// Takes the header of the frame that stands first, and passes the frame.
    fn take_header(&mut self, len: usize) -> Result<Header, FrameFault>
        requires { BeginsBlock len self.old.ahead }
        ensures frame { IfOk result (λ header. (held : Held) → (block : BlockValue) × (header ≡ block.header) × (frames_left self.old held ≡ block ∷ frames_left self.new held)) }
        ensures passes { (held : Held) → Passes self.old self.new held held }
        ensures passed { OnOk result (self.old.passed < self.new.passed) }
        ensures bytes_taken { bytes_taken self.new ≡ bytes_taken self.old }
        ensures key { self.new.key ≡ self.old.key }
        ensures held { length self.new.ahead ≤ max_ahead }
        ensures kept { OnErr result (self.new ≡ self.old) }
        ensures memory { IfErr result (λ error. error ≡ fault.NoMemory) }
    {
        take_header(&mut self.window, len)
    }

    /// Whether more than the most bytes were taken.
    fn is_too_long(&self) -> bool
        ensures test { IsTrue result ↔ (max_file_bytes < bytes_taken self.now) }
        ensures bound { bytes_taken self.now ≤ max_file_bytes + 1 }
        ensures held { length self.now.ahead ≤ max_ahead }
    {
        self.bytes_taken > MAX_FILE_BYTES
    }

    /// Looks for a frame among the bytes that were taken.
    fn find(&mut self, is_end: bool) -> Option<usize>
        ensures frames { (held : Held) → Ends is_end held → frames_left self.new held ≡ frames_left self.old held }
        ensures passes { (held : Held) → Passes self.old self.new held held }
        ensures block { IfSome result (λ len. BeginsBlock len self.new.ahead) }
        ensures stuck { IfNone result (IsStuck is_end self.new.ahead) }
        ensures passed { self.old.passed ≤ self.new.passed }
        ensures bytes_taken { bytes_taken self.new ≡ bytes_taken self.old }
        ensures key { self.new.key ≡ self.old.key }
        ensures held { length self.new.ahead ≤ max_ahead }
    {
        find_frame(&mut self.window, is_end)
    }

    /// Takes a piece of the file, and answers whether there was one.
    fn take_piece<H: Host>(&mut self, host: &mut H) -> Result<bool, FrameFault>
        requires few { length self.old.ahead < 4000008 }
        requires within { bytes_taken self.old ≤ max_file_bytes }
        ensures bytes_left { OnTold (H.held host.old) (H.held host.new) (λ s t. bytes_left self.new t ≡ bytes_left self.old s) }
        ensures moves { OnTold (H.held host.old) (H.held host.new) (Moves self.old self.new) }
        ensures passed { self.new.passed ≡ self.old.passed }
        ensures read { OnTold (H.held host.old) (H.held host.new) (λ s t. bytes_taken self.new ≤ bytes_taken self.old + length (unread_bytes s)) }
        ensures key { self.new.key ≡ self.old.key }
        ensures bytes_taken { bytes_taken self.old ≤ bytes_taken self.new }
        ensures bound { bytes_taken self.new ≤ max_file_bytes + 1 }
        ensures more { IfOk result (λ more. (bytes_taken self.new ≤ max_file_bytes) × (IsTrue more → bytes_taken self.old < bytes_taken self.new)) }
        ensures ended { result ≡ Ok false → OnTold (H.held host.old) (H.held host.new) (λ s t. unread_bytes t ≡ []) }
        ensures held { length self.new.ahead ≤ max_ahead }
        ensures too_long { IsErrOf result fault.FileTooLong → OnTold (H.held host.old) (H.held host.new) (λ s t. max_file_bytes < bytes_taken self.old + length (unread_bytes s)) }
        ensures beyond { IsErrOf result fault.FileTooLong → bytes_taken self.new ≡ max_file_bytes + 1 }
        ensures room { IsErrOf result fault.NoMemory → (self.new ≡ self.old) × (32768 < length self.old.ahead) }
        ensures later { H.faults host.old ≤ H.faults host.new }
        ensures steady { result ≢ Err fault.HostFailed → H.faults host.new ≡ H.faults host.old }
        ensures cause { IsErrOf result fault.HostFailed → Rose (H.faults host.old) (H.faults host.new) }
    {
        // One byte past the most shows that the file is too long.
        let most = (MAX_FILE_BYTES - self.bytes_taken).clamp(1, PIECE_BYTES as u64);
        let count = self
            .window
            .take_from(host, most as usize, &self.key, self.bytes_taken)?;
        self.bytes_taken += count as u64;
        if self.bytes_taken > MAX_FILE_BYTES {
            return Err(FrameFault::FileTooLong);
        }
        Ok(count > 0)
    }
}
