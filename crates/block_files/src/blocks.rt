//! The blocks of a file, one after another.

ghost use Rattle.std.specs.Prelude.{◌≡◌, ◌≢◌, ℕ, ◌+◌, ◌<◌, ◌≤◌, List, Some, Err, IfOk, IfSome};
ghost use Rattle.block_codec.specs.Text.{text_of};
ghost use Rattle.block_files.specs.Passes.{NextBlock, OpensFile};
ghost use Rattle.frame_scan.specs.Scan.{bytes_taken, max_file_bytes};
ghost use Rattle.frame_scan.specs.declared.fault.FrameFault.TheVariants.{HostFailed};
ghost use Rattle.io_traits.specs.Told.{OnTold};

use block_codec::HashedBlock;
use frame_scan::{FrameFault, Frames};
use io_traits::Host;
use std::alloc::{AllocError, Global};

/// Opens a file of the host, which may be obfuscated with a key, and stands before its first block. A name that the host
/// doesn't hold is told as `HostFailed`, and counts as no fault.
pub fn open_blocks<H: Host>(
    alloc: Global,
    host: &mut H,
    name: &str,
    key: Option<[u8; 8]>,
) -> Result<Frames, FrameFault>
    ensures told { OnTold (H.held host.old) (H.held host.new) (OpensFile name.now key (H.faults host.old) (H.faults host.new) result) }
    ensures bound { IfOk result (λ frames. bytes_taken frames ≤ max_file_bytes + 1) }
    ensures later { H.faults host.old ≤ H.faults host.new }
    ensures steady { result ≢ Err HostFailed → H.faults host.new ≡ H.faults host.old }
{
    let Ok(frames) = Frames::new(alloc, key) else {
        return Err(FrameFault::NoMemory);
    };
    match host.open_in(name) {
        Ok(()) => Ok(frames),
        Err(_) => Err(FrameFault::HostFailed),
    }
}

/// The block of the next frame, hashed once; None behind the last.
pub fn next_block<H: Host>(
    alloc: Global,
    host: &mut H,
    frames: &mut Frames,
) -> Result<Option<HashedBlock>, FrameFault>
    ensures told { OnTold (H.held host.old) (H.held host.new) (NextBlock frames.old frames.new (H.faults host.old) (H.faults host.new) result) }
    ensures some { IfOk result (λ found. IfSome found (λ _. frames.old.passed < frames.new.passed)) }

    // A block has a text.
    ensures text { IfOk result (λ found. IfSome found (λ block. (text : List ℕ) × (text_of block ≡ Some text))) }
    ensures bound { bytes_taken frames.new ≤ max_file_bytes + 1 }
    ensures later { H.faults host.old ≤ H.faults host.new }
    ensures steady { result ≢ Err HostFailed → H.faults host.new ≡ H.faults host.old }
{
    match frames.next(host) {
        Ok(Some(block)) => match HashedBlock::new(alloc, block) {
            Ok(block) => Ok(Some(block)),
            Err(AllocError) => Err(FrameFault::NoMemory),
        },
        Ok(None) => Ok(None),
        Err(fault) => Err(fault),
    }
}
