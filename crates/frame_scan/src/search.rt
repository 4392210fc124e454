//! Looking for a frame among the bytes that were taken.

ghost use Rattle.std.specs.Prelude.{◌≡◌, ◌+◌, ℕ, List, Some, false, drop, IfOk, IfErr, OnOk, OnErr};
ghost use Rattle.block_codec.specs.Text.{text_of};
ghost use Rattle.frame_scan.specs.declared.fault.FrameFault.TheVariants.{NoMemory};
ghost use Rattle.frame_scan.specs.Search.{IsRest, Finds, SameFrames, HasFrame, HasHeader, BeginsBlock};

use crate::fault::FrameFault;
use crate::head::{Head, head_of};
use crate::window::Window;
use base_types::{Cursor, MESSAGE_START};
use block_codec::{Block, BlockFault, Header, is_block, read_block, read_header};
use memchr::memchr;
use std::alloc::Global;

/// Passes bytes up to the first frame, and answers the length of its block. None where the bytes that are left may yet
/// become one, by what follows them; at the end of the file nothing does. It takes no memory: a stranger can fill a file
/// with false heads.
pub(crate) fn find_frame(window: &mut Window, is_end: bool) -> Option<usize>
    ensures found { Finds is_end result window.old window.new }
    ensures rest { IsRest window.old window.new }
{
    loop {
        pass_to_magic(window);
        match head_of(window.as_slice()) {
            Head::Absent => window.pass(1),
            Head::Cut => {
                if !is_end || window.as_slice().is_empty() {
                    return None;
                }
                window.pass(1);
            }
            Head::Whole { len } => {
                if is_block(&window.as_slice()[8..8 + len]) {
                    return Some(len);
                }
                window.pass(1);
            }
        }
    }
}

/// Passes all bytes before the first with which a head may begin.
fn pass_to_magic(window: &mut Window)
    ensures same { SameFrames false window.old window.new }
    ensures rest { IsRest window.old window.new }
{
    let bytes = window.as_slice();
    let count = memchr(MESSAGE_START[0], bytes).unwrap_or(bytes.len());
    window.pass(count);
}

/// Takes the block of the frame that stands first.
pub(crate) fn take_block(
    alloc: Global,
    window: &mut Window,
    len: usize,
) -> Result<Block, FrameFault>
    requires { BeginsBlock len window.old }
    ensures block { IfOk result (λ block. HasFrame false window.old block window.new) }
    ensures text { IfOk result (λ block. (text : List ℕ) × (text_of block ≡ Some text)) }
    ensures passed { OnOk result (window.new ≡ drop (8 + len) window.old) }
    ensures kept { OnErr result (window.new ≡ window.old) }
    ensures memory { IfErr result (λ error. error ≡ NoMemory) }
{
    match read_block(alloc, &window.as_slice()[8..8 + len]) {
        Ok(block) => {
            window.pass(8 + len);
            Ok(block)
        }
        Err(BlockFault::NoMemory) => Err(FrameFault::NoMemory),
        Err(BlockFault::Bad { .. }) => unreachable!(),
    }
}

/// Takes the header of the block of the frame that stands first, and passes the frame.
pub(crate) fn take_header(window: &mut Window, len: usize) -> Result<Header, FrameFault>
    requires { BeginsBlock len window.old }
    ensures header { IfOk result (λ header. HasHeader window.old header window.new) }
    ensures passed { OnOk result (window.new ≡ drop (8 + len) window.old) }
    ensures kept { OnErr result (window.new ≡ window.old) }
    ensures memory { IfErr result (λ error. error ≡ NoMemory) }
{
    match read_header(&mut Cursor::new(&window.as_slice()[8..8 + len])) {
        Ok(header) => {
            window.pass(8 + len);
            Ok(header)
        }
        Err(BlockFault::NoMemory) => Err(FrameFault::NoMemory),
        Err(BlockFault::Bad { .. }) => unreachable!(),
    }
}
