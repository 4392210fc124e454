//! Folding a block file of the host.

ghost use Rattle.std.specs.Prelude.{◌≡◌, ◌≢◌, ◌+◌, ◌<◌, ◌≤◌, Ok, Err, IfOk, IfSome};
ghost use Rattle.command_text.specs.declared.reply.Reply.TheVariants as says;
ghost use Rattle.coins_top.specs.declared.fold_end.FoldEnd.TheVariants.{Replied};
ghost use Rattle.io_traits.specs.Told.{OnTold};
ghost use Rattle.frame_scan.specs.Scan.{bytes_taken, max_file_bytes};
ghost use Rattle.coins_top.specs.FileFolds.{NextBlock, FoldsRest, FoldsInput, FoldsFile};

use crate::fold_end::FoldEnd;
use crate::folding::Folding;
use base_types::{Limits, Rules};
use block_codec::HashedBlock;
use command_text::Reply;
use frame_scan::{FrameFault, Frames};
use io_traits::Host;
use std::alloc::{AllocError, Global};

/// What folding the file of this name answers. Blocks are folded as their frames are found, so that no more than one of
/// them is held beside the coins and the headers.
pub(crate) fn fold<H: Host>(
    alloc: Global,
    host: &mut H,
    name: &str,
    limits: &Limits,
    rules: &Rules,
) -> Result<Reply, AllocError>
    ensures later { H.faults host.old ≤ H.faults host.new }
    ensures steady { result ≢ Ok says.HostFault → H.faults host.new ≡ H.faults host.old }
    ensures told { OnTold (H.held host.old) (H.held host.new) (FoldsFile limits.now.headers rules.now name.now (H.faults host.old) (H.faults host.new) result) }
{
    if host.open_in(name).is_err() {
        return Ok(Reply::HostFault);
    }
    match fold_input(alloc, host, limits, rules) {
        Ok(reply) => Ok(reply),
        Err(FoldEnd::Replied(reply)) => Ok(reply),
        Err(FoldEnd::NoMemory) => Err(AllocError),
    }
}

// Folds the open input from its place on.
fn fold_input<H: Host>(
    alloc: Global,
    host: &mut H,
    limits: &Limits,
    rules: &Rules,
) -> Result<Reply, FoldEnd>
    ensures later { H.faults host.old ≤ H.faults host.new }
    ensures steady { result ≢ Err (Replied says.HostFault) → H.faults host.new ≡ H.faults host.old }
    ensures told { OnTold (H.held host.old) (H.held host.new) (FoldsInput limits.now.headers rules.now (H.faults host.old) (H.faults host.new) result) }
{
    let mut frames = Frames::new(alloc, None)?;
    let mut folding = Folding::new(alloc, limits, rules)?;
    let Some(block) = next_block(alloc, host, &mut frames)? else {
        return Ok(folding.reply());
    };
    folding.add_first(alloc, &block)?;
    fold_rest(alloc, host, &mut frames, &mut folding)?;
    Ok(folding.reply())
}

// Folds the blocks of all further frames.
fn fold_rest<H: Host>(
    alloc: Global,
    host: &mut H,
    frames: &mut Frames,
    folding: &mut Folding,
) -> Result<(), FoldEnd>
    ensures later { H.faults host.old ≤ H.faults host.new }
    ensures steady { result ≢ Err (Replied says.HostFault) → H.faults host.new ≡ H.faults host.old }
    ensures told { OnTold (H.held host.old) (H.held host.new) (FoldsRest folding.old.limit folding.old.folded folding.new.folded frames.old (H.faults host.old) (H.faults host.new) result) }
{
    while let Some(block) = next_block(alloc, host, frames)? {
        folding.add(alloc, &block)?;
    }
    Ok(())
}

// The block of the next frame, hashed once.
fn next_block<H: Host>(
    alloc: Global,
    host: &mut H,
    frames: &mut Frames,
) -> Result<Option<HashedBlock>, FoldEnd>
    ensures told { OnTold (H.held host.old) (H.held host.new) (NextBlock frames.old frames.new (H.faults host.old) (H.faults host.new) result) }
    ensures some { IfOk result (λ found. IfSome found (λ _. frames.old.passed < frames.new.passed)) }
    ensures bound { bytes_taken frames.new ≤ max_file_bytes + 1 }
    ensures later { H.faults host.old ≤ H.faults host.new }
    ensures steady { result ≢ Err (Replied says.HostFault) → H.faults host.new ≡ H.faults host.old }
{
    match frames.next(host) {
        Ok(Some(block)) => Ok(Some(HashedBlock::new(alloc, block)?)),
        Ok(None) => Ok(None),
        Err(FrameFault::NoMemory) => Err(FoldEnd::NoMemory),
        Err(FrameFault::HostFailed) => Err(FoldEnd::Replied(Reply::HostFault)),
        Err(FrameFault::FileTooLong) => Err(FoldEnd::Replied(Reply::FileTooLong)),
    }
}
