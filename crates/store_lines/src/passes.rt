//! The pass over the bodies of a block file.

ghost use Rattle.std.specs.Prelude.{◌≡◌, ◌++◌, ◌∷◌, ◌≤◌, [], ℕ, List, Some, map, IfErr, IfOk, OnErr, OnOk};
ghost use Rattle.std.specs.FinMap.{get};
ghost use Rattle.std.specs.List.{flat_map};
ghost use Rattle.base_types.specs.declared.fault.StoreFault.TheVariants.{NoMemory};
ghost use Rattle.block_codec.specs.Frames.{frames as blocks_in};
ghost use Rattle.block_codec.specs.Text.{text_of};
ghost use Rattle.block_files.specs.Passes.{size};
ghost use Rattle.chainstates.specs.Offers.{Stands, replies_of};
ghost use Rattle.chainstates.specs.Standing.{KeepsFiles, KeepsSettings};
ghost use Rattle.command_text.specs.Replies.{reply_text};
ghost use Rattle.frame_scan.specs.Scan.{frames_left};
ghost use Rattle.io_traits.specs.Causes.{Rose};
ghost use Rattle.io_traits.specs.Host.{Held};
ghost use Rattle.io_traits.specs.Told.{OnTold};
ghost use Rattle.machine.specs.State.{State};
ghost use Rattle.reorg.specs.Advancing.{refusal_reply};
ghost use Rattle.store_lines.specs.Passing.{HasPassed, HasPassedPart, Passes, StopsAt, StopsIn, stored_by};
ghost use Rattle.store_lines.specs.Serving.{LineFails};
ghost use Rattle.store_state.specs.Settled.{IsSettled};
ghost use Rattle.store_state.specs.State.{StoreState};

use crate::saying::say;
use base_types::{Hash32, StoreFault};
use block_codec::HashedBlock;
use block_files::{next_block, open_blocks};
use chainstates::{Offered, Session};
use command_text::Reply;
use disk_model::Disk;
use frame_scan::{FrameFault, Frames};
use io_traits::Host;
use reorg::{Refusals, RefusedBlock};
use std::alloc::Global;

/// How a pass over the bodies of a file ended: all were offered, and so many of them stored; or the file can't be read on.
#[derive(Clone, Copy, Debug, PartialEq, Eq)]
pub(crate) enum PassEnd {
    Whole { bodies: u64 },
    Broken(FrameFault),
}

/// Offers the blocks of a file one after the other, with a line for each that is refused.
pub(crate) fn offer_file<D: Disk, H: Host>(
    alloc: Global,
    session: &mut Session,
    disk: &mut D,
    host: &mut H,
    name: &str,
    key: Option<[u8; 8]>,
    out: &mut Vec<u8>,
) -> Result<PassEnd, StoreFault>
    ensures ok { (limit : ℕ) (state : State) (store : StoreState) (held : Held) (bytes : List ℕ)
        → H.held host.old ≡ Some held → get held.files name.now ≡ Some bytes
        → Stands limit (D.contents disk.old) (D.left_since disk.old (D.time disk.old)) session.old state store → IsSettled store
        → IfOk result (Passes limit (D.left_since disk.old) (D.left_since disk.new) (D.time disk.old) (D.time disk.new) (D.contents disk.old) (D.contents disk.new) session.new state store out.old.items out.new.items (blocks_in bytes key)) }
    ensures err { (limit : ℕ) (state : State) (store : StoreState) (held : Held) (bytes : List ℕ)
        → H.held host.old ≡ Some held → get held.files name.now ≡ Some bytes
        → Stands limit (D.contents disk.old) (D.left_since disk.old (D.time disk.old)) session.old state store → IsSettled store
        → OnErr result (HasPassedPart limit (D.left_since disk.old) (D.left_since disk.new) (D.time disk.old) (D.time disk.new) (D.contents disk.old) (D.contents disk.new) state store (blocks_in bytes key)) }
    ensures told { OnTold (H.held host.old) (H.held host.new) (λ s t. (t.files ≡ s.files) × StopsIn (get s.files name.now) (Rose (H.faults host.old) (H.faults host.new)) result) }
    ensures cause { IfErr result (LineFails session.old (D.faults disk.old) (D.faults disk.new)) }
    ensures later { D.time disk.old ≤ D.time disk.new }
    ensures faults { (D.faults disk.old ≤ D.faults disk.new) × (H.faults host.old ≤ H.faults host.new) }
    ensures set { KeepsSettings session.old session.new }
    ensures files { KeepsFiles session.old session.new }
{
    match open_blocks(alloc, host, name, key) {
        Ok(mut frames) => offer_blocks(alloc, session, disk, host, &mut frames, out),
        Err(FrameFault::NoMemory) => Err(StoreFault::NoMemory),
        Err(fault) => Ok(PassEnd::Broken(fault)),
    }
}

// Offers the blocks that are left of a file.
fn offer_blocks<D: Disk, H: Host>(
    alloc: Global,
    session: &mut Session,
    disk: &mut D,
    host: &mut H,
    frames: &mut Frames,
    out: &mut Vec<u8>,
) -> Result<PassEnd, StoreFault>
    ensures ok { (limit : ℕ) (state : State) (store : StoreState) (held : Held)
        → H.held host.old ≡ Some held → Stands limit (D.contents disk.old) (D.left_since disk.old (D.time disk.old)) session.old state store → IsSettled store
        → IfOk result (Passes limit (D.left_since disk.old) (D.left_since disk.new) (D.time disk.old) (D.time disk.new) (D.contents disk.old) (D.contents disk.new) session.new state store out.old.items out.new.items (frames_left frames.old held)) }
    ensures err { (limit : ℕ) (state : State) (store : StoreState) (held : Held)
        → H.held host.old ≡ Some held → Stands limit (D.contents disk.old) (D.left_since disk.old (D.time disk.old)) session.old state store → IsSettled store
        → OnErr result (HasPassedPart limit (D.left_since disk.old) (D.left_since disk.new) (D.time disk.old) (D.time disk.new) (D.contents disk.old) (D.contents disk.new) state store (frames_left frames.old held)) }
    ensures told { OnTold (H.held host.old) (H.held host.new) (λ s t. (t.files ≡ s.files) × StopsAt (size frames.old s) (Rose (H.faults host.old) (H.faults host.new)) result) }
    ensures cause { IfErr result (LineFails session.old (D.faults disk.old) (D.faults disk.new)) }
    ensures later { D.time disk.old ≤ D.time disk.new }
    ensures faults { (D.faults disk.old ≤ D.faults disk.new) × (H.faults host.old ≤ H.faults host.new) }
    ensures set { KeepsSettings session.old session.new }
    ensures files { KeepsFiles session.old session.new }
{
    let mut bodies = 0;
    loop {
        let block = match next_block(alloc, host, frames) {
            Ok(Some(block)) => block,
            Ok(None) => return Ok(PassEnd::Whole { bodies }),
            Err(FrameFault::NoMemory) => return Err(StoreFault::NoMemory),
            Err(fault) => return Ok(PassEnd::Broken(fault)),
        };
        match offer_block(alloc, session, disk, &block, out) {
            Ok(stored) => bodies += stored,
            Err(fault) => return Err(fault),
        }
    }
}

// Offers a block, and says how many bodies that stored.
fn offer_block<D: Disk>(
    alloc: Global,
    session: &mut Session,
    disk: &mut D,
    block: &HashedBlock,
    out: &mut Vec<u8>,
) -> Result<u64, StoreFault>
    ensures ok { (limit : ℕ) (state : State) (store : StoreState) (text : List ℕ)
        → Stands limit (D.contents disk.old) (D.left_since disk.old (D.time disk.old)) session.old state store → IsSettled store → text_of block.now ≡ Some text
        → IfOk result (HasPassed limit (D.left_since disk.old) (D.left_since disk.new) (D.time disk.old) (D.time disk.new) (D.contents disk.old) (D.contents disk.new) session.new state store out.old.items out.new.items (block.now ∷ [])) }
    ensures err { (limit : ℕ) (state : State) (store : StoreState) (text : List ℕ)
        → Stands limit (D.contents disk.old) (D.left_since disk.old (D.time disk.old)) session.old state store → IsSettled store → text_of block.now ≡ Some text
        → OnErr result (HasPassedPart limit (D.left_since disk.old) (D.left_since disk.new) (D.time disk.old) (D.time disk.new) (D.contents disk.old) (D.contents disk.new) state store (block.now ∷ [])) }
    ensures count { IfOk result (λ stored. stored ≤ 1) }
    ensures cause { IfErr result (LineFails session.old (D.faults disk.old) (D.faults disk.new)) }
    ensures later { D.time disk.old ≤ D.time disk.new }
    ensures faults { D.faults disk.old ≤ D.faults disk.new }
    ensures set { KeepsSettings session.old session.new }
    ensures files { KeepsFiles session.old session.new }
{
    let offered = match session.offer_body(alloc, disk, block) {
        Ok(offered) => offered,
        Err(fault) => return Err(fault),
    };
    match say_offered(out, block.hash(), &offered) {
        Ok(()) => Ok(stored_count(&offered)),
        Err(fault) => Err(fault),
    }
}

// How many bodies an offer stored.
fn stored_count(offered: &Offered) -> u64
    ensures { result ≡ stored_by offered.now }
{
    match offered {
        Offered::Stored(_) => 1,
        Offered::Known | Offered::NoHeader | Offered::Refused(_) => 0,
    }
}

// Says which blocks were refused as a body was offered.
fn say_offered(out: &mut Vec<u8>, hash: &Hash32, offered: &Offered) -> Result<(), StoreFault>
    ensures ok { OnOk result (out.new.items ≡ out.old.items ++ flat_map reply_text (replies_of hash.now offered.now)) }
    ensures err { IfErr result (λ fault. fault ≡ NoMemory) }
{
    match offered {
        Offered::Stored(refusals) => say_refusals(out, refusals),
        Offered::Known | Offered::NoHeader => Ok(()),
        Offered::Refused(why) => say(
            out,
            &Reply::Body {
                hash: *hash,
                rule: *why,
            },
        ),
    }
}

fn say_refusals(out: &mut Vec<u8>, refusals: &Refusals) -> Result<(), StoreFault>
    ensures ok { OnOk result (out.new.items ≡ out.old.items ++ flat_map reply_text (map refusal_reply refusals.now)) }
    ensures err { IfErr result (λ fault. fault ≡ NoMemory) }
{
    for refused in refusals.as_slice() {
        say(out, &reply_to(refused))?;
    }
    Ok(())
}

// The line of a block that a move refused.
fn reply_to(refused: &RefusedBlock) -> Reply
    ensures { result ≡ refusal_reply refused.now }
{
    Reply::BlockOf {
        chain: refused.chain,
        hash: refused.hash,
        rule: refused.why,
    }
}
