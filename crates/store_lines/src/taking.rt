//! The headers of a file, which the lines `headers` and `import` take.

ghost use Rattle.std.specs.Prelude.{◌≡◌, ◌≤◌, ℕ, List, Option, None, IfOk, IfErr, OnErr};
ghost use Rattle.base_types.specs.declared.flushes.Flushed.{Flushed};
ghost use Rattle.chainstates.specs.Offers.{closed_under};
ghost use Rattle.chainstates.specs.Standing.{KeepsFiles, KeepsSettings};
ghost use Rattle.command_loop.specs.Points.{IsOpenAt};
ghost use Rattle.command_loop.specs.ServerCalls.{WorkStopped};
ghost use Rattle.command_text.specs.declared.line.Line.{Line};
ghost use Rattle.io_traits.specs.Host.{Held};
ghost use Rattle.machine.specs.State.{Setting, State};
ghost use Rattle.machine.specs.Steps.{moved_on};
ghost use Rattle.machine.specs.Work.{IsMoment, Moment};
ghost use Rattle.store_lines.specs.Serving.{DoesLine, LineFails, now_at, standing_of};
ghost use Rattle.store_lines.specs.Taking.{OffersHeaders, TakesFile, TakesOrEnds, WorkBroken, adding};
ghost use Rattle.store_state.specs.State.{StoreState, first_rules};

use crate::saying::{say, say_fault};
use base_types::StoreFault;
use block_codec::Header;
use block_files::read_headers;
use chainstates::Session;
use command_text::Reply;
use disk_model::Disk;
use io_traits::Host;
use std::alloc::Global;

/// How many frames a file has, and how many of their headers were new.
#[derive(Clone, Copy, Debug, PartialEq, Eq)]
pub(crate) struct TakenHeaders {
    pub(crate) frames: u64,
    pub(crate) added: u64,
}

/// Adds the headers of a block file to the tree and stores them. `None` where that ends the line, and its reply is said: the
/// file can't be read, or the tree is full.
pub(crate) fn take_headers<D: Disk, H: Host>(
    alloc: Global,
    session: &mut Session,
    disk: &mut D,
    host: &mut H,
    name: &str,
    key: Option<[u8; 8]>,
    out: &mut Vec<u8>,
) -> Result<Option<TakenHeaders>, StoreFault>
    ensures ok { (setting : Setting) (before : Moment) (state : State) (from : StoreState) (had : List Flushed)
        → IsOpenAt setting (standing_of setting.limit session.old) (D.time disk.old) (D.contents disk.old) (D.left_since disk.old) (H.held host.old) (H.faults host.old) before state from → setting.given ≡ first_rules
        → IfOk result (TakesOrEnds setting (D.left_since disk.old) (D.left_since disk.new) before state from
        (IsOpenAt setting (standing_of setting.limit session.new) (D.time disk.new) (D.contents disk.new) (D.left_since disk.new) (H.held host.new) (H.faults host.new)) name.now key had out.old.items out.new.items) }
    ensures err { (setting : Setting) (before : Moment) (state : State) (from : StoreState) (had : List Flushed) (asked : Line)
        → IsOpenAt setting (standing_of setting.limit session.old) (D.time disk.old) (D.contents disk.old) (D.left_since disk.old) (H.held host.old) (H.faults host.old) before state from → setting.given ≡ first_rules
        → TakesFile name.now key asked
        → OnErr result (WorkStopped setting (D.left_since disk.old) (D.left_since disk.new) before from (DoesLine setting before state asked)
        (IsMoment (D.time disk.new) (D.contents disk.new) (H.held host.new) (H.faults host.new)) None had had) }
    ensures cause { IfErr result (LineFails session.old (D.faults disk.old) (D.faults disk.new)) }
    ensures later { D.time disk.old ≤ D.time disk.new }
    ensures faults { (D.faults disk.old ≤ D.faults disk.new) × (H.faults host.old ≤ H.faults host.new) }
    ensures set { KeepsSettings session.old session.new }
    ensures files { KeepsFiles session.old session.new }
{
    match read_headers(alloc, host, name, key) {
        Ok(headers) => offer_read(alloc, session, disk, headers.as_slice(), out),
        Err(fault) => match say_fault(out, fault) {
            Ok(()) => Ok(None),
            Err(fault) => Err(fault),
        },
    }
}

// Offers headers that were read of a file. `None` where the tree is full, and it is said.
fn offer_read<D: Disk>(
    alloc: Global,
    session: &mut Session,
    disk: &mut D,
    headers: &[Header],
    out: &mut Vec<u8>,
) -> Result<Option<TakenHeaders>, StoreFault>
    ensures ok { (setting : Setting) (before : Moment) (state : State) (from : StoreState) (held : Option Held) (count : ℕ)
        → IsOpenAt setting (standing_of setting.limit session.old) (D.time disk.old) (D.contents disk.old) (D.left_since disk.old) held count before state from → setting.given ≡ first_rules
        → IfOk result (OffersHeaders setting (D.left_since disk.old) (D.left_since disk.new) before state from
        (IsOpenAt setting (standing_of setting.limit session.new) (D.time disk.new) (D.contents disk.new) (D.left_since disk.new) held count) headers.now out.old.items out.new.items) }
    ensures err { (setting : Setting) (before : Moment) (state : State) (from : StoreState) (held : Option Held) (count : ℕ)
        → IsOpenAt setting (standing_of setting.limit session.old) (D.time disk.old) (D.contents disk.old) (D.left_since disk.old) held count before state from → setting.given ≡ first_rules
        → OnErr result (WorkBroken setting (D.left_since disk.old) (D.left_since disk.new) before from (moved_on (now_at before state) (adding setting state headers.now))
        (IsMoment (D.time disk.new) (D.contents disk.new) held count)) }
    ensures cause { IfErr result (LineFails session.old (D.faults disk.old) (D.faults disk.new)) }
    ensures later { D.time disk.old ≤ D.time disk.new }
    ensures faults { D.faults disk.old ≤ D.faults disk.new }
    ensures set { KeepsSettings session.old session.new }
    ensures files { KeepsFiles session.old session.new }
{
    let closure = match session.offer_headers(alloc, disk, headers) {
        Ok(closure) => closure,
        Err(fault) => return Err(fault),
    };
    if closure.tree_full {
        return match say(out, &Reply::TreeFull) {
            Ok(()) => Ok(None),
            Err(fault) => Err(fault),
        };
    }
    Ok(Some(TakenHeaders {
        frames: headers.len() as u64,
        added: u64::from(closure.added),
    }))
}
