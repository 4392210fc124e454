//! The line `import`.

ghost use Rattle.std.specs.Prelude.{◌≡◌, ◌≤◌, ℕ, List, None, IfErr, OnErr, OnOk};
ghost use Rattle.base_types.specs.declared.fault.StoreFault.TheVariants.{NoMemory};
ghost use Rattle.base_types.specs.declared.flushes.Flushed.{Flushed};
ghost use Rattle.chainstates.specs.Standing.{KeepsFiles, KeepsSettings};
ghost use Rattle.command_loop.specs.Points.{IsOpenAt};
ghost use Rattle.command_loop.specs.ServerCalls.{WorkServed, WorkStopped};
ghost use Rattle.command_text.specs.declared.line.Line.TheVariants as line;
ghost use Rattle.machine.specs.State.{Setting, State};
ghost use Rattle.machine.specs.Work.{IsMoment, Moment};
ghost use Rattle.store_lines.specs.Passing.{SaysEnd};
ghost use Rattle.store_lines.specs.Serving.{DoesLine, LineFails, standing_of};
ghost use Rattle.store_state.specs.State.{StoreState, first_rules};

use crate::passes::{PassEnd, offer_file};
use crate::saying::{say, say_fault};
use crate::taking::{TakenHeaders, take_headers};
use base_types::StoreFault;
use chainstates::{Info, Session};
use command_text::Reply;
use disk_model::Disk;
use io_traits::Host;
use std::alloc::Global;

/// Adds the headers of a block file to the tree and stores them, then offers the bodies of its blocks one after the other, and
/// says how many there were. The file is read twice, the first time for its headers alone.
pub fn import_line<D: Disk, H: Host>(
    alloc: Global,
    session: &mut Session,
    disk: &mut D,
    host: &mut H,
    name: &str,
    key: Option<[u8; 8]>,
    out: &mut Vec<u8>,
) -> Result<(), StoreFault>
    ensures ok { (setting : Setting) (before : Moment) (state : State) (from : StoreState) (had : List Flushed)
        → IsOpenAt setting (standing_of setting.limit session.old) (D.time disk.old) (D.contents disk.old) (D.left_since disk.old) (H.held host.old) (H.faults host.old) before state from → setting.given ≡ first_rules
        → OnOk result (WorkServed setting (D.left_since disk.old) (D.left_since disk.new) before from (DoesLine setting before state (line.Import name.now key))
        (IsOpenAt setting (standing_of setting.limit session.new) (D.time disk.new) (D.contents disk.new) (D.left_since disk.new) (H.held host.new) (H.faults host.new)) had had out.old.items out.new.items) }
    ensures err { (setting : Setting) (before : Moment) (state : State) (from : StoreState) (had : List Flushed)
        → IsOpenAt setting (standing_of setting.limit session.old) (D.time disk.old) (D.contents disk.old) (D.left_since disk.old) (H.held host.old) (H.faults host.old) before state from → setting.given ≡ first_rules
        → OnErr result (WorkStopped setting (D.left_since disk.old) (D.left_since disk.new) before from (DoesLine setting before state (line.Import name.now key))
        (IsMoment (D.time disk.new) (D.contents disk.new) (H.held host.new) (H.faults host.new)) None had had) }
    ensures cause { IfErr result (LineFails session.old (D.faults disk.old) (D.faults disk.new)) }
    ensures later { D.time disk.old ≤ D.time disk.new }
    ensures faults { (D.faults disk.old ≤ D.faults disk.new) × (H.faults host.old ≤ H.faults host.new) }
    ensures set { KeepsSettings session.old session.new }
    ensures files { KeepsFiles session.old session.new }
{
    let taken = match take_headers(alloc, session, disk, host, name, key, out) {
        Ok(Some(taken)) => taken,
        Ok(None) => return Ok(()),
        Err(fault) => return Err(fault),
    };
    match offer_file(alloc, session, disk, host, name, key, out) {
        Ok(end) => say_end(out, taken, end, session.info()),
        Err(fault) => Err(fault),
    }
}

// Says how many frames, new headers and new bodies there were, and the tip; or why the file can't be read on.
fn say_end(
    out: &mut Vec<u8>,
    taken: TakenHeaders,
    end: PassEnd,
    info: Info,
) -> Result<(), StoreFault>
    ensures ok { OnOk result (SaysEnd info taken end out.old.items out.new.items) }
    ensures err { IfErr result (λ fault. fault ≡ NoMemory) }
{
    match end {
        PassEnd::Whole { bodies } => say(
            out,
            &Reply::Import {
                frames: taken.frames,
                headers: taken.added,
                bodies,
                height: u64::from(info.height),
                tip: info.tip,
            },
        ),
        PassEnd::Broken(fault) => say_fault(out, fault),
    }
}
