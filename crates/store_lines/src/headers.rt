//! The line `headers`.

ghost use Rattle.std.specs.Prelude.{◌≡◌, ◌≤◌, ℕ, List, None, IfErr, OnOk, OnErr};
ghost use Rattle.base_types.specs.declared.flushes.Flushed.{Flushed};
ghost use Rattle.chainstates.specs.Standing.{KeepsFiles, KeepsSettings};
ghost use Rattle.command_loop.specs.Points.{IsOpenAt};
ghost use Rattle.command_loop.specs.ServerCalls.{WorkServed, WorkStopped};
ghost use Rattle.command_text.specs.declared.line.Line.TheVariants as line;
ghost use Rattle.machine.specs.State.{Setting, State};
ghost use Rattle.machine.specs.Work.{IsMoment, Moment};
ghost use Rattle.store_lines.specs.Serving.{DoesLine, LineFails, standing_of};
ghost use Rattle.store_state.specs.State.{StoreState, first_rules};

use crate::saying::say;
use crate::taking::take_headers;
use base_types::StoreFault;
use chainstates::Session;
use command_text::Reply;
use disk_model::Disk;
use io_traits::Host;
use std::alloc::Global;

/// Adds the headers of a block file to the tree and stores them, and says how many there were and are.
pub fn headers_line<D: Disk, H: Host>(
    alloc: Global,
    session: &mut Session,
    disk: &mut D,
    host: &mut H,
    name: &str,
    key: Option<[u8; 8]>,
    out: &mut Vec<u8>,
) -> Result<(), StoreFault>
    ensures ok { (setting : Setting) (before : Moment) (state : State) (from : StoreState) (had : List Flushed)
        → IsOpenAt setting (standing_of setting.limit session.old) (D.time disk.old) (D.contents disk.old) (D.left_since disk.old) (H.held host.old) (H.faults host.old) before state from → setting.given ≡ first_rules
        → OnOk result (WorkServed setting (D.left_since disk.old) (D.left_since disk.new) before from (DoesLine setting before state (line.Headers name.now key))
        (IsOpenAt setting (standing_of setting.limit session.new) (D.time disk.new) (D.contents disk.new) (D.left_since disk.new) (H.held host.new) (H.faults host.new)) had had out.old.items out.new.items) }
    ensures err { (setting : Setting) (before : Moment) (state : State) (from : StoreState) (had : List Flushed)
        → IsOpenAt setting (standing_of setting.limit session.old) (D.time disk.old) (D.contents disk.old) (D.left_since disk.old) (H.held host.old) (H.faults host.old) before state from → setting.given ≡ first_rules
        → OnErr result (WorkStopped setting (D.left_since disk.old) (D.left_since disk.new) before from (DoesLine setting before state (line.Headers name.now key))
        (IsMoment (D.time disk.new) (D.contents disk.new) (H.held host.new) (H.faults host.new)) None had had) }
    ensures cause { IfErr result (LineFails session.old (D.faults disk.old) (D.faults disk.new)) }
    ensures later { D.time disk.old ≤ D.time disk.new }
    ensures faults { (D.faults disk.old ≤ D.faults disk.new) × (H.faults host.old ≤ H.faults host.new) }
    ensures set { KeepsSettings session.old session.new }
    ensures files { KeepsFiles session.old session.new }
{
    match take_headers(alloc, session, disk, host, name, key, out) {
        Ok(Some(taken)) => say(
            out,
            &Reply::Headers {
                frames: taken.frames,
                added: taken.added,
                tree: u64::from(session.info().headers),
            },
        ),
        Ok(None) => Ok(()),
        Err(fault) => Err(fault),
    }
}
