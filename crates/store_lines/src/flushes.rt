//! The line `flush`, and the flush at the end of the input.

ghost use Rattle.std.specs.Prelude.{◌≡◌, ◌≤◌, ℕ, true, Option, None, IfErr, OnOk, OnErr};
ghost use Rattle.chainstates.specs.Standing.{KeepsFiles, KeepsSettings};
ghost use Rattle.command_loop.specs.Points.{IsOpenAt};
ghost use Rattle.command_loop.specs.ServerCalls.{WorkServed, WorkStopped};
ghost use Rattle.io_traits.specs.Host.{Held};
ghost use Rattle.machine.specs.Answers.{has_line};
ghost use Rattle.machine.specs.State.{Setting, State};
ghost use Rattle.machine.specs.Work.{AddsFlushes, IsMoment, Moment};
ghost use Rattle.store_lines.specs.Serving.{DoesFlush, LineFails, standing_of};
ghost use Rattle.store_state.specs.State.{StoreState, first_rules};

use crate::saying::say;
use base_types::{Chain, Flushes, StoreFault, Why};
use chainstates::Session;
use command_text::Reply;
use disk_model::Disk;
use std::alloc::Global;

/// Flushes the store, and says so. Only a flush of a line and that of the end of the input are to be told.
pub fn flush_line<D: Disk>(
    alloc: Global,
    session: &mut Session,
    disk: &mut D,
    why: Why,
    flushes: &mut Flushes,
    out: &mut Vec<u8>,
) -> Result<(), StoreFault>
    ensures ok { (setting : Setting) (before : Moment) (state : State) (from : StoreState) (held : Option Held) (faults : ℕ)
        → IsOpenAt setting (standing_of setting.limit session.old) (D.time disk.old) (D.contents disk.old) (D.left_since disk.old) held faults before state from → setting.given ≡ first_rules → has_line why ≡ true
        → OnOk result (WorkServed setting (D.left_since disk.old) (D.left_since disk.new) before from (DoesFlush why before state)
        (IsOpenAt setting (standing_of setting.limit session.new) (D.time disk.new) (D.contents disk.new) (D.left_since disk.new) held faults) flushes.old flushes.new out.old.items out.new.items) }
    ensures err { (setting : Setting) (before : Moment) (state : State) (from : StoreState) (held : Option Held) (faults : ℕ)
        → IsOpenAt setting (standing_of setting.limit session.old) (D.time disk.old) (D.contents disk.old) (D.left_since disk.old) held faults before state from → setting.given ≡ first_rules
        → OnErr result (WorkStopped setting (D.left_since disk.old) (D.left_since disk.new) before from (DoesFlush why before state)
        (IsMoment (D.time disk.new) (D.contents disk.new) held faults) None flushes.old flushes.new) }
    ensures cause { IfErr result (LineFails session.old (D.faults disk.old) (D.faults disk.new)) }
    ensures timed { AddsFlushes (D.time disk.old) (D.time disk.new) flushes.old flushes.new }
    ensures faults { D.faults disk.old ≤ D.faults disk.new }
    ensures set { KeepsSettings session.old session.new }
    ensures files { KeepsFiles session.old session.new }
{
    if let Err(fault) = session.flush(alloc, disk, why, flushes) {
        return Err(fault);
    }
    let info = session.info();
    say(
        out,
        &Reply::Flushed {
            chain: Chain::Full,
            height: u64::from(info.height),
            tip: info.tip,
        },
    )
}
