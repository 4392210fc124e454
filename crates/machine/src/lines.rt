//! What holds of every line, and of every course.

ghost use Rattle.std.specs.Prelude.{◌≡◌, ℕ, List, Result, Some};
ghost use Rattle.std.specs.Bool.{Decides};
ghost use Rattle.std.specs.FinMap.{get};
ghost use Rattle.base_types.specs.declared.hash.Hash32.{Hash32};
ghost use Rattle.block_codec.specs.declared.block.Header.{Header};
ghost use Rattle.command_text.specs.declared.line.Line.{Line};
ghost use Rattle.command_text.specs.declared.line.LineRefused.{LineRefused};
ghost use Rattle.store_state.specs.State.{StoreState};
ghost use Rattle.machine.specs.Courses.{Course, whole, events_of};
ghost use Rattle.machine.specs.Kept.{HasKept, kept_in};
ghost use Rattle.machine.specs.State.{Setting, State, begins};
ghost use Rattle.machine.specs.Steps.{Now, at_end, is_known};
ghost use Rattle.machine.specs.Tips.{stored_after};
ghost use Rattle.machine.specs.Ways.{HasWay};

/// Each line can be done from anywhere, without a fault of the host.
pub fn lines_have_ways()
    ensures { (setting : Setting) (now : Now) (parsed : Result Line LineRefused) → HasWay setting now parsed }
{}

/// The events say all that the machine keeps. It begins with what a store has; and after all lines and the last flush it keeps
/// what the events leave of that. A body's header is known exactly where it is the tree's under its hash.
pub fn events_say_all()
    ensures begins { (store : StoreState) → HasKept store (begins store) }
    ensures kept { (setting : Setting) (from : Now) (bytes : List ℕ) (course : Course setting from bytes)
        → kept_in (at_end course.last).now.state ≡ stored_after (events_of (whole course)) (kept_in from.state) }
    ensures known { (state : State) (hash : Hash32) (header : Header) → Decides (is_known state hash header) (get state.tree.headers hash ≡ Some header) }
{}
