//! Flushes are told once their lines were written.

ghost use Rattle.std.specs.Prelude.{◌≡◌, ◌<◌, ◌++◌, length, map, take, drop};
ghost use Rattle.base_types.specs.Flushes.{ChangesMember};
ghost use Rattle.machine.specs.Answers.{has_line as has_line_of};
ghost use Rattle.command_loop.specs.Telling.{told_now};

use base_types::{Flushes, Why};

/// Marks the flushes from this place on as told that are done and have a line.
pub(crate) fn tell(flushes: &mut Flushes, from: usize)
    ensures { flushes.new ≡ take from flushes.old ++ map told_now (drop from flushes.old) }
{
    for place in from..flushes.as_slice().len() {
        tell_one(flushes, place);
    }
}

// Marks the flush at this place as told, if it is done and has a line.
fn tell_one(flushes: &mut Flushes, place: usize)
    requires { place < length flushes.old }
    ensures { ChangesMember place told_now flushes.old flushes.new }
{
    let member = flushes.as_slice()[place];
    if member.done.is_some() && has_line(member.why) {
        flushes.tell(place);
    }
}

// The flushes of a line, and of the end of the input, have a line.
fn has_line(why: Why) -> bool
    ensures { result ≡ has_line_of why }
{
    matches!(why, Why::Command | Why::End)
}
