//! Lines and their replies.

ghost use Rattle.std.specs.Prelude.{◌≡◌, ◌≢◌, ◌<◌, ◌≤◌, ℕ, ◌∷◌, [], ◌++◌, ◌==◌, length, map, take, drop, position, is_some, Some, Err, OnOk, OnErr, IfErr, MatchOption};
ghost use Rattle.std.specs.Io.KnownBytes.{Appends};
ghost use Rattle.base_types.specs.declared.fault.StoreFault.TheVariants as fault;
ghost use Rattle.disk_model.specs.Disk.{Told};
ghost use Rattle.io_traits.specs.Causes.{Rose};
ghost use Rattle.io_traits.specs.Host.{Held};
ghost use Rattle.io_traits.specs.Streams.{AppendsPart};
ghost use Rattle.command_text.specs.Lines.{line_of, pieces_between};
ghost use Rattle.machine.specs.Work.{AddsFlushes};
ghost use Rattle.command_loop.specs.declared.stop.Stop.TheVariants.{OnStore, OutFault};
ghost use Rattle.command_loop.specs.Asks.{ended_asks, kept_of, last_of, pieces_behind};
ghost use Rattle.command_loop.specs.Points.{Point, IsOuter, At};
ghost use Rattle.command_loop.specs.Seen.{status_of_end};
ghost use Rattle.command_loop.specs.ServerCalls.{setting_of, IsCaused};
ghost use Rattle.command_loop.specs.Service.{Answers, AnswersEnd};
ghost use Rattle.command_loop.specs.Telling.{told_now};

use crate::pending::PendingLine;
use crate::server::Server;
use crate::stop::Stop;
use crate::telling::tell;
use base_types::Flushes;
use disk_model::Disk;
use io_traits::{Host, Sink};
use std::alloc::Global;

/// Answers a line, its replies in one write. Its flushes are told once that is done.
pub(crate) fn answer<S: Server, D: Disk, H: Host, O: Sink>(
    alloc: Global,
    server: &mut S,
    disk: &mut D,
    host: &mut H,
    out: &mut O,
    flushes: &mut Flushes,
    text: &[u8],
) -> Result<(), Stop>
    ensures out_fault { result ≡ Err OutFault → Rose (O.faults out.old) (O.faults out.new) }
    ensures disk_fault { result ≡ Err (OnStore fault.DiskFailed) → Rose (D.faults disk.old) (D.faults disk.new) }
    ensures caused { Told (D.contents disk.new) (IsCaused (S.causes (S.set_to server.old)) (status_of_end result)) }
    ensures steady { result ≢ Err OutFault → O.faults out.new ≡ O.faults out.old }
    ensures timed { AddsFlushes (D.time disk.old) (D.time disk.new) flushes.old flushes.new }
    ensures later { (D.faults disk.old ≤ D.faults disk.new) × (H.faults host.old ≤ H.faults host.new) × (O.faults out.old ≤ O.faults out.new) }
    ensures set { S.set_to server.new ≡ S.set_to server.old }
    ensures served { (p : Point) → At (setting_of (S.set_to server.old)) (S.stands server.old) (D.time disk.old) (D.contents disk.old) (D.left_since disk.old) (H.held host.old) (H.faults host.old) (O.written out.old) flushes.old p
        → Answers (setting_of (S.set_to server.old)) (D.left_since disk.old) (D.left_since disk.new) (line_of text.now ∷ []) p
        (At (setting_of (S.set_to server.old)) (S.stands server.new) (D.time disk.new) (D.contents disk.new) (D.left_since disk.new) (H.held host.new) (H.faults host.new) (O.written out.new) flushes.new)
        (IsOuter (D.time disk.new) (D.contents disk.new) (H.held host.new) (H.faults host.new) (O.written out.new) flushes.new) result }
{
    let from = flushes.as_slice().len();
    let mut lines = Vec::new(alloc);
    server.serve(alloc, disk, host, flushes, text, &mut lines)?;
    write_lines(out, flushes, from, &lines)
}

// Writes the lines of replies, and then marks the flushes from a place on as told.
fn write_lines<O: Sink>(
    out: &mut O,
    flushes: &mut Flushes,
    from: usize,
    lines: &[u8],
) -> Result<(), Stop>
    ensures ok { OnOk result ((flushes.new ≡ take from flushes.old ++ map told_now (drop from flushes.old)) × Appends (O.written out.old) (O.written out.new) lines.now) }
    ensures err { OnErr result ((flushes.new ≡ flushes.old) × AppendsPart (O.written out.old) (O.written out.new) lines.now) }
    ensures only { IfErr result (λ stop. stop ≡ OutFault) }
    ensures cause { OnErr result (Rose (O.faults out.old) (O.faults out.new)) }
    ensures steady { OnOk result (O.faults out.new ≡ O.faults out.old) }
    ensures later { O.faults out.old ≤ O.faults out.new }
    ensures telling { is_some (O.written out.new) ≡ is_some (O.written out.old) }
{
    match out.write(lines) {
        Ok(()) => {
            tell(flushes, from);
            Ok(())
        }
        Err(_) => Err(Stop::OutFault),
    }
}

/// Answers the end of the input.
pub(crate) fn answer_end<S: Server, D: Disk, O: Sink>(
    alloc: Global,
    server: &mut S,
    disk: &mut D,
    out: &mut O,
    flushes: &mut Flushes,
) -> Result<(), Stop>
    ensures out_fault { result ≡ Err OutFault → Rose (O.faults out.old) (O.faults out.new) }
    ensures disk_fault { result ≡ Err (OnStore fault.DiskFailed) → Rose (D.faults disk.old) (D.faults disk.new) }
    ensures caused { Told (D.contents disk.new) (IsCaused (S.causes (S.set_to server.old)) (status_of_end result)) }
    ensures steady { result ≢ Err OutFault → O.faults out.new ≡ O.faults out.old }
    ensures timed { AddsFlushes (D.time disk.old) (D.time disk.new) flushes.old flushes.new }
    ensures later { (D.faults disk.old ≤ D.faults disk.new) × (O.faults out.old ≤ O.faults out.new) }
    ensures served { (p : Point) (held : Held) (faults : ℕ) → At (setting_of (S.set_to server.old)) (S.stands server.old) (D.time disk.old) (D.contents disk.old) (D.left_since disk.old) (Some held) faults (O.written out.old) flushes.old p
        → AnswersEnd (setting_of (S.set_to server.old)) (D.left_since disk.old) (D.left_since disk.new) p
        (IsOuter (D.time disk.new) (D.contents disk.new) (Some held) faults (O.written out.new) flushes.new) result }
{
    let from = flushes.as_slice().len();
    let mut lines = Vec::new(alloc);
    server.finish(alloc, disk, flushes, &mut lines)?;
    write_lines(out, flushes, from, &lines)
}

/// Answers the lines that end in these bytes, and keeps what stands behind them.
pub(crate) fn answer_lines<S: Server, D: Disk, H: Host, O: Sink>(
    server: &mut S,
    disk: &mut D,
    host: &mut H,
    out: &mut O,
    flushes: &mut Flushes,
    line: &mut PendingLine,
    bytes: &[u8],
) -> Result<(), Stop>
    ensures out_fault { result ≡ Err OutFault → Rose (O.faults out.old) (O.faults out.new) }
    ensures disk_fault { result ≡ Err (OnStore fault.DiskFailed) → Rose (D.faults disk.old) (D.faults disk.new) }
    ensures caused { Told (D.contents disk.new) (IsCaused (S.causes (S.set_to server.old)) (status_of_end result)) }
    ensures steady { result ≢ Err OutFault → O.faults out.new ≡ O.faults out.old }
    ensures timed { AddsFlushes (D.time disk.old) (D.time disk.new) flushes.old flushes.new }
    ensures later { (D.faults disk.old ≤ D.faults disk.new) × (H.faults host.old ≤ H.faults host.new) × (O.faults out.old ≤ O.faults out.new) }
    ensures set { S.set_to server.new ≡ S.set_to server.old }
    ensures served { (p : Point) → At (setting_of (S.set_to server.old)) (S.stands server.old) (D.time disk.old) (D.contents disk.old) (D.left_since disk.old) (H.held host.old) (H.faults host.old) (O.written out.old) flushes.old p
        → Answers (setting_of (S.set_to server.old)) (D.left_since disk.old) (D.left_since disk.new) (ended_asks line.old bytes.now) p
        (At (setting_of (S.set_to server.old)) (S.stands server.new) (D.time disk.new) (D.contents disk.new) (D.left_since disk.new) (H.held host.new) (H.faults host.new) (O.written out.new) flushes.new)
        (IsOuter (D.time disk.new) (D.contents disk.new) (H.held host.new) (H.faults host.new) (O.written out.new) flushes.new) result }
    ensures kept { OnOk result (line.new ≡ kept_of (last_of (pieces_behind line.old bytes.now))) }
{
    let mut rest = bytes;
    while let Some((front, behind)) = cut(rest) {
        line.push(front)?;
        let alloc = line.allocator();
        answer(alloc, server, disk, host, out, flushes, line.text())?;
        line.clear();
        rest = behind;
    }
    line.push(rest)?;
    Ok(())
}

// The bytes before the first line feed, and those behind it.
fn cut(bytes: &[u8]) -> Option<(&[u8], &[u8])>
    ensures { MatchOption result (pieces_between 10 bytes.now ≡ bytes.now ∷ [])
        (λ parts. (pieces_between 10 bytes.now ≡ parts.0.now ∷ pieces_between 10 parts.1.now) × (length parts.1.now < length bytes.now)) }
{
    match line_feed(bytes) {
        Some(at) => Some((&bytes[..at], &bytes[at + 1..])),
        None => None,
    }
}

// Where the first line feed stands.
fn line_feed(bytes: &[u8]) -> Option<usize>
    ensures { result ≡ position (λ byte. byte == 10) bytes.now }
{
    bytes.iter().position(|byte| *byte == b'\n')
}
