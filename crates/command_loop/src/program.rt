//! A whole run over a disk, a host and streams that are handed in.

ghost use Rattle.std.specs.Prelude.{◌≡◌, ◌≢◌, ◌<◌, ◌≤◌, ◌↔◌, [], ℕ, List, length, vec_len, false, Some, Err, IfOk, IfSome};
ghost use Rattle.std.specs.Io.KnownBytes.{IsAtEnd};
ghost use Rattle.base_types.specs.declared.fault.StoreFault.TheVariants as fault;
ghost use Rattle.base_types.specs.declared.program.Status.TheVariants as status;
ghost use Rattle.command_text.specs.Lines.{line_of};
ghost use Rattle.disk_model.specs.Disk.{Told};
ghost use Rattle.io_traits.specs.Causes.{Rose};
ghost use Rattle.machine.specs.Answers.{comes_before};
ghost use Rattle.machine.specs.Clauses.{IsRun};
ghost use Rattle.machine.specs.Runs.{Run};
ghost use Rattle.machine.specs.Work.{AddsFlushes};
ghost use Rattle.machine.specs.declared.report.Opened.TheVariants.{Not};
ghost use Rattle.command_loop.specs.declared.stop.Stop.TheVariants.{OnStore, OutFault};
ghost use Rattle.command_loop.specs.Ending.{AnswersInput};
ghost use Rattle.command_loop.specs.Points.{Point, IsOuter, At};
ghost use Rattle.command_loop.specs.Seen.{IsSeen, IsOfRun, IsUnopened, status_of_end};
ghost use Rattle.command_loop.specs.ServerCalls.{setting_of, AreInRange, IsCaused, IsDamage, status_of_fault};
ghost use Rattle.command_loop.specs.Service.{AnswersLast};

use crate::answering::{answer, answer_end, answer_lines};
use crate::pending::PendingLine;
use crate::server::Server;
use crate::settings::RunSettings;
use crate::stop::Stop;
use base_types::{Flushes, Status, StoreFault, Words};
use disk_model::Disk;
use io_traits::{Host, Sink, Source};
use machine::{Opened, Report};
use std::alloc::{AllocError, Global};

/// The greatest number of bytes of commands.
const MAX_INPUT: usize = 16_777_216;

/// How many bytes are read at once.
const PIECE: usize = 65_536;

/// Opens the store, answers the lines of the input as they come, and the end of the input with a last flush. A status other
/// than `Done` ends the run at once. The words of the command line are none.
pub fn run_with<S: Server, D: Disk, H: Host, I: Source, O: Sink>(
    alloc: Global,
    words: &Words,
    settings: &RunSettings,
    disk: &mut D,
    host: &mut H,
    input: &mut I,
    out: &mut O,
) -> Report
    requires { AreInRange settings.now }

    // Each status has its cause; want of memory alone is free.
    ensures statuses { IsOfRun result.status }
    ensures usage { (result.status ≡ status.Usage) ↔ (words.now ≢ []) }
    ensures disk_fault { result.status ≡ status.DiskFault → Rose (D.faults disk.old) (D.faults disk.new) }
    ensures in_fault { result.status ≡ status.InFault → Rose (I.faults input.old) (I.faults input.new) }
    ensures out_fault { result.status ≡ status.OutFault → Rose (O.faults out.old) (O.faults out.new) }
    ensures before { result.opened ≡ Not → IsUnopened result.status }
    ensures damaged { result.opened ≡ Not → Told (D.contents disk.old) (IsDamage settings.now.limits.headers settings.now.rules result.status) }
    ensures caused { Told (D.contents disk.new) (IsCaused (S.causes settings.now) result.status) }
    ensures too_long { result.status ≡ status.TooLong → IfSome (I.left input.old) (λ bytes. 16777216 < length bytes) }
    ensures taken { result.status ≡ status.Done → IfSome (I.left input.old) (λ bytes. length bytes ≤ 16777216) }
    ensures ended { result.status ≡ status.Done → IsAtEnd (I.left input.new) }

    // The counts of the streams' faults stay but for a fault that is told, and none falls.
    ensures steady_in { result.status ≢ status.InFault → I.faults input.new ≡ I.faults input.old }
    ensures steady_out { result.status ≢ status.OutFault → O.faults out.new ≡ O.faults out.old }
    ensures later { (D.faults disk.old ≤ D.faults disk.new) × (H.faults host.old ≤ H.faults host.new) × (I.faults input.old ≤ I.faults input.new) × (O.faults out.old ≤ O.faults out.new) }

    // With other words nothing is done at all, and without an opened store nothing but on the disk.
    ensures idle { result.status ≡ status.Usage → disk.new ≡ disk.old }
    ensures unopened { result.opened ≡ Not → (host.new ≡ host.old) × (input.new ≡ input.old) × (out.new ≡ out.old) × (result.flushes ≡ []) }

    // What a crash leaves at any moment, what opening found, and what was answered.
    ensures clauses { (run : Run)
        → IsSeen (setting_of settings.now) (record { time = D.time disk.old; contents = D.contents disk.old; input = I.left input.old; written = O.written out.old; held = H.held host.old; faults = H.faults host.old })
        (record { time = D.time disk.new; contents = D.contents disk.new; input = I.left input.new; written = O.written out.new; held = H.held host.new; faults = H.faults host.new }) result run
        → IsRun settings.now.limits.headers settings.now.rules (D.left_since disk.old (D.time disk.old)) (D.left_since disk.new) run }
{
    let flushes = Flushes::new(alloc);
    if !words.is_empty() {
        return Report {
            status: Status::Usage,
            flushes,
            opened: Opened::Not,
        };
    }
    match S::open(alloc, settings, disk) {
        Ok((server, found)) => {
            let mut server = server;
            let mut flushes = flushes;
            let at = disk.clock();
            let status = answer_input(alloc, &mut server, disk, host, input, out, &mut flushes);
            Report {
                status,
                flushes,
                opened: Opened::Yes {
                    at,
                    full: found.full,
                    snapshot: found.snapshot,
                },
            }
        }
        Err(fault) => Report {
            status: status_of_store(fault),
            flushes,
            opened: Opened::Not,
        },
    }
}

// Reads the input to its end, answers its lines, and then the end.
fn answer_input<S: Server, D: Disk, H: Host, I: Source, O: Sink>(
    alloc: Global,
    server: &mut S,
    disk: &mut D,
    host: &mut H,
    input: &mut I,
    out: &mut O,
    flushes: &mut Flushes,
) -> Status
    ensures kinds { comes_before result ≡ false }
    ensures disk_fault { result ≡ status.DiskFault → Rose (D.faults disk.old) (D.faults disk.new) }
    ensures in_fault { result ≡ status.InFault → Rose (I.faults input.old) (I.faults input.new) }
    ensures out_fault { result ≡ status.OutFault → Rose (O.faults out.old) (O.faults out.new) }
    ensures caused { Told (D.contents disk.new) (IsCaused (S.causes (S.set_to server.old)) result) }
    ensures too_long { result ≡ status.TooLong → IfSome (I.left input.old) (λ bytes. 16777216 < length bytes) }
    ensures taken { result ≡ status.Done → IfSome (I.left input.old) (λ bytes. length bytes ≤ 16777216) }
    ensures ended { result ≡ status.Done → IsAtEnd (I.left input.new) }
    ensures timed { AddsFlushes (D.time disk.old) (D.time disk.new) flushes.old flushes.new }
    ensures steady_in { result ≢ status.InFault → I.faults input.new ≡ I.faults input.old }
    ensures steady_out { result ≢ status.OutFault → O.faults out.new ≡ O.faults out.old }
    ensures later { (D.faults disk.old ≤ D.faults disk.new) × (H.faults host.old ≤ H.faults host.new) × (I.faults input.old ≤ I.faults input.new) × (O.faults out.old ≤ O.faults out.new) }
    ensures served { (p : Point) (bytes : List ℕ) → I.left input.old ≡ Some bytes
        → At (setting_of (S.set_to server.old)) (S.stands server.old) (D.time disk.old) (D.contents disk.old) (D.left_since disk.old) (H.held host.old) (H.faults host.old) (O.written out.old) flushes.old p
        → AnswersInput (setting_of (S.set_to server.old)) (D.left_since disk.old) (D.left_since disk.new) result bytes (I.left input.new) p
        (IsOuter (D.time disk.new) (D.contents disk.new) (H.held host.new) (H.faults host.new) (O.written out.new) flushes.new) }
{
    let Ok(mut room) = room_for_piece(alloc) else {
        return Status::NoMemory;
    };
    let mut line = PendingLine::new(alloc);
    let mut taken = 0;
    'reading: loop {
        // One byte past the most shows that there are too many.
        let piece = &mut room[..(MAX_INPUT - taken).clamp(1, PIECE)];
        let Ok(count) = input.read(piece) else {
            return Status::InFault;
        };
        if count == 0 {
            return status_of(answer_last(alloc, server, disk, host, out, flushes, line.text()));
        }
        if taken == MAX_INPUT {
            return Status::TooLong;
        }
        taken += count;
        let bytes = &piece[..count];
        if let Err(stop) = answer_lines(server, disk, host, out, flushes, &mut line, bytes) {
            return status_of(Err(stop));
        }
    }
}

// Answers the last line, and then the end of the input.
fn answer_last<S: Server, D: Disk, H: Host, O: Sink>(
    alloc: Global,
    server: &mut S,
    disk: &mut D,
    host: &mut H,
    out: &mut O,
    flushes: &mut Flushes,
    text: &[u8],
) -> Result<(), Stop>
    ensures out_fault { result ≡ Err OutFault → Rose (O.faults out.old) (O.faults out.new) }
    ensures disk_fault { result ≡ Err (OnStore fault.DiskFailed) → Rose (D.faults disk.old) (D.faults disk.new) }
    ensures caused { Told (D.contents disk.new) (IsCaused (S.causes (S.set_to server.old)) (status_of_end result)) }
    ensures timed { AddsFlushes (D.time disk.old) (D.time disk.new) flushes.old flushes.new }
    ensures steady { result ≢ Err OutFault → O.faults out.new ≡ O.faults out.old }
    ensures later { (D.faults disk.old ≤ D.faults disk.new) × (H.faults host.old ≤ H.faults host.new) × (O.faults out.old ≤ O.faults out.new) }
    ensures served { (p : Point) → At (setting_of (S.set_to server.old)) (S.stands server.old) (D.time disk.old) (D.contents disk.old) (D.left_since disk.old) (H.held host.old) (H.faults host.old) (O.written out.old) flushes.old p
        → AnswersLast (setting_of (S.set_to server.old)) (D.left_since disk.old) (D.left_since disk.new) (line_of text.now) p
        (IsOuter (D.time disk.new) (D.contents disk.new) (H.held host.new) (H.faults host.new) (O.written out.new) flushes.new) result }
{
    answer(alloc, server, disk, host, out, flushes, text)?;
    answer_end(alloc, server, disk, out, flushes)
}

fn room_for_piece(alloc: Global) -> Result<Vec<u8>, AllocError>
    ensures { IfOk result (λ room. vec_len room ≡ 65536) }
{
    vec![in alloc; 0; PIECE]
}

// The status of a run that ended so.
fn status_of(ended: Result<(), Stop>) -> Status
    ensures { result ≡ status_of_end ended }
{
    match ended {
        Ok(()) => Status::Done,
        Err(Stop::OnStore(fault)) => status_of_store(fault),
        Err(Stop::OutFault) => Status::OutFault,
    }
}

fn status_of_store(fault: StoreFault) -> Status
    ensures { result ≡ status_of_fault fault }
{
    match fault {
        StoreFault::NoMemory => Status::NoMemory,
        StoreFault::DiskFailed => Status::DiskFault,
        StoreFault::Damaged { file, at } => Status::Damaged { file, at },
        StoreFault::Full { file } => Status::Full { file },
        StoreFault::CacheFull => Status::CacheFull,
    }
}
