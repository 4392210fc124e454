//! The whole program over an outside that is handed in.

ghost use Rattle.std.specs.Prelude.{◌≡◌, ◌≢◌, ◌<◌, ◌≤◌, ◌↔◌, [], ℕ, List, length, Some, IfSome};
ghost use Rattle.std.specs.Io.KnownBytes.{IsAtEnd};
ghost use Rattle.base_types.specs.declared.program.Status.TheVariants as status;
ghost use Rattle.command_loop.specs.Seen.{IsOfRun, IsSeen, IsUnopened};
ghost use Rattle.command_loop.specs.ServerCalls.{setting_of, IsCaused, IsDamage};
ghost use Rattle.disk_model.specs.Disk.{Told};
ghost use Rattle.io_traits.specs.Causes.{Rose};
ghost use Rattle.machine.specs.Clauses.{IsRun};
ghost use Rattle.machine.specs.Runs.{Run};
ghost use Rattle.machine.specs.declared.report.Opened.TheVariants.{Not};
ghost use Rattle.store_state.specs.State.{first_rules};
ghost use Rattle.coins_top.specs.Run.{AreLimits, settings_of};
ghost use Rattle.coins_top.specs.ServerState.{store_causes};

use crate::server::StoreServer;
use base_types::{Limits, Rules, Salt, Words};
use command_loop::{RunSettings, run_with};
use disk_model::Disk;
use io_traits::{Host, Sink, Source};
use machine::Report;
use std::alloc::Global;

/// The rules hold from the first block on, as on Bitcoin Core's regtest.
const RULES: Rules = Rules {
    version4: 1,
    bip34: 1,
    csv: 1,
    segwit: 1,
};

/// How many entries of the cache make a flush due.
const CACHE: u32 = 100_000;

/// Opens the store on the disk, answers the lines of the input as they come, and the end of the input with a last flush. The
/// words of the command line are none. A status other than `Done` ends the run at once, without a flush. No answer depends on
/// the salt.
///
/// The clause `clauses` is what `opens_with_acknowledged_coins` of the crate `machine` asks of each run of a list: so after any
/// list of runs, each finished or cut by a crash at any moment, the next one opens with the coins of replaying the blocks to
/// the tip of its last acknowledged flush or of a later one, and what it answers follows from them.
pub fn run<D: Disk, H: Host, I: Source, O: Sink>(
    alloc: Global,
    words: &Words,
    disk: &mut D,
    host: &mut H,
    input: &mut I,
    out: &mut O,
    salt: &Salt,
    limits: &Limits,
) -> Report
    requires { AreLimits limits.now }

    // Each status has its cause; want of memory alone is free.
    ensures statuses { IsOfRun result.status }
    ensures usage { (result.status ≡ status.Usage) ↔ (words.now ≢ []) }
    ensures disk_fault { result.status ≡ status.DiskFault → Rose (D.faults disk.old) (D.faults disk.new) }
    ensures in_fault { result.status ≡ status.InFault → Rose (I.faults input.old) (I.faults input.new) }
    ensures out_fault { result.status ≡ status.OutFault → Rose (O.faults out.old) (O.faults out.new) }
    ensures before { result.opened ≡ Not → IsUnopened result.status }
    ensures damaged { result.opened ≡ Not → Told (D.contents disk.old) (IsDamage limits.now.headers first_rules result.status) }
    ensures caused { Told (D.contents disk.new) (IsCaused (store_causes (settings_of limits.now salt.now)) result.status) }
    ensures too_long { result.status ≡ status.TooLong → IfSome (I.left input.old) (λ bytes. 16777216 < length bytes) }
    ensures taken { result.status ≡ status.Done → IfSome (I.left input.old) (λ bytes. length bytes ≤ 16777216) }
    ensures ended { result.status ≡ status.Done → IsAtEnd (I.left input.new) }

    // The counts of the streams' faults stay but for a fault that is told, and none falls.
    ensures steady_in { result.status ≢ status.InFault → I.faults input.new ≡ I.faults input.old }
    ensures steady_out { result.status ≢ status.OutFault → O.faults out.new ≡ O.faults out.old }
    ensures later { (D.faults disk.old ≤ D.faults disk.new) × (H.faults host.old ≤ H.faults host.new) × (I.faults input.old ≤ I.faults input.new) × (O.faults out.old ≤ O.faults out.new) }

    // With other words nothing is done at all, and without an opened store nothing but on the disk.
    ensures idle { result.status ≡ status.Usage → disk.new ≡ disk.old }
    ensures unopened { result.opened ≡ Not → (host.new ≡ host.old) × (input.new ≡ input.old) × (out.new ≡ out.old) × (result.flushes ≡ []) }

    // What a crash leaves at any moment, what opening found, and what was answered.
    ensures clauses { (run : Run)
        → IsSeen (setting_of (settings_of limits.now salt.now)) (record { time = D.time disk.old; contents = D.contents disk.old; input = I.left input.old; written = O.written out.old; held = H.held host.old; faults = H.faults host.old })
        (record { time = D.time disk.new; contents = D.contents disk.new; input = I.left input.new; written = O.written out.new; held = H.held host.new; faults = H.faults host.new }) result run
        → IsRun limits.now.headers first_rules (D.left_since disk.old (D.time disk.old)) (D.left_since disk.new) run }
{
    let settings = RunSettings {
        limits: *limits,
        rules: RULES,
        cache: CACHE,
        salt: *salt,
    };
    run_with::<StoreServer, D, H, I, O>(alloc, words, &settings, disk, host, input, out)
}
