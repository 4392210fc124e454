//! What the loop over lines asks of a store.

ghost use Rattle.std.specs.Prelude.{◌≡◌, ◌≤◌, ℕ, List, Option, Some, None, IfOk, IfErr, OnOk, OnErr};
ghost use Rattle.base_types.specs.declared.fault.StoreFault.{StoreFault as FaultOfStore};
ghost use Rattle.base_types.specs.declared.fault.StoreFault.TheVariants.{DiskFailed};
ghost use Rattle.disk_model.specs.Disk.{Told};
ghost use Rattle.io_traits.specs.Causes.{Rose};
ghost use Rattle.io_traits.specs.Host.{Held};
ghost use Rattle.command_text.specs.Lines.{line_of};
ghost use Rattle.store_state.specs.State.{StoreState};
ghost use Rattle.machine.specs.Answers.{file_begun};
ghost use Rattle.machine.specs.Calls.{FailsToOpen};
ghost use Rattle.machine.specs.State.{State};
ghost use Rattle.machine.specs.Work.{AddsFlushes, Moment, IsMoment};
ghost use Rattle.command_loop.specs.Points.{IsOpenAt};
ghost use Rattle.command_loop.specs.ServerCalls.{setting_of, AreInRange, OpensStore, status_of_fault, IsCaused, IsDamage, MayNotOpen, WorkServed, WorkStopped, LineDoes, EndDoes};
ghost use Rattle.command_loop.specs.declared.settings.RunSettings.{RunSettings as SettingsOfRun};

use crate::settings::RunSettings;
use base_types::{Flushes, StoreFault};
use disk_model::Disk;
use io_traits::Host;
use machine::Found;
use std::alloc::Global;

/// What an opening found of each chainstate that there is.
#[derive(Clone, Copy, Debug, PartialEq, Eq)]
pub struct FoundStore {
    pub full: Option<Found>,
    pub snapshot: Option<Found>,
}

/// A store that can be opened, and that serves lines. The clauses speak of a disk and a host that tell what they hold, and those
/// of work of a store that is settled, which none is that wasn't so before; but for the readings of the clock, which are in
/// order in any case.
///
/// An Ok leaves the work done, in every image that a crash may leave, and the store open. After an error any first part of the
/// work may be done, and the store is used no more.
pub trait Server: Drop {
    /// What the run is set to.
    ghost set_to: { Self → SettingsOfRun };

    /// Whether the open store stands so, over contents that are told and the images that a crash may leave: where the
    /// machine stands, and what each image stands for.
    ghost stands: { Self → Option (ℕ → List ℕ) → ((ℕ → List ℕ) → Type 0) → State → StoreState → Type 0 };

    /// Whether work may end with this fault where the disk reads so: a broken record, a full file or a full cache.
    ghost causes: { SettingsOfRun → FaultOfStore → (ℕ → List ℕ) → Type 0 };

    /// Opens the store, and says what it found.
    fn open<D: Disk>(
        alloc: Global,
        settings: &RunSettings,
        disk: &mut D,
    ) -> Result<(Self, FoundStore), StoreFault>
        requires { AreInRange settings.now }
        ensures ok { (contents : ℕ → List ℕ) → D.contents disk.old ≡ Some contents
            → IfOk result (λ opened. OpensStore (setting_of settings.now) (D.left_since disk.old) (D.left_since disk.new) (D.time disk.old) (D.time disk.new) contents (D.contents disk.new) (stands opened.0) opened.1) }
        ensures set { IfOk result (λ opened. set_to opened.0 ≡ settings.now) }
        ensures err { Told (D.contents disk.old) (λ contents. OnErr result (FailsToOpen settings.now.limits.headers settings.now.rules (D.left_since disk.old) (D.left_since disk.new) (D.time disk.old) (D.time disk.new))) }
        ensures damaged { Told (D.contents disk.old) (λ contents. IfErr result (λ fault. IsDamage settings.now.limits.headers settings.now.rules (status_of_fault fault) contents)) }
        ensures caused { Told (D.contents disk.new) (λ contents. IfErr result (λ fault. IsCaused (causes settings.now) (status_of_fault fault) contents)) }
        ensures failed { IfErr result (λ fault. fault ≡ DiskFailed → Rose (D.faults disk.old) (D.faults disk.new)) }
        ensures unfilled { IfErr result MayNotOpen }
        ensures later { D.faults disk.old ≤ D.faults disk.new };

    /// Does what a line says, and adds the lines of its replies to `out`. None of its flushes is told yet.
    fn serve<D: Disk, H: Host>(
        &mut self,
        alloc: Global,
        disk: &mut D,
        host: &mut H,
        flushes: &mut Flushes,
        text: &[u8],
        out: &mut Vec<u8>,
    ) -> Result<(), StoreFault>
        ensures ok { (before : Moment) (state : State) (from : StoreState)
            → IsOpenAt (setting_of (set_to self.old)) (stands self.old) (D.time disk.old) (D.contents disk.old) (D.left_since disk.old) (H.held host.old) (H.faults host.old) before state from
            → OnOk result (WorkServed (setting_of (set_to self.old)) (D.left_since disk.old) (D.left_since disk.new) before from (LineDoes (setting_of (set_to self.old)) before state (line_of text.now))
            (IsOpenAt (setting_of (set_to self.old)) (stands self.new) (D.time disk.new) (D.contents disk.new) (D.left_since disk.new) (H.held host.new) (H.faults host.new)) flushes.old flushes.new out.old.items out.new.items) }
        ensures err { (before : Moment) (state : State) (from : StoreState)
            → IsOpenAt (setting_of (set_to self.old)) (stands self.old) (D.time disk.old) (D.contents disk.old) (D.left_since disk.old) (H.held host.old) (H.faults host.old) before state from
            → OnErr result (WorkStopped (setting_of (set_to self.old)) (D.left_since disk.old) (D.left_since disk.new) before from (LineDoes (setting_of (set_to self.old)) before state (line_of text.now))
            (IsMoment (D.time disk.new) (D.contents disk.new) (H.held host.new) (H.faults host.new)) (file_begun (line_of text.now)) flushes.old flushes.new) }
        ensures timed { AddsFlushes (D.time disk.old) (D.time disk.new) flushes.old flushes.new }
        ensures set { set_to self.new ≡ set_to self.old }
        ensures caused { Told (D.contents disk.new) (λ contents. IfErr result (λ fault. IsCaused (causes (set_to self.old)) (status_of_fault fault) contents)) }
        ensures failed { IfErr result (λ fault. fault ≡ DiskFailed → Rose (D.faults disk.old) (D.faults disk.new)) }
        ensures later { (D.faults disk.old ≤ D.faults disk.new) × (H.faults host.old ≤ H.faults host.new) };

    /// Does what the end of the input asks for, and adds the lines of its replies to `out`.
    fn finish<D: Disk>(
        &mut self,
        alloc: Global,
        disk: &mut D,
        flushes: &mut Flushes,
        out: &mut Vec<u8>,
    ) -> Result<(), StoreFault>
        ensures ok { (before : Moment) (state : State) (from : StoreState) (held : Held) (faults : ℕ)
            → IsOpenAt (setting_of (set_to self.old)) (stands self.old) (D.time disk.old) (D.contents disk.old) (D.left_since disk.old) (Some held) faults before state from
            → OnOk result (WorkServed (setting_of (set_to self.old)) (D.left_since disk.old) (D.left_since disk.new) before from (EndDoes before state)
            (IsOpenAt (setting_of (set_to self.old)) (stands self.new) (D.time disk.new) (D.contents disk.new) (D.left_since disk.new) (Some held) faults) flushes.old flushes.new out.old.items out.new.items) }
        ensures err { (before : Moment) (state : State) (from : StoreState) (held : Held) (faults : ℕ)
            → IsOpenAt (setting_of (set_to self.old)) (stands self.old) (D.time disk.old) (D.contents disk.old) (D.left_since disk.old) (Some held) faults before state from
            → OnErr result (WorkStopped (setting_of (set_to self.old)) (D.left_since disk.old) (D.left_since disk.new) before from (EndDoes before state)
            (IsMoment (D.time disk.new) (D.contents disk.new) (Some held) faults) None flushes.old flushes.new) }
        ensures timed { AddsFlushes (D.time disk.old) (D.time disk.new) flushes.old flushes.new }
        ensures caused { Told (D.contents disk.new) (λ contents. IfErr result (λ fault. IsCaused (causes (set_to self.old)) (status_of_fault fault) contents)) }
        ensures failed { IfErr result (λ fault. fault ≡ DiskFailed → Rose (D.faults disk.old) (D.faults disk.new)) }
        ensures later { D.faults disk.old ≤ D.faults disk.new };
}
