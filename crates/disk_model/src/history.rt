//! The record of a disk in memory.

ghost use Rattle.std.specs.Prelude.{◌≡◌, ◌+◌, ◌-◌, ◌^◌, ◌<◌, ◌≤◌, ◌++◌, [], ◌∷◌, min, Contains, IsErr, OnOk, OnErr, IfOk, IfErr, false};
ghost use Rattle.disk_model.specs.Disk.{HasCause, Rose};
ghost use Rattle.disk_model.specs.Replay.{IsNumberedTo, Recorded};

use crate::{Call, DiskFailed, Request};
use std::alloc::{AllocError, Global};

/// The calls of a disk in memory, its clock, its count of faults, and the numbers of the calls
/// that are made to fail.
#[derive(Drop)]
pub(crate) struct History {
    calls: Vec<Call>,
    clock: u64,
    faults: u64,
    failing: Vec<u64>,
    ghost numbered: { IsNumberedTo clock calls.items },
}

impl History {
    /// No calls, and none that are made to fail.
    pub(crate) fn new(alloc: Global) -> History
        ensures calls { result.calls.items ≡ [] }
        ensures failing { result.failing.items ≡ [] }
        ensures clock { result.clock ≡ 0 }
        ensures faults { result.faults ≡ 0 }
    {
        History {
            calls: Vec::new(alloc),
            clock: 0,
            faults: 0,
            failing: Vec::new(alloc),
        }
    }

    /// The number of the last call.
    pub(crate) fn clock(&self) -> u64
        ensures { result ≡ self.now.clock }
    {
        self.clock
    }

    /// The calls, the oldest first.
    pub(crate) fn calls(&self) -> &[Call]
        ensures { result.now ≡ self.now.calls.items }
    {
        self.calls.as_slice()
    }

    /// Makes the calls with these numbers fail.
    pub(crate) fn fail_at(&mut self, calls: &[u64]) -> Result<(), AllocError>
        ensures ok { OnOk result (self.new.failing.items ≡ self.old.failing.items ++ calls.now) }
        ensures err { OnErr result (self.new.failing.items ≡ self.old.failing.items) }
        ensures same { (self.new.calls.items ≡ self.old.calls.items) × (self.new.clock ≡ self.old.clock) × (self.new.faults ≡ self.old.faults) }
    {
        self.failing.extend_from_slice(calls)
    }

    // Counts a fault.
    fn fault(&mut self) -> Result<(), DiskFailed>
        ensures err { IsErr result }
        ensures rises { Rose self.old.faults self.new.faults }
        ensures later { self.old.faults ≤ self.new.faults }
        ensures same { (self.new.calls.items ≡ self.old.calls.items) × (self.new.clock ≡ self.old.clock) × (self.new.failing.items ≡ self.old.failing.items) }
    {
        self.faults = self.faults.saturating_add(1);
        Err(DiskFailed)
    }

    /// Counts a call, and puts it on record with its outcome. It fails where the clock is at its
    /// end, where no memory is left, and where it is made to.
    pub(crate) fn enter(&mut self, request: Result<Request, AllocError>) -> Result<(), DiskFailed>
        ensures in_time { self.old.clock ≤ 2 ^ 64 - 1 }
        ensures ticks { self.new.clock ≡ min (self.old.clock + 1) (2 ^ 64 - 1) }
        ensures at_end { 2 ^ 64 - 1 ≤ self.old.clock → IsErr result }
        ensures made_to_fail { Contains self.old.failing.items (self.old.clock + 1) → IsErr result }
        ensures ok { OnOk result (self.old.clock < 2 ^ 64 - 1) }
        ensures failing { self.new.failing.items ≡ self.old.failing.items }
        ensures recorded { IfOk request (λ r. Recorded (self.old.clock + 1) r self.old.calls.items self.new.calls.items result) }
        ensures no_memory { IfErr request (λ e. IsErr result × (self.new.calls.items ≡ self.old.calls.items)) }
        ensures cause { HasCause self.old.faults self.new.faults result }
    {
        if self.clock == u64::MAX {
            return self.fault();
        }
        self.clock += 1;
        let Ok(request) = request else {
            return self.fault();
        };
        let done = !self.failing.contains(&self.clock);
        let call = Call {
            number: self.clock,
            done,
            request,
        };
        match self.calls.push(call) {
            Ok(()) if done => Ok(()),
            _ => self.fault(),
        }
    }

    /// Says of the last call that it was not done.
    pub(crate) fn undo(&mut self) -> Result<(), DiskFailed>
        ensures err { IsErr result }
        ensures same { (self.new.clock ≡ self.old.clock) × (self.new.failing.items ≡ self.old.failing.items) }
        ensures undone { (calls : _) (call : _) → self.old.calls.items ≡ calls ++ call ∷ [] → self.new.calls.items ≡ calls ++ record call { done = false } ∷ [] }
        ensures cause { HasCause self.old.faults self.new.faults result }
    {
        if let Some(call) = self.calls.last_mut() {
            call.done = false;
        }
        self.fault()
    }
}
