//! The calls of an object in memory: how many were made, which are to fail, how many did.

ghost use Rattle.std.specs.Prelude.{◌≡◌, ◌≤◌, IfOk};
ghost use Rattle.io_traits.specs.Causes.{next_count};
ghost use Rattle.io_traits.specs.Calls.{no_calls, is_due};

use crate::outside::IoFailed;
use std::alloc::{AllocError, Global};
use std::marker::Model;

/// Counts calls and faults. Both counts stand still at `u64::MAX`.
#[derive(Debug, Drop)]
pub struct CallCounter {
    made: u64,
    fail: Vec<u64>,
    faults: u64,
}

impl Model for CallCounter {
    ghost use Rattle.io_traits.specs.Calls.{Calls};

    ghost Value = { Calls };

    ghost view = { λ c. record { made = c.made; fail = c.fail.items; faults = c.faults } };
}

impl CallCounter {
    /// No call was made; those with these numbers, counted from 1, are to fail.
    pub fn new(alloc: Global, fail: &[u64]) -> Result<Self, AllocError>
        ensures { IfOk result (λ calls. calls ≡ no_calls fail.now) }
    {
        Ok(CallCounter {
            made: 0,
            fail: Vec::from_slice(alloc, fail)?,
            faults: 0,
        })
    }

    /// Counts a call, and answers whether it is to fail.
    pub fn count_call(&mut self) -> bool
        ensures due { result ≡ is_due self.old }
        ensures counted { self.new ≡ record self.old { made = next_count self.old.made } }
    {
        self.made = self.made.saturating_add(1);
        self.fail.contains(&self.made)
    }

    /// Counts a fault.
    pub fn count_fault(&mut self) -> IoFailed
        ensures counted { self.new ≡ record self.old { faults = next_count self.old.faults } }
        ensures later { self.old.faults ≤ self.new.faults }
    {
        self.faults = self.faults.saturating_add(1);
        IoFailed
    }
}
