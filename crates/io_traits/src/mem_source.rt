//! A source over bytes in memory.

ghost use Rattle.std.specs.Prelude.{◌≡◌, ◌↔◌, Some, min, length, drop, is_err, IfOk, IsTrue, IsErr};
ghost use Rattle.std.specs.Result.{result_unwrap_or};
ghost use Rattle.std.specs.Io.{ReadsAtMost};
ghost use Rattle.std.specs.Io.KnownBytes.{ReadConsumes};
ghost use Rattle.io_traits.specs.Causes.{HasCause};
ghost use Rattle.io_traits.specs.Calls.{no_calls, is_due, after_call};

use crate::call_counter::CallCounter;
use crate::outside::{IoFailed, Source};
use std::alloc::{AllocError, Global};
use std::marker::Model;

/// A source of bytes that it was given, which fails at chosen calls alone.
#[derive(Debug, Drop)]
pub struct MemSource {
    bytes: Vec<u8>,
    place: usize,
    calls: CallCounter,
}

impl Model for MemSource {
    ghost use Rattle.std.specs.Prelude.{◌≤◌, length, drop};
    ghost use Rattle.io_traits.specs.Calls.{MemSourceState};

    ghost Value = { MemSourceState };

    ghost view = { λ s. record { left = drop s.place s.bytes.items; calls = s.calls } };

    ghost invariant = { λ s. s.place ≤ length s.bytes.items };
}

impl MemSource {
    /// A source of these bytes, whose calls with the numbers of `fail`, counted from 1, fail.
    pub fn new(alloc: Global, bytes: &[u8], fail: &[u64]) -> Result<MemSource, AllocError>
        ensures { IfOk result (λ source. source ≡ record { left = bytes.now; calls = no_calls fail.now }) }
    {
        Ok(MemSource {
            bytes: Vec::from_slice(alloc, bytes)?,
            place: 0,
            calls: CallCounter::new(alloc, fail)?,
        })
    }
}

impl Source for MemSource {
    ghost left = { λ s. Some s.left };

    ghost faults = { λ s. s.calls.faults };

    /// Fills `buf` as far as bytes are left.
    fn read(&mut self, buf: &mut [u8]) -> Result<usize, IoFailed>
        ensures bound { ReadsAtMost result buf.new }
        ensures bytes { ReadConsumes (Some self.old.left) (Some self.new.left) result buf.new }
        ensures full { IfOk result (λ n. n ≡ min (length buf.new) (length self.old.left)) }
        ensures beyond { let count = result_unwrap_or result 0 in
            drop count buf.new ≡ drop count buf.old }
        ensures fails { IsErr result ↔ IsTrue (is_due self.old.calls) }
        ensures calls { self.new.calls ≡ after_call self.old.calls (is_err result) }
        ensures cause { HasCause self.old.calls.faults self.new.calls.faults result }
    {
        if self.calls.count_call() {
            return Err(self.calls.count_fault());
        }
        let rest = &self.bytes[self.place..];
        let count = buf.len().min(rest.len());
        buf[..count].copy_from_slice(&rest[..count]);
        self.place += count;
        Ok(count)
    }
}
