//! A sink that keeps what is written in memory.

ghost use Rattle.std.specs.Prelude.{◌≡◌, ◌++◌, [], Some, is_err, IfOk, OnOk, OnErr, IsTrue, IsErr};
ghost use Rattle.io_traits.specs.Causes.{HasCause};
ghost use Rattle.io_traits.specs.Streams.{AppendsPart};
ghost use Rattle.io_traits.specs.Calls.{no_calls, is_due, after_call};

use crate::bytes::Bytes;
use crate::call_counter::CallCounter;
use crate::outside::{IoFailed, Sink};
use std::alloc::{AllocError, Global};
use std::marker::Model;

/// A sink that keeps its bytes, and fails at chosen calls and for want of memory alone.
#[derive(Debug, Drop)]
pub struct MemSink {
    bytes: Bytes,
    calls: CallCounter,
}

impl Model for MemSink {
    ghost use Rattle.io_traits.specs.Calls.{MemSinkState};

    ghost Value = { MemSinkState };

    ghost view = { λ s. record { written = s.bytes; calls = s.calls } };
}

impl MemSink {
    /// An empty sink, whose calls with the numbers of `fail`, counted from 1, fail.
    pub fn new(alloc: Global, fail: &[u64]) -> Result<MemSink, AllocError>
        ensures { IfOk result (λ sink. sink ≡ record { written = []; calls = no_calls fail.now }) }
    {
        Ok(MemSink {
            bytes: Bytes::new(alloc),
            calls: CallCounter::new(alloc, fail)?,
        })
    }

    /// The bytes written so far.
    pub fn as_slice(&self) -> &[u8]
        ensures { result.now ≡ self.now.written }
    {
        self.bytes.as_slice()
    }
}

impl Sink for MemSink {
    ghost written = { λ s. Some s.written };

    ghost faults = { λ s. s.calls.faults };

    /// Adds all of `bytes`, or none where it fails.
    fn write(&mut self, bytes: &[u8]) -> Result<(), IoFailed>
        ensures whole { OnOk result (self.new.written ≡ self.old.written ++ bytes.now) }
        ensures none { OnErr result (self.new.written ≡ self.old.written) }
        ensures part { OnErr result (AppendsPart (Some self.old.written) (Some self.new.written) bytes.now) }
        ensures fails { IsTrue (is_due self.old.calls) → IsErr result }
        ensures calls { self.new.calls ≡ after_call self.old.calls (is_err result) }
        ensures cause { HasCause self.old.calls.faults self.new.calls.faults result }
    {
        if self.calls.count_call() {
            return Err(self.calls.count_fault());
        }
        match self.bytes.append(bytes) {
            Ok(()) => Ok(()),
            Err(_) => Err(self.calls.count_fault()),
        }
    }
}
