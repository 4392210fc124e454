//! A host whose files lie in memory.

ghost use Rattle.std.specs.Prelude.{◌≡◌, ◌≢◌, ◌≤◌, ◌↔◌, ◌&&◌, [], None, Some, false, min, length, drop, is_err, IfOk, OnOk, OnErr, IsTrue, IsOk, IsErr};
ghost use Rattle.std.specs.Option.{option_map};
ghost use Rattle.std.specs.Result.{result_unwrap_or};
ghost use Rattle.std.specs.Io.{ReadsAtMost};
ghost use Rattle.std.specs.FinMap as map;
ghost use Rattle.io_traits.specs.Causes.{HasCause};
ghost use Rattle.io_traits.specs.Host.{unread_bytes, holding_nothing, with_file, Opens, ReadsIn, Creates, Writes, Finishes};
ghost use Rattle.io_traits.specs.Calls.{no_calls, is_due, after_call};

use crate::bytes::Bytes;
use crate::call_counter::CallCounter;
use crate::file_map::FileMap;
use crate::outside::{Host, IoFailed};
use std::alloc::{AllocError, Global};
use std::marker::Model;

/// A host that keeps its files, and fails at chosen calls and for want of memory alone.
#[derive(Debug, Drop)]
pub struct MemHost {
    alloc: Global,
    files: FileMap,
    input: Option<(Bytes, usize)>,
    created: Option<Bytes>,
    calls: CallCounter,
}

impl Model for MemHost {
    ghost use Rattle.io_traits.specs.Calls.{MemHostState, mem_host_code};

    ghost Value = { MemHostState };

    ghost coded = { mem_host_code };

    ghost view = { λ h. record { held = record { files = h.files; input = h.input; created = h.created }; calls = h.calls } };
}

impl MemHost {
    /// A host without files, whose calls with the numbers of `fail`, counted from 1, fail.
    pub fn new(alloc: Global, fail: &[u64]) -> Result<MemHost, AllocError>
        ensures { IfOk result (λ host. host ≡ record { held = holding_nothing; calls = no_calls fail.now }) }
    {
        Ok(MemHost {
            alloc,
            files: FileMap::new(alloc),
            input: None,
            created: None,
            calls: CallCounter::new(alloc, fail)?,
        })
    }

    /// A file's bytes.
    pub fn get(&self, name: &str) -> Option<&[u8]>
        ensures { option_map (λ bytes. bytes.now) result ≡ map.get self.now.held.files name.now }
    {
        self.files.get(name.as_bytes())
    }

    /// Sets a file's bytes, in place of those that it had. It is no call that is counted.
    pub fn put(&mut self, name: &str, bytes: &[u8]) -> Result<(), AllocError>
        ensures ok { OnOk result (self.new ≡ record self.old { held = with_file name.now bytes.now self.old.held }) }
        ensures err { OnErr result (self.new ≡ self.old) }
    {
        let bytes = Bytes::from_slice(self.alloc, bytes)?;
        self.files.put(self.alloc, name.as_bytes(), bytes)
    }

    /// Makes a file empty, and answers its name.
    fn empty_file(&mut self, name: &str) -> Result<Bytes, AllocError>
        ensures name { IfOk result (λ copy. copy ≡ name.now) }
        ensures ok { OnOk result (self.new ≡ record self.old { held = with_file name.now [] self.old.held }) }
        ensures err { OnErr result (self.new ≡ self.old) }
    {
        let copy = Bytes::from_slice(self.alloc, name.as_bytes())?;
        self.files
            .put(self.alloc, name.as_bytes(), Bytes::new(self.alloc))?;
        Ok(copy)
    }
}

impl Host for MemHost {
    ghost held = { λ h. Some h.held };

    ghost faults = { λ h. h.calls.faults };

    fn open_in(&mut self, name: &str) -> Result<(), IoFailed>
        ensures held { Opens name.now result self.old.held self.new.held }
        ensures missing { map.contains_key self.old.held.files name.now ≡ false → IsErr result }
        ensures fails { IsTrue (is_due self.old.calls) → IsErr result }
        ensures calls { let is_held = map.contains_key self.old.held.files name.now in
            self.new.calls ≡ after_call self.old.calls (is_err result && is_held) }
        ensures later { self.old.calls.faults ≤ self.new.calls.faults }
    {
        self.input = None;
        let is_due = self.calls.count_call();
        if self.files.get(name.as_bytes()).is_none() {
            return Err(IoFailed);
        }
        if is_due {
            return Err(self.calls.count_fault());
        }
        match Bytes::from_slice(self.alloc, name.as_bytes()) {
            Ok(name) => {
                self.input = Some((name, 0));
                Ok(())
            }
            Err(_) => Err(self.calls.count_fault()),
        }
    }

    fn read_in(&mut self, buf: &mut [u8]) -> Result<usize, IoFailed>
        ensures bound { ReadsAtMost result buf.new }
        ensures held { ReadsIn result buf.new self.old.held self.new.held }
        ensures full { IfOk result (λ n. n ≡ min (length buf.new) (length (unread_bytes self.old.held))) }
        ensures beyond { let count = result_unwrap_or result 0 in
            drop count buf.new ≡ drop count buf.old }
        ensures fails { IsErr result ↔ (IsTrue (is_due self.old.calls) × (self.old.held.input ≢ None)) }
        ensures calls { self.new.calls ≡ after_call self.old.calls (is_err result) }
        ensures cause { HasCause self.old.calls.faults self.new.calls.faults result }
    {
        let is_due = self.calls.count_call();
        let Some((name, place)) = &mut self.input else {
            return Ok(0);
        };
        if is_due {
            return Err(self.calls.count_fault());
        }
        let Some(bytes) = self.files.get(name.as_slice()) else {
            return Ok(0);
        };
        let rest = &bytes[bytes.len().min(*place)..];
        let count = buf.len().min(rest.len());
        buf[..count].copy_from_slice(&rest[..count]);
        *place += count;
        Ok(count)
    }

    fn create(&mut self, name: &str) -> Result<(), IoFailed>
        ensures held { Creates name.now result self.old.held self.new.held }
        ensures kept { OnErr result (self.new.held ≡ record (self.old.held) { created = None }) }
        ensures fails { IsTrue (is_due self.old.calls) → IsErr result }
        ensures calls { self.new.calls ≡ after_call self.old.calls (is_err result) }
        ensures cause { HasCause self.old.calls.faults self.new.calls.faults result }
    {
        self.created = None;
        if self.calls.count_call() {
            return Err(self.calls.count_fault());
        }
        match self.empty_file(name) {
            Ok(created) => {
                self.created = Some(created);
                Ok(())
            }
            Err(_) => Err(self.calls.count_fault()),
        }
    }

    fn write(&mut self, bytes: &[u8]) -> Result<(), IoFailed>
        ensures held { Writes bytes.now result self.old.held self.new.held }
        ensures kept { OnErr result (self.new.held ≡ self.old.held) }
        ensures idle { self.old.held.created ≡ None → IsOk result }
        ensures fails { IsTrue (is_due self.old.calls) → self.old.held.created ≢ None → IsErr result }
        ensures calls { self.new.calls ≡ after_call self.old.calls (is_err result) }
        ensures cause { HasCause self.old.calls.faults self.new.calls.faults result }
    {
        let is_due = self.calls.count_call();
        let Some(name) = &self.created else {
            return Ok(());
        };
        if is_due {
            return Err(self.calls.count_fault());
        }
        match self.files.append(self.alloc, name.as_slice(), bytes) {
            Ok(()) => Ok(()),
            Err(_) => Err(self.calls.count_fault()),
        }
    }

    fn finish(&mut self) -> Result<(), IoFailed>
        ensures held { Finishes result self.old.held self.new.held }
        ensures kept { self.new.held ≡ record (self.old.held) { created = None } }
        ensures fails { IsErr result ↔ (IsTrue (is_due self.old.calls) × (self.old.held.created ≢ None)) }
        ensures calls { self.new.calls ≡ after_call self.old.calls (is_err result) }
        ensures cause { HasCause self.old.calls.faults self.new.calls.faults result }
    {
        let is_due = self.calls.count_call();
        if self.created.take().is_some() && is_due {
            return Err(self.calls.count_fault());
        }
        Ok(())
    }
}
