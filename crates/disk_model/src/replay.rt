//! The images of a file at a moment, computed from the record.

ghost use Rattle.std.specs.Prelude.{◌≡◌, ◌<◌, ◌≤◌, ◌||◌, ℕ, false, length, map, get_or, IfOk, OnOk};
ghost use Rattle.std.specs.List.{range_with_len};
ghost use Rattle.disk_model.specs.Crash.{in_range, at_rest, after_write, after_cut, after_sync, image_of};
ghost use Rattle.disk_model.specs.Replay.{after_request, file_after};

use crate::{Bytes, Call, Pick, Request};
use std::alloc::{AllocError, Global};

/// A file as calls on record make it: how it reads, what was durable at the last sync, the least
/// and the greatest length since, and which of the durable bytes a write since has covered.
#[derive(Drop)]
pub(crate) struct Replayed {
    alloc: Global,
    reads: Bytes,
    durable: Bytes,
    least: u64,
    most: u64,
    covered: Vec<bool>,
}

// Marks the places from `at` on, so many as there are.
fn cover(covered: &mut [bool], at: usize, count: usize)
    ensures { (i : ℕ) → i < length covered.old → get_or covered.new i false ≡ (get_or covered.old i false || in_range at count i) }
{
    let start = at.min(covered.len());
    let end = at.saturating_add(count).min(covered.len());
    for place in start..end {
        covered[place] = true;
    }
}

impl Replayed {
    ghost use Rattle.disk_model.specs.Replayed.{IsShown, filled_place};

    // All bytes are durable.
    fn at_rest(alloc: Global, bytes: Bytes) -> Result<Replayed, AllocError>
        ensures { IfOk result (λ r. IsShown r (at_rest bytes)) }
    {
        let durable = bytes.clone()?;
        let length = durable.as_slice().len();
        let mut covered = Vec::new(alloc);
        covered.resize(length, false)?;
        Ok(Replayed {
            alloc,
            reads: bytes,
            durable,
            least: length as u64,
            most: length as u64,
            covered,
        })
    }

    // Writes over the bytes from `at` on.
    fn write(&mut self, at: u64, bytes: &[u8]) -> Result<(), AllocError>
        ensures { OnOk result ((s : _) → IsShown self.old s → IsShown self.new (after_write at bytes.now s)) }
    {
        self.reads.write_at(at, bytes)?;
        self.most = self.most.max(self.reads.as_slice().len() as u64);
        cover(&mut self.covered, at as usize, bytes.len());
        Ok(())
    }

    // Drops the bytes from `length` on.
    fn cut(&mut self, length: u64)
        ensures { (s : _) → IsShown self.old s → IsShown self.new (after_cut length s) }
    {
        self.reads.cut(length);
        self.least = self.least.min(length);
    }

    // Makes the bytes durable.
    fn sync(&mut self) -> Result<(), AllocError>
        ensures { OnOk result ((s : _) → IsShown self.old s → IsShown self.new (after_sync s)) }
    {
        *self = Replayed::at_rest(self.alloc, self.reads.clone()?)?;
        Ok(())
    }

    // Does a request, if it speaks of this file.
    fn apply(&mut self, file: u32, request: &Request) -> Result<(), AllocError>
        ensures { OnOk result ((s : _) → IsShown self.old s → IsShown self.new (after_request file request.now s)) }
    {
        match request {
            Request::Write {
                file: written,
                at,
                bytes,
            } => {
                if file == *written {
                    self.write(*at, bytes.as_slice())?;
                }
            }
            Request::Cut { file: cut, length } => {
                if file == *cut {
                    self.cut(*length);
                }
            }
            Request::Sync { file: synced } => {
                if file == *synced {
                    self.sync()?;
                }
            }
            Request::Len { .. } => {}
            Request::Read { .. } => {}
        }
        Ok(())
    }

    /// The file as the calls that were done by a moment make it.
    pub(crate) fn at(
        alloc: Global,
        start: &[u8],
        calls: &[Call],
        file: u32,
        moment: u64,
    ) -> Result<Replayed, AllocError>
        ensures { IfOk result (λ r. IsShown r (file_after moment file calls.now (at_rest start.now))) }
    {
        let mut state = Replayed::at_rest(alloc, Bytes::from_slice(alloc, start)?)?;
        for call in calls {
            if call.is_done_by(moment) {
                state.apply(file, &call.request)?;
            }
        }
        Ok(state)
    }

    // The durable byte at a place, or this byte where it is free.
    fn filled_byte(&self, place: usize, byte: u8) -> u8
        requires lower { self.now.least ≤ length self.now.durable }
        requires marks { length self.now.covered.items ≡ length self.now.durable }
        ensures { result ≡ filled_place self.now byte place }
    {
        if place < self.least as usize && !self.covered[place] {
            self.durable.as_slice()[place]
        } else {
            byte
        }
    }

    // As long as the file may be, with this byte wherever it is free.
    fn filled(&self, byte: u8) -> Result<Bytes, AllocError>
        requires lower { self.now.least ≤ length self.now.durable }
        requires marks { length self.now.covered.items ≡ length self.now.durable }
        ensures { IfOk result (λ b. b ≡ map (filled_place self.now byte) (range_with_len 0 self.now.most)) }
    {
        let mut filled = Vec::with_capacity(self.alloc, self.most as usize)?;
        for place in 0..self.most as usize {
            filled.push(self.filled_byte(place, byte))?;
        }
        Ok(Bytes::from_vec(filled))
    }

    /// The image of a pick.
    pub(crate) fn picked(self, pick: Pick) -> Result<Bytes, AllocError>
        requires { (s : _) × IsShown self s }
        ensures { IfOk result (λ b. (s : _) → IsShown self s → b ≡ image_of pick s) }
    {
        match pick {
            Pick::Old => {
                let Replayed {
                    mut durable,
                    least,
                    ..
                } = self;
                durable.cut(least);
                Ok(durable)
            }
            Pick::New => {
                let Replayed { reads, .. } = self;
                Ok(reads)
            }
            Pick::Fill(byte) => self.filled(byte),
        }
    }
}
