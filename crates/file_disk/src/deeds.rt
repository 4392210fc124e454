//! A list of calls that contracts alone read.

ghost use Rattle.std.specs.Prelude.{◌≡◌, ◌++◌, ◌∷◌, ◌≤◌, [], List, Err, length, IfOk};
ghost use Rattle.std.specs.Result.{result_ok};
ghost use Rattle.std.specs.Borrow.{ftrue};
ghost use Rattle.file_disk.specs.Deeds.{Deed, makes_folder, locks, opens, creates, measures, reads, writes, cuts, syncs_data, syncs_folder, reads_into};

use crate::raw::{CallFailed, RawError};
use std::marker::{Model, PhantomData};

/// The calls that were made of a folder, the oldest first. It takes no bytes and no time: a struct over a real folder has it
/// as a field, and adds to it at each call.
#[derive(Drop)]
pub struct Deeds {
    marker: PhantomData<u8>,
    pub ghost items: { List Deed },
}

impl Model for Deeds {
    ghost also_owns = { λ _. ftrue };
}

impl Deeds {
    /// No calls.
    pub fn new() -> Deeds
        ensures { result.items ≡ [] }
    {
        Deeds {
            marker: PhantomData,
        }
    }

    // It has no code: what is added is the caller's pick, from what it is given.
    fn add(&mut self, _file: u32, _at: u64, _count: u64, _done: bool, _bytes: &[u8])
        ghost deed: { Deed }
        ensures { self.new.items ≡ self.old.items ++ deed ∷ [] }
    {}

    /// Adds that the folder was made, or couldn't be.
    pub fn add_make_folder(&mut self, done: bool)
        ensures { self.new.items ≡ self.old.items ++ makes_folder done ∷ [] }
    {
        self.add(0, 0, 0, done, &[]);
    }

    /// Adds what a try for the lock answered.
    pub fn add_lock(&mut self, answer: Result<bool, CallFailed>)
        ensures { self.new.items ≡ self.old.items ++ locks (result_ok answer) ∷ [] }
    {
        match answer {
            Ok(is_taken) => self.add(0, 0, 1, is_taken, &[]),
            Err(_) => self.add(0, 0, 0, false, &[]),
        }
    }

    /// Adds whether a file was there and opened, or couldn't be opened.
    pub fn add_open(&mut self, file: u32, answer: Result<bool, CallFailed>)
        ensures { self.new.items ≡ self.old.items ++ opens file (result_ok answer) ∷ [] }
    {
        match answer {
            Ok(is_there) => self.add(file, 0, 1, is_there, &[]),
            Err(_) => self.add(file, 0, 0, false, &[]),
        }
    }

    /// Adds that a file was made, or couldn't be.
    pub fn add_create(&mut self, file: u32, done: bool)
        ensures { self.new.items ≡ self.old.items ++ creates file done ∷ [] }
    {
        self.add(file, 0, 0, done, &[]);
    }

    /// Adds the length of a file, or that it wasn't told.
    pub fn add_len(&mut self, file: u32, answer: Result<u64, CallFailed>)
        ensures { self.new.items ≡ self.old.items ++ measures file (result_ok answer) ∷ [] }
    {
        match answer {
            Ok(length) => self.add(file, 0, length, true, &[]),
            Err(_) => self.add(file, 0, 0, false, &[]),
        }
    }

    /// Adds a read, with the buffer as it left it.
    pub fn add_read(&mut self, file: u32, at: u64, answer: Result<usize, RawError>, buf: &[u8])
        requires { IfOk answer (λ count. count ≤ length buf.now) }
        ensures { self.new.items ≡ self.old.items ++ reads_into file at answer buf.now ∷ [] }
    {
        let room = buf.len() as u64;
        match answer {
            Ok(count) => self.add(file, at, room, true, &buf[..count]),
            Err(error) => self.add_read_error(file, at, room, error),
        }
    }

    fn add_read_error(&mut self, file: u32, at: u64, room: u64, error: RawError)
        ensures { self.new.items ≡ self.old.items ++ reads file at room (Err error) ∷ [] }
    {
        let is_interrupted = match error {
            RawError::Interrupted => true,
            RawError::Failed => false,
        };
        self.add(file, at, room, is_interrupted, &[]);
    }

    /// Adds a write of these bytes.
    pub fn add_write(&mut self, file: u32, at: u64, bytes: &[u8], answer: Result<usize, RawError>)
        ensures { self.new.items ≡ self.old.items ++ writes file at bytes.now answer ∷ [] }
    {
        match answer {
            Ok(count) => self.add(file, at, count as u64, true, bytes),
            Err(RawError::Interrupted) => self.add(file, at, 1, false, bytes),
            Err(RawError::Failed) => self.add(file, at, 0, false, bytes),
        }
    }

    /// Adds that the length of a file was set, or couldn't be.
    pub fn add_set_len(&mut self, file: u32, length: u64, done: bool)
        ensures { self.new.items ≡ self.old.items ++ cuts file length done ∷ [] }
    {
        self.add(file, length, 0, done, &[]);
    }

    /// Adds that a file's bytes were made durable, or couldn't be.
    pub fn add_sync_data(&mut self, file: u32, done: bool)
        ensures { self.new.items ≡ self.old.items ++ syncs_data file done ∷ [] }
    {
        self.add(file, 0, 0, done, &[]);
    }

    /// Adds that the folder was synced, or couldn't be.
    pub fn add_sync_folder(&mut self, done: bool)
        ensures { self.new.items ≡ self.old.items ++ syncs_folder done ∷ [] }
    {
        self.add(0, 0, 0, done, &[]);
    }
}
