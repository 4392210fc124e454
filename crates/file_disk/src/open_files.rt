//! The open files of a folder, and those that it got since it was last synced.

ghost use Rattle.std.specs.Prelude.{◌≡◌, ◌==◌, [], IfOk, IfErr, IfSome};
ghost use Rattle.std.specs.List.{position};
ghost use Rattle.file_disk.specs.Deeds.{unsynced};
ghost use Rattle.file_disk.specs.Courses.{Enters, ReachesOrNot, Makes, ReachesOrMakes, Measures, Reads, Writes, Cuts, SyncsEntry, Syncs};
ghost use Rattle.file_disk.specs.Places.{IsAt};
ghost use Rattle.file_disk.specs.Troubles.{trouble_at};

use crate::file_calls::{measure, read_all, shorten, sync_bytes, write_all};
use crate::raw::RawFolder;
use crate::trouble::{Operation, Trouble};
use std::alloc::Global;

/// Makes a folder where it isn't there, takes its lock, and makes durable which files it has: an earlier run that ended
/// between may have left some that aren't.
pub(crate) fn enter<F: RawFolder>(folder: &mut F) -> Result<(), Trouble>
    ensures { Enters result (F.deeds folder.old) (F.deeds folder.new) }
{
    if folder.make_folder().is_err() {
        return Err(Trouble::of_folder(Operation::MakeFolder));
    }
    match folder.lock() {
        Ok(true) => {}
        Ok(false) => return Err(Trouble::of_folder(Operation::LockHeld)),
        Err(_) => return Err(Trouble::of_folder(Operation::Lock)),
    }
    match folder.sync_folder() {
        Ok(()) => Ok(()),
        Err(_) => Err(Trouble::of_folder(Operation::SyncFolder)),
    }
}

fn place_of<F: RawFolder>(handles: &[F::File], file: u32) -> Option<usize>
    ensures { result ≡ position (λ other. F.number other == file) handles.now }
{
    handles.iter().position(|other| F::number(other) == file)
}

// Adds an open file, and answers its place.
fn keep<F: RawFolder>(handles: &mut Vec<F::File>, handle: F::File) -> Result<usize, Trouble>
    ensures place { IfOk result (λ place. IsAt F.number (F.number handle) place handles.new.items) }
    ensures cause { IfErr result (λ trouble. trouble ≡ trouble_at (F.number handle) Operation.Remember) }
{
    let place = handles.len();
    let trouble = Trouble::at(F::number(&handle), Operation::Remember);
    match handles.push(handle) {
        Ok(()) => Ok(place),
        Err(_) => Err(trouble),
    }
}

/// A folder with its open files. They are few, so one is looked for from the front.
#[derive(Drop)]
pub(crate) struct OpenFiles<F: RawFolder + Drop> {
    folder: F,
    handles: Vec<F::File>,
    made: Vec<u32>,
    ghost made_is: { made.items ≡ unsynced (F.deeds folder) },
}

impl<F: RawFolder + Drop> OpenFiles<F> {
    /// A folder that was just synced, with no open file.
    pub(crate) fn new(alloc: Global, folder: F) -> OpenFiles<F>
        requires { unsynced (F.deeds folder) ≡ [] }
        ensures { result.folder ≡ folder }
    {
        OpenFiles {
            folder,
            handles: Vec::new(alloc),
            made: Vec::new(alloc),
        }
    }

    // The place of a file among those that are open, where there is such a file. It is opened where it isn't open.
    fn reach(&mut self, file: u32) -> Result<Option<usize>, Trouble>
        ensures calls { ReachesOrNot file result (F.deeds self.old.folder) (F.deeds self.new.folder) }
        ensures place { IfOk result (λ found. IfSome found (λ place. IsAt F.number file place self.new.handles.items)) }
    {
        if let Some(place) = place_of::<F>(&self.handles, file) {
            return Ok(Some(place));
        }
        match self.folder.open(file) {
            Ok(Some(handle)) => Ok(Some(keep::<F>(&mut self.handles, handle)?)),
            Ok(None) => Ok(None),
            Err(_) => Err(Trouble::at(file, Operation::Open)),
        }
    }

    // Makes a file that isn't there, and answers its place.
    fn make(&mut self, file: u32) -> Result<usize, Trouble>
        ensures calls { Makes file result (F.deeds self.old.folder) (F.deeds self.new.folder) }
        ensures place { IfOk result (λ place. IsAt F.number file place self.new.handles.items) }
    {
        if self.made.push(file).is_err() {
            return Err(Trouble::at(file, Operation::Remember));
        }
        match self.folder.create(file) {
            Ok(handle) => keep::<F>(&mut self.handles, handle),
            Err(_) => Err(Trouble::at(file, Operation::Create)),
        }
    }

    fn reach_or_make(&mut self, file: u32) -> Result<usize, Trouble>
        ensures calls { ReachesOrMakes file result (F.deeds self.old.folder) (F.deeds self.new.folder) }
        ensures place { IfOk result (λ place. IsAt F.number file place self.new.handles.items) }
    {
        match self.reach(file)? {
            Some(place) => Ok(place),
            None => self.make(file),
        }
    }

    /// The length of a file in bytes.
    pub(crate) fn len(&mut self, file: u32) -> Result<u64, Trouble>
        ensures { Measures file result (F.deeds self.old.folder) (F.deeds self.new.folder) }
    {
        let Some(place) = self.reach(file)? else {
            return Ok(0);
        };
        measure(&mut self.folder, &self.handles[place])
    }

    /// Reads the bytes of a file from `at` on, until the buffer is full or the file ends, and answers their number.
    pub(crate) fn read(&mut self, file: u32, at: u64, buf: &mut [u8]) -> Result<usize, Trouble>
        ensures { Reads file at buf.new result (F.deeds self.old.folder) (F.deeds self.new.folder) }
    {
        if at.checked_add(buf.len() as u64).is_none() {
            return Err(Trouble::at(file, Operation::Read));
        }
        let Some(place) = self.reach(file)? else {
            return Ok(0);
        };
        read_all(&mut self.folder, &self.handles[place], at, buf)
    }

    /// Writes bytes into a file from `at` on. One that isn't there is made.
    pub(crate) fn write_at(&mut self, file: u32, at: u64, bytes: &[u8]) -> Result<(), Trouble>
        ensures { Writes file at bytes.now result (F.deeds self.old.folder) (F.deeds self.new.folder) }
    {
        if at.checked_add(bytes.len() as u64).is_none() {
            return Err(Trouble::at(file, Operation::Write));
        }
        let place = self.reach_or_make(file)?;
        write_all(&mut self.folder, &self.handles[place], at, bytes)
    }

    /// Shortens a file to `length` bytes, where it is longer.
    pub(crate) fn cut(&mut self, file: u32, length: u64) -> Result<(), Trouble>
        ensures { Cuts file length result (F.deeds self.old.folder) (F.deeds self.new.folder) }
    {
        let Some(place) = self.reach(file)? else {
            return Ok(());
        };
        shorten(&mut self.folder, &self.handles[place], length)
    }

    // Makes durable that the folder has a file, where it got it since it was last synced.
    fn sync_entry(&mut self, file: u32) -> Result<(), Trouble>
        ensures calls { SyncsEntry file result (F.deeds self.old.folder) (F.deeds self.new.folder) }
        ensures handles { self.new.handles.items ≡ self.old.handles.items }
    {
        if !self.made.contains(&file) {
            return Ok(());
        }
        match self.folder.sync_folder() {
            Ok(()) => {
                self.made.clear();
                Ok(())
            }
            Err(_) => Err(Trouble::of_folder(Operation::SyncFolder)),
        }
    }

    /// Makes durable a file's bytes, and that the folder has it.
    pub(crate) fn sync(&mut self, file: u32) -> Result<(), Trouble>
        ensures { Syncs file result (F.deeds self.old.folder) (F.deeds self.new.folder) }
    {
        let Some(place) = self.reach(file)? else {
            return Ok(());
        };
        self.sync_entry(file)?;
        sync_bytes(&mut self.folder, &self.handles[place])
    }
}
