//! A disk in memory.

ghost use Rattle.std.specs.Prelude.{◌≡◌, ◌+◌, ◌-◌, ◌^◌, ◌≤◌, ◌++◌, ℕ, Some, min, length, take, drop, All, IfOk, OnOk, OnErr, option_map};
ghost use Rattle.std.specs.FinMap as map;
ghost use Rattle.disk_model.specs.Disk.{written, changed_at, At, Torn, Cut as CutStep, Stays, Moves, Only, Told, BothTold, OthersKept, HasCause};
ghost use Rattle.disk_model.specs.Image.{bytes_in};
ghost use Rattle.disk_model.specs.Crash.{image_of};
ghost use Rattle.disk_model.specs.Replay.{IsCurrent, LeftSince, bytes_read_of};
ghost use Rattle.disk_model.specs.ReplayLaws.{reads_left, left_earlier};

use crate::history::History;
use crate::replay::Replayed;
use crate::{Call, Disk, DiskFailed, Image, Pick, Request};
use std::alloc::{AllocError, Global};

/// A disk in memory, which keeps a record of all calls. A device call for which it finds no memory
/// fails, does nothing and raises the count of faults.
#[derive(Drop)]
pub struct MemDisk {
    alloc: Global,
    start: Image,
    files: Image,
    history: History,
    ghost current: { IsCurrent start files history.calls.items history.clock },
}

impl MemDisk {
    ghost use Rattle.disk_model.specs.MemDisk.{files_of, start_of, calls_of, failing_of, clock_of, faults_of, state_of, left_since_of, IsFresh, HoldsDurably};

    /// A disk of empty files. It takes no memory.
    pub fn new(alloc: Global) -> MemDisk
        ensures fresh { IsFresh map.empty result }
        ensures durable { HoldsDurably map.empty result }
    {
        MemDisk {
            alloc,
            start: Image::new(alloc),
            files: Image::new(alloc),
            history: History::new(alloc),
        }
    }

    /// A disk whose files hold the image durably.
    pub fn from_image(alloc: Global, image: &Image) -> Result<MemDisk, AllocError>
        ensures fresh { IfOk result (IsFresh image.now) }
        ensures durable { IfOk result (HoldsDurably image.now) }
    {
        MemDisk::at_rest(alloc, image.clone()?)
    }

    // A disk whose files hold the image durably, and are it.
    fn at_rest(alloc: Global, image: Image) -> Result<MemDisk, AllocError>
        ensures fresh { IfOk result (IsFresh image) }
        ensures durable { IfOk result (HoldsDurably image) }
    {
        Ok(MemDisk {
            alloc,
            start: image.clone()?,
            files: image,
            history: History::new(alloc),
        })
    }

    /// What the files read as.
    pub fn image(&self) -> Result<Image, AllocError>
        ensures { IfOk result (λ image. image ≡ files_of self.now) }
    {
        self.files.clone()
    }

    /// A disk that durably holds one of the images that a crash at this moment may have left.
    pub fn after_crash(&self, moment: u64, pick: Pick) -> Result<MemDisk, AllocError>
        requires { moment ≤ clock_of self.now }
        ensures files { IfOk result (λ d. (f : ℕ) → bytes_in (files_of d) f ≡ image_of pick (state_of self.now moment f)) }
        ensures allowed { IfOk result (λ d. left_since_of self.now moment (bytes_in (files_of d))) }
        ensures fresh { IfOk result (λ d. IsFresh (files_of d) d) }
        ensures durable { IfOk result (λ d. HoldsDurably (files_of d) d) }
    {
        MemDisk::at_rest(self.alloc, self.image_at(moment, pick)?)
    }

    // The image of a pick at a moment.
    fn image_at(&self, moment: u64, pick: Pick) -> Result<Image, AllocError>
        ensures { IfOk result (λ image. (f : ℕ) → bytes_in image f ≡ image_of pick (state_of self.now moment f)) }
    {
        let mut image = Image::new(self.alloc);
        let numbers = self.files.numbers()?;
        for file in &numbers {
            let start = self.start.bytes(*file);
            let state = Replayed::at(self.alloc, start, self.history.calls(), *file, moment)?;
            image.set(*file, state.picked(pick)?)?;
        }
        Ok(image)
    }

    /// Makes the device calls with these numbers fail and do nothing. The first call of the disk
    /// has the number 1.
    pub fn fail_at(&mut self, calls: &[u64]) -> Result<(), AllocError>
        ensures ok { OnOk result (failing_of self.new ≡ failing_of self.old ++ calls.now) }
        ensures err { OnErr result (failing_of self.new ≡ failing_of self.old) }
        ensures files { files_of self.new ≡ files_of self.old }
        ensures start { start_of self.new ≡ start_of self.old }
        ensures calls { calls_of self.new ≡ calls_of self.old }
        ensures clock { clock_of self.new ≡ clock_of self.old }
        ensures faults { faults_of self.new ≡ faults_of self.old }
    {
        self.history.fail_at(calls)
    }

    /// All calls that were made, the oldest first. Those for which no memory was left are missing.
    pub fn calls(&self) -> &[Call]
        ensures { result.now ≡ calls_of self.now }
    {
        self.history.calls()
    }
}

impl Disk for MemDisk {
    ghost use Rattle.disk_model.specs.MemDisk.{Makes, files_of, contents_of, read_of, left_since_of, clock_of, faults_of};

    ghost contents = { λ d. Some (bytes_in d.files) };

    ghost left_since = { λ d t c. LeftSince d.start d.history.calls.items d.history.clock t c };

    ghost time = { λ d. d.history.clock };

    ghost faults = { λ d. d.history.faults };

    ghost bytes_read = { λ d. Some (bytes_read_of d.history.calls.items) };

    ghost reads_as = { λ d m is. reads_left d.start d.files d.history.calls.items d.history.clock d.current m is };

    ghost since_earlier = { λ d t u c le within left. left_earlier d.start d.history.calls.items d.history.clock t u c le left };

    fn len(&mut self, file: u32) -> Result<u64, DiskFailed>
        ensures makes { Makes (Request.Len file) self.old self.new result }
        ensures length { Told (contents_of self.old) (λ m. IfOk result (λ n. n ≡ length (m file))) }
        ensures contents { contents_of self.new ≡ contents_of self.old }
        ensures crash { Moves Stays (clock_of self.old) (clock_of self.new)
            (left_since_of self.old) (left_since_of self.new) result }
        ensures cause { HasCause (faults_of self.old) (faults_of self.new) result }
        ensures read { read_of self.new ≡ read_of self.old }
    {
        self.history.enter(Ok(Request::Len { file }))?;
        Ok(self.files.bytes(file).len() as u64)
    }

    fn read(&mut self, file: u32, at: u64, buf: &mut [u8]) -> Result<usize, DiskFailed>
        ensures makes { Makes (Request.Read file at (min (length buf.old) (length (bytes_in (files_of self.old) file) - at))) self.old self.new result }
        ensures bound { IfOk result (λ n. n ≤ length buf.old) }
        ensures bytes { Told (contents_of self.old) (λ m. IfOk result (λ n. take n buf.new ≡ take (length buf.old) (drop at (m file)))) }
        ensures count { Told (contents_of self.old) (λ m. IfOk result (λ n. n ≡ min (length buf.old) (length (m file) - at))) }
        ensures contents { contents_of self.new ≡ contents_of self.old }
        ensures crash { Moves Stays (clock_of self.old) (clock_of self.new)
            (left_since_of self.old) (left_since_of self.new) result }
        ensures cause { HasCause (faults_of self.old) (faults_of self.new) result }
        ensures read { IfOk result (λ n. read_of self.new ≡ option_map (changed_at file (λ r. r + n)) (read_of self.old)) }
        ensures unread { OnErr result (read_of self.new ≡ read_of self.old) }
    {
        let bytes = self.files.bytes(file);
        let start = (at as usize).min(bytes.len());
        let count = buf.len().min(bytes.len() - start);
        self.history.enter(Ok(Request::Read {
            file,
            at,
            count: count as u64,
        }))?;
        buf[..count].copy_from_slice(&bytes[start..start + count]);
        Ok(count)
    }

    fn write_at(&mut self, file: u32, at: u64, bytes: &[u8]) -> Result<(), DiskFailed>
        requires { at + length bytes.now ≤ 2 ^ 63 }
        ensures makes { Makes (Request.Write file at bytes.now) self.old self.new result }
        ensures written { OnOk result (contents_of self.new
            ≡ option_map (changed_at file (written at bytes.now)) (contents_of self.old)) }
        ensures part { OnErr result (BothTold (At file (Torn at (length bytes.now))) (contents_of self.old) (contents_of self.new)) }
        ensures others { OthersKept file (contents_of self.old) (contents_of self.new) }
        ensures at_end { 2 ^ 64 - 1 ≤ clock_of self.old → contents_of self.new ≡ contents_of self.old }
        ensures crash { Moves (At file (Torn at (length bytes.now))) (clock_of self.old) (clock_of self.new)
            (left_since_of self.old) (left_since_of self.new) result }
        ensures cause { HasCause (faults_of self.old) (faults_of self.new) result }
        ensures read { read_of self.new ≡ read_of self.old }
    {
        self.history
            .enter(Request::write(self.alloc, file, at, bytes))?;
        match self.files.write_at(file, at, bytes) {
            Ok(()) => Ok(()),
            Err(_) => self.history.undo(),
        }
    }

    fn cut(&mut self, file: u32, length: u64) -> Result<(), DiskFailed>
        ensures makes { Makes (Request.Cut file length) self.old self.new result }
        ensures shortened { OnOk result (contents_of self.new
            ≡ option_map (changed_at file (take length)) (contents_of self.old)) }
        ensures part { OnErr result (BothTold (At file (CutStep length)) (contents_of self.old) (contents_of self.new)) }
        ensures others { OthersKept file (contents_of self.old) (contents_of self.new) }
        ensures at_end { 2 ^ 64 - 1 ≤ clock_of self.old → contents_of self.new ≡ contents_of self.old }
        ensures crash { Moves (At file (CutStep length)) (clock_of self.old) (clock_of self.new)
            (left_since_of self.old) (left_since_of self.new) result }
        ensures cause { HasCause (faults_of self.old) (faults_of self.new) result }
        ensures read { read_of self.new ≡ read_of self.old }
    {
        self.history.enter(Ok(Request::Cut { file, length }))?;
        self.files.cut(file, length);
        Ok(())
    }

    fn sync(&mut self, file: u32) -> Result<(), DiskFailed>
        ensures makes { Makes (Request.Sync file) self.old self.new result }
        ensures durable { Told (contents_of self.old) (λ m. OnOk result (Only file (m file) (left_since_of self.new (clock_of self.new)))) }
        ensures contents { contents_of self.new ≡ contents_of self.old }
        ensures crash { Moves Stays (clock_of self.old) (clock_of self.new)
            (left_since_of self.old) (left_since_of self.new) result }
        ensures cause { HasCause (faults_of self.old) (faults_of self.new) result }
        ensures read { read_of self.new ≡ read_of self.old }
    {
        self.history.enter(Ok(Request::Sync { file }))
    }

    fn clock(&self) -> u64 {
        self.history.clock()
    }
}
