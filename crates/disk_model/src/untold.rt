//! A disk over real files: it tells nothing of what they hold, and asks them for just what it is asked.

ghost use Rattle.std.specs.Prelude.{◌≡◌, ◌+◌, ◌-◌, ◌^◌, ◌≤◌, ◌<◌, ◌++◌, ◌∷◌, [], List, None, min, length, take, drop, IsErr, IfOk, OnOk, OnErr, option_map};
ghost use Rattle.disk_model.specs.Disk.{written, changed_at, At, Torn, Cut as CutStep, Stays, Moves, Only, Told, BothTold, OthersKept, HasCause};
ghost use Rattle.disk_model.specs.Untold.{no_image};
ghost use Rattle.disk_model.specs.Untold.{none_told};

use crate::{Disk, DiskFailed, Request};

/// The calls of real files, of which nothing is known but that they were made.
pub trait RawFiles {
    ghost use Rattle.disk_model.specs.declared.call.Request.{Request};

    /// What was asked of the files, the oldest request first. That of a read has the length of its buffer.
    ghost requests: { Self → List Request };

    fn len(&mut self, file: u32) -> Result<u64, DiskFailed>
        ensures { requests self.new ≡ requests self.old ++ Request.Len file ∷ [] };

    fn read(&mut self, file: u32, at: u64, buf: &mut [u8]) -> Result<usize, DiskFailed>
        ensures { requests self.new ≡ requests self.old ++ Request.Read file at (length buf.old) ∷ [] };

    fn write_at(&mut self, file: u32, at: u64, bytes: &[u8]) -> Result<(), DiskFailed>
        ensures { requests self.new ≡ requests self.old ++ Request.Write file at bytes.now ∷ [] };

    fn cut(&mut self, file: u32, length: u64) -> Result<(), DiskFailed>
        ensures { requests self.new ≡ requests self.old ++ Request.Cut file length ∷ [] };

    fn sync(&mut self, file: u32) -> Result<(), DiskFailed>
        ensures { requests self.new ≡ requests self.old ++ Request.Sync file ∷ [] };
}

/// A disk over real files. It tells neither its contents nor the bytes read, and says nothing of
/// crashes: it promises the bound of a read, the count of faults, the clock, and that each device
/// call asks the files for just this. One that finds the clock at its end asks them for nothing.
#[derive(Drop)]
pub struct UntoldDisk<F: RawFiles> {
    files: F,
    clock: u64,
    faults: u64,
}

impl<F: RawFiles> UntoldDisk<F> {
    ghost use Rattle.disk_model.specs.UntoldDisk.{raw_of, clock_of, faults_of};

    /// A disk over these files, at the reading 0 of its clock.
    pub fn new(files: F) -> UntoldDisk<F>
        ensures files { raw_of result ≡ files }
        ensures clock { clock_of result ≡ 0 }
        ensures faults { faults_of result ≡ 0 }
    {
        UntoldDisk {
            files,
            clock: 0,
            faults: 0,
        }
    }

    /// The files behind it.
    pub fn into_inner(self) -> F
        ensures { result ≡ raw_of self }
    {
        let UntoldDisk { files, .. } = self;
        files
    }
}

// Counts a device call. It fails at the last reading of the clock.
fn tick(clock: &mut u64, faults: &mut u64) -> Result<(), DiskFailed>
    ensures in_time { clock.old ≤ 2 ^ 64 - 1 }
    ensures ticks { clock.new ≡ min (clock.old + 1) (2 ^ 64 - 1) }
    ensures at_end { 2 ^ 64 - 1 ≤ clock.old → IsErr result }
    ensures cause { HasCause faults.old faults.new result }
    ensures ok { OnOk result (clock.old < 2 ^ 64 - 1) }
    ensures err { OnErr result (2 ^ 64 - 1 ≤ clock.old) }
{
    if *clock == u64::MAX {
        *faults = faults.saturating_add(1);
        return Err(DiskFailed);
    }
    *clock += 1;
    Ok(())
}

// Counts a fault, if the call failed.
fn noted<T>(faults: &mut u64, answer: Result<T, DiskFailed>) -> Result<T, DiskFailed>
    ensures same { result ≡ answer }
    ensures cause { HasCause faults.old faults.new result }
{
    match answer {
        Ok(value) => Ok(value),
        Err(error) => {
            *faults = faults.saturating_add(1);
            Err(error)
        }
    }
}

impl<F: RawFiles> Disk for UntoldDisk<F> {
    ghost use Rattle.disk_model.specs.UntoldDisk.{raw_of, clock_of, faults_of, contents_of, left_since_of, read_of, Asks};

    ghost contents = { λ d. None };

    ghost left_since = { λ d t c. no_image };

    ghost time = { λ d. d.clock };

    ghost faults = { λ d. d.faults };

    ghost bytes_read = { λ d. None };

    ghost reads_as = { λ d m is. none_told m is };

    ghost since_earlier = { λ d t u c le within left. left };

    fn len(&mut self, file: u32) -> Result<u64, DiskFailed>
        ensures asks { Asks F.requests (Request.Len file) self.old self.new }
        ensures length { Told (contents_of self.old) (λ m. IfOk result (λ n. n ≡ length (m file))) }
        ensures contents { contents_of self.new ≡ contents_of self.old }
        ensures crash { Moves Stays (clock_of self.old) (clock_of self.new)
            (left_since_of self.old) (left_since_of self.new) result }
        ensures cause { HasCause (faults_of self.old) (faults_of self.new) result }
        ensures read { read_of self.new ≡ read_of self.old }
    {
        tick(&mut self.clock, &mut self.faults)?;
        noted(&mut self.faults, self.files.len(file))
    }

    fn read(&mut self, file: u32, at: u64, buf: &mut [u8]) -> Result<usize, DiskFailed>
        ensures asks { Asks F.requests (Request.Read file at (length buf.old)) self.old self.new }
        ensures bound { IfOk result (λ n. n ≤ length buf.old) }
        ensures bytes { Told (contents_of self.old) (λ m. IfOk result (λ n. take n buf.new ≡ take (length buf.old) (drop at (m file)))) }
        ensures count { Told (contents_of self.old) (λ m. IfOk result (λ n. n ≡ min (length buf.old) (length (m file) - at))) }
        ensures contents { contents_of self.new ≡ contents_of self.old }
        ensures crash { Moves Stays (clock_of self.old) (clock_of self.new)
            (left_since_of self.old) (left_since_of self.new) result }
        ensures cause { HasCause (faults_of self.old) (faults_of self.new) result }
        ensures read { IfOk result (λ n. read_of self.new ≡ option_map (changed_at file (λ r. r + n)) (read_of self.old)) }
        ensures unread { OnErr result (read_of self.new ≡ read_of self.old) }
    {
        tick(&mut self.clock, &mut self.faults)?;
        let count = noted(&mut self.faults, self.files.read(file, at, buf))?;
        Ok(count.min(buf.len()))
    }

    fn write_at(&mut self, file: u32, at: u64, bytes: &[u8]) -> Result<(), DiskFailed>
        requires { at + length bytes.now ≤ 2 ^ 63 }
        ensures asks { Asks F.requests (Request.Write file at bytes.now) self.old self.new }
        ensures written { OnOk result (contents_of self.new
            ≡ option_map (changed_at file (written at bytes.now)) (contents_of self.old)) }
        ensures part { OnErr result (BothTold (At file (Torn at (length bytes.now))) (contents_of self.old) (contents_of self.new)) }
        ensures others { OthersKept file (contents_of self.old) (contents_of self.new) }
        ensures at_end { 2 ^ 64 - 1 ≤ clock_of self.old → contents_of self.new ≡ contents_of self.old }
        ensures crash { Moves (At file (Torn at (length bytes.now))) (clock_of self.old) (clock_of self.new)
            (left_since_of self.old) (left_since_of self.new) result }
        ensures cause { HasCause (faults_of self.old) (faults_of self.new) result }
        ensures read { read_of self.new ≡ read_of self.old }
    {
        tick(&mut self.clock, &mut self.faults)?;
        noted(&mut self.faults, self.files.write_at(file, at, bytes))
    }

    fn cut(&mut self, file: u32, length: u64) -> Result<(), DiskFailed>
        ensures asks { Asks F.requests (Request.Cut file length) self.old self.new }
        ensures shortened { OnOk result (contents_of self.new
            ≡ option_map (changed_at file (take length)) (contents_of self.old)) }
        ensures part { OnErr result (BothTold (At file (CutStep length)) (contents_of self.old) (contents_of self.new)) }
        ensures others { OthersKept file (contents_of self.old) (contents_of self.new) }
        ensures at_end { 2 ^ 64 - 1 ≤ clock_of self.old → contents_of self.new ≡ contents_of self.old }
        ensures crash { Moves (At file (CutStep length)) (clock_of self.old) (clock_of self.new)
            (left_since_of self.old) (left_since_of self.new) result }
        ensures cause { HasCause (faults_of self.old) (faults_of self.new) result }
        ensures read { read_of self.new ≡ read_of self.old }
    {
        tick(&mut self.clock, &mut self.faults)?;
        noted(&mut self.faults, self.files.cut(file, length))
    }

    fn sync(&mut self, file: u32) -> Result<(), DiskFailed>
        ensures asks { Asks F.requests (Request.Sync file) self.old self.new }
        ensures durable { Told (contents_of self.old) (λ m. OnOk result (Only file (m file) (left_since_of self.new (clock_of self.new)))) }
        ensures contents { contents_of self.new ≡ contents_of self.old }
        ensures crash { Moves Stays (clock_of self.old) (clock_of self.new)
            (left_since_of self.old) (left_since_of self.new) result }
        ensures cause { HasCause (faults_of self.old) (faults_of self.new) result }
        ensures read { read_of self.new ≡ read_of self.old }
    {
        tick(&mut self.clock, &mut self.faults)?;
        noted(&mut self.faults, self.files.sync(file))
    }

    fn clock(&self) -> u64 {
        self.clock
    }
}
