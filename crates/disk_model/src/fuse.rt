//! A disk that fails after so many calls.

ghost use Rattle.std.specs.Prelude.{◌≡◌, ◌+◌, ◌-◌, ◌^◌, ◌<◌, ◌≤◌, ◌↔◌, min, length, take, drop, option_map, IsErr, IfOk, OnErr, OnOk};
ghost use Rattle.disk_model.specs.Disk.{written, changed_at, At, Torn, Cut, Stays, Moves, Only, Told, BothTold, OthersKept, HasCause};
ghost use Rattle.disk_model.specs.Fuse.{fuse_time, fuse_left};
ghost use Rattle.disk_model.specs.FuseLaws.{at_now, clamped, below};

use crate::{Disk, DiskFailed};

/// Passes so many device calls on to a disk, and fails each later one. A call that it doesn't pass
/// does nothing to the disk.
#[derive(Drop)]
pub struct FuseDisk<D: Disk> {
    inner: D,
    left: u64,
    clock: u64,
    faults: u64,
    ghost whole: { 0 < left → clock ≡ 0 },
}

impl<D: Disk> FuseDisk<D> {
    ghost use Rattle.disk_model.specs.FuseDisk.{inner_of, calls_left, own_clock, own_faults};

    /// A fuse that passes so many calls.
    pub fn new(inner: D, calls: u64) -> FuseDisk<D>
        ensures inner { inner_of result ≡ inner }
        ensures left { calls_left result ≡ calls }
        ensures clock { own_clock result ≡ 0 }
        ensures faults { own_faults result ≡ 0 }
    {
        FuseDisk {
            inner,
            left: calls,
            clock: 0,
            faults: 0,
        }
    }

    /// The disk behind the fuse.
    pub fn into_inner(self) -> D
        ensures { result ≡ inner_of self }
    {
        let FuseDisk { inner, .. } = self;
        inner
    }
}

// Takes a call off those that are left, or counts it as refused.
fn spend(left: &mut u64, clock: &mut u64, faults: &mut u64) -> Result<(), DiskFailed>
    requires { 0 < left.old → clock.old ≡ 0 }
    ensures blown { IsErr result ↔ (left.old ≡ 0) }
    ensures ok { OnOk result ((0 < left.old) × (clock.new ≡ 0) × (clock.old ≡ 0) × (faults.new ≡ faults.old)) }
    ensures err { OnErr result ((clock.new ≡ min (clock.old + 1) (2 ^ 64 - 1)) × (faults.new ≡ min (faults.old + 1) (2 ^ 64 - 1)) × (clock.old ≤ 2 ^ 64 - 1) × (faults.old ≤ 2 ^ 64 - 1)) }
    ensures whole { 0 < left.new → clock.new ≡ 0 }
    ensures spent { left.new ≡ left.old - 1 }
{
    if *left == 0 {
        *clock = clock.saturating_add(1);
        *faults = faults.saturating_add(1);
        return Err(DiskFailed);
    }
    *left -= 1;
    Ok(())
}

impl<D: Disk> Disk for FuseDisk<D> {
    ghost use Rattle.disk_model.specs.FuseDisk.{inner_of, time_of, left_since_of, faults_of, Passes};

    ghost contents = { λ f. D.contents f.inner };

    ghost left_since = { λ f t c. fuse_left (λ u b. D.left_since f.inner u b) (D.time f.inner) t c };

    ghost time = { λ f. fuse_time (D.time f.inner) f.clock };

    ghost faults = { λ f. D.faults f.inner + f.faults };

    ghost bytes_read = { λ f. D.bytes_read f.inner };

    ghost reads_as = { λ f m h. at_now (λ t. D.left_since f.inner t m) (D.time f.inner) f.clock (D.reads_as f.inner m h) };

    ghost since_earlier = { λ f t u c le in_time since. D.since_earlier f.inner (min t (D.time f.inner)) (min u (D.time f.inner)) c (clamped t u (D.time f.inner) le) (below u (D.time f.inner)) since };

    fn len(&mut self, file: u32) -> Result<u64, DiskFailed>
        ensures passes { Passes D.time D.faults self.old self.new result }
        ensures length { Told (D.contents (inner_of self.old)) (λ m. IfOk result (λ n. n ≡ length (m file))) }
        ensures contents { D.contents (inner_of self.new) ≡ D.contents (inner_of self.old) }
        ensures crash { Moves Stays (time_of D.time self.old) (time_of D.time self.new)
            (left_since_of D.time D.left_since self.old) (left_since_of D.time D.left_since self.new) result }
        ensures cause { HasCause (faults_of D.faults self.old) (faults_of D.faults self.new) result }
        ensures read { D.bytes_read (inner_of self.new) ≡ D.bytes_read (inner_of self.old) }
    {
        spend(&mut self.left, &mut self.clock, &mut self.faults)?;
        self.inner.len(file)
    }

    fn read(&mut self, file: u32, at: u64, buf: &mut [u8]) -> Result<usize, DiskFailed>
        ensures passes { Passes D.time D.faults self.old self.new result }
        ensures bound { IfOk result (λ n. n ≤ length buf.old) }
        ensures bytes { Told (D.contents (inner_of self.old)) (λ m. IfOk result (λ n. take n buf.new ≡ take (length buf.old) (drop at (m file)))) }
        ensures count { Told (D.contents (inner_of self.old)) (λ m. IfOk result (λ n. n ≡ min (length buf.old) (length (m file) - at))) }
        ensures contents { D.contents (inner_of self.new) ≡ D.contents (inner_of self.old) }
        ensures crash { Moves Stays (time_of D.time self.old) (time_of D.time self.new)
            (left_since_of D.time D.left_since self.old) (left_since_of D.time D.left_since self.new) result }
        ensures cause { HasCause (faults_of D.faults self.old) (faults_of D.faults self.new) result }
        ensures read { IfOk result (λ n. D.bytes_read (inner_of self.new)
            ≡ option_map (changed_at file (λ r. r + n)) (D.bytes_read (inner_of self.old))) }
        ensures unread { OnErr result (D.bytes_read (inner_of self.new) ≡ D.bytes_read (inner_of self.old)) }
    {
        spend(&mut self.left, &mut self.clock, &mut self.faults)?;
        self.inner.read(file, at, buf)
    }

    fn write_at(&mut self, file: u32, at: u64, bytes: &[u8]) -> Result<(), DiskFailed>
        requires { at + length bytes.now ≤ 2 ^ 63 }
        ensures passes { Passes D.time D.faults self.old self.new result }
        ensures written { OnOk result (D.contents (inner_of self.new)
            ≡ option_map (changed_at file (written at bytes.now)) (D.contents (inner_of self.old))) }
        ensures part { OnErr result (BothTold (At file (Torn at (length bytes.now))) (D.contents (inner_of self.old)) (D.contents (inner_of self.new))) }
        ensures others { OthersKept file (D.contents (inner_of self.old)) (D.contents (inner_of self.new)) }
        ensures at_end { 2 ^ 64 - 1 ≤ time_of D.time self.old → D.contents (inner_of self.new) ≡ D.contents (inner_of self.old) }
        ensures crash { Moves (At file (Torn at (length bytes.now))) (time_of D.time self.old) (time_of D.time self.new)
            (left_since_of D.time D.left_since self.old) (left_since_of D.time D.left_since self.new) result }
        ensures cause { HasCause (faults_of D.faults self.old) (faults_of D.faults self.new) result }
        ensures read { D.bytes_read (inner_of self.new) ≡ D.bytes_read (inner_of self.old) }
    {
        spend(&mut self.left, &mut self.clock, &mut self.faults)?;
        self.inner.write_at(file, at, bytes)
    }

    fn cut(&mut self, file: u32, length: u64) -> Result<(), DiskFailed>
        ensures passes { Passes D.time D.faults self.old self.new result }
        ensures shortened { OnOk result (D.contents (inner_of self.new)
            ≡ option_map (changed_at file (take length)) (D.contents (inner_of self.old))) }
        ensures part { OnErr result (BothTold (At file (Cut length)) (D.contents (inner_of self.old)) (D.contents (inner_of self.new))) }
        ensures others { OthersKept file (D.contents (inner_of self.old)) (D.contents (inner_of self.new)) }
        ensures at_end { 2 ^ 64 - 1 ≤ time_of D.time self.old → D.contents (inner_of self.new) ≡ D.contents (inner_of self.old) }
        ensures crash { Moves (At file (Cut length)) (time_of D.time self.old) (time_of D.time self.new)
            (left_since_of D.time D.left_since self.old) (left_since_of D.time D.left_since self.new) result }
        ensures cause { HasCause (faults_of D.faults self.old) (faults_of D.faults self.new) result }
        ensures read { D.bytes_read (inner_of self.new) ≡ D.bytes_read (inner_of self.old) }
    {
        spend(&mut self.left, &mut self.clock, &mut self.faults)?;
        self.inner.cut(file, length)
    }

    fn sync(&mut self, file: u32) -> Result<(), DiskFailed>
        ensures passes { Passes D.time D.faults self.old self.new result }
        ensures durable { Told (D.contents (inner_of self.old)) (λ m. OnOk result (Only file (m file) (left_since_of D.time D.left_since self.new (time_of D.time self.new)))) }
        ensures contents { D.contents (inner_of self.new) ≡ D.contents (inner_of self.old) }
        ensures crash { Moves Stays (time_of D.time self.old) (time_of D.time self.new)
            (left_since_of D.time D.left_since self.old) (left_since_of D.time D.left_since self.new) result }
        ensures cause { HasCause (faults_of D.faults self.old) (faults_of D.faults self.new) result }
        ensures read { D.bytes_read (inner_of self.new) ≡ D.bytes_read (inner_of self.old) }
    {
        spend(&mut self.left, &mut self.clock, &mut self.faults)?;
        self.inner.sync(file)
    }

    fn clock(&self) -> u64 {
        self.inner.clock().saturating_add(self.clock)
    }
}
