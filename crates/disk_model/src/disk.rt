//! A disk of numbered files, by what its calls do and what a crash at any moment may leave.

ghost use Rattle.std.specs.Prelude.{◌≡◌, ◌+◌, ◌-◌, ◌^◌, ◌≤◌, ℕ, List, Option, Some, length, take, drop, min, option_map, IfOk, OnOk, OnErr};
ghost use Rattle.disk_model.specs.Disk.{written, changed_at, At, Torn, Cut, Stays, Moves, Only, Told, BothTold, OthersKept, HasCause};

/// A device call failed. It may have done any part of its work.
#[derive(Clone, Copy, Debug, PartialEq, Eq)]
pub struct DiskFailed;

/// A disk of numbered files. A file that was never written is empty.
///
/// Each of the five calls that take `&mut self` is a device call: it takes time, and a crash may
/// stand at any moment of it. A call that finds the clock at `u64::MAX` fails, does nothing and
/// leaves the clock. Every other device call moves the clock on.
pub trait Disk {
    /// What each file reads as, where the disk tells it.
    ghost contents: { Self → Option (ℕ → List ℕ) };

    /// Whether a crash at some moment since that time may have left this image.
    ghost left_since: { Self → ℕ → (ℕ → List ℕ) → Type 0 };

    /// The reading of the clock.
    ghost time: { Self → ℕ };

    /// How often the disk has failed.
    ghost faults: { Self → ℕ };

    /// How many bytes were read of each file, where the disk tells it.
    ghost bytes_read: { Self → Option (ℕ → ℕ) };

    /// The length of a file in bytes.
    fn len(&mut self, file: u32) -> Result<u64, DiskFailed>
        ensures length { Told (contents self.old) (λ m. IfOk result (λ n. n ≡ length (m file))) }
        ensures contents { contents self.new ≡ contents self.old }
        ensures crash { Moves Stays (time self.old) (time self.new)
            (left_since self.old) (left_since self.new) result }
        ensures cause { HasCause (faults self.old) (faults self.new) result }
        ensures read { bytes_read self.new ≡ bytes_read self.old };

    /// Reads the bytes of a file from `at` on into `buf`, as many as fit and stand before the end,
    /// and answers their number.
    fn read(&mut self, file: u32, at: u64, buf: &mut [u8]) -> Result<usize, DiskFailed>
        ensures bound { IfOk result (λ n. n ≤ length buf.old) }
        ensures bytes { Told (contents self.old) (λ m. IfOk result (λ n. take n buf.new ≡ take (length buf.old) (drop at (m file)))) }
        ensures count { Told (contents self.old) (λ m. IfOk result (λ n. n ≡ min (length buf.old) (length (m file) - at))) }
        ensures contents { contents self.new ≡ contents self.old }
        ensures crash { Moves Stays (time self.old) (time self.new)
            (left_since self.old) (left_since self.new) result }
        ensures cause { HasCause (faults self.old) (faults self.new) result }
        ensures read { IfOk result (λ n. bytes_read self.new
            ≡ option_map (changed_at file (λ r. r + n)) (bytes_read self.old)) }
        ensures unread { OnErr result (bytes_read self.new ≡ bytes_read self.old) };

    /// Writes bytes into a file from `at` on. A gap between the file's end and `at` is filled with
    /// zero bytes.
    fn write_at(&mut self, file: u32, at: u64, bytes: &[u8]) -> Result<(), DiskFailed>
        requires { at + length bytes.now ≤ 2 ^ 63 }
        ensures written { OnOk result (contents self.new
            ≡ option_map (changed_at file (written at bytes.now)) (contents self.old)) }
        ensures part { OnErr result (BothTold (At file (Torn at (length bytes.now))) (contents self.old) (contents self.new)) }
        ensures others { OthersKept file (contents self.old) (contents self.new) }
        ensures at_end { 2 ^ 64 - 1 ≤ time self.old → contents self.new ≡ contents self.old }
        ensures crash { Moves (At file (Torn at (length bytes.now))) (time self.old) (time self.new)
            (left_since self.old) (left_since self.new) result }
        ensures cause { HasCause (faults self.old) (faults self.new) result }
        ensures read { bytes_read self.new ≡ bytes_read self.old };

    /// Shortens a file to `length` bytes. A file that isn't longer stays as it is.
    fn cut(&mut self, file: u32, length: u64) -> Result<(), DiskFailed>
        ensures shortened { OnOk result (contents self.new
            ≡ option_map (changed_at file (take length)) (contents self.old)) }
        ensures part { OnErr result (BothTold (At file (Cut length)) (contents self.old) (contents self.new)) }
        ensures others { OthersKept file (contents self.old) (contents self.new) }
        ensures at_end { 2 ^ 64 - 1 ≤ time self.old → contents self.new ≡ contents self.old }
        ensures crash { Moves (At file (Cut length)) (time self.old) (time self.new)
            (left_since self.old) (left_since self.new) result }
        ensures cause { HasCause (faults self.old) (faults self.new) result }
        ensures read { bytes_read self.new ≡ bytes_read self.old };

    /// Makes durable what a file reads as.
    fn sync(&mut self, file: u32) -> Result<(), DiskFailed>
        ensures durable { Told (contents self.old) (λ m. OnOk result (Only file (m file) (left_since self.new (time self.new)))) }
        ensures contents { contents self.new ≡ contents self.old }
        ensures crash { Moves Stays (time self.old) (time self.new)
            (left_since self.old) (left_since self.new) result }
        ensures cause { HasCause (faults self.old) (faults self.new) result }
        ensures read { bytes_read self.new ≡ bytes_read self.old };

    /// The reading of the clock. It is no device call.
    fn clock(&self) -> u64
        ensures { result ≡ time self.now };

    /// As it reads, the disk is one of the images that a crash may leave now.
    ghost reads_as: { (disk : Self) (m : ℕ → List ℕ) → contents disk ≡ Some m → left_since disk (time disk) m };

    /// What a crash since a moment may have left, a crash since any earlier moment may have left.
    ghost since_earlier: { (disk : Self) (t u : ℕ) (c : ℕ → List ℕ) → t ≤ u → u ≤ time disk → left_since disk u c → left_since disk t c };
}
