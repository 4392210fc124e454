//! A folder of a system, of which no more is known than the calls that were made.

ghost use Rattle.std.specs.Prelude.{◌≡◌, ◌≤◌, ◌++◌, ◌∷◌, [], length, is_ok, option_map, is_some, IfOk, IfSome};
ghost use Rattle.std.specs.Result.{result_ok};
ghost use Rattle.std.specs.Io.{ReadsAtMost};
ghost use Rattle.file_disk.specs.Deeds.{makes_folder, locks, opens, creates, measures, writes, cuts, syncs_data, syncs_folder, reads_into};

/// A call failed. It may have done any part of its work.
#[derive(Clone, Copy, Debug, PartialEq, Eq)]
pub struct CallFailed;

/// Why a read or a write moved nothing.
#[derive(Clone, Copy, Debug, PartialEq, Eq)]
pub enum RawError {
    /// A signal came between, so the call is to be made again.
    Interrupted,
    /// The call failed.
    Failed,
}

/// The calls of a folder of numbered files. Those that aren't reads or writes are made again by the system's library where
/// a signal comes between.
pub trait RawFolder {
    ghost use Rattle.std.specs.Prelude.{List, ℕ};
    ghost use Rattle.file_disk.specs.Deeds.{Deed};

    /// A file that is open.
    type File: Drop;

    /// The calls that were made, the oldest first.
    ghost deeds: { Self → List Deed };

    /// The number that an open file was opened or made under.
    ghost number: { Self.File → ℕ };

    /// The number of an open file. It is no call.
    fn number(file: &Self::File) -> u32
        ensures { result ≡ number file.now };

    /// Makes the folder where it isn't there. What is in its place otherwise is a failure.
    fn make_folder(&mut self) -> Result<(), CallFailed>
        ensures { deeds self.new ≡ deeds self.old ++ makes_folder (is_ok result) ∷ [] };

    /// Takes the folder's lock, or answers that another holds it. It is held as long as this folder stands.
    fn lock(&mut self) -> Result<bool, CallFailed>
        ensures { deeds self.new ≡ deeds self.old ++ locks (result_ok result) ∷ [] };

    /// Opens a file to be read and written. None: there is no such file.
    fn open(&mut self, file: u32) -> Result<Option<Self::File>, CallFailed>
        ensures call { deeds self.new ≡ deeds self.old ++ opens file (option_map is_some (result_ok result)) ∷ [] }
        ensures number { IfOk result (λ found. IfSome found (λ opened. number opened ≡ file)) };

    /// Makes an empty file that wasn't there, and opens it.
    fn create(&mut self, file: u32) -> Result<Self::File, CallFailed>
        ensures call { deeds self.new ≡ deeds self.old ++ creates file (is_ok result) ∷ [] }
        ensures number { IfOk result (λ opened. number opened ≡ file) };

    /// The length of a file in bytes.
    fn len(&mut self, file: &Self::File) -> Result<u64, CallFailed>
        ensures { deeds self.new ≡ deeds self.old ++ measures (number file.now) (result_ok result) ∷ [] };

    /// Reads bytes of a file from `at` on into the front of `buf`, and answers their number. It gives none at the file's end.
    fn read_at(&mut self, file: &Self::File, at: u64, buf: &mut [u8]) -> Result<usize, RawError>
        ensures bound { ReadsAtMost result buf.new }
        ensures call { deeds self.new ≡ deeds self.old ++ reads_into (number file.now) at result buf.new ∷ [] };

    /// Writes a first part of `bytes` into a file from `at` on, and answers its length.
    fn write_at(&mut self, file: &Self::File, at: u64, bytes: &[u8]) -> Result<usize, RawError>
        ensures bound { IfOk result (λ count. count ≤ length bytes.now) }
        ensures call { deeds self.new ≡ deeds self.old ++ writes (number file.now) at bytes.now result ∷ [] };

    /// Sets the length of a file.
    fn set_len(&mut self, file: &Self::File, length: u64) -> Result<(), CallFailed>
        ensures { deeds self.new ≡ deeds self.old ++ cuts (number file.now) length (is_ok result) ∷ [] };

    /// Makes the bytes of a file durable.
    fn sync_data(&mut self, file: &Self::File) -> Result<(), CallFailed>
        ensures { deeds self.new ≡ deeds self.old ++ syncs_data (number file.now) (is_ok result) ∷ [] };

    /// Makes durable which files the folder has.
    fn sync_folder(&mut self) -> Result<(), CallFailed>
        ensures { deeds self.new ≡ deeds self.old ++ syncs_folder (is_ok result) ∷ [] };
}
