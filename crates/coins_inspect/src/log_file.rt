//! A file of the system as the one file of a disk, of which only what is asked for is read.

ghost use Rattle.std.specs.Prelude.{◌≡◌, []};

use disk_model::{DiskFailed, RawFiles, Requests};
use std::fs::File;
use std::io::Result as IoResult;
use std::os::unix::fs::FileExt;

/// A file that is read at offsets, up to the length that it had when it was opened. Nothing is written into it: a call that
/// would change it fails, and a sync does nothing.
#[derive(Drop)]
pub(crate) struct LogFile {
    file: File,
    len: u64,
    has_failed: bool,
    requests: Requests,
}

impl LogFile {
    /// The file that was opened.
    pub(crate) fn new(file: File) -> IoResult<LogFile> {
        let len = file.metadata()?.len();
        Ok(LogFile {
            file,
            len,
            has_failed: false,
            requests: Requests::new(),
        })
    }

    /// How many bytes it had when it was opened.
    pub(crate) fn size(&self) -> u64
        ensures { result ≡ self.now.len }
    {
        self.len
    }

    /// Whether a call has failed.
    pub(crate) fn has_failed(&self) -> bool
        ensures { result ≡ self.now.has_failed }
    {
        self.has_failed
    }

    fn fail(&mut self) -> DiskFailed
        ensures requests { self.new.requests ≡ self.old.requests }
    {
        self.has_failed = true;
        DiskFailed
    }
}

impl RawFiles for LogFile {
    ghost requests = { λ file. file.requests.items };

    fn len(&mut self, file: u32) -> Result<u64, DiskFailed> {
        self.requests.add_len(file);
        Ok(self.len)
    }

    fn read(&mut self, file: u32, at: u64, buf: &mut [u8]) -> Result<usize, DiskFailed> {
        self.requests.add_read(file, at, buf.len());
        let count = self.len.saturating_sub(at).min(buf.len() as u64) as usize;
        match self.file.read_exact_at(&mut buf[..count], at) {
            Ok(()) => Ok(count),
            Err(_) => Err(self.fail()),
        }
    }

    fn write_at(&mut self, file: u32, at: u64, bytes: &[u8]) -> Result<(), DiskFailed> {
        self.requests.add_write(file, at, bytes);
        Err(self.fail())
    }

    fn cut(&mut self, file: u32, length: u64) -> Result<(), DiskFailed> {
        self.requests.add_cut(file, length);
        Err(self.fail())
    }

    fn sync(&mut self, file: u32) -> Result<(), DiskFailed> {
        self.requests.add_sync(file);
        Ok(())
    }
}
