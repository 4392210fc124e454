//! A folder of the system as a raw folder.

ghost use Rattle.std.specs.Prelude.{◌≡◌};

use file_disk::{CallFailed, Deeds, RawError, RawFolder};
use std::alloc::Global;
use std::fs;
use std::fs::{File, OpenOptions, TryLockError};
use std::io::{Error, ErrorKind, Result as IoResult};
use std::os::unix::fs::FileExt;
use std::rt::Files;

/// An open file, with the number that it was opened under.
#[derive(Drop)]
pub struct NumberedFile {
    file: File,
    number: u32,
}

/// A folder of the system, whose files have their numbers as names. It holds the lock that it took.
#[derive(Drop)]
pub struct SystemFolder<'a, R: Files<File = File>> {
    system: &'a R,
    alloc: Global,
    parent: &'a str,
    path: &'a str,
    lock: Option<File>,
    deeds: Deeds,
}

fn answer_of<T>(outcome: IoResult<T>) -> Result<T, CallFailed> {
    match outcome {
        Ok(value) => Ok(value),
        Err(_) => Err(CallFailed),
    }
}

fn raw_error(error: &Error) -> RawError {
    match error.kind() {
        ErrorKind::Interrupted => RawError::Interrupted,
        _ => RawError::Failed,
    }
}

impl<'a, R: Files<File = File>> SystemFolder<'a, R> {
    /// The folder of this path, which lies in `parent`. No call is made.
    pub fn new(system: &'a R, alloc: Global, parent: &'a str, path: &'a str) -> Self {
        SystemFolder {
            system,
            alloc,
            parent,
            path,
            lock: None,
            deeds: Deeds::new(),
        }
    }

    // Makes the folder where it isn't there, and makes durable that its parent has it.
    fn make(&self) -> IoResult<()> {
        match fs::create_dir(self.system, self.path) {
            Ok(()) => {}
            Err(error) if error.kind() == ErrorKind::AlreadyExists => {}
            Err(error) => return Err(error),
        }
        if !fs::metadata(self.system, self.path)?.is_dir() {
            return Err(Error::from(ErrorKind::NotADirectory));
        }
        File::open(self.system, self.parent)?.sync_all()
    }

    // Opens the file `lock` and takes its lock. None: another holds it.
    fn take_lock(&self) -> IoResult<Option<File>> {
        let folder = self.path;
        let path = format!(in self.alloc; "{folder}/lock")?;
        let file = OpenOptions::new()
            .read(true)
            .write(true)
            .create(true)
            .open(self.system, path.as_str())?;
        match file.try_lock() {
            Ok(()) => Ok(Some(file)),
            Err(TryLockError::WouldBlock) => Ok(None),
            Err(TryLockError::Error(error)) => Err(error),
        }
    }

    fn open_or_create(&self, number: u32, is_new: bool) -> IoResult<File> {
        let folder = self.path;
        let path = format!(in self.alloc; "{folder}/{number}")?;
        OpenOptions::new()
            .read(true)
            .write(true)
            .create_new(is_new)
            .open(self.system, path.as_str())
    }

    fn find(&self, number: u32) -> Result<Option<File>, CallFailed> {
        match self.open_or_create(number, false) {
            Ok(file) => Ok(Some(file)),
            Err(error) if error.kind() == ErrorKind::NotFound => Ok(None),
            Err(_) => Err(CallFailed),
        }
    }
}

impl<'a, R: Files<File = File>> RawFolder for SystemFolder<'a, R> {
    type File = NumberedFile;

    ghost deeds = { λ folder. folder.deeds.items };

    ghost number = { λ file. file.number };

    fn number(file: &NumberedFile) -> u32
        ensures { result ≡ file.now.number }
    {
        file.number
    }

    fn make_folder(&mut self) -> Result<(), CallFailed> {
        let answer = answer_of(self.make());
        self.deeds.add_make_folder(answer.is_ok());
        answer
    }

    fn lock(&mut self) -> Result<bool, CallFailed> {
        let answer = match self.take_lock() {
            Ok(lock) => {
                self.lock = lock;
                Ok(self.lock.is_some())
            }
            Err(_) => Err(CallFailed),
        };
        self.deeds.add_lock(answer);
        answer
    }

    fn open(&mut self, number: u32) -> Result<Option<NumberedFile>, CallFailed> {
        match self.find(number) {
            Ok(Some(file)) => {
                self.deeds.add_open(number, Ok(true));
                Ok(Some(NumberedFile { file, number }))
            }
            Ok(None) => {
                self.deeds.add_open(number, Ok(false));
                Ok(None)
            }
            Err(error) => {
                self.deeds.add_open(number, Err(error));
                Err(error)
            }
        }
    }

    fn create(&mut self, number: u32) -> Result<NumberedFile, CallFailed> {
        match self.open_or_create(number, true) {
            Ok(file) => {
                self.deeds.add_create(number, true);
                Ok(NumberedFile { file, number })
            }
            Err(_) => {
                self.deeds.add_create(number, false);
                Err(CallFailed)
            }
        }
    }

    fn len(&mut self, file: &NumberedFile) -> Result<u64, CallFailed> {
        let answer = match file.file.metadata() {
            Ok(metadata) => Ok(metadata.len()),
            Err(_) => Err(CallFailed),
        };
        self.deeds.add_len(file.number, answer);
        answer
    }

    fn read_at(&mut self, file: &NumberedFile, at: u64, buf: &mut [u8]) -> Result<usize, RawError> {
        let answer = match file.file.read_at(buf, at) {
            Ok(count) => Ok(count),
            Err(error) => Err(raw_error(&error)),
        };
        self.deeds.add_read(file.number, at, answer, buf);
        answer
    }

    fn write_at(&mut self, file: &NumberedFile, at: u64, bytes: &[u8]) -> Result<usize, RawError> {
        let answer = match file.file.write_at(bytes, at) {
            Ok(count) => Ok(count),
            Err(error) => Err(raw_error(&error)),
        };
        self.deeds.add_write(file.number, at, bytes, answer);
        answer
    }

    fn set_len(&mut self, file: &NumberedFile, length: u64) -> Result<(), CallFailed> {
        let answer = answer_of(file.file.set_len(length));
        self.deeds.add_set_len(file.number, length, answer.is_ok());
        answer
    }

    fn sync_data(&mut self, file: &NumberedFile) -> Result<(), CallFailed> {
        let answer = answer_of(file.file.sync_data());
        self.deeds.add_sync_data(file.number, answer.is_ok());
        answer
    }

    fn sync_folder(&mut self) -> Result<(), CallFailed> {
        let answer = match File::open(self.system, self.path) {
            Ok(folder) => answer_of(folder.sync_all()),
            Err(_) => Err(CallFailed),
        };
        self.deeds.add_sync_folder(answer.is_ok());
        answer
    }
}
