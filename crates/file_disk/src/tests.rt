//! The files of a folder over a folder in memory, which gives and takes little at a time, and fails where it is told to.

ghost use Rattle.std.specs.Prelude.{◌≡◌, ◌≤◌, IfOk, length};

use crate::{CallFailed, Deeds, FolderFiles, Operation, RawError, RawFolder, Trouble};
use disk_model::{DiskFailed, RawFiles};
use std::alloc::Global;
use std::test::Fail;

// The files, a letter for each call that was made, and the numbers of the calls that are interrupted and that fail,
// counted from 0.
#[derive(Drop)]
struct State {
    files: Vec<(u32, Vec<u8>)>,
    log: Vec<u8>,
    interrupted: usize,
    failing: usize,
    is_locked: bool,
}

impl State {
    fn new(alloc: Global, interrupted: usize, failing: usize) -> State {
        State {
            files: Vec::new(alloc),
            log: Vec::new(alloc),
            interrupted,
            failing,
            is_locked: false,
        }
    }

    fn raw_call(&mut self, letter: u8) -> Result<(), RawError> {
        let number = self.log.len();
        if self.log.push(letter).is_err() || number == self.failing {
            return Err(RawError::Failed);
        }
        if number == self.interrupted {
            return Err(RawError::Interrupted);
        }
        Ok(())
    }

    fn call(&mut self, letter: u8) -> Result<(), CallFailed> {
        match self.raw_call(letter) {
            Ok(()) => Ok(()),
            Err(_) => Err(CallFailed),
        }
    }

    fn place_of(&self, file: u32) -> Option<usize> {
        self.files.iter().position(|entry| entry.0 == file)
    }

    fn bytes_of(&mut self, file: u32) -> Option<&mut Vec<u8>> {
        for entry in self.files.iter_mut() {
            if entry.0 == file {
                return Some(&mut entry.1);
            }
        }
        None
    }

    fn create(&mut self, alloc: Global, file: u32) -> Result<(), CallFailed> {
        self.call(b'c')?;
        match self.files.push((file, Vec::new(alloc))) {
            Ok(()) => Ok(()),
            Err(_) => Err(CallFailed),
        }
    }

    // Two bytes at most.
    fn read(&mut self, file: u32, at: u64, buf: &mut [u8]) -> Result<usize, RawError>
        ensures { IfOk result (λ count. count ≤ length buf.new) }
    {
        self.raw_call(b'r')?;
        let Some(bytes) = self.bytes_of(file) else {
            return Err(RawError::Failed);
        };
        let from = bytes.len().min(at as usize);
        let count = buf.len().min(bytes.len() - from).min(2);
        buf[..count].copy_from_slice(&bytes[from..from + count]);
        Ok(count)
    }

    // Three bytes at most.
    fn write(&mut self, file: u32, at: u64, bytes: &[u8]) -> Result<usize, RawError>
        ensures { IfOk result (λ count. count ≤ length bytes.now) }
    {
        self.raw_call(b'w')?;
        let Some(held) = self.bytes_of(file) else {
            return Err(RawError::Failed);
        };
        let count = bytes.len().min(3);
        for place in 0..count {
            let to = (at as usize).saturating_add(place);
            if held.len() <= to && held.resize(to.saturating_add(1), 0).is_err() {
                return Err(RawError::Failed);
            }
            if let Some(byte) = held.get_mut(to) {
                *byte = bytes[place];
            }
        }
        Ok(count)
    }

    fn len(&mut self, file: u32) -> Result<u64, CallFailed> {
        self.call(b'n')?;
        match self.bytes_of(file) {
            Some(bytes) => Ok(bytes.len() as u64),
            None => Err(CallFailed),
        }
    }

    fn set_len(&mut self, file: u32, length: u64) -> Result<(), CallFailed> {
        self.call(b't')?;
        match self.bytes_of(file) {
            Some(bytes) => {
                bytes.truncate(length as usize);
                Ok(())
            }
            None => Err(CallFailed),
        }
    }
}

#[derive(Drop)]
struct MemFolder<'a> {
    alloc: Global,
    state: &'a mut State,
    deeds: Deeds,
}

impl<'a> RawFolder for MemFolder<'a> {
    type File = u32;

    ghost deeds = { λ folder. folder.deeds.items };

    ghost number = { λ file. file };

    fn number(file: &u32) -> u32
        ensures { result ≡ file.now }
    {
        *file
    }

    fn make_folder(&mut self) -> Result<(), CallFailed> {
        let answer = self.state.call(b'm');
        self.deeds.add_make_folder(answer.is_ok());
        answer
    }

    fn lock(&mut self) -> Result<bool, CallFailed> {
        let answer = match self.state.call(b'l') {
            Ok(()) => Ok(!self.state.is_locked),
            Err(error) => Err(error),
        };
        self.deeds.add_lock(answer);
        answer
    }

    fn open(&mut self, file: u32) -> Result<Option<u32>, CallFailed> {
        let answer = match self.state.call(b'o') {
            Ok(()) => Ok(self.state.place_of(file).is_some()),
            Err(error) => Err(error),
        };
        self.deeds.add_open(file, answer);
        match answer {
            Ok(true) => Ok(Some(file)),
            Ok(false) => Ok(None),
            Err(error) => Err(error),
        }
    }

    fn create(&mut self, file: u32) -> Result<u32, CallFailed> {
        let answer = self.state.create(self.alloc, file);
        self.deeds.add_create(file, answer.is_ok());
        match answer {
            Ok(()) => Ok(file),
            Err(error) => Err(error),
        }
    }

    fn len(&mut self, file: &u32) -> Result<u64, CallFailed> {
        let answer = self.state.len(*file);
        self.deeds.add_len(*file, answer);
        answer
    }

    fn read_at(&mut self, file: &u32, at: u64, buf: &mut [u8]) -> Result<usize, RawError> {
        let answer = self.state.read(*file, at, buf);
        self.deeds.add_read(*file, at, answer, buf);
        answer
    }

    fn write_at(&mut self, file: &u32, at: u64, bytes: &[u8]) -> Result<usize, RawError> {
        let answer = self.state.write(*file, at, bytes);
        self.deeds.add_write(*file, at, bytes, answer);
        answer
    }

    fn set_len(&mut self, file: &u32, length: u64) -> Result<(), CallFailed> {
        let answer = self.state.set_len(*file, length);
        self.deeds.add_set_len(*file, length, answer.is_ok());
        answer
    }

    fn sync_data(&mut self, file: &u32) -> Result<(), CallFailed> {
        let answer = self.state.call(b's');
        self.deeds.add_sync_data(*file, answer.is_ok());
        answer
    }

    fn sync_folder(&mut self) -> Result<(), CallFailed> {
        let answer = self.state.call(b'f');
        self.deeds.add_sync_folder(answer.is_ok());
        answer
    }
}

fn files_over<'a>(
    alloc: Global,
    state: &'a mut State,
) -> Result<FolderFiles<MemFolder<'a>>, Trouble> {
    FolderFiles::open(
        alloc,
        MemFolder {
            alloc,
            state,
            deeds: Deeds::new(),
        },
    )
}

// A call that no test makes.
const NEVER: usize = 1_000_000;

#[test]
fn bytes_are_moved_in_pieces(rt: HostRuntime) -> Result<(), Fail> {
    let alloc = rt.alloc();
    let mut state = State::new(alloc, 7, NEVER);
    {
        let mut files = files_over(alloc, &mut state).ok().ok_or("opened")?;
        let mut buf = [0; 10];
        assert_eq!(rt; files.len(7), Ok(0));
        files.write_at(7, 0, &[1, 2, 3, 4, 5, 6, 7, 8])?;
        files.sync(7)?;
        files.sync(7)?;
        assert_eq!(rt; files.read(7, 2, &mut buf), Ok(6));
        assert_eq!(rt; buf, [3, 4, 5, 6, 7, 8, 0, 0, 0, 0]);
        let mut pair = [0; 2];
        assert_eq!(rt; files.read(7, 0, &mut pair), Ok(2));
        files.cut(7, 3)?;
        files.cut(7, 5)?;
        assert_eq!(rt; files.len(7), Ok(3));
        assert_eq!(rt; files.read(8, 0, &mut buf), Ok(0));
        files.cut(8, 0)?;
        files.sync(8)?;
        assert!(rt; files.trouble().is_none());
    }
    let want = b"mlfoocwwwwfssrrrrrntnnooo";
    assert_eq!(rt; state.log.as_slice(), want.as_slice());
    Ok(())
}

#[test]
fn a_failed_call_ends_a_request(rt: HostRuntime) -> Result<(), Fail> {
    let alloc = rt.alloc();
    let mut state = State::new(alloc, NEVER, 6);
    {
        let mut files = files_over(alloc, &mut state).ok().ok_or("opened")?;
        assert_eq!(rt; files.write_at(7, 0, &[1, 2, 3, 4, 5]), Err(DiskFailed));
        assert_eq!(rt; files.len(7), Ok(3));
        let cause = files.trouble().ok_or("a trouble")?;
        assert_eq!(rt; cause.file, Some(7));
        assert_eq!(rt; cause.operation, Operation::Write);
        let text = format!(in alloc; "{cause}")?;
        assert_eq!(rt; text.as_str(), "file 7 can't be written");
        assert_eq!(rt; files.write_at(7, u64::MAX, &[1, 2]), Err(DiskFailed));
    }
    assert_eq!(rt; state.log.as_slice(), b"mlfocwwn".as_slice());
    Ok(())
}

#[test]
fn a_locked_folder_is_left_alone(rt: HostRuntime) -> Result<(), Fail> {
    let alloc = rt.alloc();
    let mut state = State::new(alloc, NEVER, NEVER);
    state.is_locked = true;
    let refused = files_over(alloc, &mut state).err().ok_or("refused")?;
    assert_eq!(rt; refused.operation, Operation::LockHeld);
    let text = format!(in alloc; "{refused}")?;
    assert_eq!(rt; text.as_str(), "the folder is in use by another run");
    assert_eq!(rt; state.log.as_slice(), b"ml".as_slice());
    Ok(())
}
