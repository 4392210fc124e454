//! The adapters over real files.

use crate::files::SystemFiles;
use crate::folder::SystemFolder;
use crate::streams::{Reading, Writing};
use disk_model::RawFiles;
use file_disk::{FolderFiles, Operation};
use io_traits::{Host, Sink, Source, UntoldHost, UntoldSink, UntoldSource};
use std::fs;
use std::fs::File;
use std::test::Fail;

// A file that is written, and read in pieces by the name that it was given.
#[test]
fn files_are_written_and_read(rt: HostRuntime) -> Result<(), Fail> {
    let mut host = UntoldHost::new(SystemFiles { system: &rt });
    let mut buf = [0; 4];
    assert!(rt; host.write(b"nothing").is_ok());
    assert_eq!(rt; host.read_in(&mut buf), Ok(0));
    assert!(rt; host.open_in("a.dat").is_err());
    assert!(rt; host.create("a.dat").is_ok());
    assert!(rt; host.write(b"blo").is_ok());
    assert!(rt; host.write(b"ck").is_ok());
    assert!(rt; host.finish().is_ok());
    assert!(rt; host.finish().is_ok());
    assert!(rt; host.open_in("a.dat").is_ok());
    assert_eq!(rt; host.read_in(&mut buf), Ok(4));
    assert_eq!(rt; buf.as_slice(), b"bloc".as_slice());
    assert_eq!(rt; host.read_in(&mut buf), Ok(1));
    assert_eq!(rt; host.read_in(&mut buf), Ok(0));
    assert!(rt; host.open_in("b.dat").is_err());
    assert_eq!(rt; host.read_in(&mut buf), Ok(0));
    assert!(rt; host.create("no/such/folder").is_err());
    Ok(())
}

// The streams' adapters over a real file: what is written is read, and a file that can't be read fails.
#[test]
fn streams_read_and_write(rt: HostRuntime) -> Result<(), Fail> {
    let mut buf = [0; 8];
    let file = File::create(&rt, "c.dat").ok().ok_or("created")?;
    let mut sink = UntoldSink::new(Writing { writer: file });
    assert!(rt; sink.write(b"reply\n").is_ok());
    let reader = File::open(&rt, "c.dat").ok().ok_or("opened")?;
    let mut source = UntoldSource::new(Reading { reader });
    assert_eq!(rt; source.read(&mut buf), Ok(6));
    assert_eq!(rt; source.read(&mut buf), Ok(0));
    let writer = File::open(&rt, "c.dat").ok().ok_or("opened")?;
    let mut unwritable = UntoldSink::new(Writing { writer });
    assert!(rt; unwritable.write(b"x").is_err());
    let reader = File::open(&rt, ".").ok().ok_or("opened")?;
    let mut folder = UntoldSource::new(Reading { reader });
    assert!(rt; folder.read(&mut buf).is_err());
    Ok(())
}

// A folder whose files are written and read by number, and that no second one can take.
#[test]
fn a_folder_keeps_numbered_files(rt: HostRuntime) -> Result<(), Fail> {
    let alloc = rt.alloc();
    let folder = SystemFolder::new(&rt, alloc, ".", "numbered");
    let mut files = FolderFiles::open(alloc, folder).ok().ok_or("opened")?;
    let mut buf = [9; 8];
    assert_eq!(rt; files.len(1), Ok(0));
    assert!(rt; files.write_at(1, 2, b"coins").is_ok());
    assert!(rt; files.sync(1).is_ok());
    assert_eq!(rt; files.read(1, 0, &mut buf), Ok(7));
    assert_eq!(rt; buf, *b"\0\0coins\x09");
    assert!(rt; files.cut(1, 4).is_ok());
    assert!(rt; files.cut(1, 6).is_ok());
    assert_eq!(rt; files.len(1), Ok(4));
    assert!(rt; files.trouble().is_none());
    let second = SystemFolder::new(&rt, alloc, ".", "numbered");
    let refused = FolderFiles::open(alloc, second).err().ok_or("refused")?;
    assert_eq!(rt; refused.operation, Operation::LockHeld);
    Ok(())
}

// A file stands in the folder's place.
#[test]
fn a_file_is_no_folder(rt: HostRuntime) -> Result<(), Fail> {
    let alloc = rt.alloc();
    fs::write(&rt, "taken", "a file").ok().ok_or("written")?;
    let folder = SystemFolder::new(&rt, alloc, ".", "taken");
    let refused = FolderFiles::open(alloc, folder).err().ok_or("refused")?;
    assert_eq!(rt; refused.operation, Operation::MakeFolder);
    Ok(())
}
