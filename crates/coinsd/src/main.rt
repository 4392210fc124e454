//! The program `coinsd`: it makes the real disk, streams and host files, and hands them to the top call.
#![tactic(auto)]

mod files;
mod folder;
mod streams;

use coins_top::{Limits, Salt, Status, Words, run};
use disk_model::UntoldDisk;
use file_disk::{FolderFiles, Trouble};
use files::SystemFiles;
use folder::SystemFolder;
use io_traits::{UntoldHost, UntoldSink, UntoldSource};
use std::env;
use std::fs::File;
use std::io::{ErrorKind, Read};
use std::process::ExitCode;
use streams::{Reading, Writing};

/// How far a store may grow: 64 GiB a file, and four million headers.
const LIMITS: Limits = Limits {
    file_bytes: 68_719_476_736,
    headers: 4_194_304,
};

/// The folder of the store, in that where the program is called.
const FOLDER: &str = "regtest";

// The words of the command line, or the status for what they can't be.
fn words_of(rt: &HostRuntime) -> Result<Words, Status> {
    let args = match env::args(rt) {
        Ok(args) => args,
        Err(error) if error.kind() == ErrorKind::OutOfMemory => return Err(Status::NoMemory),
        Err(_) => return Err(Status::Usage),
    };
    let mut words = Words::new(rt.alloc());
    for arg in args.skip(1) {
        if words.push(arg.as_str()).is_err() {
            return Err(Status::NoMemory);
        }
    }
    Ok(words)
}

// Sixteen bytes that nobody outside knows, or zeros where the system gives none. No reply depends on them.
fn salt(rt: &HostRuntime) -> Salt {
    let mut bytes = [0; 16];
    if let Ok(mut source) = File::open(rt, "/dev/urandom") {
        if source.read_exact(&mut bytes).is_err() {
            bytes = [0; 16];
        }
    }
    let number = u128::from_le_bytes(bytes);
    Salt {
        a: (number & u64::MAX as u128) as u64,
        b: (number >> 64) as u64,
    }
}

// Says what went wrong at the store. Where standard error can't be written to, the status says enough.
fn tell_trouble(rt: &HostRuntime, trouble: &Trouble) {
    let _ = eprintln!(rt; "coinsd: {FOLDER}: {trouble}");
}

// Runs over the store in the folder, and says how that ended.
fn run_in_folder(rt: &HostRuntime, words: &Words) -> Status {
    let folder = SystemFolder::new(rt, rt.alloc(), ".", FOLDER);
    let files = match FolderFiles::open(rt.alloc(), folder) {
        Ok(files) => files,
        Err(trouble) => {
            tell_trouble(rt, &trouble);
            return Status::DiskFault;
        }
    };
    let mut disk = UntoldDisk::new(files);
    let mut host = UntoldHost::new(SystemFiles { system: rt });
    let mut input = UntoldSource::new(Reading { reader: rt.stdin() });
    let mut out = UntoldSink::new(Writing {
        writer: rt.stdout(),
    });
    let report = run(
        rt.alloc(),
        words,
        &mut disk,
        &mut host,
        &mut input,
        &mut out,
        &salt(rt),
        &LIMITS,
    );
    if let Some(trouble) = disk.into_inner().trouble() {
        tell_trouble(rt, trouble);
    }
    report.status
}

fn status_of(rt: &HostRuntime) -> Status {
    match words_of(rt) {
        // Other words are refused before a folder is made for them.
        Ok(words) if words.is_empty() => run_in_folder(rt, &words),
        Ok(_) => Status::Usage,
        Err(status) => status,
    }
}

// Says what a status doesn't: which words are taken, and where the store is broken or full.
fn tell_status(rt: &HostRuntime, status: Status) {
    let _ = match status {
        Status::Usage => eprintln!(rt; "usage: coinsd"),
        Status::Damaged { file, at } => {
            eprintln!(rt; "coinsd: {FOLDER}: file {file} is broken at byte {at}")
        }
        Status::Full { file } => eprintln!(rt; "coinsd: {FOLDER}: file {file} is full"),
        _ => Ok(()),
    };
}

fn main(rt: HostRuntime) -> ExitCode {
    let status = status_of(&rt);
    tell_status(&rt, status);
    ExitCode::from(status.number())
}

#[cfg(test)]
mod tests;
