//! The program `coins_inspect`: each line of its input is a form and bytes in hexadecimal, or a form, the word `file` and the
//! name of a file, and it prints what the bytes mean, or what is wrong with them and where.
#![tactic(auto)]

mod blocks;
mod chain;
mod coins;
mod files;
mod form;
mod frames;
mod input_file;
mod log_file;
mod logs;
mod names;
mod numbers;
mod report;
mod snapshots;
mod stream;
mod words;

use anyhow::Result;
use files::read_file;
use form::Form;
use input_file::InputFile;
use report::{answer, report};
use std::fs::File;
use std::io::Write;
use stream::{print_frames, print_headers, print_log, print_refused, print_snapshot};

/// The form of block files, which are scanned and not read whole.
const FRAMES: &str = "frames";

// Prints what a file of one value means.
fn print_value(rt: &HostRuntime, form: Form, file: File) -> Result<()> {
    let mut out = Vec::new(rt.alloc());
    match read_file(rt.alloc(), file) {
        Ok(Some(bytes)) => report(rt.alloc(), &mut out, form, &bytes)?,
        Ok(None) => return print_refused(rt, "file-too-long"),
        Err(_) => return print_refused(rt, "host-fault"),
    }
    rt.stdout().write_all(&out)?;
    Ok(())
}

// Prints what a file means in the form of this name.
fn print_file(rt: &HostRuntime, name: &str, path: &str) -> Result<()> {
    let form = Form::named(name.as_bytes());
    if form.is_none() && name != FRAMES {
        return print_refused(rt, "unknown-form");
    }
    let Ok(file) = File::open(rt, path) else {
        return print_refused(rt, "host-fault");
    };
    match form {
        None => print_frames(rt, &mut InputFile::new(file)),
        Some(Form::Headers) => print_headers(rt, &mut InputFile::new(file)),
        Some(Form::Snapshot) => print_snapshot(rt, &mut InputFile::new(file)),
        Some(Form::Log(kind)) => print_log(rt, kind, file),
        Some(form) => print_value(rt, form, file),
    }
}

// Prints the answer to a line.
fn print_line(rt: &HostRuntime, line: &str) -> Result<()> {
    if let Some((name, path)) = line.split_once(" file ") {
        return print_file(rt, name, path);
    }
    if let Some((FRAMES, digits)) = line.split_once(' ') {
        return match hex::decode(rt.alloc(), digits.as_bytes()) {
            Ok(bytes) => print_frames(rt, &mut InputFile::new(bytes.as_slice())),
            Err(_) => print_refused(rt, "bad-hexadecimal"),
        };
    }
    let mut out = Vec::new(rt.alloc());
    answer(rt.alloc(), &mut out, line.as_bytes())?;
    rt.stdout().write_all(&out)?;
    Ok(())
}

fn main(rt: HostRuntime) -> Result<()> {
    for line in rt.lines(rt.alloc()) {
        let line = line?;
        print_line(&rt, line.as_str())?;
    }
    Ok(())
}
