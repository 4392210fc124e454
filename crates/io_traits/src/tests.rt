//! Each fake and adapter, called through its trait's bound.

ghost use Rattle.std.specs.Prelude.{◌≤◌, None, IfOk};

use crate::{
    Host, IoFailed, MemHost, MemSink, MemSource, RawError, RawReader, RawWriter, Sink, Source,
    UntoldSink, UntoldSource,
};
use std::alloc::{AllocError, Global};
use std::test::Fail;

fn read<S: Source>(source: &mut S, buf: &mut [u8]) -> Result<usize, IoFailed> {
    source.read(buf)
}

fn write<K: Sink>(sink: &mut K, bytes: &[u8]) -> Result<(), IoFailed> {
    sink.write(bytes)
}

/// Copies a file, two bytes at a time.
fn copy<H: Host>(host: &mut H, from: &str, to: &str) -> Result<(), IoFailed> {
    host.open_in(from)?;
    host.create(to)?;
    let mut buf = [0; 2];
    for _ in 0..100 {
        let count = host.read_in(&mut buf)?;
        if count == 0 {
            break;
        }
        host.write(&buf[..count])?;
    }
    host.finish()
}

#[test]
fn a_source_gives_its_bytes_in_pieces(rt: HostRuntime) -> Result<(), Fail> {
    let mut source = MemSource::new(rt.alloc(), b"abcde", &[2, 6])?;
    let mut buf = [0; 2];
    assert_eq!(rt; read(&mut source, &mut []), Ok(0));
    let pieces = [
        Err(IoFailed),
        Ok("ab"),
        Ok("cd"),
        Ok("e"),
        Err(IoFailed),
        Ok(""),
    ];
    for piece in pieces {
        match (read(&mut source, &mut buf), piece) {
            (Ok(count), Ok(bytes)) => assert_eq!(rt; &buf[..count.min(2)], bytes.as_bytes()),
            (answer, _) => assert!(rt; answer.is_err() && piece.is_err()),
        }
    }
    Ok(())
}

#[test]
fn a_sink_keeps_what_is_written(rt: HostRuntime) -> Result<(), Fail> {
    let mut sink = MemSink::new(rt.alloc(), &[2, 4])?;
    for (piece, answer, written) in [
        ("ab", Ok(()), "ab"),
        ("cd", Err(IoFailed), "ab"),
        ("e", Ok(()), "abe"),
        ("f", Err(IoFailed), "abe"),
        ("", Ok(()), "abe"),
    ] {
        assert_eq!(rt; write(&mut sink, piece.as_bytes()), answer);
        assert_eq!(rt; sink.as_slice(), written.as_bytes());
    }
    Ok(())
}

/// Copies a file over another, where one call fails, and then once more.
fn copy_twice(alloc: Global, fail: u64, left: &str) -> Result<bool, AllocError> {
    let mut host = MemHost::new(alloc, &[fail])?;
    host.put("from", b"abcde")?;
    host.put("to", b"old")?;
    let fails = copy(&mut host, "from", "to").is_err() && host.get("to") == Some(left.as_bytes());
    let succeeds = copy(&mut host, "from", "to").is_ok() && host.get("to") == Some(b"abcde");
    Ok(fails && succeeds)
}

#[test]
fn a_copy_fails_at_each_call(rt: HostRuntime) {
    for (fail, left) in [
        (1, "old"),
        (2, "old"),
        (3, ""),
        (4, ""),
        (5, "ab"),
        (6, "ab"),
        (7, "abcd"),
        (8, "abcd"),
        (9, "abcde"),
        (10, "abcde"),
    ] {
        assert_eq!(rt; copy_twice(rt.alloc(), fail, left), Ok(true), "call {fail}");
    }
}

/// A reader and writer that answers from a list, and then fails.
#[derive(Drop)]
struct Script<'a> {
    answers: &'a [Result<usize, RawError>],
}

impl<'a> Script<'a> {
    fn answer(&mut self, most: usize) -> Result<usize, RawError>
        ensures { IfOk result (λ count. count ≤ most) }
    {
        let [answer, rest @ ..] = self.answers else {
            return Err(RawError::Failed);
        };
        self.answers = rest;
        Ok((*answer)?.min(most))
    }
}

impl<'a> RawReader for Script<'a> {
    ghost reads = { λ _. None };

    ghost name = { λ _. None };

    fn read(&mut self, buf: &mut [u8]) -> Result<usize, RawError> {
        self.answer(buf.len())
    }
}

impl<'a> RawWriter for Script<'a> {
    ghost writes = { λ _. None };

    ghost name = { λ _. None };

    fn write(&mut self, bytes: &[u8]) -> Result<usize, RawError> {
        self.answer(bytes.len())
    }
}

#[test]
fn raw_calls_are_made_again_after_a_signal(rt: HostRuntime) {
    use RawError::{Failed, Interrupted};
    let mut source = UntoldSource::new(Script {
        answers: &[
            Err(Interrupted),
            Err(Interrupted),
            Ok(2),
            Err(Failed),
            Ok(0),
        ],
    });
    let mut buf = [0; 3];
    assert_eq!(rt; read(&mut source, &mut buf), Ok(2));
    assert_eq!(rt; read(&mut source, &mut buf), Err(IoFailed));
    assert_eq!(rt; read(&mut source, &mut buf), Ok(0));
    for (answers, want) in [
        ([Ok(2), Err(Interrupted), Ok(9)], Ok(())),
        ([Ok(4), Ok(0), Ok(1)], Err(IoFailed)),
        ([Ok(4), Err(Failed), Ok(1)], Err(IoFailed)),
    ] {
        let mut sink = UntoldSink::new(Script { answers: &answers });
        assert_eq!(rt; write(&mut sink, b"abcde"), want);
    }
}
