//! A source and a sink over a raw reader and writer. They tell nothing of the bytes beyond them, and count each failure.

ghost use Rattle.std.specs.Prelude.{◌≡◌, None, OnOk, OnErr};
ghost use Rattle.std.specs.Io.{ReadsAtMost};
ghost use Rattle.io_traits.specs.Causes.{HasCause};
ghost use Rattle.io_traits.specs.RawCalls.{ReadsThrough, WritesThrough};
ghost use Rattle.io_traits.specs.Told.{OnTold};

use crate::outside::{IoFailed, Sink, Source};
use crate::raw::{RawReader, RawWriter};
use crate::through::{count_fault, read_through, write_through};

/// A source over a reader.
#[derive(Drop)]
pub struct UntoldSource<R: RawReader + Drop> {
    reader: R,
    faults: u64,
}

impl<R: RawReader + Drop> UntoldSource<R> {
    ghost use Rattle.io_traits.specs.Adapters.{reader_of};

    /// No call was made through it.
    pub fn new(reader: R) -> Self
        ensures { reader_of result ≡ reader }
    {
        UntoldSource { reader, faults: 0 }
    }
}

impl<R: RawReader + Drop> Source for UntoldSource<R> {
    ghost use Rattle.io_traits.specs.Adapters.{reader_of};

    ghost left = { λ _. None };

    ghost faults = { λ source. source.faults };

    fn read(&mut self, buf: &mut [u8]) -> Result<usize, IoFailed>
        ensures calls { OnTold (R.reads (reader_of self.old)) (R.reads (reader_of self.new)) (ReadsThrough result buf.new) }
        ensures bound { ReadsAtMost result buf.new }
        ensures cause { HasCause self.old.faults self.new.faults result }
    {
        count_fault(&mut self.faults, read_through(&mut self.reader, buf))
    }
}

/// A sink over a writer.
#[derive(Drop)]
pub struct UntoldSink<W: RawWriter + Drop> {
    writer: W,
    faults: u64,
}

impl<W: RawWriter + Drop> UntoldSink<W> {
    ghost use Rattle.io_traits.specs.Adapters.{writer_of};

    /// No call was made through it.
    pub fn new(writer: W) -> Self
        ensures { writer_of result ≡ writer }
    {
        UntoldSink { writer, faults: 0 }
    }
}

impl<W: RawWriter + Drop> Sink for UntoldSink<W> {
    ghost use Rattle.io_traits.specs.Adapters.{writer_of};

    ghost written = { λ _. None };

    ghost faults = { λ sink. sink.faults };

    fn write(&mut self, bytes: &[u8]) -> Result<(), IoFailed>
        ensures calls { OnTold (W.writes (writer_of self.old)) (W.writes (writer_of self.new)) (WritesThrough bytes.now result) }
        ensures cause { HasCause self.old.faults self.new.faults result }
    {
        count_fault(&mut self.faults, write_through(&mut self.writer, bytes))
    }
}
