//! The program's surroundings as traits: a source of bytes, a sink for bytes and a host that
//! keeps files by name, each with a count of its faults; and an implementation of each in memory,
//! whose failures are chosen by the numbers of its calls.
#![tactic(auto)]

mod bytes;
mod call_counter;
mod file_map;
mod mem_host;
mod mem_sink;
mod mem_source;
mod outside;
mod raw;
#[cfg(test)]
mod tests;
mod through;
mod untold_host;
mod untold_streams;

pub use mem_host::MemHost;
pub use mem_sink::MemSink;
pub use mem_source::MemSource;
pub use outside::{Host, IoFailed, Sink, Source};
pub use raw::{RawError, RawFiles, RawReader, RawWriter};
pub use untold_host::UntoldHost;
pub use untold_streams::{UntoldSink, UntoldSource};
