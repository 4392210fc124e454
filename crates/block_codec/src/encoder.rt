//! Where a text goes: into a hash, into a count of bytes, or behind other bytes.

ghost use Rattle.std.specs.Prelude.{◌≡◌, ◌++◌, ◌^◌, ◌-◌, ℕ, List, [], length, min, is_ok, if◌then◌else◌};
ghost use Rattle.base_types.specs.Bytes.{hash_twice};
ghost use Rattle.sha2.specs.Hashers.{Holds256};
ghost use Rattle.block_codec.specs.Encoding.{Adds, Appended};

use base_types::Hash32;
use sha2::{Digest, Sha256};
use std::alloc::AllocError;

/// What is given a text piece by piece.
pub(crate) trait Encoder: Drop {
    // It was given this text, behind what stood there first.
    ghost holds: { Self → List ℕ → List ℕ → Type 0 };

    /// Adds bytes at the end of the text.
    fn emit(&mut self, bytes: &[u8])
        ensures { Adds holds self.old self.new bytes.now };
}

/// The SHA-256 of the SHA-256 of a text.
#[derive(Drop)]
pub(crate) struct TextHasher {
    inner: Sha256,
}

impl TextHasher {
    pub(crate) fn new() -> Self
        ensures { Holds256 result.inner [] }
    {
        TextHasher {
            inner: Sha256::new(),
        }
    }

    pub(crate) fn finish(self) -> Hash32
        ensures { (text : List ℕ) → Holds256 self.inner text → result ≡ record { bytes = hash_twice text } }
    {
        let once = self.inner.finalize();
        Hash32 {
            bytes: Sha256::digest(once.as_slice()),
        }
    }
}

impl Encoder for TextHasher {
    ghost holds = { λ hasher _ text. Holds256 hasher.inner text };

    fn emit(&mut self, bytes: &[u8]) {
        self.inner.update(bytes);
    }
}

/// The length of a text, up to 2^64 - 1.
#[derive(Drop)]
pub(crate) struct Counter {
    count: u64,
}

impl Counter {
    pub(crate) fn new() -> Self
        ensures { result.count ≡ 0 }
    {
        Counter { count: 0 }
    }

    pub(crate) fn count(&self) -> u64
        ensures { result ≡ self.now.count }
    {
        self.count
    }
}

impl Encoder for Counter {
    ghost holds = { λ counter _ text. counter.count ≡ min (length text) (2 ^ 64 - 1) };

    fn emit(&mut self, bytes: &[u8]) {
        self.count = self.count.saturating_add(bytes.len() as u64);
    }
}

/// Bytes to which a text is added. Once memory has run out no more is added.
#[derive(Drop)]
pub(crate) struct Appender {
    bytes: Vec<u8>,
    start: usize,
    failed: bool,
}

impl Appender {
    pub(crate) fn new(bytes: Vec<u8>) -> Self
        ensures { Appended result.start result.failed result.bytes.items bytes.items [] }
    {
        Appender {
            start: bytes.len(),
            bytes,
            failed: false,
        }
    }

    /// The bytes with the text, or, where memory ran out, as they were before.
    pub(crate) fn finish(self) -> (Vec<u8>, Result<(), AllocError>)
        ensures { (first text : List ℕ) → Appended self.start self.failed self.bytes.items first text →
            result.0.items ≡ (if is_ok result.1 then first ++ text else first) }
    {
        let mut bytes = self.bytes;
        if self.failed {
            bytes.truncate(self.start);
            return (bytes, Err(AllocError));
        }
        (bytes, Ok(()))
    }
}

impl Encoder for Appender {
    ghost holds = { λ appender first text. Appended appender.start appender.failed appender.bytes.items first text };

    fn emit(&mut self, bytes: &[u8]) {
        self.failed = self.failed || self.bytes.extend_from_slice(bytes).is_err();
    }
}
