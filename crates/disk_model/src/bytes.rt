//! The bytes of a file.

ghost use Rattle.std.specs.Prelude.{◌≡◌, ◌+◌, ◌-◌, ◌≤◌, ◌++◌, ℕ, List, [], length, take, drop, OnOk, OnErr, IfOk};
ghost use Rattle.disk_model.specs.Disk.{written};

use std::alloc::{AllocError, Global};
use std::marker::Model;

/// The bytes of a file, or those that a call wrote.
#[derive(Drop)]
pub struct Bytes {
    bytes: Vec<u8>,
}

impl Model for Bytes {
    ghost Value = { List ℕ };

    ghost view = { λ b. b.bytes.items };
}

// Puts bytes over those that stand from `start` on.
fn overwrite(all: &mut [u8], start: usize, bytes: &[u8])
    requires { start + length bytes.now ≤ length all.old }
    ensures { all.new ≡ take start all.old ++ bytes.now ++ drop (start + length bytes.now) all.old }
{
    all[start..start + bytes.len()].copy_from_slice(bytes);
}

impl Bytes {
    /// No bytes. It takes no memory.
    pub fn new(alloc: Global) -> Bytes
        ensures { result ≡ [] }
    {
        Bytes {
            bytes: Vec::new(alloc),
        }
    }

    /// These bytes.
    pub fn from_slice(alloc: Global, bytes: &[u8]) -> Result<Bytes, AllocError>
        ensures { IfOk result (λ b. b ≡ bytes.now) }
    {
        Ok(Bytes {
            bytes: bytes.to_vec(alloc)?,
        })
    }

    /// The bytes of a vector, which it takes over.
    pub(crate) fn from_vec(bytes: Vec<u8>) -> Bytes
        ensures { result ≡ bytes.items }
    {
        Bytes { bytes }
    }

    /// The bytes, from the first on.
    pub fn as_slice(&self) -> &[u8]
        ensures { result.now ≡ self.now }
    {
        self.bytes.as_slice()
    }

    /// Writes over the bytes from `at` on, in place, and fills a gap before `at` with zeros.
    pub(crate) fn write_at(&mut self, at: u64, bytes: &[u8]) -> Result<(), AllocError>
        ensures ok { OnOk result (self.new ≡ written at bytes.now self.old) }
        ensures err { OnErr result (self.new ≡ self.old) }
    {
        let start = at as usize;
        if usize::MAX - start < bytes.len() {
            return Err(AllocError);
        }
        let end = start + bytes.len();
        if self.bytes.len() < end {
            self.bytes.resize(end, 0)?;
        }
        overwrite(&mut self.bytes, start, bytes);
        Ok(())
    }

    /// Drops the bytes from `length` on.
    pub(crate) fn cut(&mut self, length: u64)
        ensures { self.new ≡ take length self.old }
    {
        self.bytes.truncate(length as usize);
    }
}

impl Clone for Bytes {
    ghost is_clone = { λ b c. c ≡ b };

    fn clone(&self) -> Result<Bytes, AllocError> {
        Ok(Bytes {
            bytes: self.bytes.clone()?,
        })
    }
}
