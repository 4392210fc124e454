//! The files of a disk at a moment.

ghost use Rattle.std.specs.Prelude.{◌≡◌, ◌==◌, is_some, ℕ, List, length, OnOk, OnErr, IfOk};
ghost use Rattle.std.specs.Option.{option_copied};
ghost use Rattle.std.specs.FinMap as map;
ghost use Rattle.std.specs.BTreeMap as tree;
ghost use Rattle.std.specs.List.{list_any};
ghost use Rattle.disk_model.specs.Disk.{written};
ghost use Rattle.disk_model.specs.Image.{bytes_in, cut_in};

use crate::Bytes;
use std::alloc::{AllocError, Global};
use std::collections::BTreeMap;
use std::marker::Model;

/// What the files of a disk hold, by their numbers. A file that isn't there is empty.
#[derive(Drop)]
pub struct Image {
    alloc: Global,
    files: BTreeMap<u32, Bytes>,
}

impl Model for Image {
    ghost use Rattle.std.specs.Prelude.{ℕ, List};
    ghost use Rattle.std.specs.Ordering.{nat_cmp};
    ghost use Rattle.std.specs.Coded.{coded_ℕ, coded_list};
    ghost use Rattle.std.specs.FinMap as map;

    ghost Value = { map.FinMap nat_cmp (List ℕ) };

    ghost coded = { map.code coded_ℕ (coded_list coded_ℕ) };

    ghost view = { λ i. map.from_entries i.files.entries };
}

// The keys of a tree, in their order.
fn keys_of(alloc: Global, files: &BTreeMap<u32, Bytes>) -> Result<Vec<u32>, AllocError>
    ensures { IfOk result (λ v. v.items ≡ tree.keys files.now) }
{
    files.keys().copied().collect(alloc)
}

impl Image {
    /// An image of empty files. It takes no memory.
    pub fn new(alloc: Global) -> Image
        ensures { result ≡ map.empty }
    {
        Image {
            alloc,
            files: BTreeMap::new(alloc),
        }
    }

    /// Gives a file these bytes, in place of those that it had.
    pub fn put(&mut self, file: u32, bytes: &[u8]) -> Result<(), AllocError>
        ensures ok { OnOk result (self.new ≡ map.insert self.old file bytes.now) }
        ensures err { OnErr result (self.new ≡ self.old) }
    {
        self.set(file, Bytes::from_slice(self.alloc, bytes)?)
    }

    /// Gives a file these bytes, which it takes over.
    pub(crate) fn set(&mut self, file: u32, bytes: Bytes) -> Result<(), AllocError>
        ensures ok { OnOk result (self.new ≡ map.insert self.old file bytes) }
        ensures err { OnErr result (self.new ≡ self.old) }
    {
        self.files.insert(file, bytes)?;
        Ok(())
    }

    /// The numbers of the files that are there.
    pub(crate) fn numbers(&self) -> Result<Vec<u32>, AllocError>
        ensures { IfOk result (λ v. (f : ℕ) → list_any (λ n. f == n) v.items ≡ is_some (map.get self.now f)) }
    {
        keys_of(self.alloc, &self.files)
    }

    /// The bytes that a file was given, if it was given any.
    pub fn get(&self, file: u32) -> Option<&[u8]>
        ensures { option_copied result ≡ map.get self.now file }
    {
        match self.files.get(&file) {
            Some(bytes) => Some(bytes.as_slice()),
            None => None,
        }
    }

    /// What a file reads as.
    pub(crate) fn bytes(&self, file: u32) -> &[u8]
        ensures { result.now ≡ bytes_in self.now file }
    {
        self.get(file).unwrap_or(&[])
    }

    /// Writes over a file's bytes from `at` on, and fills a gap before `at` with zeros.
    pub(crate) fn write_at(&mut self, file: u32, at: u64, bytes: &[u8]) -> Result<(), AllocError>
        ensures ok { OnOk result (self.new ≡ map.insert self.old file (written at bytes.now (bytes_in self.old file))) }
        ensures err { OnErr result (self.new ≡ self.old) }
    {
        match self.files.get_mut(&file) {
            Some(old) => old.write_at(at, bytes),
            None => {
                let mut new = Bytes::new(self.alloc);
                new.write_at(at, bytes)?;
                self.files.insert(file, new)?;
                Ok(())
            }
        }
    }

    /// Drops a file's bytes from `length` on.
    pub(crate) fn cut(&mut self, file: u32, length: u64)
        ensures { self.new ≡ cut_in self.old file length }
    {
        match self.files.get_mut(&file) {
            Some(bytes) => bytes.cut(length),
            None => {}
        }
    }
}

impl Clone for Image {
    ghost use Rattle.std.specs.Prelude.{◌≡◌};

    ghost is_clone = { λ i j. j ≡ i };

    fn clone(&self) -> Result<Image, AllocError> {
        Ok(Image {
            alloc: self.alloc,
            files: self.files.clone()?,
        })
    }
}
