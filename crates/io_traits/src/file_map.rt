//! Files by name, in memory.

ghost use Rattle.std.specs.Prelude.{◌≡◌, ◌++◌, [], unwrap_or, position, OnOk, OnErr};
ghost use Rattle.std.specs.Option.{option_copied, option_map};
ghost use Rattle.std.specs.FinMap as map;
ghost use Rattle.io_traits.specs.Names.{same};

use crate::bytes::Bytes;
use std::alloc::{AllocError, Global};
use std::cmp::Ordering;
use std::marker::Model;

/// The bytes of each name. The files are few, so a name is looked for from the front.
#[derive(Debug, Drop)]
pub struct FileMap {
    entries: Vec<(Bytes, Bytes)>,
}

impl Model for FileMap {
    ghost use Rattle.std.specs.FinMap as map;
    ghost use Rattle.std.specs.Coded.{coded_ℕ, coded_list};
    ghost use Rattle.io_traits.specs.Host.{Files};

    ghost Value = { Files };

    ghost coded = { map.code (coded_list coded_ℕ) (coded_list coded_ℕ) };

    ghost view = { λ f. map.from_entries f.entries.items };
}

fn is_same(a: &[u8], b: &[u8]) -> bool
    ensures { result ≡ same a.now b.now }
{
    a.cmp(b) == Ordering::Equal
}

fn place_of(entries: &[(Bytes, Bytes)], name: &[u8]) -> Option<usize>
    ensures { result ≡ position (λ e. same name.now e.0) entries.now }
{
    entries
        .iter()
        .position(|entry| is_same(name, entry.0.as_slice()))
}

impl FileMap {
    /// No files.
    pub fn new(alloc: Global) -> Self
        ensures { result ≡ map.empty }
    {
        FileMap {
            entries: Vec::new(alloc),
        }
    }

    /// A name's bytes.
    pub fn get(&self, name: &[u8]) -> Option<&[u8]>
        ensures { option_map (λ bytes. bytes.now) result ≡ map.get self.now name.now }
    {
        match place_of(&self.entries, name) {
            Some(place) => Some(self.entries[place].1.as_slice()),
            None => None,
        }
    }

    /// Sets a name's bytes, in place of those that it had.
    pub fn put(&mut self, alloc: Global, name: &[u8], bytes: Bytes) -> Result<(), AllocError>
        ensures ok { OnOk result (self.new ≡ map.insert self.old name.now bytes) }
        ensures err { OnErr result (self.new ≡ self.old) }
    {
        match place_of(&self.entries, name) {
            Some(place) => self.entries[place].1 = bytes,
            None => self.entries.push((Bytes::from_slice(alloc, name)?, bytes))?,
        }
        Ok(())
    }

    /// Adds bytes at the end of a name's bytes, where an absent name has none.
    pub fn append(&mut self, alloc: Global, name: &[u8], bytes: &[u8]) -> Result<(), AllocError>
        ensures ok { let had = unwrap_or (map.get self.old name.now) [] in
            OnOk result (self.new ≡ map.insert self.old name.now (had ++ bytes.now)) }
        ensures err { OnErr result (self.new ≡ self.old) }
    {
        match place_of(&self.entries, name) {
            Some(place) => self.entries[place].1.append(bytes),
            None => {
                let added = Bytes::from_slice(alloc, bytes)?;
                self.put(alloc, name, added)
            }
        }
    }
}
