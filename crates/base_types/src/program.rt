//! What a run of the program is given, and how it ends.

ghost use Rattle.std.specs.Prelude.{◌≡◌, ◌==◌, ◌++◌, [], ◌∷◌, length, OnOk, OnErr};
ghost use Rattle.base_types.specs.Statuses.{number_of};

use std::alloc::{AllocError, Global};
use std::marker::Model;

/// Numbers that nobody outside knows, by which tables are spread.
#[derive(Clone, Copy, Debug, PartialEq, Eq)]
pub struct Salt {
    pub a: u64,
    pub b: u64,
}

/// How far a store may grow: the greatest length of a file in bytes, and the number of headers with genesis.
#[derive(Clone, Copy, Debug, PartialEq, Eq)]
pub struct Limits {
    pub file_bytes: u64,
    pub headers: u32,
}

/// The heights from which four rules hold: versions of at least 4 (BIP65), the height in the coinbase (BIP34), relative
/// lock times and the median time (BIP68, BIP112, BIP113), and witnesses (BIP141). Each is at least 1.
#[derive(Clone, Copy, Debug, PartialEq, Eq)]
pub struct Rules {
    pub version4: u32,
    pub bip34: u32,
    pub csv: u32,
    pub segwit: u32,
}

/// How a run ended.
#[derive(Clone, Copy, Debug, PartialEq, Eq)]
pub enum Status {
    /// The input was read to its end and all was answered.
    Done,
    /// A call of the disk failed.
    DiskFault,
    /// The file of commitments isn't there, or couldn't be read.
    HostFault,
    /// A read of the commands failed.
    InFault,
    /// A write of the replies failed.
    OutFault,
    /// No memory was left.
    NoMemory,
    /// The record at this offset of this file is broken.
    Damaged { file: u32, at: u64 },
    /// The words of the command line aren't in their form.
    Usage,
    /// There are more bytes of commands than are taken.
    TooLong,
    /// The file would grow beyond its limit. With file 0 there is no further file number.
    Full { file: u32 },
    /// The file of commitments isn't of its form.
    BadCommitments,
    /// A cache would need more entries than it can number.
    CacheFull,
}

impl Status {
    /// The number with which the program ends.
    pub fn number(self) -> u8
        ensures { result ≡ number_of self }
    {
        match self {
            Status::Done => 0,
            Status::DiskFault => 1,
            Status::HostFault => 2,
            Status::InFault => 3,
            Status::OutFault => 4,
            Status::NoMemory => 5,
            Status::Damaged { .. } => 6,
            Status::Usage => 7,
            Status::TooLong => 8,
            Status::Full { .. } => 9,
            Status::BadCommitments => 10,
            Status::CacheFull => 12,
        }
    }
}

/// The words of the command line, without the program's name.
#[derive(Debug, Drop)]
pub struct Words {
    texts: Vec<String>,
    alloc: Global,
}

impl Model for Words {
    ghost use Rattle.std.specs.Prelude.{List, ℕ, map, string_bytes};

    ghost Value = { List (List ℕ) };

    ghost view = { λ words. map string_bytes words.texts.items };
}

impl Words {
    /// No words, which takes no memory.
    pub fn new(alloc: Global) -> Self
        ensures { result ≡ [] }
    {
        Words {
            texts: Vec::new(alloc),
            alloc,
        }
    }

    /// Adds a word at the end. Where memory runs out the words stay as they were.
    pub fn push(&mut self, word: &str) -> Result<(), AllocError>
        ensures ok { OnOk result (self.new ≡ self.old ++ word.now ∷ []) }
        ensures err { OnErr result (self.new ≡ self.old) }
    {
        let text = String::from_str(self.alloc, word)?;
        self.texts.push(text)?;
        Ok(())
    }

    /// Whether there are none.
    pub fn is_empty(&self) -> bool
        ensures { result ≡ (length self.now == 0) }
    {
        self.texts.is_empty()
    }
}
