//! An outpoint as a few words, which a hash map hashes faster than 36 bytes.

ghost use Rattle.std.specs.Prelude.{◌≡◌, ◌++◌};
ghost use Rattle.std.proofs.Common.{rules};
ghost use Rattle.std.specs.Hash as fed;
ghost use Rattle.std.specs.Cmp.Rules.{hashing};

use base_types::{OutPoint, Salt};
use coin_index::word;
use std::hash::{Hash, Hasher};

/// The hash and the index of an outpoint, salted.
#[derive(Clone, Copy, PartialEq, Eq)]
pub struct Words {
    first: u64,
    second: u64,
    third: u64,
    fourth: u64,
    index: u32,
}

impl Hash for Words {
    ghost hash_input = { λ w. fed.u64 w.first ++ fed.u64 w.second ++ fed.u32 w.index };

    ghost respects_eq = { Prim.search (hashing, rules) };

    fn hash<H: Hasher>(&self, state: &mut H) {
        self.first.hash(state);
        self.second.hash(state);
        self.index.hash(state);
    }
}

impl Words {
    /// The words of an outpoint.
    pub fn of(key: &OutPoint, salt: &Salt) -> Words
        ensures { result.index ≡ key.now.index }
    {
        let bytes = &key.txid.bytes;
        Words {
            first: word(bytes, 0) ^ salt.a,
            second: word(bytes, 8) ^ salt.b,
            third: word(bytes, 16),
            fourth: word(bytes, 24),
            index: key.index,
        }
    }
}
