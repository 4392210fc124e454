//! Proof of work (`CheckProofOfWork` in Bitcoin Core's `pow.cpp`).

ghost use Rattle.std.specs.Prelude.{◌≡◌, true, false, ◌<◌, nat_lt};
ghost use Rattle.base_types.specs.Parameters.{target};
ghost use Rattle.chain_model.specs.HeaderRules.{number_of, meets_target as is_low};

use base_types::{Hash32, TARGET};

// What two numbers' next higher bytes make of the answer of the lower ones.
fn exceeds_here(below: bool, byte: u8, other: u8) -> bool
    ensures same { byte ≡ other → result ≡ below }
    ensures more { other < byte → result ≡ true }
    ensures less { byte < other → result ≡ false }
    ensures small { byte < 256 }
{
    if byte == other { below } else { byte > other }
}

fn exceeds_target(hash: &Hash32) -> bool
    ensures { result ≡ nat_lt target (number_of hash.now.bytes) }
{
    let mut exceeds = false;
    for i in 0..32 {
        exceeds = exceeds_here(exceeds, hash.bytes[i], TARGET[i]);
    }
    exceeds
}

/// Whether a block's hash is no greater than the target, as a number whose lowest byte stands first.
pub fn meets_target(hash: &Hash32) -> bool
    ensures { result ≡ is_low hash.now }
{
    !exceeds_target(hash)
}
