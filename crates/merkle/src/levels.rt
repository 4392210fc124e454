//! The levels of a merkle tree, each written over the one below.

ghost use Rattle.std.specs.Prelude.{◌≡◌, IfOk};
ghost use Rattle.block_codec.specs.Text.{zero_hash};
ghost use Rattle.block_codec.specs.Merkle.{level_above, has_twins as has_twins_of, merkle_root, is_mutated};

use crate::roots::Root;
use base_types::Hash32;
use block_codec::hash_of_both;
use std::alloc::{AllocError, Global};

/// The merkle root of hashes, zero for none (`ComputeMerkleRoot` in Bitcoin Core's `consensus/merkle.cpp`). It copies
/// the hashes once, and fails where no memory is left for that.
pub fn root(alloc: Global, hashes: &[Hash32]) -> Result<Root, AllocError>
    ensures { IfOk result (λ root. root ≡ record { hash = merkle_root hashes.now; mutated = is_mutated hashes.now }) }
{
    Ok(root_in_place(Vec::from_slice(alloc, hashes)?))
}

/// The same of hashes that are no longer needed. Each level is written over the one below, so it takes no memory.
pub fn root_in_place(hashes: Vec<Hash32>) -> Root
    ensures { result ≡ record { hash = merkle_root hashes.items; mutated = is_mutated hashes.items } }
{
    let mut level = hashes;
    let mut mutated = false;
    while level.len() > 1 {
        mutated |= has_twins(&level);
        rise(&mut level);
    }
    let hash = level.first().copied().unwrap_or(Hash32 { bytes: [0; 32] });
    Root { hash, mutated }
}

/// Whether two hashes of a pair are equal.
fn has_twins(hashes: &[Hash32]) -> bool
    ensures { result ≡ has_twins_of hashes.now }
{
    let mut rest = hashes;
    while let [left, right, others @ ..] = rest {
        if left == right {
            return true;
        }
        rest = others;
    }
    false
}

/// Puts the level above in a level's place. Each hash is written where no pair is left to read.
fn rise(level: &mut Vec<Hash32>)
    ensures { level.new.items ≡ level_above level.old.items }
{
    let pairs = level.len().div_ceil(2);
    for pair in 0..pairs {
        let left = level[2 * pair];
        let right = level.get(2 * pair + 1).copied().unwrap_or(left);
        level[pair] = hash_of_both(&left.bytes, &right.bytes);
    }
    level.truncate(pairs);
}
