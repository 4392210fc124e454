//! Hashes and the names of outputs.

ghost use Rattle.std.specs.Prelude.{◌≡◌};
ghost use Rattle.base_types.specs.Bytes.{hash_twice as twice};
ghost use Rattle.base_types.specs.Keys.{outpoint_cmp};
ghost use Rattle.base_types.specs.Printed.{printed as printed_text};

use sha2::{Digest, Sha256};
use std::cmp::Ordering;

/// A hash of 32 bytes, ordered by its bytes. People see the bytes in reverse order (`printed`).
#[derive(Clone, Copy, Debug, PartialEq, Eq, PartialOrd, Ord, Hash)]
pub struct Hash32 {
    pub bytes: [u8; 32],
}

/// The name of an output: the transaction's hash and the output's place in it (Bitcoin Core's `COutPoint`).
/// Outpoints are ordered by the bytes of the hash and then by the number.
#[derive(Clone, Copy, Debug, PartialEq, Eq, PartialOrd, Ord, Hash)]
pub struct OutPoint {
    pub txid: Hash32,
    pub index: u32,
}

/// SHA-256 of the SHA-256 (FIPS 180-4), by which blocks and transactions are named.
pub fn hash_twice(bytes: &[u8]) -> Hash32
    ensures { result ≡ record { bytes = twice bytes.now } }
{
    let once = Sha256::digest(bytes);
    Hash32 {
        bytes: Sha256::digest(once.as_slice()),
    }
}

/// The order in which maps keep outpoints: by the bytes of the hash, and then by the number. It is the order of `Ord`.
pub fn outpoint_order(left: &OutPoint, right: &OutPoint) -> Ordering
    ensures { result ≡ outpoint_cmp left.now right.now }
{
    left.cmp(right)
}

impl Hash32 {
    /// The 64 lower-case hexadecimal digits that people see: the bytes in reverse order.
    pub fn printed(&self) -> [u8; 64]
        ensures { result ≡ printed_text self.now }
    {
        let mut reversed = self.bytes;
        reversed.reverse();
        let mut digits = [0; 64];
        hex::encode_to_slice(&reversed, &mut digits).unwrap();
        digits
    }
}
