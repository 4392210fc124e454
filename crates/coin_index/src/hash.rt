//! The salted hash of an outpoint, over words of eight bytes.
ghost use Rattle.std.specs.Prelude.{◌≡◌, ◌≢◌, ◌+◌, ◌<◌, ◌≤◌, true, false};
ghost use Rattle.coin_index.specs.Hash.{folded, eight_at, word_at, hash_of, bucket_of};

use base_types::{OutPoint, Salt};

// The halves of the product, which spreads every bit of both factors over the word.
fn fold(a: u64, b: u64) -> u64
    ensures { result ≡ folded a b }
{
    let high = (a as u128 * b as u128 >> 64) as u64;
    a.wrapping_mul(b) ^ high
}

/// The eight bytes of a hash from `at` on as a number, the lowest first.
pub fn word(bytes: &[u8; 32], at: usize) -> u64
    requires { at + 8 ≤ 32 }
    ensures { result ≡ word_at bytes.now at }
{
    u64::from_le_bytes([
        bytes[at],
        bytes[at + 1],
        bytes[at + 2],
        bytes[at + 3],
        bytes[at + 4],
        bytes[at + 5],
        bytes[at + 6],
        bytes[at + 7],
    ])
}

fn hash(salt: &Salt, key: &OutPoint) -> u64
    ensures { result ≡ hash_of salt.now key.now }
{
    let bytes = &key.txid.bytes;
    let low = fold(word(bytes, 0) ^ salt.a, word(bytes, 8) ^ salt.b);
    let high = fold(word(bytes, 16) ^ salt.b, word(bytes, 24) ^ salt.a);
    fold(low ^ key.index as u64, high ^ 0x9e37_79b9_7f4a_7c15)
}

/// The bucket of a key among `count` buckets: as far among them as the hash is among all words, for which no division
/// is needed.
pub(crate) fn bucket(salt: &Salt, key: &OutPoint, count: usize) -> usize
    requires { 0 < count }
    ensures bucket { result ≡ bucket_of salt.now count key.now }
    ensures below { result < count }
{
    (hash(salt, key) as u128 * count as u128 >> 64) as usize
}

// Whether the eight bytes from `at` on are the same.
fn has_same_word(a: &[u8; 32], b: &[u8; 32], at: usize) -> bool
    requires { at + 8 ≤ 32 }
    ensures same { result ≡ true → eight_at a.now at ≡ eight_at b.now at }
    ensures other { result ≡ false → a.now ≢ b.now }
{
    word(a, at) == word(b, at)
}

// Word by word, which is faster than byte by byte.
fn has_same_bytes(a: &[u8; 32], b: &[u8; 32]) -> bool
    ensures same { result ≡ true → a.now ≡ b.now }
    ensures other { result ≡ false → a.now ≢ b.now }
{
    has_same_word(a, b, 0)
        && has_same_word(a, b, 8)
        && has_same_word(a, b, 16)
        && has_same_word(a, b, 24)
}

/// Whether two keys are the same.
pub(crate) fn is_same(a: &OutPoint, b: &OutPoint) -> bool
    ensures same { result ≡ true → a.now ≡ b.now }
    ensures other { result ≡ false → a.now ≢ b.now }
{
    a.index == b.index && has_same_bytes(&a.txid.bytes, &b.txid.bytes)
}
