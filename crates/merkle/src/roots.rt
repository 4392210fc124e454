//! Merkle roots.

use base_types::Hash32;

/// The root of a merkle tree.
#[derive(Clone, Copy, Debug, PartialEq, Eq)]
pub struct Root {
    pub hash: Hash32,
    /// Whether at some level two hashes of a pair are equal, before an odd last one is repeated. A list that was
    /// lengthened without changing its root has such a pair (CVE-2012-2459).
    pub mutated: bool,
}
