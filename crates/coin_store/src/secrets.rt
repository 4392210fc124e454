//! What a store keeps from strangers.

use crate::row::Mask;
use base_types::Salt;

/// What a store is opened with that no stranger is to know or to choose.
#[derive(Clone, Copy, Debug)]
pub struct Secrets {
    /// The salt of the hash by which outpoints are found. Strangers choose the outpoints.
    pub salt: Salt,
    /// The key with which the coins of rows are obfuscated.
    pub key: Mask,
}
