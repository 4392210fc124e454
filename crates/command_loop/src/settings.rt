//! What a run is set to.

use base_types::{Limits, Rules, Salt};

/// What a run is set to: how far its store may grow, the rules where the store keeps none, how many entries of the cache make
/// a flush due, and the salt of its tables, on which no answer depends.
#[derive(Clone, Copy, Debug, PartialEq, Eq)]
pub struct RunSettings {
    pub limits: Limits,
    pub rules: Rules,
    pub cache: u32,
    pub salt: Salt,
}
