//! What the rows of a store stand for.

use base_types::Hash32;

/// The block that the coins after a batch are those of, or the two that they lie between (`DB_BEST_BLOCK` and
/// `DB_HEAD_BLOCKS` in Bitcoin Core's `txdb.cpp`).
#[derive(Clone, Copy, Debug, PartialEq, Eq)]
pub enum Marker {
    /// The coins are those after this block.
    At { tip: Hash32 },
    /// Each outpoint has its coin after the new tip, or that after the old one.
    Between { new_tip: Hash32, old_tip: Hash32 },
}
