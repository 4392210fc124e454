//! The coins that were read of a snapshot file.

ghost use Rattle.std.specs.Prelude.{◌≡◌, [], IfOk};

use base_types::{Coin, List, OutPoint};
use std::alloc::{AllocError, Global};

/// A coin of a snapshot file, with its outpoint and the offset at which the number of its output stands.
#[derive(Clone, Debug, PartialEq, Eq, Drop)]
pub struct SnapCoin {
    pub key: OutPoint,
    pub coin: Coin,
    pub at: u64,
}

/// Coins of a snapshot file, in the order in which they stand there.
pub type SnapCoins = List<SnapCoin>;

// No coins, with room for so many in one allocation.
pub(crate) fn with_room(alloc: Global, count: usize) -> Result<SnapCoins, AllocError>
    ensures { IfOk result (λ coins. coins ≡ []) }
{
    Ok(Vec::with_capacity(alloc, count)?.into())
}
