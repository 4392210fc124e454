//! What a block spends, by which it can be taken back.

use base_types::{Coin, List};

/// The coins that the inputs of a transaction spend, in the inputs' order.
pub type SpentCoins = List<Coin>;

/// Per transaction of a block but the coinbase, the coins that it spends (`CBlockUndo` in Bitcoin Core's `undo.h`).
pub type BlockUndo = List<SpentCoins>;
