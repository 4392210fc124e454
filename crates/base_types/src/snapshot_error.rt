//! Why bytes are no snapshot.

use crate::refused::CoinError;

/// What is wrong with the bytes of a snapshot file: the first fault from left to right.
#[derive(Clone, Copy, Debug, PartialEq, Eq)]
pub enum SnapError {
    /// The first five bytes aren't those of a snapshot.
    BadMagic,
    /// The version isn't 2.
    BadVersion,
    /// The bytes of the network aren't regtest's.
    WrongNetwork,
    /// The file ends before its last coin.
    Short,
    /// A CompactSize is longer than needed.
    LongSpelling,
    /// A group has no coin.
    EmptyGroup,
    /// A group has more coins than are left.
    CountMismatch,
    /// The number of an output is above 33,554,432.
    BadIndex,
    /// The bytes of a coin aren't of its form.
    BadCoin(CoinError),
    /// A coin is higher than the base.
    HeightAbove,
    /// The outpoint stood before.
    Duplicate,
    /// Bytes follow the last coin.
    LeftOver,
}
