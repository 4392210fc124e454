//! Why a coin could not be read.

ghost use Rattle.std.specs.Prelude.{◌≡◌};
ghost use Rattle.coin_codec.specs.declared.fault.CoinFault.TheVariants.{NoMemory, Bad};

use base_types::CoinError;
use std::alloc::AllocError;

/// Why no coin was read.
#[derive(Clone, Copy, Debug, PartialEq, Eq)]
pub enum CoinFault {
    /// No memory was left for the script.
    NoMemory,
    /// The bytes are no coin: what is wrong, and its offset.
    Bad { error: CoinError, at: usize },
}

/// What is wrong with bytes that are no coin or no part of one, and its offset.
#[derive(Clone, Copy, Debug, PartialEq, Eq)]
pub struct BadCoin {
    pub error: CoinError,
    pub at: usize,
}

impl From<AllocError> for CoinFault {
    ghost from_gives = { λ _ fault. fault ≡ NoMemory };

    fn from(_error: AllocError) -> CoinFault {
        CoinFault::NoMemory
    }
}

impl From<BadCoin> for CoinFault {
    ghost from_gives = { λ bad fault. fault ≡ Bad bad.error bad.at };

    fn from(bad: BadCoin) -> CoinFault {
        CoinFault::Bad {
            error: bad.error,
            at: bad.at,
        }
    }
}
