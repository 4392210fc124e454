//! Why an item was not read.

use base_types::{CoinError, ReadError, SnapError};
use coin_codec::CoinFault;

// Why an item was not read from the first of some bytes.
#[derive(Clone, Copy, Debug)]
pub(crate) enum ItemFault {
    // The bytes end within the item.
    Unfinished,
    NoMemory,
    // What is wrong, and its offset in the bytes.
    Bad { error: SnapError, at: usize },
}

impl ItemFault {
    ghost use Rattle.std.specs.Prelude.{◌≡◌};
    ghost use Rattle.base_types.specs.Reading.{Input, place};
    ghost use Rattle.snapshot_file.specs.Items.{as_stop};
    ghost use Rattle.snapshot_file.specs.ItemReading.{Says, OfCoin};

    // The fault of a field that begins there.
    pub(crate) fn of_field(error: ReadError, at: usize) -> ItemFault
        ensures { (i : Input) → place i ≡ at → Says result (as_stop i error) }
    {
        match error {
            ReadError::Short => ItemFault::Unfinished,
            ReadError::LongSpelling => ItemFault::Bad {
                error: SnapError::LongSpelling,
                at,
            },
            ReadError::TooLarge => ItemFault::Bad {
                error: SnapError::BadIndex,
                at,
            },
        }
    }

    // The fault of a coin.
    pub(crate) fn of_coin(fault: CoinFault) -> ItemFault
        ensures { OfCoin fault result }
    {
        match fault {
            CoinFault::NoMemory => ItemFault::NoMemory,
            CoinFault::Bad {
                error: CoinError::Short,
                ..
            } => ItemFault::Unfinished,
            CoinFault::Bad { error, at } => ItemFault::Bad {
                error: SnapError::BadCoin(error),
                at,
            },
        }
    }
}
