//! Why a block could not be read.

ghost use Rattle.std.specs.Prelude.{◌≡◌};
ghost use Rattle.block_codec.specs.declared.fault.BlockFault.TheVariants.{NoMemory};

use std::alloc::AllocError;

/// What is wrong with bytes that are no block: the first fault from left to right.
#[derive(Clone, Copy, Debug, PartialEq, Eq)]
pub enum BlockError {
    /// The bytes end within the block.
    Short,
    /// A CompactSize is longer than needed.
    LongSpelling,
    /// A length or a count is above 33,554,432.
    TooLarge,
    /// A transaction without inputs has a flag other than 0 and 1.
    BadFlag,
    /// A transaction has the form with witness, and each of its stacks is empty.
    EmptyWitness,
    /// Bytes follow the block.
    Trailing,
}

/// Why `read_block` gave no block.
#[derive(Clone, Copy, Debug, PartialEq, Eq)]
pub enum BlockFault {
    /// No memory was left.
    NoMemory,
    /// The bytes are no block. The offset is that of the field that is wrong: the end of the bytes for `Short`, the flag
    /// for `BadFlag` and `EmptyWitness`, the first byte left for `Trailing`.
    Bad { error: BlockError, at: usize },
}

impl From<AllocError> for BlockFault {
    ghost from_gives = { λ _ fault. fault ≡ NoMemory };

    fn from(_error: AllocError) -> BlockFault {
        BlockFault::NoMemory
    }
}
