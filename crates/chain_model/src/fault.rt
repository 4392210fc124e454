//! Why a block isn't applied, and why a replay ended.

ghost use Rattle.std.specs.Prelude.{◌≡◌};
ghost use Rattle.base_types.specs.declared.fault.StoreFault.TheVariants.{NoMemory as StoreMemory};
ghost use Rattle.base_types.specs.declared.refused.CoinRefused.{CoinRefused};
ghost use Rattle.chain_model.specs.declared.fault.ConnectFault.TheVariants.{Refused as RefusedFor, Store};
ghost use Rattle.chain_model.specs.declared.fault.ReplayFault.TheVariants.{NoMemory, Refused as RefusedBlock};
ghost use Rattle.chain_model.specs.declared.fault.ApplyFault.TheVariants.{NoMemory as OutOfMemory, Refused};

use base_types::{CoinRefused, Hash32, StoreFault};
use std::alloc::AllocError;

/// Why a replay of blocks ended without coins.
#[derive(Clone, Copy, Debug, PartialEq, Eq)]
pub enum ReplayFault {
    /// No memory was left.
    NoMemory,
    /// The block of this hash breaks this rule on the coins before it, and none before it in their order.
    Refused { hash: Hash32, why: CoinRefused },
}

impl From<AllocError> for ReplayFault {
    ghost from_gives = { λ _ fault. fault ≡ NoMemory };

    fn from(_error: AllocError) -> ReplayFault {
        ReplayFault::NoMemory
    }
}

/// Why a block isn't applied to coins.
#[derive(Clone, Copy, Debug, PartialEq, Eq)]
pub enum ApplyFault {
    /// No memory was left.
    NoMemory,
    /// The block breaks this rule, and none before it.
    Refused(CoinRefused),
}

impl ApplyFault {
    /// The same, with the hash of the block.
    pub fn of_block(self, hash: Hash32) -> ReplayFault
        ensures memory { self ≡ OutOfMemory → result ≡ NoMemory }
        ensures refused { (rule : CoinRefused) → self ≡ Refused rule → result ≡ RefusedBlock hash rule }
    {
        match self {
            ApplyFault::NoMemory => ReplayFault::NoMemory,
            ApplyFault::Refused(why) => ReplayFault::Refused { hash, why },
        }
    }
}

impl From<AllocError> for ApplyFault {
    ghost from_gives = { λ _ fault. fault ≡ OutOfMemory };

    fn from(_error: AllocError) -> ApplyFault {
        ApplyFault::NoMemory
    }
}

impl From<ConnectFault> for ApplyFault {
    ghost use Rattle.chain_model.specs.Answers.{applied_fault};

    ghost from_gives = { λ fault applied. applied ≡ applied_fault fault };

    // Coins in memory have no fault but this one.
    fn from(fault: ConnectFault) -> ApplyFault {
        match fault {
            ConnectFault::Refused(rule) => ApplyFault::Refused(rule),
            ConnectFault::Store(_) => ApplyFault::NoMemory,
        }
    }
}

/// Why a block isn't connected to coins that can be changed.
#[derive(Clone, Copy, Debug, PartialEq, Eq)]
pub enum ConnectFault {
    /// The block breaks this rule, and none before it.
    Refused(CoinRefused),
    /// A call of the coins failed, or no memory was left.
    Store(StoreFault),
}

impl From<CoinRefused> for ConnectFault {
    ghost from_gives = { λ rule fault. fault ≡ RefusedFor rule };

    fn from(rule: CoinRefused) -> ConnectFault {
        ConnectFault::Refused(rule)
    }
}

impl From<StoreFault> for ConnectFault {
    ghost from_gives = { λ store fault. fault ≡ Store store };

    fn from(fault: StoreFault) -> ConnectFault {
        ConnectFault::Store(fault)
    }
}

impl From<AllocError> for ConnectFault {
    ghost from_gives = { λ _ fault. fault ≡ Store StoreMemory };

    fn from(_error: AllocError) -> ConnectFault {
        ConnectFault::Store(StoreFault::NoMemory)
    }
}
