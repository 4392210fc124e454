//! Why a run stops while it answers lines.

ghost use Rattle.std.specs.Prelude.{◌≡◌};
ghost use Rattle.base_types.specs.declared.fault.StoreFault.TheVariants as fault;
ghost use Rattle.command_loop.specs.declared.stop.Stop.TheVariants.{OnStore};

use base_types::StoreFault;
use std::alloc::AllocError;

/// Why a run stops while it answers lines.
#[derive(Clone, Copy, Debug, PartialEq, Eq)]
pub(crate) enum Stop {
    /// Work on the store ended so, or no memory was left.
    OnStore(StoreFault),
    /// A write of replies failed.
    OutFault,
}

impl From<AllocError> for Stop {
    ghost from_gives = { λ _ stop. stop ≡ OnStore fault.NoMemory };

    fn from(_error: AllocError) -> Stop {
        Stop::OnStore(StoreFault::NoMemory)
    }
}

impl From<StoreFault> for Stop {
    ghost from_gives = { λ fault stop. stop ≡ OnStore fault };

    fn from(fault: StoreFault) -> Stop {
        Stop::OnStore(fault)
    }
}
