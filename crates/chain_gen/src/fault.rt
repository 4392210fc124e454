//! Why no chain was written.

ghost use Rattle.std.specs.Prelude.{◌≡◌};
ghost use Rattle.chain_gen.specs.declared.fault.GenFault.TheVariants.{NoMemory};

use std::alloc::AllocError;

/// Why `generate` wrote no chain.
#[derive(Clone, Copy, Debug, PartialEq, Eq)]
pub enum GenFault {
    /// No memory was left.
    NoMemory,
    /// A call of the host failed.
    HostFailed,
    /// No nonce of a block meets the target.
    NoNonce,
}

impl From<AllocError> for GenFault {
    ghost from_gives = { λ _ fault. fault ≡ NoMemory };

    fn from(_error: AllocError) -> GenFault {
        GenFault::NoMemory
    }
}
