//! Why a body isn't taken.

ghost use Rattle.std.specs.Prelude.{◌≡◌};
ghost use Rattle.block_checks.specs.declared.fault.CheckFault.TheVariants.{NoMemory};

use base_types::BodyRefused;
use std::alloc::AllocError;

/// Why a check of a body ended without an Ok.
#[derive(Clone, Copy, Debug, PartialEq, Eq)]
pub enum CheckFault {
    /// No memory was left.
    NoMemory,
    /// The body breaks this rule, and none before it.
    Refused(BodyRefused),
}

impl From<AllocError> for CheckFault {
    ghost from_gives = { λ _ fault. fault ≡ NoMemory };

    fn from(_error: AllocError) -> CheckFault {
        CheckFault::NoMemory
    }
}
