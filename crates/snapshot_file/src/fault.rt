//! Why bytes are refused.

ghost use Rattle.std.specs.Prelude.{◌≡◌};
ghost use Rattle.snapshot_file.specs.declared.fault.SnapFault.TheVariants.{NoMemory};

use base_types::SnapError;
use std::alloc::AllocError;

/// Why a reader went no further.
#[derive(Clone, Copy, Debug, PartialEq, Eq)]
pub enum SnapFault {
    /// No memory was left.
    NoMemory,
    /// The bytes are no snapshot: what is wrong, and its offset in the file.
    Bad { error: SnapError, at: u64 },
}

impl From<AllocError> for SnapFault {
    ghost from_gives = { λ _ fault. fault ≡ NoMemory };

    fn from(_error: AllocError) -> SnapFault {
        SnapFault::NoMemory
    }
}
