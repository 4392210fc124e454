//! Why a scan gave no block.

ghost use Rattle.std.specs.Prelude.{◌≡◌};
ghost use Rattle.frame_scan.specs.declared.fault.FrameFault.TheVariants.{NoMemory};

use std::alloc::AllocError;

/// Why `Frames::next` gave no block. None of them loses a frame, so that a further call goes on.
#[derive(Clone, Copy, Debug, PartialEq, Eq)]
pub enum FrameFault {
    /// No memory was left.
    NoMemory,
    /// A read of the host failed.
    HostFailed,
    /// 68,719,476,736 bytes were taken, and a further one is there.
    FileTooLong,
}

impl From<AllocError> for FrameFault {
    ghost from_gives = { λ _ fault. fault ≡ NoMemory };

    fn from(_error: AllocError) -> FrameFault {
        FrameFault::NoMemory
    }
}
