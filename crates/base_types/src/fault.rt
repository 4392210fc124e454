//! Why work on the store ended.

ghost use Rattle.std.specs.Prelude.{◌≡◌};
ghost use Rattle.base_types.specs.declared.fault.StoreFault.TheVariants.{NoMemory};

use std::alloc::AllocError;

/// A fault after which a run ends. The same type serves every crate that touches the disk.
#[derive(Clone, Copy, Debug, PartialEq, Eq)]
pub enum StoreFault {
    /// No memory was left.
    NoMemory,
    /// A call of the disk failed.
    DiskFailed,
    /// The record at this offset of this file isn't of its form, or refers to nothing.
    Damaged { file: u32, at: u64 },
    /// The file would grow beyond its limit. With file 0 there is no further file number.
    Full { file: u32 },
    /// A cache would need more entries than it can number.
    CacheFull,
}

impl From<AllocError> for StoreFault {
    ghost from_gives = { λ _ fault. fault ≡ NoMemory };

    fn from(_error: AllocError) -> StoreFault {
        StoreFault::NoMemory
    }
}
