//! Why a fold ends early.

ghost use Rattle.std.specs.Prelude.{◌≡◌};
ghost use Rattle.coins_top.specs.declared.fold_end.FoldEnd.TheVariants.{NoMemory};

use command_text::Reply;
use std::alloc::AllocError;

/// Why a fold ends before the end of its file.
#[derive(Debug, Drop)]
pub(crate) enum FoldEnd {
    /// No memory was left.
    NoMemory,
    /// This is its last reply.
    Replied(Reply),
}

impl From<AllocError> for FoldEnd {
    ghost from_gives = { λ _ end. end ≡ NoMemory };

    fn from(_error: AllocError) -> FoldEnd {
        FoldEnd::NoMemory
    }
}
