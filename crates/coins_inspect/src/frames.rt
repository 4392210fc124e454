//! The frames of a block file.

ghost use Rattle.std.specs.Prelude.{◌≡◌, ◌++◌, OnOk};
ghost use Rattle.coins_inspect.specs.FrameReports.{frame_line};

use crate::words::Word::{Hash, Number, Text};
use crate::words::put_line;
use block_codec::{Block, block_hash, total_size};
use std::alloc::AllocError;

/// Adds the frame of a block, which ends at an offset.
#[tactic(auto, unfolding(crate::specs::FrameReports::frame_line))]
pub(crate) fn put_frame(out: &mut Vec<u8>, end: u64, block: &Block) -> Result<(), AllocError>
    ensures { OnOk result (out.new.items ≡ out.old.items ++ frame_line end block.now) }
{
    let len = total_size(block);
    put_line(
        out,
        "frame",
        &[
            Number(end.saturating_sub(len).saturating_sub(8)),
            Text("length"),
            Number(len),
            Text("block"),
            Hash(block_hash(&block.header)),
        ],
    )
}
