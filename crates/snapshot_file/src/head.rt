//! The metadata of a snapshot file.

ghost use Rattle.std.specs.Prelude.{◌≡◌, ◌+◌, ◌≤◌, length, None, Err, IfOk, IfSome};

use crate::fault::SnapFault;
use crate::item_fault::ItemFault;
use crate::items::read_head;
use base_types::Hash32;

// The first bytes of each file, and the version behind them (`SNAPSHOT_MAGIC_BYTES` and `VERSION` in Bitcoin Core's
// `node/utxo_snapshot.h`).
pub(crate) const MAGIC: [u8; 5] = [0x75, 0x74, 0x78, 0x6f, 0xff];

pub(crate) const VERSION: [u8; 2] = [2, 0];

/// The metadata: the hash of the base block, and the number of coins.
#[derive(Clone, Copy, Debug, PartialEq, Eq)]
pub struct SnapHead {
    pub base: Hash32,
    pub count: u64,
}

impl SnapHead {
    ghost use Rattle.snapshot_file.specs.Items.{from_first, head_at};
    ghost use Rattle.snapshot_file.specs.Steps.{HeadStep};

    // How many bytes it has.
    pub(crate) const LEN: usize = 51;

    // Adds to the bytes of metadata that was begun those that it lacks. Answers it, with how many it took of the piece,
    // or none where it isn't whole with all of them.
    pub(crate) fn complete(
        held: &mut Vec<u8>,
        piece: &[u8],
    ) -> Result<Option<(SnapHead, usize)>, SnapFault>
        ensures step { head_at (from_first held.old.items) ≡ Err None → HeadStep result held.old.items piece.now held.new.items }
        ensures used { IfOk result (λ taken. IfSome taken (λ whole. (whole.1 ≤ length piece.now) × (51 ≤ length held.old.items + whole.1))) }
        ensures within { length held.new.items ≤ length held.old.items + length piece.now }
    {
        let used = SnapHead::LEN.saturating_sub(held.len()).min(piece.len());
        held.extend_from_slice(&piece[..used])?;
        match read_head(held) {
            Ok(head) => Ok(Some((head, used))),
            Err(ItemFault::Unfinished) => Ok(None),
            Err(ItemFault::NoMemory) => Err(SnapFault::NoMemory),
            Err(ItemFault::Bad { error, at }) => Err(SnapFault::Bad {
                error,
                at: at as u64,
            }),
        }
    }
}
