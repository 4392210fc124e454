//! Snapshot files.

ghost use Rattle.std.specs.Prelude.{◌≡◌, ◌++◌, OnOk};
ghost use Rattle.std.specs.List.{flat_map};
ghost use Rattle.coins_inspect.specs.SnapshotReports.{base_line, head_lines, snap_coin_lines, IsFinish, snapshot_report};

use crate::coins::put_unspent;
use crate::names::{put_end, put_fault, snap_error};
use crate::words::Word::{Hash, Number, Text};
use crate::words::put_line;
use snapshot_file::{Pieces, Reader, SnapCoin, SnapFault, SnapHead};
use std::alloc::{AllocError, Global};

/// A snapshot file, of whose base no height is known.
pub(crate) fn snapshot(alloc: Global, out: &mut Vec<u8>, bytes: &[u8]) -> Result<(), AllocError>
    ensures { OnOk result (out.new.items ≡ out.old.items ++ snapshot_report bytes.now) }
{
    let mut reader = Reader::new(alloc)?;
    match reader.feed(bytes) {
        Ok(pieces) => {
            put_pieces(out, &pieces)?;
            put_finish(out, bytes.len() as u64, reader.finish())
        }
        Err(fault) => put_finish(out, bytes.len() as u64, Err(fault)),
    }
}

/// Adds what became whole.
pub(crate) fn put_pieces(out: &mut Vec<u8>, pieces: &Pieces) -> Result<(), AllocError>
    ensures { OnOk result (out.new.items ≡ out.old.items ++ head_lines pieces.now.head ++ flat_map snap_coin_lines pieces.now.coins) }
{
    if let Some(head) = pieces.head {
        put_base(out, head)?;
    }
    put_coins(out, pieces.coins.as_slice())
}

#[tactic(auto, unfolding(crate::specs::SnapshotReports::base_line))]
fn put_base(out: &mut Vec<u8>, head: SnapHead) -> Result<(), AllocError>
    ensures { OnOk result (out.new.items ≡ out.old.items ++ base_line head) }
{
    put_line(
        out,
        "base",
        &[Hash(head.base), Text("coins"), Number(head.count)],
    )
}

fn put_coins(out: &mut Vec<u8>, coins: &[SnapCoin]) -> Result<(), AllocError>
    ensures { OnOk result (out.new.items ≡ out.old.items ++ flat_map snap_coin_lines coins.now) }
{
    for found in coins {
        put_unspent(out, &found.key, &found.coin)?;
    }
    Ok(())
}

/// Adds how a file of so many bytes ends.
pub(crate) fn put_finish(
    out: &mut Vec<u8>,
    len: u64,
    finish: Result<(), SnapFault>,
) -> Result<(), AllocError>
    ensures { OnOk result (IsFinish len finish (λ lines. out.new.items ≡ out.old.items ++ lines)) }
{
    match finish {
        Ok(()) => put_end(out, len),
        Err(SnapFault::NoMemory) => Err(AllocError),
        Err(SnapFault::Bad { error, at }) => put_fault(out, snap_error(error), at as usize),
    }
}
