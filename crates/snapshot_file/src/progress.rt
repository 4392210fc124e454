//! Reading the items behind the metadata, one after the other.

ghost use Rattle.std.specs.Prelude.{◌≡◌, ◌+◌, ◌*◌, ◌^◌, ◌<◌, ◌≤◌, ◌++◌, length, Ok, None, IfOk, IfSome, OnErr};
ghost use Rattle.snapshot_file.specs.ItemReading.{IsEnd};

use crate::coins::{SnapCoin, SnapCoins};
use crate::fault::SnapFault;
use crate::item_fault::ItemFault;
use crate::items::{read_group, read_member};
use base_types::{Hash32, OutPoint, SnapError};
use std::alloc::Global;

// Of a piece at least so many bytes are added at once to an item that was begun.
const STEP: usize = 64;

// The fewest bytes of a coin: the number of its output, the height, the amount and the length of the script have one each.
const LEAST_COIN: usize = 4;

// Where a reader stands between two items.
#[derive(Clone, Copy, Debug)]
pub(crate) struct Progress {
    // The base's height, where it was set.
    pub(crate) height: Option<u32>,
    // How many coins are left in the file.
    pub(crate) left: u64,
    // How many of them are of the group that was begun.
    pub(crate) members: u64,
    // That group's transaction.
    pub(crate) txid: Hash32,
}

// The fault of an item that begins at an offset of the file.
fn fault_at(error: SnapError, item: u64, at: usize) -> SnapFault
    requires { item + at < 2 ^ 64 }
    ensures { result ≡ SnapFault.Bad error (item + at) }
{
    SnapFault::Bad {
        error,
        at: item + at as u64,
    }
}

// What stands behind the last coin.
fn after_last(bytes: &[u8]) -> ItemFault
    ensures { IsEnd result bytes.now }
{
    if bytes.is_empty() {
        ItemFault::Unfinished
    } else {
        ItemFault::Bad {
            error: SnapError::LeftOver,
            at: 0,
        }
    }
}

impl Progress {
    ghost use Rattle.std.specs.Prelude.{◌/◌, min};
    ghost use Rattle.snapshot_file.specs.Steps.{Waits, point, outcome, ItemStep, ItemsStep, CompleteStep};

    // How many coins a piece of so many bytes makes whole at most: the one that was begun, and those that it holds.
    pub(crate) fn most_coins(&self, len: usize) -> usize
        ensures { result ≡ min self.now.left (len / 4 + 1) }
    {
        self.left.min((len / LEAST_COIN) as u64 + 1) as usize
    }

    // Reads the item that the bytes begin with, which stand at an offset of the file. Answers how many bytes it has.
    fn read_item(
        &mut self,
        alloc: Global,
        at: u64,
        bytes: &[u8],
        coins: &mut SnapCoins,
    ) -> Result<usize, ItemFault>
        ensures step { ItemStep result (point self.old at bytes.now coins.old) (outcome self.new coins.new) }
        ensures sized { IfOk result (λ len. 4 * length coins.new ≤ 4 * length coins.old + len) }
        ensures one { length coins.new ≤ length coins.old + 1 }
        ensures err { OnErr result (coins.new ≡ coins.old) }
    {
        if self.left == 0 {
            return Err(after_last(bytes));
        }
        if self.members == 0 {
            let group = read_group(self.left, bytes)?;
            self.txid = group.txid;
            self.members = group.count;
            return Ok(group.len);
        }
        let member = read_member(alloc, self.height, bytes)?;
        let key = OutPoint {
            txid: self.txid,
            index: member.index,
        };
        let Ok(()) = coins.push(SnapCoin {
            key,
            coin: member.coin,
            at,
        }) else {
            return Err(ItemFault::NoMemory);
        };
        self.left -= 1;
        self.members -= 1;
        Ok(member.len)
    }

    // Reads the items that are whole in the bytes from an offset of the file on. Answers how many bytes they have.
    pub(crate) fn read_items(
        &mut self,
        alloc: Global,
        at: u64,
        bytes: &[u8],
        coins: &mut SnapCoins,
    ) -> Result<usize, SnapFault>
        requires { at + length bytes.now ≤ 2 ^ 63 }
        ensures step { ItemsStep result (point self.old at bytes.now coins.old) (outcome self.new coins.new) }
        ensures sized { 4 * length coins.new ≤ 4 * length coins.old + length bytes.now }
    {
        let mut used = 0;
        loop {
            let item = at + used as u64;
            match self.read_item(alloc, item, &bytes[used..], coins) {
                Ok(len) => used += len,
                Err(ItemFault::Unfinished) => return Ok(used),
                Err(ItemFault::NoMemory) => return Err(SnapFault::NoMemory),
                Err(ItemFault::Bad { error, at }) => return Err(fault_at(error, item, at)),
            }
        }
    }

    // Adds bytes of a piece to the item that was begun at an offset of the file, and reads it if it became whole.
    // Answers how many bytes of the piece it took, or none where it isn't whole with all of them.
    pub(crate) fn complete(
        &mut self,
        alloc: Global,
        at: u64,
        held: &mut Vec<u8>,
        piece: &[u8],
        coins: &mut SnapCoins,
    ) -> Result<Option<usize>, SnapFault>
        requires { at + length held.old.items + length piece.now ≤ 2 ^ 63 }
        ensures step { Waits self.old held.old.items → CompleteStep result (point self.old at held.old.items coins.old) piece.now (outcome self.new coins.new) }
        ensures held { result ≡ Ok None → held.new.items ≡ held.old.items ++ piece.now }
        ensures used { IfOk result (λ taken. IfSome taken (λ used. used ≤ length piece.now)) }
        ensures one { length coins.new ≤ length coins.old + 1 }
        ensures within { length held.new.items ≤ length held.old.items + length piece.now }
    {
        let before = held.len();
        let mut added = 0;
        while added < piece.len() {
            // As many again as are held, so that a long item is not tried for each of its bytes.
            let more = held.len().max(STEP).min(piece.len() - added);
            held.extend_from_slice(&piece[added..added + more])?;
            added += more;
            match self.read_item(alloc, at, held, coins) {
                Ok(len) => return Ok(Some(len.saturating_sub(before))),
                Err(ItemFault::Unfinished) => {}
                Err(ItemFault::NoMemory) => return Err(SnapFault::NoMemory),
                Err(ItemFault::Bad { error, at: offset }) => {
                    return Err(fault_at(error, at, offset));
                }
            }
        }
        Ok(None)
    }
}
