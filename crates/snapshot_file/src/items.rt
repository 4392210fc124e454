//! The items of a snapshot file, each read from its first byte on.

ghost use Rattle.std.specs.Prelude.{◌≡◌, ◌<◌, ◌≤◌, length};
ghost use Rattle.std.specs.Int.{w64};
ghost use Rattle.base_types.specs.Reading.{bytes_at, number_at, compact_at, length_at};
ghost use Rattle.base_types.specs.Codec.{field, renamed};
ghost use Rattle.base_types.specs.declared.hash.Hash32.{Hash32};
ghost use Rattle.coin_codec.specs.Reading.{coin_at};
ghost use Rattle.snapshot_file.specs.Items.{Stop, from_first, as_stop, coin_stop, mark_at, head_at, group_at, is_above as above, member_at};
ghost use Rattle.snapshot_file.specs.ItemReading.{ReadsItem, ReadsFront, ReadsHash};

use crate::head::{MAGIC, SnapHead, VERSION};
use crate::item_fault::ItemFault;
use base_types::{Coin, Cursor, Hash32, MESSAGE_START, SnapError};
use coin_codec::read_coin;
use std::alloc::Global;

// The head of a group, and how many bytes it has.
#[derive(Clone, Copy)]
pub(crate) struct GroupHead {
    pub(crate) txid: Hash32,
    pub(crate) count: u64,
    pub(crate) len: usize,
}

// A coin of a group with the number of its output, and how many bytes they have.
#[derive(Drop)]
pub(crate) struct Member {
    pub(crate) index: u32,
    pub(crate) coin: Coin,
    pub(crate) len: usize,
}

#[tactic(auto, using(crate::proofs::ItemFaults::item_faults), unfolding(crate::specs::Items::mark_at))]
fn mark_of(
    cursor: &mut Cursor<'_>,
    mark: &[u8],
    error: SnapError,
    at: usize,
) -> Result<(), ItemFault>
    ensures { ReadsItem result cursor.new (mark_at (error, at) mark.now cursor.old) }
{
    for wanted in mark {
        let Ok(byte) = cursor.u8() else {
            return Err(ItemFault::Unfinished);
        };
        if byte != *wanted {
            return Err(ItemFault::Bad { error, at });
        }
    }
    Ok(())
}

#[tactic(auto, using(crate::proofs::ItemFaults::item_faults))]
fn hash_of(cursor: &mut Cursor<'_>) -> Result<Hash32, ItemFault>
    ensures { ReadsHash result cursor.new (field as_stop (bytes_at 32) cursor.old) }
{
    let Ok(taken) = cursor.take(32) else {
        return Err(ItemFault::Unfinished);
    };
    let mut bytes = [0; 32];
    bytes.copy_from_slice(taken);
    Ok(Hash32 { bytes })
}

#[tactic(auto, using(crate::proofs::ItemFaults::item_faults), unfolding(crate::specs::Items::head_at))]
fn head_of(cursor: &mut Cursor<'_>) -> Result<SnapHead, ItemFault>
    ensures { ReadsItem result cursor.new (head_at cursor.old) }
{
    mark_of(cursor, &MAGIC, SnapError::BadMagic, 0)?;
    mark_of(cursor, &VERSION, SnapError::BadVersion, 5)?;
    mark_of(cursor, &MESSAGE_START, SnapError::WrongNetwork, 7)?;
    let base = hash_of(cursor)?;
    match cursor.u64() {
        Ok(count) => Ok(SnapHead { base, count }),
        Err(_) => Err(ItemFault::Unfinished),
    }
}

// Reads the metadata, which has 51 bytes.
pub(crate) fn read_head(bytes: &[u8]) -> Result<SnapHead, ItemFault>
    ensures { ReadsFront (λ head. head) (λ _. 51) result bytes.now (head_at (from_first bytes.now)) }
{
    head_of(&mut Cursor::new(bytes))
}

#[tactic(auto, using(crate::proofs::ItemFaults::item_faults))]
fn count_of(cursor: &mut Cursor<'_>) -> Result<u64, ItemFault>
    ensures { ReadsItem result cursor.new (field as_stop compact_at cursor.old) }
{
    match cursor.compact_size() {
        Ok(count) => Ok(count),
        Err(error) => Err(ItemFault::of_field(error, cursor.place())),
    }
}

#[tactic(auto, using(crate::proofs::ItemFaults::item_faults), unfolding(crate::specs::Items::group_at))]
fn group_of(cursor: &mut Cursor<'_>, left: u64) -> Result<(Hash32, u64), ItemFault>
    ensures { ReadsItem result cursor.new (group_at left cursor.old) }
{
    let txid = hash_of(cursor)?;
    let at = cursor.place();
    let count = count_of(cursor)?;
    if count == 0 {
        return Err(ItemFault::Bad {
            error: SnapError::EmptyGroup,
            at,
        });
    }
    if left < count {
        return Err(ItemFault::Bad {
            error: SnapError::CountMismatch,
            at,
        });
    }
    Ok((txid, count))
}

// Reads the head of a group, where so many coins are left in the file.
pub(crate) fn read_group(left: u64, bytes: &[u8]) -> Result<GroupHead, ItemFault>
    ensures { ReadsFront (λ group. (group.txid, group.count)) (λ group. group.len) result bytes.now (group_at left (from_first bytes.now)) }
{
    let mut cursor = Cursor::new(bytes);
    let (txid, count) = group_of(&mut cursor, left)?;
    Ok(GroupHead {
        txid,
        count,
        len: cursor.place(),
    })
}

#[tactic(auto, using(crate::proofs::ItemFaults::item_faults))]
fn index_of(cursor: &mut Cursor<'_>) -> Result<u32, ItemFault>
    ensures { ReadsItem result cursor.new (field as_stop length_at cursor.old) }
{
    match cursor.compact_len() {
        Ok(index) => Ok(index as u32),
        Err(error) => Err(ItemFault::of_field(error, cursor.place())),
    }
}

#[tactic(auto, using(crate::proofs::ItemFaults::item_faults))]
fn coin_of(alloc: Global, cursor: &mut Cursor<'_>) -> Result<Coin, ItemFault>
    ensures { ReadsItem result cursor.new (renamed coin_stop (coin_at cursor.old)) }
{
    match read_coin(alloc, cursor) {
        Ok(coin) => Ok(coin),
        Err(fault) => Err(ItemFault::of_coin(fault)),
    }
}

// Whether a height is above the base's, where that was set.
fn is_above(base: Option<u32>, height: u32) -> bool
    ensures { result ≡ above base height }
{
    match base {
        None => false,
        Some(base) => height > base,
    }
}

#[tactic(auto, using(crate::proofs::ItemFaults::item_faults), unfolding(crate::specs::Items::member_at))]
fn member_of(
    alloc: Global,
    cursor: &mut Cursor<'_>,
    base: Option<u32>,
) -> Result<(u32, Coin), ItemFault>
    ensures { ReadsItem result cursor.new (member_at base cursor.old) }
{
    let index = index_of(cursor)?;
    let at = cursor.place();
    let coin = coin_of(alloc, cursor)?;
    if is_above(base, coin.height) {
        return Err(ItemFault::Bad {
            error: SnapError::HeightAbove,
            at,
        });
    }
    Ok((index, coin))
}

// Reads a coin of a group with the number of its output. A height that was set is the base's. It takes one allocation,
// for the script.
pub(crate) fn read_member(
    alloc: Global,
    base: Option<u32>,
    bytes: &[u8],
) -> Result<Member, ItemFault>
    ensures { ReadsFront (λ member. (member.index, member.coin)) (λ member. member.len) result bytes.now (member_at base (from_first bytes.now)) }
{
    let mut cursor = Cursor::new(bytes);
    let (index, coin) = member_of(alloc, &mut cursor, base)?;
    Ok(Member {
        index,
        coin,
        len: cursor.place(),
    })
}
