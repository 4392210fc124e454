//! Writing a snapshot file.

ghost use Rattle.std.specs.Prelude.{◌≡◌, ◌++◌, length, take, OnOk, OnErr};
ghost use Rattle.base_types.specs.Coins.{CoinFits};
ghost use Rattle.snapshot_file.specs.Text.{head_text, group_head_text, member_text};

use crate::head::{MAGIC, VERSION};
use base_types::{Coin, Hash32, MESSAGE_START, put_compact_size, put_u64};
use coin_codec::{all_or_nothing, write_coin};
use std::alloc::AllocError;

#[tactic(auto, unfolding(crate::specs::Text::head_text))]
fn put_head(out: &mut Vec<u8>, base: &Hash32, count: u64) -> Result<(), AllocError>
    ensures ok { OnOk result (out.new.items ≡ out.old.items ++ head_text base.now count) }
    ensures err { OnErr result (take (length out.old.items) out.new.items ≡ out.old.items) }
{
    out.extend_from_slice(&MAGIC)?;
    out.extend_from_slice(&VERSION)?;
    out.extend_from_slice(&MESSAGE_START)?;
    out.extend_from_slice(&base.bytes)?;
    put_u64(out, count)
}

#[tactic(auto, unfolding(crate::specs::Text::group_head_text))]
fn put_group(out: &mut Vec<u8>, txid: &Hash32, count: u64) -> Result<(), AllocError>
    ensures ok { OnOk result (out.new.items ≡ out.old.items ++ group_head_text txid.now count) }
    ensures err { OnErr result (take (length out.old.items) out.new.items ≡ out.old.items) }
{
    out.extend_from_slice(&txid.bytes)?;
    put_compact_size(out, count)
}

#[tactic(auto, unfolding(crate::specs::Text::member_text))]
fn put_member(out: &mut Vec<u8>, index: u32, coin: &Coin) -> Result<(), AllocError>
    requires { CoinFits coin.now }
    ensures ok { OnOk result (out.new.items ≡ out.old.items ++ member_text (index, coin.now)) }
    ensures err { OnErr result (take (length out.old.items) out.new.items ≡ out.old.items) }
{
    put_compact_size(out, u64::from(index))?;
    write_coin(out, coin)
}

/// Adds the metadata of a file: the hash of the base block, and the number of coins. Where memory runs out nothing is
/// added.
pub fn write_head(out: &mut Vec<u8>, base: &Hash32, count: u64) -> Result<(), AllocError>
    ensures ok { OnOk result (out.new.items ≡ out.old.items ++ head_text base.now count) }
    ensures err { OnErr result (out.new.items ≡ out.old.items) }
{
    let len = out.len();
    let written = put_head(out, base, count);
    all_or_nothing(out, len, written)
}

/// Adds the head of a group: a transaction's hash, and how many of its coins follow. Where memory runs out nothing is
/// added.
pub fn write_group(out: &mut Vec<u8>, txid: &Hash32, count: u64) -> Result<(), AllocError>
    ensures ok { OnOk result (out.new.items ≡ out.old.items ++ group_head_text txid.now count) }
    ensures err { OnErr result (out.new.items ≡ out.old.items) }
{
    let len = out.len();
    let written = put_group(out, txid, count);
    all_or_nothing(out, len, written)
}

/// Adds a coin of a group, with the number of its output; a reader refuses one above 33,554,432. Where memory runs out
/// nothing is added.
pub fn write_member(out: &mut Vec<u8>, index: u32, coin: &Coin) -> Result<(), AllocError>
    requires { CoinFits coin.now }
    ensures ok { OnOk result (out.new.items ≡ out.old.items ++ member_text (index, coin.now)) }
    ensures err { OnErr result (out.new.items ≡ out.old.items) }
{
    let len = out.len();
    let written = put_member(out, index, coin);
    all_or_nothing(out, len, written)
}
