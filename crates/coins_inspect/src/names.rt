//! The names of faults and rules, and the lines of faults and ends.

ghost use Rattle.std.specs.Prelude.{◌≡◌, ◌++◌, OnOk};
ghost use Rattle.coins_inspect.specs.Names.{read_error as name_of_read_error, coin_error as name_of_coin_error, block_error as name_of_block_error, header_refused as name_of_header_refused, snap_error as name_of_snap_error, truth as name_of_truth};
ghost use Rattle.coins_inspect.specs.Reports.{fault_line, end_line};

use crate::words::Word::{Number, Text};
use crate::words::put_line;
use base_types::{CoinError, HeaderRefused, ReadError, SnapError};
use block_codec::BlockError;
use std::alloc::AllocError;

pub(crate) fn read_error(error: ReadError) -> &'static str
    ensures { result.now ≡ name_of_read_error error }
{
    match error {
        ReadError::Short => "Short",
        ReadError::LongSpelling => "LongSpelling",
        ReadError::TooLarge => "TooLarge",
    }
}

pub(crate) fn coin_error(error: CoinError) -> &'static str
    ensures { result.now ≡ name_of_coin_error error }
{
    match error {
        CoinError::Short => "Short",
        CoinError::HeightTooLarge => "HeightTooLarge",
        CoinError::BadAmount => "BadAmount",
        CoinError::UncompressedKey => "UncompressedKey",
        CoinError::ScriptTooLong => "ScriptTooLong",
        CoinError::SecondSpelling => "SecondSpelling",
    }
}

pub(crate) fn block_error(error: BlockError) -> &'static str
    ensures { result.now ≡ name_of_block_error error }
{
    match error {
        BlockError::Short => "Short",
        BlockError::LongSpelling => "LongSpelling",
        BlockError::TooLarge => "TooLarge",
        BlockError::BadFlag => "BadFlag",
        BlockError::EmptyWitness => "EmptyWitness",
        BlockError::Trailing => "Trailing",
    }
}

pub(crate) fn header_refused(rule: HeaderRefused) -> &'static str
    ensures { result.now ≡ name_of_header_refused rule }
{
    match rule {
        HeaderRefused::Known => "Known",
        HeaderRefused::HighHash => "HighHash",
        HeaderRefused::NoParent => "NoParent",
        HeaderRefused::BadBits => "BadBits",
        HeaderRefused::TooOld => "TooOld",
        HeaderRefused::BadVersion => "BadVersion",
        HeaderRefused::TreeFull => "TreeFull",
    }
}

pub(crate) fn snap_error(error: SnapError) -> &'static str
    ensures { result.now ≡ name_of_snap_error error }
{
    match error {
        SnapError::BadMagic => "BadMagic",
        SnapError::BadVersion => "BadVersion",
        SnapError::WrongNetwork => "WrongNetwork",
        SnapError::Short => "Short",
        SnapError::LongSpelling => "LongSpelling",
        SnapError::EmptyGroup => "EmptyGroup",
        SnapError::CountMismatch => "CountMismatch",
        SnapError::BadIndex => "BadIndex",
        SnapError::BadCoin(CoinError::Short) => "BadCoin.Short",
        SnapError::BadCoin(CoinError::HeightTooLarge) => "BadCoin.HeightTooLarge",
        SnapError::BadCoin(CoinError::BadAmount) => "BadCoin.BadAmount",
        SnapError::BadCoin(CoinError::UncompressedKey) => "BadCoin.UncompressedKey",
        SnapError::BadCoin(CoinError::ScriptTooLong) => "BadCoin.ScriptTooLong",
        SnapError::BadCoin(CoinError::SecondSpelling) => "BadCoin.SecondSpelling",
        SnapError::HeightAbove => "HeightAbove",
        SnapError::Duplicate => "Duplicate",
        SnapError::LeftOver => "LeftOver",
    }
}

pub(crate) fn truth(value: bool) -> &'static str
    ensures { result.now ≡ name_of_truth value }
{
    if value { "yes" } else { "no" }
}

/// Adds the line of a fault at an offset.
#[tactic(auto, unfolding(crate::specs::Reports::fault_line))]
pub(crate) fn put_fault(out: &mut Vec<u8>, name: &'static str, at: usize) -> Result<(), AllocError>
    ensures { OnOk result (out.new.items ≡ out.old.items ++ fault_line name.now at) }
{
    put_line(out, "fault", &[Text(name), Number(at as u64)])
}

/// Adds the line of an end.
#[tactic(auto, unfolding(crate::specs::Reports::end_line))]
pub(crate) fn put_end(out: &mut Vec<u8>, end: u64) -> Result<(), AllocError>
    ensures { OnOk result (out.new.items ≡ out.old.items ++ end_line end) }
{
    put_line(out, "end", &[Number(end)])
}
