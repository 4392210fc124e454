//! The parameters of regtest (`CRegTestParams` in Bitcoin Core's `kernel/chainparams.cpp`), and of coins on every network.

ghost use Rattle.std.specs.Prelude.{◌≡◌, ◌≤◌};
ghost use Rattle.base_types.specs.Parameters.{subsidy as subsidy_at};

/// The bytes with which each message begins, and each frame of a block file (`pchMessageStart`).
pub const MESSAGE_START: [u8; 4] = [0xfa, 0xbf, 0xb5, 0xda];

/// No hash of a block may be greater, as a number whose lowest byte stands first (`consensus.powLimit`).
pub const TARGET: [u8; 32] = [
    0, 0, 0, 0, 0, 0, 0, 0, 0, 0, 0, 0, 0, 0, 0, 0, 0, 0, 0, 0, 0, 0, 0, 0, 0, 0, 0, 0, 0, 0xff,
    0xff, 0x7f,
];

/// The target in the compact form, the only one that headers may carry.
pub const TARGET_BITS: u32 = 0x207f_ffff;

/// The greatest amount in satoshis (`MAX_MONEY` in Bitcoin Core's `consensus/amount.h`).
pub const MAX_MONEY: u64 = 2_100_000_000_000_000;

/// The longest script, in bytes, of an output that can be spent (`MAX_SCRIPT_SIZE` in Bitcoin Core's `script/script.h`).
pub const MAX_SCRIPT_SIZE: usize = 10_000;

/// The greatest length, count or index (`MAX_SIZE` in Bitcoin Core's `serialize.h`).
pub const MAX_SIZE: u64 = 33_554_432;

/// How many blocks above its own a coinbase can first be spent (`COINBASE_MATURITY` in Bitcoin Core's
/// `consensus/consensus.h`).
pub const COINBASE_MATURITY: u32 = 100;

/// The number of blocks from one halving of the subsidy to the next (`consensus.nSubsidyHalvingInterval`).
const HALVING_INTERVAL: u32 = 150;

/// The subsidy of the first blocks, in satoshis.
const FIRST_SUBSIDY: u64 = 5_000_000_000;

/// The satoshis that a block at a height may pay beside its fees (`GetBlockSubsidy` in Bitcoin Core's `validation.cpp`).
pub fn subsidy(height: u32) -> u64
    ensures value { result ≡ subsidy_at height }
    ensures small { result ≤ 5000000000 }
{
    let halvings = height / HALVING_INTERVAL;
    if halvings >= 64 {
        return 0;
    }
    FIRST_SUBSIDY >> halvings
}
