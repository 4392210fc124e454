//! What is fixed of blocks: the first one of regtest, and how long one may be in a block file.

ghost use Rattle.std.specs.Prelude.{◌≡◌};
ghost use Rattle.block_codec.specs.Genesis.{genesis_hash};

use crate::block::Header;
use crate::hashing::block_hash;
use base_types::Hash32;

/// The first header of regtest (Bitcoin Core's `kernel/chainparams.cpp`).
pub const GENESIS: Header = Header {
    version: 1,
    prev: Hash32 { bytes: [0; 32] },
    root: Hash32 {
        bytes: [
            0x3b, 0xa3, 0xed, 0xfd, 0x7a, 0x7b, 0x12, 0xb2, 0x7a, 0xc7, 0x2c, 0x3e, 0x67, 0x76,
            0x8f, 0x61, 0x7f, 0xc8, 0x1b, 0xc3, 0x88, 0x8a, 0x51, 0x32, 0x3a, 0x9f, 0xb8, 0xaa,
            0x4b, 0x1e, 0x5e, 0x4a,
        ],
    },
    time: 1_296_688_602,
    bits: 0x207f_ffff,
    nonce: 2,
};

/// The least bytes of the block in a frame of a block file: those of its header.
pub const MIN_FRAME_SIZE: usize = 80;

/// The greatest bytes of the block in a frame of a block file (`MAX_BLOCK_SERIALIZED_SIZE` in Bitcoin Core's
/// `consensus/consensus.h`).
pub const MAX_FRAME_SIZE: usize = 4_000_000;

/// The hash of `GENESIS`, `0f9188f13cb7b2c71f2a335e3a4fc328bf5beb436012afca590b1a11466e2206` as it is printed.
#[tactic(auto, unfolding(crate::specs::Genesis::genesis_hash))]
pub fn genesis_hash() -> Hash32
    ensures { result ≡ genesis_hash }
{
    block_hash(&GENESIS)
}
