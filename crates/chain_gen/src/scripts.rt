//! The scripts of a generated block.

ghost use Rattle.std.specs.Prelude.{◌≡◌, ◌^◌, ◌<◌, ◌≤◌, ◌++◌, [], ◌∷◌, IfOk, OnOk};
ghost use Rattle.std.specs.Int.{w64};
ghost use Rattle.base_types.specs.Bytes.{number_text};
ghost use Rattle.chain_model.specs.BodyRules.{height_push};
ghost use Rattle.chain_model.specs.Generated.{seed as seed_of, script_at as script_of};

use base_types::Script;
use sha2::{Digest, Sha256};
use std::alloc::{AllocError, Global};

// The most bytes of a script of a coinbase: a push of a height and one of a number.
const COINBASE_SCRIPT: usize = 13;

// The most bytes of a script that is paid to.
const LONGEST: usize = 35;

#[tactic(auto, unfolding(base_types::specs::Bytes::number_text))]
fn seed(number: u64, height: u32) -> [u8; 32]
    ensures { result ≡ seed_of number height }
{
    let mut hasher = Sha256::new();
    hasher.update(&number.to_le_bytes());
    hasher.update(&height.to_le_bytes());
    hasher.finalize()
}

// A script of three parts.
fn joined(alloc: Global, front: &[u8], middle: &[u8], back: &[u8]) -> Result<Script, AllocError>
    ensures { IfOk result (λ script. script ≡ front.now ++ middle.now ++ back.now) }
{
    let mut bytes = Vec::with_capacity(alloc, LONGEST)?;
    bytes.extend_from_slice(front)?;
    bytes.extend_from_slice(middle)?;
    bytes.extend_from_slice(back)?;
    Script::from_slice(alloc, &bytes)
}

/// The script to which the block of a height pays.
pub(crate) fn script_at(alloc: Global, number: u64, height: u32) -> Result<Script, AllocError>
    ensures { IfOk result (λ script. script ≡ script_of number height) }
{
    let seed = seed(number, height);
    match (u64::from(height) + number % 4) % 4 {
        0 => joined(alloc, &[0x76, 0xa9, 0x14], &seed[..20], &[0x88, 0xac]),
        1 => joined(alloc, &[0xa9, 0x14], &seed[..20], &[0x87]),
        2 => joined(alloc, &[0x21, 0x02], &seed, &[0xac]),
        _ => Script::from_slice(alloc, &[0x51]),
    }
}

// Adds the push of a height (BIP 34).
fn push_height(bytes: &mut Vec<u8>, height: u32) -> Result<(), AllocError>
    requires { (1 ≤ height) × (height < 2 ^ 23) }
    ensures { OnOk result (bytes.new.items ≡ bytes.old.items ++ height_push height) }
{
    let [low, middle, high, _] = height.to_le_bytes();
    if height <= 16 {
        bytes.extend_from_slice(&[0x50 + low])
    } else if height < 1 << 7 {
        bytes.extend_from_slice(&[1, low])
    } else if height < 1 << 15 {
        bytes.extend_from_slice(&[2, low, middle])
    } else {
        bytes.extend_from_slice(&[3, low, middle, high])
    }
}

/// The script of the coinbase of a height: the pushes of the height and of the number.
#[tactic(auto, unfolding(base_types::specs::Bytes::number_text))]
pub(crate) fn coinbase_script(alloc: Global, number: u64, height: u32) -> Result<Script, AllocError>
    requires { (1 ≤ height) × (height < 2 ^ 23) }
    ensures { IfOk result (λ script. script ≡ height_push height ++ 8 ∷ number_text w64 number) }
{
    let mut bytes = Vec::with_capacity(alloc, COINBASE_SCRIPT)?;
    push_height(&mut bytes, height)?;
    bytes.push(8)?;
    bytes.extend_from_slice(&number.to_le_bytes())?;
    Script::from_slice(alloc, &bytes)
}
