//! The height at the head of a coinbase's script (BIP 34).

ghost use Rattle.std.specs.Prelude.{◌≡◌, ◌++◌, [], ◌∷◌, length, nat_eq, nat_le, nat_lt, IfOk, cond};
ghost use Rattle.std.specs.List.{starts_with};
ghost use Rattle.chain_model.specs.BodyRules.{height_push, least_bytes, without_sign, first_script as first_script_of};
ghost use Rattle.block_checks.specs.Place.{place_of};
ghost use Rattle.chain_model.specs.BodyRules.{has_bad_height as lacks_height};

use crate::place::Place;
use block_codec::{Block, Tx};
use std::alloc::{AllocError, Global};

/// Whether the coinbase's script has to begin with the push of the block's height, and doesn't.
pub(crate) fn has_bad_height(
    alloc: Global,
    place: &Place,
    block: &Block,
) -> Result<bool, AllocError>
    ensures { IfOk result (λ bad. bad ≡ lacks_height (place_of place.now) block.now) }
{
    if place.height < u64::from(place.rules.bip34) {
        return Ok(false);
    }
    Ok(!starts_with_height(alloc, first_script(block.txs.as_slice()), place.height)?)
}

fn first_script(txs: &[Tx]) -> &[u8]
    ensures { result.now ≡ first_script_of txs.now }
{
    match txs {
        [coinbase, ..] => match coinbase.inputs.as_slice() {
            [input, ..] => input.script.as_slice(),
            [] => &[],
        },
        [] => &[],
    }
}

// Whether a script begins with the push of a height: one byte for 1 to 16, else a length and the height's bytes.
fn starts_with_height(alloc: Global, script: &[u8], height: u64) -> Result<bool, AllocError>
    ensures { IfOk result (λ starts. starts ≡ starts_with nat_eq script.now (height_push height)) }
{
    let [first, rest @ ..] = script else {
        return Ok(false);
    };
    if 1 <= height && height <= 16 {
        return Ok(u64::from(*first) == 80 + height);
    }
    let bytes = height_bytes(alloc, height)?;
    Ok(usize::from(*first) == bytes.len() && rest.starts_with(&bytes))
}

// The least bytes of a height, the lowest first, of which the last is below 128.
fn height_bytes(alloc: Global, height: u64) -> Result<Vec<u8>, AllocError>
    ensures { IfOk result (λ bytes. bytes.items ≡ without_sign (least_bytes 8 height)) }
{
    let mut bytes = bytes_of(alloc, height)?;
    if ends_with_sign(&bytes) {
        bytes.push(0)?;
    }
    Ok(bytes)
}

// The least bytes of a number, the lowest first.
fn bytes_of(alloc: Global, number: u64) -> Result<Vec<u8>, AllocError>
    ensures { IfOk result (λ bytes. bytes.items ≡ least_bytes 8 number) }
{
    let mut bytes = Vec::new(alloc);
    let mut rest = number;
    let mut most = 8u32;
    while most > 0 && rest > 0 {
        bytes.push((rest % 256) as u8)?;
        rest /= 256;
        most -= 1;
    }
    Ok(bytes)
}

// Whether the top bit of the last byte would be taken for a sign.
fn ends_with_sign(bytes: &[u8]) -> bool
    ensures { without_sign bytes.now ≡ cond result (bytes.now ++ 0 ∷ []) bytes.now }
{
    match bytes {
        [.., last] => *last >= 128,
        [] => false,
    }
}
