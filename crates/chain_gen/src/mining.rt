//! Finding nonces.

ghost use Rattle.std.specs.Prelude.{◌≡◌, ◌^◌, Some, None, MatchOption};
ghost use Rattle.block_codec.specs.Text.{hash_of_header};
ghost use Rattle.chain_model.specs.Generated.{least_nonce, with_nonce};

use base_types::Hash32;
use block_codec::{Header, block_hash};
use chain_model::meets_target;

/// Gives a header the least nonce with which it meets the target, and answers its hash.
pub(crate) fn mine(header: &mut Header) -> Option<Hash32>
    ensures { MatchOption result (least_nonce (2 ^ 32) 0 header.old ≡ None)
        (λ hash. (least_nonce (2 ^ 32) 0 header.old ≡ Some header.new.nonce) × (header.new ≡ with_nonce header.old header.new.nonce) × (hash ≡ hash_of_header header.new)) }
{
    for nonce in 0..=u32::MAX {
        header.nonce = nonce;
        let hash = block_hash(header);
        if meets_target(&hash) {
            return Some(hash);
        }
    }
    None
}
