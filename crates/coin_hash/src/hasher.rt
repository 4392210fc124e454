//! Hashing coins one by one.

ghost use Rattle.std.specs.Prelude.{◌≡◌, ℕ, ◌^◌, ◌<◌, ◌≤◌, List, [], ◌∷◌, ◌++◌, length};
ghost use Rattle.std.specs.FinMap.{FinMap, entries};
ghost use Rattle.sha2.specs.Hashers.{Holds256};
ghost use Rattle.base_types.specs.Bytes.{compact};
ghost use Rattle.base_types.specs.Keys.{outpoint_cmp};
ghost use Rattle.base_types.specs.declared.hash.OutPoint.{OutPoint};
ghost use Rattle.base_types.specs.declared.coin.Coin.{Coin};
ghost use Rattle.base_types.specs.Parameters.{max_script_size};
ghost use Rattle.coin_hash.specs.CoinHash.{Holds, hash_of, coin_hash};

use base_types::{Coin, Hash32, OutPoint};
use sha2::{Digest, Sha256};

/// The hash of coins, begun. It takes no memory.
#[derive(Drop)]
pub struct Hasher {
    state: Sha256,
}

// Adds the CompactSize of a script's length.
#[tactic(auto, unfolding(base_types::specs::Bytes::compact, base_types::specs::Bytes::number_text))]
fn add_length(state: &mut Sha256, len: usize)
    requires { len ≤ max_script_size }
    ensures { (text : List ℕ) → Holds256 state.old text → Holds256 state.new (text ++ compact len) }
{
    if len < 253 {
        state.update(&[len as u8]);
    } else {
        let [low, high] = (len as u16).to_le_bytes();
        state.update(&[253, low, high]);
    }
}

impl Hasher {
    /// The hash of no coins, begun.
    pub fn new() -> Self
        ensures { Holds result [] }
    {
        Hasher {
            state: Sha256::new(),
        }
    }

    /// Adds a coin. The hash of a set of coins wants them by the bytes of the transaction's hash and then by the number
    /// of the output. The height is below 2^31 and the script has at most 10,000 bytes.
    pub fn add(&mut self, key: &OutPoint, coin: &Coin)
        requires height { coin.now.height < 2 ^ 31 }
        requires script { length coin.now.script ≤ max_script_size }
        ensures { (coins : List (OutPoint × Coin)) → Holds self.old coins → Holds self.new (coins ++ (key.now, coin.now) ∷ []) }
    {
        let height = coin.height_code();
        let script = coin.script.as_slice();
        self.state.update(&key.txid.bytes);
        self.state.update(&key.index.to_le_bytes());
        self.state.update(&height.to_le_bytes());
        self.state.update(&coin.value.to_le_bytes());
        add_length(&mut self.state, script.len());
        self.state.update(script);
    }

    /// The hash of the coins that were added, in the order in which they were: SHA-256 of the SHA-256.
    pub fn finish(self) -> Hash32
        ensures in_order { (coins : List (OutPoint × Coin)) → Holds self coins → result ≡ hash_of coins }
        ensures of_set { (coins : FinMap outpoint_cmp Coin) → Holds self (entries coins) → result ≡ coin_hash coins }
    {
        let once = self.state.finalize();
        Hash32 {
            bytes: Sha256::digest(&once),
        }
    }
}
