//! Outputs and coins.

ghost use Rattle.std.specs.Prelude.{◌≡◌, ◌<◌, ◌^◌, IfOk};
ghost use Rattle.base_types.specs.Coins.{height_code as code_of_height};

use crate::script::Script;
use std::alloc::AllocError;

/// An output of a transaction (Bitcoin Core's `CTxOut`), its value in satoshis.
#[derive(Clone, Debug, PartialEq, Eq, Drop)]
pub struct TxOut {
    pub value: i64,
    pub script: Script,
}

/// An output that isn't spent (`Coin` in Bitcoin Core's `coins.h`): its value in satoshis, its script, the height of
/// the block that made it, and whether a coinbase did.
#[derive(Clone, Debug, PartialEq, Eq, Drop)]
pub struct Coin {
    pub value: u64,
    pub script: Script,
    pub height: u32,
    pub coinbase: bool,
}

impl Coin {
    /// The same coin in memory of its own.
    pub fn copy(&self) -> Result<Coin, AllocError>
        ensures { IfOk result (λ coin. coin ≡ self.now) }
    {
        self.clone()
    }
    /// Twice the height, and one more for a coinbase: how Bitcoin Core writes both (`coins.h`).
    pub fn height_code(&self) -> u32
        requires { self.now.height < 2 ^ 31 }
        ensures { result ≡ code_of_height self.now }
    {
        2 * self.height + u32::from(self.coinbase)
    }
}
