//! The values that an index can chain.
ghost use Rattle.std.specs.Prelude.{◌≡◌, ℕ, Option};
ghost use Rattle.base_types.specs.declared.hash.OutPoint.{OutPoint as Point};

use base_types::OutPoint;
use slot_pool::Slot;

/// A value with a key and the link of its bucket's chain. `set_chain` changes the link and leaves the rest of the value,
/// its key among it.
pub trait Chained {
    // The key of the value.
    ghost key_of: { Self → Point };

    // The link that the value holds: the next slot of its chain.
    ghost chain_of: { Self → Option ℕ };

    // The value with this link, and the rest of it as it is.
    ghost with_chain: { Self → Option ℕ → Self };

    fn key(&self) -> OutPoint
        ensures { result ≡ key_of self.now };

    fn chain(&self) -> Option<Slot>
        ensures { result ≡ chain_of self.now };

    fn set_chain(&mut self, next: Option<Slot>)
        ensures { self.new ≡ with_chain self.old next };

    ghost chain_set: { (x : Self) (n : Option ℕ) → chain_of (with_chain x n) ≡ n };

    ghost key_kept: { (x : Self) (n : Option ℕ) → key_of (with_chain x n) ≡ key_of x };

    ghost set_twice: { (x : Self) (n k : Option ℕ) → with_chain (with_chain x n) k ≡ with_chain x k };

    ghost set_own: { (x : Self) → with_chain x (chain_of x) ≡ x };
}
