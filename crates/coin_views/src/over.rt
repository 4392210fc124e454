//! A cache over a view, as one view.

ghost use Rattle.std.specs.Prelude.{◌≡◌, refl};
ghost use Rattle.std.proofs.Common.{◌∙◌, inl, inr, ⊎_elim};
ghost use Rattle.coin_cache.specs.Entries.{StandsOver, counts_over, means};

use base_types::{Coin, CoinEdit, OutPoint, StoreFault, View};
use coin_cache::Cache;

/// A cache over a view, as coins that can be changed: they are changed in the cache, and what the view means stays.
#[derive(Drop)]
pub struct Over<'a, V: View> {
    cache: &'a mut Cache,
    under: &'a mut V,
    ghost stands: { StandsOver cache.now (V.coins under.now) },
}

impl<'a, V: View> Over<'a, V> {
    /// The cache has to stand over the coins of the view.
    pub fn new(cache: &'a mut Cache, under: &'a mut V) -> Over<'a, V>
        requires { StandsOver cache.old (V.coins under.old) }
        ensures same_references { (result.cache.ghost_name ≡ cache.entry.ghost_name) × (result.under.ghost_name ≡ under.entry.ghost_name) }
        ensures values { (result.cache.now ≡ cache.old) × (result.under.now ≡ under.old) }
    {
        Over { cache, under }
    }
}

impl<'a, V: View> View for Over<'a, V> {
    ghost use Rattle.coin_views.specs.Growth.{MayGrow};

    ghost coins = { λ v. means v.cache.now (V.coins v.under.now) };

    ghost counts = { λ v. counts_over v.cache.now (V.counts v.under.now) };

    ghost behind = { λ keys v w. (w.cache.ghost_name ≡ v.cache.ghost_name) × (w.under.ghost_name ≡ v.under.ghost_name) × (V.coins w.under.now ≡ V.coins v.under.now)
        × MayGrow keys v.cache.now w.cache.now × V.behind keys v.under.now w.under.now };

    ghost behind_none = { λ keys v. (refl, refl, refl, record { adds = λ q has. inl has; salt = refl }, V.behind_none keys v.under.now) };

    ghost behind_then = { λ keys u v w a b. (
      b.0 ∙ a.0,
      b.1 ∙ a.1,
      b.2 ∙ a.2,
      record { adds = λ q has. ⊎_elim (λ was. a.3.adds q was) (λ named. inr named) (b.3.adds q has); salt = b.3.salt ∙ a.3.salt },
      V.behind_then keys u.under.now v.under.now w.under.now a.4 b.4,
    ) };

    fn get(&mut self, key: &OutPoint) -> Result<Option<Coin>, StoreFault> {
        self.cache.get(self.under, key)
    }
}

impl<'a, V: View> CoinEdit for Over<'a, V> {
    fn add(&mut self, key: &OutPoint, coin: Coin, may_overwrite: bool) -> Result<(), StoreFault> {
        self.cache.add(key, coin, may_overwrite)
    }

    fn spend(&mut self, key: &OutPoint) -> Result<Option<Coin>, StoreFault> {
        self.cache.spend(self.under, key)
    }
}
