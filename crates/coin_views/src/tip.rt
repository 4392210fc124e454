//! A tip cache over its parent's view, for look-ups alone.

ghost use Rattle.std.specs.Prelude.{◌≡◌, refl};
ghost use Rattle.std.proofs.Common.{◌∙◌, inl, inr, ⊎_elim};
ghost use Rattle.coin_cache.specs.Entries.{StandsOver, counts_over, means};

use base_types::{Coin, OutPoint, StoreFault, View};
use coin_cache::Cache;

/// A tip cache over its parent's view, which is only read: what it means stays, and it goes on standing over the parent.
#[derive(Drop)]
pub struct Tip<'a, V: View> {
    cache: &'a mut Cache,
    under: &'a mut V,
}

impl<'a, V: View> Tip<'a, V> {
    pub(crate) fn new(cache: &'a mut Cache, under: &'a mut V) -> Tip<'a, V>
        ensures same_references { (result.cache.ghost_name ≡ cache.entry.ghost_name) × (result.under.ghost_name ≡ under.entry.ghost_name) }
        ensures values { (result.cache.now ≡ cache.old) × (result.under.now ≡ under.old) }
    {
        Tip { cache, under }
    }
}

impl<'a, V: View> View for Tip<'a, V> {
    ghost use Rattle.coin_views.specs.Growth.{MayFetch};

    ghost coins = { λ v. means v.cache.now (V.coins v.under.now) };

    ghost counts = { λ v. counts_over v.cache.now (V.counts v.under.now) };

    ghost behind = { λ keys v w. (w.cache.ghost_name ≡ v.cache.ghost_name) × (w.under.ghost_name ≡ v.under.ghost_name) × (V.coins w.under.now ≡ V.coins v.under.now)
        × (StandsOver v.cache.now (V.coins v.under.now) → StandsOver w.cache.now (V.coins w.under.now)) × MayFetch keys v.cache.now w.cache.now × V.behind keys v.under.now w.under.now };

    ghost behind_none = { λ keys v. (refl, refl, refl, (λ h. h), record { grows = record { adds = λ q has. inl has; salt = refl }; changes = refl }, V.behind_none keys v.under.now) };

    ghost behind_then = { λ keys u v w a b. (
      b.0 ∙ a.0,
      b.1 ∙ a.1,
      b.2 ∙ a.2,
      (λ h. b.3 (a.3 h)),
      record { grows = record { adds = λ q has. ⊎_elim (λ was. a.4.grows.adds q was) (λ named. inr named) (b.4.grows.adds q has); salt = b.4.grows.salt ∙ a.4.grows.salt }; changes = b.4.changes ∙ a.4.changes },
      V.behind_then keys u.under.now v.under.now w.under.now a.5 b.5,
    ) };

    fn get(&mut self, key: &OutPoint) -> Result<Option<Coin>, StoreFault> {
        self.cache.get(self.under, key)
    }
}
