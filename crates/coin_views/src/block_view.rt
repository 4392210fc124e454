//! The block view: coins that can be changed, over the tip cache.

ghost use Rattle.std.specs.Prelude.{◌≡◌, refl};
ghost use Rattle.std.proofs.Common.{◌∙◌, inl, inr, ⊎_elim};
ghost use Rattle.coin_cache.specs.Entries.{StandsOver};
ghost use Rattle.coin_views.specs.Layers.{LayersGrow, block_means, block_of, layers_count, tip_means};

use crate::layers::Layers;
use base_types::{Coin, CoinEdit, OutPoint, StoreFault, View};

/// The coins of the block view over a parent. Changes are made in the block view alone: what the tip cache and the parent mean
/// stays, and a look-up through both layers does to the parent what its own does. The tip cache goes on standing over the parent,
/// where it did.
#[derive(Drop)]
pub struct BlockView<'a, V: View> {
    layers: &'a mut Layers,
    under: &'a mut V,
    ghost stands: { StandsOver (block_of layers.now) (tip_means layers.now (V.coins under.now)) },
}

impl<'a, V: View> BlockView<'a, V> {
    pub(crate) fn new(layers: &'a mut Layers, under: &'a mut V) -> BlockView<'a, V>
        requires { StandsOver (block_of layers.old) (tip_means layers.old (V.coins under.old)) }
        ensures same_references { (result.layers.ghost_name ≡ layers.entry.ghost_name) × (result.under.ghost_name ≡ under.entry.ghost_name) }
        ensures values { (result.layers.now ≡ layers.old) × (result.under.now ≡ under.old) }
    {
        BlockView { layers, under }
    }
}

impl<'a, V: View> View for BlockView<'a, V> {
    ghost coins = { λ v. block_means v.layers.now (V.coins v.under.now) };

    ghost counts = { λ v. layers_count v.layers.now (V.counts v.under.now) };

    ghost behind = { λ keys v w. (w.layers.ghost_name ≡ v.layers.ghost_name) × (w.under.ghost_name ≡ v.under.ghost_name) × (V.coins w.under.now ≡ V.coins v.under.now)
        × LayersGrow keys v.layers.now w.layers.now (V.coins v.under.now) (V.coins w.under.now) × V.behind keys v.under.now w.under.now };

    ghost behind_none = { λ keys v. (refl, refl, refl, record { tip = record { grows = record { adds = λ q has. inl has; salt = refl }; changes = refl }; block = record { adds = λ q has. inl has; salt = refl }; means = refl; stands = λ h. h }, V.behind_none keys v.under.now) };

    ghost behind_then = { λ keys u v w a b. (
      b.0 ∙ a.0,
      b.1 ∙ a.1,
      b.2 ∙ a.2,
      record { tip = record { grows = record { adds = λ q has. ⊎_elim (λ was. a.3.tip.grows.adds q was) (λ named. inr named) (b.3.tip.grows.adds q has); salt = b.3.tip.grows.salt ∙ a.3.tip.grows.salt }; changes = b.3.tip.changes ∙ a.3.tip.changes }; block = record { adds = λ q has. ⊎_elim (λ was. a.3.block.adds q was) (λ named. inr named) (b.3.block.adds q has); salt = b.3.block.salt ∙ a.3.block.salt }; means = b.3.means ∙ a.3.means; stands = λ h. b.3.stands (a.3.stands h) },
      V.behind_then keys u.under.now v.under.now w.under.now a.4 b.4,
    ) };

    fn get(&mut self, key: &OutPoint) -> Result<Option<Coin>, StoreFault> {
        self.layers.get(self.under, key)
    }
}

impl<'a, V: View> CoinEdit for BlockView<'a, V> {
    fn add(&mut self, key: &OutPoint, coin: Coin, may_overwrite: bool) -> Result<(), StoreFault> {
        self.layers.add(key, coin, may_overwrite)
    }

    fn spend(&mut self, key: &OutPoint) -> Result<Option<Coin>, StoreFault> {
        self.layers.spend(self.under, key)
    }
}
