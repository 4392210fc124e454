//! The two layers, and the steps on both.

ghost use Rattle.std.specs.Prelude.{◌≡◌, ◌≢◌, ◌+◌, ◌<◌, ◌↔◌, ◌⊎◌, false, [], length, List, Option, Contains, IfOk, IfErr, IfSome, OnOk, OnErr, IsErrOf, option_map};
ghost use Rattle.std.specs.FinMap as map;
ghost use Rattle.std.specs.Borrow.{sem};
ghost use Rattle.base_types.specs.Coins.{Coins, CoinFits};
ghost use Rattle.base_types.specs.Views.{AnswersCoin, FindsFault, HasNoCoin, ViewCounts, max_entries, with_coin, without_coin};
ghost use Rattle.coin_cache.specs.Contents.{contents};
ghost use Rattle.coin_cache.specs.Entries.{KeepsEntries, StandsOver, entries_of, merged};
ghost use Rattle.coin_cache.specs.Flags.{flagged, flags_merged};
ghost use Rattle.coin_views.specs.Layers.{LayersGrow, LayersStand, block_means, block_of, emptied, layers_count, tip_means, tip_of};
ghost use Rattle.coin_views.specs.Lending.{LendsTip};

use crate::block_view::BlockView;
use crate::tip::Tip;
use base_types::{Coin, OutPoint, Salt, StoreFault, View};
use coin_cache::Cache;
use std::alloc::Global;

/// A tip cache, which is laid over a parent's view, and a block view over the tip cache.
#[derive(Drop)]
pub struct Layers {
    tip: Cache,
    block: Cache,
}

impl Layers {
    /// An empty tip cache with an empty block view over it. They take no memory, and have this salt.
    pub fn new(alloc: Global, salt: &Salt) -> Layers
        ensures tip { tip_of result ≡ contents map.empty [] 0 salt.now }
        ensures block { block_of result ≡ contents map.empty [] 0 salt.now }
        ensures coins { (told : Option Coins) → (block_means result told ≡ told) × LayersStand result told }
    {
        Layers {
            tip: Cache::new(alloc, salt),
            block: Cache::new(alloc, salt),
        }
    }

    /// The coins of the block view, over the tip cache and this parent. They can be changed; what the tip cache means stays. The
    /// block view has to stand over the tip cache, as an empty one does.
    pub fn block_view<'a, V: View>(&'a mut self, under: &'a mut V) -> BlockView<'a, V>
        requires { StandsOver (block_of self.old) (tip_means self.old (V.coins under.old)) }
        ensures same_references { (result.layers.ghost_name ≡ self.entry.ghost_name) × (result.under.ghost_name ≡ under.entry.ghost_name) }
        ensures values { (result.layers.now ≡ self.old) × (result.under.now ≡ under.old) }
    {
        BlockView::new(self, under)
    }

    /// Takes the changes of the block view over into the tip cache, which then means what the block view meant. The block
    /// view is empty then. All memory is taken before anything changes.
    pub fn commit(&mut self) -> Result<(), StoreFault>
        ensures coins { (told : Option Coins) → LayersStand self.old told → OnOk result ((tip_means self.new told ≡ block_means self.old told) × (block_means self.new told ≡ block_means self.old told) × LayersStand self.new told) }
        ensures each { OnOk result ((key : OutPoint) → map.get (entries_of (tip_of self.new)) key ≡ merged (map.get (entries_of (tip_of self.old)) key) (map.get (entries_of (block_of self.old)) key)) }
        ensures order { OnOk result (flagged (tip_of self.new) ≡ flags_merged (entries_of (tip_of self.old)) (entries_of (block_of self.old)) (flagged (block_of self.old)) (flagged (tip_of self.old))) }
        ensures block { OnOk result (block_of self.new ≡ emptied (block_of self.old)) }
        ensures salt { (tip_of self.new).salt ≡ (tip_of self.old).salt }
        ensures err { OnErr result (KeepsEntries (tip_of self.old) (tip_of self.new) × (block_of self.new ≡ block_of self.old)) }
        ensures full { IsErrOf result StoreFault.CacheFull ↔ (max_entries < map.len (tip_of self.old).slots + length (block_of self.old).changes) }
        ensures cause { IfErr result (λ fault. (fault ≡ StoreFault.NoMemory) ⊎ (fault ≡ StoreFault.CacheFull)) }
    {
        let changes = self.block.dirty();
        match self.tip.reserve(changes) {
            Ok(()) => {}
            Err(fault) => return Err(fault),
        }
        self.tip.merge(&mut self.block);
        Ok(())
    }

    /// Takes away what the block view has, so that it means what the tip cache means.
    pub fn drop_top(&mut self)
        ensures tip { tip_of self.new ≡ tip_of self.old }
        ensures block { block_of self.new ≡ emptied (block_of self.old) }
        ensures over_tip { (told : Option Coins) → StandsOver (block_of self.new) (tip_means self.new told) }
        ensures coins { (told : Option Coins) → (block_means self.new told ≡ tip_means self.old told) × (StandsOver (tip_of self.old) told → LayersStand self.new told) }
    {
        self.block.clear();
    }

    /// The tip cache, for writing. The block view has to be empty.
    pub fn tip_cache(&mut self) -> &mut Cache
        requires { (block_of self.old).slots ≡ map.empty }
        ensures* writes_back { sem 𝓛 (LendsTip self.entry result) }
        ensures value { result.now ≡ tip_of self.old }
    {
        &mut self.tip
    }
}

// What the block view asks of the layers.
impl Layers {
    // The coin of an outpoint.
    pub(crate) fn get<V: View>(
        &mut self,
        under: &mut V,
        key: &OutPoint,
    ) -> Result<Option<Coin>, StoreFault>
        ensures coin { AnswersCoin (block_means self.old (V.coins under.old)) key.now result }
        ensures fits { IfOk result (λ coin. IfSome coin CoinFits) }
        ensures coins { block_means self.new (V.coins under.new) ≡ block_means self.old (V.coins under.old) }
        ensures parent { V.coins under.new ≡ V.coins under.old }
        ensures over_tip { StandsOver (block_of self.old) (tip_means self.old (V.coins under.old)) → StandsOver (block_of self.new) (tip_means self.new (V.coins under.new)) }
        ensures grows { (keys : List OutPoint) → Contains keys key.now → LayersGrow keys self.old self.new (V.coins under.old) (V.coins under.new) }
        ensures cause { FindsFault 1 (layers_count self.old (V.counts under.old)) (layers_count self.new (V.counts under.new)) result }
        ensures behind { (keys : List OutPoint) → Contains keys key.now → V.behind keys under.old under.new }
    {
        let mut below = Tip::new(&mut self.tip, under);
        self.block.get(&mut below, key)
    }

    // Puts a coin at an outpoint.
    pub(crate) fn add(
        &mut self,
        key: &OutPoint,
        coin: Coin,
        may_overwrite: bool,
    ) -> Result<(), StoreFault>
        requires { CoinFits coin }
        ensures tip { tip_of self.new ≡ tip_of self.old }
        ensures coins { (told : Option Coins) → block_means self.new told ≡ option_map (with_coin result key.now coin) (block_means self.old told) }
        ensures over_tip { (told : Option Coins) → (may_overwrite ≡ false → HasNoCoin (block_means self.old told) key.now) → StandsOver (block_of self.old) (tip_means self.old told) → StandsOver (block_of self.new) (tip_means self.new told) }
        ensures grows { (keys : List OutPoint) (told : Option Coins) → Contains keys key.now → LayersGrow keys self.old self.new told told }
        ensures cause { (counts : ViewCounts) → FindsFault 1 (layers_count self.old counts) (layers_count self.new counts) result }
    {
        self.block.add(key, coin, may_overwrite)
    }

    // Takes the coin of an outpoint away.
    pub(crate) fn spend<V: View>(
        &mut self,
        under: &mut V,
        key: &OutPoint,
    ) -> Result<Option<Coin>, StoreFault>
        ensures coin { AnswersCoin (block_means self.old (V.coins under.old)) key.now result }
        ensures fits { IfOk result (λ coin. IfSome coin CoinFits) }
        ensures coins { StandsOver (block_of self.old) (tip_means self.old (V.coins under.old)) → block_means self.new (V.coins under.new) ≡ option_map (without_coin result key.now) (block_means self.old (V.coins under.old)) }
        ensures parent { V.coins under.new ≡ V.coins under.old }
        ensures over_tip { StandsOver (block_of self.old) (tip_means self.old (V.coins under.old)) → StandsOver (block_of self.new) (tip_means self.new (V.coins under.new)) }
        ensures grows { (keys : List OutPoint) → Contains keys key.now → LayersGrow keys self.old self.new (V.coins under.old) (V.coins under.new) }
        ensures cause { FindsFault 1 (layers_count self.old (V.counts under.old)) (layers_count self.new (V.counts under.new)) result }
        ensures behind { (keys : List OutPoint) → Contains keys key.now → V.behind keys under.old under.new }
    {
        let mut below = Tip::new(&mut self.tip, under);
        self.block.spend(&mut below, key)
    }
}
