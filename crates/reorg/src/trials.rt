//! A block that is tried on the coins at the tip.

ghost use Rattle.std.specs.Prelude.{◌≡◌, ◌≤◌, ℕ, List, All, Option, Some, Err, IfOk, IfErr, IfSome};
ghost use Rattle.block_store.specs.Reading.{NoDamage};
ghost use Rattle.base_types.specs.Coins.{Coins};
ghost use Rattle.base_types.specs.Views.{FindsFault};
ghost use Rattle.chain_model.specs.Apply.{outcome};
ghost use Rattle.chain_model.specs.Connecting.{IsPayable, Leads, OnRefusal, asked_by, calls_of, store_part};
ghost use Rattle.chain_state.specs.Standing.{Carry};
ghost use Rattle.coin_cache.specs.Entries.{StandsOver};
ghost use Rattle.coin_store.specs.Behind.{AllRead};
ghost use Rattle.coin_store.specs.Viewing.{coins_seen};
ghost use Rattle.coin_views.specs.Layers.{block_means, block_of, layers_count, tip_means};
ghost use Rattle.disk_model.specs.Disk.{Quiet};
ghost use Rattle.reorg.specs.Advancing.{AdvanceFails};
ghost use Rattle.reorg.specs.Trials.{ConnectFails, IsTried, KeepsTip, NoneBroken, told_fault as as_told};

use base_types::{CoinRefused, StoreFault, View};
use block_codec::HashedBlock;
use chain_model::BlockUndo;
use coin_store::CoinStore;
use coin_views::Layers;
use connect::{ConnectFault, connect};
use disk_model::Disk;
use header_tree::Tree;
use std::alloc::Global;

/// The file of coins, where no manifest names another.
const COIN_FILE: u32 = 3;

/// Tries a block on the coins at the tip: the tip cache has the coins after it, or the coins stay, and the rule that the block
/// breaks is answered.
pub(crate) fn try_block<D: Disk>(
    alloc: Global,
    disk: &mut D,
    tree: &Tree,
    store: &CoinStore,
    layers: &mut Layers,
    block: &HashedBlock,
) -> Result<Option<CoinRefused>, StoreFault>
    requires { All IsPayable block.now.txs }
    ensures ok { (rows coins : Coins) → coins_seen store.now.mask store.now.index (D.contents disk.old) ≡ Some rows → Carry layers.old rows coins
        → IfOk result (IsTried layers.new rows coins (outcome tree.now.tree coins block.now)) }
    ensures whole { (image : ℕ → List ℕ) → D.contents disk.old ≡ Some image → AllRead store.now.mask store.now.index image → IfErr result NoDamage }
    ensures cause { IfErr result (AdvanceFails (D.faults disk.old) (D.faults disk.new)) }
    ensures faults { D.faults disk.old ≤ D.faults disk.new }
    ensures contents { D.contents disk.new ≡ D.contents disk.old }
    ensures quiet { Quiet D.time D.left_since disk.old disk.new }
{
    // Nothing stands in the block view, as after each trial.
    layers.drop_top();
    match connect_over_rows(alloc, disk, tree, store, layers, block) {
        Ok(_undo) => match layers.commit() {
            Ok(()) => Ok(None),
            Err(_) => Err(StoreFault::NoMemory),
        },
        Err(ConnectFault::Refused(rule)) => {
            layers.drop_top();
            Ok(Some(rule))
        }
        Err(ConnectFault::Store(fault)) => Err(told_fault(fault)),
    }
}

// Connects a block in the block view over the coins of a file's rows.
fn connect_over_rows<D: Disk>(
    alloc: Global,
    disk: &mut D,
    tree: &Tree,
    store: &CoinStore,
    layers: &mut Layers,
    block: &HashedBlock,
) -> Result<BlockUndo, ConnectFault>
    requires payable { All IsPayable block.now.txs }
    requires over_tip { (told : Option Coins) → StandsOver (block_of layers.old) (tip_means layers.old told) }
    ensures ok { (told : Option Coins) → coins_seen store.now.mask store.now.index (D.contents disk.old) ≡ told
        → IfOk result (λ _. Leads (λ before. outcome tree.now.tree before block.now) (block_means layers.old told) (block_means layers.new told)) }
    ensures refused { (told : Option Coins) → coins_seen store.now.mask store.now.index (D.contents disk.old) ≡ told
        → OnRefusal result (λ rule. IfSome (block_means layers.old told) (λ before. outcome tree.now.tree before block.now ≡ Err rule)) }
    ensures layers { (told : Option Coins) → coins_seen store.now.mask store.now.index (D.contents disk.old) ≡ told → KeepsTip layers.old layers.new told }
    ensures whole { (image : ℕ → List ℕ) → D.contents disk.old ≡ Some image → AllRead store.now.mask store.now.index image → NoneBroken result }
    ensures cause { ConnectFails (D.faults disk.old) (D.faults disk.new) result }
    ensures faults { D.faults disk.old ≤ D.faults disk.new }
    ensures contents { D.contents disk.new ≡ D.contents disk.old }
    ensures quiet { Quiet D.time D.left_since disk.old disk.new }
{
    let mut broken = Vec::new(alloc);
    let mut rows = store.view(disk, &mut broken);
    connect_over(alloc, &mut rows, tree, layers, block)
}

// Connects a block in the block view over any coins.
fn connect_over<V: View>(
    alloc: Global,
    under: &mut V,
    tree: &Tree,
    layers: &mut Layers,
    block: &HashedBlock,
) -> Result<BlockUndo, ConnectFault>
    requires payable { All IsPayable block.now.txs }
    requires over_tip { StandsOver (block_of layers.old) (tip_means layers.old (V.coins under.old)) }
    ensures ok { IfOk result (λ _. Leads (λ before. outcome tree.now.tree before block.now) (block_means layers.old (V.coins under.old)) (block_means layers.new (V.coins under.new))) }
    ensures refused { OnRefusal result (λ rule. IfSome (block_means layers.old (V.coins under.old)) (λ before. outcome tree.now.tree before block.now ≡ Err rule)) }
    ensures coins { V.coins under.new ≡ V.coins under.old }
    ensures layers { KeepsTip layers.old layers.new (V.coins under.old) }
    ensures cause { FindsFault (calls_of block.now.txs) (layers_count layers.old (V.counts under.old)) (layers_count layers.new (V.counts under.new)) (store_part result) }
    ensures behind { V.behind (asked_by block.now) under.old under.new }
{
    let mut coins = layers.block_view(under);
    connect(alloc, &mut coins, tree, block)
}

// A broken record is one of the file of coins. A cache that can't number more entries is told as want of memory.
fn told_fault(fault: StoreFault) -> StoreFault
    ensures { result ≡ as_told fault }
{
    match fault {
        StoreFault::DiskFailed => StoreFault::DiskFailed,
        StoreFault::Damaged { at, .. } => StoreFault::Damaged {
            file: COIN_FILE,
            at,
        },
        StoreFault::NoMemory | StoreFault::Full { .. } | StoreFault::CacheFull => {
            StoreFault::NoMemory
        }
    }
}
