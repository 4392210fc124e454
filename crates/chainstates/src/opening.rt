//! Opening the files of a store.

ghost use Rattle.std.specs.Prelude.{◌≡◌, ◌≤◌, ◌^◌, ℕ, List, [], Some, None, Ok, IfOk, IfErr};
ghost use Rattle.block_store.specs.OpenStore.{Payloads, Holds};
ghost use Rattle.batch_log.specs.Records.{SameLog};
ghost use Rattle.chainstates.specs.Opening.{BreaksIn, HasOpened, HasOpenedCoins, IsCoinDamage, OpenFault, SameLogs, StopsIn, store_in, store_of};
ghost use Rattle.coin_store.specs.Batches.{Batch};
ghost use Rattle.coin_store.specs.Files.{InFiles, IsOneOf, IsTiny, OthersKeptBut};
ghost use Rattle.coin_store.specs.Store.{Knows};
ghost use Rattle.disk_model.specs.Disk.{Leaves, Quiet};
ghost use Rattle.store_state.specs.State.{StoredBody, coin_file, first_key, header_file, body_file};

use crate::checks::{COIN_FILE, check_batches, check_bodies};
use crate::tree_reading::read_tree;
use base_types::{Limits, Salt, StoreFault};
use block_codec::genesis_hash;
use block_store::BlockStore;
use coin_store::{CoinStore, Secrets};
use disk_model::Disk;
use header_tree::Tree;
use std::alloc::Global;

/// The key with which the coins of rows are obfuscated, where no manifest keeps one.
const FIRST_KEY: [u8; 8] = [0; 8];

/// Opens the files of headers, of bodies and of coins, in this order.
pub(crate) fn open_files<D: Disk>(
    alloc: Global,
    disk: &mut D,
    limits: &Limits,
    salt: &Salt,
) -> Result<(BlockStore, CoinStore), StoreFault>
    requires { limits.now.file_bytes ≤ 2 ^ 63 }
    ensures ok { (contents : ℕ → List ℕ) → D.contents disk.old ≡ Some contents
        → IfOk result (λ files. HasOpened contents (D.contents disk.new) (D.left_since disk.new (D.time disk.new)) files.0 files.1) }
    ensures damaged { (contents : ℕ → List ℕ) → D.contents disk.old ≡ Some contents → IfErr result (λ fault. (limit : ℕ) → BreaksIn limit contents fault) }
    ensures set { IfOk result (λ files. (files.0.headers.limit ≡ limits.now.file_bytes) × (files.0.bodies.limit ≡ limits.now.file_bytes) × (files.1.log.limit ≡ limits.now.file_bytes) × (files.1.index.salt ≡ salt.now)) }
    ensures named { IfOk result (λ files. (files.0.headers.file ≡ header_file) × (files.0.bodies.file ≡ body_file) × (files.1.log.file ≡ coin_file)) }
    ensures same { (contents : ℕ → List ℕ) → D.contents disk.old ≡ Some contents → Leaves D.time D.left_since SameLogs disk.old disk.new }
    ensures cause { IfErr result (OpenFault (D.faults disk.old) (D.faults disk.new)) }
    ensures faults { D.faults disk.old ≤ D.faults disk.new }
{
    let blocks = match BlockStore::open(alloc, disk, limits) {
        Ok(blocks) => blocks,
        Err(fault) => return Err(fault),
    };
    match open_coins(alloc, disk, limits, salt) {
        Ok(coins) => Ok((blocks, coins)),
        Err(fault) => Err(fault),
    }
}

// Opens the file of coins. There is no base file.
fn open_coins<D: Disk>(
    alloc: Global,
    disk: &mut D,
    limits: &Limits,
    salt: &Salt,
) -> Result<CoinStore, StoreFault>
    requires { limits.now.file_bytes ≤ 2 ^ 63 }
    ensures ok { (contents : ℕ → List ℕ) → D.contents disk.old ≡ Some contents
        → IfOk result (λ coins. HasOpenedCoins contents (D.contents disk.new) (D.left_since disk.new (D.time disk.new)) coins) }
    ensures damaged { (contents : ℕ → List ℕ) → D.contents disk.old ≡ Some contents → IfErr result (IsCoinDamage (contents coin_file)) }
    ensures set { IfOk result (λ coins. (coins.log.limit ≡ limits.now.file_bytes) × (coins.index.salt ≡ salt.now)) }
    ensures named { IfOk result (λ coins. coins.log.file ≡ coin_file) }
    ensures any_moment { (contents : ℕ → List ℕ) → D.contents disk.old ≡ Some contents → Leaves D.time D.left_since (InFiles (IsTiny (IsOneOf None coin_file) contents) SameLog) disk.old disk.new }
    ensures others { OthersKeptBut (IsOneOf None coin_file) (D.contents disk.old) (D.contents disk.new) }
    ensures cause { IfErr result (OpenFault (D.faults disk.old) (D.faults disk.new)) }
    ensures faults { D.faults disk.old ≤ D.faults disk.new }
{
    let secrets = Secrets {
        salt: *salt,
        key: FIRST_KEY,
    };
    CoinStore::open(
        alloc,
        disk,
        COIN_FILE,
        None,
        &genesis_hash(),
        limits,
        &secrets,
    )
}

/// Reads what the logs stand for: the tree of the headers, and that the other records refer to what is there.
pub(crate) fn read_files<D: Disk>(
    alloc: Global,
    disk: &mut D,
    limits: &Limits,
    blocks: &BlockStore,
    coins: &CoinStore,
) -> Result<Tree, StoreFault>
    ensures ok { (payloads : Payloads) (batches : List Batch) → Holds (D.contents disk.old) (D.left_since disk.old (D.time disk.old)) blocks.now payloads → Knows coins.now [] batches → coins.now.mask ≡ first_key
        → IfOk result (λ tree. (bodies : List StoredBody) × (store_in limits.now.headers payloads batches ≡ Ok (store_of tree.tree bodies batches))) }
    ensures damaged { (payloads : Payloads) (batches : List Batch) → Holds (D.contents disk.old) (D.left_since disk.old (D.time disk.old)) blocks.now payloads → Knows coins.now [] batches → coins.now.mask ≡ first_key
        → IfErr result (StopsIn limits.now.headers payloads batches) }
    ensures limit { IfOk result (λ tree. tree.limit ≡ limits.now.headers) }
    ensures cause { IfErr result (OpenFault (D.faults disk.old) (D.faults disk.new)) }
    ensures faults { D.faults disk.old ≤ D.faults disk.new }
    ensures contents { D.contents disk.new ≡ D.contents disk.old }
    ensures quiet { Quiet D.time D.left_since disk.old disk.new }
{
    let tree = match read_tree(alloc, disk, limits, blocks) {
        Ok(tree) => tree,
        Err(fault) => return Err(fault),
    };
    if let Err(fault) = check_bodies(blocks, &tree) {
        return Err(fault);
    }
    if let Err(fault) = check_batches(blocks, coins, &tree) {
        return Err(fault);
    }
    Ok(tree)
}
