//! What the records of bodies and of coins refer to.

ghost use Rattle.std.specs.Prelude.{◌≡◌, ℕ, List, map, length, true, OnOk, IfOk, IfErr};
ghost use Rattle.std.specs.List.{list_all};
ghost use Rattle.block_codec.specs.Genesis.{genesis_hash as genesis};
ghost use Rattle.block_store.specs.Opening.{DamagedAs};
ghost use Rattle.chain_model.specs.Tree.{Tree as ATree};
ghost use Rattle.chainstates.specs.Reading.{AllAt, CheckCause, HasBodies, bodies_in, batches_in, hash_of_body, known_tips};
ghost use Rattle.coin_store.specs.Batches.{Batch, Row};
ghost use Rattle.coin_store.specs.Store.{Knows, texts};
ghost use Rattle.store_state.specs.State.{StoredBody, body_file, coin_file, first_key, is_reached as reached, tip_of_marker};

use base_types::{Hash32, StoreFault};
use block_codec::genesis_hash;
use block_store::BlockStore;
use coin_store::{CoinStore, Marker};
use header_tree::Tree;

/// The file of bodies.
const BODY_FILE: u32 = 2;

/// The file of coins, where no manifest names another.
pub(crate) const COIN_FILE: u32 = 3;

/// The hash of each stored body is in the tree. `Damaged` names the first record of another.
pub(crate) fn check_bodies(blocks: &BlockStore, tree: &Tree) -> Result<(), StoreFault>
    ensures ok { (payloads : List (List ℕ)) → HasBodies blocks.now payloads → OnOk result ((bodies : List StoredBody) × (bodies_in tree.now.tree payloads ≡ Ok bodies) × (map hash_of_body bodies ≡ blocks.now.hashes)) }
    ensures damaged { (payloads : List (List ℕ)) → HasBodies blocks.now payloads → IfErr result (DamagedAs (bodies_in tree.now.tree payloads)) }
    ensures cause { IfErr result (CheckCause body_file) }
{
    for number in 0..u64::MAX {
        let Some((hash, at)) = blocks.body_at(number) else {
            return Ok(());
        };
        if tree.header(&hash).is_none() {
            return Err(StoreFault::Damaged {
                file: BODY_FILE,
                at,
            });
        }
    }
    Err(StoreFault::NoMemory)
}

/// Each batch has a marker `At` a tip, each tip is in the tree, and each block on the way to the last one has a body.
/// `Damaged` names the first record of another marker, or else that of the first unknown tip, or else the last record.
pub(crate) fn check_batches(
    blocks: &BlockStore,
    coins: &CoinStore,
    tree: &Tree,
) -> Result<(), StoreFault>
    ensures ok { (base : List (List Row)) (batches : List Batch) (bodies : List StoredBody) → Knows coins.now base batches → coins.now.mask ≡ first_key → map hash_of_body bodies ≡ blocks.now.hashes
        → OnOk result (batches_in tree.now.tree bodies (texts first_key batches) ≡ Ok batches) }
    ensures damaged { (base : List (List Row)) (batches : List Batch) (bodies : List StoredBody) → Knows coins.now base batches → coins.now.mask ≡ first_key → map hash_of_body bodies ≡ blocks.now.hashes
        → IfErr result (DamagedAs (batches_in tree.now.tree bodies (texts first_key batches))) }
    ensures cause { IfErr result (CheckCause coin_file) }
{
    if let Err(fault) = check_markers(coins) {
        return Err(fault);
    }
    let count = match count_tips(coins, tree) {
        Ok(count) => count,
        Err(fault) => return Err(fault),
    };
    if count == 0 {
        return Ok(());
    }
    let Some((marker, at)) = coins.marker_at(count - 1) else {
        return Ok(());
    };
    if is_reached(blocks, tree, &tip_of(&marker)) {
        return Ok(());
    }
    Err(StoreFault::Damaged {
        file: COIN_FILE,
        at,
    })
}

// Each batch has a marker `At` a tip.
fn check_markers(coins: &CoinStore) -> Result<(), StoreFault>
    ensures ok { (base : List (List Row)) (batches : List Batch) → Knows coins.now base batches → OnOk result (AllAt batches) }
    ensures damaged { (base : List (List Row)) (batches : List Batch) → Knows coins.now base batches → coins.now.mask ≡ first_key → (tree : ATree) (bodies : List StoredBody)
        → IfErr result (DamagedAs (batches_in tree bodies (texts first_key batches))) }
    ensures cause { IfErr result (CheckCause coin_file) }
{
    for number in 0..u64::MAX {
        match coins.marker_at(number) {
            Some((Marker::At { .. }, _)) => (),
            Some((Marker::Between { .. }, at)) => {
                return Err(StoreFault::Damaged {
                    file: COIN_FILE,
                    at,
                });
            }
            None => return Ok(()),
        }
    }
    Err(StoreFault::NoMemory)
}

// The number of batches, each with a tip that is in the tree.
fn count_tips(coins: &CoinStore, tree: &Tree) -> Result<u64, StoreFault>
    ensures ok { (base : List (List Row)) (batches : List Batch) → Knows coins.now base batches → AllAt batches
        → IfOk result (λ count. (count ≡ length batches) × (list_all (known_tips tree.now.tree) batches ≡ true)) }
    ensures damaged { (base : List (List Row)) (batches : List Batch) → Knows coins.now base batches → coins.now.mask ≡ first_key → AllAt batches → (bodies : List StoredBody)
        → IfErr result (DamagedAs (batches_in tree.now.tree bodies (texts first_key batches))) }
    ensures cause { IfErr result (CheckCause coin_file) }
{
    for number in 0..u64::MAX {
        let Some((marker, at)) = coins.marker_at(number) else {
            return Ok(number);
        };
        if tree.header(&tip_of(&marker)).is_none() {
            return Err(StoreFault::Damaged {
                file: COIN_FILE,
                at,
            });
        }
    }
    Err(StoreFault::NoMemory)
}

/// The tip that a chainstate is at with this marker.
pub(crate) fn tip_of(marker: &Marker) -> Hash32
    ensures { result ≡ tip_of_marker marker.now }
{
    match marker {
        Marker::At { tip } => *tip,
        Marker::Between { new_tip, .. } => *new_tip,
    }
}

// Whether genesis is this block or below it, and each block after genesis up to it has a body.
fn is_reached(blocks: &BlockStore, tree: &Tree, tip: &Hash32) -> bool
    ensures { (bodies : List StoredBody) → map hash_of_body bodies ≡ blocks.now.hashes → result ≡ reached tree.now.tree bodies genesis tip.now }
{
    let genesis = genesis_hash();
    let mut hash = *tip;
    for _step in 0..tree.size() {
        if hash == genesis {
            return true;
        }
        let Some(header) = tree.header(&hash) else {
            return false;
        };
        if !blocks.has_body(&hash) {
            return false;
        }
        hash = header.prev;
    }
    false
}
