//! The tree of the stored headers.

ghost use Rattle.std.specs.Prelude.{◌≡◌, ◌≤◌, ◌<◌, ◌⊎◌, ℕ, List, Some, None, Ok, IfOk, IfErr, OnOk};
ghost use Rattle.base_types.specs.declared.fault.StoreFault.TheVariants.{NoMemory, Damaged};
ghost use Rattle.block_store.specs.OpenStore.{Payloads, Holds};
ghost use Rattle.block_store.specs.Opening.{OpenCause};
ghost use Rattle.chain_model.specs.HeaderRules.{tree_with};
ghost use Rattle.chainstates.specs.Reading.{tree_in, IsRefused};
ghost use Rattle.batch_log.specs.Reading.{WhereDamaged};
ghost use Rattle.disk_model.specs.Disk.{Quiet};
ghost use Rattle.store_state.specs.State.{header_file, first_rules};

use base_types::{Limits, Rules, StoreFault};
use block_store::{BlockStore, HeaderRecord};
use disk_model::Disk;
use header_tree::{AcceptFault, Tree};
use std::alloc::Global;

/// The file of headers.
const HEADER_FILE: u32 = 1;

/// Four rules that hold from the first block on: no store keeps others yet.
const FIRST_RULES: Rules = Rules {
    version4: 1,
    bip34: 1,
    csv: 1,
    segwit: 1,
};

/// Reads the tree of the stored headers. `Damaged` names the record of the first header that is refused.
pub(crate) fn read_tree<D: Disk>(
    alloc: Global,
    disk: &mut D,
    limits: &Limits,
    blocks: &BlockStore,
) -> Result<Tree, StoreFault>
    ensures ok { (payloads : Payloads) → Holds (D.contents disk.old) (D.left_since disk.old (D.time disk.old)) blocks.now payloads
        → IfOk result (λ tree. tree_in limits.now.headers payloads.headers ≡ Ok tree.tree) }
    ensures damaged { (payloads : Payloads) → Holds (D.contents disk.old) (D.left_since disk.old (D.time disk.old)) blocks.now payloads
        → IfErr result (WhereDamaged (λ file at. (file ≡ header_file) × IsRefused limits.now.headers payloads.headers at)) }
    ensures limit { IfOk result (λ tree. tree.limit ≡ limits.now.headers) }
    ensures cause { IfErr result (OpenCause (D.faults disk.old) (D.faults disk.new)) }
    ensures faults { D.faults disk.old ≤ D.faults disk.new }
    ensures contents { D.contents disk.new ≡ D.contents disk.old }
    ensures quiet { Quiet D.time D.left_since disk.old disk.new }
{
    let mut tree = Tree::new(alloc, limits, &FIRST_RULES)?;
    for number in 0..u64::MAX {
        match blocks.headers(disk, number) {
            Ok(Some(stored)) => {
                if let Err(fault) = add_record(&mut tree, &stored) {
                    return Err(fault);
                }
            }
            Ok(None) => return Ok(tree),
            Err(fault) => return Err(fault),
        }
    }
    Err(StoreFault::NoMemory)
}

// Adds the headers of a record to the tree, unless one is refused.
fn add_record(tree: &mut Tree, stored: &HeaderRecord) -> Result<(), StoreFault>
    ensures ok { OnOk result (tree_with tree.old.limit tree.old.tree stored.now.headers ≡ Some tree.new.tree) }
    ensures err { IfErr result (λ fault. (fault ≡ NoMemory) ⊎ ((fault ≡ Damaged header_file stored.now.at) × (tree_with tree.old.limit tree.old.tree stored.now.headers ≡ None))) }
    ensures limit { tree.new.limit ≡ tree.old.limit }
{
    for header in stored.headers.as_slice() {
        match tree.accept(header) {
            Ok(_) => (),
            Err(AcceptFault::NoMemory) => return Err(StoreFault::NoMemory),
            Err(AcceptFault::Refused(_)) => {
                return Err(StoreFault::Damaged {
                    file: HEADER_FILE,
                    at: stored.at,
                });
            }
        }
    }
    Ok(())
}
