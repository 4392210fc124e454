//! An open store.

ghost use Rattle.std.specs.Prelude.{◌≡◌, ◌≤◌, ◌^◌, ℕ, List, true, Some, IfOk, IfErr, OnErr};
ghost use Rattle.std.specs.FinMap as finite;
ghost use Rattle.chain_model.specs.Tree.{height as height_of};
ghost use Rattle.chainstates.specs.Opening.{BreaksIn, OpenFault};
ghost use Rattle.chainstates.specs.Standing.{HasStoreFiles, OpensSession, IsSetTo, found_in};
ghost use Rattle.machine.specs.Calls.{FailsToOpen};
ghost use Rattle.store_state.specs.State.{first_rules};

use crate::checks::tip_of;
use crate::opening::{open_files, read_files};
use crate::waiting::find_waiting;
use base_types::{Hash32, Limits, Salt, StoreFault};
use chain_state::{ChainState, Shared};
use coin_views::Layers;
use disk_model::Disk;
use machine::Found;
use std::alloc::{AllocError, Global};

/// A store that is open: its headers and bodies, and its chainstate.
#[derive(Drop)]
pub struct Session {
    pub(crate) shared: Shared,
    pub(crate) active: ChainState,
}

/// What is told of an open store: the number of its headers, the height of its tip, and the tip.
#[derive(Clone, Copy, Debug, PartialEq, Eq)]
pub struct Info {
    pub headers: u32,
    pub height: u32,
    pub tip: Hash32,
}

impl Session {
    /// Opens the files of headers, of bodies and of coins, before anything else, and reads what they stand for. The machine
    /// begins with that, and a crash leaves what it might have left before. `Damaged` names a record that is broken.
    pub fn open<D: Disk>(
        alloc: Global,
        disk: &mut D,
        limits: &Limits,
        salt: &Salt,
    ) -> Result<Session, StoreFault>
        requires { limits.now.file_bytes ≤ 2 ^ 63 }
        ensures ok { (contents : ℕ → List ℕ) → D.contents disk.old ≡ Some contents
            → IfOk result (OpensSession limits.now.headers (D.left_since disk.old) (D.left_since disk.new) (D.time disk.old) (D.time disk.new) contents (D.contents disk.new)) }
        ensures err { (contents : ℕ → List ℕ) → D.contents disk.old ≡ Some contents
            → OnErr result (FailsToOpen limits.now.headers first_rules (D.left_since disk.old) (D.left_since disk.new) (D.time disk.old) (D.time disk.new)) }
        ensures damaged { (contents : ℕ → List ℕ) → D.contents disk.old ≡ Some contents → IfErr result (BreaksIn limits.now.headers contents) }
        ensures set { IfOk result (IsSetTo limits.now salt.now) }
        ensures named { IfOk result HasStoreFiles }
        ensures cause { IfErr result (OpenFault (D.faults disk.old) (D.faults disk.new)) }
        ensures faults { D.faults disk.old ≤ D.faults disk.new }
    {
        let (blocks, coins) = match open_files(alloc, disk, limits, salt) {
            Ok(files) => files,
            Err(fault) => return Err(fault),
        };
        let tree = match read_files(alloc, disk, limits, &blocks, &coins) {
            Ok(tree) => tree,
            Err(fault) => return Err(fault),
        };
        let tip = tip_of(&coins.marker());
        match find_waiting(alloc, &blocks, &tree, &tip) {
            Ok(waiting) => Ok(Session {
                shared: Shared { tree, blocks },
                active: ChainState {
                    tip,
                    store: coins,
                    layers: Layers::new(alloc, salt),
                    waiting,
                },
            }),
            Err(AllocError) => Err(StoreFault::NoMemory),
        }
    }

    /// What its opening found, while nothing was done since: the last marker of the file of coins, and the tip. It takes no
    /// memory.
    pub fn found(&self) -> Found
        ensures { result ≡ found_in self.now }
    {
        Found {
            marker: self.active.store.marker(),
            tip: self.active.tip,
        }
    }

    /// What is told of it. It takes no memory.
    pub fn info(&self) -> Info
        ensures headers { result.headers ≡ finite.len self.now.shared.tree.tree.headers }
        ensures height { finite.contains_key self.now.shared.tree.tree.headers self.now.active.tip ≡ true → result.height ≡ height_of self.now.shared.tree.tree.headers self.now.active.tip }
        ensures tip { result.tip ≡ self.now.active.tip }
    {
        let tree = &self.shared.tree;
        let tip = self.active.tip;
        Info {
            headers: tree.size(),
            height: tree.height(&tip).unwrap_or(0),
            tip,
        }
    }
}
