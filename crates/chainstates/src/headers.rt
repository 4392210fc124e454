//! Headers that are offered.

ghost use Rattle.std.specs.Prelude.{◌≡◌, ◌≤◌, ℕ, IfOk, IfErr, OnErr};
ghost use Rattle.chainstates.specs.Offers.{HasTaken, HasTakenSome, Stands};
ghost use Rattle.chainstates.specs.Standing.{KeepsFiles, KeepsSettings};
ghost use Rattle.machine.specs.State.{State};
ghost use Rattle.store_state.specs.Settled.{IsSettled};
ghost use Rattle.store_state.specs.State.{StoreState};
ghost use Rattle.store_writes.specs.Written.{HeadersCause};

use crate::closing::close;
use crate::offers::Closure;
use crate::session::Session;
use base_types::StoreFault;
use block_codec::Header;
use disk_model::Disk;
use std::alloc::{AllocError, Global};
use store_writes::store_all_headers;

impl Session {
    /// Adds headers to the tree, in rounds over them until a round adds none, and stores what was added, up to 1,000 in one
    /// payload. One that finds the tree full ends the work; any other that breaks a rule is passed over. A crash leaves a
    /// first part of the payloads. After an error the session is used no more.
    pub fn offer_headers<D: Disk>(
        &mut self,
        alloc: Global,
        disk: &mut D,
        headers: &[Header],
    ) -> Result<Closure, StoreFault>
        ensures ok { (limit : ℕ) (state : State) (store : StoreState)
            → Stands limit (D.contents disk.old) (D.left_since disk.old (D.time disk.old)) self.old state store → IsSettled store
            → IfOk result (HasTaken limit (D.left_since disk.old) (D.left_since disk.new) (D.time disk.old) (D.time disk.new) (D.contents disk.old) (D.contents disk.new) self.new state store headers.now) }
        ensures err { (limit : ℕ) (state : State) (store : StoreState)
            → Stands limit (D.contents disk.old) (D.left_since disk.old (D.time disk.old)) self.old state store → IsSettled store
            → OnErr result (HasTakenSome limit (D.left_since disk.old) (D.left_since disk.new) (D.time disk.old) (D.time disk.new) (D.contents disk.old) (D.contents disk.new) state store headers.now) }
        ensures cause { IfErr result (HeadersCause self.new.shared.blocks.headers (D.faults disk.old) (D.faults disk.new)) }
        ensures later { D.time disk.old ≤ D.time disk.new }
        ensures faults { D.faults disk.old ≤ D.faults disk.new }
        ensures set { KeepsSettings self.old self.new }
        ensures files { KeepsFiles self.old self.new }
    {
        let before = self.shared.tree.size();
        let closing = match close(alloc, &mut self.shared.tree, headers) {
            Ok(closing) => closing,
            Err(AllocError) => return Err(StoreFault::NoMemory),
        };
        let added = closing.added.as_slice();
        match store_all_headers(disk, &mut self.shared.blocks, added) {
            Ok(()) => Ok(Closure {
                added: self.shared.tree.size() - before,
                tree_full: closing.full,
            }),
            Err(fault) => Err(fault),
        }
    }
}
