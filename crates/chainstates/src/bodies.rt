//! Bodies that are offered.

ghost use Rattle.std.specs.Prelude.{◌≡◌, ◌≢◌, ◌≤◌, ◌||◌, ℕ, List, [], Some, is_some, true, false, IfOk, IfErr, OnOk, OnErr};
ghost use Rattle.std.specs.FinMap.{get, contains_key};
ghost use Rattle.block_codec.specs.Genesis.{genesis_hash as genesis};
ghost use Rattle.block_codec.specs.Text.{hash_of_header, same_hash, text_of};
ghost use Rattle.block_store.specs.Index.{last_place};
ghost use Rattle.chainstates.specs.Offers.{HasOffered, HasOfferedPart, OfferFails, Stands};
ghost use Rattle.chainstates.specs.Standing.{KeepsFiles, KeepsSettings};
ghost use Rattle.chainstates.specs.Taking.{HasMoved, HasStored, IsNew};
ghost use Rattle.machine.specs.State.{BodyStored, State};
ghost use Rattle.store_state.specs.Settled.{IsSettled};
ghost use Rattle.store_state.specs.State.{StoreState};
ghost use Rattle.store_writes.specs.Written.{WritesPart};

use crate::offers::Offered;
use crate::session::Session;
use base_types::{Hash32, StoreFault};
use block_checks::{CheckFault, check_hashed_body};
use block_codec::{Block, HashedBlock, Header, genesis_hash};
use block_store::BlockStore;
use disk_model::Disk;
use header_tree::Tree;
use reorg::{Refusals, advance};
use std::alloc::{AllocError, Global};
use store_writes::store_body;

impl Session {
    /// Stores the body of a block, and moves the chainstate forward from it. Nothing happens where it is stored already, where
    /// its header isn't that of the tree under its hash, or where it breaks a rule of bodies. A crash leaves the body or not.
    /// After an error the session is used no more.
    pub fn offer_body<D: Disk>(
        &mut self,
        alloc: Global,
        disk: &mut D,
        block: &HashedBlock,
    ) -> Result<Offered, StoreFault>
        ensures ok { (limit : ℕ) (state : State) (store : StoreState) (text : List ℕ)
            → Stands limit (D.contents disk.old) (D.left_since disk.old (D.time disk.old)) self.old state store → IsSettled store → text_of block.now ≡ Some text
            → IfOk result (HasOffered limit (D.left_since disk.old) (D.left_since disk.new) (D.time disk.old) (D.time disk.new) (D.contents disk.old) (D.contents disk.new) self.new state store block.now) }
        ensures err { (limit : ℕ) (state : State) (store : StoreState) (text : List ℕ)
            → Stands limit (D.contents disk.old) (D.left_since disk.old (D.time disk.old)) self.old state store → IsSettled store → text_of block.now ≡ Some text
            → OnErr result (HasOfferedPart limit (D.left_since disk.old) (D.left_since disk.new) (D.time disk.old) (D.time disk.new) (D.contents disk.old) (D.contents disk.new) state store block.now) }
        ensures cause { IfErr result (OfferFails self.old.shared.blocks.bodies block.now (D.faults disk.old) (D.faults disk.new)) }
        ensures later { D.time disk.old ≤ D.time disk.new }
        ensures faults { D.faults disk.old ≤ D.faults disk.new }
        ensures set { KeepsSettings self.old self.new }
        ensures files { KeepsFiles self.old self.new }
    {
        let hash = block.hash();
        if is_stored(&self.shared.blocks, hash) {
            return Ok(Offered::Known);
        }
        if !is_known(&self.shared.tree, hash, &block.block().header) {
            return Ok(Offered::NoHeader);
        }
        match check_hashed_body(alloc, block, &self.shared.tree) {
            Ok(()) => match self.take_body(alloc, disk, block) {
                Ok(refusals) => Ok(Offered::Stored(refusals)),
                Err(fault) => Err(fault),
            },
            Err(CheckFault::Refused(why)) => Ok(Offered::Refused(why)),
            Err(CheckFault::NoMemory) => Err(StoreFault::NoMemory),
        }
    }

    // Stores the body of a new block, and moves the chainstate forward from it.
    fn take_body<D: Disk>(
        &mut self,
        alloc: Global,
        disk: &mut D,
        block: &HashedBlock,
    ) -> Result<Refusals, StoreFault>
        ensures ok { (limit : ℕ) (state : State) (store : StoreState) (text : List ℕ)
            → Stands limit (D.contents disk.old) (D.left_since disk.old (D.time disk.old)) self.old state store → IsSettled store → text_of block.now ≡ Some text → IsNew state block.now
            → IfOk result (HasMoved limit (D.left_since disk.old) (D.left_since disk.new) (D.time disk.old) (D.time disk.new) (D.contents disk.old) (D.contents disk.new) self.new state store block.now) }
        ensures err { (limit : ℕ) (state : State) (store : StoreState) (text : List ℕ)
            → Stands limit (D.contents disk.old) (D.left_since disk.old (D.time disk.old)) self.old state store → IsSettled store → text_of block.now ≡ Some text → IsNew state block.now
            → OnErr result (WritesPart limit (D.left_since disk.old) (D.left_since disk.new) (D.time disk.old) (D.time disk.new) (D.contents disk.old) (D.contents disk.new) [] (BodyStored (hash_of_header block.now.header) block.now) store) }
        ensures cause { IfErr result (OfferFails self.old.shared.blocks.bodies block.now (D.faults disk.old) (D.faults disk.new)) }
        ensures later { D.time disk.old ≤ D.time disk.new }
        ensures faults { D.faults disk.old ≤ D.faults disk.new }
        ensures set { KeepsSettings self.old self.new }
        ensures files { KeepsFiles self.old self.new }
    {
        if let Err(fault) = self.store_block(disk, block.hash(), block.block()) {
            return Err(fault);
        }
        advance(alloc, disk, &self.shared, &mut self.active, block)
    }

    // Stores the body of a new block, which then waits above its parent. The memory for that is taken before the first write.
    fn store_block<D: Disk>(
        &mut self,
        disk: &mut D,
        hash: &Hash32,
        block: &Block,
    ) -> Result<(), StoreFault>
        requires { hash.now ≡ hash_of_header block.now.header }
        ensures ok { (limit : ℕ) (state : State) (store : StoreState) (text : List ℕ)
            → Stands limit (D.contents disk.old) (D.left_since disk.old (D.time disk.old)) self.old state store → IsSettled store → text_of block.now ≡ Some text → IsNew state block.now
            → OnOk result (HasStored limit (D.left_since disk.old) (D.left_since disk.new) (D.time disk.old) (D.time disk.new) (D.contents disk.old) (D.contents disk.new) self.new state store block.now) }
        ensures err { (limit : ℕ) (state : State) (store : StoreState) (text : List ℕ)
            → Stands limit (D.contents disk.old) (D.left_since disk.old (D.time disk.old)) self.old state store → IsSettled store → text_of block.now ≡ Some text → IsNew state block.now
            → OnErr result (WritesPart limit (D.left_since disk.old) (D.left_since disk.new) (D.time disk.old) (D.time disk.new) (D.contents disk.old) (D.contents disk.new) [] (BodyStored (hash_of_header block.now.header) block.now) store) }
        ensures cause { IfErr result (OfferFails self.old.shared.blocks.bodies block.now (D.faults disk.old) (D.faults disk.new)) }
        ensures later { D.time disk.old ≤ D.time disk.new }
        ensures faults { D.faults disk.old ≤ D.faults disk.new }
        ensures set { KeepsSettings self.old self.new }
        ensures files { KeepsFiles self.old self.new }
    {
        if let Err(AllocError) = self.active.waiting.add(&block.header.prev, hash) {
            return Err(StoreFault::NoMemory);
        }
        store_body(disk, &mut self.shared.blocks, hash, block)
    }
}

// Whether the body of a block is stored. That of genesis counts as stored.
fn is_stored(blocks: &BlockStore, hash: &Hash32) -> bool
    ensures { result ≡ (same_hash hash.now genesis || is_some (last_place blocks.now.hashes hash.now)) }
{
    *hash == genesis_hash() || blocks.has_body(hash)
}

// Whether this is the header of the tree under this hash. The parent of such a header is in the tree too, but for genesis.
fn is_known(tree: &Tree, hash: &Hash32, header: &Header) -> bool
    ensures yes { result ≡ true → get tree.now.tree.headers hash.now ≡ Some header.now }
    ensures no { result ≡ false → get tree.now.tree.headers hash.now ≢ Some header.now }
    ensures parent { result ≡ true → same_hash hash.now genesis ≡ false → contains_key tree.now.tree.headers header.now.prev ≡ true }
{
    // A tree grew from genesis by headers whose parents were there: its size says so.
    let _size = tree.size();
    has_header(tree, hash, header)
}

fn has_header(tree: &Tree, hash: &Hash32, header: &Header) -> bool
    ensures yes { result ≡ true → get tree.now.tree.headers hash.now ≡ Some header.now }
    ensures no { result ≡ false → get tree.now.tree.headers hash.now ≢ Some header.now }
{
    match tree.header(hash) {
        Some(known) => known == header,
        None => false,
    }
}
