//! The memory of one chunk: a block of 256 cells, each empty or holding a value. All raw pointers of the crate stand here.
ghost use Rattle.std.specs.Prelude.{◌≡◌, ◌<◌, List, Option, Some, None, length, replicate, get_or, slice_set, IfOk};
ghost use Rattle.std.specs.Borrow.{sem};
ghost use Rattle.std.specs.Vec.Ownership.{FitsInBlock};
ghost use base.Fml.{ftrue};
ghost use denote.RawPtr.{Ptr};
ghost use Rattle.slot_pool.specs.Held.{IsHeld};
ghost use Rattle.slot_pool.specs.Ownership.{cells_own, cells_lent, claim_owns};

use std::alloc::{AllocError, Allocator};
use std::marker::{Model, PhantomData};
use std::mem::{align_of, size_of};

/// A block of cells and the values in them. It isn't `Drop`, so neither a value nor the block is forgotten.
pub struct Cells<T> {
    start: *mut T,
    ghost held: { List (Option T) },
}

impl<T> Model for Cells<T> {
    ghost also_owns = { λ c. cells_own T.row c.start c.held };

    ghost also_shares = { λ c _ κ. cells_lent T.row c.start c.held κ };
}

/// The right to free the block at `start`, once. It takes no space.
pub struct Claim<T, A: Allocator> {
    mark: PhantomData<*const (T, A)>,
    ghost start: { Ptr },
    ghost alloc: { A },
}

impl<T, A: Allocator> Model for Claim<T, A> {
    ghost also_owns = { λ c. claim_owns T.row (A.dealloc_token c.alloc) c.start };

    ghost also_shares = { λ _ _ _. ftrue };
}

/// A block of 256 empty cells.
pub(crate) fn allocate<T, A: Allocator>(alloc: &A) -> Result<(Cells<T>, Claim<T, A>), AllocError>
    requires { FitsInBlock T.row 256 }
    ensures { IfOk result (λ r. (r.0.held ≡ replicate 256 None) × (r.1.start ≡ r.0.start) × (r.1.alloc ≡ alloc.now)) }
{
    match alloc.allocate(256 * size_of::<T>(), align_of::<T>()) {
        Ok(block) => {
            let start = block as *mut T;
            Ok((Cells { start }, Claim { mark: PhantomData }))
        }
        Err(error) => Err(error),
    }
}

/// Gives a block of empty cells back.
pub(crate) fn free<T, A: Allocator>(alloc: &A, cells: Cells<T>, claim: Claim<T, A>)
    requires { (cells.held ≡ replicate 256 None) × (claim.start ≡ cells.start) × (claim.alloc ≡ alloc.now) }
{
    let Cells { start } = cells;
    let Claim { mark: _ } = claim;
    unsafe {
        alloc.deallocate(start as *mut u8, 256 * size_of::<T>(), align_of::<T>());
    }
}

impl<T> Cells<T> {
    ghost use Rattle.slot_pool.specs.CellsLends.{lends_cell};

    pub(crate) fn put(&mut self, index: usize, value: T)
        requires { (index < length self.old.held) × (get_or self.old.held index None ≡ None) }
        ensures { (self.new.start ≡ self.old.start) × (self.new.held ≡ slice_set self.old.held index (Some value)) }
    {
        unsafe { self.start.add(index).write(value) }
    }

    pub(crate) fn take(&mut self, index: usize) -> T
        requires { IsHeld self.old.held index }
        ensures value { get_or self.old.held index None ≡ Some result }
        ensures rest { (self.new.start ≡ self.old.start) × (self.new.held ≡ slice_set self.old.held index None) }
    {
        unsafe { self.start.add(index).read() }
    }

    pub(crate) fn get(&self, index: usize) -> &T
        requires { IsHeld self.now.held index }
        ensures { get_or self.now.held index None ≡ Some result.now }
    {
        unsafe { &*self.start.add(index) }
    }

    pub(crate) fn get_mut(&mut self, index: usize) -> &mut T
        requires { IsHeld self.old.held index }
        ensures* writes_back { sem 𝓛 (lends_cell T.row self.entry index result) }
        ensures value { get_or self.old.held index None ≡ Some result.now }
    {
        unsafe { &mut *self.start.add(index) }
    }
}
