//! Where a block stands.

ghost use Rattle.std.specs.Prelude.{◌≡◌, ◌+◌, ◌<◌, ◌^◌, IfOk};
ghost use Rattle.chain_model.specs.Tree.{height as height_of, median_time as median_of};
ghost use Rattle.chain_model.specs.Apply.{median_at as median_on};

use crate::tree_view::TreeView;
use base_types::Hash32;
use std::alloc::AllocError;

// The greatest height of a coin.
const MAX_HEIGHT: u32 = (1 << 31) - 1;

/// A block's place in a tree: below this parent, at this height.
#[derive(Clone, Copy)]
pub(crate) struct Context<'a, T> {
    pub(crate) tree: &'a T,
    pub(crate) parent: &'a Hash32,
    pub(crate) height: u32,
}

impl<'a, T: TreeView> Context<'a, T> {
    /// Where a block stands below this parent. No memory holds a chain of 2^31 headers.
    pub(crate) fn below(tree: &'a T, parent: &'a Hash32) -> Result<Context<'a, T>, AllocError>
        ensures tree { IfOk result (λ context. context.tree.now ≡ tree.now) }
        ensures parent { IfOk result (λ context. context.parent.now ≡ parent.now) }
        ensures height { IfOk result (λ context. context.height ≡ height_of (T.tree tree.now).headers parent.now + 1) }
        ensures low { IfOk result (λ context. context.height < 2 ^ 31) }
    {
        let below = tree.height(parent).unwrap_or(0);
        if below >= MAX_HEIGHT {
            return Err(AllocError);
        }
        Ok(Context {
            tree,
            parent,
            height: below + 1,
        })
    }

    /// The median time of the block at a height on the parent's chain; 0 where there is none.
    pub(crate) fn median_at(&self, height: u32) -> u32
        ensures { result ≡ median_on (T.tree self.now.tree.now) self.now.parent.now height }
    {
        match self.tree.ancestor(self.parent, height) {
            Some(hash) => median_time(self.tree, &hash),
            None => 0,
        }
    }

    /// The median time of the parent.
    pub(crate) fn median(&self) -> u32
        ensures { result ≡ median_of (T.tree self.now.tree.now).headers self.now.parent.now }
    {
        median_time(self.tree, self.parent)
    }
}

// The median time of a block, and 0 where the tree hasn't the block.
fn median_time<T: TreeView>(tree: &T, hash: &Hash32) -> u32
    ensures { result ≡ median_of (T.tree tree.now).headers hash.now }
{
    tree.median_time(hash).unwrap_or(0)
}
