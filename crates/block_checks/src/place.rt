//! Where a block stands.

ghost use Rattle.std.specs.Prelude.{◌≡◌, true};
ghost use Rattle.std.specs.FinMap.{contains_key};
ghost use Rattle.chain_model.specs.BodyRules.{place_below, knows_witnesses as witnesses_known};
ghost use Rattle.block_checks.specs.Place.{place_of};

use base_types::{Hash32, Rules};
use chain_model::TreeView;

/// The height of a block, the median time of its parent in seconds since 1970, and the heights from which four rules
/// hold.
#[derive(Clone, Copy, Debug, PartialEq, Eq)]
pub(crate) struct Place {
    pub(crate) height: u64,
    pub(crate) median: u32,
    pub(crate) rules: Rules,
}

impl Place {
    /// Where a block stands whose parent is in a tree.
    pub(crate) fn below<T: TreeView>(tree: &T, parent: &Hash32) -> Place
        requires { contains_key (T.tree tree.now).headers parent.now ≡ true }
        ensures { place_of result ≡ place_below (T.tree tree.now) parent.now }
    {
        Place {
            height: u64::from(tree.height(parent).unwrap()) + 1,
            median: tree.median_time(parent).unwrap(),
            rules: *tree.rules(),
        }
    }

    /// Whether witnesses are known at this height (BIP 141).
    pub(crate) fn knows_witnesses(&self) -> bool
        ensures { result ≡ witnesses_known (place_of self.now) }
    {
        u64::from(self.rules.segwit) <= self.height
    }
}
