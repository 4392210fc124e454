//! A tree of headers as it is seen.

ghost use Rattle.std.specs.Prelude.{◌≡◌, ◌^◌, ◌<◌, ℕ};
ghost use Rattle.std.specs.Option.{option_copied};
ghost use Rattle.std.specs.FinMap as finite;
ghost use Rattle.chain_model.specs.Tree.{Tree as Meaning, of_member, height as height_of, ancestor as ancestor_of, median_time as median_of};

use base_types::{Hash32, Rules};
use block_codec::Header;

/// A tree of headers. `None` comes exactly where a named hash isn't in it, or a height is above the named block's.
pub trait TreeView {
    /// The headers by their hashes, and the rules that hold among them.
    ghost tree: { Self → Meaning };

    /// The header of this hash.
    fn header(&self, hash: &Hash32) -> Option<&Header>
        ensures { option_copied result ≡ finite.get (tree self.now).headers hash.now };

    /// The number of blocks below it.
    fn height(&self, hash: &Hash32) -> Option<u32>
        ensures { result ≡ of_member (tree self.now).headers hash.now (height_of (tree self.now).headers hash.now) };

    /// Its ancestor, or itself, at this height.
    fn ancestor(&self, hash: &Hash32, height: u32) -> Option<Hash32>
        ensures { result ≡ ancestor_of (tree self.now).headers hash.now height };

    /// The median of its time and of those of up to ten blocks before it (BIP 113).
    fn median_time(&self, hash: &Hash32) -> Option<u32>
        ensures { result ≡ of_member (tree self.now).headers hash.now (median_of (tree self.now).headers hash.now) };

    /// The heights from which four rules hold.
    fn rules(&self) -> &Rules
        ensures { result.now ≡ (tree self.now).rules };
}
