//! Ways down the tree by skips: ancestors and forks.

ghost use Rattle.std.specs.Prelude.{◌≡◌, ◌+◌, ◌^◌, ◌<◌, ◌≤◌, ◌&&◌, Some, is_some, length, nat_le, slice_get, ◌≢◌};
ghost use Rattle.std.specs.FinMap as finite;
ghost use Rattle.chain_model.specs.Tree.{height as height_of, ancestor as ancestor_of, fork as fork_of};
ghost use Rattle.header_tree.specs.State.{hash_at};

use crate::skip::skip_height;
use crate::tree::Tree;
use base_types::Hash32;

impl Tree {
    /// Its ancestor, or itself, at this height; none where the hash isn't there or the height is above its own.
    pub fn ancestor(&self, hash: &Hash32, height: u32) -> Option<Hash32>
        ensures block { result ≡ ancestor_of self.now.tree.headers hash.now height }
        ensures there { is_some result ≡ (finite.contains_key self.now.tree.headers hash.now && nat_le height (height_of self.now.tree.headers hash.now)) }
    {
        let _ = &self.entries;
        let Some(number) = self.number(hash) else {
            return None;
        };
        if height > self.height_at(number) {
            return None;
        }
        self.at(self.ancestor_at(number, height))
    }

    /// The highest block that stands on the chains of both; none where one of them isn't there.
    pub fn fork(&self, a: &Hash32, b: &Hash32) -> Option<Hash32>
        ensures block { result ≡ fork_of self.now.tree.headers a.now b.now }
        ensures there { is_some result ≡ (finite.contains_key self.now.tree.headers a.now && finite.contains_key self.now.tree.headers b.now) }
    {
        let _ = &self.entries;
        let Some(a) = self.number(a) else {
            return None;
        };
        let Some(b) = self.number(b) else {
            return None;
        };
        let height = self.height_at(a).min(self.height_at(b));
        let left = self.ancestor_at(a, height);
        let right = self.ancestor_at(b, height);
        self.at(self.meeting(left, right))
    }

    /// The height of the block of this number.
    pub(crate) fn height_at(&self, number: u32) -> u32
        requires { number < length self.now.order }
        ensures value { result ≡ height_of self.now.tree.headers (hash_at self.now number) }
        ensures small { result + 1 < 2 ^ 32 }
    {
        self.entries[number as usize].height
    }

    /// The number of its ancestor, or itself, at a height.
    pub(crate) fn ancestor_at(&self, number: u32, height: u32) -> u32
        requires there { number < length self.now.order }
        requires low { height ≤ height_of self.now.tree.headers (hash_at self.now number) }
        ensures there { result < length self.now.order }
        ensures ancestor { Some (hash_at self.now result) ≡ ancestor_of self.now.tree.headers (hash_at self.now number) height }
    {
        let _ = &self.entries;
        let mut at = number;
        while self.height_at(at) > height {
            at = self.toward(at, height);
        }
        at
    }

    // An ancestor that isn't below the height: that of the skip, unless the skip of the block before leads further
    // (Bitcoin Core's `GetAncestor`).
    fn toward(&self, number: u32, height: u32) -> u32
        requires there { number < length self.now.order }
        requires low { height < height_of self.now.tree.headers (hash_at self.now number) }
        ensures down { result < number }
        ensures low { height ≤ height_of self.now.tree.headers (hash_at self.now result) }
        ensures same { ancestor_of self.now.tree.headers (hash_at self.now result) height ≡ ancestor_of self.now.tree.headers (hash_at self.now number) height }
    {
        let entry = &self.entries[number as usize];
        let skip = skip_height(entry.height);
        let before = skip_height(entry.height - 1);
        if skip < height || (before >= height && before.saturating_add(2) < skip) {
            entry.parent
        } else {
            entry.skip
        }
    }

    // Where the chains of two blocks of one height meet.
    fn meeting(&self, left: u32, right: u32) -> u32
        requires left { left < length self.now.order }
        requires right { right < length self.now.order }
        requires level { height_of self.now.tree.headers (hash_at self.now left) ≡ height_of self.now.tree.headers (hash_at self.now right) }
        ensures there { result < length self.now.order }
        ensures fork { Some (hash_at self.now result) ≡ fork_of self.now.tree.headers (hash_at self.now left) (hash_at self.now right) }
    {
        let _ = &self.entries;
        let mut left = left;
        let mut right = right;
        while left != right {
            (left, right) = self.both_down(left, right);
        }
        left
    }

    // Two blocks of one height, both further down by their skips where these differ, else by one.
    fn both_down(&self, left: u32, right: u32) -> (u32, u32)
        requires left { left < length self.now.order }
        requires right { right < length self.now.order }
        requires differ { left ≢ right }
        requires level { height_of self.now.tree.headers (hash_at self.now left) ≡ height_of self.now.tree.headers (hash_at self.now right) }
        ensures left { result.0 < left }
        ensures right { result.1 < right }
        ensures level { height_of self.now.tree.headers (hash_at self.now result.0) ≡ height_of self.now.tree.headers (hash_at self.now result.1) }
        ensures fork { fork_of self.now.tree.headers (hash_at self.now result.0) (hash_at self.now result.1) ≡ fork_of self.now.tree.headers (hash_at self.now left) (hash_at self.now right) }
    {
        let a = &self.entries[left as usize];
        let b = &self.entries[right as usize];
        if a.skip != b.skip {
            (a.skip, b.skip)
        } else {
            (a.parent, b.parent)
        }
    }
}
