//! The median time of a block (BIP 113).

ghost use Rattle.std.specs.Prelude.{◌≡◌, ◌<◌, ◌≤◌, length, map, take};
ghost use Rattle.chain_model.specs.Tree.{of_member, chain, time, median, median_time as median_time_of};
ghost use Rattle.header_tree.specs.State.{hash_at, IsBefore};

use crate::tree::Tree;
use base_types::Hash32;

// The number of blocks whose times count.
const SPAN: usize = 11;

// Of times the one in the middle, and the later of two.
fn median_of(times: &mut [u32]) -> u32
    requires { 0 < length times.old }
    ensures { result ≡ median times.old }
{
    times.sort_unstable();
    times[times.len() / 2]
}

impl Tree {
    /// The median of the times of a block and of up to ten blocks before it.
    pub fn median_time(&self, hash: &Hash32) -> Option<u32>
        ensures { result ≡ of_member self.now.tree.headers hash.now (median_time_of self.now.tree.headers hash.now) }
    {
        match self.number(hash) {
            Some(number) => Some(self.median_at(number)),
            None => None,
        }
    }

    /// The median time of the block of this number.
    pub(crate) fn median_at(&self, number: u32) -> u32
        requires { number < length self.now.order }
        ensures { result ≡ median_time_of self.now.tree.headers (hash_at self.now number) }
    {
        let mut times = [0; SPAN];
        let count = self.last_times(number, &mut times);
        median_of(&mut times[..count])
    }

    // Writes the times of the block and of the blocks before it, the highest first, and gives their number.
    fn last_times(&self, number: u32, times: &mut [u32; 11]) -> usize
        requires { number < length self.now.order }
        ensures some { 0 < result }
        ensures few { result ≤ SPAN }
        ensures times { take result times.new ≡ map (time self.now.tree.headers) (take 11 (chain self.now.tree.headers (hash_at self.now number))) }
    {
        let mut at = number;
        for count in 0..SPAN {
            times[count] = self.time_at(at);
            match self.before(at) {
                Some(parent) => at = parent,
                None => return count + 1,
            }
        }
        SPAN
    }

    fn time_at(&self, number: u32) -> u32
        requires { number < length self.now.order }
        ensures { result ≡ time self.now.tree.headers (hash_at self.now number) }
    {
        self.entries[number as usize].header.time
    }

    // The number of the block before it; none for genesis.
    fn before(&self, number: u32) -> Option<u32>
        requires { number < length self.now.order }
        ensures { IsBefore self.now number result }
    {
        let entry = &self.entries[number as usize];
        if entry.height == 0 {
            None
        } else {
            Some(entry.parent)
        }
    }
}
