//! Accepting headers.

ghost use Rattle.std.specs.Prelude.{◌≡◌, ◌==◌, ◌+◌, ◌<◌, ◌≤◌, Some, None, not, nat_le, length, slice_get, vec_len, vec_capacity, IfOk, OnOk, OnErr};
ghost use Rattle.std.specs.Result.{result_err};
ghost use Rattle.block_codec.specs.Text.{hash_of_header};
ghost use Rattle.chain_model.specs.HeaderRules.{IsTree, header_broken, is_outdated as is_outdated_of};
ghost use Rattle.std.specs.FinMap as finite;
ghost use Rattle.base_types.specs.Parameters.{target_bits};
ghost use Rattle.chain_model.specs.Tree.{height as height_of, median_time as median_time_of};
ghost use Rattle.header_tree.specs.Answers.{Answers};
ghost use Rattle.header_tree.specs.State.{after_header};

use crate::entry::Entry;
use crate::fault::AcceptFault;
use crate::skip::skip_height;
use crate::tree::Tree;
use base_types::{Hash32, HeaderRefused, Rules, TARGET_BITS};
use block_codec::{Header, block_hash};
use chain_model::meets_target;
use std::alloc::AllocError;

fn is_outdated(rules: &Rules, height: u32, header: &Header) -> bool
    ensures { result ≡ is_outdated_of rules.now height header.now.version }
{
    let version = header.version;
    (version < 4 && height >= rules.version4) || (version < 2 && height >= rules.bip34)
}

fn has_bad_bits(header: &Header) -> bool
    ensures { result ≡ not (header.now.bits == target_bits) }
{
    header.bits != TARGET_BITS
}

// Makes room for one more entry. The list grows by a sixteenth, which moves it seldom and keeps it small.
fn make_room(entries: &mut Vec<Entry>) -> Result<(), AllocError>
    ensures items { entries.new.items ≡ entries.old.items }
    ensures ok { OnOk result (vec_len entries.new < vec_capacity entries.new) }
{
    if entries.len() < entries.capacity() {
        return Ok(());
    }
    entries.reserve_exact(entries.len() / 16 + 16)
}

impl Tree {
    /// Adds a header that breaks no rule, and gives its hash. After any error the tree is as before.
    pub fn accept(&mut self, header: &Header) -> Result<Hash32, AcceptFault>
        ensures answer { Answers (header_broken self.old.limit self.old.tree header.now) (hash_of_header header.now) result }
        ensures ok { OnOk result (self.new ≡ after_header self.old header.now) }
        ensures err { OnErr result (self.new ≡ self.old) }
        ensures tree { OnOk result (IsTree self.new.limit self.new.tree) }
    {
        let hash = block_hash(header);
        self.accept_with_hash(header, &hash)
    }

    /// The same where the header's hash is known.
    pub fn accept_with_hash(
        &mut self,
        header: &Header,
        hash: &Hash32,
    ) -> Result<Hash32, AcceptFault>
        requires { hash.now ≡ hash_of_header header.now }
        ensures answer { Answers (header_broken self.old.limit self.old.tree header.now) (hash_of_header header.now) result }
        ensures ok { OnOk result (self.new ≡ after_header self.old header.now) }
        ensures err { OnErr result (self.new ≡ self.old) }
        ensures tree { OnOk result (IsTree self.new.limit self.new.tree) }
    {
        match self.judge(header, hash) {
            Ok(parent) => match self.add(*header, *hash, parent) {
                Ok(()) => Ok(*hash),
                Err(_) => Err(AcceptFault::NoMemory),
            },
            Err(rule) => Err(AcceptFault::Refused(rule)),
        }
    }

    // The first rule that a header breaks, or the number of its parent.
    #[tactic(auto, unfolding(chain_model::specs::HeaderRules::header_broken, chain_model::specs::Rules::first_broken))]
    fn judge(&self, header: &Header, hash: &Hash32) -> Result<u32, HeaderRefused>
        requires { hash.now ≡ hash_of_header header.now }
        ensures rule { result_err result ≡ header_broken self.now.limit self.now.tree header.now }
        ensures parent { IfOk result (λ parent. slice_get self.now.order parent ≡ Some header.now.prev) }
    {
        if self.number(hash).is_some() {
            return Err(HeaderRefused::Known);
        }
        if !meets_target(hash) {
            return Err(HeaderRefused::HighHash);
        }
        let Some(parent) = self.number(&header.prev) else {
            return Err(HeaderRefused::NoParent);
        };
        if has_bad_bits(header) {
            return Err(HeaderRefused::BadBits);
        }
        if self.is_too_old(header, parent) {
            return Err(HeaderRefused::TooOld);
        }
        if self.has_old_version(header, parent) {
            return Err(HeaderRefused::BadVersion);
        }
        if self.is_full() {
            return Err(HeaderRefused::TreeFull);
        }
        Ok(parent)
    }

    // Whether a header's time isn't after the median time of its parent, which has this number.
    fn is_too_old(&self, header: &Header, parent: u32) -> bool
        requires { slice_get self.now.order parent ≡ Some header.now.prev }
        ensures { result ≡ nat_le header.now.time (median_time_of self.now.tree.headers header.now.prev) }
    {
        header.time <= self.median_at(parent)
    }

    // Whether a header's version is out of date above its parent, which has this number.
    fn has_old_version(&self, header: &Header, parent: u32) -> bool
        requires { slice_get self.now.order parent ≡ Some header.now.prev }
        ensures { result ≡ is_outdated_of self.now.tree.rules (height_of self.now.tree.headers header.now.prev + 1) header.now.version }
    {
        is_outdated(self.rules(), self.height_at(parent) + 1, header)
    }

    fn is_full(&self) -> bool
        ensures { result ≡ nat_le self.now.limit (finite.len self.now.tree.headers) }
    {
        self.size() >= self.limit
    }

    // Adds a header that breaks no rule.
    fn add(&mut self, header: Header, hash: Hash32, parent: u32) -> Result<(), AllocError>
        requires named { hash ≡ hash_of_header header }
        requires fine { header_broken self.old.limit self.old.tree header ≡ None }
        requires below { slice_get self.old.order parent ≡ Some header.prev }
        ensures ok { OnOk result (self.new ≡ after_header self.old header) }
        ensures err { OnErr result (self.new ≡ self.old) }
        ensures tree { OnOk result (IsTree self.new.limit self.new.tree) }
    {
        let height = self.height_at(parent) + 1;
        let skip = self.ancestor_at(parent, skip_height(height));
        let number = self.size();
        make_room(&mut self.entries)?;
        self.numbers.insert(hash, number)?;
        self.entries.push_reserved(Entry {
            header,
            hash,
            height,
            parent,
            skip,
        });
        Ok(())
    }
}
