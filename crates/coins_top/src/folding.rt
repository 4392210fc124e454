//! Folding blocks from genesis, each of which has to be a child of the one before it.

ghost use Rattle.std.specs.Prelude.{◌≡◌, ◌+◌, ◌<◌, ◌≤◌, true, length, Ok, IfOk, OnOk, IfErr};
ghost use Rattle.std.specs.FinMap as finite;
ghost use Rattle.chain_model.specs.Apply.{outcome};
ghost use Rattle.chain_model.specs.BodyRules.{place_below};
ghost use Rattle.chain_model.specs.Folding.{nothing_folded, with_block};
ghost use Rattle.block_codec.specs.Text.{hash_of_header};
ghost use Rattle.block_codec.specs.Genesis.{genesis_hash};
ghost use Rattle.chain_model.specs.Standing.{Stands};
ghost use Rattle.machine.specs.Steps.{folded_reply};
ghost use Rattle.command_text.specs.declared.reply.Reply.TheVariants as says;
ghost use Rattle.coins_top.specs.declared.fold_end.FoldEnd.TheVariants.{Replied};
ghost use Rattle.coins_top.specs.Folds.{EndsFold, HeaderEnds, BodyEnds, CoinsEnd, with_first};

use crate::fold_end::FoldEnd;
use base_types::{Hash32, Limits, Rules};
use block_checks::{CheckFault, check_hashed_body};
use block_codec::HashedBlock;
use chain_model::{Plain, ReplayFault, apply_hashed_block};
use command_text::{Reply, Rule};
use header_tree::{AcceptFault, Tree};
use std::alloc::{AllocError, Global};
use std::marker::Model;

/// The blocks so far: the tip of their chain, its headers in a tree, and the coins after it. After an ending the coins may
/// be anything.
#[derive(Drop)]
pub(crate) struct Folding {
    tree: Tree,
    coins: Plain,
    tip: Hash32,
    // How many frames of genesis were passed over: none, or the first.
    passed: u64,
}

impl Model for Folding {
    ghost use Rattle.std.specs.Prelude.{◌≡◌, ◌<◌, ◌≤◌, true, length};
    ghost use Rattle.std.specs.FinMap as finite;
    ghost use Rattle.coins_top.specs.FoldState.{FoldState, fold_code, fold_state};

    ghost Value = { FoldState };

    ghost coded = { fold_code };

    ghost view = { λ f. fold_state f.tree f.coins f.tip f.passed };

    ghost invariant = { λ f. (0 < length f.tree.order) × (finite.contains_key f.tree.tree.headers f.tip ≡ true) × (f.passed ≤ 1) };
}

impl Folding {
    /// No block is folded yet.
    pub fn new(alloc: Global, limits: &Limits, rules: &Rules) -> Result<Folding, AllocError>
        ensures first { IfOk result (λ folding. folding.folded ≡ nothing_folded rules.now) }
        ensures limit { IfOk result (λ folding. folding.limit ≡ limits.now.headers) }
    {
        let tree = Tree::new(alloc, limits, rules)?;
        let Some(tip) = tree.at(0) else {
            unreachable!()
        };
        Ok(Folding {
            tree,
            coins: Plain::new(alloc),
            tip,
            passed: 0,
        })
    }

    /// Folds the first block of a file, which is passed over where it is genesis.
    pub fn add_first(&mut self, alloc: Global, block: &HashedBlock) -> Result<(), FoldEnd>
        requires first { self.old.folded.tip ≡ genesis_hash }
        requires none { self.old.folded.frames ≡ 0 }
        ensures ok { OnOk result (with_first self.old.limit self.old.folded block.now ≡ Ok self.new.folded) }
        ensures ends { IfErr result (EndsFold (with_first self.old.limit self.old.folded block.now)) }
        ensures limit { self.new.limit ≡ self.old.limit }
    {
        if *block.hash() == self.tip {
            self.passed = 1;
            return Ok(());
        }
        self.add(alloc, block)
    }

    /// Folds one more block. The first reason to refuse it is told: it isn't a child of the tip, or breaks a rule of
    /// headers, of bodies or of coins.
    pub fn add(&mut self, alloc: Global, block: &HashedBlock) -> Result<(), FoldEnd>
        ensures ok { OnOk result (with_block self.old.limit self.old.folded block.now ≡ Ok self.new.folded) }
        ensures ends { IfErr result (EndsFold (with_block self.old.limit self.old.folded block.now)) }
        ensures limit { self.new.limit ≡ self.old.limit }
    {
        if block.block().header.prev != self.tip {
            let hash = *block.hash();
            return Err(FoldEnd::Replied(Reply::NotNext { hash }));
        }
        let hash = accept(&mut self.tree, block)?;
        check(alloc, block, &self.tree)?;
        apply(alloc, &mut self.coins, block, &self.tree)?;
        self.tip = hash;
        Ok(())
    }

    /// What a fold of these blocks answers.
    pub fn reply(&self) -> Reply
        ensures { result ≡ folded_reply self.now.folded }
    {
        let Some(height) = self.tree.height(&self.tip) else {
            unreachable!()
        };
        Reply::Folded {
            frames: u64::from(self.tree.size() - 1) + self.passed,
            height: u64::from(height),
            tip: self.tip,
            coins: self.coins.count(),
        }
    }
}

// Adds the header of a block to the tree.
fn accept(tree: &mut Tree, block: &HashedBlock) -> Result<Hash32, FoldEnd>
    ensures { HeaderEnds tree.old block.now.header tree.new result }
{
    match tree.accept_with_hash(&block.block().header, block.hash()) {
        Ok(hash) => Ok(hash),
        Err(AcceptFault::NoMemory) => Err(FoldEnd::NoMemory),
        Err(AcceptFault::Refused(why)) => Err(refusal(block, Rule::Header(why))),
    }
}

// Checks the body of a block whose header is in the tree.
fn check(alloc: Global, block: &HashedBlock, tree: &Tree) -> Result<(), FoldEnd>
    requires { finite.contains_key tree.now.tree.headers block.now.header.prev ≡ true }
    ensures { BodyEnds (place_below tree.now.tree block.now.header.prev) block.now result }
{
    match check_hashed_body(alloc, block, tree) {
        Ok(()) => Ok(()),
        Err(CheckFault::NoMemory) => Err(FoldEnd::NoMemory),
        Err(CheckFault::Refused(why)) => Err(refusal(block, Rule::Body(why))),
    }
}

// Applies a block to the coins.
fn apply(alloc: Global, coins: &mut Plain, block: &HashedBlock, tree: &Tree) -> Result<(), FoldEnd>
    requires { Stands tree.now.tree block.now }
    ensures { CoinsEnd (outcome tree.now.tree coins.old block.now) (hash_of_header block.now.header) coins.new result }
{
    match apply_hashed_block(alloc, coins, block, tree) {
        Ok(()) => Ok(()),
        Err(ReplayFault::NoMemory) => Err(FoldEnd::NoMemory),
        Err(ReplayFault::Refused { hash, why }) => Err(FoldEnd::Replied(Reply::Block {
            hash,
            rule: Rule::Coin(why),
        })),
    }
}

// The end of a fold at a block that breaks a rule.
fn refusal(block: &HashedBlock, rule: Rule) -> FoldEnd
    ensures { result ≡ Replied (says.Block (hash_of_header block.now.header) rule) }
{
    FoldEnd::Replied(Reply::Block {
        hash: *block.hash(),
        rule,
    })
}
