//! The blocks that a move refused.

ghost use Rattle.std.specs.Prelude.{◌≡◌, ◌++◌, [], ◌∷◌, OnOk, OnErr};
ghost use Rattle.reorg.specs.Advancing.{also_refused};

use base_types::{Chain, CoinRefused, Hash32};
use std::alloc::{AllocError, Global};
use std::marker::Model;

/// A block that breaks a rule of coins on the chainstate's coins below it.
#[derive(Clone, Copy, Debug, PartialEq, Eq)]
pub struct RefusedBlock {
    pub chain: Chain,
    pub hash: Hash32,
    pub why: CoinRefused,
}

/// The blocks that a move refused, in the order in which they were tried.
#[derive(Debug, Drop)]
pub struct Refusals {
    members: Vec<RefusedBlock>,
}

impl Model for Refusals {
    ghost use Rattle.std.specs.Prelude.{List};
    ghost use Rattle.reorg.specs.declared.refusals.RefusedBlock.{RefusedBlock};

    ghost Value = { List RefusedBlock };

    ghost view = { λ refusals. refusals.members.items };
}

impl Refusals {
    /// No block was refused. It takes no memory.
    pub fn new(alloc: Global) -> Refusals
        ensures { result ≡ [] }
    {
        Refusals {
            members: Vec::new(alloc),
        }
    }

    /// One more was refused.
    pub fn push(&mut self, block: RefusedBlock) -> Result<(), AllocError>
        ensures ok { OnOk result (self.new ≡ self.old ++ block ∷ []) }
        ensures err { OnErr result (self.new ≡ self.old) }
    {
        Ok(self.members.push(block)?)
    }

    /// A block was tried: it is one more if it broke a rule.
    pub(crate) fn note(
        &mut self,
        hash: &Hash32,
        refused: Option<CoinRefused>,
    ) -> Result<(), AllocError>
        ensures ok { OnOk result (self.new ≡ also_refused self.old hash.now refused) }
        ensures err { OnErr result (self.new ≡ self.old) }
    {
        match refused {
            None => Ok(()),
            Some(why) => self.push(RefusedBlock {
                chain: Chain::Full,
                hash: *hash,
                why,
            }),
        }
    }

    /// The blocks.
    pub fn as_slice(&self) -> &[RefusedBlock]
        ensures { result.now ≡ self.now }
    {
        &self.members
    }
}
