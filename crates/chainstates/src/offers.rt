//! What the offer of headers and of a body answers.

use base_types::BodyRefused;
use reorg::Refusals;

/// How many headers were added to the tree, and whether a further one found it full.
#[derive(Clone, Copy, Debug, PartialEq, Eq)]
pub struct Closure {
    pub added: u32,
    pub tree_full: bool,
}

/// What became of the body of a block.
#[derive(Debug, Drop)]
pub enum Offered {
    /// It was stored, and the chainstate moved; these blocks were refused then.
    Stored(Refusals),
    /// It is stored already.
    Known,
    /// The tree doesn't have its header.
    NoHeader,
    /// It breaks this rule, and isn't stored.
    Refused(BodyRefused),
}
