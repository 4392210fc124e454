//! Replies.

use crate::line::LineRefused;
use base_types::{BodyRefused, Chain, CoinRefused, Hash32, HeaderRefused, Script};

/// The rule that a block breaks.
#[derive(Clone, Copy, Debug, PartialEq, Eq)]
pub enum Rule {
    Header(HeaderRefused),
    Body(BodyRefused),
    Coin(CoinRefused),
}

/// What the active chainstate is: the one from genesis, or one from a snapshot that is not yet or already validated.
#[derive(Clone, Copy, Debug, PartialEq, Eq)]
pub enum Role {
    Full,
    Unvalidated,
    Validated,
}

/// Where the chainstate from genesis stands beside an unvalidated snapshot.
#[derive(Clone, Copy, Debug, PartialEq, Eq)]
pub struct Background {
    pub height: u64,
    pub tip: Hash32,
}

/// A coin as it is shown: the active tip, whether a coinbase made it, the tip's height less its own plus one, its height,
/// its script and its value in satoshis.
#[derive(Debug, Drop)]
pub struct TxOutFound {
    pub bestblock: Hash32,
    pub coinbase: bool,
    pub confirmations: u64,
    pub height: u64,
    pub script: Script,
    pub value: u64,
}

/// A line of the output.
#[derive(Debug, Drop)]
pub enum Reply {
    /// The line was refused by its form.
    Refused(LineRefused),
    /// The host holds no such file, or failed.
    HostFault,
    /// The file has more bytes than are taken.
    FileTooLong,
    /// The tree of headers is full.
    TreeFull,
    /// No nonce of a block meets the target.
    NoNonce,
    /// A folded block isn't a child of the one before it.
    NotNext {
        hash: Hash32,
    },
    /// A folded block breaks a rule.
    Block {
        hash: Hash32,
        rule: Rule,
    },
    /// A body was refused.
    Body {
        hash: Hash32,
        rule: BodyRefused,
    },
    /// A block was added to the refused blocks of a chainstate.
    BlockOf {
        chain: Chain,
        hash: Hash32,
        rule: CoinRefused,
    },
    /// A file was folded: the number of its frames, and the height, the tip and the number of coins after them.
    Folded {
        frames: u64,
        height: u64,
        tip: Hash32,
        coins: u64,
    },
    /// Headers were added: the number of frames, of new headers, and of headers in the tree.
    Headers {
        frames: u64,
        added: u64,
        tree: u64,
    },
    /// A file was imported: the number of frames, of new headers and of new bodies, and the active tip.
    Import {
        frames: u64,
        headers: u64,
        bodies: u64,
        height: u64,
        tip: Hash32,
    },
    /// Blocks were generated.
    Generated {
        count: u64,
        tip: Hash32,
    },
    /// A chainstate was flushed.
    Flushed {
        chain: Chain,
        height: u64,
        tip: Hash32,
    },
    /// The coin of an outpoint, if there is one.
    TxOut(Option<TxOutFound>),
    /// The state of the store.
    Info {
        background: Option<Background>,
        headers: u64,
        height: u64,
        role: Role,
        tip: Hash32,
    },
}
