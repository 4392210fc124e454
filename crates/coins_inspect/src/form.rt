//! The forms of bytes.

ghost use Rattle.std.specs.Prelude.{◌≡◌};
ghost use Rattle.coins_inspect.specs.LineAnswers.{form_named};

/// What the bytes are read as.
#[derive(Clone, Copy, Debug, PartialEq, Eq)]
pub enum Form {
    /// A CompactSize in its shortest form.
    CompactSize,
    /// A VARINT of at most 64 bits.
    Varint,
    /// A CompactSize that is a length, of at most 33,554,432.
    Length,
    /// An amount as it stands in a coin.
    Amount,
    /// A script as it stands in a coin.
    Script,
    /// A coin as stores and snapshots keep it.
    Coin,
    /// An outpoint as the key of a coin.
    Key,
    /// A header of 80 bytes.
    Header,
    /// Headers one after another, by the rules of headers.
    Headers,
    /// A whole transaction.
    Tx,
    /// A whole block.
    Block,
    /// A snapshot file.
    Snapshot,
    /// A log of records.
    Log(Payload),
}

/// What the payloads of a log are read as.
#[derive(Clone, Copy, Debug, PartialEq, Eq)]
pub enum Payload {
    /// Any bytes.
    Bytes,
    /// Headers, one after another.
    Headers,
    /// A hash and the block of that hash.
    Body,
}

impl Form {
    /// The form of a name.
    #[tactic(auto, unfolding(crate::specs::LineAnswers::form_named))]
    pub fn named(name: &[u8]) -> Option<Form>
        ensures { result ≡ form_named name.now }
    {
        if name == b"compactsize".as_slice() {
            Some(Form::CompactSize)
        } else if name == b"varint".as_slice() {
            Some(Form::Varint)
        } else if name == b"length".as_slice() {
            Some(Form::Length)
        } else if name == b"amount".as_slice() {
            Some(Form::Amount)
        } else if name == b"script".as_slice() {
            Some(Form::Script)
        } else if name == b"coin".as_slice() {
            Some(Form::Coin)
        } else if name == b"key".as_slice() {
            Some(Form::Key)
        } else if name == b"header".as_slice() {
            Some(Form::Header)
        } else if name == b"headers".as_slice() {
            Some(Form::Headers)
        } else if name == b"tx".as_slice() {
            Some(Form::Tx)
        } else if name == b"block".as_slice() {
            Some(Form::Block)
        } else if name == b"snapshot".as_slice() {
            Some(Form::Snapshot)
        } else if name == b"log".as_slice() {
            Some(Form::Log(Payload::Bytes))
        } else if name == b"headers-log".as_slice() {
            Some(Form::Log(Payload::Headers))
        } else if name == b"bodies-log".as_slice() {
            Some(Form::Log(Payload::Body))
        } else {
            None
        }
    }
}
