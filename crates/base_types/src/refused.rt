//! Why headers, bodies and blocks are refused, and why bytes are no coin.

ghost use Rattle.std.specs.Prelude.{◌≡◌};
ghost use Rattle.base_types.specs.Refusals.{header_rule, body_rule, coin_rule};

/// The rule that a header breaks.
#[derive(Clone, Copy, Debug, PartialEq, Eq)]
pub enum HeaderRefused {
    Known,
    HighHash,
    NoParent,
    BadBits,
    TooOld,
    BadVersion,
    TreeFull,
}

/// The rule that a block's body breaks.
#[derive(Clone, Copy, Debug, PartialEq, Eq)]
pub enum BodyRefused {
    BadMerkle,
    Mutated,
    TooLarge,
    FirstNotCoinbase,
    SecondCoinbase,
    NoInputs,
    NoOutputs,
    BadValue,
    DuplicateInput,
    CoinbaseScript,
    NullInput,
    NotFinal,
    BadHeight,
    WitnessNonce,
    WitnessCommitment,
    UnexpectedWitness,
    Weight,
}

/// The rule that a block breaks on the coins before it.
#[derive(Clone, Copy, Debug, PartialEq, Eq)]
pub enum CoinRefused {
    Bip30,
    MissingInput,
    Immature,
    ValueRange,
    InBelowOut,
    SequenceLock,
    CoinbaseAmount,
}

/// What is wrong with the bytes of a coin: the first fault from left to right.
#[derive(Clone, Copy, Debug, PartialEq, Eq)]
pub enum CoinError {
    /// The bytes end within the coin.
    Short,
    /// Twice the height, and the mark of a coinbase, don't fit in 32 bits.
    HeightTooLarge,
    /// The amount doesn't fit in 64 bits, or is above 2,100,000,000,000,000 satoshis.
    BadAmount,
    /// The script pays to an uncompressed key in a form that isn't read.
    UncompressedKey,
    /// The script has more than 10,000 bytes.
    ScriptTooLong,
    /// A raw script that has a shorter form.
    SecondSpelling,
}

impl HeaderRefused {
    /// The rule's name in replies.
    pub fn name(self) -> &'static str
        ensures { result.now ≡ header_rule self }
    {
        match self {
            HeaderRefused::Known => "Known",
            HeaderRefused::HighHash => "HighHash",
            HeaderRefused::NoParent => "NoParent",
            HeaderRefused::BadBits => "BadBits",
            HeaderRefused::TooOld => "TooOld",
            HeaderRefused::BadVersion => "BadVersion",
            HeaderRefused::TreeFull => "TreeFull",
        }
    }
}

impl BodyRefused {
    /// The rule's name in replies.
    pub fn name(self) -> &'static str
        ensures { result.now ≡ body_rule self }
    {
        match self {
            BodyRefused::BadMerkle => "BadMerkle",
            BodyRefused::Mutated => "Mutated",
            BodyRefused::TooLarge => "TooLarge",
            BodyRefused::FirstNotCoinbase => "FirstNotCoinbase",
            BodyRefused::SecondCoinbase => "SecondCoinbase",
            BodyRefused::NoInputs => "NoInputs",
            BodyRefused::NoOutputs => "NoOutputs",
            BodyRefused::BadValue => "BadValue",
            BodyRefused::DuplicateInput => "DuplicateInput",
            BodyRefused::CoinbaseScript => "CoinbaseScript",
            BodyRefused::NullInput => "NullInput",
            BodyRefused::NotFinal => "NotFinal",
            BodyRefused::BadHeight => "BadHeight",
            BodyRefused::WitnessNonce => "WitnessNonce",
            BodyRefused::WitnessCommitment => "WitnessCommitment",
            BodyRefused::UnexpectedWitness => "UnexpectedWitness",
            BodyRefused::Weight => "Weight",
        }
    }
}

impl CoinRefused {
    /// The rule's name in replies.
    pub fn name(self) -> &'static str
        ensures { result.now ≡ coin_rule self }
    {
        match self {
            CoinRefused::Bip30 => "Bip30",
            CoinRefused::MissingInput => "MissingInput",
            CoinRefused::Immature => "Immature",
            CoinRefused::ValueRange => "ValueRange",
            CoinRefused::InBelowOut => "InBelowOut",
            CoinRefused::SequenceLock => "SequenceLock",
            CoinRefused::CoinbaseAmount => "CoinbaseAmount",
        }
    }
}
