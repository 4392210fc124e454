/// What a payload of a log is: rows of a base, each with a coin, or a marker and rows.
#[derive(Clone, Copy, Debug)]
pub enum Kind {
    Base,
    Coins,
}
