/// Where the bytes of a coin lie: a file, the offset of the gate of their record, their own offset, and their number.
#[derive(Clone, Copy, Debug, PartialEq, Eq)]
pub struct CoinPlace {
    pub gate: u64,
    pub at: u64,
    pub len: u32,
    pub file: u32,
}
