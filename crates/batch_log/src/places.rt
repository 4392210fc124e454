//! Where the payloads of a log lie.

/// Where a payload lies: the offset of its gate, and its length in bytes. The payload begins 5 bytes after its gate.
#[derive(Clone, Copy, Debug, PartialEq, Eq)]
pub struct Place {
    /// The offset of the gate.
    pub at: u64,
    /// The length of the payload in bytes.
    pub len: u32,
}
