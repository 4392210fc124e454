//! Why a header isn't accepted.

use base_types::HeaderRefused;

/// Why a header isn't accepted.
#[derive(Clone, Copy, Debug, PartialEq, Eq)]
pub enum AcceptFault {
    /// No memory was left.
    NoMemory,
    /// The first rule that the header breaks.
    Refused(HeaderRefused),
}
