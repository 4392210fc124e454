//! The head of a frame: the message start of regtest, and the length of the block behind it.

ghost use Rattle.frame_scan.specs.Head.{IsHeadOf};

use base_types::MESSAGE_START;

/// The fewest bytes of a block that a head may claim.
const MIN_LEN: usize = 80;

/// The most bytes of a block that a head may claim.
const MAX_LEN: usize = 4_000_000;

/// What stands at the front of bytes.
pub(crate) enum Head {
    /// No head, whatever follows.
    Absent,
    /// Part of what may become a head, or a head that claims more bytes than follow it.
    Cut,
    /// A head, and as many bytes as it claims.
    Whole { len: usize },
}

/// Looks at the first eight bytes alone.
pub(crate) fn head_of(bytes: &[u8]) -> Head
    ensures { IsHeadOf bytes.now result }
{
    let [m0, m1, m2, m3, l0, l1, l2, l3, rest @ ..] = bytes else {
        return Head::Cut;
    };
    if [*m0, *m1, *m2, *m3] != MESSAGE_START {
        return Head::Absent;
    }
    let len = u32::from_le_bytes([*l0, *l1, *l2, *l3]) as usize;
    if len < MIN_LEN || len > MAX_LEN {
        return Head::Absent;
    }
    if rest.len() < len {
        return Head::Cut;
    }
    Head::Whole { len }
}
