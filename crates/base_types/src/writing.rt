//! Appending numbers to bytes. Where memory runs out nothing is added.

ghost use Rattle.std.specs.Prelude.{◌≡◌, ◌+◌, ◌≤◌, ◌++◌, length, vec_len, vec_capacity, IsOk, OnOk, OnErr};
ghost use Rattle.std.specs.Int.{w16, w32, w64};
ghost use Rattle.base_types.specs.Bytes.{compact, number_text, varint};

use std::alloc::AllocError;

/// Adds the two bytes of a number, the lowest first.
#[tactic(auto, unfolding(crate::specs::Bytes::number_text))]
pub fn put_u16(out: &mut Vec<u8>, n: u16) -> Result<(), AllocError>
    ensures ok { OnOk result (out.new.items ≡ out.old.items ++ number_text w16 n) }
    ensures err { OnErr result (out.new.items ≡ out.old.items) }
{
    out.extend_from_slice(&n.to_le_bytes())
}

/// Adds the four bytes of a number, the lowest first.
#[tactic(auto, unfolding(crate::specs::Bytes::number_text))]
pub fn put_u32(out: &mut Vec<u8>, n: u32) -> Result<(), AllocError>
    ensures ok { OnOk result (out.new.items ≡ out.old.items ++ number_text w32 n) }
    ensures err { OnErr result (out.new.items ≡ out.old.items) }
{
    out.extend_from_slice(&n.to_le_bytes())
}

/// Adds the eight bytes of a number, the lowest first.
#[tactic(auto, unfolding(crate::specs::Bytes::number_text))]
pub fn put_u64(out: &mut Vec<u8>, n: u64) -> Result<(), AllocError>
    ensures ok { OnOk result (out.new.items ≡ out.old.items ++ number_text w64 n) }
    ensures err { OnErr result (out.new.items ≡ out.old.items) }
{
    out.extend_from_slice(&n.to_le_bytes())
}

/// Adds the CompactSize of a number (`WriteCompactSize` in Bitcoin Core's `serialize.h`).
#[tactic(auto, unfolding(crate::specs::Bytes::compact, crate::specs::Bytes::number_text))]
pub fn put_compact_size(out: &mut Vec<u8>, n: u64) -> Result<(), AllocError>
    ensures ok { OnOk result (out.new.items ≡ out.old.items ++ compact n) }
    ensures err { OnErr result (out.new.items ≡ out.old.items) }

    // Where there is room for them this takes no memory, and no room is given back.
    ensures room { vec_len out.old + length (compact n) ≤ vec_capacity out.old → IsOk result }
    ensures capacity { vec_capacity out.old ≤ vec_capacity out.new }
{
    if n < 253 {
        out.push(n as u8)?;
        Ok(())
    } else if n < 1 << 16 {
        let [a, b] = (n as u16).to_le_bytes();
        out.extend_from_slice(&[253, a, b])
    } else if n < 1 << 32 {
        let [a, b, c, d] = (n as u32).to_le_bytes();
        out.extend_from_slice(&[254, a, b, c, d])
    } else {
        let [a, b, c, d, e, f, g, h] = n.to_le_bytes();
        out.extend_from_slice(&[255, a, b, c, d, e, f, g, h])
    }
}

/// Adds the VARINT of a number (`WriteVarInt` in Bitcoin Core's `serialize.h`).
pub fn put_varint(out: &mut Vec<u8>, n: u64) -> Result<(), AllocError>
    ensures ok { OnOk result (out.new.items ≡ out.old.items ++ varint n) }
    ensures err { OnErr result (out.new.items ≡ out.old.items) }

    // Where there is room for them this takes no memory, and no room is given back.
    ensures room { vec_len out.old + length (varint n) ≤ vec_capacity out.old → IsOk result }
    ensures capacity { vec_capacity out.old ≤ vec_capacity out.new }
{
    // Ten groups of seven bits hold every number of 64 bits.
    let mut groups = [0; 10];
    groups[9] = (n % 128) as u8;
    let mut first = 9;
    let mut above = n / 128;
    while above > 0 {
        first -= 1;
        groups[first] = 128 + ((above - 1) % 128) as u8;
        above = (above - 1) / 128;
    }
    out.extend_from_slice(&groups[first..])
}
