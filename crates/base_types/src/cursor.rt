//! Reading bytes from the front.

ghost use Rattle.std.specs.Prelude.{◌≡◌, ◌==◌, ◌^◌, ◌<◌, ◌≤◌, length, IfOk};
ghost use Rattle.std.specs.Int.{w16, w32, w64};
ghost use Rattle.base_types.specs.Bytes.{compact, varint, number_text};
ghost use Rattle.base_types.specs.Reading.{place, byte_at, bytes_at, number_at, compact_at, length_at, varint_at, on_rest, Gives, Spelled};

use crate::numbers::{compact_of, length_of, u16_of, u32_of, u64_of, varint_of};
use std::marker::Model;

/// Why a field could not be read.
#[derive(Clone, Copy, Debug, PartialEq, Eq)]
pub enum ReadError {
    /// The bytes end within the field.
    Short,
    /// A CompactSize is longer than needed.
    LongSpelling,
    /// A length, a count or an index is above 33,554,432, or a VARINT doesn't fit in 64 bits.
    TooLarge,
}

/// A place in bytes that are read from the front. After an error it is as before.
#[derive(Drop)]
pub struct Cursor<'a> {
    rest: &'a [u8],
    end: usize,
}

impl<'a> Model for Cursor<'a> {
    ghost use Rattle.std.specs.Prelude.{◌≤◌, length};
    ghost use Rattle.base_types.specs.Reading.{Input};

    ghost Value = { Input };

    ghost view = { λ c. record { end = c.end; rest = c.rest.now } };

    ghost invariant = { λ c. length c.rest.now ≤ c.end };
}

impl<'a> Cursor<'a> {
    /// A cursor before the first of the bytes.
    pub fn new(bytes: &'a [u8]) -> Self
        ensures { result ≡ record { end = length bytes.now; rest = bytes.now } }
    {
        Cursor {
            rest: bytes,
            end: bytes.len(),
        }
    }

    /// A second cursor at the same place, which goes on by itself.
    pub fn copy(&self) -> Cursor<'a>
        ensures { result ≡ self.now }
    {
        Cursor {
            rest: self.rest,
            end: self.end,
        }
    }

    /// The offset of the next byte.
    pub fn place(&self) -> usize
        ensures { result ≡ place self.now }
    {
        self.end - self.rest.len()
    }

    /// The offset behind the last byte.
    pub fn end(&self) -> usize
        ensures { result ≡ self.now.end }
    {
        self.end
    }

    /// Whether all bytes were read.
    pub fn is_at_end(&self) -> bool
        ensures { result ≡ (length self.now.rest == 0) }
    {
        self.rest.is_empty()
    }

    /// The next byte.
    pub fn u8(&mut self) -> Result<u8, ReadError>
        ensures { Gives (λ n. n) result self.old self.new (on_rest byte_at self.old) }
    {
        let [first, rest @ ..] = self.rest else {
            return Err(ReadError::Short);
        };
        self.rest = rest;
        Ok(*first)
    }

    /// The next n bytes.
    pub fn take(&mut self, n: usize) -> Result<&'a [u8], ReadError>
        ensures value { Gives (λ taken. taken.now) result self.old self.new (on_rest (bytes_at n) self.old) }
        ensures len { IfOk result (λ taken. length taken.now ≡ n) }
    {
        if self.rest.len() < n {
            return Err(ReadError::Short);
        }
        let (front, rest) = self.rest.split_at(n);
        self.rest = rest;
        Ok(front)
    }

    /// The next two bytes as a number, the lowest first.
    pub fn u16(&mut self) -> Result<u16, ReadError>
        ensures value { Gives (λ n. n) result self.old self.new (on_rest (number_at w16) self.old) }
        ensures spelled { Spelled (number_text w16) (λ n. n < 2 ^ 16) self.old.rest (number_at w16 self.old.rest) }
    {
        let (number, rest) = u16_of(self.rest)?;
        self.rest = rest;
        Ok(number)
    }

    /// The next four bytes as a number, the lowest first.
    pub fn u32(&mut self) -> Result<u32, ReadError>
        ensures value { Gives (λ n. n) result self.old self.new (on_rest (number_at w32) self.old) }
        ensures spelled { Spelled (number_text w32) (λ n. n < 2 ^ 32) self.old.rest (number_at w32 self.old.rest) }
    {
        let (number, rest) = u32_of(self.rest)?;
        self.rest = rest;
        Ok(number)
    }

    /// The next eight bytes as a number, the lowest first.
    pub fn u64(&mut self) -> Result<u64, ReadError>
        ensures value { Gives (λ n. n) result self.old self.new (on_rest (number_at w64) self.old) }
        ensures spelled { Spelled (number_text w64) (λ n. n < 2 ^ 64) self.old.rest (number_at w64 self.old.rest) }
    {
        let (number, rest) = u64_of(self.rest)?;
        self.rest = rest;
        Ok(number)
    }

    /// A CompactSize, in its shortest form.
    pub fn compact_size(&mut self) -> Result<u64, ReadError>
        ensures value { Gives (λ n. n) result self.old self.new (on_rest compact_at self.old) }
        ensures spelled { Spelled compact (λ n. n < 2 ^ 64) self.old.rest (compact_at self.old.rest) }
    {
        let (number, rest) = compact_of(self.rest)?;
        self.rest = rest;
        Ok(number)
    }

    /// A VARINT (`ReadVarInt` in Bitcoin Core's `serialize.h`). One that runs past 64 bits is too large as soon as it
    /// can't fit, also where the bytes then end.
    pub fn varint(&mut self) -> Result<u64, ReadError>
        ensures value { Gives (λ n. n) result self.old self.new (on_rest varint_at self.old) }
        ensures spelled { Spelled varint (λ n. n < 2 ^ 64) self.old.rest (varint_at self.old.rest) }
    {
        let (number, rest) = varint_of(self.rest)?;
        self.rest = rest;
        Ok(number)
    }

    /// A CompactSize that is a length, a count or an index, of at most 33,554,432.
    pub fn compact_len(&mut self) -> Result<usize, ReadError>
        ensures value { Gives (λ n. n) result self.old self.new (on_rest length_at self.old) }
        ensures spelled { Spelled compact (λ n. n ≤ 33554432) self.old.rest (length_at self.old.rest) }
    {
        let (number, rest) = length_of(self.rest)?;
        self.rest = rest;
        Ok(number)
    }
}
