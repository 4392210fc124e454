//! Headers are in the ranges of their types. The language says so of a field behind a reference where it was passed by value.

ghost use Rattle.std.specs.Prelude.{◌≡◌, ◌<◌, ◌^◌, All, length};
ghost use Rattle.std.specs.Int.{w32};
ghost use Rattle.std.specs.Int.RustNames.{FitsSigned};
ghost use Rattle.block_codec.specs.Fitting.{HeaderFits};

use block_codec::Header;

fn is_u32(number: u32)
    ensures { number < 2 ^ 32 }
{
    let _number = number;
}

fn is_i32(number: i32)
    ensures { FitsSigned w32 number }
{
    let _number = number;
}

/// A hash has 32 bytes.
pub(crate) fn has_32_bytes(bytes: &[u8; 32])
    ensures { length bytes.now ≡ 32 }
{
    let _bytes = bytes;
}

fn header_fits(header: &Header)
    ensures { HeaderFits header.now }
{
    is_i32(header.version);
    has_32_bytes(&header.prev.bytes);
    has_32_bytes(&header.root.bytes);
    is_u32(header.time);
    is_u32(header.bits);
    is_u32(header.nonce);
}

/// Each header is in its ranges. It does nothing when it runs.
pub(crate) fn headers_fit(headers: &[Header])
    ensures { All HeaderFits headers.now }
{
    for header in headers {
        header_fits(header);
    }
}
