//! Appending all of a text or nothing.

ghost use Rattle.std.specs.Prelude.{◌≡◌, length, take, vec_capacity, OnOk, OnErr};

use std::alloc::AllocError;

/// Takes back what stands behind the first `len` bytes, where memory ran out while it was written.
pub fn all_or_nothing(
    out: &mut Vec<u8>,
    len: usize,
    written: Result<(), AllocError>,
) -> Result<(), AllocError>
    ensures same { result ≡ written }
    ensures ok { OnOk written (out.new.items ≡ out.old.items) }
    ensures err { OnErr written (out.new.items ≡ take len out.old.items) }
    ensures capacity { vec_capacity out.new ≡ vec_capacity out.old }
{
    if written.is_err() {
        out.truncate(len);
    }
    written
}
