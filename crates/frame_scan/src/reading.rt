//! Reading the open input of a host.

ghost use Rattle.std.specs.Prelude.{◌≡◌, ◌+◌, ◌^◌, ◌<◌, ◌≤◌, [], length, take, IfOk, IfErr, OnErr};
ghost use Rattle.io_traits.specs.Causes.{HasCause};
ghost use Rattle.io_traits.specs.Told.{OnTold};
ghost use Rattle.io_traits.specs.Host.{unread_bytes};
ghost use Rattle.frame_scan.specs.declared.fault.FrameFault.TheVariants.{HostFailed};
ghost use Rattle.frame_scan.specs.Scan.{ReadsPlain, plain_from};

use crate::fault::FrameFault;
use base_types::obfuscate;
use io_traits::{Host, IoFailed};

/// Reads into the front of `piece` bytes that stand from an offset of a file on, takes their obfuscation off, and answers their
/// number.
pub(crate) fn read_plain<H: Host>(
    host: &mut H,
    piece: &mut [u8],
    key: &Option<[u8; 8]>,
    offset: u64,
) -> Result<usize, FrameFault>
    requires some { 0 < length piece.old }
    requires fits { offset + length piece.old < 2 ^ 64 }
    ensures count { IfOk result (λ count. count ≤ length piece.new) }
    ensures read { IfOk result (λ count. OnTold (H.held host.old) (H.held host.new) (ReadsPlain key.now offset (take count piece.new))) }
    ensures ended { IfOk result (λ count. count ≡ 0 → OnTold (H.held host.old) (H.held host.new) (λ s t. unread_bytes t ≡ [])) }
    ensures kept { OnErr result (OnTold (H.held host.old) (H.held host.new) (λ s t. t ≡ s)) }
    ensures causes { IfErr result (λ error. error ≡ HostFailed) }
    ensures cause { HasCause (H.faults host.old) (H.faults host.new) result }
{
    match host.read_in(piece) {
        Ok(count) => {
            reveal(&mut piece[..count], key, offset);
            Ok(count)
        }
        Err(IoFailed) => Err(FrameFault::HostFailed),
    }
}

/// Takes the obfuscation, if there is one, off bytes that stand from an offset of a file on.
fn reveal(bytes: &mut [u8], key: &Option<[u8; 8]>, offset: u64)
    requires { offset + length bytes.old < 2 ^ 64 }
    ensures { bytes.new ≡ plain_from key.now offset bytes.old }
{
    if let Some(key) = key {
        obfuscate(bytes, key, offset);
    }
}
