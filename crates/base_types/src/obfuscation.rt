//! The obfuscation of stored bytes.

ghost use Rattle.std.specs.Prelude.{◌≡◌, ◌+◌, ◌^◌, ◌<◌, length};
ghost use Rattle.base_types.specs.Obfuscation.{obfuscated};

/// Obfuscates bytes that stand from an offset on, or takes the obfuscation off: each is joined by exclusive or to the key's
/// byte at its own offset modulo 8 (`Obfuscation` in Bitcoin Core's `util/obfuscation.h`).
pub fn obfuscate(bytes: &mut [u8], key: &[u8; 8], offset: u64)
    requires { offset + length bytes.old < 2 ^ 64 }
    ensures { bytes.new ≡ obfuscated key.now offset bytes.old }
{
    for (place, byte) in bytes.iter_mut().enumerate() {
        *byte ^= key[((offset + place as u64) % 8) as usize];
    }
}
