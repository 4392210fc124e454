//! Writing a chain.

ghost use Rattle.std.specs.Prelude.{◌≡◌, ◌≢◌, ◌≤◌, ℕ, List, [], Option, None, Err, OnErr, IfOk, IsOk, IsErr, IsErrOf};
ghost use Rattle.io_traits.specs.Causes.{Rose};
ghost use Rattle.io_traits.specs.Told.{OnTold};
ghost use Rattle.io_traits.specs.Host.{Held, ChangesOnly};
ghost use Rattle.io_traits.specs.HostRuns.{IsMade, IsDone};
ghost use Rattle.block_codec.specs.Genesis.{genesis_hash};
ghost use Rattle.chain_model.specs.Generated.{chain, tip_of, file_text};
ghost use Rattle.chain_model.specs.Generated.{blocks_of};
ghost use Rattle.chain_gen.specs.declared.fault.GenFault.TheVariants as fault;
ghost use Rattle.chain_gen.specs.Made.{IsTip, Leaves, Ends};

use crate::blocks::{block_at, put_frame};
use crate::fault::GenFault;
use base_types::Hash32;
use block_codec::genesis_hash;
use io_traits::Host;
use std::alloc::Global;

/// Writes the frames of the first `count` blocks over genesis that a number determines, and answers the last one's hash.
/// The file is made anew, and ended whatever comes of it. `count` is from 1 to 100,000.
pub fn generate<H: Host>(
    alloc: Global,
    host: &mut H,
    name: &str,
    number: u64,
    count: u32,
) -> Result<Hash32, GenFault>
    requires { (1 ≤ count) × (count ≤ 100000) }
    ensures ok { IfOk result (λ tip. IsOk (chain number count) × (tip ≡ tip_of (blocks_of (chain number count)))) }
    ensures no_nonce { IsErrOf result fault.NoNonce → IsErr (chain number count) }

    // Of a host that tells its files: the file has the frames of all blocks, or of those before the first without a nonce.
    ensures file { OnTold (H.held host.old) (H.held host.new) (Ends result name.now (file_text (blocks_of (chain number count)))) }

    // Whatever the answer, the other files and the open input are as before, and no file is created any more.
    ensures others { OnTold (H.held host.old) (H.held host.new) (ChangesOnly name.now) }
    ensures idle { OnTold (H.held host.old) (H.held host.new) (λ s t. t.created ≡ None) }

    // The host failed only where it counted that, and with any other answer its count stays.
    ensures later { H.faults host.old ≤ H.faults host.new }
    ensures cause { IsErrOf result fault.HostFailed → Rose (H.faults host.old) (H.faults host.new) }
    ensures steady { result ≢ Err fault.HostFailed → H.faults host.new ≡ H.faults host.old }
{
    if host.create(name).is_err() {
        return Err(GenFault::HostFailed);
    }
    let made = write_blocks(alloc, host, number, count);
    if host.finish().is_err() {
        return Err(GenFault::HostFailed);
    }
    made
}

// Writes the frames to the created file, each as soon as its block is made.
fn write_blocks<H: Host>(
    alloc: Global,
    host: &mut H,
    number: u64,
    count: u32,
) -> Result<Hash32, GenFault>
    requires { count ≤ 100000 }
    ensures tip { IsTip result (chain number count) }
    ensures file { (name : List ℕ) (first : Option Held) → OnTold first (H.held host.old) (IsMade name []) → OnTold first (H.held host.new) (Leaves result name (file_text (blocks_of (chain number count)))) }
    ensures later { H.faults host.old ≤ H.faults host.new }
    ensures cause { IsErrOf result fault.HostFailed → Rose (H.faults host.old) (H.faults host.new) }
    ensures steady { result ≢ Err fault.HostFailed → H.faults host.new ≡ H.faults host.old }
{
    let mut frame = Vec::new(alloc);
    let mut tip = genesis_hash();
    for below in 0..count {
        let (block, hash) = block_at(alloc, number, &tip, below + 1)?;
        put_frame(&mut frame, &block)?;
        if host.write(&frame).is_err() {
            return Err(GenFault::HostFailed);
        }
        tip = hash;
    }
    Ok(tip)
}
