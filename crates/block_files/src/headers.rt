//! The headers of a file.

ghost use Rattle.std.specs.Prelude.{◌≡◌, ◌≢◌, ◌≤◌, Err};
ghost use Rattle.block_files.specs.Passes.{ReadsHeaders, ReadsRest};
ghost use Rattle.frame_scan.specs.declared.fault.FrameFault.TheVariants.{HostFailed};
ghost use Rattle.io_traits.specs.Told.{OnTold};

use crate::blocks::open_blocks;
use base_types::List;
use block_codec::Header;
use frame_scan::{FrameFault, Frames};
use io_traits::Host;
use std::alloc::Global;

/// The headers of the blocks of a file of the host, in the order of their frames. The file is passed in a window, and no
/// more of it is kept than 80 bytes a block.
pub fn read_headers<H: Host>(
    alloc: Global,
    host: &mut H,
    name: &str,
    key: Option<[u8; 8]>,
) -> Result<List<Header>, FrameFault>
    ensures told { OnTold (H.held host.old) (H.held host.new) (ReadsHeaders name.now key (H.faults host.old) (H.faults host.new) result) }
    ensures later { H.faults host.old ≤ H.faults host.new }
    ensures steady { result ≢ Err HostFailed → H.faults host.new ≡ H.faults host.old }
{
    match open_blocks(alloc, host, name, key) {
        Ok(mut frames) => rest_of(alloc, host, &mut frames),
        Err(fault) => Err(fault),
    }
}

// The headers of the blocks that are left of the open input.
fn rest_of<H: Host>(
    alloc: Global,
    host: &mut H,
    frames: &mut Frames,
) -> Result<List<Header>, FrameFault>
    ensures told { OnTold (H.held host.old) (H.held host.new) (ReadsRest frames.old (H.faults host.old) (H.faults host.new) result) }
    ensures later { H.faults host.old ≤ H.faults host.new }
    ensures steady { result ≢ Err HostFailed → H.faults host.new ≡ H.faults host.old }
{
    let mut headers = List::new(alloc);
    while let Some(header) = frames.next_header(host)? {
        headers.push(header)?;
    }
    Ok(headers)
}
