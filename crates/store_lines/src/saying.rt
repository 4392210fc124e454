//! Replies as lines of a text.

ghost use Rattle.std.specs.Prelude.{◌≡◌, ◌++◌, OnOk, IfErr};
ghost use Rattle.base_types.specs.declared.fault.StoreFault.TheVariants.{NoMemory};
ghost use Rattle.command_text.specs.Replies.{reply_text};
ghost use Rattle.store_lines.specs.Taking.{SaysFault};

use base_types::StoreFault;
use command_text::{Reply, write_reply};
use frame_scan::FrameFault;
use std::alloc::AllocError;

/// Adds a reply's line to a text.
pub fn say(out: &mut Vec<u8>, reply: &Reply) -> Result<(), StoreFault>
    ensures ok { OnOk result (out.new.items ≡ out.old.items ++ reply_text reply.now) }
    ensures err { IfErr result (λ fault. fault ≡ NoMemory) }
{
    match write_reply(out, reply) {
        Ok(()) => Ok(()),
        Err(AllocError) => Err(StoreFault::NoMemory),
    }
}

// Says why a block file can't be read on.
pub(crate) fn say_fault(out: &mut Vec<u8>, fault: FrameFault) -> Result<(), StoreFault>
    ensures ok { OnOk result (SaysFault fault out.old.items out.new.items) }
    ensures err { IfErr result (λ fault. fault ≡ NoMemory) }
{
    match fault {
        FrameFault::NoMemory => Err(StoreFault::NoMemory),
        FrameFault::HostFailed => say(out, &Reply::HostFault),
        FrameFault::FileTooLong => say(out, &Reply::FileTooLong),
    }
}
