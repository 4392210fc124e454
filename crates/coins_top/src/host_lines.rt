//! The lines `fold` and `generate`, which need no store.

ghost use Rattle.std.specs.Prelude.{◌≡◌, ◌≢◌, ◌≤◌, Ok, IfErr};
ghost use Rattle.base_types.specs.declared.fault.StoreFault.TheVariants as fault;
ghost use Rattle.command_loop.specs.ServerCalls.{setting_of};
ghost use Rattle.command_text.specs.declared.line.Line.TheVariants as line;
ghost use Rattle.command_text.specs.declared.reply.Reply.TheVariants as says;
ghost use Rattle.io_traits.specs.Told.{OnTold};
ghost use Rattle.machine.specs.State.{Setting};
ghost use Rattle.coins_top.specs.HostLines.{HostLine, LineWritten};

use crate::file_fold::fold;
use base_types::StoreFault;
use chain_gen::{GenFault, generate};
use command_loop::RunSettings;
use command_text::Reply;
use io_traits::Host;
use std::alloc::{AllocError, Global};
use store_lines::say;

/// Folds a block file of the host, and says what that answers.
pub(crate) fn fold_line<H: Host>(
    alloc: Global,
    settings: &RunSettings,
    host: &mut H,
    name: &str,
    out: &mut Vec<u8>,
) -> Result<(), StoreFault>
    ensures told { OnTold (H.held host.old) (H.held host.new) (λ s t. HostLine (setting_of settings.now) (Ok (line.Fold name.now)) (H.faults host.old) (H.faults host.new) out.old.items out.new.items result s.files t.files) }
    ensures cause { IfErr result (λ why. why ≡ fault.NoMemory) }
    ensures later { H.faults host.old ≤ H.faults host.new }
{
    match fold(alloc, host, name, &settings.limits, &settings.rules) {
        Ok(reply) => say(out, &reply),
        Err(AllocError) => Err(StoreFault::NoMemory),
    }
}

/// Writes a file of generated blocks, and says the last one's hash.
pub(crate) fn generate_line<H: Host>(
    alloc: Global,
    host: &mut H,
    number: u64,
    count: u64,
    name: &str,
    out: &mut Vec<u8>,
) -> Result<(), StoreFault>
    requires { (1 ≤ count) × (count ≤ 100000) }
    ensures told { OnTold (H.held host.old) (H.held host.new) (λ s t. (setting : Setting) → HostLine setting (Ok (line.Generate number count name.now)) (H.faults host.old) (H.faults host.new) out.old.items out.new.items result s.files t.files) }
    ensures cause { IfErr result (λ why. why ≡ fault.NoMemory) }
    ensures later { H.faults host.old ≤ H.faults host.new }
{
    match write_file(alloc, host, number, count, name) {
        Ok(reply) => say(out, &reply),
        Err(AllocError) => Err(StoreFault::NoMemory),
    }
}

// Writes a file of generated blocks, and answers what is said of it.
fn write_file<H: Host>(
    alloc: Global,
    host: &mut H,
    number: u64,
    count: u64,
    name: &str,
) -> Result<Reply, AllocError>
    requires { (1 ≤ count) × (count ≤ 100000) }
    ensures later { H.faults host.old ≤ H.faults host.new }
    ensures steady { result ≢ Ok says.HostFault → H.faults host.new ≡ H.faults host.old }
    ensures told { OnTold (H.held host.old) (H.held host.new) (λ s t. LineWritten number count name.now (H.faults host.old) (H.faults host.new) result s.files t.files) }
{
    match generate(alloc, host, name, number, count as u32) {
        Ok(tip) => Ok(Reply::Generated { count, tip }),
        Err(GenFault::NoNonce) => Ok(Reply::NoNonce),
        Err(GenFault::HostFailed) => Ok(Reply::HostFault),
        Err(GenFault::NoMemory) => Err(AllocError),
    }
}
