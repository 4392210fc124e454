//! Headers one after another, by the rules of headers.

ghost use Rattle.std.specs.Prelude.{◌≡◌, ◌++◌, ℕ, List, IfOk, OnOk};
ghost use Rattle.chain_model.specs.HeaderRules.{header_broken};
ghost use Rattle.header_tree.specs.State.{State};
ghost use Rattle.coins_inspect.specs.ChainReports.{accepted_line, broken_line, judged, chain_lines, genesis_alone, headers_report, IsRefusal};
ghost use Rattle.coins_inspect.specs.Names.{block_error as name_of_block_error};
ghost use Rattle.coins_inspect.specs.Reports.{fault_line, IsFault};

use crate::names::{block_error, header_refused, put_fault};
use crate::words::Word::{Hash, Number, Text};
use crate::words::put_line;
use base_types::{Cursor, Hash32, HeaderRefused, Limits, Rules};
use block_codec::{BlockFault, Header, block_hash, read_header};
use header_tree::{AcceptFault, Tree};
use std::alloc::{AllocError, Global};

/// The most headers that are held.
const LIMITS: Limits = Limits {
    file_bytes: 1 << 63,
    headers: 4_194_304,
};

/// Each rule holds from height 1 on.
const RULES: Rules = Rules {
    version4: 1,
    bip34: 1,
    csv: 1,
    segwit: 1,
};

/// Headers, the first of which is to be a child of genesis.
#[tactic(auto, unfolding(crate::specs::ChainReports::headers_report))]
pub(crate) fn headers(alloc: Global, out: &mut Vec<u8>, bytes: &[u8]) -> Result<(), AllocError>
    ensures { OnOk result (out.new.items ≡ out.old.items ++ headers_report bytes.now) }
{
    let mut tree = genesis_tree(alloc)?;
    let mut cursor = Cursor::new(bytes);
    put_chain(out, &mut tree, &mut cursor, bytes.len())
}

/// The tree of genesis alone.
pub(crate) fn genesis_tree(alloc: Global) -> Result<Tree, AllocError>
    ensures { IfOk result (λ tree. tree ≡ genesis_alone) }
{
    Tree::new(alloc, &LIMITS, &RULES)
}

/// Adds the headers to the end, of which there are at most so many.
pub(crate) fn put_chain(
    out: &mut Vec<u8>,
    tree: &mut Tree,
    cursor: &mut Cursor<'_>,
    most: usize,
) -> Result<(), AllocError>
    ensures { OnOk result (out.new.items ≡ out.old.items ++ chain_lines most tree.old cursor.old) }
{
    for _ in 0..most {
        if cursor.is_at_end() {
            return Ok(());
        }
        match read_header(cursor) {
            Ok(header) => put_judged(out, tree, &header)?,
            Err(fault) => return put_header_fault(out, fault),
        }
    }
    Ok(())
}

// Adds whether a header breaks a rule in a tree, to which it is added if it breaks none.
fn put_judged(out: &mut Vec<u8>, tree: &mut Tree, header: &Header) -> Result<(), AllocError>
    ensures { (others : State → List ℕ) → OnOk result (out.new.items ++ others tree.new ≡ out.old.items ++ judged (header_broken tree.old.limit tree.old.tree header.now) tree.old header.now others) }
{
    match tree.accept(header) {
        Ok(hash) => match tree.height(&hash) {
            Some(height) => put_accepted(out, height, hash),
            // What was accepted is in the tree.
            None => unreachable!(),
        },
        Err(fault) => put_refusal(out, fault, block_hash(header)),
    }
}

fn put_header_fault(out: &mut Vec<u8>, fault: BlockFault) -> Result<(), AllocError>
    ensures { OnOk result (IsFault fault (λ error at. out.new.items ≡ out.old.items ++ fault_line (name_of_block_error error) at)) }
{
    match fault {
        BlockFault::NoMemory => Err(AllocError),
        BlockFault::Bad { error, at } => put_fault(out, block_error(error), at),
    }
}

fn put_refusal(out: &mut Vec<u8>, fault: AcceptFault, hash: Hash32) -> Result<(), AllocError>
    ensures { OnOk result (IsRefusal fault (λ rule. out.new.items ≡ out.old.items ++ broken_line rule hash)) }
{
    match fault {
        AcceptFault::NoMemory => Err(AllocError),
        AcceptFault::Refused(rule) => put_broken(out, rule, hash),
    }
}

#[tactic(auto, unfolding(crate::specs::ChainReports::accepted_line))]
fn put_accepted(out: &mut Vec<u8>, height: u32, hash: Hash32) -> Result<(), AllocError>
    ensures { OnOk result (out.new.items ≡ out.old.items ++ accepted_line height hash) }
{
    put_line(out, "ok", &[Number(u64::from(height)), Hash(hash)])
}

#[tactic(auto, unfolding(crate::specs::ChainReports::broken_line))]
fn put_broken(out: &mut Vec<u8>, rule: HeaderRefused, hash: Hash32) -> Result<(), AllocError>
    ensures { OnOk result (out.new.items ≡ out.old.items ++ broken_line rule hash) }
{
    put_line(out, "refused", &[Text(header_refused(rule)), Hash(hash)])
}
