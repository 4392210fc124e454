//! The closure of a tree under the headers of a file.

ghost use Rattle.std.specs.Prelude.{◌≡◌, IfOk, OnOk};
ghost use Rattle.chain_model.specs.HeaderRules.{closure, round};
ghost use Rattle.chainstates.specs.Closing.{closed_of};

use base_types::HeaderRefused;
use block_codec::Header;
use block_store::HeaderList;
use header_tree::{AcceptFault, Tree};
use std::alloc::{AllocError, Global};

/// The headers that were added to a tree, in their order, and whether a further one found it full.
#[derive(Debug, Drop)]
pub struct Closing {
    pub added: HeaderList,
    pub full: bool,
}

/// Adds headers to a tree, in rounds over them in their order, until a round adds nothing: a header whose parent comes
/// behind it is added in a later round. One that finds the tree full ends the work, any other that breaks a rule is passed
/// over. After an error the tree may have any first part of them.
pub fn close(alloc: Global, tree: &mut Tree, headers: &[Header]) -> Result<Closing, AllocError>
    ensures ok { IfOk result (λ closing. closed_of tree.new closing ≡ closure tree.old.limit tree.old.tree headers.now) }
    ensures limit { tree.new.limit ≡ tree.old.limit }
{
    let mut closing = Closing {
        added: HeaderList::new(alloc),
        full: false,
    };
    for _round in 0..headers.len() {
        let before = closing.added.as_slice().len();
        if let Err(error) = close_round(tree, headers, &mut closing) {
            return Err(error);
        }
        if closing.added.as_slice().len() == before {
            return Ok(closing);
        }
    }
    Ok(closing)
}

// One round over the headers.
fn close_round(tree: &mut Tree, headers: &[Header], closing: &mut Closing) -> Result<(), AllocError>
    ensures ok { OnOk result (closed_of tree.new closing.new ≡ round tree.old.limit headers.now (closed_of tree.old closing.old)) }
    ensures limit { tree.new.limit ≡ tree.old.limit }
{
    for header in headers {
        if closing.full {
            return Ok(());
        }
        match tree.accept(header) {
            Ok(_) => closing.added.push(*header)?,
            Err(AcceptFault::NoMemory) => return Err(AllocError),
            Err(AcceptFault::Refused(HeaderRefused::TreeFull)) => closing.full = true,
            Err(AcceptFault::Refused(_)) => (),
        }
    }
    Ok(())
}
