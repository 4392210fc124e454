//! Outpoints in the order of their key texts.

ghost use Rattle.std.specs.Prelude.{◌≡◌, List, map, All, IfOk};
ghost use Rattle.std.specs.List.Sorted.{IsPermutation, IsSorted};
ghost use Rattle.base_types.specs.declared.hash.OutPoint.{OutPoint};
ghost use Rattle.coin_store.specs.KeyOrder.{IsNamed, key_order, key_of};
ghost use Rattle.coin_store.specs.declared.key_order.Named.{Named};

use base_types::{Keys, OutPoint};
use coin_codec::write_key;
use std::alloc::{AllocError, Global};

/// The greatest length of an outpoint's key text in bytes.
const KEY_LEN: usize = 38;

/// An outpoint behind its key text, by which it is ordered.
#[derive(PartialEq, Eq, PartialOrd, Ord, Drop)]
pub struct Named {
    text: Vec<u8>,
    key: OutPoint,
}

fn name(alloc: Global, key: &OutPoint) -> Result<Named, AllocError>
    ensures named { IfOk result IsNamed }
    ensures key { IfOk result (λ n. n.key ≡ key.now) }
{
    let mut text = Vec::with_capacity(alloc, KEY_LEN)?;
    write_key(&mut text, key)?;
    Ok(Named { text, key: *key })
}

fn name_all(alloc: Global, keys: &[OutPoint]) -> Result<Vec<Named>, AllocError>
    ensures named { IfOk result (λ names. All IsNamed names.items) }
    ensures keys { IfOk result (λ names. map key_of names.items ≡ keys.now) }
{
    let mut names = Vec::with_capacity(alloc, keys.len())?;
    for key in keys {
        let named = name(alloc, key)?;
        names.push(named)?;
    }
    Ok(names)
}

fn keys_of(alloc: Global, names: &[Named]) -> Result<Keys, AllocError>
    ensures { IfOk result (λ keys. keys ≡ map key_of names.now) }
{
    let mut keys = Vec::with_capacity(alloc, names.len())?;
    for named in names {
        keys.push(named.key)?;
    }
    Ok(Keys::from(keys))
}

/// The outpoints in the order of their key texts.
pub fn in_key_order(alloc: Global, keys: &[OutPoint]) -> Result<Keys, AllocError>
    ensures same { IfOk result (λ sorted. IsPermutation keys.now sorted) }
    ensures sorted { IfOk result (IsSorted key_order) }
{
    let mut names = name_all(alloc, keys)?;
    names.sort()?;
    keys_of(alloc, &names)
}
