//! The changed entries of a cache, in the order of their outpoints' key texts.

ghost use Rattle.std.specs.Prelude.{◌≡◌, List, map, IfOk};
ghost use Rattle.std.specs.List.Sorted.{IsPermutation};
ghost use Rattle.coin_cache.specs.Entries.{IsSound};
ghost use Rattle.flusher.specs.Changes.{slot_of};

use base_types::OutPoint;
use coin_cache::Cache;
use coin_codec::write_key;
use slot_pool::Slot;
use std::alloc::{AllocError, Global};

/// The greatest length of an outpoint's key text in bytes.
const KEY_LEN: usize = 38;

/// The slot of a changed entry, behind the key text of its outpoint, by which it is ordered.
#[derive(Drop)]
pub struct Named {
    text: Vec<u8>,
    slot: Slot,
}

fn name(alloc: Global, key: &OutPoint, slot: Slot) -> Result<Named, AllocError>
    ensures { IfOk result (λ named. named.slot ≡ slot) }
{
    let mut text = Vec::with_capacity(alloc, KEY_LEN)?;
    write_key(&mut text, key)?;
    Ok(Named { text, slot })
}

// The changed entries, in the order in which they were flagged.
fn name_all(alloc: Global, cache: &Cache) -> Result<Vec<Named>, AllocError>
    ensures changes { IfOk result (λ names. map slot_of names.items ≡ cache.now.changes) }
    ensures sound { IsSound cache.now }
{
    let mut next = cache.first_change();
    let mut names = Vec::with_capacity(alloc, cache.dirty() as usize)?;
    while let Some(slot) = next {
        let named = name(alloc, &cache.change(slot).key, slot)?;
        names.push(named)?;
        next = cache.next_change(slot);
    }
    Ok(names)
}

fn slots_of(alloc: Global, names: &[Named]) -> Result<Vec<Slot>, AllocError>
    ensures { IfOk result (λ slots. slots.items ≡ map slot_of names.now) }
{
    let mut slots = Vec::with_capacity(alloc, names.len())?;
    for named in names {
        slots.push(named.slot)?;
    }
    Ok(slots)
}

/// The slots of the changed entries, in the order of their outpoints' key texts.
pub(crate) fn changes_in_order(alloc: Global, cache: &Cache) -> Result<Vec<Slot>, AllocError>
    ensures moved { IfOk result (λ slots. IsPermutation cache.now.changes slots.items) }
    ensures sound { IsSound cache.now }
{
    let mut names = name_all(alloc, cache)?;
    names.sort_by(|a, b| a.text.cmp(&b.text))?;
    slots_of(alloc, &names)
}
