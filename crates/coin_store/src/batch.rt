//! The places of the coins of whole payloads.

ghost use Rattle.std.specs.Prelude.{◌≡◌, ℕ, ◌+◌, ◌-◌, ◌^◌, ◌<◌, ◌≤◌, List, length, drop, Option, Some, None, All, IfOk, IfErr, OnOk};
ghost use Rattle.base_types.specs.declared.coin.Coin.{Coin};
ghost use Rattle.coin_store.specs.Base.{base_of};
ghost use Rattle.coin_store.specs.BatchReads.{IsHash, IsMarker, HasRows, HasBatch, HasBaseRows, HasPayload, IsNoPayload, NotesRow};
ghost use Rattle.coin_store.specs.Reading.{rows_of, batch_of};
ghost use Rattle.coin_store.specs.Rows.{IsBrokenBy};
ghost use Rattle.coin_store.specs.Staged.{HasEntry, StandsFrom, places_noted};

use crate::index::Index;
use crate::kind::Kind;
use crate::marker::Marker;
use crate::places::CoinPlace;
use crate::row::{Mask, RowFault, RowHead, read_row};
use crate::staging::StagedRow;
use base_types::{Cursor, Hash32};
use std::alloc::AllocError;

/// The letters before the tips of a marker (`DB_BEST_BLOCK` and `DB_HEAD_BLOCKS` in Bitcoin Core's `txdb.cpp`).
pub const AT: u8 = b'B';

pub const BETWEEN: u8 = b'H';

/// The gate of a payload's record: its file, and its offset.
#[derive(Clone, Copy, Debug)]
pub struct Gate {
    pub file: u32,
    pub at: u64,
}

fn take_hash(cursor: &mut Cursor<'_>) -> Option<Hash32>
    ensures hash { IsHash cursor.old.rest cursor.new.rest result }
    ensures end { cursor.new.end ≡ cursor.old.end }
{
    let Ok(taken) = cursor.take(32) else {
        return None;
    };
    let mut bytes = [0; 32];
    bytes.copy_from_slice(taken);
    Some(Hash32 { bytes })
}

#[tactic(auto, unfolding(crate::specs::Reading::marker_of))]
fn marker_of(cursor: &mut Cursor<'_>) -> Option<Marker>
    ensures marker { IsMarker cursor.old.rest cursor.new.rest result }
    ensures end { cursor.new.end ≡ cursor.old.end }
{
    let Ok(letter) = cursor.u8() else {
        return None;
    };
    match letter {
        AT => Some(Marker::At {
            tip: take_hash(cursor)?,
        }),
        BETWEEN => Some(Marker::Between {
            new_tip: take_hash(cursor)?,
            old_tip: take_hash(cursor)?,
        }),
        _ => None,
    }
}

// Where the coin of a row lies. The row stands at that offset of the payload.
fn place_of(gate: Gate, offset: usize, row: &RowHead) -> CoinPlace
    requires fits { gate.at + (5 + (offset + (row.now.from + row.now.len))) < 2 ^ 64 }
    requires len { row.now.len < 2 ^ 32 }
    ensures { result ≡ record { gate = gate.at; at = gate.at + 5 + offset + row.now.from; len = row.now.len; file = gate.file } }
{
    CoinPlace {
        file: gate.file,
        gate: gate.at,
        at: gate.at + 5 + offset as u64 + row.from as u64,
        len: row.len as u32,
    }
}

// Keeps the place of a row's coin.
fn note(index: &mut Index, gate: Gate, offset: usize, row: &RowHead) -> Result<(), AllocError>
    requires fits { gate.at + (5 + (offset + (row.now.from + row.now.len))) < 2 ^ 64 }
    requires len { row.now.len < 2 ^ 32 }
    ensures places { OnOk result (NotesRow gate.file gate.at offset row.now index.old.places index.new.places) }
    ensures salt { index.new.salt ≡ index.old.salt }
{
    if row.len == 0 {
        index.remove(&row.key);
        return Ok(());
    }
    index.set(&row.key, place_of(gate, offset, row))
}

/// Reads the rows from an offset of a payload to its end and keeps the places of their coins, whose obfuscation it takes off
/// where they stand. Answers whether each row has a coin. After an error the places may be those after the rows that were read.
fn read_rows(
    payload: &mut [u8],
    start: usize,
    gate: Gate,
    mask: &Mask,
    index: &mut Index,
) -> Result<bool, RowFault>
    requires fits { gate.at + (5 + length payload.old) < 2 ^ 64 }
    requires len { length payload.old < 2 ^ 32 }
    ensures ok { IfOk result (HasRows gate.file gate.at start mask.now (drop start payload.old) index.old.places index.new.places) }
    ensures broken { IfErr result (IsBrokenBy (rows_of mask.now (length (drop start payload.old)) (drop start payload.old) ≡ None)) }
    ensures salt { index.new.salt ≡ index.old.salt }
{
    let mut at = start;
    let mut coins = true;
    while at < payload.len() {
        let Some(row) = read_row(&mut payload[at..], mask) else {
            return Err(RowFault::Broken);
        };
        let Ok(()) = note(index, gate, at, &row) else {
            return Err(RowFault::NoMemory);
        };
        coins &= row.len > 0;
        at += row.from + row.len;
    }
    Ok(coins)
}

// Reads a marker and rows.
fn read_batch(
    payload: &mut [u8],
    gate: Gate,
    mask: &Mask,
    index: &mut Index,
) -> Result<Marker, RowFault>
    requires fits { gate.at + (5 + length payload.old) < 2 ^ 64 }
    requires len { length payload.old < 2 ^ 32 }
    ensures ok { IfOk result (HasBatch gate.file gate.at mask.now payload.old index.old.places index.new.places) }
    ensures broken { IfErr result (IsBrokenBy (batch_of mask.now payload.old ≡ None)) }
    ensures salt { index.new.salt ≡ index.old.salt }
{
    let mut cursor = Cursor::new(payload);
    let Some(marker) = marker_of(&mut cursor) else {
        return Err(RowFault::Broken);
    };
    let start = cursor.place();
    match read_rows(payload, start, gate, mask, index) {
        Ok(_) => Ok(marker),
        Err(fault) => Err(fault),
    }
}

// Reads rows, each of which must have a coin.
fn read_base(payload: &mut [u8], gate: Gate, mask: &Mask, index: &mut Index) -> Result<(), RowFault>
    requires fits { gate.at + (5 + length payload.old) < 2 ^ 64 }
    requires len { length payload.old < 2 ^ 32 }
    ensures ok { OnOk result (HasBaseRows gate.file gate.at mask.now payload.old index.old.places index.new.places) }
    ensures broken { IfErr result (IsBrokenBy (base_of mask.now payload.old ≡ None)) }
    ensures salt { index.new.salt ≡ index.old.salt }
{
    match read_rows(payload, 0, gate, mask, index) {
        Ok(true) => Ok(()),
        Ok(false) => Err(RowFault::Broken),
        Err(fault) => Err(fault),
    }
}

/// Reads a payload and keeps the places of its coins, whose obfuscation it takes off where they stand. Answers its marker, which one of
/// a base doesn't have. After an error the places may be those after the rows that were read.
pub fn read_payload(
    payload: &mut [u8],
    kind: Kind,
    gate: Gate,
    mask: &Mask,
    index: &mut Index,
) -> Result<Option<Marker>, RowFault>
    requires fits { gate.at + (5 + length payload.old) < 2 ^ 64 }
    requires len { length payload.old < 2 ^ 32 }
    ensures ok { IfOk result (HasPayload kind gate.file gate.at mask.now payload.old index.old.places index.new.places) }
    ensures broken { IfErr result (IsBrokenBy (IsNoPayload kind mask.now payload.old)) }
    ensures salt { index.new.salt ≡ index.old.salt }
{
    match kind {
        Kind::Base => match read_base(payload, gate, mask, index) {
            Ok(()) => Ok(None),
            Err(fault) => Err(fault),
        },
        Kind::Coins => match read_batch(payload, gate, mask, index) {
            Ok(marker) => Ok(Some(marker)),
            Err(fault) => Err(fault),
        },
    }
}

/// Keeps the places of the coins of these rows, which stand in the payload from that byte of the staged ones on. Each row's
/// outpoint has an entry, which stays where the row takes its coin away, so that this takes no memory.
pub fn note_rows(index: &mut Index, gate: Gate, from: usize, rows: &[StagedRow])
    requires named { All (λ r. HasEntry index.old.places r.key) rows.now }
    requires fits { All (StandsFrom gate.at from) rows.now }
    ensures places { index.new.places ≡ places_noted gate.file gate.at from index.old.places rows.now }
    ensures size { index.old.size ≤ index.new.size }
    ensures salt { index.new.salt ≡ index.old.salt }
{
    for row in rows {
        let place = CoinPlace {
            file: gate.file,
            gate: gate.at,
            at: gate.at + 5 + (row.at - from) as u64,
            len: row.len as u32,
        };
        index.set(&row.key, place).unwrap();
    }
}
