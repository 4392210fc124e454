//! The payload that is to come: the place of its marker, and then its rows.

ghost use Rattle.std.specs.Prelude.{◌≡◌, ℕ, ◌+◌, ◌*◌, ◌-◌, ◌^◌, ◌<◌, ◌≤◌, List, [], ◌∷◌, ◌++◌, length, take, drop, vec_len, vec_capacity, IfOk, OnOk, OnErr};
ghost use Rattle.std.specs.Option.{option_copied};
ghost use Rattle.batch_log.specs.Records.{payload_in};
ghost use Rattle.batch_log.specs.declared.places.Place.{Place};
ghost use Rattle.base_types.specs.Bytes.{compact};
ghost use Rattle.base_types.specs.Obfuscation.{obfuscated};
ghost use Rattle.coin_codec.specs.KeyText.{KeyFits};
ghost use Rattle.coin_store.specs.Batches.{head_text, marker_text, row_text, value_text, ValueFits, MarkerFits};
ghost use Rattle.coin_store.specs.Staged.{front_len};

use crate::batch::{AT, BETWEEN};
use crate::marker::Marker;
use crate::row::Mask;
use base_types::{Coin, OutPoint, obfuscate, put_compact_size};
use batch_log::Log;
use coin_codec::{coin_len, key_len, write_coin, write_key};
use std::alloc::{AllocError, Global};

/// The bytes before a payload in which an append puts its length.
pub const LENGTH_ROOM: usize = 4;

/// The bytes in which the text of each marker fits.
const MARKER_ROOM: usize = 65;

/// The bytes before the staged rows: room for the length of their payload, and for its marker.
const FRONT: usize = LENGTH_ROOM + MARKER_ROOM;

/// The least length of a row.
const ROW_LEN: usize = 35;

/// A staged row: its outpoint, and where the bytes of its coin stand in the bytes that are staged.
#[derive(Clone, Copy, Debug)]
pub struct StagedRow {
    pub key: OutPoint,
    pub at: usize,
    pub len: usize,
}

/// The rows that are staged, and the number of bytes that there is room for. Each byte of room takes less than three: the
/// byte, and for each 35 of them, which are the least row, 56 to know a row by.
#[derive(Drop)]
pub struct StagedRows {
    // Room for a length and a marker, and then the text of the rows.
    pub bytes: Vec<u8>,
    pub rows: Vec<StagedRow>,
    pub room: usize,
    ghost within: { 35 * vec_len rows ≤ vec_len bytes },
    ghost reserved: { room ≤ vec_capacity bytes },
    ghost many: { room ≤ 35 * vec_capacity rows + 34 },
}

impl StagedRows {
    /// No rows, and no room.
    pub fn new(alloc: Global) -> StagedRows {
        StagedRows {
            bytes: Vec::new(alloc),
            rows: Vec::new(alloc),
            room: 0,
        }
    }

    fn with_room(alloc: Global, room: usize) -> Result<StagedRows, AllocError>
        ensures { IfOk result (λ s. s.room ≡ room) }
    {
        Ok(StagedRows {
            bytes: Vec::with_capacity(alloc, room)?,
            rows: Vec::with_capacity(alloc, room / ROW_LEN)?,
            room,
        })
    }

    /// Leaves no rows, and makes room for a marker and a payload. After an error the rows and their room are as before.
    pub fn make_room(&mut self, alloc: Global, payload: u32) -> Result<(), AllocError>
        ensures front { OnOk result (length self.new.bytes.items ≡ front_len) }
        ensures none { OnOk result (self.new.rows.items ≡ []) }
        ensures room { OnOk result (front_len + payload ≤ self.new.room) }
        ensures err { OnErr result (self.new ≡ self.old) }
    {
        let room = FRONT + payload as usize;
        if self.room < room {
            *self = StagedRows::with_room(alloc, room)?;
        }
        self.clear();
        Ok(())
    }

    /// Leaves no rows. The room stays.
    pub fn clear(&mut self)
        requires { front_len ≤ self.old.room }
        ensures front { length self.new.bytes.items ≡ front_len }
        ensures none { self.new.rows.items ≡ [] }
        ensures room { self.new.room ≡ self.old.room }
    {
        self.rows.clear();
        self.bytes.resize(FRONT, 0).unwrap();
    }

    /// Adds a row. There is room for it.
    pub fn push(&mut self, key: &OutPoint, coin: Option<&Coin>, mask: &Mask)
        requires value { ValueFits (option_copied coin) }
        requires room { vec_len self.old.bytes + length (row_text mask.now (record { key = key.now; coin = option_copied coin })) ≤ self.old.room }
        ensures text { self.new.bytes.items ≡ self.old.bytes.items ++ row_text mask.now (record { key = key.now; coin = option_copied coin.entry }) }
        ensures coin { self.new.rows.items ≡ self.old.rows.items ++ record {
          key = key.now;
          at = vec_len self.old.bytes + length (head_text key.now (length (value_text (option_copied coin.entry))));
          len = length (value_text (option_copied coin.entry));
        } ∷ [] }
        ensures room { self.new.room ≡ self.old.room }
        ensures fits { KeyFits key.now }
    {
        let len = put_row(&mut self.bytes, key, coin, mask);
        let row = StagedRow {
            key: *key,
            at: self.bytes.len() - len,
            len,
        };
        self.rows.push(row).unwrap();
    }

    /// Puts a marker before the rows, and a byte behind them for the gate that an append closes. Answers where the payload
    /// begins, before which there is room for its length.
    pub fn frame(&mut self, marker: &Marker) -> usize
        requires front { front_len ≤ length self.old.bytes.items }
        requires room { vec_len self.old.bytes < self.old.room }
        ensures text { payload_in (drop (result - 4) self.new.bytes.items) ≡ marker_text marker.now ++ drop front_len self.old.bytes.items }
        ensures begins { result + length (marker_text marker.now) ≡ front_len }
        ensures len { vec_len self.new.bytes ≡ vec_len self.old.bytes + 1 }
        ensures length_room { 4 ≤ result }
        ensures fits { MarkerFits marker.now }
        ensures rows { self.new.rows ≡ self.old.rows }
        ensures room { self.new.room ≡ self.old.room }
    {
        let begins = put_marker(&mut self.bytes, marker);
        self.bytes.push(0).unwrap();
        begins
    }

    /// Takes away the byte behind the rows.
    pub fn unframe(&mut self)
        requires { 35 * vec_len self.old.rows < vec_len self.old.bytes }
        ensures bytes { self.new.bytes.items ≡ take (length self.old.bytes.items - 1) self.old.bytes.items }
        ensures len { vec_len self.new.bytes ≡ vec_len self.old.bytes - 1 }
        ensures rows { self.new.rows ≡ self.old.rows }
        ensures room { self.new.room ≡ self.old.room }
    {
        let len = self.bytes.len() - 1;
        self.bytes.truncate(len);
    }
}

fn put_at(bytes: &mut [u8], at: usize, text: &[u8])
    requires { at + length text.now ≤ length bytes.old }
    ensures { drop at bytes.new ≡ text.now ++ drop (at + length text.now) bytes.old }
{
    bytes[at..at + text.len()].copy_from_slice(text);
}

#[tactic(auto, unfolding(crate::specs::Batches::marker_text))]
fn write_marker(bytes: &mut [u8], marker: &Marker) -> usize
    requires { front_len ≤ length bytes.old }
    ensures text { drop result bytes.new ≡ marker_text marker.now ++ drop front_len bytes.old }
    ensures begins { result + length (marker_text marker.now) ≡ front_len }
    ensures room { 4 ≤ result }
    ensures fits { MarkerFits marker.now }
{
    match marker {
        Marker::At { tip } => {
            put_at(bytes, FRONT - 32, &tip.bytes);
            put_at(bytes, FRONT - 33, &[AT]);
            FRONT - 33
        }
        Marker::Between { new_tip, old_tip } => {
            put_at(bytes, FRONT - 32, &old_tip.bytes);
            put_at(bytes, FRONT - 64, &new_tip.bytes);
            put_at(bytes, FRONT - MARKER_ROOM, &[BETWEEN]);
            FRONT - MARKER_ROOM
        }
    }
}

// Puts the text of a marker right before the staged rows, and answers where it begins.
fn put_marker(staged: &mut Vec<u8>, marker: &Marker) -> usize
    requires { front_len ≤ length staged.old.items }
    ensures text { drop result staged.new.items ≡ marker_text marker.now ++ drop front_len staged.old.items }
    ensures begins { result + length (marker_text marker.now) ≡ front_len }
    ensures room { 4 ≤ result }
    ensures fits { MarkerFits marker.now }
    ensures len { vec_len staged.new ≡ vec_len staged.old }
    ensures capacity { vec_capacity staged.new ≡ vec_capacity staged.old }
{
    write_marker(staged, marker)
}

// Obfuscates the coin that begins there, and moves its length, which stands behind it, before it.
fn close_row(bytes: &mut [u8], start: usize, len: usize, mask: &Mask)
    requires { start + len ≤ length bytes.old }
    ensures { (front value size : List ℕ) → bytes.old ≡ front ++ (value ++ size) → start ≡ length front → len ≡ length value
        → bytes.new ≡ front ++ (size ++ obfuscated mask.now 0 value) }
{
    obfuscate(&mut bytes[start..start + len], mask, 0);
    bytes[start..].rotate_left(len);
}

// A key has a hash of 32 bytes and a number of 32 bits, of which the language speaks where it is passed by value.
fn is_in_range(key: OutPoint)
    ensures { KeyFits key }
{
    let _key = key;
}

// The length of a CompactSize.
#[tactic(auto, unfolding(base_types::specs::Bytes::compact))]
fn compact_size_len(n: u64) -> usize
    ensures exact { result ≡ length (compact n) }
    ensures most { result ≤ 9 }
{
    if n < 253 {
        1
    } else if n < 1 << 16 {
        3
    } else if n < 1 << 32 {
        5
    } else {
        9
    }
}

#[tactic(auto, unfolding(crate::specs::Batches::value_text))]
fn value_len(coin: Option<&Coin>) -> usize
    requires { ValueFits (option_copied coin) }
    ensures { result ≡ length (value_text (option_copied coin.entry)) }
{
    match coin {
        Some(coin) => coin_len(coin),
        None => 0,
    }
}

/// The length in bytes of the text of a row, as `CoinStore::stage` adds it.
pub fn row_len(key: &OutPoint, coin: Option<&Coin>) -> usize
    requires { ValueFits (option_copied coin) }
    ensures { (mask : List ℕ) → result ≡ length (row_text mask (record { key = key.now; coin = option_copied coin.entry })) }
{
    is_in_range(*key);
    let len = value_len(coin);
    key_len(key) + compact_size_len(len as u64) + len
}

// Adds the text of a row, and answers the length of its coin. There is room for it.
#[tactic(auto, unfolding(crate::specs::Batches::row_text, crate::specs::Batches::head_text, crate::specs::Batches::value_text))]
fn put_row(out: &mut Vec<u8>, key: &OutPoint, coin: Option<&Coin>, mask: &Mask) -> usize
    requires value { ValueFits (option_copied coin) }
    requires room { vec_len out.old + length (row_text mask.now (record { key = key.now; coin = option_copied coin })) ≤ vec_capacity out.old }
    ensures text { out.new.items ≡ out.old.items ++ row_text mask.now (record { key = key.now; coin = option_copied coin.entry }) }
    ensures len { result ≡ length (value_text (option_copied coin.entry)) }
    ensures capacity { vec_capacity out.old ≤ vec_capacity out.new }
    ensures fits { KeyFits key.now }
{
    is_in_range(*key);
    write_key(out, key).unwrap();
    let start = out.len();
    put_value(out, coin);
    let len = out.len() - start;
    put_compact_size(out, len as u64).unwrap();
    close_row(out, start, len, mask);
    len
}

// Adds the text of a coin, if there is one. There is room for it.
#[tactic(auto, unfolding(crate::specs::Batches::value_text))]
fn put_value(out: &mut Vec<u8>, coin: Option<&Coin>)
    requires value { ValueFits (option_copied coin) }
    requires room { vec_len out.old + length (value_text (option_copied coin)) ≤ vec_capacity out.old }
    ensures text { out.new.items ≡ out.old.items ++ value_text (option_copied coin.entry) }
    ensures capacity { vec_capacity out.old ≤ vec_capacity out.new }
{
    if let Some(coin) = coin {
        write_coin(out, coin).unwrap();
    }
}

/// The gate of the last payload of a log.
pub fn last_gate(log: &Log) -> u64
    ensures { (places : List Place) (place : Place) → log.now.places ≡ places ++ place ∷ [] → (result ≡ place.at) × (place.at + (5 + place.len) < 2 ^ 64) }
{
    match log.places().last() {
        Some(place) => place.at,
        None => 0,
    }
}
