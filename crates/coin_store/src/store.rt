//! The store itself.

ghost use Rattle.std.specs.Prelude.{◌≡◌, ◌≢◌, ℕ, ◌+◌, ◌-◌, ◌^◌, ◌<◌, ◌≤◌, List, [], ◌∷◌, ◌++◌, length, All, Contains, vec_len, vec_capacity, Option, Some, None, Ok, Err, slice_get, option_map, is_some, IfOk, IfErr, OnOk, OnErr};
ghost use Rattle.std.specs.Option.{option_copied};
ghost use Rattle.disk_model.specs.Disk.{At, Torn, Leaves, Quiet, Only, OthersKept, Told, Rose, changed_at, written};
ghost use Rattle.batch_log.specs.OpenLog.{IsOver, RoomCause};
ghost use Rattle.batch_log.specs.declared.places.Place.{Place};
ghost use Rattle.batch_log.specs.Records.{body, log as log_of, SameLog, WithOrWithout};
ghost use Rattle.std.specs.FinMap.{get};
ghost use Rattle.std.specs.List.{list_any, IsDistinct};
ghost use Rattle.std.specs.List.Sorted.{IsSorted};
ghost use Rattle.std.specs.Ordering.{eq_by_cmp};
ghost use Rattle.base_types.specs.Keys.{outpoint_cmp};
ghost use Rattle.base_types.specs.declared.fault.StoreFault.TheVariants.{NoMemory, DiskFailed as Failed};
ghost use Rattle.base_types.specs.declared.hash.OutPoint.{OutPoint};
ghost use Rattle.coin_store.specs.KeyOrder.{key_order};
ghost use Rattle.coin_store.specs.Batches.{Batch, Row, row_text, marker_text, batch_text, ValueFits, RowFits, MarkerFits};
ghost use Rattle.coin_store.specs.Base.{IsBase, base_coins, rows_after};
ghost use Rattle.coin_store.specs.Places.{live};
ghost use Rattle.coin_store.specs.Staged.{HasEntry, StandsFrom, front_len, places_noted};

use crate::batch::{Gate, note_rows};
use crate::index::Index;
use crate::key_order::in_key_order;
use crate::kind::Kind;
use crate::marker::Marker;
use crate::opening::{ReadLog, open_base, open_log};
use crate::places::CoinPlace;
use crate::row::Mask;
use crate::secrets::Secrets;
use crate::staging::{LENGTH_ROOM, StagedRows, last_gate};
use crate::view::StoreView;
use base_types::{Coin, Hash32, Keys, Limits, OutPoint, StoreFault};
use batch_log::Log;
use disk_model::Disk;
use std::alloc::Global;

/// The marker of a payload, and the offset of its gate.
#[derive(Clone, Copy, Debug)]
pub struct Marked {
    pub marker: Marker,
    pub at: u64,
}

/// The coins of a chainstate: the log of their batches, the markers of these, and the place of each coin, in the log or in
/// the base file. In memory are some 75 bytes for each coin, and as much again for each coin of the base.
#[derive(Drop)]
pub struct CoinStore {
    log: Log,
    // The number of the base file, if there is one.
    base: Option<u32>,
    mask: Mask,
    start: Marker,
    markers: Vec<Marked>,
    index: Index,
    // The places of the base's coins alone. Without a base file there are none.
    base_index: Index,
    staged: StagedRows,
    alloc: Global,
}

impl CoinStore {
    ghost use Rattle.coin_store.specs.Files.{IsOneOf, IsTiny, InFiles, OthersKeptBut, FilesCause, store_reads, ReadWithin};
    ghost use Rattle.coin_store.specs.Store.{Knows, Holds, OpensAs, IsOpened, DamageIn, marks, texts, last_marker, marker_after, as_pair};
    ghost use Rattle.coin_store.specs.Staging.{IsStaged, IsReady, SameStore, SameRows, staged_text};
    ghost use Rattle.coin_store.specs.Viewing.{coins_seen};

    /// Opens the store in a coin file, on the base file if one is named: reads their logs once, that of the base first, and
    /// keeps the markers and the place of each coin. The rows of the coin file overrule those of the base. With no payload
    /// in the coin file the marker is `At` the start. The coins of rows are obfuscated with the key of the secrets. `Damaged` names the gate
    /// where a log is damaged, or that of the first payload that isn't rows with coins to its end, in the base file, or a
    /// marker and rows to its end, in the coin file.
    pub fn open<D: Disk>(
        alloc: Global,
        disk: &mut D,
        coin_file: u32,
        base_file: Option<u32>,
        start: &Hash32,
        limits: &Limits,
        secrets: &Secrets,
    ) -> Result<CoinStore, StoreFault>
        requires limit { limits.now.file_bytes ≤ 2 ^ 63 }
        ensures ok { (m : ℕ → List ℕ) → D.contents disk.old ≡ Some m
            → IfOk result (OpensAs coin_file base_file secrets.now.key m (D.contents disk.new) (D.left_since disk.new (D.time disk.new))) }
        ensures opened { IfOk result (IsOpened coin_file base_file limits.now.file_bytes secrets.now.key start.now secrets.now.salt) }
        ensures damaged { (m : ℕ → List ℕ) → D.contents disk.old ≡ Some m → IfErr result (DamageIn secrets.now.key base_file coin_file m) }
        ensures cause { IfErr result (FilesCause (IsOneOf base_file coin_file) (D.faults disk.old) (D.faults disk.new)) }
        ensures faults { D.faults disk.old ≤ D.faults disk.new }

        // At any moment a file of more than one byte has its bytes, and any other stands for no payload, as before.
        ensures any_moment { (m : ℕ → List ℕ) → D.contents disk.old ≡ Some m → Leaves D.time D.left_since (InFiles (IsTiny (IsOneOf base_file coin_file) m) SameLog) disk.old disk.new }

        // Files of more than one byte stay, and any other becomes one closed gate.
        ensures long { (m : ℕ → List ℕ) → D.contents disk.old ≡ Some m → ((f : ℕ) → IsOneOf base_file coin_file f → 1 < length (m f))
            → (D.contents disk.new ≡ D.contents disk.old) × Quiet D.time D.left_since disk.old disk.new }
        ensures tiny { (m : ℕ → List ℕ) (f : ℕ) → D.contents disk.old ≡ Some m → IsOneOf base_file coin_file f → length (m f) ≤ 1
            → OnOk result (Only f (0 ∷ []) (D.left_since disk.new (D.time disk.new))) }

        // Whatever is known of the files, no more than their first bytes are written, and other files stay.
        ensures part { Leaves D.time D.left_since (InFiles (IsOneOf base_file coin_file) (Torn 0 1)) disk.old disk.new }
        ensures others { OthersKeptBut (IsOneOf base_file coin_file) (D.contents disk.old) (D.contents disk.new) }

        // It reads at most five bytes more than each file has.
        ensures read { (m : ℕ → List ℕ) → D.contents disk.old ≡ Some m → ReadWithin (store_reads base_file coin_file m) (D.bytes_read disk.old) (D.bytes_read disk.new) }
    {
        let mask = secrets.key;
        let mut base_index = Index::new(alloc, &secrets.salt);
        open_base(alloc, disk, base_file, limits, &mask, &mut base_index)?;
        let mut index = base_index.copy(alloc)?;
        let read = open_log(
            alloc,
            disk,
            coin_file,
            Kind::Coins,
            limits,
            &mask,
            &mut index,
        )?;
        let ReadLog { log, markers } = read;
        Ok(CoinStore {
            log,
            base: base_file,
            mask,
            start: Marker::At { tip: *start },
            markers,
            index,
            base_index,
            staged: StagedRows::new(alloc),
            alloc,
        })
    }

    /// The last batch's marker, or `At` the start.
    pub fn marker(&self) -> Marker
        ensures last { result ≡ last_marker self.now.start self.now.markers.items }
        ensures held { (base : List (List Row)) (batches : List Batch) → Knows self.now base batches → result ≡ marker_after self.now.start batches }
    {
        match self.markers.last() {
            Some(marked) => marked.marker,
            None => self.start,
        }
    }

    /// The marker of that payload, counted from 0, and the offset of its gate. None where there is no such payload.
    pub fn marker_at(&self, number: u64) -> Option<(Marker, u64)>
        ensures is { result ≡ option_map as_pair (slice_get self.now.markers.items number) }
        ensures held { (base : List (List Row)) (batches : List Batch) → Knows self.now base batches → result ≡ option_map as_pair (slice_get (marks self.now.mask 0 batches) number) }
    {
        match self.markers.get(number as usize) {
            Some(marked) => Some((marked.marker, marked.at)),
            None => None,
        }
    }

    /// The outpoints that have coins, in the order of their key texts.
    pub fn keys(&self) -> Result<Keys, StoreFault>
        ensures found { IfOk result (λ keys. (q : OutPoint) → list_any (eq_by_cmp outpoint_cmp q) keys ≡ is_some (live (get self.now.index.places q))) }
        ensures held { (base : List (List Row)) (batches : List Batch) → Knows self.now base batches → IfOk result (λ keys. (q : OutPoint) → list_any (eq_by_cmp outpoint_cmp q) keys ≡ is_some (get (rows_after base batches) q)) }
        ensures once { IfOk result (IsDistinct (eq_by_cmp outpoint_cmp)) }
        ensures sorted { IfOk result (IsSorted key_order) }
        ensures cause { IfErr result (λ e. e ≡ NoMemory) }
    {
        let keys = self.index.outpoints(self.alloc)?;
        let sorted = in_key_order(self.alloc, &keys)?;
        Ok(sorted)
    }

    /// Makes room for payloads whose rows name only these outpoints: at most one more than there are outpoints, each of at
    /// most `payload` bytes, that let the file grow by at most `total` bytes together, 5 for each and those of the payloads.
    /// Staging and applying them takes no memory, and none is refused as too much. `Full` where the file would grow beyond
    /// its limit. From Ok on no row is staged; after an error the rows that were staged, with their room, are as before.
    ///
    /// It takes 24 bytes and a few for each outpoint that has no coin, and less than three for each byte of a payload.
    pub fn prepare(&mut self, keys: &[OutPoint], payload: u32, total: u64) -> Result<(), StoreFault>
        ensures ok { OnOk result (IsStaged self.new keys.now payload (1 + length keys.now) total []) }
        ensures kept { (named : List OutPoint) (most payloads growth : ℕ) (rows : List Row) → IsStaged self.old named most payloads growth rows → OnErr result (IsStaged self.new named most payloads growth rows) }
        ensures err { OnErr result (self.new.staged ≡ self.old.staged) }
        ensures same { SameRows self.old self.new }
        ensures knows { (base : List (List Row)) (batches : List Batch) → Knows self.old base batches → Knows self.new base batches }
        ensures full { IsOver self.old.log total → result ≡ Err (StoreFault.Full self.old.log.file) }
        ensures cause { IfErr result (RoomCause self.old.log total) }
    {
        self.log.room_in_place(1 + keys.len() as u64, total)?;
        self.index.reserve(keys.len())?;
        self.markers.reserve(keys.len() + 1)?;
        self.staged.make_room(self.alloc, payload)?;
        self.index.add_entries(keys);
        Ok(())
    }

    /// Adds a row to the payload that is to come; with no coin it takes the outpoint's coin away. This takes no memory. The
    /// outpoint is one that was prepared, and the staged rows with this one and a marker `At` fit in the prepared bytes.
    pub fn stage(&mut self, key: &OutPoint, coin: Option<&Coin>)
        requires coin { ValueFits (option_copied coin) }
        requires room { vec_len self.old.staged.bytes + length (row_text self.old.mask (record { key = key.now; coin = option_copied coin })) ≤ self.old.staged.room }
        ensures staged { (keys : List OutPoint) (payload payloads total : ℕ) (rows : List Row) → IsStaged self.old keys payload payloads total rows → Contains keys key.now
            → IsStaged self.new keys payload payloads total (rows ++ record { key = key.now; coin = option_copied coin.entry } ∷ []) }
        ensures same { self.new ≡ record self.old { staged = self.new.staged } }
        ensures rows { SameRows self.old self.new }
        ensures text { self.new.staged.bytes.items ≡ self.old.staged.bytes.items ++ row_text self.old.mask (record { key = key.now; coin = option_copied coin.entry }) }
        ensures room { self.new.staged.room ≡ self.old.staged.room }
    {
        self.staged.push(key, coin, &self.mask);
    }

    /// Appends one payload of the marker and the staged rows, in their order. From Ok on rows and marker are those after it,
    /// and no row is staged. This takes no memory: the only error is `DiskFailed`, and the rows and the marker are then as
    /// before, and the staged rows stay staged.
    pub fn apply<D: Disk>(&mut self, disk: &mut D, marker: &Marker) -> Result<(), StoreFault>
        requires { IsReady self.old marker.now }
        ensures ok { (base : List (List Row)) (batches : List Batch) (keys : List OutPoint) (payload payloads total : ℕ) (rows : List Row)
            → Holds (D.contents disk.old) (D.left_since disk.old (D.time disk.old)) self.old base batches
            → IsStaged self.old keys payload payloads total rows → OnOk result (Holds (D.contents disk.new) (D.left_since disk.new (D.time disk.new)) self.new base (batches ++ record { marker = marker.now; rows = rows } ∷ [])) }
        ensures staged { (keys : List OutPoint) (payload payloads total : ℕ) (rows : List Row)
            → IsStaged self.old keys payload (1 + payloads) (5 + length (batch_text self.old.mask (record { marker = marker.now; rows = rows })) + total) rows
            → OnOk result (IsStaged self.new keys payload payloads total []) }
        ensures any_moment { (base : List (List Row)) (batches : List Batch) (keys : List OutPoint) (payload payloads total : ℕ) (rows : List Row)
            → Holds (D.contents disk.old) (D.left_since disk.old (D.time disk.old)) self.old base batches → IsStaged self.old keys payload payloads total rows
            → Leaves D.time D.left_since (At self.old.log.file (WithOrWithout (texts self.old.mask batches) (batch_text self.old.mask (record { marker = marker.now; rows = rows })))) disk.old disk.new }

        // What is written: the length, the payload and a closed gate, and then the open gate. From Ok on it is durable.
        ensures written { OnOk result (D.contents disk.new
            ≡ option_map (changed_at self.old.log.file (written self.old.log.end (1 ∷ [])))
            (option_map (changed_at self.old.log.file (written (self.old.log.end + 1) (body (staged_text self.old marker.now) ++ 0 ∷ []))) (D.contents disk.old))) }
        ensures durable { Told (D.contents disk.new) (λ m. OnOk result (Only self.old.log.file (m self.old.log.file) (D.left_since disk.new (D.time disk.new)))) }

        // Whatever is known of the file, it changes only where the record and the closing gate stand, and other files stay.
        ensures part { Leaves D.time D.left_since (At self.old.log.file (Torn self.old.log.end (6 + length (staged_text self.old marker.now)))) disk.old disk.new }
        ensures others { OthersKept self.old.log.file (D.contents disk.old) (D.contents disk.new) }
        ensures read { D.bytes_read disk.new ≡ D.bytes_read disk.old }
        ensures same { SameStore self.old self.new }
        ensures err { OnErr result (SameRows self.old self.new) }
        ensures kept { (keys : List OutPoint) (payload payloads total : ℕ) (rows : List Row) → IsStaged self.old keys payload payloads total rows → OnErr result (IsStaged self.new keys payload payloads total rows) }
        ensures knows { (base : List (List Row)) (batches : List Batch) → Knows self.old base batches → OnErr result (Knows self.new base batches) }

        // What the store knows from Ok on doesn't hang on what the disk has.
        ensures learns { (base : List (List Row)) (batches : List Batch) (keys : List OutPoint) (payload payloads total : ℕ) (rows : List Row)
            → Knows self.old base batches → IsStaged self.old keys payload payloads total rows → OnOk result (Knows self.new base (batches ++ record { marker = marker.now; rows = rows } ∷ [])) }
        ensures cause { IfErr result (λ e. (e ≡ Failed) × Rose (D.faults disk.old) (D.faults disk.new)) }
        ensures faults { D.faults disk.old ≤ D.faults disk.new }
    {
        let from = self.staged.frame(marker);
        let framed = &mut self.staged.bytes[from - LENGTH_ROOM..];
        let appended = self.log.append_in_place(disk, framed);
        self.staged.unframe();
        appended?;
        self.keep_staged(marker, from);
        Ok(())
    }

    // Keeps the marker of the log's last payload and the places of its rows, which are the staged ones from that byte on.
    fn keep_staged(&mut self, marker: &Marker, from: usize)
        requires named { All (λ r. HasEntry self.old.index.places r.key) self.old.staged.rows.items }
        requires listed { (places : List Place) × (place : Place) × (self.old.log.places ≡ places ++ place ∷ []) × (place.at + (5 + place.len) < 2 ^ 64 → All (StandsFrom place.at from) self.old.staged.rows.items) }
        requires front { front_len ≤ self.old.staged.room }
        requires room { vec_len self.old.markers < vec_capacity self.old.markers }
        ensures places { (places : List Place) (place : Place) → self.old.log.places ≡ places ++ place ∷ []
            → self.new.index.places ≡ places_noted self.old.log.file place.at from self.old.index.places self.old.staged.rows.items }
        ensures marked { (places : List Place) (place : Place) → self.old.log.places ≡ places ++ place ∷ [] → self.new.markers.items ≡ self.old.markers.items ++ record { marker = marker.now; at = place.at } ∷ [] }
        ensures marks { vec_len self.new.markers ≡ vec_len self.old.markers + 1 }
        ensures capacity { (vec_capacity self.old.markers ≤ vec_capacity self.new.markers) × (self.new.staged.room ≡ self.old.staged.room) }
        ensures size { self.old.index.size ≤ self.new.index.size }
        ensures base_index { self.new.base_index ≡ self.old.base_index }
        ensures salt { self.new.index.salt ≡ self.old.index.salt }
        ensures none_left { (length self.new.staged.bytes.items ≡ front_len) × (self.new.staged.rows.items ≡ []) }
        ensures log { self.new.log ≡ self.old.log }
        ensures base { self.new.base ≡ self.old.base }
        ensures mask { self.new.mask ≡ self.old.mask }
        ensures start { self.new.start ≡ self.old.start }
    {
        let gate = Gate {
            file: self.log.file(),
            at: last_gate(&self.log),
        };
        note_rows(&mut self.index, gate, from, &self.staged.rows);
        let marked = Marked {
            marker: *marker,
            at: gate.at,
        };
        self.markers.push(marked).unwrap();
        self.staged.clear();
    }

    /// The coins of the store, as this disk has them at their places. Records that are found broken are added to the list.
    pub fn view<'a, D: Disk>(
        &'a self,
        disk: &'a mut D,
        broken: &'a mut Vec<Gate>,
    ) -> StoreView<'a, D>
        ensures index { (result.index.now ≡ self.now.index) × (result.mask.now ≡ self.now.mask) }
        ensures same_reference { result.disk.ghost_name ≡ disk.entry.ghost_name }
        ensures disk { result.disk.now ≡ disk.old }
        ensures broken { (result.broken.now ≡ broken.old) × (result.broken.ghost_name ≡ broken.entry.ghost_name) }

        // Where the store holds a base and batches, the coins that the view tells are those after them.
        ensures held { (base : List (List Row)) (batches : List Batch) → Holds (D.contents disk.old) (D.left_since disk.old (D.time disk.old)) self.now base batches → coins_seen self.now.mask self.now.index (D.contents disk.old) ≡ Some (rows_after base batches) }
    {
        StoreView::new(self.alloc, &self.index, &self.mask, disk, broken)
    }

    /// The coins of the base alone, as this disk has them at their places; none without a base file.
    pub fn base_view<'a, D: Disk>(
        &'a self,
        disk: &'a mut D,
        broken: &'a mut Vec<Gate>,
    ) -> StoreView<'a, D>
        ensures index { (result.index.now ≡ self.now.base_index) × (result.mask.now ≡ self.now.mask) }
        ensures same_reference { result.disk.ghost_name ≡ disk.entry.ghost_name }
        ensures disk { result.disk.now ≡ disk.old }
        ensures broken { (result.broken.now ≡ broken.old) × (result.broken.ghost_name ≡ broken.entry.ghost_name) }

        // Where the store holds a base, the coins that the view tells are those after it.
        ensures held { (base : List (List Row)) (batches : List Batch) → Holds (D.contents disk.old) (D.left_since disk.old (D.time disk.old)) self.now base batches → coins_seen self.now.mask self.now.base_index (D.contents disk.old) ≡ Some (base_coins base) }
    {
        StoreView::new(self.alloc, &self.base_index, &self.mask, disk, broken)
    }

    /// The outpoints that have coins in the base, in the order of their key texts; none without a base file.
    pub fn base_keys(&self) -> Result<Keys, StoreFault>
        ensures found { IfOk result (λ keys. (q : OutPoint) → list_any (eq_by_cmp outpoint_cmp q) keys ≡ is_some (live (get self.now.base_index.places q))) }
        ensures held { (base : List (List Row)) (batches : List Batch) → Knows self.now base batches → IfOk result (λ keys. (q : OutPoint) → list_any (eq_by_cmp outpoint_cmp q) keys ≡ is_some (get (base_coins base) q)) }
        ensures once { IfOk result (IsDistinct (eq_by_cmp outpoint_cmp)) }
        ensures sorted { IfOk result (IsSorted key_order) }
        ensures cause { IfErr result (λ e. e ≡ NoMemory) }
    {
        let keys = self.base_index.outpoints(self.alloc)?;
        let sorted = in_key_order(self.alloc, &keys)?;
        Ok(sorted)
    }
}
