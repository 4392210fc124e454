//! The log itself.

ghost use Rattle.std.specs.Prelude.{◌≡◌, ◌≢◌, ◌⊎◌, ◌+◌, ◌-◌, ◌*◌, ◌^◌, ◌≤◌, ◌<◌, ◌↔◌, ℕ, List, [], ◌∷◌, ◌++◌, length, take, drop, slice_get, Contains, Some, IsTrue, OnOk, OnErr, IfOk, IfErr, Err, MatchResult, All, option_map};
ghost use Rattle.disk_model.specs.Disk.{At, Torn, Leaves, Quiet, Only, Told, OthersKept, changed_at, written};
ghost use Rattle.base_types.specs.declared.fault.StoreFault.TheVariants.{DiskFailed as Failed};
ghost use Rattle.batch_log.specs.declared.places.Place.{Place};
ghost use Rattle.batch_log.specs.Records.{body, payload_in, log, WithOrWithout, SameLog, StartsWith};

use crate::Place;
use crate::opening::{begin, find_places};
use crate::records::{frame, payload_len, spell, write_record};
use base_types::{Limits, StoreFault};
use disk_model::{Disk, DiskFailed};
use std::alloc::Global;
use std::marker::Model;

/// An open log in one file of a disk. A clause sees the file, its limit, where the payloads lie, the end, and how much
/// can be added without taking memory.
#[derive(Drop)]
pub struct Log {
    file: u32,
    limit: u64,
    places: Vec<Place>,
    // The offset of the closed gate after the last record.
    end: u64,
    // What an append writes behind the gate.
    buffer: Vec<u8>,
}

impl Model for Log {
    ghost use Rattle.std.specs.Prelude.{◌-◌, ◌^◌, ◌<◌, ◌≤◌, vec_len, vec_capacity};
    ghost use Rattle.batch_log.specs.OpenLog.{OpenLog, AllBefore};

    ghost Value = { OpenLog };

    ghost view = { λ l. record { file = l.file; limit = l.limit; places = l.places.items; end = l.end; spare = vec_capacity l.places - vec_len l.places; buffer = vec_capacity l.buffer } };

    ghost invariant = { λ l. (l.limit ≤ 2 ^ 63) × (l.end < 2 ^ 64) × AllBefore l.end l.places.items };
}

// Whether a file whose log ends there may grow by so much and a closing gate.
fn fits(limit: u64, end: u64, growth: u64) -> bool
    ensures { IsTrue result ↔ (end + growth + 1 ≤ limit) }
{
    growth < limit && end < limit - growth
}

impl Log {
    ghost use Rattle.batch_log.specs.OpenLog.{OpenLog, Stands, Knows, Unchanged, SameFile, IsOver, HasRoom, HasRoomInPlace, AppendCause, RoomCause, AllBefore};
    ghost use Rattle.batch_log.specs.Opening.{OpenCause, DamageIn};
    ghost use Rattle.batch_log.specs.Reading.{ReadAtMost, ReadCause, OnDamaged};

    /// Opens the log of a file: makes it durable as it reads, and reads the gates and lengths of its records. A file of
    /// at most one byte becomes an empty log of one closed gate. `Damaged` names the open gate whose record isn't whole.
    pub fn open<D: Disk>(
        alloc: Global,
        disk: &mut D,
        file: u32,
        limits: &Limits,
    ) -> Result<Log, StoreFault>
        requires { limits.now.file_bytes ≤ 2 ^ 63 }
        ensures ok { (m : ℕ → List ℕ) → D.contents disk.old ≡ Some m
            → IfOk result (λ l. (payloads : List (List ℕ)) × (log (m file) ≡ Ok payloads) × Stands (D.contents disk.new) (D.left_since disk.new (D.time disk.new)) l payloads) }
        ensures named { IfOk result (λ l. (l.file ≡ file) × (l.limit ≡ limits.now.file_bytes)) }
        ensures damaged { (m : ℕ → List ℕ) → D.contents disk.old ≡ Some m → IfErr result (DamageIn (m file)) }
        ensures cause { IfErr result (OpenCause file (D.faults disk.old) (D.faults disk.new)) }
        ensures faults { D.faults disk.old ≤ D.faults disk.new }

        // At any moment, the file stands for the same payloads.
        ensures any_moment { (m : ℕ → List ℕ) → D.contents disk.old ≡ Some m → Leaves D.time D.left_since (At file SameLog) disk.old disk.new }

        // A file of more than one byte stays, and any other becomes one closed gate.
        ensures long { (m : ℕ → List ℕ) → D.contents disk.old ≡ Some m → 1 < length (m file)
            → (D.contents disk.new ≡ D.contents disk.old) × Quiet D.time D.left_since disk.old disk.new }
        ensures tiny { (m : ℕ → List ℕ) → D.contents disk.old ≡ Some m → length (m file) ≤ 1 → OnOk result (Only file (0 ∷ []) (D.left_since disk.new (D.time disk.new))) }

        // Whatever is known of the file, no more than its first byte is written, and other files stay.
        ensures part { Leaves D.time D.left_since (At file (Torn 0 1)) disk.old disk.new }
        ensures others { OthersKept file (D.contents disk.old) (D.contents disk.new) }

        // It reads at most five bytes for each record, and five more.
        ensures read { IfOk result (λ l. ReadAtMost file (5 * length l.places + 5) (D.bytes_read disk.old) (D.bytes_read disk.new)) }
        ensures read_err { (m : ℕ → List ℕ) → D.contents disk.old ≡ Some m
            → OnErr result ((payloads : List (List ℕ)) × StartsWith payloads (m file) × ReadAtMost file (5 * length payloads + 5) (D.bytes_read disk.old) (D.bytes_read disk.new)) }
    {
        let Ok(len) = begin(disk, file) else {
            return Err(StoreFault::DiskFailed);
        };
        let (places, end) = if len <= 1 {
            (Vec::new(alloc), 0)
        } else {
            find_places(alloc, disk, file, len)?
        };
        Ok(Log {
            file,
            limit: limits.file_bytes,
            places,
            end,
            buffer: Vec::new(alloc),
        })
    }

    /// Adds a payload at the end. `Full` where the file would grow beyond its limit, or the payload has more than
    /// 4,294,967,295 bytes.
    pub fn append<D: Disk>(&mut self, disk: &mut D, payload: &[u8]) -> Result<(), StoreFault>
        ensures ok { (payloads : List (List ℕ)) → Stands (D.contents disk.old) (D.left_since disk.old (D.time disk.old)) self.old payloads
            → OnOk result (Stands (D.contents disk.new) (D.left_since disk.new (D.time disk.new)) self.new (payloads ++ payload.now ∷ [])) }
        ensures any_moment { (payloads : List (List ℕ)) → Stands (D.contents disk.old) (D.left_since disk.old (D.time disk.old)) self.old payloads
            → Leaves D.time D.left_since (At self.old.file (WithOrWithout payloads payload.now)) disk.old disk.new }

        // What is written: the length, the payload and a closed gate, and then the open gate. From Ok on it is durable.
        ensures written { OnOk result (D.contents disk.new
            ≡ option_map (changed_at self.old.file (written self.old.end (1 ∷ [])))
            (option_map (changed_at self.old.file (written (self.old.end + 1) (body payload.now ++ 0 ∷ []))) (D.contents disk.old))) }
        ensures durable { Told (D.contents disk.new) (λ m. OnOk result (Only self.old.file (m self.old.file) (D.left_since disk.new (D.time disk.new)))) }

        // Whatever is known of the file, it changes only where the record and the closing gate stand, and other files stay.
        ensures part { Leaves D.time D.left_since (At self.old.file (Torn self.old.end (6 + length payload.now))) disk.old disk.new }
        ensures others { OthersKept self.old.file (D.contents disk.old) (D.contents disk.new) }
        ensures read { D.bytes_read disk.new ≡ D.bytes_read disk.old }

        // What the log knows doesn't hang on what the file has.
        ensures knows { (payloads : List (List ℕ)) → Knows self.old payloads → OnOk result (Knows self.new (payloads ++ payload.now ∷ [])) }
        ensures listed { OnOk result (self.new.places ≡ self.old.places ++ record { at = self.old.end; len = length payload.now } ∷ []) }
        ensures end { OnOk result (self.new.end ≡ self.old.end + (5 + length payload.now)) }
        ensures same { SameFile self.old self.new }
        ensures err { OnErr result (Unchanged self.old self.new) }
        ensures full { IsOver self.old (5 + length payload.now) ⊎ (2 ^ 32 ≤ length payload.now) → result ≡ Err (StoreFault.Full self.old.file) }
        ensures cause { IfErr result (AppendCause self.old (length payload.now) (D.faults disk.old) (D.faults disk.new)) }
        ensures faults { D.faults disk.old ≤ D.faults disk.new }

        // But for a failure of the disk, its count of faults stays, and an error comes before the first device call.
        ensures steady { result ≢ Err Failed → D.faults disk.new ≡ D.faults disk.old }
        ensures before { IfErr result (λ e. e ≢ Failed → disk.new ≡ disk.old) }

        // Where room was made, only the disk may fail, and the room that is left is what the payload didn't take.
        ensures only { (payloads total : ℕ) → length payload.now < 2 ^ 32 → HasRoom self.old (1 + payloads) (5 + length payload.now + total) → IfErr result (λ e. e ≡ Failed) }
        ensures left { (payloads total : ℕ) → HasRoom self.old (1 + payloads) (5 + length payload.now + total) → OnOk result (HasRoom self.new payloads total) }
    {
        let len = payload.len() as u64;
        if len > u32::MAX as u64 || !fits(self.limit, self.end, 5 + len) {
            return Err(StoreFault::Full { file: self.file });
        }
        self.places.reserve(1)?;
        spell(&mut self.buffer, payload)?;
        let Ok(()) = write_record(disk, self.file, self.end, &self.buffer) else {
            return Err(StoreFault::DiskFailed);
        };
        self.places
            .push(Place {
                at: self.end,
                len: len as u32,
            })
            .unwrap();
        self.end += 5 + len;
        Ok(())
    }

    /// Adds a payload at the end, as `append` does, with no second copy of it: the buffer has four bytes of room before the
    /// payload, for its length, and one behind it, for the next gate. These five bytes are written over, and the payload
    /// stays in its place.
    pub fn append_in_place<D: Disk>(
        &mut self,
        disk: &mut D,
        framed: &mut [u8],
    ) -> Result<(), StoreFault>
        requires { 5 ≤ length framed.old }
        ensures ok { (payloads : List (List ℕ)) → Stands (D.contents disk.old) (D.left_since disk.old (D.time disk.old)) self.old payloads
            → OnOk result (Stands (D.contents disk.new) (D.left_since disk.new (D.time disk.new)) self.new (payloads ++ payload_in framed.old ∷ [])) }
        ensures any_moment { (payloads : List (List ℕ)) → Stands (D.contents disk.old) (D.left_since disk.old (D.time disk.old)) self.old payloads
            → Leaves D.time D.left_since (At self.old.file (WithOrWithout payloads (payload_in framed.old))) disk.old disk.new }

        // What is written: the length, the payload and a closed gate, and then the open gate. From Ok on it is durable.
        ensures written { OnOk result (D.contents disk.new
            ≡ option_map (changed_at self.old.file (written self.old.end (1 ∷ [])))
            (option_map (changed_at self.old.file (written (self.old.end + 1) (body (payload_in framed.old) ++ 0 ∷ []))) (D.contents disk.old))) }
        ensures durable { Told (D.contents disk.new) (λ m. OnOk result (Only self.old.file (m self.old.file) (D.left_since disk.new (D.time disk.new)))) }

        // Whatever is known of the file, it changes only where the record and the closing gate stand, and other files stay.
        ensures part { Leaves D.time D.left_since (At self.old.file (Torn self.old.end (6 + length (payload_in framed.old)))) disk.old disk.new }
        ensures others { OthersKept self.old.file (D.contents disk.old) (D.contents disk.new) }
        ensures read { D.bytes_read disk.new ≡ D.bytes_read disk.old }

        // What the log knows doesn't hang on what the file has.
        ensures knows { (payloads : List (List ℕ)) → Knows self.old payloads → OnOk result (Knows self.new (payloads ++ payload_in framed.old ∷ [])) }
        ensures listed { OnOk result (self.new.places ≡ self.old.places ++ record { at = self.old.end; len = length (payload_in framed.old) } ∷ []) }
        ensures end { OnOk result (self.new.end ≡ self.old.end + (5 + length (payload_in framed.old))) }
        ensures same { SameFile self.old self.new }
        ensures err { OnErr result (Unchanged self.old self.new) }
        ensures full { IsOver self.old (5 + length (payload_in framed.old)) ⊎ (2 ^ 32 ≤ length (payload_in framed.old)) → result ≡ Err (StoreFault.Full self.old.file) }
        ensures cause { IfErr result (AppendCause self.old (length (payload_in framed.old)) (D.faults disk.old) (D.faults disk.new)) }
        ensures faults { D.faults disk.old ≤ D.faults disk.new }

        // But for a failure of the disk, its count of faults stays, and an error comes before the first device call.
        ensures steady { result ≢ Err Failed → D.faults disk.new ≡ D.faults disk.old }
        ensures before { IfErr result (λ e. e ≢ Failed → disk.new ≡ disk.old) }

        // The buffer's payload stays.
        ensures buffer { (length framed.new ≡ length framed.old) × (payload_in framed.new ≡ payload_in framed.old) }

        // Where room was made, only the disk may fail, and the room that is left is what the payload didn't take.
        ensures only { (payloads total : ℕ) → length (payload_in framed.old) < 2 ^ 32 → HasRoomInPlace self.old (1 + payloads) (5 + length (payload_in framed.old) + total) → IfErr result (λ e. e ≡ Failed) }
        ensures left { (payloads total : ℕ) → HasRoomInPlace self.old (1 + payloads) (5 + length (payload_in framed.old) + total) → OnOk result (HasRoomInPlace self.new payloads total) }
    {
        let size = payload_len(framed) as u64;
        if size > u32::MAX as u64 || !fits(self.limit, self.end, 5 + size) {
            return Err(StoreFault::Full { file: self.file });
        }
        self.places.reserve(1)?;
        frame(framed);
        let Ok(()) = write_record(disk, self.file, self.end, framed) else {
            return Err(StoreFault::DiskFailed);
        };
        self.places
            .push(Place {
                at: self.end,
                len: size as u32,
            })
            .unwrap();
        self.end += 5 + size;
        Ok(())
    }

    /// The number of the file.
    pub fn file(&self) -> u32
        ensures { result ≡ self.now.file }
    {
        self.file
    }

    /// Where the payloads lie, in their order.
    pub fn places(&self) -> &[Place]
        ensures all { result.now ≡ self.now.places }

        // Each record ends at an offset of 64 bits.
        ensures short { All (λ (p : Place). p.at + (5 + p.len) < 2 ^ 64) result.now }
    {
        self.places.as_slice()
    }

    /// Makes room for so many payloads that let the file grow by `total` bytes together, 5 for each and those of the
    /// payloads. Appending them takes no memory, and none is refused as too much. `Full` exactly where the file would grow
    /// beyond its limit, the closing gate counted.
    pub fn room(&mut self, payloads: u64, total: u64) -> Result<(), StoreFault>
        ensures ok { OnOk result (HasRoom self.new payloads total) }
        ensures same { Unchanged self.old self.new }
        ensures full { IsOver self.old total → result ≡ Err (StoreFault.Full self.old.file) }
        ensures cause { IfErr result (RoomCause self.old total) }
    {
        self.room_in_place(payloads, total)?;
        self.buffer.clear();
        self.buffer
            .reserve(total.min(u32::MAX as u64 + 5) as usize)?;
        Ok(())
    }

    /// Makes room as `room` does, for payloads that are appended in place.
    pub fn room_in_place(&mut self, payloads: u64, total: u64) -> Result<(), StoreFault>
        ensures ok { OnOk result (HasRoomInPlace self.new payloads total) }
        ensures same { Unchanged self.old self.new }
        ensures full { IsOver self.old total → result ≡ Err (StoreFault.Full self.old.file) }
        ensures cause { IfErr result (RoomCause self.old total) }
    {
        if !fits(self.limit, self.end, total) {
            return Err(StoreFault::Full { file: self.file });
        }
        self.places.reserve(payloads as usize)?;
        Ok(())
    }

    /// Reads the payload at a place, with one device call. `Damaged` where fewer bytes came than it has.
    pub fn read<D: Disk>(
        &self,
        disk: &mut D,
        place: Place,
        buf: &mut [u8],
    ) -> Result<(), StoreFault>
        requires listed { Contains self.now.places place }
        requires whole { length buf.old ≡ place.len }
        ensures bytes { Told (D.contents disk.old) (λ m. OnOk result (buf.new ≡ take place.len (drop (place.at + 5) (m self.now.file)))) }
        ensures payload { (payloads : List (List ℕ)) (i : ℕ) (payload : List ℕ) → Stands (D.contents disk.old) (D.left_since disk.old (D.time disk.old)) self.now payloads
            → slice_get self.now.places i ≡ Some place → slice_get payloads i ≡ Some payload → OnOk result (buf.new ≡ payload) × IfErr result (λ e. e ≡ Failed) }
        ensures short { Told (D.contents disk.old) (λ m. MatchResult result (λ _. place.len ≤ length (m self.now.file) - (place.at + 5)) (λ e. OnDamaged e (length (m self.now.file) - (place.at + 5) < place.len))) }
        ensures cause { IfErr result (ReadCause self.now.file place.at (D.faults disk.old) (D.faults disk.new)) }
        ensures faults { D.faults disk.old ≤ D.faults disk.new }
        ensures contents { D.contents disk.new ≡ D.contents disk.old }
        ensures quiet { Quiet D.time D.left_since disk.old disk.new }
        ensures read { OnOk result (D.bytes_read disk.new ≡ option_map (changed_at self.now.file (λ r. r + place.len)) (D.bytes_read disk.old)) }
        ensures read_err { OnErr result (ReadAtMost self.now.file place.len (D.bytes_read disk.old) (D.bytes_read disk.new)) }
    {
        self.read_part(disk, place, 0, buf)
    }

    /// Reads a part of the payload at a place, as many bytes as fit into `buf`, from `from` on, with one device call.
    /// `Damaged` where fewer bytes came.
    pub fn read_part<D: Disk>(
        &self,
        disk: &mut D,
        place: Place,
        from: u32,
        buf: &mut [u8],
    ) -> Result<(), StoreFault>
        requires listed { Contains self.now.places place }
        requires within { from + length buf.old ≤ place.len }
        ensures bytes { Told (D.contents disk.old) (λ m. OnOk result (buf.new ≡ take (length buf.old) (drop (place.at + 5 + from) (m self.now.file)))) }
        ensures payload { (payloads : List (List ℕ)) (i : ℕ) (payload : List ℕ) → Stands (D.contents disk.old) (D.left_since disk.old (D.time disk.old)) self.now payloads
            → slice_get self.now.places i ≡ Some place → slice_get payloads i ≡ Some payload
            → OnOk result (buf.new ≡ take (length buf.old) (drop from payload)) × IfErr result (λ e. e ≡ Failed) }
        ensures short { Told (D.contents disk.old) (λ m. MatchResult result
            (λ _. length buf.old ≤ length (m self.now.file) - (place.at + 5 + from)) (λ e. OnDamaged e (length (m self.now.file) - (place.at + 5 + from) < length buf.old))) }
        ensures cause { IfErr result (ReadCause self.now.file place.at (D.faults disk.old) (D.faults disk.new)) }
        ensures faults { D.faults disk.old ≤ D.faults disk.new }
        ensures contents { D.contents disk.new ≡ D.contents disk.old }
        ensures quiet { Quiet D.time D.left_since disk.old disk.new }
        ensures read { OnOk result (D.bytes_read disk.new ≡ option_map (changed_at self.now.file (λ r. r + length buf.old)) (D.bytes_read disk.old)) }
        ensures read_err { OnErr result (ReadAtMost self.now.file (length buf.old) (D.bytes_read disk.old) (D.bytes_read disk.new)) }
    {
        let file = self.file;
        let first = place.at + 5 + from as u64;
        let Ok(count) = disk.read(file, first, buf) else {
            return Err(StoreFault::DiskFailed);
        };
        if count < buf.len() {
            return Err(StoreFault::Damaged { file, at: place.at });
        }
        Ok(())
    }
}
