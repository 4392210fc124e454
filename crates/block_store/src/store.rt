//! The store itself.

ghost use Rattle.std.specs.Prelude.{◌≡◌, ◌≢◌, ◌⊎◌, ◌+◌, ◌*◌, ◌-◌, ◌^◌, ◌≤◌, ◌<◌, ◌↔◌, ◌++◌, ◌∷◌, [], ℕ, List, length, drop, is_some, slice_get, Contains, Option, Some, None, Ok, Err, IsTrue, IsSomeAnd, IfOk, IfErr, OnOk, OnErr, IfSome, MatchOption, option_map, IsSome, MatchResult};
ghost use Rattle.std.specs.Option.{option_and_then};
ghost use Rattle.disk_model.specs.Disk.{At, Torn, Leaves, Quiet, Told, OthersKept};
ghost use Rattle.base_types.specs.declared.fault.StoreFault.TheVariants.{DiskFailed as Failed, NoMemory, Full};
ghost use Rattle.batch_log.specs.Records.{SameLog, StartsWith, WithOrWithout};
ghost use Rattle.batch_log.specs.Reading.{OnDamaged, ReadAtMost};
ghost use Rattle.batch_log.specs.declared.places.Place.{Place};
ghost use Rattle.block_codec.specs.Text.{text_of};
ghost use Rattle.block_store.specs.Headers.{headers_text, headers_of};
ghost use Rattle.block_store.specs.Bodies.{body_text, body_hash, body_of};
ghost use Rattle.block_store.specs.Reading.{whole_part, block_there, FetchCause, FetchFault, NoDamage, ReadBoth};

use crate::body_index::BodyIndex;
use crate::header_list::HeaderRecord;
use crate::opening::{open_log, read_hashes};
use crate::payload_kind::PayloadKind;
use crate::payloads::{write_body, write_headers};
use crate::records::{place_at, read_body, read_record};
use base_types::{Hash32, Limits, StoreFault};
use batch_log::{Log, Place};
use block_codec::{Block, Header};
use disk_model::Disk;
use std::alloc::Global;
use std::marker::Model;

/// The headers and the bodies of blocks, in two files of a disk. A clause sees the two logs, and the hash that each body
/// carries.
#[derive(Drop)]
pub struct BlockStore {
    alloc: Global,
    headers: Log,
    bodies: Log,
    index: BodyIndex,
    // The payload that is written, in its record.
    text: Vec<u8>,
}

impl Model for BlockStore {
    ghost use Rattle.std.specs.Prelude.{◌≡◌, ◌≤◌, All, IsTrue, length};
    ghost use Rattle.block_store.specs.Headers.{is_headers_length};
    ghost use Rattle.block_store.specs.OpenStore.{OpenStore};

    ghost Value = { OpenStore };

    ghost view = { λ s. record { headers = s.headers; bodies = s.bodies; hashes = s.index } };

    ghost invariant = { λ s. (s.headers.file ≡ 1) × (s.bodies.file ≡ 2) × (length s.index ≡ length s.bodies.places)
        × All (λ place. IsTrue (is_headers_length place.len)) s.headers.places × All (λ place. 32 ≤ place.len) s.bodies.places };
}

impl BlockStore {
    ghost use Rattle.batch_log.specs.OpenLog.{SameFile, Unchanged, IsOver, AppendCause};
    ghost use Rattle.block_store.specs.Index.{last_place};
    ghost use Rattle.block_store.specs.OpenStore.{Payloads, with_headers, with_body, Holds, SameStore};
    ghost use Rattle.block_store.specs.Opening.{stored_payloads, OpensAs, DamagedAs, OpenCause, InBoth, OthersKeptBoth};

    /// Opens the files 1, of headers, and 2, of bodies. It reads the gates and lengths of their records, and of each body
    /// the hash. `Damaged` names the first record that isn't whole, or has a payload of a wrong length: headers have 1 to
    /// 1,000 times 80 bytes, and bodies 32 or more.
    pub fn open<D: Disk>(
        alloc: Global,
        disk: &mut D,
        limits: &Limits,
    ) -> Result<BlockStore, StoreFault>
        requires { limits.now.file_bytes ≤ 2 ^ 63 }
        ensures ok { (m : ℕ → List ℕ) → D.contents disk.old ≡ Some m
            → IfOk result (OpensAs m (D.contents disk.new) (D.left_since disk.new (D.time disk.new))) }
        ensures damaged { (m : ℕ → List ℕ) → D.contents disk.old ≡ Some m → IfErr result (DamagedAs (stored_payloads m)) }
        ensures named { IfOk result (λ store. (store.headers.file ≡ 1) × (store.headers.limit ≡ limits.now.file_bytes) × (store.bodies.file ≡ 2) × (store.bodies.limit ≡ limits.now.file_bytes)) }
        ensures cause { IfErr result (OpenCause (D.faults disk.old) (D.faults disk.new)) }
        ensures faults { D.faults disk.old ≤ D.faults disk.new }

        // At any moment, both files stand for the same payloads.
        ensures any_moment { (m : ℕ → List ℕ) → D.contents disk.old ≡ Some m → Leaves D.time D.left_since (InBoth SameLog) disk.old disk.new }

        // Whatever is known of the files, no more than their first bytes are written, and other files stay.
        ensures part { Leaves D.time D.left_since (InBoth (Torn 0 1)) disk.old disk.new }
        ensures others { OthersKeptBoth (D.contents disk.old) (D.contents disk.new) }

        // It reads at most five bytes for each record of headers and 37 for each body, and five more of each file.
        ensures read { IfOk result (λ store. ReadBoth (5 * length store.headers.places + 5) (37 * length store.bodies.places + 5) (D.bytes_read disk.old) (D.bytes_read disk.new)) }
        ensures read_err { (m : ℕ → List ℕ) → D.contents disk.old ≡ Some m
            → OnErr result ((payloads : Payloads) × StartsWith payloads.headers (m 1) × StartsWith payloads.bodies (m 2)
            × ReadBoth (5 * length payloads.headers + 5) (37 * length payloads.bodies + 5) (D.bytes_read disk.old) (D.bytes_read disk.new)) }
    {
        let headers = open_log(alloc, disk, PayloadKind::Headers, limits)?;
        let bodies = open_log(alloc, disk, PayloadKind::Bodies, limits)?;
        let index = read_hashes(alloc, disk, &bodies)?;
        Ok(BlockStore {
            alloc,
            headers,
            bodies,
            index,
            text: Vec::new(alloc),
        })
    }

    /// Adds a payload of these headers, with one append. `Full` where the file would grow beyond its limit.
    pub fn put_headers<D: Disk>(
        &mut self,
        disk: &mut D,
        headers: &[Header],
    ) -> Result<(), StoreFault>
        requires some { 1 ≤ length headers.now }
        requires few { length headers.now ≤ 1000 }
        ensures ok { (payloads : Payloads) → Holds (D.contents disk.old) (D.left_since disk.old (D.time disk.old)) self.old payloads
            → OnOk result (Holds (D.contents disk.new) (D.left_since disk.new (D.time disk.new)) self.new (with_headers payloads (headers_text headers.now))) }
        ensures any_moment { (payloads : Payloads) → Holds (D.contents disk.old) (D.left_since disk.old (D.time disk.old)) self.old payloads
            → Leaves D.time D.left_since (At 1 (WithOrWithout payloads.headers (headers_text headers.now))) disk.old disk.new }

        // Whatever is known of the file, it changes only where the record and the closing gate stand, and other files stay.
        ensures part { Leaves D.time D.left_since (At 1 (Torn self.old.headers.end (6 + 80 * length headers.now))) disk.old disk.new }
        ensures others { OthersKept 1 (D.contents disk.old) (D.contents disk.new) }
        ensures read { D.bytes_read disk.new ≡ D.bytes_read disk.old }
        ensures listed { OnOk result (self.new.headers.places ≡ self.old.headers.places ++ record { at = self.old.headers.end; len = 80 * length headers.now } ∷ []) }
        ensures end { OnOk result (self.new.headers.end ≡ self.old.headers.end + (5 + 80 * length headers.now)) }
        ensures same { SameFile self.old.headers self.new.headers }
        ensures bodies { (self.new.bodies ≡ self.old.bodies) × (self.new.hashes ≡ self.old.hashes) }
        ensures err { OnErr result (SameStore self.old self.new) }
        ensures full { IsOver self.old.headers (5 + 80 * length headers.now) → (result ≡ Err (Full 1)) ⊎ (result ≡ Err NoMemory) }
        ensures cause { IfErr result (AppendCause self.old.headers (80 * length headers.now) (D.faults disk.old) (D.faults disk.new)) }
        ensures faults { D.faults disk.old ≤ D.faults disk.new }

        // But for a failure of the disk, its count of faults stays, and an error comes before the first device call.
        ensures steady { result ≢ Err Failed → D.faults disk.new ≡ D.faults disk.old }
        ensures before { IfErr result (λ e. e ≢ Failed → disk.new ≡ disk.old) }

        // The payload is read back as these headers.
        ensures again { headers_of (headers_text headers.now) ≡ Some headers.now }
    {
        write_headers(&mut self.text, headers)?;
        self.headers.append_in_place(disk, &mut self.text)
    }

    /// Adds a body under the hash of its block, which counts for the hash from then on. `Full` where the file would grow
    /// beyond its limit. Each block that was read has a text. One that has none, with a list or a script of more than
    /// 33,554,432 or with outputs and no input, is put as its fields are spelled, and isn't read back.
    pub fn put_body<D: Disk>(
        &mut self,
        disk: &mut D,
        hash: &Hash32,
        block: &Block,
    ) -> Result<(), StoreFault>
        ensures ok { (payloads : Payloads) → Holds (D.contents disk.old) (D.left_since disk.old (D.time disk.old)) self.old payloads
            → OnOk result (Holds (D.contents disk.new) (D.left_since disk.new (D.time disk.new)) self.new (with_body payloads (body_text hash.now block.now))) }
        ensures any_moment { (payloads : Payloads) → Holds (D.contents disk.old) (D.left_since disk.old (D.time disk.old)) self.old payloads
            → Leaves D.time D.left_since (At 2 (WithOrWithout payloads.bodies (body_text hash.now block.now))) disk.old disk.new }

        // Whatever is known of the file, it changes only where the record and the closing gate stand, and other files stay.
        ensures part { Leaves D.time D.left_since (At 2 (Torn self.old.bodies.end (6 + length (body_text hash.now block.now)))) disk.old disk.new }
        ensures others { OthersKept 2 (D.contents disk.old) (D.contents disk.new) }
        ensures read { D.bytes_read disk.new ≡ D.bytes_read disk.old }
        ensures listed { OnOk result (self.new.bodies.places ≡ self.old.bodies.places ++ record { at = self.old.bodies.end; len = length (body_text hash.now block.now) } ∷ []) }
        ensures end { OnOk result (self.new.bodies.end ≡ self.old.bodies.end + (5 + length (body_text hash.now block.now))) }
        ensures hashes { OnOk result (self.new.hashes ≡ self.old.hashes ++ hash.now ∷ []) }
        ensures same { SameFile self.old.bodies self.new.bodies }
        ensures headers { self.new.headers ≡ self.old.headers }
        ensures err { OnErr result (SameStore self.old self.new) }
        ensures full { IsOver self.old.bodies (5 + length (body_text hash.now block.now)) ⊎ (2 ^ 32 ≤ length (body_text hash.now block.now)) → (result ≡ Err (Full 2)) ⊎ (result ≡ Err NoMemory) }
        ensures cause { IfErr result (AppendCause self.old.bodies (length (body_text hash.now block.now)) (D.faults disk.old) (D.faults disk.new)) }
        ensures faults { D.faults disk.old ≤ D.faults disk.new }

        // But for a failure of the disk, its count of faults stays, and an error comes before the first device call.
        ensures steady { result ≢ Err Failed → D.faults disk.new ≡ D.faults disk.old }
        ensures before { IfErr result (λ e. e ≢ Failed → disk.new ≡ disk.old) }

        // The payload carries the hash, and where the block has a text, it is read back as this block.
        ensures carries { body_hash (body_text hash.now block.now) ≡ Some hash.now }
        ensures again { (text : List ℕ) → text_of block.now ≡ Some text → body_of (body_text hash.now block.now) ≡ Some block.now }
    {
        write_body(&mut self.text, hash, block)?;
        let before = self.index.add(*hash)?;
        let added = self.bodies.append_in_place(disk, &mut self.text);
        if added.is_err() {
            self.index.take_back(*hash, before);
        }
        added
    }

    /// The headers of this payload, counted from 0, and the offset of its gate. `Damaged` where the file doesn't have all
    /// of its bytes.
    pub fn headers<D: Disk>(
        &self,
        disk: &mut D,
        number: u64,
    ) -> Result<Option<HeaderRecord>, StoreFault>
        ensures none { length self.now.headers.places ≤ number → (result ≡ Ok None) × (disk.new ≡ disk.old) }

        // Any bytes of the right length are headers, so only missing ones are damage.
        ensures found { (place : Place) → slice_get self.now.headers.places number ≡ Some place
            → Told (D.contents disk.old) (λ m. IfOk result (λ found. IsSomeAnd found (λ here. (option_and_then headers_of (whole_part place 0 (m 1)) ≡ Some here.headers) × (here.at ≡ place.at)))) }
        ensures damaged { (place : Place) → slice_get self.now.headers.places number ≡ Some place
            → Told (D.contents disk.old) (λ m. IfErr result (λ fault. OnDamaged fault (whole_part place 0 (m 1) ≡ None))) }
        ensures payload { (payloads : Payloads) (payload : List ℕ) → Holds (D.contents disk.old) (D.left_since disk.old (D.time disk.old)) self.now payloads
            → slice_get payloads.headers number ≡ Some payload → IfOk result (λ found. IsSomeAnd found (λ here. headers_of payload ≡ Some here.headers)) × IfErr result NoDamage }
        ensures cause { (place : Place) → slice_get self.now.headers.places number ≡ Some place
            → IfOk result IsSome × IfErr result (FetchCause 1 place.at (D.faults disk.old) (D.faults disk.new)) }
        ensures faults { D.faults disk.old ≤ D.faults disk.new }
        ensures contents { D.contents disk.new ≡ D.contents disk.old }
        ensures quiet { Quiet D.time D.left_since disk.old disk.new }

        // It reads the payload once.
        ensures read { (place : Place) → slice_get self.now.headers.places number ≡ Some place → ReadAtMost 1 place.len (D.bytes_read disk.old) (D.bytes_read disk.new) }
    {
        let Some(place) = place_at(&self.headers, number) else {
            return Ok(None);
        };
        read_record(self.alloc, disk, &self.headers, place)
    }

    /// The block of this hash, as its last record has it. `Damaged` where what stands behind the hash there isn't the text
    /// of a block.
    pub fn body<D: Disk>(&self, disk: &mut D, hash: &Hash32) -> Result<Option<Block>, StoreFault>
        ensures none { last_place self.now.hashes hash.now ≡ None → (result ≡ Ok None) × (disk.new ≡ disk.old) }
        ensures found { (number : ℕ) (place : Place) → last_place self.now.hashes hash.now ≡ Some number → slice_get self.now.bodies.places number ≡ Some place
            → Told (D.contents disk.old) (λ m. MatchResult result (λ found. (block_there place (m 2) ≡ found) × IsSomeAnd found (λ block. text_of block ≡ whole_part place 32 (m 2)))
            (λ fault. OnDamaged fault (block_there place (m 2) ≡ None))) }
        ensures payload { (payloads : Payloads) (number : ℕ) (payload : List ℕ) → Holds (D.contents disk.old) (D.left_since disk.old (D.time disk.old)) self.now payloads
            → last_place self.now.hashes hash.now ≡ Some number → slice_get payloads.bodies number ≡ Some payload
            → MatchResult result (λ found. body_of payload ≡ found) (λ fault. OnDamaged fault (body_of payload ≡ None)) }
        ensures cause { (number : ℕ) (place : Place) → last_place self.now.hashes hash.now ≡ Some number → slice_get self.now.bodies.places number ≡ Some place
            → IfOk result IsSome × IfErr result (FetchCause 2 place.at (D.faults disk.old) (D.faults disk.new)) }
        ensures fault { IfErr result (FetchFault 2 (D.faults disk.old) (D.faults disk.new)) }
        ensures faults { D.faults disk.old ≤ D.faults disk.new }
        ensures contents { D.contents disk.new ≡ D.contents disk.old }
        ensures quiet { Quiet D.time D.left_since disk.old disk.new }

        // It reads what stands behind the hash once.
        ensures read { (number : ℕ) (place : Place) → last_place self.now.hashes hash.now ≡ Some number → slice_get self.now.bodies.places number ≡ Some place
            → ReadAtMost 2 (place.len - 32) (D.bytes_read disk.old) (D.bytes_read disk.new) }
    {
        let Some(place) = self.last_body(hash) else {
            return Ok(None);
        };
        read_body(self.alloc, disk, &self.bodies, place)
    }

    // Where the body lies that counts for a hash.
    fn last_body(&self, hash: &Hash32) -> Option<Place>
        ensures none { last_place self.now.hashes hash.now ≡ None → result ≡ None }
        ensures some { (number : ℕ) → last_place self.now.hashes hash.now ≡ Some number → IsSomeAnd result (λ place. slice_get self.now.bodies.places number ≡ Some place) }
        ensures listed { IfSome result (λ place. Contains self.now.bodies.places place × (32 ≤ place.len)) }
    {
        let number = self.index.last(hash)?;
        place_at(&self.bodies, number as u64)
    }

    /// The hash that this body carries, counted from 0, and the offset of its gate.
    pub fn body_at(&self, number: u64) -> Option<(Hash32, u64)>
        ensures { MatchOption result (length self.now.hashes ≤ number)
            (λ found. (slice_get self.now.hashes number ≡ Some found.0) × (option_map (λ place. place.at) (slice_get self.now.bodies.places number) ≡ Some found.1)) }
    {
        let hash = self.index.hashes().get(number as usize)?;
        let place = place_at(&self.bodies, number)?;
        Some((*hash, place.at))
    }

    /// Whether there is a body under this hash. It reads nothing.
    pub fn has_body(&self, hash: &Hash32) -> bool
        ensures value { result ≡ is_some (last_place self.now.hashes hash.now) }
        ensures contains { IsTrue result ↔ Contains self.now.hashes hash.now }
    {
        self.index.contains(hash)
    }
}
