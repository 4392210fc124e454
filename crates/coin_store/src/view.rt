//! The coins of a store, each read from its place.

ghost use Rattle.std.specs.Prelude.{◌≡◌, ℕ, ◌+◌, ◌≤◌, List, [], ◌∷◌, ◌++◌, length, Contains, Option, Some, None, Ok, IsSome, option_map, MatchResult, IfOk, IfErr, IfSome, OnOk, OnErr, refl};
ghost use Rattle.std.proofs.Common.{◌∙◌, subst};
ghost use Rattle.disk_model.specs.Reads.{OnlyRead, OnlyReadUpTo};
ghost use Rattle.disk_model.proofs.Reading.{only_read_none, only_read_then};
ghost use Rattle.base_types.specs.Coins.{CoinFits};
ghost use Rattle.base_types.specs.Views.{FindsFault, AnswersCoin};
ghost use Rattle.coin_store.specs.Behind.{coin_bytes, coin_place, HasPlaceIn, MayFail, may_fail_none, may_fail_then};
ghost use Rattle.coin_store.specs.Places.{coin_there};
ghost use Rattle.coin_store.specs.Viewing.{PlaceCause, AnswersPlace, FaultCause, IsBrokenFault, broken_places, broken_in, found_broken, coins_seen, view_counts};
ghost use Rattle.coin_store.specs.declared.places.CoinPlace.{CoinPlace};

use crate::batch::Gate;
use crate::index::Index;
use crate::places::CoinPlace;
use crate::row::{Mask, RowFault, read_value};
use base_types::{Coin, OutPoint, StoreFault, View, obfuscate};
use disk_model::Disk;
use std::alloc::Global;

/// The coins of a store, as a disk has them at their places.
#[derive(Drop)]
pub struct StoreView<'a, D: Disk> {
    index: &'a Index,
    mask: &'a Mask,
    alloc: Global,
    disk: &'a mut D,
    broken: &'a mut Vec<Gate>,
}

/// Reads the coin at a place, with one device call. None where its bytes aren't all there, or mean none.
fn read_place<D: Disk>(
    alloc: Global,
    disk: &mut D,
    place: CoinPlace,
    mask: &Mask,
) -> Result<Option<Coin>, StoreFault>
    ensures coin { (m : ℕ → List ℕ) → D.contents disk.old ≡ Some m → IfOk result (λ coin. coin ≡ coin_there mask.now m place) }
    ensures fits { IfOk result (λ coin. IfSome coin CoinFits) }
    ensures cause { PlaceCause (D.faults disk.old) (D.faults disk.new) result }
    ensures later { D.faults disk.old ≤ D.faults disk.new }
    ensures read { OnlyReadUpTo D.contents D.time D.left_since D.bytes_read place.len (λ f. f ≡ place.file) disk.old disk.new }
{
    let mut bytes = Vec::from_elem(alloc, 0, place.len as usize)?;
    let Ok(count) = disk.read(place.file, place.at, &mut bytes) else {
        return Err(StoreFault::DiskFailed);
    };
    if count < bytes.len() {
        return Ok(None);
    }
    obfuscate(&mut bytes, mask, 0);
    match read_value(alloc, &bytes) {
        Ok(coin) => Ok(coin),
        Err(RowFault::NoMemory) => Err(StoreFault::NoMemory),
        Err(RowFault::Broken) => Ok(None),
    }
}

impl<'a, D: Disk> StoreView<'a, D> {
    pub(crate) fn new(
        alloc: Global,
        index: &'a Index,
        mask: &'a Mask,
        disk: &'a mut D,
        broken: &'a mut Vec<Gate>,
    ) -> StoreView<'a, D>
        ensures index { (result.index.now ≡ index.now) × (result.mask.now ≡ mask.now) }
        ensures same_reference { result.disk.ghost_name ≡ disk.entry.ghost_name }
        ensures disk { result.disk.now ≡ disk.old }
        ensures broken { (result.broken.now ≡ broken.old) × (result.broken.ghost_name ≡ broken.entry.ghost_name) }
    {
        StoreView {
            index,
            mask,
            alloc,
            disk,
            broken,
        }
    }

    // Lists the record of a place as broken, and says so.
    fn add_broken(&mut self, place: CoinPlace) -> StoreFault
        ensures cause { IsBrokenFault place result }
        ensures listed { broken_places self.new.broken.now.items ≡ broken_places self.old.broken.now.items ++ broken_in result }
        ensures index { (self.new.index.now ≡ self.old.index.now) × (self.new.mask.now ≡ self.old.mask.now) }
        ensures same_reference { (self.new.disk.ghost_name ≡ self.old.disk.ghost_name) × (self.new.broken.ghost_name ≡ self.old.broken.ghost_name) }
        ensures disk { self.new.disk.now ≡ self.old.disk.now }
    {
        let gate = Gate {
            file: place.file,
            at: place.gate,
        };
        match self.broken.push(gate) {
            Ok(()) => StoreFault::Damaged {
                file: gate.file,
                at: gate.at,
            },
            Err(_) => StoreFault::NoMemory,
        }
    }
}

impl<'a, D: Disk> View for StoreView<'a, D> {
    ghost use Rattle.base_types.specs.Views.{ViewCounts};
    ghost use Rattle.coin_store.specs.OpenIndex.{OpenIndex};

    ghost coins = { λ v. coins_seen v.mask.now v.index.now (D.contents v.disk.now) };

    ghost counts = { λ v. view_counts (D.faults v.disk.now) v.broken.now.items };

    ghost behind = { λ keys v w. (w.index.now ≡ v.index.now) × (w.mask.now ≡ v.mask.now) × (w.disk.ghost_name ≡ v.disk.ghost_name) × (w.broken.ghost_name ≡ v.broken.ghost_name)
        × OnlyRead D.contents D.time D.left_since D.bytes_read (HasPlaceIn v.index.now keys) v.disk.now w.disk.now
        × MayFail v.mask.now v.index.now (D.contents v.disk.now) (view_counts (D.faults v.disk.now) v.broken.now.items) (view_counts (D.faults w.disk.now) w.broken.now.items) };

    ghost behind_none = { λ keys v. (refl, refl, refl, refl, only_read_none D.contents D.time D.left_since D.bytes_read (HasPlaceIn v.index.now keys) v.disk.now, may_fail_none v.mask.now v.index.now (D.contents v.disk.now) (view_counts (D.faults v.disk.now) v.broken.now.items)) };

    ghost behind_then = { λ keys u v w a b. (
      b.0 ∙ a.0,
      b.1 ∙ a.1,
      b.2 ∙ a.2,
      b.3 ∙ a.3,
      only_read_then D.contents D.time D.left_since D.bytes_read (HasPlaceIn u.index.now keys) u.disk.now v.disk.now w.disk.now a.4
          (subst (λ (i : OpenIndex). OnlyRead D.contents D.time D.left_since D.bytes_read (HasPlaceIn i keys) v.disk.now w.disk.now) a.0 b.4),
      may_fail_then u.mask.now v.mask.now u.index.now v.index.now (D.contents u.disk.now) (D.contents v.disk.now) (view_counts (D.faults u.disk.now) u.broken.now.items)
          (view_counts (D.faults v.disk.now) v.broken.now.items) (view_counts (D.faults w.disk.now) w.broken.now.items) a.1 a.0 a.4.stays a.5 b.5,
    ) };

    /// The coin of an outpoint: None exactly where it has no place, the coin that the bytes at its place mean on this
    /// disk, and `Damaged` with the gate of their record exactly where they aren't all there or mean none.
    fn get(&mut self, key: &OutPoint) -> Result<Option<Coin>, StoreFault>
        ensures coin { AnswersCoin (coins_seen self.old.mask.now self.old.index.now (D.contents self.old.disk.now)) key.now result }
        ensures fits { IfOk result (λ coin. IfSome coin CoinFits) }
        ensures coins { coins_seen self.new.mask.now self.new.index.now (D.contents self.new.disk.now) ≡ coins_seen self.old.mask.now self.old.index.now (D.contents self.old.disk.now) }
        ensures cause { FindsFault 1 (view_counts (D.faults self.old.disk.now) self.old.broken.now.items) (view_counts (D.faults self.new.disk.now) self.new.broken.now.items) result }
        ensures behind { (keys : List OutPoint) → Contains keys key.now → (self.new.index.now ≡ self.old.index.now) × (self.new.mask.now ≡ self.old.mask.now) × (self.new.disk.ghost_name ≡ self.old.disk.ghost_name) × (self.new.broken.ghost_name ≡ self.old.broken.ghost_name)
            × OnlyRead D.contents D.time D.left_since D.bytes_read (HasPlaceIn self.old.index.now keys) self.old.disk.now self.new.disk.now
            × MayFail self.old.mask.now self.old.index.now (D.contents self.old.disk.now) (view_counts (D.faults self.old.disk.now) self.old.broken.now.items) (view_counts (D.faults self.new.disk.now) self.new.broken.now.items) }
        ensures may_fail { MayFail self.old.mask.now self.old.index.now (D.contents self.old.disk.now) (view_counts (D.faults self.old.disk.now) self.old.broken.now.items) (view_counts (D.faults self.new.disk.now) self.new.broken.now.items) }

        // What it answers by the bytes at the place.
        ensures absent { coin_place self.old.index.now key.now ≡ None → result ≡ Ok None }
        ensures placed { (place : CoinPlace) (m : ℕ → List ℕ) → coin_place self.old.index.now key.now ≡ Some place → D.contents self.old.disk.now ≡ Some m
            → AnswersPlace self.old.mask.now m place result }
        ensures fault { (place : CoinPlace) → coin_place self.old.index.now key.now ≡ Some place → IfErr result (FaultCause (D.faults self.old.disk.now) (D.faults self.new.disk.now) place) }
        ensures listed { broken_places self.new.broken.now.items ≡ broken_places self.old.broken.now.items ++ found_broken result }

        // It reads once: no more bytes than the coin has, of the file of its place alone.
        ensures read { OnlyReadUpTo D.contents D.time D.left_since D.bytes_read (coin_bytes (coin_place self.old.index.now key.now)) (HasPlaceIn self.old.index.now (key.now ∷ [])) self.old.disk.now self.new.disk.now }
    {
        let Some(place) = self.index.coin_place(key) else {
            return Ok(None);
        };
        match read_place(self.alloc, self.disk, place, self.mask) {
            Ok(Some(coin)) => Ok(Some(coin)),
            Ok(None) => Err(self.add_broken(place)),
            Err(fault) => Err(fault),
        }
    }
}
