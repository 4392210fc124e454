//! The crash theorem, over lists of runs.

ghost use Rattle.std.specs.Prelude.{◌+◌, ◌↔◌, ◌≢◌, ℕ, List};
ghost use Rattle.base_types.specs.declared.hash.Hash32.{Hash32};
ghost use Rattle.machine.specs.Clauses.{IsRun};
ghost use Rattle.machine.specs.Histories.{Stop, GoesOn, BeginsEmpty, OpensWell, ToldAreKept};
ghost use Rattle.machine.specs.Marks.{Mark, StandsAt, StandsInWords};
ghost use Rattle.machine.specs.Runs.{Run};
ghost use Rattle.machine.specs.declared.report.Opened.TheVariants.{Not};

/// A list of runs as values: run n begins on a disk that is one of the images `entry n`, and a crash in it since a reading
/// t of the clock may leave those of `left n t`. All have the same limit on headers; the rules are each run's own.
pub trait History {
    ghost limit: { ℕ };

    ghost run: { ℕ → Run };

    ghost entry: { ℕ → (ℕ → List ℕ) → Type 0 };

    ghost left: { ℕ → ℕ → (ℕ → List ℕ) → Type 0 };

    ghost stop: { ℕ → Stop };
}

/// After any list of runs from an empty disk, each finished or cut by a crash within any write, a run whose opening
/// succeeds opens with exactly the coins of replaying the blocks, at the tip of the last flush that was done or of a later
/// one, and what it answers follows from them. A flush that was told was done.
pub fn opens_with_acknowledged_coins<H: History>()
    requires first { BeginsEmpty (H.entry 0) }
    requires runs { (n : ℕ) → IsRun H.limit (H.run n).setting.given (H.entry n) (H.left n) (H.run n) }
    requires next { (n : ℕ) → GoesOn (H.stop n) (H.left n) (H.run n) (H.entry (n + 1)) (H.run (n + 1)) }
    ensures opens { (n : ℕ) → (H.run n).opened ≢ Not → OpensWell H.limit H.run H.stop n }
    ensures told { (n : ℕ) → ToldAreKept (H.run n) }
{}

/// Which tips may stand, in words: that of the last kept flush or of a later one, or where none is kept, that of any flush
/// or the start.
pub fn stands_in_words()
    ensures { (start : Hash32) (before : List Mark) (tip : Hash32) → StandsAt start before tip ↔ StandsInWords start before tip }
{}
