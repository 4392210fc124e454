//! Calls on one disk that follow each other.

ghost use Rattle.std.specs.Prelude.{ℕ, ◌≤◌, List};
ghost use Rattle.std.specs.List.{AllByRecursion};
ghost use Rattle.base_types.specs.declared.program.Rules.{Rules};
ghost use Rattle.store_state.specs.State.{StoreState};
ghost use Rattle.base_types.specs.declared.flushes.Flushed.{Flushed};
ghost use Rattle.machine.specs.Calls.{Call, IsCall, EndsWell, IsOpen, IsWhole, Follows, IsOpening, IsOpenedRun, SameButTold, joined, nothing_at};
ghost use Rattle.machine.specs.Clauses.{ReadsWithin};

/// Two calls on one disk, as values: what a crash might have left before them, between them and after them, and what the
/// store stood for before each.
pub trait TwoCalls {
    ghost limit: { ℕ };

    ghost given: { Rules };

    ghost past: { ℕ → (ℕ → List ℕ) → Type 0 };

    ghost between: { ℕ → (ℕ → List ℕ) → Type 0 };

    ghost left: { ℕ → (ℕ → List ℕ) → Type 0 };

    ghost first: { Call };

    ghost second: { Call };

    ghost from: { StoreState };

    ghost on: { StoreState };
}

/// Two calls that follow each other, of which the first met no fault, are as one call.
pub fn both_calls<C: TwoCalls>()
    requires first { IsCall C.limit C.given C.past C.between C.first C.from }
    requires well { EndsWell C.limit C.given C.between C.first C.from }
    requires second { IsCall C.limit C.given C.between C.left C.second C.on }
    requires next { Follows C.first C.second }
    ensures both { IsCall C.limit C.given C.past C.left (joined C.first C.second) C.from }
    ensures well { EndsWell C.limit C.given C.left C.second C.on → EndsWell C.limit C.given C.left (joined C.first C.second) C.from }
{}

/// An opening and a call that follows it meet together what a run promises of images.
pub fn opening_and_call<C: TwoCalls>()
    requires first { IsOpening C.limit C.given C.past C.between C.first C.from C.on }
    requires second { IsCall C.limit C.given C.between C.left C.second C.on }
    requires next { Follows C.first C.second }
    ensures { IsOpenedRun C.limit C.given C.past C.left C.first C.second C.from }
{}

/// One call on a disk, as values: what a crash might have left before it and may leave after it, what the store stood for
/// before it, a list of its flushes of which some are told since, and the disk at a moment.
pub trait OneCall {
    ghost limit: { ℕ };

    ghost given: { Rules };

    ghost past: { ℕ → (ℕ → List ℕ) → Type 0 };

    ghost left: { ℕ → (ℕ → List ℕ) → Type 0 };

    ghost call: { Call };

    ghost flushes: { List Flushed };

    ghost from: { StoreState };

    ghost time: { ℕ };

    ghost contents: { ℕ → List ℕ };
}

/// No device call is as a call that met no fault, on a store that is open.
pub fn no_call<C: OneCall>()
    requires earlier { (t u : ℕ) (c : ℕ → List ℕ) → t ≤ u → u ≤ C.time → C.past u c → C.past t c }
    requires is_open { IsOpen C.limit C.given (C.past C.time) C.contents C.from }
    ensures { IsWhole C.limit C.given C.past C.past (nothing_at C.time C.contents) C.from C.from }
{}

/// That flushes of a call are told since changes none of its clauses.
pub fn told_later<C: OneCall>()
    requires call { IsCall C.limit C.given C.past C.left C.call C.from }
    requires same { SameButTold C.call.flushes C.flushes }
    requires in_order { AllByRecursion (ReadsWithin C.call.entered C.call.ended) C.flushes }
    ensures call { IsCall C.limit C.given C.past C.left (record C.call { flushes = C.flushes }) C.from }
    ensures well { EndsWell C.limit C.given C.left C.call C.from → EndsWell C.limit C.given C.left (record C.call { flushes = C.flushes }) C.from }
{}
