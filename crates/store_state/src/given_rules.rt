//! The law on the rules that are given.

ghost use Rattle.std.specs.Prelude.{◌≡◌, ℕ, List, Some};
ghost use Rattle.base_types.specs.declared.program.Rules.{Rules};
ghost use Rattle.store_state.specs.GivenRules.{StandsAlike};
ghost use Rattle.store_state.specs.Settled.{IsSettled};
ghost use Rattle.store_state.specs.State.{StoreState, state_of};

/// A settled image is settled under any rules that are given, and stands for the same: without a stored header it has genesis
/// alone, and with one the given rules don't count.
pub fn settled_under_any_rules()
    ensures { (limit : ℕ) (given other : Rules) (image : ℕ → List ℕ) (store : StoreState) → state_of limit given image ≡ Some store → IsSettled store
        → StandsAlike limit other image store }
{}
