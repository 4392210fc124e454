//! The law on broken places.

ghost use Rattle.std.specs.Prelude.{ℕ, List};
ghost use Rattle.base_types.specs.declared.program.Rules.{Rules};
ghost use Rattle.store_state.specs.Breaks.{BreaksAre};

/// An image stands for nothing exactly where one of its places is broken.
pub fn broken_places()
    ensures { (limit : ℕ) (given : Rules) (image : ℕ → List ℕ) → BreaksAre limit given image }
{}
