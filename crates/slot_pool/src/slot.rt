//! The name of one place of a pool.
use std::marker::Model;

/// A slot of a pool. `Pool::put` alone makes one. A clause sees it as a number.
#[derive(Clone, Copy, PartialEq, Eq, Debug)]
pub struct Slot {
    pub(crate) index: u32,
}

impl Model for Slot {
    ghost use Rattle.std.specs.Prelude.{ℕ};

    ghost Value = { ℕ };

    ghost view = { λ s. s.index };

    ghost inverse = { λ n. record { index = n } };
}
