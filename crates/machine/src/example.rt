//! Runs that meet the premises of the theorem.

ghost use Rattle.std.specs.Prelude.{ℕ};
ghost use Rattle.machine.specs.CutRuns.{IsEmptyDisk, the_run, the_stop};

use crate::theorem::{History, opens_with_acknowledged_coins};

/// A list of runs that each open an empty disk, flush and are cut by a crash after that.
pub struct CutRuns;

impl History for CutRuns {
    ghost limit = { 1 };

    ghost run = { λ n. the_run };

    ghost entry = { λ n. IsEmptyDisk };

    ghost left = { λ n t. IsEmptyDisk };

    ghost stop = { λ n. the_stop };
}

/// The theorem on these runs: its premises can be met.
pub fn cut_runs_open() {
    opens_with_acknowledged_coins::<CutRuns>()
}
