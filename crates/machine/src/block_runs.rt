//! Runs above genesis that meet the premises of the theorem.

ghost use Rattle.std.specs.Prelude.{ℕ, ◌+◌};
ghost use Rattle.machine.specs.BlockRuns.{BlockFile, run_at, entry_at, left_at, stop_at};
ghost use Rattle.machine.specs.Clauses.{IsRun};
ghost use Rattle.machine.specs.Histories.{GoesOn, BeginsEmpty, OpensWell};

use store_state::{one_block_stands, one_header_stands};

/// A run that imports a block over an empty disk and is cut by a crash after its flush, and runs after it, meet the premises
/// of the theorem. The second run opens at the block, with the coins after it, though a crash before the flush was done
/// might have left an empty disk, or the header alone.
pub fn block_runs_open()
    ensures first { (limit cache : ℕ) (file : BlockFile limit cache) → BeginsEmpty (entry_at limit cache file 0) }
    ensures runs { (limit cache : ℕ) (file : BlockFile limit cache) (n : ℕ) → IsRun limit (run_at limit cache file n).setting.given (entry_at limit cache file n) (left_at limit cache file n) (run_at limit cache file n) }
    ensures next { (limit cache : ℕ) (file : BlockFile limit cache) (n : ℕ)
        → GoesOn (stop_at limit cache file n) (left_at limit cache file n) (run_at limit cache file n) (entry_at limit cache file (n + 1)) (run_at limit cache file (n + 1)) }
    ensures second { (limit cache : ℕ) (file : BlockFile limit cache)
        → OpensWell limit (run_at limit cache file) (stop_at limit cache file) 1 }
{
    one_header_stands();
    one_block_stands();
}
