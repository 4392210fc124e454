//! What the program does to a store, as a machine; what a run promises, as clauses over plain values; and the theorem that
//! after any list of runs, each finished or cut by a crash, a run that opens has the coins of replaying the blocks.
#![tactic(auto)]

mod block_runs;
mod calls;
mod example;
mod lines;
mod report;
mod small_steps;
mod theorem;

pub use block_runs::block_runs_open;
pub use calls::{OneCall, TwoCalls, both_calls, no_call, opening_and_call, told_later};
pub use example::{CutRuns, cut_runs_open};
pub use lines::{events_say_all, lines_have_ways};
pub use report::{Found, Opened, Report};
pub use small_steps::{steps_from_genesis, steps_with_a_block};
pub use theorem::{History, opens_with_acknowledged_coins, stands_in_words};
