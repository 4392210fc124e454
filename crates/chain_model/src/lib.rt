//! What a chain of blocks means: the tree of headers, the rules of headers, bodies and coins, as definitions in `specs/`;
//! the trait by which code sees a tree; and the plain replay of blocks over coins in memory.
#![tactic(auto)]

mod applying;
mod changes;
mod context;
mod editing;
mod fault;
mod locks;
mod outputs;
mod overwriting;
mod paying;
mod plain;
mod plain_edit;
mod proof_of_work;
mod replaying;
mod small_choices;
mod spending;
mod tree_view;
mod undo;

pub use applying::{apply_block, apply_hashed_block};
pub use editing::{put_coin, take_outputs};
pub use fault::{ConnectFault, ReplayFault};
pub use paying::apply_over;
pub use plain::Plain;
pub use proof_of_work::meets_target;
pub use replaying::replay;
pub use small_choices::{
    greedy_block_refused, headers_in_any_order, higher_blocks_first, output_spent_in_its_block,
};
pub use tree_view::TreeView;
pub use undo::{BlockUndo, SpentCoins};

#[cfg(test)]
mod tests;
