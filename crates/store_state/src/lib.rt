//! What the files of a store stand for, as definitions in `specs/`, and laws on it: what can be broken, and what small images
//! stand for.
#![tactic(auto)]

mod breaks;
mod given_rules;
mod small_breaks;
mod small_stores;

pub use breaks::broken_places;
pub use given_rules::settled_under_any_rules;
pub use small_breaks::{broken_references, damaged_logs, malformed_records};
pub use small_stores::{
    one_block_stands, one_header_stands, two_blocks_replayed, unsettled_stores,
};
