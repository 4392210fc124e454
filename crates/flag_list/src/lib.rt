//! A doubly linked list of slots of a pool. Its links lie in the pool's values, so no call takes memory, and any slot
//! is found, appended and taken out in constant time.
#![tactic(auto)]

mod linked;
mod list;

pub use linked::{Linked, Links};
pub use list::FlagList;

#[cfg(test)]
mod tests;
