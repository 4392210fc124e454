//! The coins of a chainstate as rows in a log: each payload is a marker, which names the block that the coins are those
//! of, and rows, each an outpoint with its coin or with none. A later row overrules an earlier one. Before them may stand
//! the rows of a base, a log whose payloads are rows with coins alone. In memory are the places of the coins alone; a view
//! reads a coin from its place.
#![tactic(auto)]

mod batch;
mod index;
mod key_order;
mod kind;
mod marker;
mod opening;
mod places;
mod row;
mod secrets;
mod staging;
mod store;
mod view;

pub use batch::Gate;
pub use marker::Marker;
pub use places::CoinPlace;
pub use secrets::Secrets;
pub use staging::row_len;
pub use store::CoinStore;
pub use view::StoreView;

#[cfg(test)]
mod tests;
