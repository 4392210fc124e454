//! Headers, bodies and coins that are written to an open store: each as one call, with what a crash in it may leave.
#![tactic(auto)]

mod bodies;
mod headers;
mod rows;

pub use bodies::store_body;
pub use headers::{store_all_headers, store_headers};
pub use rows::store_coins;
