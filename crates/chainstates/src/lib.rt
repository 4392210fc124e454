//! The chainstates of an open store: what its files say as it is opened, and the calls that read and change it.
#![tactic(auto)]

mod bodies;
mod checks;
mod closing;
mod coins;
mod headers;
mod offers;
mod opening;
mod session;
#[cfg(test)]
mod tests;
mod tree_reading;
mod waiting;

pub use closing::{Closing, close};
pub use offers::{Closure, Offered};
pub use session::{Info, Session};
