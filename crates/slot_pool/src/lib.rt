//! A pool of values in slots. Slots lie in raw chunks of 256, so a value doesn't move while the pool grows, and room
//! that was reserved serves later calls without memory. At its end the pool gives up every value and every chunk.
#![tactic(auto)]

mod cells;
mod chunk;
mod pool;
mod slot;

#[doc(hidden)]
pub use cells::{Cells, Claim};
#[doc(hidden)]
pub use chunk::Chunk;
pub use pool::{Pool, PoolRefused};
pub use slot::Slot;

#[cfg(test)]
mod tests;
