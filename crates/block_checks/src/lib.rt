//! The rules of a block's body that need no coins: whether the body breaks one of them, and which it breaks first
//! (Bitcoin Core's `CheckBlock` and `ContextualCheckBlock` in `validation.cpp`).
#![tactic(auto)]

mod body;
mod fault;
mod finality;
mod height_push;
mod inputs;
mod payable;
mod place;
mod structure;
mod transaction;
mod witness;

pub use body::{check_body, check_hashed_body};
pub use fault::CheckFault;
pub use payable::has_unpayable;

#[cfg(test)]
mod tests;
