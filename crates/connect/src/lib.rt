//! Connecting a block to coins that can be changed, and taking it back (`ConnectBlock` and `DisconnectBlock` in Bitcoin Core's
//! `validation.cpp`).
#![tactic(auto)]

mod connecting;
mod disconnecting;

pub use chain_model::ConnectFault;
pub use connecting::connect;
pub use disconnecting::{disconnect, roll_back};
