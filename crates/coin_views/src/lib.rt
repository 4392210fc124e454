//! Layers of coins: a tip cache over a parent's view, and over the tip cache a block view, on which a block is connected. It is
//! then committed into the tip cache, or dropped (the `CCoinsViewCache` over `CoinsTip()` in Bitcoin Core's `ConnectTip`).
#![tactic(auto)]

mod block_view;
mod layers;
mod over;
#[cfg(test)]
mod tests;
mod tip;

pub use block_view::BlockView;
pub use layers::Layers;
pub use over::Over;
