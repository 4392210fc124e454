//! The loop of the program over any server: a store is opened, the lines of an input are answered as they come, each with its
//! replies in one write, and the end of the input asks for a last flush.
#![tactic(auto)]

mod answering;
mod pending;
mod program;
mod server;
mod settings;
mod stop;
mod telling;

pub use program::run_with;
pub use server::{FoundStore, Server};
pub use settings::RunSettings;
