//! The top call: all that the program does, over an outside that is handed in.
#![tactic(auto)]

mod file_fold;
mod fold_end;
mod folding;
mod host_lines;
mod program;
mod server;

pub use base_types::{Limits, Salt, Status, Words};
pub use machine::{Opened, Report};
pub use program::run;

#[cfg(test)]
mod tests;
