//! The lines of commands and of replies, both ways: a line of the input as a command, and a reply as its line.
#![tactic(auto)]

mod field;
mod json_text;
mod line;
mod name;
mod names;
mod parsing;
mod reply;
mod word;
mod writing;

pub use line::{Line, LineFault, LineRefused};
pub use name::Name;
pub use parsing::parse;
pub use reply::{Background, Reply, Role, Rule, TxOutFound};
pub use writing::write_reply;

#[cfg(test)]
mod tests;
