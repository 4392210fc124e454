//! The lines that an open store serves: each does its work on the session, and adds the lines of its replies to a text.
#![tactic(auto)]

mod coins;
mod flushes;
mod headers;
mod imports;
mod passes;
mod saying;
mod taking;

pub use coins::{coin_line, info_line};
pub use flushes::flush_line;
pub use headers::headers_line;
pub use imports::import_line;
pub use saying::say;
