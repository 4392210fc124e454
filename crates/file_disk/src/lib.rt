//! Numbered files of a folder as the raw files of a disk. Nothing of what real files hold is known, so the contracts say
//! which calls are made of the system, in which order, and what they answered.
#![tactic(auto)]

mod deeds;
mod file_calls;
mod folder_files;
mod open_files;
mod raw;
#[cfg(test)]
mod tests;
mod trouble;

pub use deeds::Deeds;
pub use folder_files::FolderFiles;
pub use raw::{CallFailed, RawError, RawFolder};
pub use trouble::{Operation, Trouble};
