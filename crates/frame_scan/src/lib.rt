//! The blocks of a block file, one after another: a scan over the open input of a host, which finds frames between any
//! other bytes and takes the obfuscation off a file.
#![tactic(auto)]

mod fault;
mod frames;
mod head;
mod reading;
mod search;
mod window;

pub use fault::FrameFault;
pub use frames::Frames;

#[cfg(test)]
mod tests;
