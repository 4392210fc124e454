//! A disk of numbered files as a trait, and what a crash at any moment may leave of it. Tests use a disk in memory and one
//! that fails after so many calls; a program uses one over real files, which tells nothing of what they hold.
#![tactic(auto)]

mod bytes;
mod call;
mod disk;
mod fuse;
mod history;
mod image;
mod mem;
mod pick;
mod replay;
mod requests;
#[cfg(test)]
mod tests;
mod untold;

pub use bytes::Bytes;
pub use call::{Call, Request};
pub use disk::{Disk, DiskFailed};
pub use fuse::FuseDisk;
pub use image::Image;
pub use mem::MemDisk;
pub use pick::Pick;
pub use requests::Requests;
pub use untold::{RawFiles, UntoldDisk};
