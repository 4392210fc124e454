//! What a run of the program reports.

use base_types::{Flushes, Hash32, Status};
use coin_store::Marker;

/// A chainstate as an opening found it: its marker, and the tip at which it was settled.
#[derive(Clone, Copy, Debug, PartialEq, Eq)]
pub struct Found {
    pub marker: Marker,
    pub tip: Hash32,
}

/// Whether the store was opened at the start of the run; if so, the reading of the disk's clock when the opening had ended,
/// and what it found of each chainstate.
#[derive(Clone, Copy, Debug, PartialEq, Eq)]
pub enum Opened {
    Not,
    Yes {
        at: u64,
        full: Option<Found>,
        snapshot: Option<Found>,
    },
}

/// How a run ended, its flushes, and how it opened.
#[derive(Debug, Drop)]
pub struct Report {
    pub status: Status,
    pub flushes: Flushes,
    pub opened: Opened,
}
