//! A choice among the images of a file.

/// Which of the images that a crash may leave of each file.
#[derive(Clone, Copy, Debug, PartialEq, Eq)]
pub enum Pick {
    /// What was durable at the last sync, as short as the file may be.
    Old,
    /// The file as it reads.
    New,
    /// As long as the file may be, with this byte wherever a byte is free.
    Fill(u8),
}
