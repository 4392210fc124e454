//! The two files of the store.

ghost use Rattle.std.specs.Prelude.{◌≡◌};
ghost use Rattle.block_store.specs.Opening.{file_of, has_length};

/// What a file of the store holds.
#[derive(Clone, Copy, Debug, PartialEq, Eq)]
pub(crate) enum PayloadKind {
    Headers,
    Bodies,
}

/// The bytes of a header.
pub(crate) const HEADER_LEN: u32 = 80;

/// The most headers of a payload.
pub(crate) const MAX_HEADERS: u32 = 1000;

/// The bytes of the hash before a body.
pub(crate) const HASH_LEN: u32 = 32;

impl PayloadKind {
    /// The number of the file.
    pub(crate) fn file(self) -> u32
        ensures { result ≡ file_of self }
    {
        match self {
            PayloadKind::Headers => 1,
            PayloadKind::Bodies => 2,
        }
    }

    /// Whether a payload may have so many bytes.
    pub(crate) fn has_length(self, len: u32) -> bool
        ensures { result ≡ has_length self len }
    {
        match self {
            PayloadKind::Headers => {
                HEADER_LEN <= len && len <= MAX_HEADERS * HEADER_LEN && len % HEADER_LEN == 0
            }
            PayloadKind::Bodies => HASH_LEN <= len,
        }
    }
}
