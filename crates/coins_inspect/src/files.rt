//! Files of the system, read whole up to a limit.

use crate::input_file::read_some;
use std::alloc::Global;
use std::fs::File;
use std::io::Result;

/// How many bytes are read at once.
const PIECE: usize = 4_096;

/// How often: 32 MiB are read at most, eight times the greatest block.
const MAX_PIECES: u32 = 8_192;

/// The bytes of a file, or none where it isn't at its end after so many reads.
pub(crate) fn read_file(alloc: Global, mut file: File) -> Result<Option<Vec<u8>>> {
    let mut bytes = Vec::new(alloc);
    for _ in 0..MAX_PIECES {
        let mut piece = [0; PIECE];
        let count = read_some(&mut file, &mut piece)?;
        if count == 0 {
            return Ok(Some(bytes));
        }
        bytes.extend_from_slice(&piece[..count])?;
    }
    Ok(None)
}
