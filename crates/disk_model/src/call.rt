//! What is asked of a disk, and the record of a device call.

ghost use Rattle.std.specs.Prelude.{◌≡◌, IfOk};

use crate::Bytes;
use std::alloc::{AllocError, Global};

/// What was asked of a disk.
#[derive(Drop)]
pub enum Request {
    Len { file: u32 },
    /// `count` is the length of the buffer, or for a disk in memory the number of the bytes that
    /// stand there and fit into it.
    Read { file: u32, at: u64, count: u64 },
    Write { file: u32, at: u64, bytes: Bytes },
    Cut { file: u32, length: u64 },
    Sync { file: u32 },
}

/// A device call. Its number is counted from 1, and is the reading of the clock after it. A call
/// that wasn't done did nothing.
#[derive(Drop)]
pub struct Call {
    pub number: u64,
    pub done: bool,
    pub request: Request,
}

impl Request {
    /// The request of a write, with its bytes.
    pub(crate) fn write(
        alloc: Global,
        file: u32,
        at: u64,
        bytes: &[u8],
    ) -> Result<Request, AllocError>
        ensures { IfOk result (λ request. request ≡ Request.Write file at bytes.now) }
    {
        let bytes = Bytes::from_slice(alloc, bytes)?;
        Ok(Request::Write { file, at, bytes })
    }
}

impl Call {
    ghost use Rattle.disk_model.specs.Replay.{is_done_by};

    /// Whether it was done by a moment.
    pub(crate) fn is_done_by(&self, moment: u64) -> bool
        ensures { result ≡ is_done_by moment self.now }
    {
        self.done && self.number <= moment
    }
}
