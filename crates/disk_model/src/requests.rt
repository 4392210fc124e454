//! A list of requests that contracts alone read.

ghost use Rattle.std.specs.Prelude.{◌≡◌, ◌++◌, ◌∷◌, [], List};
ghost use Rattle.std.specs.Borrow.{ftrue};
ghost use Rattle.disk_model.specs.declared.call.Request.{Request};

use crate::Request;
use std::marker::{Model, PhantomData};

/// What was asked of real files, the oldest request first. It takes no bytes and no time: a struct over real files has it
/// as a field, and adds to it at each call.
#[derive(Drop)]
pub struct Requests {
    marker: PhantomData<u8>,
    pub ghost items: { List Request },
}

impl Model for Requests {
    ghost also_owns = { λ _. ftrue };
}

impl Requests {
    /// No requests.
    pub fn new() -> Requests
        ensures { result.items ≡ [] }
    {
        Requests {
            marker: PhantomData,
        }
    }

    // It has no code: what is added is the caller's pick, from what it is given.
    fn add(&mut self, _file: u32, _at: u64, _count: u64, _bytes: &[u8])
        ghost request: { Request }
        ensures { self.new.items ≡ self.old.items ++ request ∷ [] }
    {}

    /// Adds the request of a length.
    pub fn add_len(&mut self, file: u32)
        ensures { self.new.items ≡ self.old.items ++ Request.Len file ∷ [] }
    {
        self.add(file, 0, 0, &[]);
    }

    /// Adds that of a read into a buffer of this length.
    pub fn add_read(&mut self, file: u32, at: u64, count: usize)
        ensures { self.new.items ≡ self.old.items ++ Request.Read file at count ∷ [] }
    {
        self.add(file, at, count as u64, &[]);
    }

    /// Adds that of a write.
    pub fn add_write(&mut self, file: u32, at: u64, bytes: &[u8])
        ensures { self.new.items ≡ self.old.items ++ Request.Write file at bytes.now ∷ [] }
    {
        self.add(file, at, 0, bytes);
    }

    /// Adds that of a cut.
    pub fn add_cut(&mut self, file: u32, length: u64)
        ensures { self.new.items ≡ self.old.items ++ Request.Cut file length ∷ [] }
    {
        self.add(file, length, 0, &[]);
    }

    /// Adds that of a sync.
    pub fn add_sync(&mut self, file: u32)
        ensures { self.new.items ≡ self.old.items ++ Request.Sync file ∷ [] }
    {
        self.add(file, 0, 0, &[]);
    }
}
