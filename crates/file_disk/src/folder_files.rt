//! The numbered files of a folder, as the raw files of a disk.

ghost use Rattle.std.specs.Prelude.{◌≡◌, ◌++◌, ◌∷◌, [], List, None, Err, length, IfOk, IfErr, option_map};
ghost use Rattle.file_disk.specs.Deeds.{Deed};
ghost use Rattle.file_disk.specs.Courses.{Measures, Reads, Writes, Cuts, Syncs, Enters, entered};
ghost use Rattle.disk_model.specs.declared.call.Request.{Request};
ghost use Rattle.file_disk.specs.Answers.{Does, AnswersBy};

use crate::open_files::{OpenFiles, enter};
use crate::raw::RawFolder;
use crate::trouble::Trouble;
use disk_model::{DiskFailed, RawFiles, Requests};
use std::alloc::Global;

/// The files of a folder. It holds the folder's lock, keeps the files open, and remembers the first trouble.
///
/// A file that isn't there is empty, and is made by the first write into it. A call is made again where a signal comes
/// between, and until all is written.
#[derive(Drop)]
pub struct FolderFiles<F: RawFolder + Drop> {
    files: OpenFiles<F>,
    trouble: Option<Trouble>,
    requests: Requests,
}

// The answer without its trouble, which is kept where it is the first.
fn noted<T>(first: &mut Option<Trouble>, answer: Result<T, Trouble>) -> Result<T, DiskFailed>
    ensures { AnswersBy answer result first.old first.new }
{
    match answer {
        Ok(value) => Ok(value),
        Err(trouble) => {
            if first.is_none() {
                *first = Some(trouble);
            }
            Err(DiskFailed)
        }
    }
}

impl<F: RawFolder + Drop> FolderFiles<F> {
    ghost use Rattle.file_disk.specs.Files.{folder_of, trouble_of};

    /// Makes the folder where it isn't there, takes its lock, and makes durable which files it has.
    pub fn open(alloc: Global, folder: F) -> Result<FolderFiles<F>, Trouble>
        ensures entered { IfOk result (λ files. F.deeds (folder_of files) ≡ entered (F.deeds folder)) }
        ensures untroubled { IfOk result (λ files. trouble_of files ≡ None) }
        ensures unasked { IfOk result (λ files. files.requests.items ≡ []) }
        ensures refused { IfErr result (λ trouble. (now : List Deed) × Enters (Err trouble) (F.deeds folder) now) }
    {
        let mut folder = folder;
        enter(&mut folder)?;
        Ok(FolderFiles {
            files: OpenFiles::new(alloc, folder),
            trouble: None,
            requests: Requests::new(),
        })
    }

    /// The first trouble, where there was one.
    pub fn trouble(&self) -> Option<&Trouble>
        ensures { option_map (λ trouble. trouble.now) result ≡ trouble_of self.now }
    {
        self.trouble.as_ref()
    }
}

impl<F: RawFolder + Drop> RawFiles for FolderFiles<F> {
    ghost use Rattle.file_disk.specs.Files.{folder_of, trouble_of};

    ghost requests = { λ files. files.requests.items };

    fn len(&mut self, file: u32) -> Result<u64, DiskFailed>
        ensures request { self.new.requests.items ≡ self.old.requests.items ++ Request.Len file ∷ [] }
        ensures calls { Does (Measures file) result (F.deeds (folder_of self.old)) (F.deeds (folder_of self.new)) (trouble_of self.old) (trouble_of self.new) }
    {
        self.requests.add_len(file);
        noted(&mut self.trouble, self.files.len(file))
    }

    fn read(&mut self, file: u32, at: u64, buf: &mut [u8]) -> Result<usize, DiskFailed>
        ensures request { self.new.requests.items ≡ self.old.requests.items ++ Request.Read file at (length buf.old) ∷ [] }
        ensures calls { Does (Reads file at buf.new) result (F.deeds (folder_of self.old)) (F.deeds (folder_of self.new)) (trouble_of self.old) (trouble_of self.new) }
    {
        self.requests.add_read(file, at, buf.len());
        noted(&mut self.trouble, self.files.read(file, at, buf))
    }

    fn write_at(&mut self, file: u32, at: u64, bytes: &[u8]) -> Result<(), DiskFailed>
        ensures request { self.new.requests.items ≡ self.old.requests.items ++ Request.Write file at bytes.now ∷ [] }
        ensures calls { Does (Writes file at bytes.now) result (F.deeds (folder_of self.old)) (F.deeds (folder_of self.new)) (trouble_of self.old) (trouble_of self.new) }
    {
        self.requests.add_write(file, at, bytes);
        noted(&mut self.trouble, self.files.write_at(file, at, bytes))
    }

    fn cut(&mut self, file: u32, length: u64) -> Result<(), DiskFailed>
        ensures request { self.new.requests.items ≡ self.old.requests.items ++ Request.Cut file length ∷ [] }
        ensures calls { Does (Cuts file length) result (F.deeds (folder_of self.old)) (F.deeds (folder_of self.new)) (trouble_of self.old) (trouble_of self.new) }
    {
        self.requests.add_cut(file, length);
        noted(&mut self.trouble, self.files.cut(file, length))
    }

    fn sync(&mut self, file: u32) -> Result<(), DiskFailed>
        ensures request { self.new.requests.items ≡ self.old.requests.items ++ Request.Sync file ∷ [] }
        ensures calls { Does (Syncs file) result (F.deeds (folder_of self.old)) (F.deeds (folder_of self.new)) (trouble_of self.old) (trouble_of self.new) }
    {
        self.requests.add_sync(file);
        noted(&mut self.trouble, self.files.sync(file))
    }
}
