//! A host over raw files. It tells nothing of what they hold, and counts each failure.

ghost use Rattle.std.specs.Prelude.{◌≡◌, ◌≢◌, ◌∷◌, None, Ok, Err, IsOk, IfOk, IfSome, OnOk, OnErr, is_ok, length};
ghost use Rattle.std.specs.Io.{ReadsAtMost};
ghost use Rattle.io_traits.specs.Causes.{HasCause};
ghost use Rattle.io_traits.specs.RawCalls.{ReadsThrough, WritesThrough, opens, creates, closes};
ghost use Rattle.io_traits.specs.Told.{OnTold};

use crate::outside::{Host, IoFailed};
use crate::raw::RawFiles;
use crate::through::{count_fault, read_through, write_through};

/// A host over a system's files. A name that isn't there counts as a failure.
#[derive(Drop)]
pub struct UntoldHost<F: RawFiles + Drop> {
    files: F,
    input: Option<F::Input>,
    created: Option<F::Output>,
    faults: u64,
}

impl<F: RawFiles + Drop> UntoldHost<F> {
    ghost use Rattle.io_traits.specs.HostAdapter.{files_of, input_of, created_of};

    /// No call was made through it, so that no input is open and no file is created.
    pub fn new(files: F) -> Self
        ensures files { files_of result ≡ files }
        ensures input { input_of result ≡ None }
        ensures created { created_of result ≡ None }
    {
        UntoldHost {
            files,
            input: None,
            created: None,
            faults: 0,
        }
    }
}

impl<F: RawFiles + Drop> Host for UntoldHost<F> {
    ghost use Rattle.io_traits.specs.HostAdapter.{files_of, input_of, created_of};

    ghost held = { λ _. None };

    ghost faults = { λ host. host.faults };

    fn open_in(&mut self, name: &str) -> Result<(), IoFailed>
        ensures call { OnTold (F.calls (files_of self.old)) (F.calls (files_of self.new)) (λ before now. now ≡ opens name.now (is_ok result) ∷ before) }
        ensures opened { OnOk result (IfSome (input_of self.new) (λ input. IfSome (F.Input.name input) (λ told. told ≡ name.now))) }
        ensures open { OnOk result (input_of self.new ≢ None) }
        ensures closed { OnErr result (input_of self.new ≡ None) }
        ensures created { created_of self.new ≡ created_of self.old }
        ensures cause { HasCause self.old.faults self.new.faults result }
    {
        self.input = None;
        let input = count_fault(&mut self.faults, self.files.open(name))?;
        self.input = Some(input);
        Ok(())
    }

    fn read_in(&mut self, buf: &mut [u8]) -> Result<usize, IoFailed>
        ensures calls { OnTold (input_of self.old) (input_of self.new) (λ before now. OnTold (F.Input.reads before) (F.Input.reads now) (ReadsThrough result buf.new)) }
        ensures name { OnTold (input_of self.old) (input_of self.new) (λ before now. F.Input.name now ≡ F.Input.name before) }
        ensures closed { input_of self.old ≡ None → (result ≡ Ok 0) × (self.new.faults ≡ self.old.faults) }
        ensures files { files_of self.new ≡ files_of self.old }
        ensures created { created_of self.new ≡ created_of self.old }
        ensures bound { ReadsAtMost result buf.new }
        ensures cause { HasCause self.old.faults self.new.faults result }
    {
        let Some(input) = &mut self.input else {
            return Ok(0);
        };
        count_fault(&mut self.faults, read_through(input, buf))
    }

    fn create(&mut self, name: &str) -> Result<(), IoFailed>
        ensures call { OnTold (F.calls (files_of self.old)) (F.calls (files_of self.new)) (λ before now. now ≡ creates name.now (is_ok result) ∷ before) }
        ensures named { OnOk result (IfSome (created_of self.new) (λ created. IfSome (F.Output.name created) (λ told. told ≡ name.now))) }
        ensures made { OnOk result (created_of self.new ≢ None) }
        ensures none { OnErr result (created_of self.new ≡ None) }
        ensures input { input_of self.new ≡ input_of self.old }
        ensures cause { HasCause self.old.faults self.new.faults result }
    {
        self.created = None;
        let created = count_fault(&mut self.faults, self.files.create(name))?;
        self.created = Some(created);
        Ok(())
    }

    fn write(&mut self, bytes: &[u8]) -> Result<(), IoFailed>
        ensures calls { OnTold (created_of self.old) (created_of self.new) (λ before now. OnTold (F.Output.writes before) (F.Output.writes now) (WritesThrough bytes.now result)) }
        ensures name { OnTold (created_of self.old) (created_of self.new) (λ before now. F.Output.name now ≡ F.Output.name before) }
        ensures idle { created_of self.old ≡ None → IsOk result × (self.new.faults ≡ self.old.faults) }
        ensures files { files_of self.new ≡ files_of self.old }
        ensures input { input_of self.new ≡ input_of self.old }
        ensures cause { HasCause self.old.faults self.new.faults result }
    {
        let Some(created) = &mut self.created else {
            return Ok(());
        };
        count_fault(&mut self.faults, write_through(created, bytes))
    }

    fn finish(&mut self) -> Result<(), IoFailed>
        ensures call { IfSome (created_of self.old) (λ created. OnTold (F.calls (files_of self.old)) (F.calls (files_of self.new)) (λ before now. now ≡ closes (F.Output.name created) (is_ok result) ∷ before)) }
        ensures idle { created_of self.old ≡ None → IsOk result × (self.new.faults ≡ self.old.faults) × (files_of self.new ≡ files_of self.old) }
        ensures none { created_of self.new ≡ None }
        ensures input { input_of self.new ≡ input_of self.old }
        ensures cause { HasCause self.old.faults self.new.faults result }
    {
        let Some(created) = self.created.take() else {
            return Ok(());
        };
        count_fault(&mut self.faults, self.files.close(created))
    }
}
