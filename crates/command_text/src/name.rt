//! Names of files.

ghost use Rattle.std.specs.Prelude.{◌≡◌, IfOk, IsTrue};
ghost use Rattle.command_text.specs.FileNames.{is_name};

use std::alloc::{AllocError, Global};
use std::marker::Model;

/// The name of a file of the host: 1 to 200 visible ASCII characters.
#[derive(Debug, Drop)]
pub struct Name {
    text: String,
}

impl Model for Name {
    ghost use Rattle.std.specs.Prelude.{List, ℕ, IsTrue, string_bytes};
    ghost use Rattle.command_text.specs.FileNames.{is_name};

    ghost Value = { List ℕ };

    ghost view = { λ name. string_bytes name.text };

    ghost invariant = { λ name. IsTrue (is_name (string_bytes name.text)) };
}

impl Name {
    // The name with these characters.
    pub(crate) fn new(alloc: Global, text: &str) -> Result<Self, AllocError>
        requires { IsTrue (is_name text.now) }
        ensures { IfOk result (λ name. name ≡ text.now) }
    {
        Ok(Name {
            text: String::from_str(alloc, text)?,
        })
    }

    /// Its characters.
    pub fn as_str(&self) -> &str
        ensures text { result.now ≡ self.now }
        ensures name { IsTrue (is_name self.now) }
    {
        &self.text
    }
}
