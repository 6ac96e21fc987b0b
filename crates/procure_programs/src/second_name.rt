//! The second name of an office's file.
ghost use Rattle.std.specs.Prelude.{◌≡◌, IfOk, string_bytes};
ghost use Rattle.procure_programs.specs.Placing.{second_name_of};

use std::alloc::{AllocError, Global};
use std::marker::Model;
use std::string::String;

/// The name under which a new file is written before it gets its path, and which it loses then. Only `of` makes one, so a call that takes a second name
/// touches no file that an office is known by.
#[derive(Drop)]
pub struct SecondName {
    text: String,
}

impl Model for SecondName {
    ghost use Rattle.std.specs.Prelude.{List, ℕ, string_bytes};

    ghost Value = { List ℕ };

    ghost view = { λ s. string_bytes s.text };
}

impl SecondName {
    /// The second name of the file at this path: the path, and an ending.
    pub fn of(alloc: Global, path: &str) -> Result<SecondName, AllocError>
        ensures { IfOk result (λ name. name ≡ second_name_of path.now) }
    {
        let mut text = String::from_str(alloc, path)?;
        text.push_str("-procure-new")?;
        Ok(SecondName { text })
    }

    /// Its text.
    pub fn as_str(&self) -> &str
        ensures { result.now ≡ self.now }
    {
        self.text.as_str()
    }
}
