//! JSON texts, as an office stores them.
ghost use Rattle.std.specs.Prelude.{◌≡◌, string_bytes};

use std::alloc::AllocError;
use std::marker::Model;

/// A JSON text. This type doesn't promise its form: the crates that write and read it do.
#[derive(Drop)]
pub struct JsonText {
    text: String,
}

impl Model for JsonText {
    ghost use Rattle.std.specs.Prelude.{List, ℕ, string_bytes};

    ghost Value = { List ℕ };

    ghost view = { λ t. string_bytes t.text };
}

impl JsonText {
    /// The value of this text. It allocates no memory.
    pub fn from_string(text: String) -> JsonText
        ensures { result ≡ string_bytes text }
    {
        JsonText { text }
    }

    /// The text, borrowed.
    pub fn as_str(&self) -> &str
        ensures { result.now ≡ self.now }
    {
        self.text.as_str()
    }
}

impl Clone for JsonText {
    ghost is_clone = { λ a b. b ≡ a };

    fn clone(&self) -> Result<JsonText, AllocError> {
        Ok(JsonText {
            text: self.text.clone()?,
        })
    }
}
