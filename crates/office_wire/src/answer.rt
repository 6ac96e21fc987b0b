//! A response.
ghost use Rattle.std.specs.Prelude.{◌≡◌};

use crate::short::ShortText;
use std::marker::Model;

/// A response: bytes that were built, a short text that took no memory, or a constant text.
#[derive(Drop)]
pub struct Answer {
    built: Option<Vec<u8>>,
    short: Option<ShortText>,
    constant: &'static [u8],
}

impl Model for Answer {
    ghost use Rattle.std.specs.Prelude.{ℕ, List, option_map};
    ghost use Rattle.office_wire.specs.Responders.{answer_text};

    ghost Value = { List ℕ };

    ghost view = { λ s. answer_text (option_map (λ v. v.items) s.built) s.short s.constant.now };
}

impl Answer {
    /// A response that takes no memory.
    pub fn constant(text: &'static [u8]) -> Answer
        ensures { result ≡ text.now }
    {
        Answer {
            built: None,
            short: None,
            constant: text,
        }
    }

    /// A short response. It takes no memory.
    pub fn short(text: ShortText) -> Answer
        ensures { result ≡ text }
    {
        Answer {
            built: None,
            short: Some(text),
            constant: &[],
        }
    }

    /// A response that was built.
    pub fn built(text: Vec<u8>) -> Answer
        ensures { result ≡ text.items }
    {
        Answer {
            built: Some(text),
            short: None,
            constant: &[],
        }
    }

    /// The bytes of the response.
    pub fn bytes(&self) -> &[u8]
        ensures { result.now ≡ self.now }
    {
        match &self.built {
            Some(text) => text,
            None => match &self.short {
                Some(text) => text.bytes(),
                None => self.constant,
            },
        }
    }
}
