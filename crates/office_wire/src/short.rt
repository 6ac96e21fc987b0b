//! A text that takes no memory.
ghost use Rattle.std.specs.Prelude.{◌≡◌, ◌≤◌, [], length};
ghost use Rattle.office_wire.specs.Short.{FitsBehind};

use arrayvec::ArrayVec;
use std::marker::Model;

/// The most bytes that such a text may have.
pub const SHORT_ROOM: usize = 288;

/// A text of at most 288 bytes, stored in place.
#[derive(Drop)]
pub struct ShortText {
    bytes: ArrayVec<u8, SHORT_ROOM>,
}

impl Model for ShortText {
    ghost use Rattle.std.specs.Prelude.{ℕ, List};

    ghost Value = { List ℕ };

    ghost view = { λ s. s.bytes.items };
}

impl ShortText {
    /// An empty text.
    pub fn new() -> ShortText
        ensures { result ≡ [] }
    {
        ShortText {
            bytes: ArrayVec::new(),
        }
    }

    /// Appends a text, if both fit into 288 bytes.
    pub fn put(&mut self, text: &[u8])
        ensures { FitsBehind self.old text.now self.new }
    {
        let _is_put = self.bytes.try_extend_from_slice(text);
    }

    /// The bytes of the text.
    pub fn bytes(&self) -> &[u8]
        ensures bytes { result.now ≡ self.now }
        ensures most { length result.now ≤ 288 }
    {
        self.bytes.as_slice()
    }
}
