//! Texts that are written line by line and field by field.
ghost use Rattle.std.specs.Prelude.{◌≡◌, ◌++◌, [], IfOk, decimal};
ghost use Rattle.tender_papers.specs.Lines.{ended, tabbed};

use itoa::Buffer;
use office_values::text::Bytes;
use std::alloc::{AllocError, Global};
use std::marker::Model;

/// A text that is written field by field.
#[derive(Drop)]
pub(crate) struct Lines {
    bytes: Vec<u8>,
}

impl Model for Lines {
    ghost use Rattle.std.specs.Prelude.{List, ℕ};

    ghost Value = { List ℕ };

    ghost view = { λ l. l.bytes.items };
}

impl Lines {
    /// An empty text with memory for `head` bytes, and for `rows` rows of `row` bytes each.
    pub(crate) fn with_room(
        alloc: Global,
        head: usize,
        rows: usize,
        row: usize,
    ) -> Result<Lines, AllocError>
        ensures { IfOk result (λ lines. lines ≡ []) }
    {
        let room = rows.saturating_mul(row).saturating_add(head);
        Ok(Lines {
            bytes: Vec::with_capacity(alloc, room)?,
        })
    }

    /// Appends a field that isn't the last of its line.
    pub(crate) fn field(&mut self, text: &[u8]) -> Result<(), AllocError>
        ensures { IfOk result (λ _. self.new ≡ self.old ++ tabbed text.now) }
    {
        self.bytes.extend_from_slice(text)?;
        self.bytes.extend_from_slice(b"\t")?;
        Ok(())
    }

    /// Appends the last field of a line.
    pub(crate) fn last(&mut self, text: &[u8]) -> Result<(), AllocError>
        ensures { IfOk result (λ _. self.new ≡ self.old ++ ended text.now) }
    {
        self.bytes.extend_from_slice(text)?;
        self.bytes.extend_from_slice(b"\n")?;
        Ok(())
    }

    /// Appends a number that isn't the last field of its line.
    pub(crate) fn number(&mut self, number: u64) -> Result<(), AllocError>
        ensures { IfOk result (λ _. self.new ≡ self.old ++ tabbed (decimal number)) }
    {
        self.field(Buffer::new().format(number).as_bytes())
    }

    /// Appends a number that is the last field of its line.
    pub(crate) fn last_number(&mut self, number: u64) -> Result<(), AllocError>
        ensures { IfOk result (λ _. self.new ≡ self.old ++ ended (decimal number)) }
    {
        self.last(Buffer::new().format(number).as_bytes())
    }

    /// The bytes of the text. It allocates no memory.
    pub(crate) fn into_bytes(self) -> Bytes
        ensures { result ≡ self }
    {
        Bytes::from_vec(self.bytes)
    }
}
