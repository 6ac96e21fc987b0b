//! The settings of the office in transcripts.
use office_values::id::Id;
use office_values::settings::{Buyer, Currency, Extensions, Language, Prefix, Publisher, Settings};
use office_values::text::TextLine;
use std::alloc::Global;

// The SHA-256 of `abc` (FIPS 180-4, its first worked example).
const CLERK_KEY: [u8; 32] = [
    0xba, 0x78, 0x16, 0xbf, 0x8f, 0x01, 0xcf, 0xea, 0x41, 0x41, 0x40, 0xde, 0x5d, 0xae, 0x22, 0x23,
    0xb0, 0x03, 0x61, 0xa3, 0x96, 0x17, 0x7a, 0x9c, 0xb4, 0x10, 0xff, 0x61, 0xf2, 0x00, 0x15, 0xad,
];

// A line of text. None if memory is too small.
fn text(alloc: Global, text: &str) -> Option<TextLine> {
    match TextLine::read(alloc, text.as_bytes()) {
        Ok(line) => line,
        Err(_) => None,
    }
}

fn buyer(alloc: Global) -> Option<Buyer> {
    Some(Buyer {
        id: Id::read(b"city")?,
        name: text(alloc, "City Office")?,
    })
}

/// The settings, with the clerk's key `abc`. None if memory is too small.
pub fn settings(alloc: Global) -> Option<Settings> {
    let publisher = Publisher {
        prefix: Prefix::read(b"ocds-a1b2c3")?,
        currency: Currency::read(b"EUR")?,
        language: Language::read(b"en")?,
        base: text(alloc, "http://127.0.0.1:8080")?,
        name: text(alloc, "City Office")?,
        extensions: Extensions::from_vec(Vec::new(alloc))?,
        buyer: buyer(alloc)?,
    };
    Some(Settings {
        publisher,
        clerk_key: CLERK_KEY,
    })
}
