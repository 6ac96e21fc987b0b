//! Settings whose texts are known.
use office_values::settings::{Currency, Extensions, Language, Prefix};
use office_values::text::TextLine;
use std::alloc::{AllocError, Global};

// Texts that aren't prefixes.
const NO_PREFIXES: &[&str] = &[
    "",
    "ocds-a1b2c",
    "ocds-a1b2c3d",
    "ocds_a1b2c3",
    "OCDS-a1b2c3",
    "ocds-a1b2c-",
    "ocds-a1b2\u{e9}",
];

// Texts that aren't currencies.
const NO_CURRENCIES: &[&str] = &["", "EU", "EURO", "eur", "EU1", "EU "];

// Texts that aren't languages.
const NO_LANGUAGES: &[&str] = &["", "e", "eng", "EN", "e1"];

fn none_is_a_prefix() -> bool {
    for text in NO_PREFIXES {
        if Prefix::read(text.as_bytes()).is_some() {
            return false;
        }
    }
    true
}

#[test]
fn reads_a_prefix(rt: HostRuntime) {
    assert!(rt;
        matches!(Prefix::read(b"ocds-a1B2c3"), Some(prefix) if prefix.as_str() == "ocds-a1B2c3")
    );
    assert!(rt; none_is_a_prefix());
}

fn none_is_a_currency() -> bool {
    for text in NO_CURRENCIES {
        if Currency::read(text.as_bytes()).is_some() {
            return false;
        }
    }
    true
}

#[test]
fn reads_a_currency(rt: HostRuntime) {
    assert!(rt; matches!(Currency::read(b"EUR"), Some(currency) if currency.as_str() == "EUR"));
    assert!(rt; none_is_a_currency());
}

fn none_is_a_language() -> bool {
    for text in NO_LANGUAGES {
        if Language::read(text.as_bytes()).is_some() {
            return false;
        }
    }
    true
}

#[test]
fn reads_a_language(rt: HostRuntime) {
    assert!(rt; matches!(Language::read(b"en"), Some(language) if language.as_str() == "en"));
    assert!(rt; none_is_a_language());
}

// The number of extensions that this many lines give. None if they are too many.
fn taken(alloc: Global, count: usize) -> Result<Option<usize>, AllocError> {
    let mut lines = Vec::new(alloc);
    for _ in 0..count {
        if let Some(line) = TextLine::read(alloc, b"lots")? {
            lines.push(line)?;
        }
    }
    match Extensions::from_vec(lines) {
        Some(extensions) => Ok(Some(extensions.as_slice().len())),
        None => Ok(None),
    }
}

#[test]
fn takes_ten_extensions(rt: HostRuntime) {
    let alloc = rt.alloc();
    assert!(rt; matches!(taken(alloc, 0), Ok(Some(0))));
    assert!(rt; matches!(taken(alloc, 10), Ok(Some(10))));
    assert!(rt; matches!(taken(alloc, 11), Ok(None)));
}
