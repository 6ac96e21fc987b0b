//! Files of settings.
use office_values::settings::Settings;
use office_values::text::TextLine;
use procure_config::settings::{SettingsFault, read_settings};
use std::alloc::{AllocError, Global};

// The members of the example settings, each with its place, its name and its value.
const TOP: &[(usize, &str, &str)] = &[
    (0, "prefix", "\"ocds-a1b2c3\""),
    (1, "currency", "\"EUR\""),
    (2, "language", "\"en\""),
    (3, "base", "\"http://127.0.0.1:8080\""),
    (4, "publisher", "\"City Office\""),
    (5, "extensions", "[]"),
    (
        6,
        "clerk_key",
        "\"ba7816bf8f01cfea414140de5dae2223b00361a396177a9cb410ff61f20015ad\"",
    ),
];

// The members of the buyer.
const BUYER: &[(usize, &str, &str)] = &[(7, "id", "\"city\""), (8, "name", "\"City Office\"")];

// A place, a faulty value there (or "" for none), and the member that the fault names.
const FAULTY: &[(usize, &str, &str)] = &[
    (0, "", "prefix"),
    (0, "\"ocds-a1b2c\"", "prefix"),
    (1, "\"eur\"", "currency"),
    (1, "978", "currency"),
    (2, "\"eng\"", "language"),
    (3, "\"\"", "base"),
    (4, "\"City\\tOffice\"", "publisher"),
    (5, "", "extensions"),
    (5, "\"lots\"", "extensions"),
    (5, "[\"lots\", 1]", "extensions"),
    (
        5,
        "[\"1\", \"2\", \"3\", \"4\", \"5\", \"6\", \"7\", \"8\", \"9\", \"10\", \"11\"]",
        "extensions",
    ),
    (6, "\"00\"", "clerk_key"),
    (
        6,
        "\"ga7816bf8f01cfea414140de5dae2223b00361a396177a9cb410ff61f20015ad\"",
        "clerk_key",
    ),
    (7, "\"the city\"", "buyer.id"),
    (8, "", "buyer.name"),
];

// Texts with several faulty members, each with the first of them.
const FIRST_FAULTY: &[(&[u8], &str)] = &[
    (b"", "prefix"),
    (b"buyer = 1\nprefix = \"ocds-a1b2c3\"", "currency"),
];

// Texts that aren't TOML.
const NO_TOML: &[&[u8]] = &[b"prefix = ", b"{}", b"prefix = \"\xff\"", b"a = 1\na = 2"];

fn push_member(text: &mut String, name: &str, value: &str) -> Result<(), AllocError> {
    if value.is_empty() {
        return Ok(());
    }
    text.push_str(name)?;
    text.push_str(" = ")?;
    text.push_str(value)?;
    text.push_str("\n")
}

// Appends members. The one at this place has another value, or is left out if that is empty.
fn push_members(
    text: &mut String,
    members: &[(usize, &str, &str)],
    place: usize,
    value: &str,
) -> Result<(), AllocError> {
    for (at, name, usual) in members {
        push_member(text, name, if *at == place { value } else { usual })?;
    }
    Ok(())
}

// Appends the example settings, except for the member at this place.
fn push_settings(text: &mut String, place: usize, value: &str) -> Result<(), AllocError> {
    push_members(text, TOP, place, value)?;
    text.push_str("other = 1\n[buyer]\n")?;
    push_members(text, BUYER, place, value)
}

fn are_lines(lines: &[TextLine], wanted: &[&str]) -> bool {
    match (lines, wanted) {
        ([], []) => true,
        ([first, second], [one, other]) => first.as_str() == *one && second.as_str() == *other,
        _ => false,
    }
}

// Whether these are the example settings, except for the extensions.
fn are_worked(settings: &Settings) -> bool {
    let publisher = &settings.publisher;
    publisher.prefix.as_str() == "ocds-a1b2c3"
        && publisher.currency.as_str() == "EUR"
        && publisher.language.as_str() == "en"
        && publisher.base.as_str() == "http://127.0.0.1:8080"
        && publisher.name.as_str() == "City Office"
        && settings.clerk_key[0] == 0xba
        && settings.clerk_key[31] == 0xad
        && publisher.buyer.id.as_str() == "city"
        && publisher.buyer.name.as_str() == "City Office"
}

// Whether the example settings with these extensions are read.
fn is_read(alloc: Global, extensions: &str, wanted: &[&str]) -> bool {
    let mut text = String::new(alloc);
    if push_settings(&mut text, 5, extensions).is_err() {
        return false;
    }
    match read_settings(alloc, text.as_bytes()) {
        Ok(settings) => {
            are_worked(&settings) && are_lines(settings.publisher.extensions.as_slice(), wanted)
        }
        Err(_) => false,
    }
}

#[test]
fn reads_settings(rt: HostRuntime) {
    assert!(rt; is_read(rt.alloc(), "[]", &[]));
}

#[test]
fn reads_extensions_in_order(rt: HostRuntime) {
    assert!(rt; is_read(rt.alloc(), "[\"a\", \"b\"]", &["a", "b"]));
}

// The fault of these settings, or None.
fn fault_of(alloc: Global, text: &[u8]) -> Option<SettingsFault> {
    match read_settings(alloc, text) {
        Ok(_) => None,
        Err(fault) => Some(fault),
    }
}

// Whether this member is named as faulty.
fn is_named(alloc: Global, text: &[u8], name: &str) -> bool {
    match fault_of(alloc, text) {
        Some(SettingsFault::Member(member)) => member.name() == name,
        _ => false,
    }
}

fn is_named_there(alloc: Global, place: usize, value: &str, name: &str) -> bool {
    let mut text = String::new(alloc);
    push_settings(&mut text, place, value).is_ok() && is_named(alloc, text.as_bytes(), name)
}

fn faulty_members_are_named(alloc: Global) -> bool {
    for (place, value, name) in FAULTY {
        if !is_named_there(alloc, *place, value, name) {
            return false;
        }
    }
    true
}

#[test]
fn names_the_faulty_member(rt: HostRuntime) {
    assert!(rt; faulty_members_are_named(rt.alloc()));
}

fn first_faulty_members_are_named(alloc: Global) -> bool {
    for (text, name) in FIRST_FAULTY {
        if !is_named(alloc, text, name) {
            return false;
        }
    }
    true
}

#[test]
fn names_the_first_faulty_member(rt: HostRuntime) {
    assert!(rt; first_faulty_members_are_named(rt.alloc()));
}

fn none_is_toml(alloc: Global) -> bool {
    for text in NO_TOML {
        if fault_of(alloc, text) != Some(SettingsFault::NotToml) {
            return false;
        }
    }
    true
}

#[test]
fn reads_toml_alone(rt: HostRuntime) {
    assert!(rt; none_is_toml(rt.alloc()));
}
