//! Notices that are named on the command line.
use crate::faults::is_told;
use procure_config::notice::notice_named;
use std::alloc::Global;

// Texts that don't name a notice.
const NO_NOTICES: &[&str] = &[
    "",
    "N 1",
    "N/1",
    "\u{e9}",
    "a23456789012345678901234567890123",
];

#[test]
fn names_a_notice(rt: HostRuntime) {
    assert!(rt;
        matches!(notice_named("N-1_a.b"), Ok(notice) if notice.as_bytes() == b"N-1_a.b".as_slice())
    );
}

fn is_no_notice(alloc: Global, text: &str) -> bool {
    match notice_named(text) {
        Ok(_) => false,
        Err(fault) => is_told(alloc, &fault, "procure: NoRoute"),
    }
}

fn none_is_a_notice(alloc: Global) -> bool {
    for text in NO_NOTICES {
        if !is_no_notice(alloc, text) {
            return false;
        }
    }
    true
}

#[test]
fn names_no_notice(rt: HostRuntime) {
    assert!(rt; none_is_a_notice(rt.alloc()));
}
