//! The lines with which the program reports its faults.
use office_values::refusal::Refusal;
use procure_config::fault::ProgramFault;
use procure_config::settings::{SettingName, SettingsFault};
use procure_config::telling::tell;
use std::alloc::Global;
use std::io::Cursor;

// Faults of settings, each with its line.
const SETTINGS_FAULTS: &[(SettingsFault, &str)] = &[
    (
        SettingsFault::Member(SettingName::ClerkKey),
        "procure: settings clerk_key",
    ),
    (SettingsFault::NotToml, "procure: settings"),
    (SettingsFault::NoMemory, "procure: Unavailable"),
];

/// Whether a fault is reported in this line, with status 1.
pub(crate) fn is_told(alloc: Global, fault: &ProgramFault, line: &str) -> bool {
    let mut text = Vec::new(alloc);
    let (status, is_whole) = tell(&mut text, fault);
    match text.as_slice().strip_prefix(line.as_bytes()) {
        Some(end) => is_whole && status == 1 && end == b"\n".as_slice(),
        None => false,
    }
}

#[test]
fn tells_each_fault(rt: HostRuntime) {
    let alloc = rt.alloc();
    let member = ProgramFault::Settings(Some(SettingName::BuyerId));
    let refused = ProgramFault::Refused(Refusal::NotOpened);
    assert!(rt; is_told(alloc, &ProgramFault::Settings(None), "procure: settings"));
    assert!(rt; is_told(alloc, &member, "procure: settings buyer.id"));
    assert!(rt; is_told(alloc, &ProgramFault::Store, "procure: store"));
    assert!(rt; is_told(alloc, &ProgramFault::Input, "procure: input"));
    assert!(rt; is_told(alloc, &ProgramFault::Output, "procure: output"));
    assert!(rt; is_told(alloc, &refused, "procure: NotOpened"));
}

fn settings_faults_are_told(alloc: Global) -> bool {
    for (fault, line) in SETTINGS_FAULTS {
        if !is_told(alloc, &ProgramFault::from(*fault), line) {
            return false;
        }
    }
    true
}

#[test]
fn tells_the_settings_faults(rt: HostRuntime) {
    assert!(rt; settings_faults_are_told(rt.alloc()));
}

#[test]
fn says_where_not_all_was_told(rt: HostRuntime) {
    let mut full = Cursor::new([0u8; 8]);
    let (status, is_whole) = tell(&mut full, &ProgramFault::Store);
    assert!(rt; status == 1 && !is_whole);
}
