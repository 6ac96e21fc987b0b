//! Compiled releases: of releases, of merges, and of stored texts.
use crate::merges::{is_printed, merged_as_text, merges_one_by_one, parsed};
use ocds_merge::{compile, compiled_text, merge_from_text, with_compiled_head, without_head};
use serde_json::Value;
use std::alloc::Global;

const TENDER: &str =
    r#"{"date":"2026-01-05T09:00:00Z","id":"ocds-a1b2c3-N1-0001","ocid":"ocds-a1b2c3-N1","tag":["tender"],"tender":{"eligibilityCriteria":"any","id":"N1"}}"#;

const UPDATE: &str =
    r#"{"date":"2026-01-06T09:00:00Z","id":"ocds-a1b2c3-N1-0002","ocid":"ocds-a1b2c3-N1","tag":["tenderUpdate"],"tender":{"eligibilityCriteria":null}}"#;

const UPDATED: &str =
    r#"{"date":"2026-01-06T09:00:00Z","id":"ocds-a1b2c3-N1-2026-01-06T09:00:00Z","ocid":"ocds-a1b2c3-N1","tag":["compiled"],"tender":{"id":"N1"}}"#;

/// Releases, the OCID of their procurement, and their compiled release.
const COMPILED: [(&[&str], &str, &str); 3] = [
    (&[TENDER, UPDATE], "ocds-a1b2c3-N1", UPDATED),
    (&[UPDATE, TENDER], "ocds-a1b2c3-N1", UPDATED),
    // Of releases with equal dates, the later one in the list counts as the later one.
    (
        &[
            r#"{"date":"2026-01-05","a":1}"#,
            r#"{"date":"2026-01-04","a":2,"b":2}"#,
            r#"{"date":"2026-01-05","a":3}"#,
        ],
        "o",
        r#"{"a":3,"b":2,"date":"2026-01-05","id":"o-2026-01-05","tag":["compiled"]}"#,
    ),
];

fn compiles_values(alloc: Global, ocid: &str, releases: &[Value], want: &str) -> bool {
    match compile(alloc, ocid, releases) {
        Ok(compiled) => is_printed(alloc, &compiled, want),
        Err(_) => false,
    }
}

fn compiles_to(alloc: Global, texts: &[&str], ocid: &str, want: &str) -> bool {
    match parsed(alloc, texts) {
        Some(releases) => compiles_values(alloc, ocid, &releases, want),
        None => false,
    }
}

fn compiles_each(alloc: Global) -> bool {
    for (texts, ocid, want) in &COMPILED {
        if !compiles_to(alloc, texts, ocid, want) {
            return false;
        }
    }
    true
}

#[test]
fn compiles_releases(rt: HostRuntime) {
    assert!(rt; compiles_each(rt.alloc()));
}

const PUBLISHED: &str =
    r#"{"buyer":{"id":"B-city","name":"City Office"},"date":"2026-02-01T09:00:00Z","id":"ocds-a1b2c3-N1-0001","initiationType":"tender","language":"en","ocid":"ocds-a1b2c3-N1","parties":[{"id":"B-city","name":"City Office","roles":["buyer","procuringEntity"]}],"planning":{"budget":{"amount":{"amount":600,"currency":"EUR"}}},"tag":["planning","tender"],"tender":{"awardCriteria":"priceOnly","id":"N1","items":[{"description":"Paving","id":"L1/I1","quantity":3,"relatedLot":"L1"}],"lots":[{"id":"L1","status":"active","title":"North","value":{"amount":600,"currency":"EUR"}}],"procurementMethod":"open","procuringEntity":{"id":"B-city","name":"City Office"},"status":"active","submissionMethod":["electronicSubmission"],"tenderPeriod":{"endDate":"2026-03-01T12:00:00Z","startDate":"2026-02-01T09:00:00Z"},"title":"Road repair","value":{"amount":600,"currency":"EUR"}}}"#;

const AMENDED: &str =
    r#"{"buyer":{"id":"B-city","name":"City Office"},"date":"2026-02-10T09:00:00Z","id":"ocds-a1b2c3-N1-0002","initiationType":"tender","language":"en","ocid":"ocds-a1b2c3-N1","tag":["tenderAmendment"],"tender":{"amendments":[{"date":"2026-02-10T09:00:00Z","description":"Deadline moved from 2026-03-01T12:00:00Z to 2026-03-02T12:00:00Z","id":"0002","rationale":"More time"}],"id":"N1","tenderPeriod":{"endDate":"2026-03-02T12:00:00Z"}}}"#;

/// The releases so far of a notice that is published and amended, the date of the last one, and their compiled release.
const LIFE: [(&[&str], &str, &str); 2] = [
    (
        &[PUBLISHED],
        "2026-02-01T09:00:00Z",
        r#"{"buyer":{"id":"B-city","name":"City Office"},"date":"2026-02-01T09:00:00Z","id":"ocds-a1b2c3-N1-2026-02-01T09:00:00Z","initiationType":"tender","language":"en","ocid":"ocds-a1b2c3-N1","parties":[{"id":"B-city","name":"City Office","roles":["buyer","procuringEntity"]}],"planning":{"budget":{"amount":{"amount":600,"currency":"EUR"}}},"tag":["compiled"],"tender":{"awardCriteria":"priceOnly","id":"N1","items":[{"description":"Paving","id":"L1/I1","quantity":3,"relatedLot":"L1"}],"lots":[{"id":"L1","status":"active","title":"North","value":{"amount":600,"currency":"EUR"}}],"procurementMethod":"open","procuringEntity":{"id":"B-city","name":"City Office"},"status":"active","submissionMethod":["electronicSubmission"],"tenderPeriod":{"endDate":"2026-03-01T12:00:00Z","startDate":"2026-02-01T09:00:00Z"},"title":"Road repair","value":{"amount":600,"currency":"EUR"}}}"#,
    ),
    (
        &[PUBLISHED, AMENDED],
        "2026-02-10T09:00:00Z",
        r#"{"buyer":{"id":"B-city","name":"City Office"},"date":"2026-02-10T09:00:00Z","id":"ocds-a1b2c3-N1-2026-02-10T09:00:00Z","initiationType":"tender","language":"en","ocid":"ocds-a1b2c3-N1","parties":[{"id":"B-city","name":"City Office","roles":["buyer","procuringEntity"]}],"planning":{"budget":{"amount":{"amount":600,"currency":"EUR"}}},"tag":["compiled"],"tender":{"amendments":[{"date":"2026-02-10T09:00:00Z","description":"Deadline moved from 2026-03-01T12:00:00Z to 2026-03-02T12:00:00Z","id":"0002","rationale":"More time"}],"awardCriteria":"priceOnly","id":"N1","items":[{"description":"Paving","id":"L1/I1","quantity":3,"relatedLot":"L1"}],"lots":[{"id":"L1","status":"active","title":"North","value":{"amount":600,"currency":"EUR"}}],"procurementMethod":"open","procuringEntity":{"id":"B-city","name":"City Office"},"status":"active","submissionMethod":["electronicSubmission"],"tenderPeriod":{"endDate":"2026-03-02T12:00:00Z","startDate":"2026-02-01T09:00:00Z"},"title":"Road repair","value":{"amount":600,"currency":"EUR"}}}"#,
    ),
];

/// The releases without their heads.
fn bodies(alloc: Global, texts: &[&str]) -> Option<Vec<Value>> {
    let mut values = Vec::new(alloc);
    for text in texts {
        let release = Value::from_str(alloc, text).ok()?;
        values.push(without_head(release)).ok()?;
    }
    Some(values)
}

fn heads_to(alloc: Global, ocid: &str, date: &str, merge: Value, want: &str) -> bool {
    match with_compiled_head(alloc, ocid, date, merge) {
        Ok(compiled) => is_printed(alloc, &compiled, want),
        Err(_) => false,
    }
}

/// Whether the stored text gives this compiled release.
fn kept_compiles(alloc: Global, kept: &str, date: &str, want: &str) -> bool {
    match merge_from_text(alloc, kept) {
        Ok(merge) => heads_to(alloc, "ocds-a1b2c3-N1", date, merge, want),
        Err(_) => false,
    }
}

/// Whether the stored text gives the text of this compiled release.
fn text_compiles(alloc: Global, kept: &str, date: &str, want: &str) -> bool {
    match compiled_text(alloc, "ocds-a1b2c3-N1", date, kept) {
        Ok(text) => text.as_str() == want,
        Err(_) => false,
    }
}

/// Whether a merge of bodies that is stored as text and continued equals the merge that is made of them at once. It also gives this compiled release, as a tree
/// and as text.
fn carried_on_compiles(alloc: Global, values: &[Value], date: &str, want: &str) -> bool {
    match merged_as_text(alloc, values) {
        Some(kept) => {
            merges_one_by_one(alloc, values, &kept)
                && kept_compiles(alloc, &kept, date, want)
                && text_compiles(alloc, &kept, date, want)
        }
        None => false,
    }
}

fn bodies_compile(alloc: Global, texts: &[&str], date: &str, want: &str) -> bool {
    match bodies(alloc, texts) {
        Some(values) => carried_on_compiles(alloc, &values, date, want),
        None => false,
    }
}

fn life_compiles(alloc: Global) -> bool {
    for (texts, date, want) in &LIFE {
        let is_alike = bodies_compile(alloc, texts, date, want)
            && compiles_to(alloc, texts, "ocds-a1b2c3-N1", want);
        if !is_alike {
            return false;
        }
    }
    true
}

// A merge that is stored as text and continued gives the same compiled release as all releases. So does one that is made of them at once.
#[test]
fn kept_merges_compile_alike(rt: HostRuntime) {
    assert!(rt; life_compiles(rt.alloc()));
}

/// Whether a release without its head is this, and with the head of a compiled release that.
fn changes_head(alloc: Global, release: &str, bare: &str, want: &str) -> bool {
    match Value::from_str(alloc, release) {
        Ok(release) => {
            let body = without_head(release);
            is_printed(alloc, &body, bare) && heads_to(alloc, "o", "d", body, want)
        }
        Err(_) => false,
    }
}

#[test]
fn takes_heads_off_and_puts_them_on(rt: HostRuntime) {
    let release = r#"{"date":"d","id":"i","n":1,"tag":["tender"]}"#;
    let compiled = r#"{"date":"d","id":"o-d","n":1,"tag":["compiled"]}"#;
    assert!(rt; changes_head(rt.alloc(), release, r#"{"n":1}"#, compiled));
}
