//! Texts that store merges and releases: which of them are read, continued and compiled, and which are refused.
use crate::merges::is_kept;
use ocds_merge::{
    StoredFault, compiled_text, continue_text, is_written_release, merge_from_text,
    merge_into_text, written_merge, written_release,
};
use serde_json::Value;
use std::alloc::Global;
use std::test::Fail;

/// Whether a text is read as a merge of the process `o`, and the merge is stored as this text.
fn is_read_back(alloc: Global, kept: &str) -> bool {
    match written_merge(alloc, "o", kept) {
        Ok(merge) => is_kept(alloc, &merge, kept),
        Err(_) => false,
    }
}

#[test]
fn reads_stored_merges(rt: HostRuntime) {
    assert!(rt; is_read_back(rt.alloc(), r#"{"a":[{"id":"x"}],"ocid":"o"}"#));
    assert!(rt; is_read_back(rt.alloc(), r#"{"a":-1,"b":"\u0001","c":"\n","ocid":"o"}"#));
}

/// Whether a text is reported to be a release of the process `o`, and read as one.
fn is_release(alloc: Global, text: &str) -> bool {
    matches!(is_written_release(alloc, "o", text), Ok(true))
        && written_release(alloc, "o", text).is_ok()
}

// The second text has a sign and the third an escape in its date, so that a tree is made of each. Each is tried twice, because a test may refuse one allocation.
#[test]
fn knows_releases_as_the_office_writes_them(rt: HostRuntime) {
    let alloc = rt.alloc();
    for text in [
        r#"{"date":"d","ocid":"o"}"#,
        r#"{"a":-1,"date":"d","ocid":"o"}"#,
        r#"{"date":"\n","ocid":"o"}"#,
    ] {
        assert!(rt; is_release(alloc, text) || is_release(alloc, text));
    }
}

/// Whether a text is reported to be no release of the process `o`, and isn't read as one.
fn is_no_release(alloc: Global, text: &str) -> bool {
    matches!(is_written_release(alloc, "o", text), Ok(false))
        && matches!(
            written_release(alloc, "o", text),
            Err(StoredFault::Unreadable)
        )
}

/// Whether a text is no release of the process `o`, and is neither read as a merge of it nor continued nor compiled.
fn is_unwritten(alloc: Global, text: &str, value: &Value) -> bool {
    is_no_release(alloc, text)
        && matches!(
            written_merge(alloc, "o", text),
            Err(StoredFault::Unreadable)
        )
        && matches!(
            continue_text(alloc, "o", text, value),
            Err(StoredFault::Unreadable)
        )
        && matches!(
            compiled_text(alloc, "o", "d", text),
            Err(StoredFault::Unreadable)
        )
}

// Tries twice, because a test may refuse one allocation.
#[test]
fn a_release_has_a_date(rt: HostRuntime) {
    let alloc = rt.alloc();
    for text in [
        r#"{"ocid":"o"}"#,
        r#"{"date":1,"ocid":"o"}"#,
        r#"{"date":-1,"ocid":"o"}"#,
        r#"{"date":["d"],"ocid":"o"}"#,
    ] {
        assert!(rt; is_no_release(alloc, text) || is_no_release(alloc, text));
    }
}

// Tries twice, because a test may refuse one allocation.
fn are_unwritten(alloc: Global, texts: &[&str], value: &Value) -> bool {
    for text in texts {
        if !is_unwritten(alloc, text, value) && !is_unwritten(alloc, text, value) {
            return false;
        }
    }
    true
}

#[test]
fn tells_objects_from_other_values(rt: HostRuntime) -> Result<(), Fail> {
    let value = Value::from_str(rt.alloc(), r#"{"a":3}"#)?;
    assert!(rt; are_unwritten(rt.alloc(), &["null", "1", "[]", "[{}]", r#""{}""#], &value));
    Ok(())
}

/// Texts of another process or of none, each as the office would write it.
const OF_OTHERS: [&str; 6] = [
    r#"{"date":"d"}"#,
    r#"{"date":"d","ocid":"oo"}"#,
    r#"{"date":"d","ocid":""}"#,
    r#"{"date":"d","ocid":1}"#,
    r#"{"a":-1,"date":"d","ocid":"p"}"#,
    r#"{"date":"d","tender":{"ocid":"o"}}"#,
];

#[test]
fn tells_the_texts_of_other_processes(rt: HostRuntime) -> Result<(), Fail> {
    let value = Value::from_str(rt.alloc(), r#"{"a":3}"#)?;
    assert!(rt; are_unwritten(rt.alloc(), &OF_OTHERS, &value));
    Ok(())
}

fn continues(alloc: Global, stored: &str, value: &Value, want: &str) -> bool {
    match continue_text(alloc, "o", stored, value) {
        Ok(text) => text.as_str() == want,
        Err(_) => false,
    }
}

// The second text has a sign, so that a tree is made of it. Each is tried twice, because a test may refuse one allocation.
#[test]
fn continues_objects_as_the_office_writes_them(rt: HostRuntime) -> Result<(), Fail> {
    let alloc = rt.alloc();
    let value = Value::from_str(alloc, r#"{"a":3}"#)?;
    for (stored, want) in [
        (r#"{"b":1,"ocid":"o"}"#, r#"{"a":3,"b":1,"ocid":"o"}"#),
        (
            r#"{"a":2,"b":-1,"ocid":"o"}"#,
            r#"{"a":3,"b":-1,"ocid":"o"}"#,
        ),
    ] {
        assert!(rt;
            continues(alloc, stored, &value, want) || continues(alloc, stored, &value, want)
        );
    }
    Ok(())
}

/// Texts that store a merge in another form than the office's, each with its merge with one more value. Their names have no order, come twice, or have an
/// escape; or they have spaces or a fraction.
const OTHER_FORMS: [(&str, &str); 6] = [
    (
        r#"{"b":1,"a":2,"date":"d","ocid":"o"}"#,
        r#"{"a":3,"b":1,"date":"d","ocid":"o"}"#,
    ),
    (
        r#"{"c":{"e":1,"d":2},"a":2,"date":"d","ocid":"o"}"#,
        r#"{"a":3,"c":{"d":2,"e":1},"date":"d","ocid":"o"}"#,
    ),
    (
        r#"{"a":2,"a":1,"date":"d","ocid":"o"}"#,
        r#"{"a":3,"date":"d","ocid":"o"}"#,
    ),
    (
        r#"{"\u0061":2,"date":"d","ocid":"o"}"#,
        r#"{"a":3,"date":"d","ocid":"o"}"#,
    ),
    (
        " { \"b\" : 1, \"date\":\"d\",\"ocid\":\"o\" }\n",
        r#"{"a":3,"b":1,"date":"d","ocid":"o"}"#,
    ),
    (
        r#"{"b":0.5,"date":"d","ocid":"o"}"#,
        r#"{"a":3,"b":0.5,"date":"d","ocid":"o"}"#,
    ),
];

// No text of another form is taken for one of the office's.
fn becomes(alloc: Global, stored: &str, value: &Value, want: &str) -> bool {
    match merge_into_text(alloc, stored, value) {
        Ok(text) => is_unwritten(alloc, stored, value) && text.as_str() == want,
        Err(_) => false,
    }
}

// Tries twice, because a test may refuse one allocation.
fn become_so(alloc: Global, value: &Value) -> bool {
    for (stored, want) in &OTHER_FORMS {
        if !becomes(alloc, stored, value, want) && !becomes(alloc, stored, value, want) {
            return false;
        }
    }
    true
}

#[test]
fn carries_on_merges_in_any_form(rt: HostRuntime) -> Result<(), Fail> {
    let value = Value::from_str(rt.alloc(), r#"{"a":3}"#)?;
    assert!(rt; become_so(rt.alloc(), &value));
    Ok(())
}

/// Texts that aren't JSON, some of them in parts that the value doesn't touch.
const NO_JSON: [&str; 16] = [
    "",
    " ",
    "{",
    "nul",
    "nullnull",
    r#"{"a":1} {"a":2}"#,
    "[1,]",
    r#"{"a":1,"b":[1,],"c":2}"#,
    r#"{"a":1,"b":{"c":tru}}"#,
    r#"{"a":1,"b":"\x"}"#,
    r#"{"a":1,"b":{"c":1}"#,
    r#"{"a":1,"b":01}"#,
    r#"{"a":1,"b":1e999}"#,
    r#"{"a":1,,"b":1}"#,
    r#"{"a":1 "b":1}"#,
    r#"{"a":[{"id":"1"},],"b":1}"#,
];

fn keeps_none(alloc: Global, text: &str, value: &Value) -> bool {
    is_unwritten(alloc, text, value)
        && matches!(merge_from_text(alloc, text), Err(StoredFault::Unreadable))
        && matches!(
            merge_into_text(alloc, text, value),
            Err(StoredFault::Unreadable)
        )
}

fn keep_none(alloc: Global, value: &Value) -> bool {
    for text in &NO_JSON {
        if !keeps_none(alloc, text, value) {
            return false;
        }
    }
    true
}

// A text that isn't JSON stores no merge. This isn't the merge of no values, and it isn't reported as too little memory.
#[test]
fn refuses_texts_that_are_no_json(rt: HostRuntime) -> Result<(), Fail> {
    let value = Value::from_str(rt.alloc(), r#"{"a":1}"#)?;
    assert!(rt; keep_none(rt.alloc(), &value));
    Ok(())
}
