//! Merges of releases: at once, one by one, and as text.
use ocds_merge::{merge_all, merge_into, merge_into_text, merge_to_text};
use serde_json::Value;
use std::alloc::Global;
use std::test::Fail;

const TENDERER: &str = r#"{"p":[{"id":"A","roles":["tenderer"]}]}"#;

const NO_PARTIES: &str = r#"{"p":null}"#;

const OTHER: &str = r#"{"p":[{"id":"B"}]}"#;

const SUPPLIER: &str = r#"{"p":[{"id":"A","roles":["tenderer","supplier"]}]}"#;

/// Columns of up to four values, each with their merge.
const MERGES: [(&[&str], &str); 14] = [
    (&[], "null"),
    (&[r#"{"a":null}"#], "{}"),
    (
        &[TENDERER, OTHER, SUPPLIER],
        r#"{"p":[{"id":"A","roles":["tenderer","supplier"]},{"id":"B"}]}"#,
    ),
    (
        &[TENDERER, NO_PARTIES, OTHER, SUPPLIER],
        r#"{"p":[{"id":"B"},{"id":"A","roles":["tenderer","supplier"]}]}"#,
    ),
    (
        &[
            r#"{"a":[{"id":"x","v":1}]}"#,
            r#"{"a":[1]}"#,
            r#"{"a":[{"id":"y"}]}"#,
        ],
        r#"{"a":[{"id":"y"}]}"#,
    ),
    (
        &[r#"{"a":{"b":1}}"#, r#"{"a":{"b":null,"c":2}}"#],
        r#"{"a":{"c":2}}"#,
    ),
    // A null member removes the old member, and nothing else.
    (&[r#"{"p":1,"q":2}"#, r#"{"p":null}"#], r#"{"q":2}"#),
    // The same id twice in one list, also if the item is new.
    (
        &[r#"[{"id":"A","v":1,"w":1},{"id":"B"},{"id":"A","v":2}]"#],
        r#"[{"id":"A","v":2,"w":1},{"id":"B"}]"#,
    ),
    // A null inside an array that isn't a list of ids stays.
    (
        &[r#"{"a":["x"]}"#, r#"{"a":[null,"y",null]}"#],
        r#"{"a":[null,"y",null]}"#,
    ),
    // A literal between two objects, and an empty array between two lists of ids.
    (&[r#"{"a":1}"#, "true", r#"{"b":2}"#], r#"{"b":2}"#),
    (
        &[r#"[{"id":"A"}]"#, "[]", r#"[{"id":"B"}]"#],
        r#"[{"id":"B"}]"#,
    ),
    (&[r#"[{"id":"A"}]"#, "[]"], "[]"),
    // Ids that are numbers don't make a list of ids.
    (&[r#"[{"id":1,"v":1}]"#, r#"[{"id":1}]"#], r#"[{"id":1}]"#),
    (&[r#"{"a":1}"#, "null"], "null"),
];

pub(crate) fn parsed(alloc: Global, texts: &[&str]) -> Option<Vec<Value>> {
    let mut values = Vec::new(alloc);
    for text in texts {
        values.push(Value::from_str(alloc, text).ok()?).ok()?;
    }
    Some(values)
}

/// Whether the value is printed as this text.
pub(crate) fn is_printed(alloc: Global, value: &Value, want: &str) -> bool {
    match value.to_string(alloc) {
        Ok(text) => text.as_str() == want,
        Err(_) => false,
    }
}

/// Whether this is the text that stores the merge.
pub(crate) fn is_kept(alloc: Global, merge: &Value, want: &str) -> bool {
    match merge_to_text(alloc, merge) {
        Ok(text) => text.as_str() == want,
        Err(_) => false,
    }
}

fn merges_at_once(alloc: Global, values: &[Value], want: &str) -> bool {
    match merge_all(alloc, values) {
        Ok(merge) => is_printed(alloc, &merge, want),
        Err(_) => false,
    }
}

pub(crate) fn merges_one_by_one(alloc: Global, values: &[Value], want: &str) -> bool {
    let mut merge = Value::Null;
    for value in values {
        if merge_into(alloc, &mut merge, value).is_err() {
            return false;
        }
    }
    is_kept(alloc, &merge, want)
}

/// The text that stores the merge, after each value is merged into the text of the earlier ones.
pub(crate) fn merged_as_text(alloc: Global, values: &[Value]) -> Option<String> {
    let mut stored = String::from_str(alloc, "null").ok()?;
    for value in values {
        stored = merge_into_text(alloc, &stored, value).ok()?;
    }
    Some(stored)
}

fn merges_as_text(alloc: Global, values: &[Value], want: &str) -> bool {
    match merged_as_text(alloc, values) {
        Some(text) => text.as_str() == want,
        None => false,
    }
}

fn merges_to(alloc: Global, texts: &[&str], want: &str) -> bool {
    match parsed(alloc, texts) {
        Some(values) => {
            merges_at_once(alloc, &values, want)
                && merges_one_by_one(alloc, &values, want)
                && merges_as_text(alloc, &values, want)
        }
        None => false,
    }
}

/// Whether each column has the expected merge: at once, one by one, and as text.
pub(crate) fn merges_each(alloc: Global, rows: &[(&[&str], &str)]) -> bool {
    for (texts, want) in rows {
        if !merges_to(alloc, texts, want) {
            return false;
        }
    }
    true
}

#[test]
fn merges_columns(rt: HostRuntime) {
    assert!(rt; merges_each(rt.alloc(), &MERGES));
}

/// Lists so long that their items are found by an index of their ids. Each item stays in its place, and new items follow. A new item that comes twice follows
/// once.
const LONG_LISTS: [(&[&str], &str); 1] = [(
    &[
        r#"[{"id":"I10","v":1},{"id":"I11","v":1},{"id":"I12","v":1},{"id":"I13","v":1},{"id":"I14","v":1},{"id":"I15","v":1},{"id":"I16","v":1},{"id":"I17","v":1},{"id":"I18","v":1},{"id":"I19","v":1},{"id":"I20","v":1},{"id":"I21","v":1},{"id":"I22","v":1},{"id":"I23","v":1},{"id":"I24","v":1},{"id":"I25","v":1},{"id":"I26","v":1},{"id":"I27","v":1},{"id":"I28","v":1},{"id":"I29","v":1},{"id":"I30","v":1},{"id":"I31","v":1},{"id":"I32","v":1},{"id":"I33","v":1},{"id":"I34","v":1},{"id":"I35","v":1},{"id":"I36","v":1},{"id":"I37","v":1},{"id":"I38","v":1},{"id":"I39","v":1},{"id":"K"}]"#,
        r#"[{"id":"I39","w":39},{"id":"I38","w":38},{"id":"I37","w":37},{"id":"I36","w":36},{"id":"I35","w":35},{"id":"I34","w":34},{"id":"I33","w":33},{"id":"I32","w":32},{"id":"I31","w":31},{"id":"I30","w":30},{"id":"I29","w":29},{"id":"I28","w":28},{"id":"I27","w":27},{"id":"I26","w":26},{"id":"I25","w":25},{"id":"I24","w":24},{"id":"I23","w":23},{"id":"I22","w":22},{"id":"I21","w":21},{"id":"I20","w":20},{"id":"I19","w":19},{"id":"I18","w":18},{"id":"I17","w":17},{"id":"I16","w":16},{"id":"I15","w":15},{"id":"I14","w":14},{"id":"I13","w":13},{"id":"I12","w":12},{"id":"I11","w":11},{"id":"I10","w":10},{"id":"J","v":3},{"id":"J","w":4}]"#,
    ],
    r#"[{"id":"I10","v":1,"w":10},{"id":"I11","v":1,"w":11},{"id":"I12","v":1,"w":12},{"id":"I13","v":1,"w":13},{"id":"I14","v":1,"w":14},{"id":"I15","v":1,"w":15},{"id":"I16","v":1,"w":16},{"id":"I17","v":1,"w":17},{"id":"I18","v":1,"w":18},{"id":"I19","v":1,"w":19},{"id":"I20","v":1,"w":20},{"id":"I21","v":1,"w":21},{"id":"I22","v":1,"w":22},{"id":"I23","v":1,"w":23},{"id":"I24","v":1,"w":24},{"id":"I25","v":1,"w":25},{"id":"I26","v":1,"w":26},{"id":"I27","v":1,"w":27},{"id":"I28","v":1,"w":28},{"id":"I29","v":1,"w":29},{"id":"I30","v":1,"w":30},{"id":"I31","v":1,"w":31},{"id":"I32","v":1,"w":32},{"id":"I33","v":1,"w":33},{"id":"I34","v":1,"w":34},{"id":"I35","v":1,"w":35},{"id":"I36","v":1,"w":36},{"id":"I37","v":1,"w":37},{"id":"I38","v":1,"w":38},{"id":"I39","v":1,"w":39},{"id":"K"},{"id":"J","v":3,"w":4}]"#,
)];

#[test]
fn merges_long_lists(rt: HostRuntime) {
    assert!(rt; merges_each(rt.alloc(), &LONG_LISTS));
}

/// Whether a merge leaves the expected value in the target: the old one if it was refused memory.
fn leaves(alloc: Global, target: &mut Value, value: &Value) -> bool {
    let is_merged = merge_into(alloc, target, value).is_ok();
    let want = if is_merged {
        r#"{"q":2}"#
    } else {
        r#"{"p":1,"q":2}"#
    };
    is_printed(alloc, target, want)
}

// `rt try --test --fail-alloc N` refuses the Nth allocation; `tests/merge_refused.sh` does so for each.
#[test]
fn refused_memory_leaves_the_target(rt: HostRuntime) -> Result<(), Fail> {
    let alloc = rt.alloc();
    let mut target = Value::from_str(alloc, r#"{"p":1,"q":2}"#)?;
    let value = Value::from_str(alloc, r#"{"p":null}"#)?;
    assert!(rt; leaves(alloc, &mut target, &value));
    Ok(())
}

// `{"a":{"a": .. {NAME:1} .. }`, 100 members deep.
fn nested(alloc: Global, name: &str) -> Result<String, Fail> {
    let mut text = String::new(alloc);
    for _ in 0..99 {
        text.push_str(r#"{"a":"#)?;
    }
    text.push_str("{\"")?;
    text.push_str(name)?;
    text.push_str("\":1")?;
    for _ in 0..100 {
        text.push_str("}")?;
    }
    Ok(text)
}

// The value 99 members deep, where each member is named `a`.
fn deepest(merge: &Value) -> Option<&Value> {
    let mut place = merge;
    for _ in 0..99 {
        place = place.get("a")?;
    }
    Some(place)
}

fn is_merged_deep(alloc: Global, merge: &Value) -> bool {
    match deepest(merge) {
        Some(place) => is_printed(alloc, place, r#"{"b":1,"c":1}"#),
        None => false,
    }
}

fn merges_deep(alloc: Global, values: &[Value]) -> bool {
    match merge_all(alloc, values) {
        Ok(merge) => is_merged_deep(alloc, &merge),
        Err(_) => false,
    }
}

fn merges_nested(alloc: Global, texts: &[&str]) -> bool {
    match parsed(alloc, texts) {
        Some(values) => merges_deep(alloc, &values),
        None => false,
    }
}

#[test]
fn merges_a_hundred_members_deep(rt: HostRuntime) -> Result<(), Fail> {
    let alloc = rt.alloc();
    let first = nested(alloc, "b")?;
    let second = nested(alloc, "c")?;
    assert!(rt; merges_nested(alloc, &[first.as_str(), second.as_str()]));
    Ok(())
}
