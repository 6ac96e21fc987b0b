//! Merges in stored texts, for each form that a text can have.
use crate::merges::merges_each;

/// Forms that a merge meets in the stored text, and forms that it leaves to a tree.
const TEXT_FORMS: [(&[&str], &str); 11] = [
    // New names before, between and after old ones, beside names that are removed or stay.
    (
        &[
            r#"{"b":1,"d":{"x":[1,{"y":"}"}],"z":"\"]"},"f":3}"#,
            r#"{"a":0,"b":null,"c":2,"d":{"w":1,"z":4},"g":5}"#,
        ],
        r#"{"a":0,"c":2,"d":{"w":1,"x":[1,{"y":"}"}],"z":4},"f":3,"g":5}"#,
    ),
    // A known item, an unknown one and a new one, inside an item of a list.
    (
        &[
            r#"{"c":[{"id":"1","t":[{"id":"x","v":1},{"id":"y","v":2}]},{"id":"2","t":[]}]}"#,
            r#"{"c":[{"id":"2","s":1},{"id":"1","t":[{"id":"z","v":3},{"id":"y","v":4}]},{"id":"3"}]}"#,
        ],
        r#"{"c":[{"id":"1","t":[{"id":"x","v":1},{"id":"y","v":4},{"id":"z","v":3}]},{"id":"2","s":1,"t":[]},{"id":"3"}]}"#,
    ),
    // Names with which another name begins.
    (
        &[
            r#"{"ab":1,"abc":{"a":2},"b":3}"#,
            r#"{"a":0,"abc":{"":4,"ab":5},"abd":6}"#,
        ],
        r#"{"a":0,"ab":1,"abc":{"":4,"a":2,"ab":5},"abd":6,"b":3}"#,
    ),
    // An empty object and an empty list that are filled; a list that an object replaces, and the reverse.
    (
        &[
            r#"{"a":{},"b":[],"c":[{"id":"1"}],"d":{"e":1}}"#,
            r#"{"a":{"x":1},"b":[{"id":"1"}],"c":{"f":2},"d":[{"id":"2"}]}"#,
        ],
        r#"{"a":{"x":1},"b":[{"id":"1"}],"c":{"f":2},"d":[{"id":"2"}]}"#,
    ),
    // Escapes, brackets and commas in texts that stay.
    (
        &[
            r#"{"a":"x\"y\\","b":"{[,]}:","c":"\n\t\r\b\f","d":1}"#,
            r#"{"d":"\"","e":"\\"}"#,
        ],
        r#"{"a":"x\"y\\","b":"{[,]}:","c":"\n\t\r\b\f","d":"\"","e":"\\"}"#,
    ),
    // A name with a backslash, and an id with one.
    (
        &[r#"{"a\"b":1,"c":2}"#, r#"{"a\"b":null,"c":3,"d":4}"#],
        r#"{"c":3,"d":4}"#,
    ),
    (
        &[
            r#"{"l":[{"id":"a\\b","v":1},{"id":"c"}]}"#,
            r#"{"l":[{"id":"c","w":1},{"id":"a\\b","w":2}]}"#,
        ],
        r#"{"l":[{"id":"a\\b","v":1,"w":2},{"id":"c","w":1}]}"#,
    ),
    // An old item without an id.
    (
        &[
            r#"{"l":[{"id":"1","v":1},{"v":2}]}"#,
            r#"{"l":[{"id":"1","w":3}]}"#,
        ],
        r#"{"l":[{"id":"1","w":3}]}"#,
    ),
    // An id that a release has twice, once of a known item and once of a new one.
    (
        &[
            r#"{"l":[{"id":"1","v":1}]}"#,
            r#"{"l":[{"id":"1","w":1},{"id":"2","v":1},{"id":"1","w":2},{"id":"2","w":3}]}"#,
        ],
        r#"{"l":[{"id":"1","v":1,"w":2},{"id":"2","v":1,"w":3}]}"#,
    ),
    // Numbers at the bounds of their types, and a text with an escape.
    (
        &[
            r#"{"a":-1,"b":18446744073709551615,"c":"\u0001"}"#,
            r#"{"b":-9223372036854775808,"d":0}"#,
        ],
        r#"{"a":-1,"b":-9223372036854775808,"c":"\u0001","d":0}"#,
    ),
    // Values that aren't objects: another kind is merged into an object, and an object into another kind.
    (
        &[r#"{"a":1}"#, "[1]", r#"{"b":[2,null]}"#],
        r#"{"b":[2,null]}"#,
    ),
];

#[test]
fn merges_forms_of_text(rt: HostRuntime) {
    assert!(rt; merges_each(rt.alloc(), &TEXT_FORMS));
}
