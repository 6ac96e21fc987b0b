//! Checks that a text is the compact text of a value that is read back from it, without making a tree.
ghost use Rattle.std.specs.Prelude.{◌≡◌, ◌≤◌, ◌<◌, ◌^◌, ℕ, List, ◌∷◌, ◌++◌, [], false, length, take, slice_index, decimal, IsTrue, IfOk, MatchBool, MatchOption, Some, ⊤};
ghost use Rattle.std.specs.Ordering.{nat_cmp};
ghost use Rattle.std.specs.Cmp.Lexicographic.{slice_cmp};
ghost use Rattle.std.specs.Char.{digit_value};
ghost use Rattle.std.specs.Str.Parse.{AllDigits};
ghost use Rattle.json.specs.Print.{escape, escape_byte, quoted};
ghost use Rattle.serde_json.specs.Read.{read};
ghost use Rattle.serde_json.specs.Written.{comma_if};
ghost use Rattle.ocds_merge.specs.Stored.{IsWrittenObject};
ghost use Rattle.ocds_merge.specs.Inside.Readable.{Passed, PassedItems, MembersFrom};
ghost use Rattle.ocds_merge.specs.Inside.Scan.{scan, between, IsPlain};
ghost use Rattle.ocds_merge.specs.Inside.Splice.{EndsBefore};

use crate::scan::{after_byte, after_plain, plain_string};
use crate::unspliced::Unspliced;
use std::cmp::Ordering;

/// The deepest nesting of a text, in levels; `Value::from_str` reads no deeper.
pub(crate) const MAX_DEPTH: usize = 127;

/// The largest number of digits that always fits 64 bits.
const MAX_DIGITS: usize = 19;

/// The remaining members of an object and its closing bracket, at the front of a text.
#[derive(Clone, Copy)]
pub(crate) struct Remaining<'a> {
    pub(crate) text: &'a [u8],
    // Whether there is a member before, so that a comma must come first.
    pub(crate) later: bool,
    // The name of that member. The next name must come after it.
    pub(crate) last: &'a [u8],
}

/// All members of an object; the text begins after its opening bracket.
pub(crate) fn all_members(text: &[u8]) -> Remaining<'_>
    ensures from { result.text.now ≡ text.now }
    ensures first { result.later ≡ false }
{
    Remaining {
        text,
        later: false,
        last: b"",
    }
}

/// Whether a backslash and this byte are the escape of some byte.
fn is_escape(letter: u8) -> bool
    ensures { IsTrue result → (x : ℕ) × (escape_byte x ≡ 92 ∷ letter ∷ []) }
{
    match letter {
        b'"' => true,
        b'\\' => true,
        b'b' => true,
        b'f' => true,
        b'n' => true,
        b'r' => true,
        b't' => true,
        _ => false,
    }
}

/// The text after a string without numeric escapes; the given text begins after the opening quote.
fn passed_string(text: &[u8]) -> Option<&[u8]>
    ensures { MatchOption result ⊤ (λ rest. (s : List ℕ) × (text.now ≡ escape s ++ 34 ∷ rest.now)) }
{
    let mut left = after_plain(text);
    while let Some((first, rest)) = left.split_first() {
        if *first == b'"' {
            return Some(rest);
        }
        if *first != b'\\' {
            return None;
        }
        let (letter, rest) = rest.split_first()?;
        if !is_escape(*letter) {
            return None;
        }
        left = after_plain(rest);
    }
    None
}

fn is_digit(byte: u8) -> bool
    ensures { MatchBool result (digit_value byte < 10) ⊤ }
{
    if byte < b'0' {
        return false;
    }
    byte <= b'9'
}

/// The number of digits at the front of a text.
fn digit_count(text: &[u8]) -> usize
    ensures within { result ≤ length text.now }
    ensures digits { AllDigits 10 (take result text.now) }
{
    for (at, byte) in text.iter().enumerate() {
        if !is_digit(*byte) {
            return at;
        }
    }
    text.len()
}

/// Whether a numeral of this many digits begins with a zero and has others.
fn has_leading_zero(text: &[u8], count: usize) -> bool
    requires some { 0 < count }
    requires within { count ≤ length text.now }
    ensures { MatchBool result ⊤ (slice_index text.now 0 ≡ 48 → count ≡ 1) }
{
    if text[0] != b'0' {
        return false;
    }
    count > 1
}

/// The text after an integer that surely fits 64 bits and has no leading zero.
fn passed_number(text: &[u8]) -> Option<&[u8]>
    ensures { MatchOption result ⊤ (λ rest. (n : ℕ) × (n < 2 ^ 64) × (text.now ≡ decimal n ++ rest.now)) }
{
    let count = digit_count(text);
    if count == 0 {
        return None;
    }
    if count > MAX_DIGITS {
        return None;
    }
    if has_leading_zero(text, count) {
        return None;
    }
    Some(&text[count..])
}

fn after_word<'a>(text: &'a [u8], word: &str) -> Option<&'a [u8]>
    ensures { MatchOption result ⊤ (λ rest. text.now ≡ word.now ++ rest.now) }
{
    let rest = text.strip_prefix(word.as_bytes())?;
    Some(rest)
}

/// The text after a value whose arrays and objects nest at most `depth` deep. Strings come first, since most values are strings.
#[cycle(passing)]
fn passed_value(text: &[u8], depth: usize) -> Option<&[u8]>
    ensures { MatchOption result ⊤ (λ rest. Passed text.now rest.now depth) }
{
    match after_byte(text, b'"') {
        Some(inside) => Some(passed_string(inside)?),
        None => Some(passed_other(text, depth)?),
    }
}

/// The text after a value that is no string.
#[cycle(passing)]
fn passed_other(text: &[u8], depth: usize) -> Option<&[u8]>
    ensures { MatchOption result ⊤ (λ rest. Passed text.now rest.now depth) }
{
    let (first, rest) = text.split_first()?;
    match *first {
        b'{' => {
            if depth == 0 {
                return None;
            }
            Some(passed_members(all_members(rest), depth - 1)?)
        }
        b'[' => {
            if depth == 0 {
                return None;
            }
            Some(passed_items(rest, depth - 1)?)
        }
        b't' => Some(after_word(rest, "rue")?),
        b'f' => Some(after_word(rest, "alse")?),
        b'n' => Some(after_word(rest, "ull")?),
        _ => Some(passed_number(text)?),
    }
}

/// The text after an array; the given text begins after its opening bracket.
#[cycle(passing)]
fn passed_items(text: &[u8], depth: usize) -> Option<&[u8]>
    ensures { MatchOption result ⊤ (λ rest. PassedItems text.now rest.now depth) }
{
    let mut left = text;
    let mut later = false;
    // An array has no more items than bytes.
    for _turn in 0..text.len() {
        if let Some(rest) = after_byte(left, b']') {
            return Some(rest);
        }
        let item = after_comma_if(later, left)?;
        left = passed_value(item, depth)?;
        later = true;
    }
    None
}

/// The text after an object, from some of its members on.
#[cycle(passing)]
pub(crate) fn passed_members<'a>(from: Remaining<'a>, depth: usize) -> Option<&'a [u8]>
    ensures { MatchOption result ⊤ (λ rest. MembersFrom from.entry.text.now from.entry.later from.entry.last.now rest.now depth) }
{
    let mut left = from.text;
    let mut later = from.later;
    let mut last = from.last;
    // An object has no more members than bytes.
    for _turn in 0..from.text.len() {
        if let Some(rest) = after_byte(left, b'}') {
            return Some(rest);
        }
        let (name, value) = passed_name(after_comma_if(later, left)?)?;
        if !is_in_turn(later, last, name) {
            return None;
        }
        left = passed_value(value, depth)?;
        later = true;
        last = name;
    }
    None
}

/// The text after a comma, which must be there if something is before it.
pub(crate) fn after_comma_if(later: bool, text: &[u8]) -> Option<&[u8]>
    ensures { MatchOption result ⊤ (λ rest. text.now ≡ comma_if later ++ rest.now) }
{
    if later {
        after_byte(text, b',')
    } else {
        Some(text)
    }
}

/// A name without escapes, and the text after its colon.
pub(crate) fn passed_name(text: &[u8]) -> Option<(&[u8], &[u8])>
    ensures written { MatchOption result ⊤ (λ p. text.now ≡ quoted p.0.now ++ 58 ∷ p.1.now) }
    ensures plain { MatchOption result ⊤ (λ p. (text.now ≡ 34 ∷ (p.0.now ++ 34 ∷ 58 ∷ p.1.now)) × IsPlain p.0.now) }
{
    let inside = after_byte(text, b'"')?;
    let (name, after) = plain_string(inside)?;
    let value = after_byte(after, b':')?;
    Some((name, value))
}

/// Whether a name comes after the last one, if there is a last one.
pub(crate) fn is_in_turn(later: bool, last: &[u8], name: &[u8]) -> bool
    ensures { MatchBool result (IsTrue later → slice_cmp nat_cmp name.now last.now ≡ Ordering.Greater) ⊤ }
{
    if !later {
        return true;
    }
    match name.cmp(last) {
        Ordering::Greater => true,
        Ordering::Less => false,
        Ordering::Equal => false,
    }
}

pub(crate) fn is_end(text: &[u8]) -> bool
    ensures { IsTrue result → text.now ≡ [] }
{
    text.is_empty()
}

/// Whether a value can end before this text.
fn ends_value(text: &[u8]) -> bool
    ensures { IsTrue result → EndsBefore text.now }
{
    match text.first() {
        Some(b',' | b'}' | b']') => true,
        Some(_) => false,
        None => true,
    }
}

/// The text after the value that begins a text, if the value ends there.
pub(crate) fn skipped(text: &[u8], depth: usize) -> Result<&[u8], Unspliced>
    ensures reads { IfOk result (λ rest. Passed text.now rest.now depth) }
    ensures scans { IfOk result (λ rest. rest.now ≡ scan 0 between text.now) }
    ensures shorter { IfOk result (λ rest. length rest.now ≤ length text.now) }
{
    let Some(rest) = passed_value(text, depth) else {
        return Err(Unspliced::Unfit);
    };
    if !ends_value(rest) {
        return Err(Unspliced::Unfit);
    }
    Ok(rest)
}

/// The text after an object, from some of its members on, if the object ends there.
pub(crate) fn skipped_members<'a>(from: Remaining<'a>, depth: usize) -> Result<&'a [u8], Unspliced>
    ensures reads { IfOk result (λ rest. MembersFrom from.entry.text.now from.entry.later from.entry.last.now rest.now depth) }
    ensures ends { IfOk result (λ rest. EndsBefore rest.now) }
{
    let Some(rest) = passed_members(from, depth) else {
        return Err(Unspliced::Unfit);
    };
    if !ends_value(rest) {
        return Err(Unspliced::Unfit);
    }
    Ok(rest)
}

/// Whether a text is surely an object as the office writes it: its numbers are natural numbers, and its names are in order and have no escapes. Other texts
/// may be such objects too.
pub(crate) fn is_plain_object(text: &[u8]) -> bool
    ensures { IsTrue result → IsWrittenObject text.now }
{
    let Some(inside) = after_byte(text, b'{') else {
        return false;
    };
    match passed_members(all_members(inside), MAX_DEPTH - 1) {
        Some(rest) => is_end(rest),
        None => false,
    }
}
