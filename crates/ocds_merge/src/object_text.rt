//! Reads and writes the members of an object in the object's text, one after another.
ghost use Rattle.std.specs.Prelude.{◌≡◌, ◌≢◌, ℕ, List, [], ◌∷◌, ◌++◌, true, false, MatchOption, MatchBool, IfOk, ⊤};
ghost use Rattle.serde_json.specs.Data.{Data, Members};
ghost use Rattle.serde_json.specs.Written.{members_text};
ghost use Rattle.std.specs.Ordering.{nat_cmp};
ghost use Rattle.std.specs.Cmp.Lexicographic.{slice_cmp};
ghost use Rattle.ocds_merge.specs.Inside.Readable.{MembersFrom, MembersRead, NextMember};
ghost use Rattle.ocds_merge.specs.Inside.Scan.{IsPlain};
ghost use Rattle.ocds_merge.specs.Inside.Splice.{EndsBefore, no_comma, StandAt, AllAbove, StartsFrom, StartsWith, Passed};

use crate::readable::{
    Remaining, after_comma_if, is_in_turn, passed_name, skipped, skipped_members,
};
use crate::scan::after_byte;
use crate::unspliced::Unspliced;
use crate::writes::copy_span;
use std::cmp::Ordering;

/// A member in the text of an object.
#[derive(Clone, Copy)]
pub(crate) struct Member<'a> {
    pub(crate) name: &'a [u8],
    // The text from the opening quote of the name on.
    whole: &'a [u8],
    // The text from the value on.
    pub(crate) value: &'a [u8],
}

/// The text without a comma at its front.
pub(crate) fn after_comma(text: &[u8]) -> &[u8]
    ensures { result.now ≡ no_comma text.now }
{
    match text.split_first() {
        Some((b',', rest)) => rest,
        _ => text,
    }
}

/// The next member, or `None` at the object's end. The text before it isn't checked.
pub(crate) fn next_member(text: &[u8]) -> Result<Option<Member<'_>>, Unspliced>
    ensures { IfOk result (λ found. MatchOption found ((rest : List ℕ) × (no_comma text.now ≡ 125 ∷ rest))
        (λ m. (no_comma text.now ≡ m.whole.now) × (m.whole.now ≡ 34 ∷ (m.name.now ++ 34 ∷ 58 ∷ m.value.now)) × IsPlain m.name.now)) }
{
    let whole = after_comma(text);
    if let Some(_rest) = after_byte(whole, b'}') {
        return Ok(None);
    }
    match passed_name(whole) {
        Some((name, value)) => Ok(Some(Member { name, whole, value })),
        None => Err(Unspliced::Unfit),
    }
}

/// The next member, or `None` at the object's end. A comma must come first if another member is before it, and the names must rise.
pub(crate) fn next_in_turn<'a>(left: Remaining<'a>) -> Result<Option<Member<'a>>, Unspliced>
    ensures finds { IfOk result (λ found. MatchOption found ((rest : List ℕ) × (no_comma left.entry.text.now ≡ 125 ∷ rest))
        (λ m. (no_comma left.entry.text.now ≡ m.whole.now) × (m.whole.now ≡ 34 ∷ (m.name.now ++ 34 ∷ 58 ∷ m.value.now)) × IsPlain m.name.now)) }
    ensures reads { IfOk result (λ found. MatchOption found ⊤
        (λ m. NextMember left.entry.text.now left.entry.later left.entry.last.now m.name.now m.value.now)) }
{
    if let Some(_rest) = after_byte(left.text, b'}') {
        return Ok(None);
    }
    let Some(whole) = after_comma_if(left.later, left.text) else {
        return Err(Unspliced::Unfit);
    };
    let Some((name, value)) = passed_name(whole) else {
        return Err(Unspliced::Unfit);
    };
    if !is_in_turn(left.later, left.last, name) {
        return Err(Unspliced::Unfit);
    }
    Ok(Some(Member { name, whole, value }))
}

/// Whether a name comes after another.
fn is_above(name: &str, other: &[u8]) -> bool
    ensures { MatchBool result (slice_cmp nat_cmp name.now other.now ≡ Ordering.Greater) (slice_cmp nat_cmp name.now other.now ≢ Ordering.Greater) }
{
    match name.as_bytes().cmp(other) {
        Ordering::Greater => true,
        Ordering::Less => false,
        Ordering::Equal => false,
    }
}

/// Copies the old members whose names come before this one.
pub(crate) fn copy_below<'a>(
    name: &str,
    from: Remaining<'a>,
    later: bool,
    depth: usize,
    out: &mut Vec<u8>,
) -> Result<(Remaining<'a>, bool), Unspliced>
    ensures reads { IfOk result (λ p. MembersRead from.entry.text.now from.entry.later from.entry.last.now p.0.text.now p.0.later p.0.last.now depth) }
    ensures copies { IfOk result (λ p. (d : Data) (ms ts : Members) (rest : List ℕ) → StandAt from.entry.text.now ts rest → AllAbove name.now ms
        → (done : Passed name.now d ms ts rest out.old.items later p.0.text.now out.new.items p.1) × StartsFrom name.now done.others) }
{
    let mut left = from;
    let mut later = later;
    while let Some(member) = next_in_turn(left)? {
        if !is_above(name, member.name) {
            return Ok((left, later));
        }
        let rest = skipped(member.value, depth)?;
        copy_span(member.whole, rest, later, out)?;
        left = Remaining {
            text: rest,
            later: true,
            last: member.name,
        };
        later = true;
    }
    Ok((left, later))
}

/// Whether a comma goes before the rest of an object.
fn has_comma(later: bool, text: &[u8]) -> bool
    ensures ends { (rest : List ℕ) → text.now ≡ 125 ∷ rest → result ≡ false }
    ensures goes_on { (c : ℕ) (rest : List ℕ) → text.now ≡ c ∷ rest → c ≢ 125 → result ≡ later }
{
    match text.first() {
        Some(b'}') => false,
        _ => later,
    }
}

/// Copies the remaining members, and closes the object.
pub(crate) fn copy_rest<'a>(
    left: Remaining<'a>,
    later: bool,
    depth: usize,
    out: &mut Vec<u8>,
) -> Result<&'a [u8], Unspliced>
    ensures reads { IfOk result (λ rest. MembersFrom left.entry.text.now left.entry.later left.entry.last.now rest.now depth) }
    ensures copies { IfOk result (λ after. (ts : Members) (rest : List ℕ) → StandAt left.entry.text.now ts rest → EndsBefore rest
        → (after.now ≡ rest) × (out.new.items ≡ out.old.items ++ members_text later ts)) }
{
    let whole = after_comma(left.text);
    let rest = skipped_members(left, depth)?;
    copy_span(whole, rest, has_comma(later, whole), out)?;
    Ok(rest)
}

/// The old member of this name, if there is one. The members before it must be copied already.
pub(crate) fn old_member<'a>(
    left: Remaining<'a>,
    name: &str,
) -> Result<Option<Member<'a>>, Unspliced>
    ensures reads { IfOk result (λ found. MatchOption found ⊤
        (λ m. NextMember left.entry.text.now left.entry.later left.entry.last.now m.name.now m.value.now)) }
    ensures finds { IfOk result (λ found. (ts : Members) (rest : List ℕ) → StandAt left.entry.text.now ts rest → StartsFrom name.now ts
        → MatchOption found (AllAbove name.now ts) (λ m. StartsWith name.now m.value.now ts rest)) }
{
    let Some(member) = next_in_turn(left)? else {
        return Ok(None);
    };
    if member.name == name.as_bytes() {
        Ok(Some(member))
    } else {
        Ok(None)
    }
}
