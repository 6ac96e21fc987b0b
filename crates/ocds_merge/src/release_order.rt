ghost use Rattle.std.specs.Prelude.{◌≡◌, ◌-◌, map, length, get_or, IfOk};
ghost use Rattle.std.specs.Ordering.{nat_cmp};
ghost use Rattle.std.specs.Cmp.Lexicographic.{slice_cmp};
ghost use Rattle.serde_json.specs.Data.{null};
ghost use Rattle.serde_json.specs.View.{view};
ghost use Rattle.ocds_merge.specs.Compile.{date_of as date_in, date_order};

use serde_json::Value;
use std::alloc::{AllocError, Global};
use std::cmp::Ordering;

fn date_of(value: &Value) -> &str
    ensures { result.now ≡ date_in (view value.now) }
{
    match value.get("date") {
        Some(date) => match date.as_str() {
            Some(text) => text,
            None => "",
        },
        None => "",
    }
}

/// The date of the last of these releases.
pub(crate) fn last_date<'a>(order: &[&'a Value]) -> &'a str
    ensures { result.now ≡ date_in (get_or (map (λ r. view r.now) order.now) (length order.now - 1) null) }
{
    if order.is_empty() {
        ""
    } else {
        date_of(order[order.len() - 1])
    }
}

fn compare_dates(one: &Value, other: &Value) -> Ordering
    ensures { result ≡ slice_cmp nat_cmp (date_in (view one.now)) (date_in (view other.now)) }
{
    date_of(one).cmp(date_of(other))
}

fn borrowed<'a>(alloc: Global, releases: &'a [Value]) -> Result<Vec<&'a Value>, AllocError>
    ensures { IfOk result (λ all. map (λ r. view r.now) all.items ≡ map view releases.now) }
{
    let mut all = Vec::new(alloc);
    for release in releases {
        all.push(release)?;
    }
    Ok(all)
}

/// The releases in order of their dates, equal dates in list order.
///
/// If the releases are already in order, it only compares each with the next one.
pub(crate) fn in_date_order<'a>(
    alloc: Global,
    releases: &'a [Value],
) -> Result<Vec<&'a Value>, AllocError>
    ensures { IfOk result (λ order. map (λ r. view r.now) order.items
        ≡ date_order (map view releases.now)) }
{
    let mut order = borrowed(alloc, releases)?;
    order.sort_by(|one, other| compare_dates(one, other))?;
    Ok(order)
}
