//! Packages of releases and of records.
ghost use Rattle.std.specs.Prelude.{◌≡◌, ◌-◌, IfOk, map};
ghost use Rattle.serde_json.specs.View.{view};
ghost use Rattle.ocds_merge.specs.Compile.{date_of as date_in, last_date as last_date_in};
ghost use Rattle.ocds_release.specs.Objects.{text, texts};
ghost use Rattle.ocds_release.specs.Packages.{package_of as package_with, record_of as record_with, release_package as releases_in, record_package as record_in};

use crate::object::{Object, list_of_one, object_with};
use crate::part::Part;
use ocds_merge::NoMemory;
use office_values::id::Id;
use office_values::settings::{Publisher, Settings};
use office_values::text::TextLine;
use serde_json::Value;
use std::alloc::{AllocError, Global};

fn date_of(release: &Value) -> &str
    ensures { result.now ≡ date_in (view release.now) }
{
    match release.get("date") {
        Some(date) => match date.as_str() {
            Some(text) => text,
            None => "",
        },
        None => "",
    }
}

fn last_date(releases: &[Value]) -> &str
    ensures { result.now ≡ last_date_in (map view releases.now) }
{
    if releases.is_empty() {
        ""
    } else {
        date_of(&releases[releases.len() - 1])
    }
}

fn copies(alloc: Global, values: &[Value]) -> Result<Vec<Value>, AllocError>
    ensures { IfOk result (λ list. map view list.items ≡ map view values.now) }
{
    let mut list = Vec::new(alloc);
    for value in values {
        list.push(value.clone()?)?;
    }
    Ok(list)
}

fn lines_of(alloc: Global, lines: &[TextLine]) -> Result<Vec<Value>, AllocError>
    ensures { IfOk result (λ list. map view list.items ≡ map text lines.now) }
{
    let mut list = Vec::new(alloc);
    for line in lines {
        list.push(Value::try_from_str(alloc, line.as_str())?)?;
    }
    Ok(list)
}

/// The extensions that the releases use.
pub(crate) fn extensions_of(alloc: Global, publisher: &Publisher) -> Result<Value, AllocError>
    ensures { IfOk result (λ v. view v ≡ texts publisher.now.extensions) }
{
    Ok(Value::Array(lines_of(alloc, publisher.extensions.as_slice())?))
}

/// A kind of package: the name of its list, and the route by which it is asked for.
#[derive(Clone, Copy)]
struct Kind<'a> {
    name: &'a str,
    route: &'a str,
}

// A package with its date and its list.
fn package_of<'a>(
    alloc: Global,
    publisher: &'a Publisher,
    notice: &'a Id,
    published: &'a str,
    kind: &'a Kind<'a>,
    list: Value,
) -> Result<Value, AllocError>
    ensures { IfOk result (λ pack. view pack ≡ package_with publisher.now notice.now published.now kind.now.route.now kind.now.name.now (view list)) }
{
    let shown = object_with(alloc, &[("name", Part::Text(publisher.name.as_str()))])?;
    let mut package = Object::new(alloc);
    package.put_value(alloc, "extensions", extensions_of(alloc, publisher)?)?;
    package.put(
        alloc,
        &[
            ("publishedDate", Part::Text(published)),
            (
                "uri",
                Part::Address(publisher.base.as_str(), *notice, kind.route),
            ),
            ("version", Part::Text("1.1")),
        ],
    )?;
    package.put_value(alloc, "publisher", shown)?;
    package.put_value(alloc, kind.name, list)?;
    Ok(package.into_value())
}

/// The release package of a notice (OCDS 1.1, release package), with its releases in sequence. It is meant for a list that isn't empty, of objects that each
/// have a text `date`. A last release without one counts as one with an empty date, and an empty list of releases is left out.
pub fn release_package(
    alloc: Global,
    settings: &Settings,
    notice: &Id,
    releases: &[Value],
) -> Result<Value, NoMemory>
    ensures { IfOk result (λ pack. view pack ≡ releases_in settings.now.publisher notice.now (map view releases.now)) }
{
    let list = Value::Array(copies(alloc, releases)?);
    let kind = Kind {
        name: "releases",
        route: "/releases",
    };
    Ok(package_of(
        alloc,
        &settings.publisher,
        notice,
        last_date(releases),
        &kind,
        list,
    )?)
}

// The record of a notice: its releases, and the compiled release.
fn record_of(
    alloc: Global,
    publisher: &Publisher,
    notice: &Id,
    releases: &[Value],
    compiled: &Value,
) -> Result<Value, AllocError>
    ensures { IfOk result (λ entry. view entry ≡ record_with publisher.now notice.now (map view releases.now) (view compiled.now)) }
{
    let mut record = Object::new(alloc);
    record.put(alloc, &[("ocid", Part::Ocid(publisher.prefix, *notice))])?;
    record.put_value(alloc, "compiledRelease", compiled.clone()?)?;
    record.put_value(alloc, "releases", Value::Array(copies(alloc, releases)?))?;
    Ok(record.into_value())
}

/// The record package of a notice (OCDS 1.1, record package), with its releases in sequence and the compiled release. An empty list, and a last release
/// without a date, have the effect described at `release_package`.
pub fn record_package(
    alloc: Global,
    settings: &Settings,
    notice: &Id,
    releases: &[Value],
    compiled: &Value,
) -> Result<Value, NoMemory>
    ensures { IfOk result (λ pack. view pack ≡ record_in settings.now.publisher notice.now (map view releases.now) (view compiled.now)) }
{
    let record = record_of(alloc, &settings.publisher, notice, releases, compiled)?;
    let list = list_of_one(alloc, record)?;
    let kind = Kind {
        name: "records",
        route: "/record",
    };
    Ok(package_of(
        alloc,
        &settings.publisher,
        notice,
        last_date(releases),
        &kind,
        list,
    )?)
}
