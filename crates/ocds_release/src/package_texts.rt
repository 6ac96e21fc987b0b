//! Packages as texts, put together from the stored texts of releases: no release is read or written again.
ghost use Rattle.std.specs.Prelude.{◌≡◌, ◌∷◌, ◌++◌, [], List, ℕ, true, false, IfOk, OnOk};
ghost use Rattle.serde_json.specs.Data.{Data, Members};
ghost use Rattle.serde_json.specs.View.{view};
ghost use Rattle.serde_json.specs.Written.{compact_text, comma_if, members_text, has_float};
ghost use Rattle.json.specs.Print.{quoted};
ghost use Rattle.office_values.specs.Moments.{moment_text};
ghost use Rattle.office_base.specs.declared.records.ReleaseRow.{ReleaseRow as Kept};
ghost use Rattle.ocds_release.specs.Inside.Parts.{data_of};
ghost use Rattle.ocds_release.specs.Inside.Splicing.{member_text, first_members, head_members, tail_members, ordered_package, ordered_record};
ghost use Rattle.ocds_release.specs.KeptReleases.{AreKept, HasText};
ghost use Rattle.ocds_release.specs.Opened.{completed, moment_of_last};
ghost use Rattle.ocds_release.specs.Packages.{release_package as releases_in, record_package as record_in};

use crate::object::object_with;
use crate::packages::extensions_of;
use crate::part::{Part, value_of};
use ocds_merge::NoMemory;
use office_base::records::ReleaseRow;
use office_values::id::Id;
use office_values::moment::Moment;
use office_values::settings::Publisher;
use serde_json::Value;
use std::alloc::{AllocError, Global};
use std::marker::Model;

// Free bytes at the end of a package's text, so that the head of a response has place there.
const SPARE: usize = 256;

/// The text of a package, to which the releases of a notice are added one after another. It is one buffer. It takes no more memory while the releases, with a
/// comma each, have at most as many bytes as it was opened for.
#[derive(Drop)]
pub struct PackageText {
    text: Vec<u8>,
    behind: Vec<u8>,
    later: bool,
}

impl Model for PackageText {
    ghost use Rattle.ocds_release.specs.Opened.{Opened};

    ghost Value = { Opened };

    ghost view = { λ p. record { written = p.text.items; behind = p.behind.items; later = p.later } };
}

impl PackageText {
    /// Adds a release after the ones that were added.
    pub fn put(&mut self, release: &ReleaseRow) -> Result<(), NoMemory>
        ensures { OnOk result ((rows : List Kept) → completed self.new rows ≡ completed self.old (release.now ∷ rows)) }
    {
        push_comma(&mut self.text, self.later)?;
        self.text
            .extend_from_slice(release.text.as_str().as_bytes())?;
        self.later = true;
        Ok(())
    }

    /// Closes the package after these releases, and returns its text.
    pub fn close(self) -> Result<Vec<u8>, NoMemory>
        ensures { IfOk result (λ text. text.items ≡ completed self []) }
    {
        let mut text = self.text;
        text.extend_from_slice(self.behind.as_slice())?;
        Ok(text)
    }
}

fn push_comma(text: &mut Vec<u8>, later: bool) -> Result<(), AllocError>
    ensures { OnOk result (text.new.items ≡ text.old.items ++ comma_if later) }
{
    if later {
        text.push(b',')?;
    }
    Ok(())
}

fn quoted_text(alloc: Global, text: &str) -> Result<Vec<u8>, AllocError>
    ensures { IfOk result (λ bytes. bytes.items ≡ quoted text.now) }
{
    let value = Value::try_from_str(alloc, text)?;
    let bytes = value.to_vec(alloc)?;
    Ok(bytes)
}

// Pushes a member whose value has this text, as the first one or after others.
fn push_member(
    alloc: Global,
    text: &mut Vec<u8>,
    later: bool,
    name: &str,
    value: &[u8],
) -> Result<(), AllocError>
    ensures { OnOk result (text.new.items ≡ text.old.items ++ member_text later name.now value.now) }
{
    let name = quoted_text(alloc, name)?;
    push_comma(text, later)?;
    text.extend_from_slice(name.as_slice())?;
    text.push(b':')?;
    text.extend_from_slice(value)?;
    Ok(())
}

fn push_value(
    alloc: Global,
    text: &mut Vec<u8>,
    later: bool,
    name: &str,
    value: &Value,
) -> Result<(), AllocError>
    ensures { OnOk result (has_float (view value.now) ≡ false
        → text.new.items ≡ text.old.items ++ member_text later name.now (compact_text (view value.now))) }
{
    let bytes = value.to_vec(alloc)?;
    push_member(alloc, text, later, name, bytes.as_slice())?;
    Ok(())
}

fn push_part(
    alloc: Global,
    text: &mut Vec<u8>,
    later: bool,
    name: &str,
    part: &Part,
) -> Result<(), AllocError>
    ensures { OnOk result (text.new.items ≡ text.old.items ++ member_text later name.now (compact_text (data_of part.now))) }
{
    let value = value_of(alloc, part)?;
    push_value(alloc, text, later, name, &value)?;
    Ok(())
}

// Pushes the extensions, if there are any, and the date of the package.
fn push_first(
    alloc: Global,
    text: &mut Vec<u8>,
    publisher: &Publisher,
    published: Moment,
) -> Result<(), AllocError>
    ensures { OnOk result ((ms : Members) → text.new.items ++ members_text true ms ≡ text.old.items ++ members_text false (first_members publisher.now (moment_text published) ms)) }
{
    let date = Part::Moment(published);
    if publisher.extensions.as_slice().is_empty() {
        push_part(alloc, text, false, "publishedDate", &date)?;
        return Ok(());
    }
    let extensions = extensions_of(alloc, publisher)?;
    push_value(alloc, text, false, "extensions", &extensions)?;
    push_part(alloc, text, true, "publishedDate", &date)?;
    Ok(())
}

// Pushes the members before the list.
fn push_head(
    alloc: Global,
    text: &mut Vec<u8>,
    publisher: &Publisher,
    published: Moment,
) -> Result<(), AllocError>
    ensures { OnOk result ((ms : Members) → text.new.items ++ members_text true ms ≡ text.old.items ++ members_text false (head_members publisher.now (moment_text published) ms)) }
{
    push_first(alloc, text, publisher, published)?;
    let shown = object_with(alloc, &[("name", Part::Text(publisher.name.as_str()))])?;
    push_value(alloc, text, true, "publisher", &shown)?;
    Ok(())
}

// Pushes the members after the list.
fn push_tail<'a>(
    alloc: Global,
    text: &mut Vec<u8>,
    publisher: &'a Publisher,
    notice: Id,
    route: &'a str,
) -> Result<(), AllocError>
    ensures { OnOk result (text.new.items ≡ text.old.items ++ members_text true (tail_members publisher.now notice route.now)) }
{
    let address = Part::Address(publisher.base.as_str(), notice, route);
    push_part(alloc, text, true, "uri", &address)?;
    push_part(alloc, text, true, "version", &Part::Text("1.1"))?;
    text.push(b'}')?;
    Ok(())
}

// The text of a package before the elements of its list.
fn before_list(
    alloc: Global,
    publisher: &Publisher,
    published: Moment,
    name: &str,
) -> Result<Vec<u8>, AllocError>
    ensures { IfOk result (λ text. (notice route items : List ℕ) (d : Data) → compact_text d ≡ 91 ∷ items
        → text.items ++ (items ++ members_text true (tail_members publisher.now notice route)) ≡ compact_text (ordered_package publisher.now notice (moment_text published) route name.now d)) }
{
    let mut text = Vec::new(alloc);
    text.push(b'{')?;
    push_head(alloc, &mut text, publisher, published)?;
    push_member(alloc, &mut text, true, name, b"[")?;
    Ok(text)
}

// The text of a package after the elements of its list, with the end of the list.
fn behind_list<'a>(
    alloc: Global,
    publisher: &'a Publisher,
    notice: Id,
    route: &'a str,
    closing: &[u8],
) -> Result<Vec<u8>, AllocError>
    ensures { IfOk result (λ text. text.items ≡ closing.now ++ members_text true (tail_members publisher.now notice route.now)) }
{
    let mut text = Vec::new(alloc);
    text.extend_from_slice(closing)?;
    push_tail(alloc, &mut text, publisher, notice, route)?;
    Ok(text)
}

// Pushes a record up to the elements of its list of releases.
fn push_record(
    alloc: Global,
    text: &mut Vec<u8>,
    publisher: &Publisher,
    notice: Id,
    compiled: &[u8],
) -> Result<(), AllocError>
    ensures { OnOk result ((items rest : List ℕ) (d release : Data) → compact_text d ≡ 91 ∷ items → compiled.now ≡ compact_text release
        → text.new.items ++ (items ++ 125 ∷ rest) ≡ text.old.items ++ (compact_text (ordered_record publisher.now notice release d) ++ rest)) }
{
    text.push(b'{')?;
    push_member(alloc, text, false, "compiledRelease", compiled)?;
    push_part(
        alloc,
        text,
        true,
        "ocid",
        &Part::Ocid(publisher.prefix, notice),
    )?;
    push_member(alloc, text, true, "releases", b"[")?;
    Ok(())
}

// The text of a package whose releases have this number of bytes.
fn with_room(text: Vec<u8>, behind: Vec<u8>, room: usize) -> Result<PackageText, AllocError>
    ensures { IfOk result (λ pack. pack ≡ record { written = text.items; behind = behind.items; later = false }) }
{
    let mut text = text;
    text.reserve_exact(room.saturating_add(behind.len()).saturating_add(SPARE))?;
    Ok(PackageText {
        text,
        behind,
        later: false,
    })
}

fn opened_releases(
    alloc: Global,
    publisher: &Publisher,
    notice: Id,
    published: Moment,
    room: usize,
) -> Result<PackageText, AllocError>
    ensures { IfOk result (λ pack. (rows : List Kept) (d : Data) (ds : List Data) → AreKept rows (d ∷ ds) → moment_of_last rows ≡ published
        → completed pack rows ≡ compact_text (releases_in publisher.now notice (d ∷ ds))) }
{
    let before = before_list(alloc, publisher, published, "releases")?;
    let behind = behind_list(alloc, publisher, notice, "/releases", b"]")?;
    let package = with_room(before, behind, room)?;
    Ok(package)
}

/// Opens the text of the release package of a notice; `published` is the moment of its last release. The caller then adds the stored releases in sequence, at
/// least one. There is memory for the given number of their bytes.
pub fn open_releases(
    alloc: Global,
    publisher: &Publisher,
    notice: &Id,
    published: Moment,
    room: usize,
) -> Result<PackageText, NoMemory>
    ensures { IfOk result (λ pack. (rows : List Kept) (d : Data) (ds : List Data) → AreKept rows (d ∷ ds) → moment_of_last rows ≡ published
        → completed pack rows ≡ compact_text (releases_in publisher.now notice.now (d ∷ ds))) }
{
    Ok(opened_releases(alloc, publisher, *notice, published, room)?)
}

fn opened_record(
    alloc: Global,
    publisher: &Publisher,
    notice: Id,
    published: Moment,
    compiled: &[u8],
    room: usize,
) -> Result<PackageText, AllocError>
    ensures { IfOk result (λ pack. (rows : List Kept) (d : Data) (ds : List Data) (release : Data) → AreKept rows (d ∷ ds) → moment_of_last rows ≡ published
        → HasText release → compiled.now ≡ compact_text release → completed pack rows ≡ compact_text (record_in publisher.now notice (d ∷ ds) release)) }
{
    let mut before = before_list(alloc, publisher, published, "records")?;
    push_record(alloc, &mut before, publisher, notice, compiled)?;
    let behind = behind_list(alloc, publisher, notice, "/record", b"]}]")?;
    let package = with_room(before, behind, room)?;
    Ok(package)
}

/// Opens the text of the record package of a notice, with the text of its compiled release. The caller then adds the stored releases in sequence, at least one,
/// as in `open_releases`.
pub fn open_record(
    alloc: Global,
    publisher: &Publisher,
    notice: &Id,
    published: Moment,
    compiled: &str,
    room: usize,
) -> Result<PackageText, NoMemory>
    ensures { IfOk result (λ pack. (rows : List Kept) (d : Data) (ds : List Data) (release : Data) → AreKept rows (d ∷ ds) → moment_of_last rows ≡ published
        → HasText release → compiled.now ≡ compact_text release → completed pack rows ≡ compact_text (record_in publisher.now notice.now (d ∷ ds) release)) }
{
    let compiled = compiled.as_bytes();
    Ok(opened_record(alloc, publisher, *notice, published, compiled, room)?)
}
