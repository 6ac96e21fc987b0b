//! The texts of the packages of a notice's releases and of its record, made of the stored texts. One look-up lists the notice's releases. If they aren't those
//! that the notice's row counts, or if one of them isn't a release of this notice as the office writes it, nothing is shown.
ghost use Rattle.std.specs.Prelude.{◌≡◌, ◌∷◌, [], true, All, IfOk, IfErr, OnOk, List, Some, map, string_bytes};
ghost use Rattle.serde_json.specs.Written.{compact_text};
ghost use Rattle.ocds_merge.specs.Compile.{with_head};
ghost use Rattle.ocds_merge.specs.Merge.{merge_or_null};
ghost use Rattle.ocds_merge.specs.Stored.{IsStorable};
ghost use Rattle.ocds_release.specs.Opened.{completed};
ghost use Rattle.ocds_release.specs.Texts.{ocid_text};
ghost use Rattle.office_commands.specs.declared.queries.Query.TheVariants as queries;
ghost use Rattle.office_base.specs.Shelves.{Looks};
ghost use Rattle.office_base.specs.Tables.{Tables, notice_at, releases_of_notice};
ghost use Rattle.office_base.specs.declared.records.ReleaseRow.{ReleaseRow as Row};
ghost use Rattle.office_machine.specs.Counted.{releases_in};
ghost use Rattle.office_machine.specs.Fates.{numbers};
ghost use Rattle.office_publications.specs.Merges.{AreSoMany, HasMerge, IsMergedOf, bodies};
ghost use Rattle.office_publications.specs.Packages.{packages};
ghost use Rattle.office_publications.specs.Standing.{IsReached};
ghost use Rattle.office_publications.specs.Told.{AreAllThere, IsInRange};
ghost use Rattle.office_desk.specs.Extent.{IsExtentOf, IsWritten};
ghost use Rattle.office_values.specs.Moments.{moment_text};
ghost use Rattle.office_values.specs.declared.refusal.Refusal.TheVariants.{Unavailable};

use ocds_merge::is_written_release;
use ocds_release::ocid::ocid_of;
use ocds_release::package_texts::{PackageText, open_record, open_releases};
use office_base::counts::ReleaseCount;
use office_base::laws::looks_follow;
use office_base::records::ReleaseRow;
use office_base::shelf::Lookups;
use office_publications::laws::{numbering, releases_can_be_merged, told};
use office_publications::merges::{compiled_of, load_kept};
use office_values::id::Id;
use office_values::moment::Moment;
use office_values::refusal::Refusal;
use office_values::settings::Publisher;
use std::alloc::Global;

/// The extent of a notice's releases: the bytes of their texts with a comma each, and the moment of the last release, if there is one.
#[derive(Clone, Copy)]
pub(super) struct Extent {
    pub(super) bytes: usize,
    pub(super) last: Option<Moment>,
}

// The extent with one more release, whose moment has a text.
fn with_release(extent: Extent, release: &ReleaseRow) -> Extent
    ensures last { result.last ≡ Some release.now.moment }
    ensures range { IsInRange release.now }
{
    let _second = release.moment.second();
    let bytes = extent.bytes.saturating_add(release.text.as_str().len());
    Extent {
        bytes: bytes.saturating_add(1),
        last: Some(release.moment),
    }
}

// The extent with one more release, if its text is a release of the process with this `ocid`, as the office writes it.
fn with_written(
    alloc: Global,
    ocid: &str,
    extent: Extent,
    release: &ReleaseRow,
) -> Result<Extent, Refusal>
    ensures last { IfOk result (λ with. with.last ≡ Some release.now.moment) }
    ensures range { OnOk result (IsInRange release.now) }
    ensures written { OnOk result (IsWritten ocid.now release.now) }
    ensures none { IfErr result (λ why. why ≡ Unavailable) }
{
    match is_written_release(alloc, ocid, release.text.as_str()) {
        Ok(true) => Ok(with_release(extent, release)),
        Ok(false) | Err(_) => Err(Refusal::Unavailable),
    }
}

// Whether these releases have the numbers from 1 to this one.
fn are_numbered(rows: &[ReleaseRow], count: u64) -> bool
    ensures { result ≡ true → map (λ (r : Row). r.seq) rows.now ≡ numbers 1 count }
{
    if rows.len() as u64 != count {
        return false;
    }
    let mut next: u64 = 1;
    for row in rows {
        if row.seq.get() != next {
            return false;
        }
        next += 1;
    }
    true
}

// The releases of a notice, if there is one of each number from 1 to this count, and no other.
fn load_releases<H: Lookups>(
    shelf: &mut H,
    notice: &Id,
    count: ReleaseCount,
) -> Result<Vec<ReleaseRow>, Refusal>
    ensures looks { Looks H.meaning shelf.old shelf.new (λ s. IfOk result (λ rows. rows.items ≡ releases_of_notice notice.now s)) }
    ensures numbered { Looks H.meaning shelf.old shelf.new (λ s. OnOk result (AreSoMany notice.now count s)) }
    ensures none { IfErr result (λ why. why ≡ Unavailable) }
{
    let rows = shelf.list_releases_of_notice(notice)?;
    if are_numbered(&rows, count.get()) {
        Ok(rows)
    } else {
        Err(Refusal::Unavailable)
    }
}

// The extent of these releases, if each of their texts is a release of the process with this `ocid`, as the office writes it.
fn measure(alloc: Global, ocid: &str, rows: &[ReleaseRow]) -> Result<Extent, Refusal>
    ensures is { IfOk result (λ extent. IsExtentOf extent rows.now) }
    ensures written { OnOk result (All (IsWritten ocid.now) rows.now) }
    ensures none { IfErr result (λ why. why ≡ Unavailable) }
{
    let mut extent = Extent {
        bytes: 0,
        last: None,
    };
    for row in rows {
        extent = with_written(alloc, ocid, extent, row)?;
    }
    Ok(extent)
}

// Puts a release into the text of a package.
fn put_release(text: &mut PackageText, release: &ReleaseRow) -> Result<(), Refusal>
    ensures put { OnOk result ((rows : List Row) → completed text.new rows ≡ completed text.old (release.now ∷ rows)) }
    ensures none { IfErr result (λ why. why ≡ Unavailable) }
{
    match text.put(release) {
        Ok(()) => Ok(()),
        Err(_) => Err(Refusal::Unavailable),
    }
}

// Puts these releases into the text of a package.
fn put_releases(rows: &[ReleaseRow], text: &mut PackageText) -> Result<(), Refusal>
    ensures put { OnOk result (completed text.new [] ≡ completed text.old rows.now) }
    ensures none { IfErr result (λ why. why ≡ Unavailable) }
{
    for row in rows {
        put_release(text, row)?;
    }
    Ok(())
}

// The whole text of a package that was begun, with these releases.
fn whole_text(opened: PackageText, rows: &[ReleaseRow]) -> Result<Vec<u8>, Refusal>
    ensures is { IfOk result (λ text. text.items ≡ completed opened rows.now) }
    ensures none { IfErr result (λ why. why ≡ Unavailable) }
{
    let mut text = opened;
    put_releases(rows, &mut text)?;
    match text.close() {
        Ok(text) => Ok(text),
        Err(_) => Err(Refusal::Unavailable),
    }
}

// The beginning of the package of a notice's releases, before the first of them, which have this extent.
fn releases_package(
    alloc: Global,
    publisher: &Publisher,
    notice: &Id,
    extent: Extent,
) -> Result<PackageText, Refusal>
    ensures text { IfOk result (λ opened. (s : Tables) → IsReached publisher.now s → IsExtentOf extent (releases_of_notice notice.now s)
        → completed opened (releases_of_notice notice.now s) ≡ packages publisher.now (queries.Releases notice.now) s) }
    ensures none { IfErr result (λ why. why ≡ Unavailable) }
{
    told();
    let Some(last) = extent.last else {
        return Err(Refusal::Unavailable);
    };
    match open_releases(alloc, publisher, notice, last, extent.bytes) {
        Ok(opened) => Ok(opened),
        Err(_) => Err(Refusal::Unavailable),
    }
}

/// The package of a notice's releases, made of their stored texts. It builds no tree and writes no text again. `Unavailable` also if the notice has no release,
/// or if its releases don't have the numbers from 1 to this count. `Unavailable` also if one of them isn't a release of this notice as the office writes it.
/// None of this can happen in a reached office.
pub(super) fn releases_text<H: Lookups>(
    alloc: Global,
    shelf: &mut H,
    publisher: &Publisher,
    notice: &Id,
    count: ReleaseCount,
) -> Result<Vec<u8>, Refusal>
    ensures looks { Looks H.meaning shelf.old shelf.new (λ s. IsReached publisher.now s → releases_in (notice_at notice.now s) ≡ count
        → IfOk result (λ text. text.items ≡ packages publisher.now (queries.Releases notice.now) s)) }
    ensures there { Looks H.meaning shelf.old shelf.new (λ s. OnOk result (AreAllThere (ocid_text publisher.now.prefix notice.now) notice.now count s)) }
    ensures numbered { Looks H.meaning shelf.old shelf.new (λ s. OnOk result (AreSoMany notice.now count s)) }
    ensures none { IfErr result (λ why. why ≡ Unavailable) }
{
    numbering();
    let ocid = ocid_of(alloc, publisher, notice)?;
    let rows = load_releases(shelf, notice, count)?;
    let extent = measure(alloc, ocid.as_str(), &rows)?;
    let opened = releases_package(alloc, publisher, notice, extent)?;
    whole_text(opened, &rows)
}

// The text of a notice's compiled release, made of its stored merge and the moment of its last release.
fn load_compiled<H: Lookups>(
    alloc: Global,
    shelf: &mut H,
    ocid: &str,
    notice: &Id,
    last: Moment,
) -> Result<String, Refusal>
    ensures looks { Looks H.meaning shelf.old shelf.new (λ s. IfOk result (λ text. IsMergedOf notice.now s → All IsStorable (bodies notice.now s)
        → string_bytes text ≡ compact_text (with_head ocid.now (moment_text last) (merge_or_null (bodies notice.now s))))) }
    ensures merge { Looks H.meaning shelf.old shelf.new (λ s. OnOk result (HasMerge ocid.now notice.now s)) }
    ensures none { IfErr result (λ why. why ≡ Unavailable) }
{
    let kept = load_kept(shelf, notice)?;
    let date = last.to_text();
    compiled_of(alloc, ocid, date.as_str(), &kept)
}

// The beginning of the package of a notice's record, before the first of its releases, which have this extent.
fn record_package<H: Lookups>(
    alloc: Global,
    shelf: &mut H,
    publisher: &Publisher,
    ocid: &str,
    notice: &Id,
    extent: Extent,
) -> Result<PackageText, Refusal>
    ensures looks { Looks H.meaning shelf.old shelf.new (λ s. IfOk result (λ opened. ocid.now ≡ ocid_text publisher.now.prefix notice.now → IsReached publisher.now s → IsExtentOf extent (releases_of_notice notice.now s)
        → completed opened (releases_of_notice notice.now s) ≡ packages publisher.now (queries.Record notice.now) s)) }
    ensures merge { Looks H.meaning shelf.old shelf.new (λ s. OnOk result (HasMerge ocid.now notice.now s)) }
    ensures none { IfErr result (λ why. why ≡ Unavailable) }
{
    told();
    releases_can_be_merged();
    let Some(last) = extent.last else {
        return Err(Refusal::Unavailable);
    };
    let release = load_compiled(alloc, shelf, ocid, notice, last)?;
    match open_record(
        alloc,
        publisher,
        notice,
        last,
        release.as_str(),
        extent.bytes,
    ) {
        Ok(opened) => Ok(opened),
        Err(_) => Err(Refusal::Unavailable),
    }
}

/// The package of a notice's record: all releases that its row counts, made of their stored texts, and the compiled release, made of the stored merge. If no
/// merge is stored, it is made of all releases. `Unavailable` as in `releases_text`, and also if the stored merge isn't such an object.
pub(super) fn record_text<H: Lookups>(
    alloc: Global,
    shelf: &mut H,
    publisher: &Publisher,
    notice: &Id,
    count: ReleaseCount,
) -> Result<Vec<u8>, Refusal>
    ensures looks { Looks H.meaning shelf.old shelf.new (λ s. IsReached publisher.now s → releases_in (notice_at notice.now s) ≡ count
        → IfOk result (λ text. text.items ≡ packages publisher.now (queries.Record notice.now) s)) }
    ensures there { Looks H.meaning shelf.old shelf.new (λ s. OnOk result (AreAllThere (ocid_text publisher.now.prefix notice.now) notice.now count s)) }
    ensures numbered { Looks H.meaning shelf.old shelf.new (λ s. OnOk result (AreSoMany notice.now count s)) }
    ensures merge { Looks H.meaning shelf.old shelf.new (λ s. OnOk result (HasMerge (ocid_text publisher.now.prefix notice.now) notice.now s)) }
    ensures none { IfErr result (λ why. why ≡ Unavailable) }
{
    numbering();
    looks_follow::<H>();
    let ocid = ocid_of(alloc, publisher, notice)?;
    let rows = load_releases(shelf, notice, count)?;
    let extent = measure(alloc, ocid.as_str(), &rows)?;
    let opened = record_package(alloc, shelf, publisher, ocid.as_str(), notice, extent)?;
    whole_text(opened, &rows)
}
