//! `procure read-tender ITEMS FILE` and `procure read-budget FILE`: the office's reading of a file before somebody submits it.
ghost use Rattle.std.specs.Prelude.{◌≡◌, ◌++◌, IfOk, Some, option_map};
ghost use Rattle.sha2.specs.Sha256.{sha256};
ghost use Rattle.office_values.specs.Refusals.{Named, Record, told};
ghost use Rattle.office_http.specs.Response.{refusal_body, what_member};
ghost use Rattle.procure_programs.specs.ReadFiles.{PrintsShown, PrintsTender, as_refused, budget_kind_word, budget_shown, is_priced, items_in, reading_entries, rows_shown, tender_shown};
ghost use Rattle.office_plans.specs.Json.{object_text};

use crate::faults::of_unread_file;
use crate::items::read_items;
use crate::printing::print_text;
use itoa::Buffer;
use json::Writer;
use office_base::reading::Reading;
use office_commands::budget::{BudgetKind, BudgetRow};
use office_commands::item::Item;
use office_commands::sealed::Sealed;
use office_plans::objects::{Plain, RowObject, object_text, rows_text, write_object};
use office_values::refusal::{BadPart, Refusal, What};
use office_wire::watched::WatchedWriter;
use procure_config::fault::ProgramFault;
use std::alloc::{AllocError, Global};
use std::fs;
use std::io::Write;
use tender_papers::budget::{BudgetFault, read_budget};
use tender_papers::tender::read_tender;

// The greatest length of a request's body, in bytes.
const BODY_LIMIT: usize = 65_536;

// A text, and whether the office can use the file that it describes.
type Shown = (Vec<u8>, bool);

// Appends the member that names a field.
fn put_name(out: &mut Vec<u8>, name: &str) -> Result<(), AllocError>
    ensures { IfOk result (λ _. out.new.items ≡ out.old.items ++ what_member (Some (Named name.now))) }
{
    out.extend_from_slice(b",\"what\":\"")?;
    out.extend_from_slice(name.as_bytes())?;
    out.extend_from_slice(b"\"")?;
    Ok(())
}

// Appends the member that names a record.
fn put_row(out: &mut Vec<u8>, number: u32) -> Result<(), AllocError>
    ensures { IfOk result (λ _. out.new.items ≡ out.old.items ++ what_member (Some (Record number))) }
{
    let mut digits = Buffer::new();
    out.extend_from_slice(b",\"what\":\"row ")?;
    out.extend_from_slice(digits.format(number).as_bytes())?;
    out.extend_from_slice(b"\"")?;
    Ok(())
}

// Appends the member that says what a refusal is about.
fn put_what(out: &mut Vec<u8>, what: Option<What>) -> Result<(), AllocError>
    ensures { IfOk result (λ _. out.new.items ≡ out.old.items ++ what_member (option_map told what)) }
{
    match what {
        None => Ok(()),
        Some(What::Name(name)) => put_name(out, name),
        Some(What::Row(number)) => put_row(out, number),
    }
}

// A refusal as the body of an answer.
fn refusal_text(alloc: Global, refusal: Refusal) -> Result<Vec<u8>, AllocError>
    ensures { IfOk result (λ text. text.items ≡ refusal_body refusal) }
{
    let mut out = Vec::new(alloc);
    out.extend_from_slice(b"{\"name\":\"")?;
    out.extend_from_slice(refusal.name().as_bytes())?;
    out.extend_from_slice(b"\",\"refusal\":")?;
    out.extend_from_slice(Buffer::new().format(refusal.number()).as_bytes())?;
    put_what(&mut out, refusal.what())?;
    out.extend_from_slice(b"}")?;
    Ok(out)
}

// A file that the office refuses as the body of a request.
fn as_refused(alloc: Global, refusal: Refusal) -> Result<Shown, AllocError>
    ensures { IfOk result (λ shown. (shown.0.items, shown.1) ≡ as_refused refusal) }
{
    Ok((refusal_text(alloc, refusal)?, false))
}

// The word for the kind of a row.
fn kind_word(kind: BudgetKind) -> &'static str
    ensures { result.now ≡ budget_kind_word kind }
{
    match kind {
        BudgetKind::Add => "add",
        BudgetKind::Cut => "cut",
    }
}

// Shows a row of a budget file.
struct ReadRow;

impl RowObject for ReadRow {
    ghost use Rattle.procure_programs.specs.ReadFiles.{budget_row_entries};

    type Row = BudgetRow;

    ghost members_of = { λ _ row. budget_row_entries row };

    fn write(&self, alloc: Global, out: &mut Writer, row: &BudgetRow) -> Result<(), AllocError> {
        let word = kind_word(row.kind);
        let title = row.title.as_str();
        write_object(
            alloc,
            out,
            &[
                ("amount", Plain::Total(row.amount)),
                ("kind", Plain::Text(word)),
                ("line", Plain::Id(row.line)),
                ("title", Plain::Text(title)),
            ],
        )
    }
}

// The rows of a budget file.
fn rows_shown(alloc: Global, rows: &[BudgetRow]) -> Result<Shown, AllocError>
    ensures { IfOk result (λ shown. (shown.0.items, shown.1) ≡ rows_shown (Ok rows.now)) }
{
    let text = rows_text(alloc, &[], "rows", &ReadRow, rows, &[])?;
    Ok((text, true))
}

// The office's reading of a budget file.
fn budget_shown(alloc: Global, file: &[u8]) -> Result<Shown, AllocError>
    ensures { IfOk result (λ shown. (shown.0.items, shown.1) ≡ budget_shown file.now) }
{
    if file.len() > BODY_LIMIT {
        return as_refused(alloc, Refusal::TooLong);
    }
    match read_budget(alloc, file) {
        Ok(rows) => rows_shown(alloc, rows.as_slice()),
        Err(BudgetFault::BadRow(number)) => {
            as_refused(alloc, Refusal::BadBody(BadPart::Row(number)))
        }
        Err(BudgetFault::NoMemory) => Err(AllocError),
    }
}

// The text that shows the reading of a tender.
fn reading_text(
    alloc: Global,
    sealed: &Sealed<'_>,
    reading: &Reading,
) -> Result<Vec<u8>, AllocError>
    ensures { IfOk result (λ text. text.items ≡ object_text (reading_entries (sha256 sealed.now) reading.now)) }
{
    let digest = sealed.digest();
    match *reading {
        Reading::Priced {
            stated,
            corrected,
            corrections,
        } => {
            let corrected = corrected.units();
            let corrections = corrections.get();
            object_text(
                alloc,
                &[
                    ("corrected", Plain::Number(corrected)),
                    ("corrections", Plain::Number(corrections)),
                    ("digest", Plain::Digest(digest)),
                    ("reading", Plain::Text("priced")),
                    ("stated", Plain::Total(stated)),
                ],
            )
        }
        Reading::Nonconforming => object_text(
            alloc,
            &[
                ("digest", Plain::Digest(digest)),
                ("reading", Plain::Text("nonconforming")),
            ],
        ),
        Reading::Unreadable => object_text(
            alloc,
            &[
                ("digest", Plain::Digest(digest)),
                ("reading", Plain::Text("unreadable")),
            ],
        ),
    }
}

// Whether a tender has a price.
fn is_priced(reading: &Reading) -> bool
    ensures { result ≡ is_priced reading.now }
{
    match *reading {
        Reading::Priced { .. } => true,
        Reading::Nonconforming | Reading::Unreadable => false,
    }
}

// The office's reading of a tender's file for a lot with these items.
#[tactic(auto, unfolding(office_requests::specs::Bodies::sealed_in))]
fn tender_shown(alloc: Global, items: &[Item], file: &[u8]) -> Result<Shown, AllocError>
    ensures { IfOk result (λ shown. (shown.0.items, shown.1) ≡ tender_shown items.now file.now) }
{
    if file.len() > BODY_LIMIT {
        return as_refused(alloc, Refusal::TooLong);
    }
    let Some(sealed) = Sealed::read(file) else {
        return as_refused(alloc, Refusal::BadBody(BadPart::Body));
    };
    let reading = read_tender(alloc, file, items)?;
    let text = reading_text(alloc, &sealed, &reading)?;
    Ok((text, is_priced(&reading)))
}

// Prints a text. `Input` if the office can't use the file that it describes.
#[tactic(auto, using(crate::proofs::ReadFileSteps::cut_off))]
fn print_shown<W: Write>(
    text: &[u8],
    is_usable: bool,
    output: &mut WatchedWriter<W>,
) -> Result<(), ProgramFault>
    ensures { PrintsShown (text.now, is_usable) output.old output.new result }
{
    match print_text(output, text) {
        Ok(()) => {
            if is_usable {
                Ok(())
            } else {
                Err(ProgramFault::Input)
            }
        }
        Err(fault) => Err(fault),
    }
}

/// Prints the office's reading of a budget file as a JSON object. The member `rows` has its rows. If the office refuses the file, the object is the body of its
/// answer, and the result is `Input`: `TooLong`, or `BadBody` with the number of the first faulty record. Whether the office has the lines, and the money for
/// cuts, isn't asked.
#[tactic(auto, using(crate::proofs::ReadFileSteps::wanting, crate::proofs::ReadFileSteps::shown_as))]
pub fn print_budget<W: Write>(
    alloc: Global,
    file: &[u8],
    output: &mut WatchedWriter<W>,
) -> Result<(), ProgramFault>
    ensures { PrintsShown (budget_shown file.now) output.old output.new result }
{
    let (text, is_usable) = budget_shown(alloc, file)?;
    print_shown(&text, is_usable, output)
}

/// Prints the office's reading of a tender's file as a JSON object, for a lot whose items are in another file (`read_items`). Unless the tender has a price, the
/// result is `Input`. If the office doesn't accept the file, the object is the body of its answer. If the other file has no items, nothing is printed, and the
/// result is `Refused`.
pub fn print_tender<W: Write>(
    alloc: Global,
    items: &[u8],
    file: &[u8],
    output: &mut WatchedWriter<W>,
) -> Result<(), ProgramFault>
    ensures { PrintsTender (items_in items.now) file.now output.old output.new result }
{
    let items = match read_items(alloc, items) {
        Ok(items) => items,
        Err(why) => return Err(ProgramFault::Refused(why)),
    };
    let (text, is_usable) = tender_shown(alloc, items.as_slice(), file)?;
    print_shown(&text, is_usable, output)
}

// The bytes of a file.
fn file_at(rt: &HostRuntime, path: &str) -> Result<Vec<u8>, ProgramFault> {
    match fs::read(rt, path) {
        Ok(bytes) => Ok(bytes),
        Err(error) => Err(of_unread_file(error)),
    }
}

/// `print_budget` for `main`: of the file at a path, on the standard output.
pub fn print_budget_at(rt: &HostRuntime, file: &str) -> Result<(), ProgramFault> {
    let file = file_at(rt, file)?;
    print_budget(rt.alloc(), &file, &mut WatchedWriter::new(rt.stdout()))
}

/// `print_tender` for `main`: of the files at two paths, on the standard output.
pub fn print_tender_at(rt: &HostRuntime, items: &str, file: &str) -> Result<(), ProgramFault> {
    let items = file_at(rt, items)?;
    let file = file_at(rt, file)?;
    print_tender(
        rt.alloc(),
        &items,
        &file,
        &mut WatchedWriter::new(rt.stdout()),
    )
}
