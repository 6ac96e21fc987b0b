//! The bodies of requests. Each reader reads the fields in their order, and names the first that is missing or wrong.
ghost use Rattle.std.specs.Prelude.{◌≡◌, ◌≤◌, ◌⊎◌, false, Err, IfOk, length};
ghost use Rattle.json.specs.Word.{is_space};
ghost use Rattle.serde_json.specs.Errors.{IsMemory};
ghost use Rattle.serde_json.specs.View.{view};
ghost use Rattle.office_values.specs.declared.refusal.Refusal.TheVariants.{BadBody, Unavailable};
ghost use Rattle.office_values.specs.declared.refusal.BadPart.TheVariants.{Body};
ghost use Rattle.office_commands.specs.Commands.{kind_of};
ghost use Rattle.tender_papers.specs.Budget.{budget_of};
ghost use Rattle.tender_papers.specs.Files.{csv_records};
ghost use Rattle.office_requests.specs.Inside.Answers.{ReadsAs, ReadsObject};
ghost use Rattle.office_requests.specs.Bodies.{begins_object, object_in_body, import_of, registration_in, notice_amendment_in, cancellation_in, examination_in, contract_amendment_in, named_in, performance_of, payment_in, ending_in, sealed_in};

use crate::fields::{flag, has, line, number, perhaps_number, text};
use office_commands::command::CommandKind;
use office_commands::commands::Command;
use office_commands::sealed::Sealed;
use office_commands::tender::NamedSecurity;
use office_values::given::AskedNumber;
use office_values::id::Id;
use office_values::refusal::{BadPart, Field, Refusal};
use serde_json::Value;
use std::alloc::Global;
use tender_papers::budget::{BudgetFault, read_budget};

// The refusal of a body that isn't JSON; `Unavailable` if only memory was too small to read it.
fn json_fault(error: &serde_json::Error) -> Refusal
    ensures memory { IsMemory error.now → result ≡ Unavailable }
    ensures wrong { ¬ (IsMemory error.now) → result ≡ BadBody Body }
    ensures either { (result ≡ Unavailable) ⊎ ((result ≡ BadBody Body) × (¬ (IsMemory error.now))) }
{
    if error.is_memory() {
        Refusal::Unavailable
    } else {
        Refusal::BadBody(BadPart::Body)
    }
}

// Whether a byte may be before the value of a JSON text.
fn is_space(byte: u8) -> bool
    ensures { result ≡ is_space byte }
{
    match byte {
        b' ' => true,
        b'\n' => true,
        b'\r' => true,
        b'\t' => true,
        _ => false,
    }
}

// Whether a body begins as an object. It takes no memory, and reads no further than the first byte that isn't a space.
fn begins_object(body: &[u8]) -> bool
    ensures { result ≡ begins_object body.now }
{
    let mut left = body;
    while let Some((first, rest)) = left.split_first() {
        if *first == b'{' {
            return true;
        }
        if !is_space(*first) {
            return false;
        }
        left = rest;
    }
    false
}

// The JSON object in a body, read with memory.
fn read_object(alloc: Global, body: &[u8]) -> Result<Value, Refusal>
    ensures { ReadsObject result (object_in_body body.now) }
{
    let value = match Value::from_slice(alloc, body) {
        Ok(value) => value,
        Err(error) => return Err(json_fault(&error)),
    };
    if value.is_object() {
        Ok(value)
    } else {
        Err(Refusal::BadBody(BadPart::Body))
    }
}

/// The JSON object in a body. `BadBody` of the body if it isn't an object. A body that doesn't begin as one takes no memory; for the others, `Unavailable` if
/// memory is too small.
#[tactic(auto, using(crate::proofs::Begun::not_begun))]
pub fn object_in_body(alloc: Global, body: &[u8]) -> Result<Value, Refusal>
    ensures object { ReadsObject result (object_in_body body.now) }
    ensures at_once { begins_object body.now ≡ false → result ≡ Err (BadBody Body) }
{
    if begins_object(body) {
        read_object(alloc, body)
    } else {
        Err(Refusal::BadBody(BadPart::Body))
    }
}

/// The import of the budget file in a body, with this name.
pub fn import_of<'a>(alloc: Global, batch: Id, body: &[u8]) -> Result<Command<'a>, Refusal>
    requires { length body.now ≤ 65536 }
    ensures body { ReadsAs result (import_of batch (budget_of (csv_records body.now))) }
    ensures kind { IfOk result (λ command. kind_of command ≡ CommandKind.Import) }
{
    match read_budget(alloc, body) {
        Ok(rows) => Ok(Command::Import { batch, rows }),
        Err(BudgetFault::BadRow(number)) => Err(Refusal::BadBody(BadPart::Row(number))),
        Err(BudgetFault::NoMemory) => Err(Refusal::Unavailable),
    }
}

/// The registration of this tenderer.
#[tactic(auto, unfolding(crate::specs::Bodies::registration_in))]
pub fn registration<'a>(alloc: Global, tenderer: Id, body: &Value) -> Result<Command<'a>, Refusal>
    ensures body { ReadsAs result (registration_in tenderer (view body.now)) }
    ensures kind { IfOk result (λ command. kind_of command ≡ CommandKind.Register) }
{
    Ok(Command::Register {
        tenderer,
        name: line(alloc, body, Field::Name)?,
        address: line(alloc, body, Field::Address)?,
        key: text(body, Field::Key)?,
    })
}

/// The amendment of this notice.
#[tactic(auto, unfolding(crate::specs::Bodies::notice_amendment_in))]
pub fn notice_amendment<'a>(alloc: Global, notice: Id, body: &Value) -> Result<Command<'a>, Refusal>
    ensures body { ReadsAs result (notice_amendment_in notice (view body.now)) }
    ensures kind { IfOk result (λ command. kind_of command ≡ CommandKind.AmendNotice) }
{
    Ok(Command::AmendNotice {
        notice,
        deadline: text(body, Field::Deadline)?,
        rationale: line(alloc, body, Field::Rationale)?,
    })
}

/// The cancellation of this notice.
#[tactic(auto, unfolding(crate::specs::Bodies::cancellation_in))]
pub fn cancellation<'a>(alloc: Global, notice: Id, body: &Value) -> Result<Command<'a>, Refusal>
    ensures body { ReadsAs result (cancellation_in notice (view body.now)) }
    ensures kind { IfOk result (λ command. kind_of command ≡ CommandKind.Cancel) }
{
    Ok(Command::Cancel {
        notice,
        rationale: line(alloc, body, Field::Rationale)?,
    })
}

/// The examination of the tender with this receipt.
#[tactic(auto, unfolding(crate::specs::Bodies::examination_in))]
pub fn examination<'a>(receipt: AskedNumber, body: &Value) -> Result<Command<'a>, Refusal>
    ensures body { result ≡ examination_in receipt (view body.now) }
    ensures kind { IfOk result (λ command. kind_of command ≡ CommandKind.Examine) }
{
    Ok(Command::Examine {
        receipt,
        responsive: flag(body, Field::Responsive)?,
        quality: perhaps_number(body, Field::Quality)?,
    })
}

/// The amendment of this contract.
#[tactic(auto, unfolding(crate::specs::Bodies::contract_amendment_in))]
pub fn contract_amendment<'a>(
    alloc: Global,
    contract: AskedNumber,
    body: &Value,
) -> Result<Command<'a>, Refusal>
    ensures body { ReadsAs result (contract_amendment_in contract (view body.now)) }
    ensures kind { IfOk result (λ command. kind_of command ≡ CommandKind.AmendContract) }
{
    Ok(Command::AmendContract {
        contract,
        entry: text(body, Field::Id)?,
        kind: text(body, Field::Kind)?,
        amount: number(body, Field::Amount)?,
        rationale: line(alloc, body, Field::Rationale)?,
    })
}

// The performance security with its amount; None if both are missing. If one is missing, it is refused.
#[tactic(auto, unfolding(crate::specs::Bodies::named_in))]
fn named(body: &Value) -> Result<Option<NamedSecurity>, Refusal>
    ensures { result ≡ named_in (view body.now) }
{
    if !has(body, Field::Security.name()) && !has(body, Field::Amount.name()) {
        return Ok(None);
    }
    Ok(Some(NamedSecurity {
        reference: text(body, Field::Security)?,
        amount: number(body, Field::Amount)?,
    }))
}

/// The performance security that the body of a signing names; None if the body is empty or has neither a security nor an amount.
#[tactic(auto, using(crate::proofs::Begun::not_begun), unfolding(crate::specs::Bodies::performance_of))]
pub fn performance_of(alloc: Global, body: &[u8]) -> Result<Option<NamedSecurity>, Refusal>
    ensures body { ReadsAs result (performance_of body.now) }
    ensures at_once { begins_object body.now ≡ false → result ≡ performance_of body.now }
{
    if body.len() == 0 {
        return Ok(None);
    }
    let value = object_in_body(alloc, body)?;
    named(&value)
}

/// The payment under this contract.
#[tactic(auto, unfolding(crate::specs::Bodies::payment_in))]
pub fn payment<'a>(contract: AskedNumber, body: &Value) -> Result<Command<'a>, Refusal>
    ensures body { result ≡ payment_in contract (view body.now) }
    ensures kind { IfOk result (λ command. kind_of command ≡ CommandKind.Pay) }
{
    Ok(Command::Pay {
        contract,
        entry: text(body, Field::Id)?,
        amount: number(body, Field::Amount)?,
    })
}

/// The end of this contract.
#[tactic(auto, unfolding(crate::specs::Bodies::ending_in))]
pub fn ending<'a>(contract: AskedNumber, body: &Value) -> Result<Command<'a>, Refusal>
    ensures body { result ≡ ending_in contract (view body.now) }
    ensures kind { IfOk result (λ command. kind_of command ≡ CommandKind.End) }
{
    Ok(Command::End {
        contract,
        how: text(body, Field::How)?,
    })
}

/// The sealed bytes in a body, which they borrow.
#[tactic(auto, unfolding(crate::specs::Bodies::sealed_in))]
pub fn sealed(body: &[u8]) -> Result<Sealed<'_>, Refusal>
    ensures { result ≡ sealed_in body.now }
{
    match Sealed::read(body) {
        Some(sealed) => Ok(sealed),
        None => Err(Refusal::BadBody(BadPart::Body)),
    }
}
