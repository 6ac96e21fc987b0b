//! The decision on the registration of a tenderer.
ghost use Rattle.std.specs.Prelude.{◌≡◌, IfOk, IfErr};
ghost use Rattle.office_values.specs.declared.refusal.Refusal.TheVariants.{Unavailable};
ghost use Rattle.office_base.specs.Deciding.{Decides};
ghost use Rattle.office_base.specs.Rules.{first_of};
ghost use Rattle.tender_core.specs.Rules.Register.{register_lacks, register_tests, register_puts};

use office_base::puts::Put;
use office_base::records::{ClockRow, TendererRow};
use office_base::transitions::at_moment;
use office_values::id::Id;
use office_values::moment::Moment;
use office_values::refusal::Refusal;
use office_values::text::TextLine;
use std::alloc::Global;

/// The rows that a registration reads: the tenderer with this identifier, and the clock.
#[derive(Drop)]
pub struct RegisterRows {
    pub tenderer: Option<TendererRow>,
    pub clock: ClockRow,
}

/// The refusal of the registration, if its condition is true.
pub fn refusal(rows: &RegisterRows, tenderer: &Id) -> Option<Refusal>
    ensures { result ≡ first_of (register_tests rows.now tenderer.now) }
{
    // The name `clerk` is reserved: a caller with this name is the clerk.
    if rows.tenderer.is_some() || tenderer.as_bytes() == b"clerk".as_slice() {
        return Some(Refusal::Exists);
    }
    None
}

/// The changes of the registration: the tenderer, with the SHA-256 of a key, and the clock.
pub fn puts(
    alloc: Global,
    t: Moment,
    rows: RegisterRows,
    tenderer: Id,
    name: TextLine,
    address: TextLine,
    key: [u8; 32],
) -> Result<Vec<Put>, Refusal>
    ensures puts { IfOk result (λ made. made.items ≡ register_puts rows t tenderer name address key) }
    ensures fault { IfErr result (λ e. e ≡ Unavailable) }
{
    let mut made = Vec::with_capacity(alloc, 2)?;
    made.push(Put::Tenderer(TendererRow {
        tenderer,
        name,
        address,
        key,
    }))?;
    made.push(Put::Clock(at_moment(rows.clock, t)))?;
    Ok(made)
}

/// Decides the registration of a tenderer, with the SHA-256 of a key: the result is its refusal or its changes.
#[tactic(auto, unfolding(office_base::specs::Deciding::Decides))]
pub fn decide_register(
    alloc: Global,
    t: Moment,
    rows: RegisterRows,
    tenderer: Id,
    name: TextLine,
    address: TextLine,
    key: [u8; 32],
) -> Result<Vec<Put>, Refusal>
    ensures { Decides result (first_of (register_tests rows tenderer)) (register_lacks rows) (register_puts rows t tenderer name address key) }
{
    match refusal(&rows, &tenderer) {
        Some(why) => Err(why),
        None => puts(alloc, t, rows, tenderer, name, address, key),
    }
}
