//! The table of contracts: its SQL texts, its rows as values, and its look-ups.
ghost use Rattle.std.specs.Prelude.{◌≡◌};
ghost use Rattle.sqlite.specs.Values.{bound};
ghost use Rattle.office_base.specs.Tables.{contract_at, contracts_of_notice};
ghost use Rattle.office_tables.specs.Steps.{TellsOnly};
ghost use Rattle.office_tables.specs.Tables.Contracts.{contract_values, contract_read, ContractFits};

use crate::ask::{ask_all, ask_first};
use crate::columns::{bounded_at, has_columns, id_at, moment_at, perhaps_moment_at, total_at};
use crate::stored::Stored;
use crate::values::{how_or_null, id_value, moment_or_null, number_value, signed};
use crate::words::perhaps_how_at;
use office_base::records::ContractRow;
use office_base::shelf::ShelfFault;
use office_values::given::AskedNumber;
use office_values::id::Id;
use sqlite::{Alter, Connection, Row};
use sqlite_value::value::ValueRef;
use std::alloc::Global;

/// Creates the table.
pub(crate) const CREATE: &str =
    "CREATE TABLE contracts (contract INTEGER NOT NULL PRIMARY KEY CHECK (contract BETWEEN 1 AND 1000000000), notice TEXT NOT NULL CHECK (length(notice) BETWEEN 1 AND 32), lot TEXT NOT NULL CHECK (length(lot) BETWEEN 1 AND 32), tenderer TEXT NOT NULL CHECK (length(tenderer) BETWEEN 1 AND 32), signed INTEGER NOT NULL CHECK (signed BETWEEN 0 AND 1000000000000000), moment INTEGER NOT NULL CHECK (moment BETWEEN 0 AND 4102444799), ended INTEGER CHECK (ended BETWEEN 0 AND 4102444799), how TEXT CHECK (how IN ('regular', 'default')), released INTEGER NOT NULL CHECK (released BETWEEN 0 AND 1000000000000000)) STRICT";

/// Creates the index for look-ups by notice.
pub(crate) const CREATE_INDEX: &str = "CREATE INDEX contracts_of_notice ON contracts (notice)";

/// Inserts a contract, or replaces the row that has its key.
pub(crate) const PUT: &str =
    "INSERT INTO contracts (contract, notice, lot, tenderer, signed, moment, ended, how, released) VALUES (?1, ?2, ?3, ?4, ?5, ?6, ?7, ?8, ?9) ON CONFLICT (contract) DO UPDATE SET notice = ?2, lot = ?3, tenderer = ?4, signed = ?5, moment = ?6, ended = ?7, how = ?8, released = ?9";

/// The values of a contract.
pub fn contract_values(row: &ContractRow) -> [ValueRef<'_>; 9]
    ensures row { bound result ≡ contract_values row.now }
    ensures fits { ContractFits row.now }
{
    [
        ValueRef::Int(signed(row.contract.get())),
        ValueRef::Text(row.notice.as_bytes()),
        ValueRef::Text(row.lot.as_bytes()),
        ValueRef::Text(row.tenderer.as_bytes()),
        ValueRef::Int(signed(row.signed.units())),
        ValueRef::Int(signed(row.moment.second())),
        moment_or_null(row.ended),
        how_or_null(row.how),
        ValueRef::Int(signed(row.released.units())),
    ]
}

impl Stored for ContractRow {
    ghost read = { contract_read };

    ghost row_of = { contract_values };

    ghost fits = { ContractFits };

    fn from_row(_alloc: Global, row: &Row) -> Result<ContractRow, ShelfFault> {
        has_columns(row, 9)?;
        Ok(ContractRow {
            contract: bounded_at(row, 0)?,
            notice: id_at(row, 1)?,
            lot: id_at(row, 2)?,
            tenderer: id_at(row, 3)?,
            signed: total_at(row, 4)?,
            moment: moment_at(row, 5)?,
            ended: perhaps_moment_at(row, 6)?,
            how: perhaps_how_at(row, 7)?,
            released: total_at(row, 8)?,
        })
    }
}

/// The contract of this number.
pub fn get_contract<S: Alter>(
    alloc: Global,
    conn: &mut Connection<S>,
    contract: AskedNumber,
) -> Result<Option<ContractRow>, ShelfFault>
    ensures { TellsOnly S.Store conn.old conn.new result (λ t row. row ≡ contract_at contract t) }
{
    ask_first(
        alloc,
        conn,
        "SELECT contract, notice, lot, tenderer, signed, moment, ended, how, released FROM contracts WHERE contract = ?1",
        &[number_value(contract)],
    )
}

/// The contracts of a notice, in the order of their numbers.
pub fn list_contracts_of_notice<S: Alter>(
    alloc: Global,
    conn: &mut Connection<S>,
    notice: &Id,
) -> Result<Vec<ContractRow>, ShelfFault>
    ensures { TellsOnly S.Store conn.old conn.new result (λ t rows. rows.items ≡ contracts_of_notice notice.now t) }
{
    ask_all(
        alloc,
        conn,
        "SELECT contract, notice, lot, tenderer, signed, moment, ended, how, released FROM contracts WHERE notice = ?1 ORDER BY contract",
        &[id_value(notice)],
    )
}
