//! The tables of an office in memory, and changes of which all are made or none.
ghost use Rattle.std.specs.Prelude.{◌≡◌, ◌<◌, IfOk, OnOk, OnErr, not, filter, vec_len, vec_capacity, nat_eq};
ghost use Rattle.office_base.specs.Tables.{Tables, after_put, after_puts, no_tables};
ghost use Rattle.office_base.specs.declared.puts.Put.TheVariants.{Seal};
ghost use Rattle.office_memory.specs.Inside.Drops.{without_seals};
ghost use Rattle.office_memory.specs.MemoryTables.{tables_of, after_undo, after_undos, CanUndo, CanUndoAll};

use crate::belonging::{ByLine, ByNotice, EnvelopeIndexes, SecurityIndexes};
use crate::group_index::GroupIndex;
use crate::indexed_table::IndexedTable;
use keyed_table::table::{Replaced, Table};
use office_base::laws::rows_are_kept;
use office_base::puts::Put;
use office_base::records::{
    AwardRow, BatchRow, ClockRow, CompiledRow, ContractRow, EntryRow, EnvelopeRow, LateRow,
    LineRow, LotRow, NoticeRow, PerformanceRow, ReleaseRow, SealRow, SecurityRow, TendererRow,
};
use office_base::row::Row;
use office_values::given::LastNumber;
use office_values::moment::Moment;
use std::alloc::{AllocError, Global};
use std::mem;

/// The tables of an office in memory, one for each kind of record, and its clock.
#[derive(Drop)]
pub struct MemoryTables {
    pub lines: Table<LineRow>,
    pub batches: Table<BatchRow>,
    pub tenderers: Table<TendererRow>,
    pub notices: Table<NoticeRow>,
    pub lots: IndexedTable<LotRow, GroupIndex<LotRow, ByLine>>,
    pub envelopes: IndexedTable<EnvelopeRow, EnvelopeIndexes>,
    pub seals: Table<SealRow>,
    pub securities: IndexedTable<SecurityRow, SecurityIndexes>,
    pub awards: IndexedTable<AwardRow, GroupIndex<AwardRow, ByNotice>>,
    pub contracts: IndexedTable<ContractRow, GroupIndex<ContractRow, ByNotice>>,
    pub entries: Table<EntryRow>,
    pub releases: Table<ReleaseRow>,
    pub compiled: Table<CompiledRow>,
    pub late_rules: Table<LateRow>,
    pub performances: Table<PerformanceRow>,
    pub clock: ClockRow,
}

/// The data that takes one change back.
#[derive(Drop)]
pub enum Undo {
    Line(Replaced<LineRow>),
    Batch(Replaced<BatchRow>),
    Tenderer(Replaced<TendererRow>),
    Notice(Replaced<NoticeRow>),
    Lot(Replaced<LotRow>),
    Envelope(Replaced<EnvelopeRow>),
    Seal(Replaced<SealRow>),
    Security(Replaced<SecurityRow>),
    Award(Replaced<AwardRow>),
    Contract(Replaced<ContractRow>),
    Entry(Replaced<EntryRow>),
    Release(Replaced<ReleaseRow>),
    Compiled(Replaced<CompiledRow>),
    Late(Replaced<LateRow>),
    Performance(Replaced<PerformanceRow>),
    Clock(ClockRow),
    /// The change left the tables as they were.
    Nothing,
}

/// The clock of an office that has accepted no command.
fn first_clock() -> ClockRow
    ensures { result ≡ no_tables.clock }
{
    let none = LastNumber::read(0).unwrap();
    ClockRow {
        moment: Moment::EPOCH,
        receipts: none,
        awards: none,
    }
}

/// Tables without rows. It allocates no memory.
pub fn empty(alloc: Global) -> MemoryTables
    ensures { tables_of result ≡ no_tables }
{
    MemoryTables {
        lines: Table::new(alloc),
        batches: Table::new(alloc),
        tenderers: Table::new(alloc),
        notices: Table::new(alloc),
        lots: IndexedTable::new(alloc),
        envelopes: IndexedTable::new(alloc),
        seals: Table::new(alloc),
        securities: IndexedTable::new(alloc),
        awards: IndexedTable::new(alloc),
        contracts: IndexedTable::new(alloc),
        entries: Table::new(alloc),
        releases: Table::new(alloc),
        compiled: Table::new(alloc),
        late_rules: Table::new(alloc),
        performances: Table::new(alloc),
        clock: first_clock(),
    }
}

/// Removes a receipt from those whose sealed bytes are still to be dropped.
fn forget(drops: &mut Vec<u64>, receipt: u64)
    ensures { drops.new.items ≡ filter (λ k. not (nat_eq k receipt)) drops.old.items }
{
    drops.retain(|k| *k != receipt);
}

/// Puts sealed bytes, which then are no longer to be dropped.
fn put_seal(
    tables: &mut MemoryTables,
    drops: &mut Vec<u64>,
    row: SealRow,
) -> Result<Undo, AllocError>
    ensures after { OnOk result (without_seals drops.new.items (tables_of tables.new) ≡ after_put (Seal row) (without_seals drops.old.items (tables_of tables.old))) }
    ensures back { IfOk result (λ undo. after_undo undo (tables_of tables.new) ≡ tables_of tables.old) }
    ensures can { IfOk result (λ undo. CanUndo undo (tables_of tables.new)) }
    ensures kept { OnErr result (tables_of tables.new ≡ tables_of tables.old) }
{
    rows_are_kept::<SealRow>();
    tables.seals.keys_rise();
    let receipt = row.key();
    let replaced = tables.seals.put(row)?;
    forget(drops, receipt);
    Ok(Undo::Seal(replaced))
}

/// Makes one change, and returns the data that takes it back. A drop is only remembered for later.
fn put_one(tables: &mut MemoryTables, drops: &mut Vec<u64>, put: Put) -> Result<Undo, AllocError>
    ensures after { OnOk result (without_seals drops.new.items (tables_of tables.new) ≡ after_put put (without_seals drops.old.items (tables_of tables.old))) }
    ensures back { IfOk result (λ undo. after_undo undo (tables_of tables.new) ≡ tables_of tables.old) }
    ensures can { IfOk result (λ undo. CanUndo undo (tables_of tables.new)) }
    ensures kept { OnErr result (tables_of tables.new ≡ tables_of tables.old) }
{
    match put {
        Put::Line(row) => Ok(Undo::Line(tables.lines.put(row)?)),
        Put::Batch(row) => Ok(Undo::Batch(tables.batches.put(row)?)),
        Put::Tenderer(row) => Ok(Undo::Tenderer(tables.tenderers.put(row)?)),
        Put::Notice(row) => Ok(Undo::Notice(tables.notices.put(row)?)),
        Put::Lot(row) => Ok(Undo::Lot(tables.lots.put(row)?)),
        Put::Envelope(row) => Ok(Undo::Envelope(tables.envelopes.put(row)?)),
        Put::Seal(row) => put_seal(tables, drops, row),
        Put::DropSeal(receipt) => {
            drops.push(receipt.get())?;
            Ok(Undo::Nothing)
        }
        Put::Security(row) => Ok(Undo::Security(tables.securities.put(row)?)),
        Put::Award(row) => Ok(Undo::Award(tables.awards.put(row)?)),
        Put::Contract(row) => Ok(Undo::Contract(tables.contracts.put(row)?)),
        Put::Entry(row) => Ok(Undo::Entry(tables.entries.put(row)?)),
        Put::Release(row) => Ok(Undo::Release(tables.releases.put(row)?)),
        Put::Compiled(row) => Ok(Undo::Compiled(tables.compiled.put(row)?)),
        Put::Late(row) => Ok(Undo::Late(tables.late_rules.put(row)?)),
        Put::Performance(row) => Ok(Undo::Performance(tables.performances.put(row)?)),
        Put::Clock(row) => Ok(Undo::Clock(mem::replace(&mut tables.clock, row))),
    }
}

/// Takes one change back. It allocates no memory.
fn take_back(tables: &mut MemoryTables, undo: Undo)
    requires { CanUndo undo (tables_of tables.old) }
    ensures { tables_of tables.new ≡ after_undo undo (tables_of tables.old) }
{
    match undo {
        Undo::Line(replaced) => tables.lines.take_back(replaced),
        Undo::Batch(replaced) => tables.batches.take_back(replaced),
        Undo::Tenderer(replaced) => tables.tenderers.take_back(replaced),
        Undo::Notice(replaced) => tables.notices.take_back(replaced),
        Undo::Lot(replaced) => tables.lots.take_back(replaced),
        Undo::Envelope(replaced) => tables.envelopes.take_back(replaced),
        Undo::Seal(replaced) => tables.seals.take_back(replaced),
        Undo::Security(replaced) => tables.securities.take_back(replaced),
        Undo::Award(replaced) => tables.awards.take_back(replaced),
        Undo::Contract(replaced) => tables.contracts.take_back(replaced),
        Undo::Entry(replaced) => tables.entries.take_back(replaced),
        Undo::Release(replaced) => tables.releases.take_back(replaced),
        Undo::Compiled(replaced) => tables.compiled.take_back(replaced),
        Undo::Late(replaced) => tables.late_rules.take_back(replaced),
        Undo::Performance(replaced) => tables.performances.take_back(replaced),
        Undo::Clock(row) => tables.clock = row,
        Undo::Nothing => {}
    }
}

/// Takes changes back, the last one first. It allocates no memory.
fn take_back_all(tables: &mut MemoryTables, mut undos: Vec<Undo>)
    requires { CanUndoAll undos.items (tables_of tables.old) }
    ensures { tables_of tables.new ≡ after_undos undos.items (tables_of tables.old) }
{
    while let Some(undo) = undos.pop() {
        take_back(tables, undo);
    }
}

/// Drops the sealed bytes of these receipts. It allocates no memory.
fn drop_all(tables: &mut MemoryTables, drops: Vec<u64>)
    ensures { tables_of tables.new ≡ without_seals drops.items (tables_of tables.old) }
{
    for receipt in drops {
        tables.seals.remove(&receipt);
    }
}

/// Makes all changes, in order, or none if there is too little memory.
pub fn apply_all(alloc: Global, tables: &mut MemoryTables, puts: Vec<Put>) -> Result<(), AllocError>
    ensures all { OnOk result (tables_of tables.new ≡ after_puts puts.items (tables_of tables.old)) }
    ensures none { OnErr result (tables_of tables.new ≡ tables_of tables.old) }
{
    let mut undos = Vec::with_capacity(alloc, puts.len())?;
    // Restoring a dropped row could fail for too little memory. So sealed bytes are dropped last, when nothing else can fail.
    let mut drops = Vec::new(alloc);
    for put in puts {
        match put_one(tables, &mut drops, put) {
            Ok(undo) => undos.push(undo).unwrap(),
            Err(error) => {
                take_back_all(tables, undos);
                return Err(error);
            }
        }
    }
    drop_all(tables, drops);
    Ok(())
}
