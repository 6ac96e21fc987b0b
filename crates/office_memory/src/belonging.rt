//! How the rows of a notice, a lot, a line or a contract are found: by the order of their keys, or by an index.
ghost use Rattle.office_values.specs.Ids.{same_id};
ghost use Rattle.office_base.specs.Tables.{same_number, of_notice};

use crate::child::Child;
use crate::group_index::{GroupIndex, Grouping};
use crate::id_bounds::{greatest_id, least_id};
use crate::indexes::Indexes;
use keyed_table::table::Replaced;
use office_base::records::{
    AwardRow, ContractRow, EntryRow, EnvelopeRow, LotRow, ReleaseRow, SecurityRow,
};
use office_values::id::Id;
use std::alloc::{AllocError, Global};

// The key of a lot begins with its notice.
impl Child for LotRow {
    type Parent = Id;

    ghost is_of = { of_notice };

    fn key_range(notice: &Id) -> ((Id, Id), (Id, Id)) {
        ((*notice, least_id()), (*notice, greatest_id()))
    }
}

// The key of an entry begins with its contract.
impl Child for EntryRow {
    type Parent = u64;

    ghost is_of = { λ contract e. same_number e.contract contract };

    fn key_range(contract: &u64) -> ((u64, Id), (u64, Id)) {
        ((*contract, least_id()), (*contract, greatest_id()))
    }
}

// The key of a release begins with its notice.
impl Child for ReleaseRow {
    type Parent = Id;

    ghost is_of = { λ notice r. same_id r.notice notice };

    fn key_range(notice: &Id) -> ((Id, u64), (Id, u64)) {
        ((*notice, 0), (*notice, u64::MAX))
    }
}

/// Groups rows by their budget line.
pub struct ByLine;

impl Grouping<LotRow> for ByLine {
    type Group = Id;

    ghost group_of = { λ r. r.line };

    fn group(row: &LotRow) -> Id {
        row.line
    }
}

/// Groups rows by their notice.
pub struct ByNotice;

impl Grouping<EnvelopeRow> for ByNotice {
    type Group = Id;

    ghost group_of = { λ r. r.notice };

    fn group(row: &EnvelopeRow) -> Id {
        row.notice
    }
}

impl Grouping<SecurityRow> for ByNotice {
    type Group = Id;

    ghost group_of = { λ r. r.notice };

    fn group(row: &SecurityRow) -> Id {
        row.notice
    }
}

impl Grouping<AwardRow> for ByNotice {
    type Group = Id;

    ghost group_of = { λ r. r.notice };

    fn group(row: &AwardRow) -> Id {
        row.notice
    }
}

impl Grouping<ContractRow> for ByNotice {
    type Group = Id;

    ghost group_of = { λ r. r.notice };

    fn group(row: &ContractRow) -> Id {
        row.notice
    }
}

/// Groups rows by their lot, which is a notice and an identifier.
pub struct ByLot;

impl Grouping<EnvelopeRow> for ByLot {
    type Group = (Id, Id);

    ghost group_of = { λ r. (r.notice, r.lot) };

    fn group(row: &EnvelopeRow) -> (Id, Id) {
        (row.notice, row.lot)
    }
}

impl Grouping<SecurityRow> for ByLot {
    type Group = (Id, Id);

    ghost group_of = { λ r. (r.notice, r.lot) };

    fn group(row: &SecurityRow) -> (Id, Id) {
        (row.notice, row.lot)
    }
}

/// Groups tenders by their lot and their tenderer.
pub struct ByTenderer;

impl Grouping<EnvelopeRow> for ByTenderer {
    type Group = (Id, Id, Id);

    ghost group_of = { λ r. (r.notice, r.lot, r.tenderer) };

    fn group(row: &EnvelopeRow) -> (Id, Id, Id) {
        (row.notice, row.lot, row.tenderer)
    }
}

/// The indexes of tender securities: by notice, and by lot.
#[derive(Drop)]
pub struct SecurityIndexes {
    pub by_notice: GroupIndex<SecurityRow, ByNotice>,
    pub by_lot: GroupIndex<SecurityRow, ByLot>,
}

impl Indexes<SecurityRow> for SecurityIndexes {
    ghost covers = { λ all rows. ⟦<GroupIndex<SecurityRow, ByNotice> as Indexes<SecurityRow>>⟧.covers all.by_notice rows
        × ⟦<GroupIndex<SecurityRow, ByLot> as Indexes<SecurityRow>>⟧.covers all.by_lot rows };

    fn new(alloc: Global) -> SecurityIndexes {
        SecurityIndexes {
            by_notice: GroupIndex::new(alloc),
            by_lot: GroupIndex::new(alloc),
        }
    }

    fn add_row(&mut self, row: &SecurityRow) -> Result<(), AllocError> {
        self.by_notice.add_row(row)?;
        self.by_lot.add_row(row)
    }

    fn go_back(&mut self, replaced: &Replaced<SecurityRow>) {
        self.by_notice.go_back(replaced);
        self.by_lot.go_back(replaced);
    }
}

/// The indexes of tenders: by notice, by lot, and by lot and tenderer.
#[derive(Drop)]
pub struct EnvelopeIndexes {
    pub by_notice: GroupIndex<EnvelopeRow, ByNotice>,
    pub by_lot: GroupIndex<EnvelopeRow, ByLot>,
    pub by_tenderer: GroupIndex<EnvelopeRow, ByTenderer>,
}

impl Indexes<EnvelopeRow> for EnvelopeIndexes {
    ghost covers = { λ all rows. ⟦<GroupIndex<EnvelopeRow, ByNotice> as Indexes<EnvelopeRow>>⟧.covers all.by_notice rows
        × ⟦<GroupIndex<EnvelopeRow, ByLot> as Indexes<EnvelopeRow>>⟧.covers all.by_lot rows
        × ⟦<GroupIndex<EnvelopeRow, ByTenderer> as Indexes<EnvelopeRow>>⟧.covers all.by_tenderer rows };

    fn new(alloc: Global) -> EnvelopeIndexes {
        EnvelopeIndexes {
            by_notice: GroupIndex::new(alloc),
            by_lot: GroupIndex::new(alloc),
            by_tenderer: GroupIndex::new(alloc),
        }
    }

    fn add_row(&mut self, row: &EnvelopeRow) -> Result<(), AllocError> {
        self.by_notice.add_row(row)?;
        self.by_lot.add_row(row)?;
        self.by_tenderer.add_row(row)
    }

    fn go_back(&mut self, replaced: &Replaced<EnvelopeRow>) {
        self.by_notice.go_back(replaced);
        self.by_lot.go_back(replaced);
        self.by_tenderer.go_back(replaced);
    }
}
