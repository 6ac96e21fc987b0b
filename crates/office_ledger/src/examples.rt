//! A worked example of the join.
ghost use Rattle.std.specs.Prelude.{◌≡◌};
ghost use Rattle.office_base.specs.WorkedOffice.{worked_office};
ghost use Rattle.office_ledger.specs.Joins.{joined};
ghost use Rattle.office_ledger.specs.WorkedJoin.{worked_join};

/// The join of a line with three lots, and of a line without lots: five rows.
pub fn worked_join()
    ensures { joined worked_office ≡ worked_join }
{}
