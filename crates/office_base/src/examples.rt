//! Examples of the definitions, computed.
ghost use Rattle.std.specs.Prelude.{◌≡◌};
ghost use Rattle.office_base.specs.Joined.{ledger_of};
ghost use Rattle.office_base.specs.WorkedOffice.{worked_ledger, worked_office};

/// The ledger of a line that has contracts, one of them without entries, and of a line without lots.
pub fn worked_pots()
    ensures { ledger_of worked_office ≡ worked_ledger }
{}
