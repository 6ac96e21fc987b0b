//! The laws of sealed tenders.
ghost use Rattle.office_machine.specs.Seals.{SealsAreKept, WholeRunsAreAlike};

/// Two runs start from a reached office, and their requests differ only in bytes of equal length that one tenderer seals for one lot. Until the lot's notice is
/// opened, every other caller gets the same replies in both, and this tenderer's replies differ at most in digests.
pub fn seals()
    ensures { SealsAreKept }
{}

/// If each tender whose bytes differ is withdrawn or returned in the end, this is true of both runs to their end.
pub fn whole()
    ensures { WholeRunsAreAlike }
{}
