//! The laws of the fates of tenders and securities.
ghost use Rattle.office_machine.specs.Fates.{SecuritiesAreKept, TendersAreKept, PerformancesAreKept};
ghost use Rattle.office_machine.specs.Folded.{RowsAreFolded};

/// In every reached office, each receipt that was given out has one envelope, and there are no others. The envelope has the digest and the length of the bytes
/// that came in, and the state that accepted commands gave it. Its seal has these bytes, and exists only while the tender is sealed or opened.
pub fn tenders()
    ensures { TendersAreKept }
{}

/// In every reached office, the securities are those that were named with accepted tenders, each in the state that accepted commands gave it.
pub fn securities()
    ensures { SecuritiesAreKept }
{}

/// In every reached office, the performance securities are those that were named at accepted signings. The first end of its contract decides the state of each.
pub fn performances()
    ensures { PerformancesAreKept }
{}

/// In every reached office, the rows of tenders, seals, securities and performance securities are functions of the accepted commands. In a tender's row this
/// leaves out the columns that its opening and its examination write.
pub fn rows()
    ensures { RowsAreFolded }
{}
