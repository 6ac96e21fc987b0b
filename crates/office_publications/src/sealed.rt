//! Laws: the publications of an office reveal nothing about sealed tenders. Each function does nothing, and its contract is the law.
ghost use Rattle.office_publications.specs.Sealed.{PackagesTellNoSeals, PublishedRunsAreAlike, PublishedSealsAreKept, ReleasesTellNoSeals};

use office_machine::seals;

/// The texts of the office's releases depend on no digest of a tender, and on no sealed bytes but those that an opening opens. The texts of its packages depend
/// on neither. The laws of `office_machine::seals` assume this of an office.
pub fn texts()
    ensures publishes { ReleasesTellNoSeals }
    ensures sees { PackagesTellNoSeals }
{}

/// Sealed tenders stay secret in the office that publishes. Two runs whose requests differ only in bytes that one tenderer seals for one lot give every other
/// caller the same replies. The replies to this tenderer differ at most in digests.
/// This is true until the lot's notice is opened. If each tender whose bytes differ is withdrawn or returned in the end, it is true to the end.
pub fn kept()
    ensures seals { PublishedSealsAreKept }
    ensures whole { PublishedRunsAreAlike }
{
    seals::seals();
    seals::whole();
    texts();
}
