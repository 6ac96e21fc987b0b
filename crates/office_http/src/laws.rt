//! Laws of an office that is asked over HTTP.
ghost use Rattle.office_publications.specs.Sealed.{PublishedRunsAreAlike, PublishedSealsAreKept};
ghost use Rattle.office_http.specs.Joined.{RequestsAreKept, StepsAreKept};
ghost use Rattle.office_http.specs.Sealed.{AnsweredRunsAreAlike, AnsweredSealsAreKept, MeaningsReadTenderers};

use office_machine::{fates, laws};
use office_publications::laws::{keeping, merges_apart};
use office_publications::sealed;
use office_requests::asked::can_be_given;

/// If accepted commands lead from the empty office to an office, then those that requests and whole runs add lead to the office after them. Its accounts are
/// the sums that they moved, and each tender and each security, of a tender or of a contract, has the fate that they gave it.
pub fn accounts_and_fates()
    ensures requests { RequestsAreKept }
    ensures steps { StepsAreKept }
{
    laws::accounts();
    keeping();
    can_be_given();
    fates::tenders();
    fates::securities();
    fates::performances();
}

/// Take two runs from one office whose requests differ only in the bytes that one tenderer seals for one lot. Up to the opening of the lot's notice, every
/// other caller gets the same replies, and this tenderer gets replies that differ only in the digest. If each receipt whose bytes differ is withdrawn or
/// returned in the end, this holds for both runs as a whole.
///
/// It holds of the replies, and of the bytes of each response over HTTP, in `answer` and in a run. Two requests of the same bytes mean the same to both
/// offices, because these know the same tenderers.
pub fn seals()
    ensures seals { PublishedSealsAreKept }
    ensures whole { PublishedRunsAreAlike }
    ensures answers { AnsweredSealsAreKept }
    ensures runs { AnsweredRunsAreAlike }
    ensures meanings { MeaningsReadTenderers }
{
    sealed::kept();
    laws::merges();
    merges_apart();
    can_be_given();
}
