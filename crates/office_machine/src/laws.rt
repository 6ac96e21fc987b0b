ghost use Rattle.office_machine.specs.Accounts.{AccountsAreKept, TablesAreInOrder};
ghost use Rattle.office_machine.specs.AwardsShown.{AwardsWereShown, WinnersAreShown};
ghost use Rattle.office_machine.specs.Clock.{ClockIsSet, ClockNeverRunsBack};
ghost use Rattle.office_machine.specs.ContractTerms.{ContractsAreOfAwards};
ghost use Rattle.office_machine.specs.Entries.{EntriesAreKept};
ghost use Rattle.office_machine.specs.Fits.{SumsInRange};
ghost use Rattle.office_machine.specs.Imports.{ImportsAreKept};
ghost use Rattle.office_machine.specs.InTime.{NoneInTimeAfterLate};
ghost use Rattle.office_machine.specs.Lacking.{NothingIsLacking};
ghost use Rattle.office_machine.specs.Late.{LateRulesAreKept};
ghost use Rattle.office_machine.specs.MergesApart.{FatesReadNoMerges, LooksReadNoMerges, NextReadsNoMerges, PutsReadNoMerges, RefusalsReadNoMerges, RepliesReadNoMerges};
ghost use Rattle.office_machine.specs.NoParents.{NoKindIsForgotten, NoOwnerIsReplaced, NoParentIsMade};
ghost use Rattle.office_machine.specs.Order.{LeastIsAnswered, NumbersNeverFall};
ghost use Rattle.office_machine.specs.Outstanding.{LeftIsBooked, LeftIsKnown};
ghost use Rattle.office_machine.specs.PagesAlong.{NothingIsTakenAway, PagesAreWholeAlong};
ghost use Rattle.office_machine.specs.Parents.{ParentsAreThere, PerformancesAreThere};
ghost use Rattle.office_machine.specs.QueryOrder.{FirstAnswersQuery, LeastAnswersQuery};
ghost use Rattle.office_machine.specs.Registered.{TenderersAreKept};
ghost use Rattle.office_machine.specs.Releases.{ReleasesAreCounted, ReleasesAreInTime, ReleasesAreNumbered, ReleasesArePublished};
ghost use Rattle.office_machine.specs.Requests.{RunsReach, StepsReach};
ghost use Rattle.office_machine.specs.Terms.{TermsAreKept};
ghost use Rattle.office_machine.specs.Worlds.{StepsStayAlike};

/// In every reached office, each balance of each budget line, summed from rows, is the money that accepted commands moved into it, less what they moved out.
/// The appropriation of the line is the sum of its four balances.
pub fn accounts()
    ensures { AccountsAreKept }
{}

/// In every reached office, the rows of each table are in the order of their keys, and no key occurs twice.
pub fn order()
    ensures { TablesAreInOrder }
{}

/// The clock has the moment of the last accepted command, and no accepted command puts it back.
pub fn clock()
    ensures set { ClockIsSet }
    ensures forward { ClockNeverRunsBack }
{}

/// The refusals of each command are tried in the order of their numbers. So a command is answered by the refusal with the least number among those whose
/// conditions hold.
pub fn refusals()
    ensures order { NumbersNeverFall }
    ensures least { LeastIsAnswered }
{}

/// A query is refused for the first of its conditions that holds, which has the least number, and is shown if none of them holds.
pub fn query_refusals()
    ensures first { FirstAnswersQuery }
    ensures least { LeastAnswersQuery }
{}

/// An accepted command leads from a reached office to a reached office. So the commands that a run of requests accepts lead to its last office.
pub fn runs()
    ensures steps { StepsReach }
    ensures runs { RunsReach }
{}

/// In every reached office, each sum over rows is within the bound of sums: those of lines, of lots and of contracts.
pub fn sums()
    ensures { SumsInRange }
{}

/// After an accepted command on a contract, its outstanding amount follows from the rows that the command looks at. In a reached office, a raise adds its
/// amount, a cut or a payment takes its amount off, and an end leaves nothing.
pub fn outstanding()
    ensures known { LeftIsKnown }
    ensures booked { LeftIsBooked }
{}

/// In every reached office, each row that another row refers to exists. A contract has a performance security if its notice asks for one.
pub fn parents()
    ensures there { ParentsAreThere }
    ensures performances { PerformancesAreThere }
{}

/// In a reached office, a command that isn't refused finds every row that it needs. No more went from a contract, or from an appropriation, than had come.
pub fn lacking()
    ensures { NothingIsLacking }
{}

/// Over any tables, an accepted command that misses no row makes no missing parent of a row, and replaces no row of another owner.
/// These are all kinds of parents but those that neither a key nor an index finds.
pub fn no_parents()
    ensures made { NoParentIsMade }
    ensures replaced { NoOwnerIsReplaced }
    ensures kinds { NoKindIsForgotten }
{}

/// The reply to an accepted award names the winner that the evaluation shows, to the clerk just before it and to everyone just after it. The winner is
/// admissible, and no other admissible tender of the lot is better. If nobody wins, no tender is shown as admissible.
/// Each award of a reached office was made by an accepted command, for a tender that was shown as best just before.
pub fn awards()
    ensures winners { WinnersAreShown }
    ensures made { AwardsWereShown }
{}

/// In every reached office, tenders of a notice may be withdrawn late exactly if its accepted publication said that this forfeits the security.
pub fn late_withdrawals()
    ensures { LateRulesAreKept }
{}

/// Once a tender of a notice came late, no accepted command takes in a tender of that notice in time.
pub fn late_tenders()
    ensures { NoneInTimeAfterLate }
{}

/// No accepted command takes away a notice or a tenderer. A reader of their lists, page by page while commands are accepted, sees no row twice. At the end
/// the reader has seen each row that the list had at the first request.
pub fn pages_along()
    ensures stay { NothingIsTakenAway }
    ensures whole { PagesAreWholeAlong }
{}

/// In every reached office, a contract is on its award's lot, at its award's price, with the tenderer of the awarded tender.
pub fn contracts()
    ensures { ContractsAreOfAwards }
{}

/// In every reached office, a notice has the terms of its publication, with the deadline of its last amendment. A lot has the terms of
/// its notice's publication, an entry of a contract the amount of its command, and a tenderer the name and address of its registration.
pub fn terms()
    ensures notices { TermsAreKept }
    ensures entries { EntriesAreKept }
    ensures tenderers { TenderersAreKept }
{}

/// In every reached office, the budget files are the imported ones, each with the moment and the number of rows of its command. The budget lines are those that
/// the rows of imports name, each with the title of the last row that names it.
pub fn imports()
    ensures { ImportsAreKept }
{}

/// The row of a notice counts the releases that commands published for it, at most `release_limit`. The notice has a release of each number from 1 to this
/// count, and no other, if a release is made of each command that publishes. Its releases are the published ones, in their sequence, and their moments never
/// fall.
pub fn releases()
    ensures counted { ReleasesAreCounted }
    ensures numbered { ReleasesAreNumbered }
    ensures published { ReleasesArePublished }
    ensures in_time { ReleasesAreInTime }
{}

/// Two commands that differ only in bytes of equal length that one tenderer seals for one lot have the same refusal. They leave two offices alike that were
/// alike: these differ only in digests and seals of such tenders. An opening must find equal seals.
pub fn worlds()
    ensures { StepsStayAlike }
{}

/// Merges of releases are stored beside an office and are no part of it. No refusal, reply or fate of a tender depends on them. Nor do the changes of a command
/// or the later office, if the texts of releases don't, nor the replies to queries, if the texts of packages don't.
pub fn merges()
    ensures refusals { RefusalsReadNoMerges }
    ensures replies { RepliesReadNoMerges }
    ensures looks { LooksReadNoMerges }
    ensures puts { PutsReadNoMerges }
    ensures next { NextReadsNoMerges }
    ensures fates { FatesReadNoMerges }
{}
