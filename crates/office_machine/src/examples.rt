//! Worked examples of the specification: the prover computes each of them.
ghost use Rattle.office_machine.specs.Worked.Amending.{AmendingWorked};
ghost use Rattle.office_machine.specs.Worked.Awarding.{AwardingWorked};
ghost use Rattle.office_machine.specs.Worked.Budgets.{BudgetsWorked};
ghost use Rattle.office_machine.specs.Worked.Cancelling.{CancellingWorked};
ghost use Rattle.office_machine.specs.Worked.Contracts.{ContractsWorked};
ghost use Rattle.office_machine.specs.Worked.Dates.{DatesWorked};
ghost use Rattle.office_machine.specs.Worked.Evaluating.{EvaluatingWorked};
ghost use Rattle.office_machine.specs.Worked.Examining.{ExaminingWorked};
ghost use Rattle.office_machine.specs.Worked.Fates.{FatesWorked};
ghost use Rattle.office_machine.specs.Worked.Listing.{ListingWorked};
ghost use Rattle.office_machine.specs.Worked.Looking.{LookingWorked};
ghost use Rattle.office_machine.specs.Worked.Opening.{OpeningWorked};
ghost use Rattle.office_machine.specs.Worked.Publishing.{PublishingWorked};
ghost use Rattle.office_machine.specs.Worked.Receiving.{ReceivingWorked};
ghost use Rattle.office_machine.specs.Worked.Refusing.{RefusingWorked};
ghost use Rattle.office_machine.specs.Worked.Registering.{RegisteringWorked};
ghost use Rattle.office_machine.specs.Worked.Releases.{ReleasesWorked};
ghost use Rattle.office_machine.specs.Worked.Replacing.{ReplacingWorked};
ghost use Rattle.office_machine.specs.Worked.Rights.{RightsWorked};
ghost use Rattle.office_machine.specs.Worked.Seals.{SealsWorked};
ghost use Rattle.office_machine.specs.Worked.Securities.{SecuritiesWorked};
ghost use Rattle.office_machine.specs.Worked.Withdrawing.{WithdrawingWorked};
ghost use Rattle.office_machine.specs.Worked.Performances.{PerformancesWorked};
ghost use Rattle.office_machine.specs.Worked.Signing.{SigningWorked};
ghost use Rattle.office_machine.specs.Worked.WholeRun.{WholeRunWorked};

/// The dates of the worked examples.
pub fn dates()
    ensures { DatesWorked }
{}

/// Budget files add money to budget lines and cut it from them, up to the free money and to the bound of sums.
pub fn budgets()
    ensures { BudgetsWorked }
{}

/// Tenderers are registered, each with an identifier that no other has.
pub fn registering()
    ensures { RegisteringWorked }
{}

/// A notice reserves the estimates of its lots, up to the free money.
pub fn publishing()
    ensures { PublishingWorked }
{}

/// The deadline of a notice moves to a later moment, as long as it isn't over.
pub fn amending()
    ensures { AmendingWorked }
{}

/// Sealed tenders come in time or late. Each gets a receipt, and a late one is returned.
pub fn receiving()
    ensures { ReceivingWorked }
{}

/// Sealed tenders are replaced and withdrawn before the deadline.
pub fn replacing()
    ensures { ReplacingWorked }
{}

/// Which callers see a tender, a security, the register and the minutes.
pub fn looking()
    ensures { LookingWorked }
{}

/// Tender securities are required, held, returned and forfeited.
pub fn securities()
    ensures { SecuritiesWorked }
{}

/// Tenders are withdrawn after the deadline if their notice allows it, and forfeit their securities.
pub fn withdrawing()
    ensures { WithdrawingWorked }
{}

/// Performance securities are required at the signing, and returned or forfeited at the end of the contract.
pub fn performances()
    ensures { PerformancesWorked }
{}

/// Tenders are opened from the deadline on, and the minutes show how they were read.
pub fn opening()
    ensures { OpeningWorked }
{}

/// Opened tenders are examined, and get points for quality if the notice says that points decide.
pub fn examining()
    ensures { ExaminingWorked }
{}

/// The best tender wins the lot, by the lowest price or by the most points; or nobody wins it.
pub fn awarding()
    ensures { AwardingWorked }
{}

/// The evaluation shows how an award was decided, to the clerk and to others.
pub fn evaluating()
    ensures { EvaluatingWorked }
{}

/// A contract is signed after the standstill. A winner who doesn't sign is passed over.
pub fn signing()
    ensures { SigningWorked }
{}

/// Contracts are raised up to the free money, and cut and paid up to the outstanding amount. Their end frees the rest.
pub fn contracts()
    ensures { ContractsWorked }
{}

/// The lists of notices, own tenders, securities and tenderers, the terms and the contracts, and the callers that see them.
pub fn listing()
    ensures { ListingWorked }
{}

/// A cancellation returns the tenders and securities, and frees the money, of lots that have no contract.
pub fn cancelling()
    ensures { CancellingWorked }
{}

/// Some commands publish a release, and a notice may have a limited number of them.
pub fn releases()
    ensures { ReleasesWorked }
{}

/// Which callers may give which commands. Others are refused.
pub fn rights()
    ensures { RightsWorked }
{}

/// Which of several refusals is answered. A refused request and a query change nothing.
pub fn refusing()
    ensures { RefusingWorked }
{}

/// The fates that accepted commands give to tenders and securities.
pub fn fates()
    ensures { FatesWorked }
{}

/// Two runs that differ in the bytes that one tenderer seals give nobody else different replies.
pub fn seals()
    ensures { SealsWorked }
{}

/// A whole procurement by all sixteen commands, from its money to its payments, with the money that it moved.
pub fn whole_run()
    ensures { WholeRunWorked }
{}
