//! Facts that follow of an office in a file.
ghost use Rattle.procure_programs.specs.Premises.{PremisesAreMet};
ghost use Rattle.procure_programs.specs.Serving.{DaysFollow, KeysFollow};

use office_machine::laws::order;
use office_publications::laws::keeping;
use office_sums::laws::{nothing_counted, nothing_found, nothing_listed, nothing_remembered};

/// An office continues from day to day: if a run finds the files as another run left them, both together are one run. This is also true if the clerk has
/// another key from then on, because nothing that the office publishes depends on it.
pub fn days()
    ensures one { DaysFollow }
    ensures keys { KeysFollow }
{}

/// Each reached office is that of some desk, and the empty office that of two files without a byte. So the clauses about desks and files aren't empty.
pub fn premises()
    ensures { PremisesAreMet }
{
    order();
    keeping();
    nothing_remembered();
    nothing_counted();
    nothing_listed();
    nothing_found();
}
