//! The texts that the public sees of an office.
ghost use Rattle.std.specs.Prelude.{◌≡◌, Err, IfErr, false};
ghost use Rattle.office_commands.specs.Queries as queries;
ghost use Rattle.office_commands.specs.Rights.{may_look};
ghost use Rattle.office_commands.specs.declared.command.Caller.TheVariants.{Public};
ghost use Rattle.office_base.specs.Shelves.{Looks};
ghost use Rattle.office_values.specs.declared.refusal.Refusal.TheVariants.{Forbidden};
ghost use Rattle.procure_config.specs.declared.fault.ProgramFault.TheVariants.{Refused};
ghost use Rattle.procure_programs.specs.Showing.{IsOfOffice, IsShown};

use office_base::shelf::{Lookups, Shelf};
use office_commands::command::Caller;
use office_commands::queries::Query;
use office_desk::desk::Desk;
use procure_config::fault::ProgramFault;

/// The text that a program prints of an office.
#[derive(Clone, Copy)]
pub enum Printout {
    /// The text that the public sees by a query.
    Seen(Query),
    /// A line for each notice.
    Notices,
}

/// The text that the public sees by a query; the programs `ledger`, `minutes`, `record` and `evaluation` print it. A refusal is `Refused`. Nothing changes.
pub fn show<H: Shelf + Drop>(desk: &mut Desk<H>, query: Query) -> Result<Vec<u8>, ProgramFault>
    ensures looks { Looks H.meaning desk.old.shelf desk.new.shelf (λ s. IsShown desk.old.settings query s result) }
    ensures settings { desk.new.settings ≡ desk.old.settings }
    ensures refuses { IfErr result IsOfOffice }
    ensures forbidden { may_look Public (queries.query_kind_of query) ≡ false → result ≡ Err (Refused Forbidden) }
{
    match desk.look(&Caller::Public, query) {
        Ok(text) => Ok(text),
        Err(refusal) => Err(ProgramFault::Refused(refusal)),
    }
}
