//! The notice that is named on the command line.
ghost use Rattle.std.specs.Prelude.{◌≡◌, IfErr, IfOk};
ghost use Rattle.office_values.specs.Ids.{IsId};
ghost use Rattle.procure_config.specs.Faults.{no_route};

use crate::fault::ProgramFault;
use office_values::id::Id;
use office_values::refusal::Refusal;

/// The identifier that this text is. Any other text is refused with `NoRoute`, as in a path. Takes no memory.
pub fn notice_named(text: &str) -> Result<Id, ProgramFault>
    ensures found { IfOk result (λ notice. notice ≡ text.now) }
    ensures right { IfOk result (λ _. IsId text.now) }
    ensures none { IfErr result (λ _. ¬ (IsId text.now)) }
    ensures refused { IfErr result (λ fault. fault ≡ no_route) }
{
    match Id::read(text.as_bytes()) {
        Some(notice) => Ok(notice),
        None => Err(ProgramFault::Refused(Refusal::NoRoute)),
    }
}
