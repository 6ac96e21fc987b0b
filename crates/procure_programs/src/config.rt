//! The settings of an office, from their file.
ghost use Rattle.std.specs.Prelude.{◌≡◌, Ok, IfErr, IfOk};
ghost use Rattle.procure_config.specs.Configuration.{settings_in};
ghost use Rattle.procure_programs.specs.Showing.{IsOfSettings, IsOfText};

use crate::faults::of_unread_settings;
use office_values::settings::Settings;
use procure_config::fault::ProgramFault;
use procure_config::settings::read_settings;
use std::alloc::Global;
use std::fs;

/// The settings that a text gives. The fault is that of the text, or memory is too small.
#[tactic(auto, using(crate::proofs::FaultSteps::settings_are, crate::proofs::FaultSteps::of_text))]
pub fn settings_of_text(alloc: Global, text: &[u8]) -> Result<Settings, ProgramFault>
    ensures settings { IfOk result (λ settings. settings_in text.now ≡ Ok settings) }
    ensures cause { IfErr result (IsOfText text.now) }
    ensures fault { IfErr result IsOfSettings }
{
    match read_settings(alloc, text) {
        Ok(settings) => Ok(settings),
        Err(fault) => Err(ProgramFault::from(fault)),
    }
}

/// The bytes of the settings' file. No contract can say which they are. The fault is of the settings, or of memory.
pub fn text_at(rt: &HostRuntime, path: &str) -> Result<Vec<u8>, ProgramFault>
    ensures fault { IfErr result IsOfSettings }
{
    match fs::read(rt, path) {
        Ok(text) => Ok(text),
        Err(error) => Err(of_unread_settings(error)),
    }
}
