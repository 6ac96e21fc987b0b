//! The faults with which a program ends.
ghost use Rattle.std.specs.Prelude.{◌≡◌};
ghost use Rattle.procure_config.specs.Faults as spec;

use crate::settings::{SettingName, SettingsFault};
use clap::error::ErrorKind;
use office_values::refusal::Refusal;
use std::alloc::AllocError;
use std::fmt;

/// The reason why a program ends. Its `Display` is the line for the standard error, without its end. For `Arguments` it is clap's text, with its ends of lines.
#[derive(Debug)]
pub enum ProgramFault {
    /// The arguments don't fit the command line, or they ask for help or for the version.
    Arguments(clap::Error),
    /// The first faulty member of the settings. None if the file can't be read or isn't TOML.
    Settings(Option<SettingName>),
    /// The store failed, or its file isn't an office.
    Store,
    /// The input, a port or the clock failed, or a file that is only read: it can't be read, or the office doesn't accept it.
    Input,
    /// The output failed.
    Output,
    /// The office refused the request.
    Refused(Refusal),
}

// Written by hand, so that a program that drops a fault proves no drop of clap's parts.
impl Drop for ProgramFault {
    fn drop(self) {
        match self {
            ProgramFault::Arguments(_) => {}
            ProgramFault::Settings(_) => {}
            ProgramFault::Store => {}
            ProgramFault::Input => {}
            ProgramFault::Output => {}
            ProgramFault::Refused(_) => {}
        }
    }
}

impl fmt::Display for ProgramFault {
    ghost output = { spec.line_of };

    fn fmt<W: fmt::Write>(&self, f: &mut fmt::Formatter<W>) -> fmt::Result {
        match self {
            ProgramFault::Arguments(error) => write!(f, "{error}"),
            ProgramFault::Settings(None) => f.write_str("procure: settings"),
            ProgramFault::Settings(Some(member)) => {
                f.write_str("procure: settings ")?;
                f.write_str(member.name())
            }
            ProgramFault::Store => f.write_str("procure: store"),
            ProgramFault::Input => f.write_str("procure: input"),
            ProgramFault::Output => f.write_str("procure: output"),
            ProgramFault::Refused(refusal) => {
                f.write_str("procure: ")?;
                f.write_str(refusal.name())
            }
        }
    }
}

impl std::error::Error for ProgramFault {}

impl From<SettingsFault> for ProgramFault {
    ghost use Rattle.std.specs.Prelude.{◌≡◌};
    ghost use Rattle.procure_config.specs.Faults.{of_settings};

    ghost from_gives = { λ fault told. told ≡ of_settings fault };

    fn from(fault: SettingsFault) -> ProgramFault {
        match fault {
            SettingsFault::NoMemory => ProgramFault::Refused(Refusal::Unavailable),
            SettingsFault::NotToml => ProgramFault::Settings(None),
            SettingsFault::Member(member) => ProgramFault::Settings(Some(member)),
        }
    }
}

impl From<AllocError> for ProgramFault {
    ghost use Rattle.std.specs.Prelude.{◌≡◌};
    ghost use Rattle.procure_config.specs.Faults.{no_memory};

    ghost from_gives = { λ _ told. told ≡ no_memory };

    fn from(_: AllocError) -> ProgramFault {
        ProgramFault::Refused(Refusal::Unavailable)
    }
}

impl From<clap::Error> for ProgramFault {
    ghost use Rattle.procure_config.specs.Faults.{IsOfParse};

    ghost from_gives = { IsOfParse };

    fn from(error: clap::Error) -> ProgramFault {
        if error.kind() == ErrorKind::OutOfMemory {
            ProgramFault::Refused(Refusal::Unavailable)
        } else {
            ProgramFault::Arguments(error)
        }
    }
}

/// The program's exit status: 2 for its arguments, 1 for anything else.
pub fn exit_code(fault: &ProgramFault) -> u8
    ensures { result ≡ spec.exit_of fault.now }
{
    match fault {
        ProgramFault::Arguments(_) => 2,
        _ => 1,
    }
}
