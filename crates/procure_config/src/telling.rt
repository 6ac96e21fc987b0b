//! The report of a fault, with which a program ends.
ghost use Rattle.std.specs.Prelude.{◌≡◌, IfSome, IsTrue};
ghost use Rattle.std.specs.Io.KnownBytes.{Appends};
ghost use Rattle.procure_config.specs.Faults as spec;

use crate::fault::{ProgramFault, exit_code};
use std::io::Write;

/// Writes the line of a fault to an output; clap's text has its own ends of lines. Returns the exit status, and whether the whole line was written. If it
/// wasn't, only the status reports the fault.
pub fn tell<W: Write>(output: &mut W, fault: &ProgramFault) -> (u8, bool)
    ensures status { result.0 ≡ spec.exit_of fault.now }
    ensures line { IsTrue result.1 → IfSome (spec.ended_line fault.now) (Appends (W.contents output.old) (W.contents output.new)) }
{
    let told = match fault {
        ProgramFault::Arguments(_) => write!(output, "{fault}"),
        _ => writeln!(output, "{fault}"),
    };
    (exit_code(fault), told.is_ok())
}
