//! The fault that a program reports for a fault of a run, an opening, a store or a file.
ghost use Rattle.std.specs.Prelude.{◌≡◌, ◌≢◌, None};
ghost use Rattle.std.specs.IoError.{error_kind};
ghost use Rattle.procure_config.specs.Faults.{no_memory};
ghost use Rattle.procure_config.specs.declared.fault.ProgramFault.TheVariants.{Settings};
ghost use Rattle.procure_programs.specs.FaultsTold.{IsOfStore, of_opening, of_run, of_shelf};
ghost use Rattle.procure_programs.specs.Showing.{IsOfSettings};

use office_base::shelf::ShelfFault;
use office_store::found::OpenFault;
use office_values::refusal::Refusal;
use office_wire::fault::RunFault;
use procure_config::fault::ProgramFault;
use std::io::{Error, ErrorKind};

/// Memory is too small, outside of a request.
pub fn no_memory() -> ProgramFault
    ensures { result ≡ no_memory }
{
    ProgramFault::Refused(Refusal::Unavailable)
}

/// The fault of a run over the standard streams.
pub fn of_run(fault: RunFault) -> ProgramFault
    ensures { result ≡ of_run fault }
{
    match fault {
        RunFault::Write => ProgramFault::Output,
        RunFault::Read | RunFault::BadBlock | RunFault::LostPlace => ProgramFault::Input,
    }
}

/// The fault of an opening.
pub fn of_opening(fault: OpenFault) -> ProgramFault
    ensures { result ≡ of_opening fault }
{
    match fault {
        OpenFault::NoMemory => no_memory(),
        OpenFault::Store | OpenFault::NotAnOffice => ProgramFault::Store,
    }
}

/// The fault of a store.
pub fn of_shelf(fault: ShelfFault) -> ProgramFault
    ensures { result ≡ of_shelf fault }
{
    match fault {
        ShelfFault::NoMemory => no_memory(),
        ShelfFault::Store => ProgramFault::Store,
    }
}

/// The fault of settings whose file can't be read.
pub fn of_unread_settings(error: Error) -> ProgramFault
    ensures memory { error_kind error ≡ ErrorKind.OutOfMemory → result ≡ no_memory }
    ensures other { error_kind error ≢ ErrorKind.OutOfMemory → result ≡ Settings None }
    ensures fault { IsOfSettings result }
{
    match error.kind() {
        ErrorKind::OutOfMemory => no_memory(),
        _ => ProgramFault::Settings(None),
    }
}

/// The fault of a file that can't be read, and isn't the settings' or an office's.
pub fn of_unread_file(error: Error) -> ProgramFault
    ensures memory { error_kind error ≡ ErrorKind.OutOfMemory → result ≡ no_memory }
    ensures other { error_kind error ≢ ErrorKind.OutOfMemory → result ≡ ProgramFault.Input }
{
    match error.kind() {
        ErrorKind::OutOfMemory => no_memory(),
        _ => ProgramFault::Input,
    }
}

/// The fault of an office's file that can't be made.
pub fn of_unplaced_file(error: Error) -> ProgramFault
    ensures memory { error_kind error ≡ ErrorKind.OutOfMemory → result ≡ no_memory }
    ensures other { error_kind error ≢ ErrorKind.OutOfMemory → result ≡ ProgramFault.Store }
    ensures fault { IsOfStore result }
{
    match error.kind() {
        ErrorKind::OutOfMemory => no_memory(),
        _ => ProgramFault::Store,
    }
}
