//! The present moment.
ghost use Rattle.std.specs.Prelude.{◌≡◌};
ghost use Rattle.std.specs.Duration.{as_nanos};
ghost use Rattle.procure_programs.specs.Hosts.{TellsMoment, clock_moment};

use crate::host::Host;
use office_values::moment::{LAST_MOMENT, Moment};
use procure_config::fault::ProgramFault;
use std::time::Duration;

/// The moment this long after 1970-01-01T00:00:00Z, without parts of a second. It is the last moment there is if it would be later.
pub fn moment_after(time: Duration) -> Moment
    ensures { result ≡ clock_moment (as_nanos time) }
{
    let second = time.as_secs().min(LAST_MOMENT);
    match Moment::from_second(second) {
        Some(moment) => moment,
        None => Moment::EPOCH,
    }
}

/// The moment by a host's clock. `Input` if the clock can't be read or is set before 1970.
pub fn moment_now<T: Host>(host: &mut T) -> Result<Moment, ProgramFault>
    ensures { TellsMoment T.events host.old host.new result }
{
    match host.time() {
        Some(time) => Ok(moment_after(time)),
        None => Err(ProgramFault::Input),
    }
}
