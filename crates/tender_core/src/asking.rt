//! The caller and the moment of a command.
ghost use Rattle.std.specs.Prelude.{◌≡◌, max};

use office_base::records::ClockRow;
use office_commands::command::Caller;
use office_values::moment::Moment;

/// The caller of a command, and the moment at which the command came.
#[derive(Clone, Copy)]
pub struct Asking<'a> {
    pub moment: Moment,
    pub caller: &'a Caller,
}

impl<'a> Asking<'a> {
    /// The moment of the command: the one at which it came, or that of the last accepted command if that is later.
    pub fn time(&self, clock: &ClockRow) -> Moment
        ensures { result ≡ max self.now.moment clock.now.moment }
    {
        self.moment.later(clock.moment)
    }
}
