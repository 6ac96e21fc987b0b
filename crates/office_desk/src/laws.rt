//! A law of the desk's definitions.
ghost use Rattle.office_desk.specs.MovedLines.{NoMoveIsLeftOut};

/// The lines that are tested before a command moves money are all lines of which the specification moves money.
pub fn moved_lines()
    ensures { NoMoveIsLeftOut }
{}
