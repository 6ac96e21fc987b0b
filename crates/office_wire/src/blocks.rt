//! The line at the beginning of each block of a run.
ghost use Rattle.std.specs.Prelude.{◌≡◌, ◌≤◌, ◌⊎◌, ℕ, List, length, IfOk, IfErr, IfSome, IfNone, IsErrOf, OnOk, Some, option_map};
ghost use Rattle.office_wire.specs.Blocks.{IsLine, HasNoLine, LineRead};
ghost use Rattle.office_wire.specs.Counting.{HasStopped};
ghost use Rattle.office_wire.specs.Reading.{IsCutShort};

use crate::counted::CountedReader;
use crate::fault::RunFault;
use crate::reading::fill;
use office_values::moment::Moment;
use std::io::BufRead;

/// The number of bytes of a line: `at `, a moment of 20 bytes, and a line feed.
const LINE: usize = 24;

/// The moment in a line; None if the bytes aren't such a line.
fn moment_in(line: &[u8]) -> Option<Moment>
    requires { length line.now ≡ 24 }
    ensures found { IfSome result (IsLine line.now) }
    ensures none { IfNone result ((moment : ℕ) → ¬ (IsLine line.now moment)) }
{
    if line[0] != b'a' || line[1] != b't' || line[2] != b' ' || line[LINE - 1] != b'\n' {
        return None;
    }
    Moment::read(&line[3..LINE - 1])
}

/// Reads the line at the beginning of a block, and no byte after it; None at the end of the input. It reads 24 bytes, or all bytes up to the end, before it
/// judges them.
pub fn read_block_line<R: BufRead>(
    reader: &mut CountedReader<R>,
) -> Result<Option<Moment>, RunFault>
    ensures line { IfOk result (λ o. (input : List ℕ) → reader.old.remaining ≡ Some input → LineRead input reader.new.remaining o) }
    ensures bad { IsErrOf result RunFault.BadBlock → (input : List ℕ) → reader.old.remaining ≡ Some input → HasNoLine input }
    ensures cut { IsErrOf result RunFault.Read → (input : List ℕ) → reader.old.remaining ≡ Some input → IsCutShort input reader.new.remaining 24 }
    ensures cause { IsErrOf result RunFault.Read → HasStopped reader.new }
    ensures fault { IfErr result (λ e. (e ≡ RunFault.BadBlock) ⊎ (e ≡ RunFault.Read)) }
    ensures sound { OnOk result (reader.new.has_failed ≡ reader.old.has_failed) }
    ensures spent { reader.new.left ≤ reader.old.left }
{
    let mut line = [0u8; LINE];
    let Ok(count) = fill(reader, &mut line) else {
        return Err(RunFault::Read);
    };
    if count == 0 {
        return Ok(None);
    }
    if count < LINE {
        return Err(RunFault::BadBlock);
    }
    match moment_in(&line) {
        Some(moment) => Ok(Some(moment)),
        None => Err(RunFault::BadBlock),
    }
}
