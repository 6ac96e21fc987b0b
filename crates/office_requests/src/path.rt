//! Parts of a request's target.
ghost use Rattle.std.specs.Prelude.{◌≡◌, ◌==◌, ◌<◌, length, position, IfSome};
ghost use Rattle.office_requests.specs.Paths.{before, behind, segment};

// The place of the first byte that equals this one.
fn place_of(text: &[u8], byte: u8) -> Option<usize>
    ensures place { result ≡ position (λ b. b == byte) text.now }
    ensures within { IfSome result (λ at. at < length text.now) }
{
    text.iter().position(|b| *b == byte)
}

// The text before the first byte that equals this one; the whole text if there is none.
pub fn before(text: &[u8], byte: u8) -> &[u8]
    ensures { result.now ≡ before byte text.now }
{
    match place_of(text, byte) {
        Some(at) => &text[..at],
        None => text,
    }
}

// The text after the first byte that equals this one; empty if there is none.
pub fn behind(text: &[u8], byte: u8) -> &[u8]
    ensures { result.now ≡ behind byte text.now }
{
    match place_of(text, byte) {
        Some(at) => &text[at + 1..],
        None => &[],
    }
}

// The segment of a path with this number. Number 0 is the part before the first slash.
#[tactic(auto, using(crate::proofs::SegmentSteps::segment_behind, crate::proofs::SegmentSteps::segment_here))]
pub fn segment(path: &[u8], number: usize) -> &[u8]
    ensures { result.now ≡ segment number path.now }
{
    let mut rest = path;
    'slashes: for _ in 0..number {
        rest = behind(rest, b'/');
    }
    before(rest, b'/')
}
