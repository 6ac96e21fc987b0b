//! Finds the ends of values in a JSON text.
ghost use Rattle.std.specs.Prelude.{◌≡◌, ◌≢◌, ℕ, List, ◌≤◌, ◌∷◌, ◌++◌, length, MatchOption, MatchBool, ⊤};
ghost use Rattle.ocds_merge.specs.Inside.Scan.{scan, between, in_string, escaped, IsPlain, StandsForItself, AllStandForThemselves};

/// Whether a byte of a string needs no escape. Letters come first, since most bytes are letters.
fn is_plain(byte: u8) -> bool
    ensures { MatchBool result (StandsForItself byte) ⊤ }
{
    if byte > b'\\' {
        return true;
    }
    if byte == b'\\' {
        return false;
    }
    if byte > b'"' {
        return true;
    }
    if byte == b'"' {
        return false;
    }
    byte >= b' '
}

/// The rest of a string, from the first quote, backslash or control character on.
pub(crate) fn after_plain(text: &[u8]) -> &[u8]
    ensures passes { (s : List ℕ) × (text.now ≡ s ++ result.now) × AllStandForThemselves s }
    ensures shorter { length result.now ≤ length text.now }
{
    for (at, byte) in text.iter().enumerate() {
        if !is_plain(*byte) {
            return &text[at..];
        }
    }
    &text[text.len()..]
}

/// The part of a text before this rest of it.
pub(crate) fn span_before<'a>(text: &'a [u8], rest: &[u8]) -> &'a [u8]
    ensures { (span : List ℕ) → text.now ≡ span ++ rest.now → result.now ≡ span }
{
    let count = text.len().saturating_sub(rest.len());
    &text[..count]
}

/// The text without its first byte.
fn after_one(text: &[u8]) -> &[u8]
    ensures passes { (n : ℕ) → scan n escaped text.now ≡ scan n in_string result.now }
    ensures shorter { length result.now ≤ length text.now }
{
    match text.split_first() {
        Some((_, rest)) => rest,
        None => text,
    }
}

/// The text after a byte that ends the plain part of a string, and after the byte that a backslash escapes.
fn after_stop(stop: u8, rest: &[u8]) -> &[u8]
    ensures passes { stop ≢ 34 → (n : ℕ) → scan n in_string (stop ∷ rest.now) ≡ scan n in_string result.now }
    ensures shorter { length result.now ≤ length rest.now }
{
    if stop == b'\\' { after_one(rest) } else { rest }
}

/// The text after a string; the given text begins after the opening quote.
pub(crate) fn after_string(text: &[u8]) -> &[u8]
    ensures scans { (n : ℕ) → scan n in_string text.now ≡ scan n between result.now }
    ensures shorter { length result.now ≤ length text.now }
{
    let mut left = after_plain(text);
    while let Some((first, rest)) = left.split_first() {
        if *first == b'"' {
            return rest;
        }
        left = after_plain(after_stop(*first, rest));
    }
    left
}

/// The text after a value: the next comma or closing bracket. A text that doesn't begin with a value is scanned in the same way.
pub(crate) fn after_value(text: &[u8]) -> &[u8]
    ensures scans { result.now ≡ scan 0 between text.now }
    ensures shorter { length result.now ≤ length text.now }
{
    let mut depth: usize = 0;
    let mut left = text;
    while let Some((first, rest)) = left.split_first() {
        match *first {
            b'"' => left = after_string(rest),
            b'{' | b'[' => {
                depth += 1;
                left = rest;
            }
            b'}' | b']' => {
                if depth == 0 {
                    return left;
                }
                depth -= 1;
                left = rest;
            }
            b',' => {
                if depth == 0 {
                    return left;
                }
                left = rest;
            }
            _ => left = rest,
        }
    }
    left
}

/// A string without escapes, and the text after it; the given text begins after the opening quote.
pub(crate) fn plain_string(text: &[u8]) -> Option<(&[u8], &[u8])>
    ensures { MatchOption result ⊤ (λ p. (text.now ≡ p.0.now ++ 34 ∷ p.1.now) × AllStandForThemselves p.0.now) }
{
    let end = after_plain(text);
    let rest = after_byte(end, b'"')?;
    Some((span_before(text, end), rest))
}

/// The text after this byte, if a text begins with it.
pub(crate) fn after_byte(text: &[u8], byte: u8) -> Option<&[u8]>
    ensures { MatchOption result ((rest : List ℕ) → text.now ≡ byte ∷ rest → ⊥)
        (λ rest. text.now ≡ byte ∷ rest.now) }
{
    match text.split_first() {
        Some((first, rest)) => { if *first == byte { Some(rest) } else { None } }
        None => None,
    }
}
