//! The ocid of a notice's contracting process.
ghost use Rattle.std.specs.Prelude.{◌≡◌, ◌∷◌, ◌++◌, string_bytes, IfOk};
ghost use Rattle.ocds_release.specs.Texts.{ocid_text};

use office_values::id::Id;
use office_values::settings::Publisher;
use std::alloc::{AllocError, Global};

fn dashed(alloc: Global, first: &str, second: &str) -> Result<String, AllocError>
    ensures { IfOk result (λ text. string_bytes text ≡ first.now ++ 45 ∷ second.now) }
{
    format!(in alloc; "{first}-{second}")
}

/// The ocid of a notice: the publisher's prefix, a dash, and the notice (OCDS 1.1, identifiers).
pub fn ocid_of(alloc: Global, publisher: &Publisher, notice: &Id) -> Result<String, AllocError>
    ensures { IfOk result (λ text. string_bytes text ≡ ocid_text publisher.now.prefix notice.now) }
{
    dashed(alloc, publisher.prefix.as_str(), notice.as_str())
}
