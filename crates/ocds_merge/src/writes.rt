//! Writes the parts of a merged text.
ghost use Rattle.std.specs.Prelude.{◌≡◌, List, ℕ, ◌++◌, ◌∷◌, [], false, OnOk, IfOk, unwrap_or, None};
ghost use Rattle.serde_json.specs.Data.{Data, null};
ghost use Rattle.serde_json.specs.View.{view};
ghost use Rattle.serde_json.specs.Written.{compact_text, comma_if, has_float};
ghost use Rattle.json.specs.Print.{quoted};
ghost use Rattle.ocds_merge.specs.Inside.Step.{step};
ghost use Rattle.ocds_merge.specs.Inside.Readable.{Passed};
ghost use Rattle.ocds_merge.specs.Inside.Splice.{TextIsKept, EndsBefore};

use crate::readable::skipped;
use crate::scan::span_before;
use crate::step::merge_value;
use crate::unspliced::Unspliced;
use serde_json::Value;
use std::alloc::{AllocError, Global};

pub(crate) fn write_byte(byte: u8, out: &mut Vec<u8>) -> Result<(), AllocError>
    ensures { OnOk result (out.new.items ≡ out.old.items ++ byte ∷ []) }
{
    Ok(out.push(byte)?)
}

pub(crate) fn write_comma(later: bool, out: &mut Vec<u8>) -> Result<(), AllocError>
    ensures { OnOk result (out.new.items ≡ out.old.items ++ comma_if later) }
{
    if later {
        out.push(b',')?;
    }
    Ok(())
}

/// Copies the part of `text` before `rest`.
pub(crate) fn copy_span(
    text: &[u8],
    rest: &[u8],
    later: bool,
    out: &mut Vec<u8>,
) -> Result<(), AllocError>
    ensures { OnOk result ((span : List ℕ) → text.now ≡ span ++ rest.now
        → out.new.items ≡ out.old.items ++ (comma_if later ++ span)) }
{
    write_comma(later, out)?;
    Ok(out.extend_from_slice(span_before(text, rest))?)
}

pub(crate) fn write_value(alloc: Global, value: &Value, out: &mut Vec<u8>) -> Result<(), AllocError>
    ensures { OnOk result (has_float (view value.now) ≡ false
        → out.new.items ≡ out.old.items ++ compact_text (view value.now)) }
{
    let text = value.to_string(alloc)?;
    Ok(out.extend_from_slice(text.as_bytes())?)
}

/// Writes the merge of this value alone, which isn't null.
pub(crate) fn write_new(alloc: Global, value: &Value, out: &mut Vec<u8>) -> Result<(), AllocError>
    ensures { OnOk result (TextIsKept (view value.now)
        → out.new.items ≡ out.old.items ++ compact_text (unwrap_or (step None (view value.now)) null)) }
{
    let merge = merge_value(alloc, value, None)?;
    write_value(alloc, &merge.unwrap_or(Value::Null), out)?;
    Ok(())
}

pub(crate) fn write_name(
    alloc: Global,
    name: &str,
    later: bool,
    out: &mut Vec<u8>,
) -> Result<(), AllocError>
    ensures { OnOk result (out.new.items ≡ out.old.items ++ (comma_if later ++ (quoted name.now ++ 58 ∷ []))) }
{
    write_comma(later, out)?;
    write_value(alloc, &Value::try_from_str(alloc, name)?, out)?;
    write_byte(b':', out)
}

/// Writes the merge of this value alone in place of the value that begins a text, and returns the text after that. The old value is dropped.
pub(crate) fn replace_value<'a>(
    alloc: Global,
    value: &Value,
    text: &'a [u8],
    depth: usize,
    out: &mut Vec<u8>,
) -> Result<&'a [u8], Unspliced>
    ensures reads { IfOk result (λ left. Passed text.now left.now depth) }
    ensures splices { IfOk result (λ left. TextIsKept (view value.now) → (d : Data) (rest : List ℕ) → TextIsKept d → EndsBefore rest
        → text.now ≡ compact_text d ++ rest
        → (left.now ≡ rest) × (out.new.items ≡ out.old.items ++ compact_text (unwrap_or (step None (view value.now)) null))) }
{
    write_new(alloc, value, out)?;
    Ok(skipped(text, depth)?)
}
