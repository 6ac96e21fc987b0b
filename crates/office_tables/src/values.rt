//! Fields and keys of records as values of SQL. A field's contract has the range that its table checks.
ghost use Rattle.std.specs.Prelude.{◌≡◌, ◌<◌, ◌≤◌, ◌^◌, pos, IfSome, option_map};
ghost use Rattle.sqlite.specs.Values.{bound_value};
ghost use Rattle.sqlite_value.specs.Value.{owned};
ghost use Rattle.sqlite_value.specs.declared.value.Value.TheVariants.{Int, Text};
ghost use Rattle.office_values.specs.Moments.{last_moment};
ghost use Rattle.office_values.specs.Texts.{IsTextLine};
ghost use Rattle.office_tables.specs.Values.{or_null, text_or_null, as_number};
ghost use Rattle.office_tables.specs.Words.{how_text};
ghost use Rattle.office_tables.specs.Ranges.{IsOfficeNumber};

use crate::words::how_text;
use office_base::counts::Sequence;
use office_commands::contract::How;
use office_commands::tender::Quality;
use office_values::given::{AskedNumber, GivenNumber};
use office_values::id::Id;
use office_values::moment::Moment;
use office_values::text::TextLine;
use sqlite_value::value::ValueRef;

// A number as SQL has it, with a sign.
pub(crate) fn signed(number: u64) -> i64
    requires { number < 2 ^ 63 }
    ensures { result ≡ pos number }
{
    number as i64
}

pub(crate) fn moment_or_null(moment: Option<Moment>) -> ValueRef<'static>
    ensures value { bound_value (owned result) ≡ or_null moment }
    ensures range { IfSome moment (λ second. second ≤ last_moment) }
{
    match moment {
        Some(moment) => ValueRef::Int(signed(moment.second())),
        None => ValueRef::Null,
    }
}

pub(crate) fn given_or_null(number: Option<GivenNumber>) -> ValueRef<'static>
    ensures value { bound_value (owned result) ≡ or_null number }
    ensures range { IfSome number IsOfficeNumber }
{
    match number {
        Some(number) => ValueRef::Int(signed(number.get())),
        None => ValueRef::Null,
    }
}

pub(crate) fn quality_or_null(quality: Option<Quality>) -> ValueRef<'static>
    ensures value { bound_value (owned result) ≡ or_null quality }
    ensures range { IfSome quality (λ points. points ≤ 100) }
{
    match quality {
        Some(quality) => ValueRef::Int(signed(quality.get())),
        None => ValueRef::Null,
    }
}

pub(crate) fn line_or_null(line: &Option<TextLine>) -> ValueRef<'_>
    ensures value { bound_value (owned result) ≡ text_or_null line.now }
    ensures range { IfSome line.now IsTextLine }
{
    match line {
        Some(line) => ValueRef::Text(line.as_str().as_bytes()),
        None => ValueRef::Null,
    }
}

// 1 for yes, 0 for no.
pub(crate) fn yes_value(yes: bool) -> ValueRef<'static>
    ensures { bound_value (owned result) ≡ Int (pos (as_number yes)) }
{
    ValueRef::Int(if yes { 1 } else { 0 })
}

pub(crate) fn yes_or_null(yes: Option<bool>) -> ValueRef<'static>
    ensures { bound_value (owned result) ≡ or_null (option_map as_number yes) }
{
    match yes {
        Some(yes) => yes_value(yes),
        None => ValueRef::Null,
    }
}

pub(crate) fn how_or_null(how: Option<How>) -> ValueRef<'static>
    ensures { bound_value (owned result) ≡ text_or_null (option_map how_text how) }
{
    match how {
        Some(how) => ValueRef::Text(how_text(how)),
        None => ValueRef::Null,
    }
}

pub(crate) fn id_value(id: &Id) -> ValueRef<'_>
    ensures { owned result ≡ Text id.now }
{
    ValueRef::Text(id.as_bytes())
}

pub(crate) fn number_value(number: AskedNumber) -> ValueRef<'static>
    ensures { owned result ≡ Int (pos number) }
{
    ValueRef::Int(number.get() as i64)
}

pub(crate) fn count_value(most: u32) -> ValueRef<'static>
    ensures { owned result ≡ Int (pos most) }
{
    ValueRef::Int(most as i64)
}

pub(crate) fn sequence_value(seq: Sequence) -> ValueRef<'static>
    ensures { owned result ≡ Int (pos seq) }
{
    ValueRef::Int(seq.get() as i64)
}

pub(crate) fn given_value(number: GivenNumber) -> ValueRef<'static>
    ensures { owned result ≡ Int (pos number) }
{
    ValueRef::Int(number.get() as i64)
}
