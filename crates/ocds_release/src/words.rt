//! Texts that are put together from words.
ghost use Rattle.std.specs.Prelude.{◌≡◌, ◌++◌, IfOk, OnOk, string_bytes, decimal};
ghost use Rattle.ocds_release.specs.Inside.Words.{word_text, joined};
ghost use Rattle.ocds_release.specs.Texts.{four_digits};

use office_values::id::Id;
use office_values::moment::Moment;
use office_values::settings::Prefix;
use std::alloc::{AllocError, Global};

/// A word of a text.
#[derive(Clone, Copy)]
pub(crate) enum Word<'a> {
    Text(&'a str),
    Id(Id),
    Prefix(Prefix),
    Moment(Moment),
    Number(u64),
    FourDigits(u64),
}

fn push_decimal(alloc: Global, text: &mut String, number: u64) -> Result<(), AllocError>
    ensures { OnOk result (string_bytes text.new ≡ string_bytes text.old ++ decimal number) }
{
    let digits = format!(in alloc; "{number}")?;
    text.push_str(digits.as_str())
}

// The last four digits, with zeros in front.
fn push_four(alloc: Global, text: &mut String, number: u64) -> Result<(), AllocError>
    ensures { OnOk result (string_bytes text.new ≡ string_bytes text.old ++ four_digits number) }
{
    let first = number / 1000 % 10;
    let second = number / 100 % 10;
    let third = number / 10 % 10;
    let fourth = number % 10;
    let digits = format!(in alloc; "{first}{second}{third}{fourth}")?;
    text.push_str(digits.as_str())
}

fn push_word(alloc: Global, text: &mut String, word: &Word) -> Result<(), AllocError>
    ensures { OnOk result (string_bytes text.new ≡ string_bytes text.old ++ word_text word.now) }
{
    match word {
        Word::Text(word) => text.push_str(word),
        Word::Id(id) => text.push_str(id.as_str()),
        Word::Prefix(prefix) => text.push_str(prefix.as_str()),
        Word::Moment(moment) => text.push_str(moment.to_text().as_str()),
        Word::Number(number) => push_decimal(alloc, text, *number),
        Word::FourDigits(number) => push_four(alloc, text, *number),
    }
}

/// The words, one after another.
pub(crate) fn joined(alloc: Global, words: &[Word]) -> Result<String, AllocError>
    ensures { IfOk result (λ text. string_bytes text ≡ joined words.now) }
{
    let mut text = String::new(alloc);
    for word in words {
        push_word(alloc, &mut text, word)?;
    }
    Ok(text)
}
