//! The choice of the best tender of a lot (UNCITRAL Model Law 2011, article 43).
ghost use Rattle.std.specs.Prelude.{◌≡◌, ◌≤◌, ◌^◌, option_map};
ghost use Rattle.office_base.specs.Readings.{is_priced};
ghost use Rattle.award_core.specs.Rules.Award.{price_of, is_admissible, lesser, lowest_price, price_points, points, is_cheaper, is_better, better, best_with, best_of};
ghost use Rattle.award_core.specs.Best.{lowest_in, receipt_in, IsBestReceipt};

use office_base::reading::Reading;
use office_base::records::{EnvelopeRow, EnvelopeState};
use office_commands::notice::Weight;
use office_values::given::GivenNumber;
use office_values::money::Amount;

// The amount 0.
fn nothing() -> Amount
    ensures { result ≡ 0 }
{
    Amount::read(0).unwrap()
}

// Whether the opening read a price in the tender.
pub(crate) fn is_priced(row: &EnvelopeRow) -> bool
    ensures { result ≡ is_priced row.now.reading }
{
    match &row.reading {
        Some(Reading::Priced { .. }) => true,
        _ => false,
    }
}

/// The corrected price of a tender; 0 if it has none.
pub fn price_of(row: &EnvelopeRow) -> Amount
    ensures { result ≡ price_of row.now }
{
    match &row.reading {
        Some(Reading::Priced { corrected, .. }) => *corrected,
        _ => nothing(),
    }
}

/// Whether the tender can win: it was opened, has a price, was found responsive, and its tenderer neither failed to sign nor withdrew it late.
pub fn is_admissible(row: &EnvelopeRow) -> bool
    ensures { result ≡ is_admissible row.now }
{
    row.state == EnvelopeState::Opened
        && is_priced(row)
        && row.responsive.unwrap_or(false)
        && !row.failed
}

// The lesser of a price and one that may be absent.
fn lesser(price: Amount, other: Option<Amount>) -> Amount
    ensures { result ≡ lesser price other }
{
    match other {
        Some(found) if found.units() < price.units() => found,
        _ => price,
    }
}

// The lowest price of an admissible tender, by which price points are measured.
fn lowest_price(rows: &[EnvelopeRow]) -> Option<Amount>
    ensures { result ≡ lowest_price rows.now }
{
    let mut lowest = None;
    for row in rows.iter().rev() {
        if is_admissible(row) {
            lowest = Some(lesser(price_of(row), lowest));
        }
    }
    lowest
}

/// The lowest price of an admissible tender, by which price points are measured; 0 if none is admissible.
pub fn lowest(rows: &[EnvelopeRow]) -> Amount
    ensures { result ≡ lowest_in rows.now }
{
    lowest_price(rows).unwrap_or(nothing())
}

// The points for a price in thousandths: its share of the weight, by the lowest price and rounded down. The price 0 gets the whole weight.
fn price_points(weight: Weight, lowest: Amount, price: Amount) -> u64
    ensures value { result ≡ price_points weight lowest price }
    ensures bound { result ≤ 10 ^ 17 }
{
    let most = weight.get() * 1000;
    if price.units() == 0 {
        most
    } else {
        most * lowest.units() / price.units()
    }
}

/// The points of a tender in thousandths: those for its price, measured by this lowest one, and those for its quality.
pub fn points(weight: Weight, lowest: Amount, row: &EnvelopeRow) -> u64
    ensures { result ≡ points weight lowest row.now }
{
    let quality = match row.quality {
        Some(quality) => quality.get(),
        None => 0,
    };
    price_points(weight, lowest, price_of(row)) + 1000 * quality
}

// Whether the first tender is cheaper, or as cheap and received before the second.
fn is_cheaper(first: &EnvelopeRow, second: &EnvelopeRow) -> bool
    ensures { result ≡ is_cheaper first.now second.now }
{
    let price = price_of(first).units();
    let other = price_of(second).units();
    price < other || price == other && first.receipt.get() < second.receipt.get()
}

// Whether the first tender is better than the second: it has more points, or as many and is cheaper or earlier. If the weight is 0, the price alone decides.
fn is_better(weight: Weight, lowest: Amount, first: &EnvelopeRow, second: &EnvelopeRow) -> bool
    ensures { result ≡ is_better weight lowest first.now second.now }
{
    if weight.get() == 0 {
        return is_cheaper(first, second);
    }
    let mine = points(weight, lowest, first);
    let others = points(weight, lowest, second);
    others < mine || mine == others && is_cheaper(first, second)
}

// The better of two tenders, of which one may be absent.
fn better<'a>(
    weight: Weight,
    lowest: Amount,
    row: &'a EnvelopeRow,
    held: Option<&'a EnvelopeRow>,
) -> &'a EnvelopeRow
    ensures { result.now ≡ better weight lowest row.now (option_map (λ row. row.now) held.entry) }
{
    match held {
        Some(other) if is_better(weight, lowest, other, row) => other,
        _ => row,
    }
}

// The best of the admissible tenders, if price points are measured by this lowest price.
fn best_with(weight: Weight, lowest: Amount, rows: &[EnvelopeRow]) -> Option<&EnvelopeRow>
    ensures { option_map (λ row. row.now) result ≡ best_with weight lowest rows.now }
{
    let mut held = None;
    for row in rows.iter().rev() {
        if is_admissible(row) {
            held = Some(better(weight, lowest, row, held));
        }
    }
    held
}

/// The best of a lot's tenders; None if no tender can win. The weight is the points that the price can give, and 0 if the price alone decides. It allocates no
/// memory.
pub fn best_row(weight: Weight, rows: &[EnvelopeRow]) -> Option<&EnvelopeRow>
    ensures { option_map (λ row. row.now) result ≡ best_of weight rows.now }
{
    best_with(weight, lowest(rows), rows)
}

/// The receipt of the best of a lot's tenders; None if no tender can win. The weight is the points that the price can give, and 0 if the price alone decides.
/// It allocates no memory.
pub fn best(weight: Weight, rows: &[EnvelopeRow]) -> Option<GivenNumber>
    ensures rule { result ≡ receipt_in (best_of weight rows.now) }
    ensures best { IsBestReceipt weight rows.now result }
{
    match best_row(weight, rows) {
        Some(row) => Some(row.receipt),
        None => None,
    }
}
