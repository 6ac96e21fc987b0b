//! The items of a lot as one text, a line for each: its identifier, its quantity and its title, with tabs between.
ghost use Rattle.std.specs.Prelude.{◌≡◌, ◌==◌, ◌<◌, ◌^◌, ℕ, ◌++◌, [], ◌∷◌, List, IfOk, IfErr, IfSome, IfNone, OnOk, length, position};
ghost use Rattle.std.specs.Fmt.{decimal};
ghost use Rattle.sqlite_value.specs.declared.value.Value.TheVariants.{Text};
ghost use Rattle.sqlite_value.specs.Order.{column};
ghost use Rattle.office_commands.specs.declared.item.Item.{Item as SomeItem};
ghost use Rattle.office_tables.specs.Ranges.{IsWithin};
ghost use Rattle.office_tables.specs.Unwritten.{IsUnwritten};
ghost use Rattle.office_tables.specs.ItemTexts.{item_then, items_text, items_in_text, text_before, text_behind, Avoids, IsItem, AreItems};
ghost use Rattle.office_base.specs.Faults.{IsFaultOf};

use crate::columns::{is_same, line_of, text_at};
use itoa::Buffer;
use office_base::shelf::ShelfFault;
use office_commands::item::{Item, Items, Quantity};
use office_values::id::Id;
use sqlite::Row;
use std::alloc::{AllocError, Global};

// Adds an item's line to the text.
fn push_item(out: &mut Vec<u8>, item: &Item) -> Result<(), AllocError>
    ensures text { OnOk result (out.new.items ≡ out.old.items ++ item_then item.now []) }
    ensures right { OnOk result (IsItem item.now) }
{
    out.extend_from_slice(item.id.as_bytes())?;
    out.push(b'\t')?;
    out.extend_from_slice(Buffer::new().format(item.quantity.get()).as_bytes())?;
    out.push(b'\t')?;
    out.extend_from_slice(item.title.as_str().as_bytes())?;
    out.push(b'\n')?;
    Ok(())
}

/// The text of a lot's items. `back` says that the same items are read back from it.
pub fn items_text(alloc: Global, items: &Items) -> Result<Vec<u8>, AllocError>
    ensures text { IfOk result (λ out. out.items ≡ items_text items.now) }
    ensures back { IfOk result (λ out. items_in_text out.items ≡ items.now) }
    ensures right { OnOk result (AreItems items.now) }
{
    let mut out = Vec::new(alloc);
    'items: for item in items.as_slice() {
        push_item(&mut out, item)?;
    }
    Ok(out)
}

// The place of the first such byte.
fn place_of(text: &[u8], stop: u8) -> Option<usize>
    ensures place { result ≡ position (λ b. b == stop) text.now }
    ensures within { IfSome result (λ at. at < length text.now) }
{
    text.iter().position(|b| *b == stop)
}

// The bytes before and after the first such byte; `None` if there is no such byte.
fn cut(text: &[u8], stop: u8) -> Option<(&[u8], &[u8])>
    ensures before { IfSome result (λ parts. parts.0.now ≡ text_before stop text.now) }
    ensures behind { IfSome result (λ parts. parts.1.now ≡ text_behind stop text.now) }
    ensures exact { IfSome result (λ parts. parts.0.now ++ (stop ∷ parts.1.now) ≡ text.now) }
    ensures none { IfNone result (Avoids stop text.now) }
{
    let at = place_of(text, stop)?;
    Some((&text[..at], &text[at + 1..]))
}

// The quantity that these digits mean. Digits that the office wouldn't write, such as `007`, are a fault of the store.
fn quantity_of(digits: &[u8]) -> Result<Quantity, ShelfFault>
    ensures exact { IfOk result (λ quantity. decimal quantity ≡ digits.now) }
    ensures cause { IfErr result (IsFaultOf (IsUnwritten decimal (IsWithin 1 (10 ^ 6)) digits.now)) }
{
    let Ok(text) = str::from_utf8(digits) else {
        return Err(ShelfFault::Store);
    };
    let Ok(number) = text.parse::<u64>() else {
        return Err(ShelfFault::Store);
    };
    let Some(quantity) = Quantity::read(number) else {
        return Err(ShelfFault::Store);
    };
    if is_same(Buffer::new().format(number).as_bytes(), digits) {
        Ok(quantity)
    } else {
        Err(ShelfFault::Store)
    }
}

// The item of a text's first line, and the text after it.
fn front_item(alloc: Global, text: &[u8]) -> Result<(Item, &[u8]), ShelfFault>
    ensures exact { IfOk result (λ parts. item_then parts.0 parts.1.now ≡ text.now) }
    ensures right { IfOk result (λ parts. IsItem parts.0) }
    ensures cause { IfErr result (IsFaultOf (IsUnwritten (λ (parts : SomeItem × List ℕ). item_then parts.0 parts.1) (λ parts. IsItem parts.0) text.now)) }
{
    let Some((id, behind_id)) = cut(text, b'\t') else {
        return Err(ShelfFault::Store);
    };
    let Some((quantity, behind_quantity)) = cut(behind_id, b'\t') else {
        return Err(ShelfFault::Store);
    };
    let Some((title, rest)) = cut(behind_quantity, b'\n') else {
        return Err(ShelfFault::Store);
    };
    let Some(id) = Id::read(id) else {
        return Err(ShelfFault::Store);
    };
    let quantity = quantity_of(quantity)?;
    let title = line_of(alloc, title)?;
    Ok((
        Item {
            id,
            title,
            quantity,
        },
        rest,
    ))
}

/// The items of a text. A text that isn't the text of valid items is a fault of the store.
pub fn read_items(alloc: Global, text: &[u8]) -> Result<Items, ShelfFault>
    ensures exact { IfOk result (λ items. items_text items ≡ text.now) }
    ensures read { IfOk result (λ items. items ≡ items_in_text text.now) }
    ensures fits { IfOk result AreItems }
    ensures cause { IfErr result (IsFaultOf (IsUnwritten items_text AreItems text.now)) }
{
    let mut found = Vec::new(alloc);
    let mut rest = text;
    'items: while !rest.is_empty() {
        let (item, behind) = front_item(alloc, rest)?;
        if found.push(item).is_err() {
            return Err(ShelfFault::NoMemory);
        }
        rest = behind;
    }
    Items::read(found).ok_or(ShelfFault::Store)
}

pub(crate) fn items_at(alloc: Global, row: &Row, at: usize) -> Result<Items, ShelfFault>
    ensures exact { IfOk result (λ items. Text (items_text items) ≡ column row.now at) }
    ensures read { IfOk result (λ items. items_in_text (items_text items) ≡ items) }
    ensures fits { IfOk result AreItems }
    ensures cause { IfErr result (IsFaultOf (IsUnwritten (λ items. Text (items_text items)) AreItems (column row.now at))) }
{
    read_items(alloc, text_at(row, at)?)
}
