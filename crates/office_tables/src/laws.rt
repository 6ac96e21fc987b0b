//! Laws of rows and of databases that hold an office, for proofs in the crates above.
ghost use Rattle.std.specs.Prelude.{◌≡◌, List};
ghost use Rattle.std.specs.List.{AllByRecursion};
ghost use Rattle.office_commands.specs.declared.item.Item.{Item};
ghost use Rattle.office_tables.specs.ItemTexts.{items_text, items_in_text, ItemFits};
ghost use Rattle.office_tables.specs.Schema.{RecordsComeBack};
ghost use Rattle.office_tables.specs.Laws.{FirstKnowsNoPerformances, TreesTellOneOffice};

/// A law: items are read back from their text.
pub fn items_come_back()
    ensures { (items : List Item) → AllByRecursion ItemFits items → items_in_text (items_text items) ≡ items }
{}

/// A law: the records of each table are read back from their rows. A notice of version 1 is read back as one that asks for no performance security.
pub fn records_come_back()
    ensures { RecordsComeBack }
{}

/// A law: trees hold at most one office, because they list their own schema. So the trees that a stop leaves determine the office.
pub fn trees_tell_one_office()
    ensures { TreesTellOneOffice }
{}

/// A law: in an office of version 1, no notice asks for a performance security, and none exists.
pub fn first_knows_no_performances()
    ensures { FirstKnowsNoPerformances }
{}
