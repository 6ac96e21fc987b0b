//! Laws about the budget lines that a change touches.
ghost use Rattle.std.specs.Prelude.{[], None};
ghost use Rattle.office_base.specs.Tables.{Tables};
ghost use Rattle.office_sums.specs.Carried.{KnowsEntries};
ghost use Rattle.office_sums.specs.Found.{KnowsRows, no_answers};
ghost use Rattle.office_sums.specs.Numbered.{CountsReleases};
ghost use Rattle.office_sums.specs.Remembered.{Remembers, SumsStay};
ghost use Rattle.office_sums.specs.Touched.{AmountsStay};

/// A change that doesn't touch a budget line leaves the amounts that add up to its sums.
pub fn amounts_stay()
    ensures { AmountsStay }
{}

/// A change that doesn't touch a budget line leaves its sums.
pub fn sums_stay()
    ensures { SumsStay }
{}

/// If no line is remembered, this agrees with any tables.
pub fn nothing_remembered()
    ensures { (t : Tables) → Remembers [] t }
{}

/// If the releases of no notice are counted, this agrees with any tables.
pub fn nothing_counted()
    ensures { (t : Tables) → CountsReleases [] t }
{}

/// If no entries were listed, this agrees with any tables.
pub fn nothing_listed()
    ensures { (t : Tables) → KnowsEntries None t }
{}

/// If no answer is remembered, this agrees with any tables.
pub fn nothing_found()
    ensures { (t : Tables) → KnowsRows no_answers t }
{}
