//! The laws of the publications of an office. Each function does nothing, and its contract is the law.
ghost use Rattle.office_publications.specs.Keeping.{NoEventPublishesNothing, EventsAreReleased, NumbersTellTheLast, NumbersTellThePlaces};
ghost use Rattle.office_publications.specs.Keeping.{NoEventPutsItsEffect, EventsPutReleases};
ghost use Rattle.office_publications.specs.Keeping.{MergesStandBeside, KeptStepsReach, ReleasesStayKept, NothingIsKeptAtFirst};
ghost use Rattle.office_publications.specs.Merges.{BodiesAreStorable, MergesStay, ReleasesStay};
ghost use Rattle.office_publications.specs.MergesApart.{KeptStepsReadNoMerges, PackagesTellNoMerges, PublishedLooksReadNoMerges, ReleasesTellNoMerges};
ghost use Rattle.office_publications.specs.Publishing.{ReleasesAreMade};
ghost use Rattle.office_publications.specs.Told.{RecordsAreCompiled, ReleasesAreInSequence, ReleasesAreTold};

use ocds_merge::{dates_order_releases, merge_stays_storable};
use ocds_release::laws::releases_can_be_kept;
use office_base::laws::changes_keep_order;
use office_values::moment::texts_keep_order;

/// A release is put with the merge that it joins. If each stored merge is that of its notice's releases before, it is so afterwards.
pub fn merges()
    ensures { MergesStay }
{}

/// A release that can be merged is put with the merge that it joins. If all releases can be merged before, all can be merged afterwards. Releases that can be
/// merged can also be stored without their heads.
pub fn releases_can_be_merged()
    ensures stay { ReleasesStay }
    ensures storable { BodiesAreStorable }
{}

/// If a notice has the releases with the numbers from 1 to its count, and no others, its last release exists, and none has the next number. Each of them is at
/// the place that its number says.
pub fn numbering()
    ensures last { NumbersTellTheLast }
    ensures places { NumbersTellThePlaces }
{}

/// The specification of the office that publishes makes a release of each command that publishes.
pub fn releases()
    ensures { ReleasesAreMade }
{}

/// A command that is an event of a notice publishes its release. It makes its changes, and puts that release and the merge that the release joins. Any other
/// command publishes nothing and only makes its changes.
///
/// The office afterwards is that of the specification, with the merges beside it. So accepted commands lead there. If releases and merges can be read before,
/// they can be read afterwards, provided that the new release and its merge can be, as all can that `publication::keep_release` makes.
pub fn keeping()
    ensures silent { NoEventPublishesNothing }
    ensures released { EventsAreReleased }
    ensures unpublished { NoEventPutsItsEffect }
    ensures published { EventsPutReleases }
    ensures beside { MergesStandBeside }
    ensures reaches { KeptStepsReach }
    ensures stays { ReleasesStayKept }
    ensures starts { NothingIsKeptAtFirst }
{
    changes_keep_order();
    office_machine::laws::order();
    office_machine::laws::parents();
    office_machine::laws::runs();
    office_machine::laws::releases();
}

/// The merges that are stored beside the office don't change its releases, its packages and the replies to queries. An accepted command leads to the
/// specification's next office, with some merges beside it.
pub fn merges_apart()
    ensures releases { ReleasesTellNoMerges }
    ensures packages { PackagesTellNoMerges }
    ensures looks { PublishedLooksReadNoMerges }
    ensures kept { KeptStepsReadNoMerges }
{
    keeping();
    office_machine::laws::merges();
}

/// In an office that its commands made, the text of each stored release is that of the release, and its moment is the release's date. The compiled release of a
/// notice is the stored merge under a head. The releases of a notice are in its sequence by their numbers, from 1 on.
pub fn told()
    ensures releases { ReleasesAreTold }
    ensures records { RecordsAreCompiled }
    ensures sequence { ReleasesAreInSequence }
{
    office_machine::laws::releases();
    releases_can_be_kept();
    texts_keep_order();
    dates_order_releases();
    merge_stays_storable();
    releases();
    office_machine::laws::order();
}
