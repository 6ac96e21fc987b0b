//! Laws of the releases in `specs/`, for proofs in the crates above. Each function has an empty body, and its contract is the law.
ghost use Rattle.std.specs.Prelude.{◌≡◌, ℕ};
ghost use Rattle.office_values.specs.Moments.{moment_text};
ghost use Rattle.office_values.specs.declared.settings.Publisher.{Publisher};
ghost use Rattle.ocds_merge.specs.Compile.{body_of, date_of};
ghost use Rattle.ocds_merge.specs.Stored.{IsStorable};
ghost use Rattle.ocds_release.specs.Events.{release_of_event};
ghost use Rattle.ocds_release.specs.declared.event.Event.{Event};

use ocds_merge::merge_stays_storable;

/// The release of each event, by any publisher, can be stored as text and read back. So can a merge with the release without its head. Neither has a float or
/// nests more than 127 levels. The release has the date of the event's moment.
pub fn releases_can_be_kept()
    ensures storable { (publisher : Publisher) (seq t : ℕ) (event : Event) → IsStorable (release_of_event publisher seq t event) }
    ensures body_storable { (publisher : Publisher) (seq t : ℕ) (event : Event)
        → IsStorable (body_of (release_of_event publisher seq t event)) }
    ensures dated { (publisher : Publisher) (seq t : ℕ) (event : Event) → date_of (release_of_event publisher seq t event) ≡ moment_text t }
{
    merge_stays_storable();
}
