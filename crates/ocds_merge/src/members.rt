ghost use Rattle.std.specs.Prelude.{◌≡◌, option_map, OnOk};
ghost use Rattle.serde_json.specs.View.{view, members_view};
ghost use Rattle.serde_json.specs.Find.{get_member};
ghost use Rattle.ocds_merge.specs.Merge.{put_present as with_present};
ghost use Rattle.ocds_merge.specs.Compile.{members_without};

use serde_json::{Map, Value};
use std::alloc::{AllocError, Global};

/// Removes and returns the member with this name.
pub(crate) fn take_member(target: &mut Map<String, Value>, name: &str) -> Option<Value>
    ensures found { option_map view result ≡ get_member name.now (members_view target.old.entries) }
    ensures left { members_view target.new.entries
        ≡ members_without name.now (members_view target.old.entries) }
{
    target.remove(name)
}

/// Adds the member if there is a value.
pub(crate) fn put_present(
    alloc: Global,
    target: &mut Map<String, Value>,
    name: &str,
    value: Option<Value>,
) -> Result<(), AllocError>
    ensures { OnOk result (members_view target.new.entries
        ≡ with_present name.now (option_map view value) (members_view target.old.entries)) }
{
    if let Some(value) = value {
        serde_json::put(target, alloc, name, value)?;
    }
    Ok(())
}
