//! JSON objects that are built member by member.
ghost use Rattle.std.specs.Prelude.{◌≡◌, ◌∷◌, [], IfOk, OnOk, map};
ghost use Rattle.serde_json.specs.Data.{object, no_members};
ghost use Rattle.serde_json.specs.View.{view};
ghost use Rattle.ocds_release.specs.Objects.{with_entries, object_of, array_of, put_unless_empty, is_empty_list};
ghost use Rattle.ocds_release.specs.Inside.Parts.{entry_of};
ghost use Rattle.ocds_release.specs.Inside.Built.{members_in};

use crate::part::{Part, value_of};
use serde_json::{Map, Value, put};
use std::alloc::{AllocError, Global};

// Whether the value is an empty list.
fn is_empty_list(value: &Value) -> bool
    ensures { result ≡ is_empty_list (view value.now) }
{
    match value {
        Value::Array(list) => list.is_empty(),
        _ => false,
    }
}

/// An object that is being built. An empty list is left out: in a merge of releases it would replace the list before.
#[derive(Drop)]
pub(crate) struct Object {
    members: Map<String, Value>,
}

impl Object {
    /// An object without members.
    pub(crate) fn new(alloc: Global) -> Object
        ensures { members_in result ≡ no_members }
    {
        Object {
            members: Map::new(alloc),
        }
    }

    /// Puts a member, unless it is an empty list.
    pub(crate) fn put_value(
        &mut self,
        alloc: Global,
        name: &str,
        value: Value,
    ) -> Result<(), AllocError>
        ensures { OnOk result (members_in self.new ≡ put_unless_empty name.now (view value) (members_in self.old)) }
    {
        if is_empty_list(&value) {
            return Ok(());
        }
        put(&mut self.members, alloc, name, value)
    }

    /// Puts the members with these names and parts.
    pub(crate) fn put(&mut self, alloc: Global, members: &[(&str, Part)]) -> Result<(), AllocError>
        ensures { OnOk result (members_in self.new ≡ with_entries (map entry_of members.now) (members_in self.old)) }
    {
        for (name, part) in members {
            let value = value_of(alloc, part)?;
            self.put_value(alloc, name, value)?;
        }
        Ok(())
    }

    /// The object as a value. Takes no memory.
    pub(crate) fn into_value(self) -> Value
        ensures { view result ≡ object (members_in self) }
    {
        Value::Object(self.members)
    }
}

/// An object with the members with these names and parts.
pub(crate) fn object_with(alloc: Global, members: &[(&str, Part)]) -> Result<Value, AllocError>
    ensures { IfOk result (λ v. view v ≡ object_of (map entry_of members.now)) }
{
    let mut object = Object::new(alloc);
    object.put(alloc, members)?;
    Ok(object.into_value())
}

/// A list of this one value.
pub(crate) fn list_of_one(alloc: Global, value: Value) -> Result<Value, AllocError>
    ensures { IfOk result (λ list. view list ≡ array_of (view value ∷ [])) }
{
    let mut list = Vec::new(alloc);
    list.push(value)?;
    Ok(Value::Array(list))
}
