ghost use Rattle.std.specs.Prelude.{◌≡◌, ◌∷◌, ◌++◌, string_bytes, IfOk, codes};
ghost use Rattle.serde_json.specs.Data.{string};
ghost use Rattle.serde_json.specs.View.{view, members_view};
ghost use Rattle.ocds_merge.specs.Compile.{body_of, with_head, put_head as with_members_of_head, compiled_tag as tag_of_compiled, members_without};

use crate::members::take_member;
use crate::merging::NoMemory;
use serde_json::{Map, Value, json};
use std::alloc::{AllocError, Global};

/// The release without its own `id`, `date` and `tag`, as a compiled release needs it. It takes no memory.
pub fn without_head(release: Value) -> Value
    ensures { view result ≡ body_of (view release) }
{
    match release {
        Value::Object(members) => Value::Object(members_without_head(members)),
        other => other,
    }
}

fn members_without_head(mut members: Map<String, Value>) -> Map<String, Value>
    ensures { members_view result.entries
        ≡ members_without (codes "id") (members_without (codes "date") (members_without (codes "tag") (members_view members.entries))) }
{
    let _tag = take_member(&mut members, "tag");
    let _date = take_member(&mut members, "date");
    let _id = take_member(&mut members, "id");
    members
}

/// The merge of releases without heads, with the head of a compiled release: `date` as given, `id` made of `ocid` and that date, and `tag` `["compiled"]`. A
/// value that is no object stays as it is.
pub fn with_compiled_head(
    alloc: Global,
    ocid: &str,
    date: &str,
    merge: Value,
) -> Result<Value, NoMemory>
    ensures { IfOk result (λ release. view release ≡ with_head ocid.now date.now (view merge)) }
{
    match merge {
        Value::Object(members) => Ok(Value::Object(put_head(alloc, ocid, date, members)?)),
        other => Ok(other),
    }
}

fn compiled_tag(alloc: Global) -> Result<Value, AllocError>
    ensures { IfOk result (λ tag. view tag ≡ tag_of_compiled) }
{
    json!(in alloc; ["compiled"])
}

fn compiled_id(alloc: Global, ocid: &str, date: &str) -> Result<String, AllocError>
    ensures { IfOk result (λ id. string_bytes id ≡ ocid.now ++ 45 ∷ date.now) }
{
    format!(in alloc; "{ocid}-{date}")
}

fn id_value(alloc: Global, ocid: &str, date: &str) -> Result<Value, AllocError>
    ensures { IfOk result (λ id. view id ≡ string (ocid.now ++ 45 ∷ date.now)) }
{
    Ok(Value::String(compiled_id(alloc, ocid, date)?))
}

fn put_head(
    alloc: Global,
    ocid: &str,
    date: &str,
    mut members: Map<String, Value>,
) -> Result<Map<String, Value>, AllocError>
    ensures { IfOk result (λ m. members_view m.entries
        ≡ with_members_of_head ocid.now date.now (members_view members.entries)) }
{
    let tag = compiled_tag(alloc)?;
    let id = id_value(alloc, ocid, date)?;
    serde_json::put(&mut members, alloc, "tag", tag)?;
    let date = Value::try_from_str(alloc, date)?;
    serde_json::put(&mut members, alloc, "date", date)?;
    serde_json::put(&mut members, alloc, "id", id)?;
    Ok(members)
}
