//! Members of vendors whose names end in `Id` or `Ids` as the names of references do: they become plain texts under another name.
ghost use Rattle.std.specs.Prelude.{◌≡◌, [], Some, IfOk};
ghost use Rattle.serde_json.specs.View.{view};
ghost use Rattle.erd_prepare.specs.Steps.{IsStepDone};

use crate::engine::Done;
use crate::known_objects::{KnownObject, known_objects};
use crate::left::{LeftReason, Planned, carry_out_planned};
use crate::path_places::place_of;
use crate::plan::Edit;
use crate::vendor_members::{ids_of, is_vendor_reference, place_of_member};
use erd_check::path::Path;
use erd_check::want::Want;
use erd_tables::member::{MemberKind, is_reference_form};
use erd_tables::pointer;
use serde_json::{Map, Value};
use std::alloc::{AllocError, Global};
use std::collections::BTreeSet;

/// Gives each member whose name ends in `Id` or `Ids`, and is none of the standard's, a name that ends in `Code` or `Codes`, also
/// inside carried values. One that names an object of the file is left, and so is one whose new name is taken.
///
/// # Errors
///
/// `AllocError` if out of memory.
pub fn rename_vendor_members(alloc: Global, report: &Value) -> Result<Done, AllocError>
    ensures done { IfOk result (IsStepDone (view report.now)) }
{
    let planned = plan_vendor_texts(alloc, report)?;
    carry_out_planned(alloc, planned, report)
}

fn plan_vendor_texts(alloc: Global, report: &Value) -> Result<Planned, AllocError> {
    let objects = known_objects(alloc, report)?;
    let mut renaming = Renaming {
        alloc,
        ids: ids_of(alloc, &objects)?,
        planned: Planned::new(alloc),
        renamed: 0,
    };
    for object in &objects {
        plan_object(object, &mut renaming)?;
    }
    Ok(renaming.planned)
}

/// What is known while members get other names.
#[derive(Drop)]
struct Renaming {
    alloc: Global,
    ids: BTreeSet<String>,
    planned: Planned,
    /// How many members have got another name.
    renamed: usize,
}

/// Plans the other names in an object of the table.
fn plan_object<'a>(object: &KnownObject<'a>, renaming: &mut Renaming) -> Result<(), AllocError> {
    let alloc = renaming.alloc;
    let mut puts = Vec::new(alloc);
    for (name, member) in object.members.iter() {
        let text = name.as_str();
        let is_strange = is_vendor_reference(object, text);
        if is_strange || is_carried(object, text) {
            let before = renaming.renamed;
            let place = object.place.as_str();
            let inner = renamed(member, place, &Path::Member(&Path::Root, text), renaming)?;
            let mut own = String::from_str(alloc, text)?;
            if is_strange {
                own = new_name(object.members, text, member, (place, &Path::Root), renaming)?;
                if own.as_str() != text {
                    let at = place_of_member(alloc, place, text)?;
                    renaming.planned.plan.add(at, Edit::LeaveOut)?;
                }
            }
            if renaming.renamed != before {
                puts.push((own, inner))?;
            }
        }
    }
    if puts.is_empty() {
        return Ok(());
    }
    let place = object.place.clone()?;
    renaming.planned.plan.add(place, Edit::PutAll(puts))
}

/// Returns whether the member of an object is none of the standard's, and no reference.
fn is_carried(object: &KnownObject, name: &str) -> bool {
    matches!(
        object.want_of(name),
        Some(Want::Carried | Want::Member(MemberKind::Carried, _))
    )
}

/// Returns a copy of a carried value with the other names in it. The place of its object is a JSON Pointer, and `at` leads from
/// there to the value.
#[cycle(renamed)]
fn renamed(
    value: &Value,
    place: &str,
    at: &Path,
    renaming: &mut Renaming,
) -> Result<Value, AllocError> {
    match value {
        Value::Array(items) => Ok(Value::Array(renamed_items(items, place, at, renaming)?)),
        Value::Object(members) => {
            Ok(Value::Object(renamed_members(members, place, at, renaming)?))
        }
        Value::Null => Ok(Value::Null),
        Value::Bool(truth) => Ok(Value::Bool(*truth)),
        Value::Number(number) => Ok(Value::Number(*number)),
        Value::String(text) => Ok(Value::String(text.clone()?)),
    }
}

#[cycle(renamed)]
fn renamed_items(
    items: &Vec<Value>,
    place: &str,
    at: &Path,
    renaming: &mut Renaming,
) -> Result<Vec<Value>, AllocError> {
    let mut after = Vec::new(renaming.alloc);
    for (index, item) in items.iter().enumerate() {
        after.push(renamed(item, place, &Path::Entry(&*at, index), renaming)?)?;
    }
    Ok(after)
}

#[cycle(renamed)]
fn renamed_members(
    members: &Map<String, Value>,
    place: &str,
    at: &Path,
    renaming: &mut Renaming,
) -> Result<Map<String, Value>, AllocError> {
    let mut after = Map::new(renaming.alloc);
    for (name, member) in members.iter() {
        let text = name.as_str();
        let inner = renamed(member, place, &Path::Member(&*at, text), renaming)?;
        let own = new_name(members, text, member, (place, at), renaming)?;
        drop(after.insert(own, inner)?);
    }
    Ok(after)
}

/// Returns the name of a member afterwards. `holder` is the place of its object: a JSON Pointer, and the path from there.
fn new_name(
    members: &Map<String, Value>,
    name: &str,
    member: &Value,
    holder: (&str, &Path),
    renaming: &mut Renaming,
) -> Result<String, AllocError> {
    if !is_reference_form(name) {
        return String::from_str(renaming.alloc, name);
    }
    let other = code_name(renaming.alloc, name)?;
    if names_object(member, &renaming.ids) {
        leave(name, holder, LeftReason::NamesObject, renaming)?;
    } else if members.contains_key(other.as_str()) {
        leave(name, holder, LeftReason::NameTaken, renaming)?;
    } else {
        renaming.renamed = renaming.renamed.saturating_add(1);
        return Ok(other);
    }
    String::from_str(renaming.alloc, name)
}

fn leave(
    name: &str,
    holder: (&str, &Path),
    why: LeftReason,
    renaming: &mut Renaming,
) -> Result<(), AllocError> {
    let alloc = renaming.alloc;
    let below = pointer(alloc, &place_of(alloc, &Path::Member(holder.1, name))?)?;
    let place = format!(in alloc; "{}{}", holder.0, below)?;
    renaming.planned.leave(place, why)
}

/// Returns the name with `Code` in place of `Id` at its end, or `Codes` in place of `Ids`.
fn code_name(alloc: Global, name: &str) -> Result<String, AllocError> {
    if let Some(front) = name.strip_suffix("Ids") {
        return format!(in alloc; "{front}Codes");
    }
    match name.strip_suffix("Id") {
        Some(front) => format!(in alloc; "{front}Code"),
        None => String::from_str(alloc, name),
    }
}

/// Returns whether a text in a member is the `@id` of an object of the file.
fn names_object(member: &Value, ids: &BTreeSet<String>) -> bool {
    match member {
        Value::String(text) => ids.contains(text.as_str()),
        Value::Array(items) => {
            for item in items {
                if let Value::String(text) = item {
                    if ids.contains(text.as_str()) {
                        return true;
                    }
                }
            }
            false
        }
        Value::Null | Value::Bool(_) | Value::Number(_) | Value::Object(_) => false,
    }
}
