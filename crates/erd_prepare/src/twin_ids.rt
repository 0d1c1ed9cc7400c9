//! An `@id` that objects of several families have, as where each table of a database counts from 1.
ghost use Rattle.std.specs.Prelude.{◌≡◌, [], Some, IfOk};
ghost use Rattle.serde_json.specs.View.{view};
ghost use Rattle.erd_prepare.specs.Steps.{IsStepDone};

use crate::engine::Done;
use crate::known_objects::{KnownObject, known_objects};
use crate::left::{LeftReason, Planned, carry_out_planned};
use crate::plan::Edit;
use erd_check::values::entries_of;
use erd_check::want::Want;
use erd_tables::class::{Family, Role};
use erd_tables::member::MemberKind;
use serde_json::Value;
use std::alloc::{AllocError, Global};
use std::collections::{BTreeMap, BTreeSet};

/// The new name of each `@id` of a family that gets one.
type NewNames<'a> = BTreeMap<(Family, &'a str), String>;

/// Puts the family in front of each `@id` that objects of several families have, and of each reference to it. Where two objects
/// of one family have the `@id`, nothing tells which of them a reference means: all of these stay.
///
/// # Errors
///
/// `AllocError` if out of memory.
pub fn tell_ids_apart(alloc: Global, report: &Value) -> Result<Done, AllocError>
    ensures done { IfOk result (IsStepDone (view report.now)) }
{
    let planned = plan_twin_ids(alloc, report)?;
    carry_out_planned(alloc, planned, report)
}

fn plan_twin_ids(alloc: Global, report: &Value) -> Result<Planned, AllocError> {
    let mut planned = Planned::new(alloc);
    let objects = known_objects(alloc, report)?;
    let names = new_names(alloc, &objects, &mut planned)?;
    if names.is_empty() {
        return Ok(planned);
    }
    for object in &objects {
        plan_object(alloc, object, &names, &mut planned)?;
    }
    Ok(planned)
}

/// Returns the family and the `@id` of an object, if it has them.
fn id_of<'a>(object: &KnownObject<'a>) -> Option<(Family, &'a str)> {
    let Role::OfFamily(family) = object.role else {
        return None;
    };
    match object.members.get("@id") {
        Some(Value::String(id)) => Some((family, id.as_str())),
        _ => None,
    }
}

/// Returns the new names, and leaves the objects that nothing tells apart.
fn new_names<'a>(
    alloc: Global,
    objects: &Vec<KnownObject<'a>>,
    planned: &mut Planned,
) -> Result<NewNames<'a>, AllocError> {
    let mut owners: BTreeMap<&str, Vec<usize>> = BTreeMap::new(alloc);
    for (number, object) in objects.iter().enumerate() {
        if let Some((_, id)) = id_of(object) {
            add_owner(alloc, id, number, &mut owners)?;
        }
    }
    let mut taken = BTreeSet::new(alloc);
    for id in owners.keys() {
        taken.insert(String::from_str(alloc, id)?)?;
    }
    let mut names = BTreeMap::new(alloc);
    for numbers in owners.values() {
        name_owners(alloc, objects, numbers, &mut taken, &mut names, planned)?;
    }
    Ok(names)
}

fn add_owner<'a>(
    alloc: Global,
    id: &'a str,
    number: usize,
    owners: &mut BTreeMap<&'a str, Vec<usize>>,
) -> Result<(), AllocError> {
    if let Some(numbers) = owners.get_mut(&id) {
        numbers.push(number)?;
        return Ok(());
    }
    let mut numbers = Vec::new(alloc);
    numbers.push(number)?;
    owners.insert(id, numbers)?;
    Ok(())
}

/// Gives the owners of one `@id` new names, if there are several and each is of another family.
fn name_owners<'a>(
    alloc: Global,
    objects: &Vec<KnownObject<'a>>,
    numbers: &Vec<usize>,
    taken: &mut BTreeSet<String>,
    names: &mut NewNames<'a>,
    planned: &mut Planned,
) -> Result<(), AllocError> {
    let mut families = BTreeSet::new(alloc);
    for number in numbers {
        if let Some((family, _)) = objects.get(*number).and_then(|object| id_of(object)) {
            families.insert(family)?;
        }
    }
    if numbers.len() < 2 {
        return Ok(());
    }
    let are_told = families.len() == numbers.len();
    for (position, number) in numbers.iter().enumerate() {
        let Some(object) = objects.get(*number) else {
            continue;
        };
        let Some((family, id)) = id_of(object) else {
            continue;
        };
        if are_told {
            let name = free_name(alloc, family, id, taken)?;
            names.insert((family, id), name)?;
        } else if position > 0 {
            let place = format!(in alloc; "{}/@id", object.place)?;
            planned.leave(place, LeftReason::TwinIds)?;
        }
    }
    Ok(())
}

/// Returns the family and the `@id`, with as many `-` behind them as it takes to be no other one's.
fn free_name(
    alloc: Global,
    family: Family,
    id: &str,
    taken: &mut BTreeSet<String>,
) -> Result<String, AllocError> {
    let mut name = format!(in alloc; "{}-{}", family_word(family), id)?;
    for _ in 0..u64::MAX {
        if !taken.contains(name.as_str()) {
            break;
        }
        name.push_str("-")?;
    }
    taken.insert(name.clone()?)?;
    Ok(name)
}

/// Returns the word that is put in front of an `@id` of the family.
pub(crate) fn family_word(family: Family) -> &'static str {
    match family {
        Family::Unit => "unit",
        Family::Party => "party",
        Family::Person => "person",
        Family::Office => "office",
        Family::Header => "header",
        Family::Candidate => "candidate",
        Family::Contest => "contest",
        Family::Style => "style",
        Family::Selection => "selection",
    }
}

/// Plans the new names in an object: its own, and those to which it refers.
fn plan_object<'a>(
    alloc: Global,
    object: &KnownObject<'a>,
    names: &NewNames<'a>,
    planned: &mut Planned,
) -> Result<(), AllocError> {
    for (name, member) in object.members.iter() {
        let place = format!(in alloc; "{}/{}", object.place, name)?;
        match object.want_of(name.as_str()) {
            Some(Want::Member(MemberKind::Identity, _)) => {
                if let Role::OfFamily(family) = object.role {
                    plan_text(place, family, member, names, planned)?;
                }
            }
            Some(Want::Reference(family)) => {
                plan_text(place, family, member, names, planned)?;
            }
            Some(Want::Member(MemberKind::Many(family), _)) => {
                plan_entries(alloc, place.as_str(), family, member, names, planned)?;
            }
            Some(Want::Member(MemberKind::Ordered, _)) => {
                let place = place.as_str();
                plan_entries(alloc, place, Family::Selection, member, names, planned)?;
            }
            _ => {}
        }
    }
    Ok(())
}

fn plan_entries<'a>(
    alloc: Global,
    place: &str,
    family: Family,
    array: &'a Value,
    names: &NewNames<'a>,
    planned: &mut Planned,
) -> Result<(), AllocError> {
    for (index, entry) in entries_of(array).iter().enumerate() {
        let at = format!(in alloc; "{place}/{index}")?;
        plan_text(at, family, entry, names, planned)?;
    }
    Ok(())
}

/// Plans the new name of an `@id` at a place, if it has one.
fn plan_text<'a>(
    place: String,
    family: Family,
    value: &'a Value,
    names: &NewNames<'a>,
    planned: &mut Planned,
) -> Result<(), AllocError> {
    let Value::String(id) = value else {
        return Ok(());
    };
    match names.get(&(family, id.as_str())) {
        Some(name) => {
            let edit = Edit::Write(Value::String(name.clone()?));
            planned.plan.add(place, edit)
        }
        None => Ok(()),
    }
}
