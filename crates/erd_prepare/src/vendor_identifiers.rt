//! The number that an object without identifiers has in its vendor's database, such as `VendorContestId`.
ghost use Rattle.std.specs.Prelude.{◌≡◌, [], Some, IfOk};
ghost use Rattle.serde_json.specs.View.{view};
ghost use Rattle.erd_prepare.specs.Steps.{IsStepDone};

use crate::engine::Done;
use crate::identifiers::{other_identifier, put_identifiers};
use crate::known_objects::{KnownObject, known_objects};
use crate::left::{LeftReason, Planned, carry_out_planned};
use crate::plan::Edit;
use crate::twin_ids::family_word;
use crate::vendor_members::{ids_of, is_vendor_reference, place_of_member};
use erd_check::values::is_empty_array;
use erd_tables::class::{Family, Role};
use serde_json::Value;
use std::alloc::{AllocError, Global};
use std::collections::{BTreeMap, BTreeSet};

/// A number of a vendor's database, with the member that has it.
#[derive(Drop)]
struct Number<'a> {
    object: usize,
    name: &'a str,
    text: String,
    /// What has to be the only one in the report.
    own: String,
}

/// Makes such a number an identifier of its object, where no other object of the family has the same.
///
/// # Errors
///
/// `AllocError` if out of memory.
pub fn take_vendor_identifiers(alloc: Global, report: &Value) -> Result<Done, AllocError>
    ensures done { IfOk result (IsStepDone (view report.now)) }
{
    let planned = plan_vendor_identifiers(alloc, report)?;
    carry_out_planned(alloc, planned, report)
}

fn plan_vendor_identifiers(alloc: Global, report: &Value) -> Result<Planned, AllocError> {
    let mut planned = Planned::new(alloc);
    let objects = known_objects(alloc, report)?;
    let numbers = numbers_of(alloc, &objects)?;
    let times = times_of(alloc, &numbers)?;
    let mut given: BTreeMap<usize, Vec<Value>> = BTreeMap::new(alloc);
    for number in &numbers {
        let Some(object) = objects.get(number.object) else {
            continue;
        };
        let place = place_of_member(alloc, object.place.as_str(), number.name)?;
        if times.get(number.own.as_str()).copied() == Some(1) {
            planned.plan.add(place, Edit::LeaveOut)?;
            add_identifier(alloc, number, &mut given)?;
        } else {
            planned.leave(place, LeftReason::SharedNumber)?;
        }
    }
    for (number, identifiers) in given {
        if let Some(object) = objects.get(number) {
            let place = object.place.clone()?;
            put_identifiers(alloc, place, Value::Array(identifiers), &mut planned)?;
        }
    }
    Ok(planned)
}

/// Returns how often each number is there.
fn times_of(alloc: Global, numbers: &Vec<Number>) -> Result<BTreeMap<String, usize>, AllocError> {
    let mut times = BTreeMap::new(alloc);
    for number in numbers {
        let before: usize = times.get(number.own.as_str()).copied().unwrap_or(0);
        times.insert(number.own.clone()?, before.saturating_add(1))?;
    }
    Ok(times)
}

/// Returns the numbers of all objects that are known by identifiers and have none.
fn numbers_of<'a>(
    alloc: Global,
    objects: &Vec<KnownObject<'a>>,
) -> Result<Vec<Number<'a>>, AllocError> {
    let ids = ids_of(alloc, objects)?;
    let mut numbers = Vec::new(alloc);
    for (position, object) in objects.iter().enumerate() {
        match object.role {
            Role::OfFamily(Family::Selection) => {}
            Role::OfFamily(family) if has_no_identifier(object) => {
                add_numbers(alloc, position, family, object, &ids, &mut numbers)?;
            }
            _ => {}
        }
    }
    Ok(numbers)
}

fn has_no_identifier(object: &KnownObject) -> bool {
    match object.members.get("ExternalIdentifier") {
        Some(value) => value.is_null() || is_empty_array(value),
        None => true,
    }
}

/// Adds the members of an object that end as references do and are none of the standard's, with a text or a number.
fn add_numbers<'a>(
    alloc: Global,
    object: usize,
    family: Family,
    known: &KnownObject<'a>,
    ids: &BTreeSet<String>,
    numbers: &mut Vec<Number<'a>>,
) -> Result<(), AllocError> {
    for (name, member) in known.members.iter() {
        let name = name.as_str();
        if is_vendor_reference(known, name) {
            let text = number_text(alloc, member)?;
            if !text.is_empty() && !ids.contains(text.as_str()) {
                let word = family_word(family);
                let own = format!(in alloc; "{} {} {}{}", word, name.len(), name, text)?;
                numbers.push(Number {
                    object,
                    name,
                    text,
                    own,
                })?;
            }
        }
    }
    Ok(())
}

/// Returns the text of a string or a number, and the empty text of anything else.
fn number_text(alloc: Global, value: &Value) -> Result<String, AllocError> {
    match value {
        Value::String(text) => text.clone(),
        Value::Number(_) => value.to_string(alloc),
        Value::Null | Value::Bool(_) | Value::Array(_) | Value::Object(_) => Ok(String::new(alloc)),
    }
}

fn add_identifier<'a>(
    alloc: Global,
    number: &Number<'a>,
    given: &mut BTreeMap<usize, Vec<Value>>,
) -> Result<(), AllocError> {
    let identifier = other_identifier(alloc, number.name, number.text.as_str())?;
    if let Some(identifiers) = given.get_mut(&number.object) {
        identifiers.push(identifier)?;
        return Ok(());
    }
    let mut identifiers = Vec::new(alloc);
    identifiers.push(identifier)?;
    given.insert(number.object, identifiers)?;
    Ok(())
}
