//! Numbers of units that begin again in each county, or inside a county in each town: the code of the county or town goes in
//! front.
ghost use Rattle.std.specs.Prelude.{◌≡◌, [], Some, IfOk};
ghost use Rattle.serde_json.specs.View.{view};
ghost use Rattle.erd_prepare.specs.Steps.{IsStepDone};

use crate::areas::{AreaSort, Areas, Around, with};
use crate::engine::Done;
use crate::left::{LeftReason, Planned, carry_out_planned};
use crate::objects::{Objects, PlacedObject};
use crate::plan::Edit;
use crate::triple::{Triple, triple_of};
use erd_tables::class::Family;
use serde_json::Value;
use std::alloc::{AllocError, Global};
use std::collections::{BTreeMap, BTreeSet};

/// A sort of numbers: the type of the units, and the type of the identifiers.
type NumberSort<'a> = (&'a str, &'a str, &'a str);

/// An identifier of a unit that the area around it does not have.
#[derive(Drop)]
struct Numbered<'a> {
    /// The JSON Pointer of the identifier.
    place: String,
    sort: NumberSort<'a>,
    code: &'a str,
    /// The county inside which it should differ from all others, if it matters.
    within: Option<usize>,
    /// The county or town that the unit is in.
    area: Option<usize>,
}

/// Puts the code of the county in front of each number of a type of units, where two units of two counties have the same number.
/// Every unit of the type in a county gets it, not only those whose number recurs. If no `@id` recurs, the order of the sets does
/// not matter.
///
/// # Errors
///
/// `AllocError` if out of memory.
pub fn put_counties_in_front(alloc: Global, report: &Value) -> Result<Done, AllocError>
    ensures done { IfOk result (IsStepDone (view report.now)) }
{
    carry_out_planned(alloc, plan_counties(alloc, report)?, report)
}

/// Puts the code of the town in front of each number of a type of units, where two units of one county and two towns have the
/// same number. Every unit of the type in a town gets it, not only those whose number recurs. If no `@id` recurs, the order of
/// the sets does not matter.
///
/// # Errors
///
/// `AllocError` if out of memory.
pub fn put_towns_in_front(alloc: Global, report: &Value) -> Result<Done, AllocError>
    ensures done { IfOk result (IsStepDone (view report.now)) }
{
    carry_out_planned(alloc, plan_towns(alloc, report)?, report)
}

/// Returns what is to be done about the counties, and which numbers are left.
///
/// # Errors
///
/// `AllocError` if out of memory.
fn plan_counties(alloc: Global, report: &Value) -> Result<Planned, AllocError> {
    let objects = Objects::of(alloc, report)?;
    let counties = Areas::of(alloc, AreaSort::County, &objects)?;
    let numbers = numbers_of(alloc, &objects, &counties, None)?;
    planned(alloc, &counties, &numbers, LeftReason::NoCounty)
}

/// Returns what is to be done about the towns, and which numbers are left.
///
/// # Errors
///
/// `AllocError` if out of memory.
fn plan_towns(alloc: Global, report: &Value) -> Result<Planned, AllocError> {
    let objects = Objects::of(alloc, report)?;
    let counties = Areas::of(alloc, AreaSort::County, &objects)?;
    let towns = Areas::of(alloc, AreaSort::Town, &objects)?;
    let numbers = numbers_of(alloc, &objects, &towns, Some(&counties))?;
    planned(alloc, &towns, &numbers, LeftReason::NoTown)
}

/// Returns the identifiers of all units but those that the areas around them have too.
fn numbers_of<'a>(
    alloc: Global,
    objects: &Objects<'a>,
    areas: &Areas<'a>,
    counties: Option<&Areas<'a>>,
) -> Result<Vec<Numbered<'a>>, AllocError> {
    let mut numbers = Vec::new(alloc);
    for (number, unit) in objects.all.iter().enumerate() {
        if unit.is_of(Family::Unit) {
            let area = areas.around(number);
            let within = match counties {
                Some(counties) => counties.around(number),
                None => None,
            };
            for (index, entry) in unit.identifiers().iter().enumerate() {
                if let Some(triple) = triple_of(entry) {
                    if !areas.has(area, triple) && !has_county(counties, within, triple) {
                        numbers.push(number_at(alloc, unit, index, triple, (within, area))?)?;
                    }
                }
            }
        }
    }
    Ok(numbers)
}

/// Returns whether the county has the identifier too, if counties matter.
fn has_county<'a>(counties: Option<&Areas<'a>>, county: Option<usize>, triple: Triple<'a>) -> bool {
    match counties {
        Some(counties) => counties.has(county, triple),
        None => false,
    }
}

fn number_at<'a>(
    alloc: Global,
    unit: &PlacedObject<'a>,
    index: usize,
    triple: Triple<'a>,
    around: (Option<usize>, Option<usize>),
) -> Result<Numbered<'a>, AllocError> {
    let place = format!(in alloc; "{}/ExternalIdentifier/{}", unit.known.place, index)?;
    Ok(Numbered {
        place,
        sort: (unit.text_at("Type"), triple.kind, triple.other),
        code: triple.code,
        within: around.0,
        area: around.1,
    })
}

/// Plans the codes of the areas in front of all numbers of the sorts that recur.
fn planned<'a>(
    alloc: Global,
    areas: &Areas<'a>,
    numbers: &Vec<Numbered<'a>>,
    why: LeftReason,
) -> Result<Planned, AllocError> {
    let recurring = recurring_sorts(alloc, numbers)?;
    let mut planned = Planned::new(alloc);
    for number in numbers {
        if recurring.contains(&number.sort) {
            let front = match number.area {
                Some(area) => areas.code(area),
                None => "",
            };
            if front.is_empty() {
                planned.leave(number.place.clone()?, why)?;
            } else {
                let place = format!(in alloc; "{}/Value", number.place)?;
                let code = format!(in alloc; "{}-{}", front, number.code)?;
                planned
                    .plan
                    .edits
                    .insert(place, Edit::Write(Value::String(code)))?;
            }
        }
    }
    Ok(planned)
}

/// Returns the sorts in which two units of two areas have one number.
fn recurring_sorts<'a>(
    alloc: Global,
    numbers: &Vec<Numbered<'a>>,
) -> Result<BTreeSet<NumberSort<'a>>, AllocError> {
    let mut areas = BTreeMap::new(alloc);
    let mut recurring = BTreeSet::new(alloc);
    for number in numbers {
        if let Some(area) = number.area {
            let key = (number.sort, number.within, number.code);
            let around = with(areas.get(&key).copied(), area);
            areas.insert(key, around)?;
            if around == Around::Several {
                recurring.insert(number.sort)?;
            }
        }
    }
    Ok(recurring)
}
