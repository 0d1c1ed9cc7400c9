//! Lines for candidates who are no longer in the file: they go from their contests, and from the ballots.
ghost use Rattle.std.specs.Prelude.{◌≡◌, [], Some, IfOk};
ghost use Rattle.serde_json.specs.View.{view};
ghost use Rattle.erd_prepare.specs.Steps.{IsStepDone};

use crate::engine::Done;
use crate::known_objects::{KnownObject, known_objects};
use crate::left::{LeftReason, Planned, carry_out_planned};
use crate::plan::{Edit, Plan};
use erd_check::values::entries_of;
use erd_check::want::Want;
use erd_tables::class::{Class, Role};
use erd_tables::member::MemberKind;
use serde_json::Value;
use std::alloc::{AllocError, Global};
use std::collections::BTreeSet;

/// Takes out each line all of whose candidates are nobody's `@id`. A voter no longer sees the line.
///
/// # Errors
///
/// `AllocError` if out of memory.
pub fn take_out_gone_candidates(alloc: Global, report: &Value) -> Result<Done, AllocError>
    ensures done { IfOk result (IsStepDone (view report.now)) }
{
    let planned = gone_in(alloc, report)?;
    carry_out_planned(alloc, planned, report)
}

fn gone_in(alloc: Global, report: &Value) -> Result<Planned, AllocError> {
    let mut planned = Planned::new(alloc);
    let objects = known_objects(alloc, report)?;
    let ids = ids_of(alloc, &objects)?;
    let candidates = candidates_of(alloc, &objects)?;
    let mut gone = BTreeSet::new(alloc);
    let mut others = BTreeSet::new(alloc);
    for object in &objects {
        if is_gone(object, &ids) {
            planned.plan.add(object.place.clone()?, Edit::LeaveOut)?;
            add_id(object, &mut gone)?;
        } else {
            if lacks_one(object, &candidates) {
                planned.leave(object.place.clone()?, LeftReason::SomeGone)?;
            }
            add_id(object, &mut others)?;
        }
    }
    for object in &objects {
        plan_lists(alloc, object, &gone, &others, &mut planned.plan)?;
    }
    Ok(planned)
}

/// Returns the `@id`s of all candidates.
fn candidates_of<'a>(
    alloc: Global,
    objects: &Vec<KnownObject<'a>>,
) -> Result<BTreeSet<&'a str>, AllocError> {
    let mut ids = BTreeSet::new(alloc);
    for object in objects {
        if object.class == Class::Candidate {
            add_id(object, &mut ids)?;
        }
    }
    Ok(ids)
}

/// Returns whether a line names one that is no candidate.
fn lacks_one<'a>(object: &KnownObject<'a>, candidates: &BTreeSet<&'a str>) -> bool {
    if object.class != Class::CandidateSelection {
        return false;
    }
    let Some(named) = object.members.get("CandidateIds") else {
        return false;
    };
    for candidate in entries_of(named) {
        if let Value::String(id) = candidate {
            if !candidates.contains(&id.as_str()) {
                return true;
            }
        }
    }
    false
}

/// Returns the `@id`s of all objects of families.
fn ids_of<'a>(
    alloc: Global,
    objects: &Vec<KnownObject<'a>>,
) -> Result<BTreeSet<&'a str>, AllocError> {
    let mut ids = BTreeSet::new(alloc);
    for object in objects {
        add_id(object, &mut ids)?;
    }
    Ok(ids)
}

/// Adds the `@id` of an object of a family, if it has one.
fn add_id<'a>(object: &KnownObject<'a>, ids: &mut BTreeSet<&'a str>) -> Result<(), AllocError> {
    if matches!(object.role, Role::OfFamily(_)) {
        if let Some(Value::String(id)) = object.members.get("@id") {
            ids.insert(id.as_str())?;
        }
    }
    Ok(())
}

/// Returns whether a line names candidates, and none of them is there.
fn is_gone<'a>(object: &KnownObject<'a>, ids: &BTreeSet<&'a str>) -> bool {
    if object.class != Class::CandidateSelection {
        return false;
    }
    let Some(candidates) = object.members.get("CandidateIds") else {
        return false;
    };
    let mut is_named = false;
    for candidate in entries_of(candidates) {
        if let Value::String(id) = candidate {
            if ids.contains(&id.as_str()) {
                return false;
            }
            is_named = true;
        }
    }
    is_named
}

/// Plans that lines that go also go from the lists of a ballot.
fn plan_lists<'a>(
    alloc: Global,
    object: &KnownObject<'a>,
    gone: &BTreeSet<&'a str>,
    others: &BTreeSet<&'a str>,
    plan: &mut Plan,
) -> Result<(), AllocError> {
    for (name, member) in object.members.iter() {
        if let Some(Want::Member(MemberKind::Ordered, _)) = object.want_of(name.as_str()) {
            for (index, entry) in entries_of(member).iter().enumerate() {
                if let Value::String(id) = entry {
                    if gone.contains(&id.as_str()) && !others.contains(&id.as_str()) {
                        let place = format!(in alloc; "{}/{}/{}", object.place, name, index)?;
                        plan.edits.insert(place, Edit::LeaveOut)?;
                    }
                }
            }
        }
    }
    Ok(())
}
