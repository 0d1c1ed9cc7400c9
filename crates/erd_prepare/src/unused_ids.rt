//! An `@id` that several objects have, and to which nothing refers.
ghost use Rattle.std.specs.Prelude.{◌≡◌, [], Some, IfOk};
ghost use Rattle.serde_json.specs.View.{view};
ghost use Rattle.erd_prepare.specs.Steps.{IsStepDone};

use crate::engine::Done;
use crate::known_objects::{KnownObject, known_objects};
use crate::persons::add_references;
use crate::plan::{Edit, Plan, carry_out};
use erd_tables::class::Role;
use serde_json::Value;
use std::alloc::{AllocError, Global};
use std::collections::{BTreeMap, BTreeSet};

/// Takes out each `@id` that several objects have, if no member whose name ends in `Id` or `Ids` has its text. No object needs an
/// `@id`: it says only what refers to the object.
///
/// # Errors
///
/// `AllocError` if out of memory.
pub fn take_out_unused_ids(alloc: Global, report: &Value) -> Result<Done, AllocError>
    ensures done { IfOk result (IsStepDone (view report.now)) }
{
    carry_out(alloc, &unused_in(alloc, report)?, report)
}

fn unused_in(alloc: Global, report: &Value) -> Result<Plan, AllocError> {
    let mut plan = Plan {
        edits: BTreeMap::new(alloc),
    };
    let mut used = BTreeSet::new(alloc);
    add_references(report, &mut used)?;
    let objects = known_objects(alloc, report)?;
    let mut times = BTreeMap::new(alloc);
    for object in &objects {
        if let Some(id) = id_of(object) {
            let before: usize = times.get(&id).copied().unwrap_or(0);
            times.insert(id, before.saturating_add(1))?;
        }
    }
    for object in &objects {
        if let Some(id) = id_of(object) {
            if times.get(&id).copied() != Some(1) && !used.contains(id) {
                let place = format!(in alloc; "{}/@id", object.place)?;
                plan.edits.insert(place, Edit::LeaveOut)?;
            }
        }
    }
    Ok(plan)
}

/// Returns the `@id` of an object of a family, if it has one.
fn id_of<'a>(object: &KnownObject<'a>) -> Option<&'a str> {
    if !matches!(object.role, Role::OfFamily(_)) {
        return None;
    }
    object.members.get("@id")?.as_str()
}
