//! Identifiers of the type `other`, which are most often those of a vendor's system.
ghost use Rattle.std.specs.Prelude.{◌≡◌, [], Some, IfOk};
ghost use Rattle.serde_json.specs.View.{view};
ghost use Rattle.erd_prepare.specs.Steps.{IsStepDone};

use crate::engine::Done;
use crate::known_objects::{KnownObject, known_objects};
use crate::plan::{Edit, Plan, carry_out};
use crate::triple::triple_of;
use erd_check::values::entries_of;
use serde_json::Value;
use std::alloc::{AllocError, Global};

/// The type of identifiers that have none of the types of the standard.
const OTHER: &str = "other";

/// Takes identifiers of the type `other` out of each object that has one of another type. What has none, keeps its identifiers.
///
/// # Errors
///
/// `AllocError` if out of memory.
pub(crate) fn take_out_other_codes(alloc: Global, report: &Value) -> Result<Done, AllocError>
    ensures done { IfOk result (IsStepDone (view report.now)) }
{
    carry_out(alloc, &other_codes_in(alloc, report)?, report)
}

fn other_codes_in(alloc: Global, report: &Value) -> Result<Plan, AllocError> {
    let mut plan = Plan::new(alloc);
    let objects = known_objects(alloc, report)?;
    for object in &objects {
        plan_object(alloc, object, &mut plan)?;
    }
    Ok(plan)
}

/// Plans that the identifiers of the type `other` go, if the object has one of another type.
fn plan_object(alloc: Global, object: &KnownObject, plan: &mut Plan) -> Result<(), AllocError> {
    let Some(identifiers) = object.members.get("ExternalIdentifier") else {
        return Ok(());
    };
    let entries = entries_of(identifiers);
    if !has_another(entries) {
        return Ok(());
    }
    for (index, entry) in entries.iter().enumerate() {
        if triple_of(entry).is_some_and(|triple| triple.kind == OTHER) {
            let place = format!(in alloc; "{}/ExternalIdentifier/{}", object.place, index)?;
            plan.add(place, Edit::LeaveOut)?;
        }
    }
    Ok(())
}

/// Returns whether one of these entries is an identifier of another type.
fn has_another(entries: &[Value]) -> bool {
    for entry in entries {
        if triple_of(entry).is_some_and(|triple| triple.kind != OTHER) {
            return true;
        }
    }
    false
}
