//! Entries that a set has twice: references, identifiers and translations.
ghost use Rattle.std.specs.Prelude.{◌≡◌, [], Some, IfOk};
ghost use Rattle.serde_json.specs.View.{view};
ghost use Rattle.erd_prepare.specs.Steps.{IsStepDone};

use crate::engine::Done;
use crate::known_objects::{KnownObject, known_objects};
use crate::plan::{Edit, Plan, carry_out};
use erd_check::ValueSet;
use erd_check::values::entries_of;
use erd_check::want::is_set_wanted;
use serde_json::Value;
use std::alloc::{AllocError, Global};
use std::collections::BTreeMap;

/// Takes out each entry that is the same as an earlier one of its set. Which of the equal entries stays depends on their order;
/// what the set says does not.
///
/// # Errors
///
/// `AllocError` if out of memory.
pub fn take_out_repeated(alloc: Global, report: &Value) -> Result<Done, AllocError>
    ensures done { IfOk result (IsStepDone (view report.now)) }
{
    carry_out(alloc, &repeated_in(alloc, report)?, report)
}

fn repeated_in(alloc: Global, report: &Value) -> Result<Plan, AllocError> {
    let mut plan = Plan {
        edits: BTreeMap::new(alloc),
    };
    let objects = known_objects(alloc, report)?;
    for object in &objects {
        plan_object(alloc, object, &mut plan)?;
    }
    Ok(plan)
}

fn plan_object(alloc: Global, object: &KnownObject, plan: &mut Plan) -> Result<(), AllocError> {
    for (name, member) in object.members.iter() {
        if object
            .want_of(name.as_str())
            .is_some_and(|want| is_set_wanted(want))
        {
            let place = format!(in alloc; "{}/{}", object.place, name)?;
            plan_entries(alloc, place.as_str(), entries_of(member), plan)?;
        }
    }
    Ok(())
}

/// Plans that each entry goes that is equal to one before it.
fn plan_entries(
    alloc: Global,
    place: &str,
    entries: &[Value],
    plan: &mut Plan,
) -> Result<(), AllocError> {
    let mut met = ValueSet::new(alloc);
    for (index, entry) in entries.iter().enumerate() {
        if met.has(entry) {
            let at = format!(in alloc; "{place}/{index}")?;
            plan.edits.insert(at, Edit::LeaveOut)?;
        } else {
            met.insert(entry)?;
        }
    }
    Ok(())
}
