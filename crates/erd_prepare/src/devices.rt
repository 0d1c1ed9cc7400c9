//! Machines that count ballots, which stand among the units.
ghost use Rattle.std.specs.Prelude.{◌≡◌, [], Some, IfOk};
ghost use Rattle.serde_json.specs.View.{view};
ghost use Rattle.erd_prepare.specs.Steps.{IsStepDone};

use crate::engine::Done;
use crate::known_objects::{KnownObject, known_objects};
use crate::plan::{Edit, Plan, carry_out};
use erd_check::values::{entries_at, entries_of, text_at};
use erd_check::want::Want;
use erd_tables::class::Family;
use erd_tables::member::MemberKind;
use serde_json::Value;
use std::alloc::{AllocError, Global};
use std::collections::{BTreeMap, BTreeSet};

/// Takes each `ReportingDevice` out of the units, and out of the lists of units.
///
/// # Errors
///
/// `AllocError` if out of memory.
pub fn take_out_devices(alloc: Global, report: &Value) -> Result<Done, AllocError>
    ensures done { IfOk result (IsStepDone (view report.now)) }
{
    carry_out(alloc, &devices_in(alloc, report)?, report)
}

fn devices_in(alloc: Global, report: &Value) -> Result<Plan, AllocError> {
    let mut plan = Plan {
        edits: BTreeMap::new(alloc),
    };
    let units = entries_at(report, "GpUnit");
    for (index, unit) in units.iter().enumerate() {
        if is_device(unit) {
            let place = format!(in alloc; "/GpUnit/{index}")?;
            plan.edits.insert(place, Edit::LeaveOut)?;
        }
    }
    let gone = gone_ids(alloc, units)?;
    let objects = known_objects(alloc, report)?;
    for object in &objects {
        plan_lists(alloc, object, &gone, &mut plan)?;
    }
    Ok(plan)
}

fn is_device(unit: &Value) -> bool {
    let class = text_at(unit, "@type");
    class == "ElectionResults.ReportingDevice" || class == "ReportingDevice"
}

/// Returns the `@id`s of devices that no other unit has.
fn gone_ids<'a>(alloc: Global, units: &'a [Value]) -> Result<BTreeSet<&'a str>, AllocError> {
    let mut others = BTreeSet::new(alloc);
    for unit in units {
        if let Some(Value::String(id)) = unit.get("@id") {
            if !is_device(unit) {
                others.insert(id.as_str())?;
            }
        }
    }
    let mut gone = BTreeSet::new(alloc);
    for unit in units {
        if let Some(Value::String(id)) = unit.get("@id") {
            if is_device(unit) && !others.contains(&id.as_str()) {
                gone.insert(id.as_str())?;
            }
        }
    }
    Ok(gone)
}

/// Plans that the devices go from the lists of units in an object.
fn plan_lists<'a>(
    alloc: Global,
    object: &KnownObject<'a>,
    gone: &BTreeSet<&'a str>,
    plan: &mut Plan,
) -> Result<(), AllocError> {
    for (name, member) in object.members.iter() {
        if let Some(Want::Member(MemberKind::Many(Family::Unit), _)) = object.want_of(
            name.as_str(),
        ) {
            for (index, entry) in entries_of(member).iter().enumerate() {
                if let Value::String(id) = entry {
                    if gone.contains(&id.as_str()) {
                        let place = format!(in alloc; "{}/{}/{}", object.place, name, index)?;
                        plan.edits.insert(place, Edit::LeaveOut)?;
                    }
                }
            }
        }
    }
    Ok(())
}
