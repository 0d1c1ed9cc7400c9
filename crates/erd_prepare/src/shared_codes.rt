//! Identifiers that several objects of a family have, such as the code of the county on each of its precincts.
ghost use Rattle.std.specs.Prelude.{◌≡◌, [], Some, IfOk};
ghost use Rattle.serde_json.specs.View.{view};
ghost use Rattle.erd_prepare.specs.Steps.{IsStepDone};

use crate::engine::Done;
use crate::known_objects::{KnownObject, known_objects};
use crate::plan::{Edit, Plan, carry_out};
use crate::triple::{Triple, triple_of};
use erd_check::values::entries_of;
use erd_tables::class::{Family, Role};
use serde_json::Value;
use std::alloc::{AllocError, Global};
use std::collections::{BTreeMap, BTreeSet};

/// How many objects of each family have each identifier.
type Times<'a> = BTreeMap<(Family, Triple<'a>), usize>;

/// Takes identifiers that several objects of a family have out of the objects that would be known by them and have another one
/// of their own.
///
/// # Errors
///
/// `AllocError` if out of memory.
pub fn take_out_shared_codes(alloc: Global, report: &Value) -> Result<Done, AllocError>
    ensures done { IfOk result (IsStepDone (view report.now)) }
{
    carry_out(alloc, &shared_in(alloc, report)?, report)
}

fn shared_in(alloc: Global, report: &Value) -> Result<Plan, AllocError> {
    let objects = known_objects(alloc, report)?;
    let mut times = BTreeMap::new(alloc);
    for object in &objects {
        if let Some(family) = keyed_family(object.role) {
            count_triples(alloc, object, family, &mut times)?;
        }
    }
    let mut plan = Plan {
        edits: BTreeMap::new(alloc),
    };
    for object in &objects {
        if let Some(family) = keyed_family(object.role) {
            plan_object(alloc, object, family, &times, &mut plan)?;
        }
    }
    Ok(plan)
}

/// Returns the family of objects with the role, if these are known by identifiers.
fn keyed_family(role: Role) -> Option<Family> {
    match role {
        Role::OfFamily(Family::Selection) => None,
        Role::OfFamily(family) => Some(family),
        _ => None,
    }
}

/// Counts each identifier of an object once.
fn count_triples<'a>(
    alloc: Global,
    object: &KnownObject<'a>,
    family: Family,
    times: &mut Times<'a>,
) -> Result<(), AllocError> {
    let mut met = BTreeSet::new(alloc);
    for entry in identifiers_of(object) {
        if let Some(triple) = triple_of(entry) {
            if met.insert(triple)? {
                let before = times.get(&(family, triple)).copied().unwrap_or(0);
                times.insert((family, triple), before.saturating_add(1))?;
            }
        }
    }
    Ok(())
}

/// Plans that the shared identifiers go that are less than the least one of the object's own.
fn plan_object<'a>(
    alloc: Global,
    object: &KnownObject<'a>,
    family: Family,
    times: &Times<'a>,
    plan: &mut Plan,
) -> Result<(), AllocError> {
    let Some(own) = least_own(object, family, times) else {
        return Ok(());
    };
    for (index, entry) in identifiers_of(object).iter().enumerate() {
        if triple_of(entry).is_some_and(|triple| triple < own) {
            let place = format!(in alloc; "{}/ExternalIdentifier/{}", object.place, index)?;
            plan.edits.insert(place, Edit::LeaveOut)?;
        }
    }
    Ok(())
}

/// Returns the least identifier that no other object of the family has.
fn least_own<'a>(
    object: &KnownObject<'a>,
    family: Family,
    times: &Times<'a>,
) -> Option<Triple<'a>> {
    let mut least = None;
    for entry in identifiers_of(object) {
        if let Some(triple) = triple_of(entry) {
            let is_own = times.get(&(family, triple)).copied() == Some(1);
            if is_own && least.is_none_or(|least| triple < least) {
                least = Some(triple);
            }
        }
    }
    least
}

fn identifiers_of<'a>(object: &KnownObject<'a>) -> &'a [Value] {
    match object.members.get("ExternalIdentifier") {
        Some(identifiers) => entries_of(identifiers),
        None => &[],
    }
}
