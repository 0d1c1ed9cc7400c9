//! What the steps leave that decide by what stands there alone.
ghost use Rattle.std.specs.Prelude.{◌≡◌, [], Some, IfOk};
ghost use Rattle.serde_json.specs.View.{view};
ghost use Rattle.erd_tables.specs.declared.class.Role.TheVariants.{Report};
ghost use Rattle.erd_check.specs.declared.want.Want.TheVariants.{Object};
ghost use Rattle.erd_prepare.specs.Changes.{told_by};
ghost use Rattle.erd_prepare.specs.Local.{dropping};
ghost use Rattle.erd_prepare.specs.LocalSteps.{dropped_by};
ghost use Rattle.erd_prepare.specs.Names.{naming};
ghost use Rattle.erd_prepare.specs.Rules.{prepared, told};
ghost use Rattle.erd_prepare.specs.declared.local.Local.TheVariants.{Counts, EmptyTexts};

use crate::engine::Done;
use crate::known_objects::{KnownObject, known_objects};
use crate::left::{Left, LeftReason};
use crate::local::{Local, is_counted, is_required_text, take_out};
use crate::names::{name_objects, needs_name};
use erd_check::want::Scope;
use serde_json::Value;
use std::alloc::{AllocError, Global};

/// Takes out vote counts of zero. Others are left: the file may be a report of results.
///
/// # Errors
///
/// `AllocError` if out of memory.
pub(crate) fn take_out_counts(alloc: Global, report: &Value) -> Result<Done, AllocError>
    ensures tree { IfOk result (λ done. view done.tree ≡ prepared (dropping (dropped_by Counts)) [] (Some (Object Report)) (view report.now)) }
    ensures changes { IfOk result (λ done. told_by done.changes.items ≡ told (dropping (dropped_by Counts)) [] (Some (Object Report)) (view report.now)) }
{
    let done = take_out(alloc, Local::Counts, report)?;
    let mut left = Vec::new(alloc);
    for object in &known_objects(alloc, report)? {
        for (name, member) in object.members.iter() {
            if is_counted(scope_of(object), name.as_str(), member) {
                leave(alloc, object, name.as_str(), LeftReason::Counted, &mut left)?;
            }
        }
    }
    Ok(Done {
        tree: done.tree,
        changes: done.changes,
        left,
    })
}

/// Takes out labels without a translation. Those that an object must have are left.
///
/// # Errors
///
/// `AllocError` if out of memory.
pub(crate) fn take_out_empty_texts(alloc: Global, report: &Value) -> Result<Done, AllocError>
    ensures tree { IfOk result (λ done. view done.tree ≡ prepared (dropping (dropped_by EmptyTexts)) [] (Some (Object Report)) (view report.now)) }
    ensures changes { IfOk result (λ done. told_by done.changes.items ≡ told (dropping (dropped_by EmptyTexts)) [] (Some (Object Report)) (view report.now)) }
{
    let done = take_out(alloc, Local::EmptyTexts, report)?;
    let mut left = Vec::new(alloc);
    for object in &known_objects(alloc, report)? {
        for (name, member) in object.members.iter() {
            if is_required_text(scope_of(object), name.as_str(), member) {
                let why = LeftReason::RequiredText;
                leave(alloc, object, name.as_str(), why, &mut left)?;
            }
        }
    }
    Ok(Done {
        tree: done.tree,
        changes: done.changes,
        left,
    })
}

/// Gives objects without an identifier their name as one. Those without a name are left.
///
/// # Errors
///
/// `AllocError` if out of memory.
pub(crate) fn name_all(alloc: Global, report: &Value) -> Result<Done, AllocError>
    ensures tree { IfOk result (λ done. view done.tree ≡ prepared (naming (view report.now)) [] (Some (Object Report)) (view report.now)) }
    ensures changes { IfOk result (λ done. told_by done.changes.items ≡ told (naming (view report.now)) [] (Some (Object Report)) (view report.now)) }
{
    let done = name_objects(alloc, report)?;
    let mut left = Vec::new(alloc);
    for object in &known_objects(alloc, &done.tree)? {
        if needs_name(report, object) {
            left.push(Left {
                place: object.place.clone()?,
                why: LeftReason::NoName,
            })?;
        }
    }
    Ok(Done {
        tree: done.tree,
        changes: done.changes,
        left,
    })
}

/// Returns what decides what is asked of the members of an object.
fn scope_of(object: &KnownObject) -> Scope {
    Scope::Members(object.role, Some(object.class))
}

/// Adds a member of an object to what is left. Its name is one of the table's.
fn leave(
    alloc: Global,
    object: &KnownObject,
    name: &str,
    why: LeftReason,
    left: &mut Vec<Left>,
) -> Result<(), AllocError> {
    let place = format!(in alloc; "{}/{}", object.place, name)?;
    left.push(Left { place, why })?;
    Ok(())
}
