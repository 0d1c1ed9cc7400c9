//! The place that a walk has come to, and the fault at that place.
ghost use Rattle.std.specs.Prelude.{◌≡◌, [], ◌∷◌, ◌++◌, ◌-◌, length, slice_get, IfOk};
ghost use Rattle.std.specs.Option.{option_copied, option_and_then};
ghost use Rattle.erd_check.specs.Paths.{steps_of, fault_at};

use erd_tables::{Fault, Place, Reason, Step, Text};
use std::alloc::{AllocError, Global};

/// The place that a walk has come to. Each step points to the one before it, so a path allocates nothing.
#[derive(Clone, Copy)]
pub enum Path<'a> {
    /// The place of the whole value.
    Root,
    /// The place of the member of this name, in the object at the path.
    Member(&'a Path<'a>, &'a str),
    /// The place of the entry at this position, counted from 0, in the array at the path.
    Entry(&'a Path<'a>, usize),
}

/// Adds the steps of a path. They share the names that the last fault has at the same positions.
fn push_steps(
    alloc: Global,
    path: &Path,
    faults: &[Fault],
    steps: &mut Vec<Step>,
) -> Result<(), AllocError>
    ensures { IfOk result (λ _. steps.new.items ≡ steps.old.items ++ steps_of path.now) }
{
    match path {
        Path::Root => Ok(()),
        Path::Member(parent, name) => {
            push_steps(alloc, parent, faults, steps)?;
            let name = name_near(alloc, step_of_last(faults, steps.len()), name)?;
            steps.push(Step::Name(name))?;
            Ok(())
        }
        Path::Entry(parent, index) => {
            push_steps(alloc, parent, faults, steps)?;
            steps.push(Step::At(*index))?;
            Ok(())
        }
    }
}

/// Returns the step at the position in the place of the last fault, if there are such a fault and such a step.
fn step_of_last(faults: &[Fault], at: usize) -> Option<&Step>
    ensures { option_copied result ≡ option_and_then (λ fault. slice_get fault.place at) (slice_get faults.now (length faults.now - 1)) }
{
    match faults.last() {
        Some(fault) => fault.place.step(at),
        None => None,
    }
}

/// Returns the name as a text. It shares the bytes of the step nearby if that is the step to a member of this name.
fn name_near(alloc: Global, near: Option<&Step>, name: &str) -> Result<Text, AllocError>
    ensures { IfOk result (λ text. text ≡ name.now) }
{
    if let Some(Step::Name(text)) = near {
        if text.as_str() == name {
            return text.try_clone(alloc);
        }
    }
    Text::shared(alloc, name)
}

/// Adds a fault to the end of the list: the place of the path, and the reason. Its place shares the names that stand at the
/// same positions in the place of the fault before it. So the faults below one long name hold the name once.
///
/// # Errors
///
/// `AllocError` if out of memory.
pub fn push_fault(
    alloc: Global,
    path: &Path,
    reason: Reason,
    faults: &mut Vec<Fault>,
) -> Result<(), AllocError>
    ensures { IfOk result (λ _. faults.new.items
        ≡ faults.old.items ++ fault_at (steps_of path.now) reason ∷ []) }
{
    let mut steps = Vec::new(alloc);
    push_steps(alloc, path, faults.as_slice(), &mut steps)?;
    let place = Place::of(steps);
    faults.push(Fault { place, reason })?;
    Ok(())
}
