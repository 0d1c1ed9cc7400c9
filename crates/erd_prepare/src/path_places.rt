//! The place that a path leads to.
ghost use Rattle.std.specs.Prelude.{◌≡◌, ◌++◌, IfOk};
ghost use Rattle.erd_check.specs.Paths.{steps_of};

use erd_check::path::Path;
use erd_tables::{Place, Step, Text};
use std::alloc::{AllocError, Global};

/// Returns the place that a path leads to.
pub(crate) fn place_of(alloc: Global, path: &Path) -> Result<Place, AllocError>
    ensures { IfOk result (λ place. place ≡ steps_of path.now) }
{
    place_near(alloc, path, None)
}

/// Returns the place that a path leads to. It shares the names that a place nearby has at the same positions, so that the places
/// below one long name hold the name once.
pub(crate) fn place_near(
    alloc: Global,
    path: &Path,
    near: Option<&Place>,
) -> Result<Place, AllocError>
    ensures { IfOk result (λ place. place ≡ steps_of path.now) }
{
    let mut steps = Vec::new(alloc);
    push_steps(alloc, path, near, &mut steps)?;
    Ok(Place::of(steps))
}

fn push_steps(
    alloc: Global,
    path: &Path,
    near: Option<&Place>,
    steps: &mut Vec<Step>,
) -> Result<(), AllocError>
    ensures { IfOk result (λ _. steps.new.items ≡ steps.old.items ++ steps_of path.now) }
{
    match path {
        Path::Root => Ok(()),
        Path::Member(parent, name) => {
            push_steps(alloc, parent, near, steps)?;
            let name = name_near(alloc, step_near(near, steps.len()), name)?;
            steps.push(Step::Name(name))?;
            Ok(())
        }
        Path::Entry(parent, index) => {
            push_steps(alloc, parent, near, steps)?;
            steps.push(Step::At(*index))?;
            Ok(())
        }
    }
}

fn step_near(near: Option<&Place>, at: usize) -> Option<&Step> {
    match near {
        Some(place) => place.step(at),
        None => None,
    }
}

/// Returns the name as a text. It shares the bytes of the step nearby if that is the step to a member of this name.
fn name_near(alloc: Global, near: Option<&Step>, name: &str) -> Result<Text, AllocError>
    ensures { IfOk result (λ text. text ≡ name.now) }
{
    if let Some(Step::Name(text)) = near {
        if text.as_str() == name {
            return text.try_clone(alloc);
        }
    }
    Text::shared(alloc, name)
}
