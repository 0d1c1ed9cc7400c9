//! What a step leaves as it is, and why.
ghost use Rattle.std.specs.Prelude.{◌≡◌, [], Some, IfOk};
ghost use Rattle.serde_json.specs.View.{view};
ghost use Rattle.erd_prepare.specs.Steps.{IsStepDone};
ghost use Rattle.erd_prepare.specs.Tellings.{left_reason_text};

use crate::engine::Done;
use crate::plan::{Plan, carry_out};
use serde_json::Value;
use std::alloc::{AllocError, Global};
use std::collections::BTreeMap;

/// Why a step left something as it is.
#[derive(Clone, Copy, PartialEq, Eq)]
pub enum LeftReason {
    /// It is not in one county.
    NoCounty,
    /// It is not in one town.
    NoTown,
    /// Nothing tells it from another one.
    NothingTells,
    /// Another object of its family has the same `@id`.
    TwinIds,
    /// It has votes, or a number that is not zero.
    Counted,
    /// One of several candidates of a line is gone.
    SomeGone,
    /// It has no name.
    NoName,
    /// The standard requires this text.
    RequiredText,
    /// Another object of its family has the same number.
    SharedNumber,
    /// It names an object of the file.
    NamesObject,
    /// The name that it would get is taken.
    NameTaken,
}

impl LeftReason {
    /// Returns the key of the reason's words.
    pub fn text(self) -> &'static str
        ensures { result.now ≡ left_reason_text self }
    {
        match self {
            LeftReason::NoCounty => "noCounty",
            LeftReason::NoTown => "noTown",
            LeftReason::NothingTells => "nothingTells",
            LeftReason::TwinIds => "twinIds",
            LeftReason::Counted => "counted",
            LeftReason::SomeGone => "someGone",
            LeftReason::NoName => "noName",
            LeftReason::RequiredText => "requiredText",
            LeftReason::SharedNumber => "sharedNumber",
            LeftReason::NamesObject => "namesObject",
            LeftReason::NameTaken => "nameTaken",
        }
    }
}

/// What a step left as it is.
#[derive(Drop)]
pub struct Left {
    /// The JSON Pointer of the place.
    pub place: String,
    /// Why it was left.
    pub why: LeftReason,
}

/// What a step is to do, and what it leaves.
#[derive(Drop)]
pub struct Planned {
    /// What it is to do.
    pub plan: Plan,
    /// What it leaves as it is.
    pub left: Vec<Left>,
}

impl Planned {
    /// Returns the plan that does nothing and leaves nothing.
    pub(crate) fn new(alloc: Global) -> Planned {
        let plan = Plan {
            edits: BTreeMap::new(alloc),
        };
        Planned {
            plan,
            left: Vec::new(alloc),
        }
    }

    /// Leaves a place as it is.
    ///
    /// # Errors
    ///
    /// `AllocError` if out of memory.
    pub(crate) fn leave(&mut self, place: String, why: LeftReason) -> Result<(), AllocError> {
        self.left.push(Left { place, why })?;
        Ok(())
    }
}

/// Does what is planned, and tells what is left.
///
/// # Errors
///
/// `AllocError` if out of memory.
pub(crate) fn carry_out_planned(
    alloc: Global,
    planned: Planned,
    report: &Value,
) -> Result<Done, AllocError>
    ensures done { IfOk result (IsStepDone (view report.now)) }
{
    let done = carry_out(alloc, &planned.plan, report)?;
    Ok(Done {
        tree: done.tree,
        changes: done.changes,
        left: planned.left,
    })
}
