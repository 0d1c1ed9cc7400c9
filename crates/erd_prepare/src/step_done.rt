//! What the steps of a preparation did.
use crate::change::Change;
use crate::changed_number::ChangedNumber;
use crate::left::Left;
use crate::step_name::StepName;
use serde_json::Value;

/// Whether it is told what the steps would do that are not chosen.
#[derive(Clone, Copy, Debug, PartialEq, Eq)]
pub enum Others {
    /// It is not told.
    Untold,
    /// It is told of each at its turn, after the chosen steps before it.
    Told,
}

/// What a step of a preparation did.
#[derive(Drop)]
pub struct StepDone {
    /// The step.
    pub step: StepName,
    /// What it did, with the places of the report as it was before the step.
    pub changes: Vec<Change>,
    /// What it left as it is, and why, with these places too.
    pub left: Vec<Left>,
}

/// A report after several steps.
#[derive(Drop)]
pub struct Prepared {
    /// The report after the steps.
    pub tree: Value,
    /// What each step did, in the order in which they were done.
    pub steps: Vec<StepDone>,
    /// The same as JSON objects, of the steps that changed or left something, with the places of the report that was given; and
    /// of the steps that were not chosen, if they are told.
    pub told: Vec<Value>,
}

/// A prepared file.
#[derive(Drop)]
pub struct PreparedBytes {
    /// The report after the steps: compact JSON, the members of each object in the order of their names.
    pub bytes: Vec<u8>,
    /// The numbers of the file that are written otherwise once they are read, in the order of the file.
    pub numbers: Vec<ChangedNumber>,
    /// What each step did, in the order in which they were done.
    pub steps: Vec<StepDone>,
    /// The same as a JSON array: the numbers that change, if any do, as those of a step `numbers`; the steps that changed or left
    /// something, with the places of the file that was given; and the steps that were not chosen, if they are told.
    pub told: Vec<u8>,
}
