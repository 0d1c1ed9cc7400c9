//! A report that is prepared by several steps.
ghost use Rattle.std.specs.Prelude.{◌≡◌, [], List, map, Decides, IfErr, IfOk, OnOk};
ghost use Rattle.std.specs.List.{Contains};
ghost use Rattle.serde_json.specs.View.{view};
ghost use Rattle.erd_prepare.specs.Preparations.{AreStepsDone, IsOtherTold, IsPrepared, IsStepAdded, IsUnmoved, IsUnprepared};
ghost use Rattle.erd_prepare.specs.Reading.{IsReadAs};
ghost use Rattle.erd_prepare.specs.StepWords.{name_of_step};
ghost use Rattle.erd_prepare.specs.Tellings.{AreNumbersInFront, IsTellingAdded, is_quiet};

use crate::change::Change;
use crate::changed_number::ChangedNumber;
use crate::engine::Done;
use crate::numbers::changed_numbers;
use crate::origins::Moves;
use crate::prepare_error::PrepareError;
use crate::step_done::{Others, Prepared, PreparedBytes, StepDone};
use crate::step_name::{STEPS, StepName, do_step};
use crate::told::{Turn, numbers_value, told_value};
use serde_json::Value;
use std::alloc::{AllocError, Global};

/// Prepares a file: reads it by `serde_json`, does these steps, and writes what comes of it. The steps are done in the order of
/// `STEPS`, whatever order they are given in, each once. What the other steps would do is told if it is asked for.
///
/// The members of each object are written in the order of their names, and numbers as `serde_json` holds them: `1.50` becomes
/// `1.5`, and a whole number beyond 64 bits loses digits. Each number whose text changes so is told before anything else, by its
/// line and column.
///
/// # Errors
///
/// `NotJson` if the bytes are not JSON, `Memory` if out of memory.
pub fn prepare_bytes(
    alloc: Global,
    bytes: &[u8],
    chosen: &[StepName],
    others: Others,
) -> Result<PreparedBytes, PrepareError>
    ensures prepared { IfOk result (IsPrepared bytes.now chosen.now others) }
    ensures refused { IfErr result (IsUnprepared bytes.now) }
{
    let report = report_of(alloc, bytes)?;
    let prepared = do_steps(alloc, &report, chosen, others)?;
    let written = prepared.tree.to_vec(alloc)?;
    let numbers = changed_numbers(alloc, bytes)?;
    let all = Value::Array(with_numbers(alloc, &numbers, prepared.told)?);
    let told = all.to_vec(alloc)?;
    Ok(PreparedBytes {
        bytes: written,
        numbers,
        steps: prepared.steps,
        told,
    })
}

/// Returns what is told: the numbers that change, if any do, and what the steps did.
fn with_numbers(
    alloc: Global,
    numbers: &Vec<ChangedNumber>,
    told: Vec<Value>,
) -> Result<Vec<Value>, AllocError>
    ensures { IfOk result (λ all. AreNumbersInFront numbers.now.items (map view told.items) (map view all.items)) }
{
    if numbers.is_empty() {
        return Ok(told);
    }
    let mut all = told;
    all.insert(0, numbers_value(alloc, numbers)?)?;
    Ok(all)
}

/// Reads a report.
fn report_of(alloc: Global, bytes: &[u8]) -> Result<Value, PrepareError>
    ensures read { IfOk result (λ report. IsReadAs bytes.now (view report)) }
    ensures refused { IfErr result (IsUnprepared bytes.now) }
{
    match Value::from_slice(alloc, bytes) {
        Ok(report) => Ok(report),
        Err(error) if error.is_memory() => Err(PrepareError::Memory),
        Err(_) => Err(PrepareError::NotJson),
    }
}

/// Does these steps on a report, which stays as it is, in the order of `STEPS`, whatever order they are given in, each once. What
/// each other step would do at its turn is told if it is asked for.
///
/// # Errors
///
/// `AllocError` if out of memory.
pub fn do_steps(
    alloc: Global,
    report: &Value,
    chosen: &[StepName],
    others: Others,
) -> Result<Prepared, AllocError>
    ensures done { IfOk result (λ prepared. AreStepsDone others chosen.now (view report.now) STEPS prepared.steps.items (view prepared.tree)
        (map view prepared.told.items)) }
{
    let mut tree = report.clone()?;
    let mut steps = Vec::new(alloc);
    let mut so_far = SoFar {
        alloc,
        moves: Vec::new(alloc),
        told: Vec::new(alloc),
    };
    for step in STEPS {
        if is_chosen(chosen, step) {
            tree = after_step(step, &tree, &mut steps, &mut so_far)?;
        } else {
            tell_other(step, &tree, others, &mut so_far)?;
        }
    }
    Ok(Prepared {
        tree,
        steps,
        told: so_far.told,
    })
}

/// Returns whether a step is one of these.
fn is_chosen(chosen: &[StepName], step: StepName) -> bool
    ensures { Decides result (Contains chosen.now step) }
{
    chosen.contains(&step)
}

/// What is told of the steps so far.
#[derive(Drop)]
struct SoFar {
    alloc: Global,
    moves: Vec<Moves>,
    told: Vec<Value>,
}

impl SoFar {
    /// Tells what a step did, or would do, if it changes or leaves something.
    fn tell(&mut self, turn: Turn, before: &Value, done: &Done) -> Result<(), AllocError>
        ensures told { OnOk result (IsTellingAdded (name_of_step turn.step) turn.is_done (self.old.moves.items ≡ []) done.now.changes.items done.now.left.items
            (map view self.old.told.items) (map view self.new.told.items)) }
        ensures moves { self.new.moves ≡ self.old.moves }
    {
        if !is_quiet(done) {
            let value = told_value(self.alloc, turn, before, done, &self.moves)?;
            self.told.push(value)?;
        }
        Ok(())
    }

    /// Notes what a step moved.
    fn note_moves(&mut self, changes: &Vec<Change>) -> Result<(), AllocError>
        ensures moves { OnOk result (changes.now.items ≡ [] → self.new.moves ≡ self.old.moves) }
        ensures told { self.new.told ≡ self.old.told }
    {
        if !changes.is_empty() {
            self.moves.push(Moves::of(self.alloc, changes)?)?;
        }
        Ok(())
    }
}

/// Returns whether a step changes and leaves nothing.
fn is_quiet(done: &Done) -> bool
    ensures { result ≡ is_quiet done.now.changes.items done.now.left.items }
{
    done.changes.is_empty() && done.left.is_empty()
}

/// Does a step, and adds what it did.
fn after_step(
    step: StepName,
    before: &Value,
    steps: &mut Vec<StepDone>,
    so_far: &mut SoFar,
) -> Result<Value, AllocError>
    ensures { IfOk result (λ after. (IsUnmoved steps.old.items → so_far.old.moves.items ≡ [])
        → IsStepAdded step (view before.now) steps.old.items steps.new.items (view after) (map view so_far.old.told.items) (map view so_far.new.told.items)
        × (IsUnmoved steps.new.items → so_far.new.moves.items ≡ [])) }
{
    let done = do_step(so_far.alloc, step, before)?;
    let turn = Turn {
        step,
        is_done: true,
    };
    so_far.tell(turn, before, &done)?;
    so_far.note_moves(&done.changes)?;
    steps.push(StepDone {
        step,
        changes: done.changes,
        left: done.left,
    })?;
    Ok(done.tree)
}

/// Tells what a step would do that is not chosen, if that is asked for.
fn tell_other(
    step: StepName,
    tree: &Value,
    others: Others,
    so_far: &mut SoFar,
) -> Result<(), AllocError>
    ensures told { OnOk result ((dones : List StepDone) → (IsUnmoved dones → so_far.old.moves.items ≡ [])
        → IsOtherTold others step dones (view tree.now) (map view so_far.old.told.items) (map view so_far.new.told.items)) }
    ensures moves { so_far.new.moves ≡ so_far.old.moves }
{
    match others {
        Others::Untold => Ok(()),
        Others::Told => {
            let done = do_step(so_far.alloc, step, tree)?;
            let turn = Turn {
                step,
                is_done: false,
            };
            so_far.tell(turn, tree, &done)
        }
    }
}
