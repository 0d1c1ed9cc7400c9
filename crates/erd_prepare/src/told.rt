//! What steps did, as JSON.
ghost use Rattle.std.specs.Prelude.{◌≡◌, ◌++◌, ◌∷◌, [], map, IfOk, OnOk, true};
ghost use Rattle.serde_json.specs.View.{view};
ghost use Rattle.erd_prepare.specs.Changes.{told_of};
ghost use Rattle.erd_prepare.specs.StepWords.{name_of_step};
ghost use Rattle.erd_prepare.specs.Tellings.{AreEnough, AreFirst, AreNumbersTold, HaveBytes, IsChangeTold, IsLeftTold, IsNumberShown, IsStepTold, change_data};
ghost use Rattle.erd_prepare.specs.Tellings.{left_data, number_data, told_place_data, told_step_data, step_object};

use crate::change::Change;
use crate::changed_number::ChangedNumber;
use crate::engine::Done;
use crate::left::Left;
use crate::origins::{Moves, origin_of, steps_to};
use crate::step_name::StepName;
use erd_tables::{Place, Step};
use serde_json::{Value, json};
use std::alloc::{AllocError, Global};

/// How many changes of a step are told at most, and how many of what it left.
pub(crate) const MOST_TOLD: usize = 1000;

/// No further one is told once those before it have this many bytes.
pub(crate) const ENOUGH_BYTES: usize = 1_048_576;

/// A step at its turn: done, or only tried.
#[derive(Clone, Copy)]
pub(crate) struct Turn {
    pub(crate) step: StepName,
    pub(crate) is_done: bool,
}

/// The first entries of a list that is told.
#[derive(Drop)]
struct Told {
    alloc: Global,
    entries: Vec<Value>,
    bytes: usize,
}

impl Told {
    fn new(alloc: Global) -> Told
        ensures empty { result.entries.items ≡ [] }
        ensures measured { HaveBytes (map view result.entries.items) result.bytes }
    {
        Told {
            alloc,
            entries: Vec::new(alloc),
            bytes: 0,
        }
    }

    fn is_full(&self) -> bool
        ensures { HaveBytes (map view self.now.entries.items) self.now.bytes → result ≡ true → AreEnough (map view self.now.entries.items) }
    {
        self.entries.len() >= MOST_TOLD || self.bytes >= ENOUGH_BYTES
    }

    fn add(&mut self, entry: Value) -> Result<(), AllocError>
        ensures added { OnOk result (self.new.entries.items ≡ self.old.entries.items ++ entry ∷ []) }
        ensures measured { OnOk result (HaveBytes (map view self.old.entries.items) self.old.bytes
            → HaveBytes (map view self.new.entries.items) self.new.bytes) }
    {
        let text = entry.to_vec(self.alloc)?;
        self.bytes = self.bytes.saturating_add(text.len());
        self.entries.push(entry)?;
        Ok(())
    }
}

/// Returns what a step did as a JSON object: its name, whether it was done, how many changes it made, the first of these, how
/// much it left, the first of that, and whether there is more. Each place is that in the report that was given, given what the
/// steps before moved.
///
/// # Errors
///
/// `AllocError` if out of memory.
pub(crate) fn told_value(
    alloc: Global,
    turn: Turn,
    before: &Value,
    done: &Done,
    moves: &Vec<Moves>,
) -> Result<Value, AllocError>
    ensures { IfOk result (λ value. IsStepTold (name_of_step turn.step) turn.is_done (moves.now.items ≡ []) done.now.changes.items
        done.now.left.items (view value)) }
{
    let changes = told_changes(alloc, &done.changes, moves)?;
    let left = told_left(alloc, &done.left, before, moves)?;
    let counts = (done.changes.len(), done.left.len());
    step_value(
        alloc,
        turn.step.text(),
        turn.is_done,
        counts,
        (changes, left),
    )
}

/// Returns the first changes.
fn told_changes(
    alloc: Global,
    changes: &Vec<Change>,
    moves: &Vec<Moves>,
) -> Result<Vec<Value>, AllocError>
    ensures { IfOk result (λ told. AreFirst (IsChangeTold (moves.now.items ≡ [])) changes.now.items (map view told.items)) }
{
    let mut told = Told::new(alloc);
    for change in changes {
        if told.is_full() {
            return Ok(told.entries);
        }
        told.add(change_value(alloc, change, moves)?)?;
    }
    Ok(told.entries)
}

/// Returns the first places that were left.
fn told_left(
    alloc: Global,
    left: &Vec<Left>,
    before: &Value,
    moves: &Vec<Moves>,
) -> Result<Vec<Value>, AllocError>
    ensures { IfOk result (λ told. AreFirst IsLeftTold left.now.items (map view told.items)) }
{
    let mut told = Told::new(alloc);
    for it in left {
        if told.is_full() {
            return Ok(told.entries);
        }
        told.add(left_value(alloc, it, before, moves)?)?;
    }
    Ok(told.entries)
}

/// Returns the JSON object of a step, given how much it changed and left, and the first of each.
fn step_value(
    alloc: Global,
    name: &str,
    is_done: bool,
    counts: (usize, usize),
    told: (Vec<Value>, Vec<Value>),
) -> Result<Value, AllocError>
    ensures { IfOk result (λ value. view value ≡ step_object name.now is_done counts.0 counts.1 (map view told.0.items) (map view told.1.items)) }
{
    let (count, left_count) = counts;
    let (changes, left) = told;
    let more = changes.len() < count || left.len() < left_count;
    let changes = Value::Array(changes);
    let left = Value::Array(left);
    json!(in alloc; {
        "changes": changes,
        "count": count,
        "done": is_done,
        "left": left,
        "left_count": left_count,
        "more": more,
        "step": name
    })
}

/// Returns the numbers whose texts change as a JSON object like that of a step: each with its line, its column and both texts.
///
/// # Errors
///
/// `AllocError` if out of memory.
pub(crate) fn numbers_value(
    alloc: Global,
    numbers: &Vec<ChangedNumber>,
) -> Result<Value, AllocError>
    ensures { IfOk result (λ value. AreNumbersTold numbers.now.items (view value)) }
{
    let told = told_numbers(alloc, numbers)?;
    step_value(
        alloc,
        "numbers",
        true,
        (numbers.len(), 0),
        (told, Vec::new(alloc)),
    )
}

/// Returns the first numbers.
fn told_numbers(alloc: Global, numbers: &Vec<ChangedNumber>) -> Result<Vec<Value>, AllocError>
    ensures { IfOk result (λ told. AreFirst IsNumberShown numbers.now.items (map view told.items)) }
{
    let mut told = Told::new(alloc);
    for number in numbers {
        if told.is_full() {
            return Ok(told.entries);
        }
        told.add(number_value(alloc, number)?)?;
    }
    Ok(told.entries)
}

/// Returns a number whose text changes.
fn number_value(alloc: Global, number: &ChangedNumber) -> Result<Value, AllocError>
    ensures { IfOk result (λ value. view value ≡ number_data number.now) }
{
    let (before, after) = (number.before.as_str(), number.after.as_str());
    let (line, column) = (number.line, number.column);
    json!(in alloc; {"after": after, "before": before, "column": column, "line": line})
}

/// Returns a change: its place, what stood there if anything did, and what stands there now if anything does.
fn change_value(alloc: Global, change: &Change, moves: &Vec<Moves>) -> Result<Value, AllocError>
    ensures { IfOk result (λ value. IsChangeTold (moves.now.items ≡ []) change.now (view value)) }
{
    let steps = copied(alloc, &change.place)?;
    let place = origin_of(alloc, steps, moves)?;
    placed_change(alloc, change, &place)
}

/// Returns the steps of a place.
fn copied(alloc: Global, place: &Place) -> Result<Vec<Step>, AllocError>
    ensures { IfOk result (λ steps. steps.items ≡ place.now) }
{
    let mut steps = Vec::new(alloc);
    for step in place.iter() {
        steps.push(step_again(alloc, step)?)?;
    }
    Ok(steps)
}

/// Returns a step of a place once more.
fn step_again(alloc: Global, step: &Step) -> Result<Step, AllocError>
    ensures { IfOk result (λ again. again ≡ step.now) }
{
    match step {
        Step::Name(name) => Ok(Step::Name(name.try_clone(alloc)?)),
        Step::At(index) => Ok(Step::At(*index)),
    }
}

/// Returns a change, of which this is told as the place.
fn placed_change(alloc: Global, change: &Change, place: &Vec<Step>) -> Result<Value, AllocError>
    ensures { IfOk result (λ value. view value ≡ change_data place.now.items (told_of change.now)) }
{
    let place = place_value(alloc, place)?;
    match (&change.before, &change.after) {
        (Some(before), Some(after)) => {
            json!(in alloc; {"after": after, "before": before, "place": place})
        }
        (Some(before), None) => json!(in alloc; {"before": before, "place": place}),
        (None, Some(after)) => json!(in alloc; {"after": after, "place": place}),
        (None, None) => json!(in alloc; {"place": place}),
    }
}

/// Returns what is left: its place and the reason.
fn left_value(
    alloc: Global,
    left: &Left,
    before: &Value,
    moves: &Vec<Moves>,
) -> Result<Value, AllocError>
    ensures { IfOk result (λ value. IsLeftTold left.now (view value)) }
{
    let steps = steps_to(alloc, before, left.place.as_str())?;
    let place = origin_of(alloc, steps, moves)?;
    placed_left(alloc, left, &place)
}

/// Returns what is left, of which this is told as the place.
fn placed_left(alloc: Global, left: &Left, place: &Vec<Step>) -> Result<Value, AllocError>
    ensures { IfOk result (λ value. view value ≡ left_data place.now.items left.now.why) }
{
    let place = place_value(alloc, place)?;
    let why = left.why.text();
    json!(in alloc; {"place": place, "why": why})
}

/// Returns the parts of a place as JSON strings and numbers.
fn place_value(alloc: Global, steps: &Vec<Step>) -> Result<Value, AllocError>
    ensures { IfOk result (λ value. view value ≡ told_place_data steps.now.items) }
{
    let mut parts = Vec::new(alloc);
    for step in steps {
        parts.push(part_value(alloc, step)?)?;
    }
    Ok(Value::Array(parts))
}

/// Returns a step of a place as a JSON string or number.
fn part_value(alloc: Global, step: &Step) -> Result<Value, AllocError>
    ensures { IfOk result (λ value. view value ≡ told_step_data step.now) }
{
    match step {
        Step::Name(name) => Value::try_from_str(alloc, name.as_str()),
        Step::At(index) => Ok(Value::from(*index)),
    }
}
