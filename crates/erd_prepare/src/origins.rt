//! The place in the report that was given of what stands at a place after some steps.
ghost use Rattle.std.specs.Prelude.{◌≡◌, [], IfOk};

use crate::change::Change;
use erd_tables::{Step, Text};
use serde_json::Value;
use std::alloc::{AllocError, Global};
use std::collections::{BTreeMap, BTreeSet};

/// What a step moved. Places are told apart by their keys.
#[derive(Drop)]
pub(crate) struct Moves {
    /// For each array from which entries went: how many stay before each of these.
    gone: BTreeMap<String, Vec<usize>>,
    /// The values that became lists of themselves.
    lists: BTreeSet<String>,
}

impl Moves {
    /// Returns what a step moved that tells of these changes.
    ///
    /// # Errors
    ///
    /// `AllocError` if out of memory.
    pub(crate) fn of(alloc: Global, changes: &Vec<Change>) -> Result<Moves, AllocError> {
        let mut moves = Moves {
            gone: BTreeMap::new(alloc),
            lists: BTreeSet::new(alloc),
        };
        for change in changes {
            if change.after.is_none() {
                moves.add_gone(alloc, change)?;
            } else if is_now_a_list(change) {
                let mut key = String::new(alloc);
                for step in change.place.iter() {
                    add_to_key(alloc, step, &mut key)?;
                }
                moves.lists.insert(key)?;
            }
        }
        Ok(moves)
    }

    /// Adds a value that went, if it was an entry of an array.
    fn add_gone(&mut self, alloc: Global, change: &Change) -> Result<(), AllocError> {
        let mut array = String::new(alloc);
        let mut last = None;
        for step in change.place.iter() {
            if let Some(step) = last {
                add_to_key(alloc, step, &mut array)?;
            }
            last = Some(step);
        }
        let Some(Step::At(index)) = last else {
            return Ok(());
        };
        if let Some(kept) = self.gone.get_mut(array.as_str()) {
            let stay = index.saturating_sub(kept.len());
            kept.push(stay)?;
            return Ok(());
        }
        let mut kept = Vec::new(alloc);
        kept.push(*index)?;
        self.gone.insert(array, kept)?;
        Ok(())
    }

    /// Returns the place before the step of what stands at a place after it.
    fn before(&self, alloc: Global, place: &Vec<Step>) -> Result<Vec<Step>, AllocError> {
        let mut origin = Vec::new(alloc);
        let mut key = String::new(alloc);
        let mut is_entered = false;
        for step in place {
            if !is_entered && self.lists.contains(key.as_str()) {
                is_entered = true;
            } else {
                is_entered = false;
                let own = self.step_before(alloc, key.as_str(), step)?;
                add_to_key(alloc, &own, &mut key)?;
                origin.push(own)?;
            }
        }
        Ok(origin)
    }

    /// Returns the step before, from the value with this key, that led to what a step leads to now.
    fn step_before(&self, alloc: Global, key: &str, step: &Step) -> Result<Step, AllocError> {
        match step {
            Step::Name(name) => Ok(Step::Name(name.try_clone(alloc)?)),
            Step::At(index) => Ok(Step::At(match self.gone.get(key) {
                Some(kept) => index.saturating_add(count_up_to(kept, *index)),
                None => *index,
            })),
        }
    }
}

/// Returns the place in the report that was given of what stands at a place after these steps, the last of them last.
///
/// # Errors
///
/// `AllocError` if out of memory.
pub(crate) fn origin_of(
    alloc: Global,
    place: Vec<Step>,
    moves: &Vec<Moves>,
) -> Result<Vec<Step>, AllocError>
    ensures { IfOk result (λ origin. moves.now.items ≡ [] → origin.items ≡ place.items) }
{
    if moves.is_empty() {
        return Ok(place);
    }
    let mut origin = place;
    for step in moves.iter().rev() {
        origin = step.before(alloc, &origin)?;
    }
    Ok(origin)
}

/// Returns whether a value became a list.
fn is_now_a_list(change: &Change) -> bool {
    match (&change.before, &change.after) {
        (Some(before), Some(after)) => {
            after.is_array() && !before.is_array() && !before.is_null()
        }
        _ => false,
    }
}

/// Returns how many of these numbers, which rise, are at most the index.
fn count_up_to(kept: &Vec<usize>, index: usize) -> usize {
    let mut low = 0;
    let mut high = kept.len();
    for _ in 0..64 {
        let middle = low / 2 + high / 2 + (low % 2 + high % 2) / 2;
        if middle >= high {
            break;
        }
        match kept.get(middle) {
            Some(stay) if *stay <= index => low = middle.saturating_add(1),
            _ => high = middle,
        }
    }
    low
}

/// Adds a step to the key of a place: no two places have one key.
fn add_to_key(alloc: Global, step: &Step, key: &mut String) -> Result<(), AllocError> {
    let own = match step {
        Step::Name(name) => {
            let name = name.as_str();
            format!(in alloc; "{}:{}", name.len(), name)?
        }
        Step::At(index) => format!(in alloc; "{}/", index)?,
    };
    key.push_str(own.as_str())
}

/// Returns the steps of a JSON Pointer (RFC 6901) into a report.
///
/// # Errors
///
/// `AllocError` if out of memory.
pub(crate) fn steps_to(
    alloc: Global,
    report: &Value,
    pointer: &str,
) -> Result<Vec<Step>, AllocError> {
    let mut steps = Vec::new(alloc);
    let mut value = Some(report);
    for part in pointer.split('/').skip(1) {
        match value {
            Some(Value::Array(items)) => {
                let index = part.parse::<usize>().unwrap_or(0);
                steps.push(Step::At(index))?;
                value = items.get(index);
            }
            _ => {
                let name = plain_part(alloc, part)?;
                value = value.and_then(|value| value.get(name.as_str()));
                steps.push(Step::Name(Text::of(name)))?;
            }
        }
    }
    Ok(steps)
}

/// Returns a part of a JSON Pointer without its escapes.
fn plain_part(alloc: Global, part: &str) -> Result<String, AllocError> {
    let mut plain = String::new(alloc);
    for (index, piece) in part.split('~').enumerate() {
        if index == 0 {
            plain.push_str(piece)?;
        } else if let Some(rest) = piece.strip_prefix("1") {
            plain.push_str("/")?;
            plain.push_str(rest)?;
        } else {
            plain.push_str("~")?;
            plain.push_str(piece.strip_prefix("0").unwrap_or(piece))?;
        }
    }
    Ok(plain)
}
