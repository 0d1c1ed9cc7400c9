//! Several write-in lines of one contest, which nothing tells apart.
ghost use Rattle.std.specs.Prelude.{◌≡◌, [], Some, IfOk};
ghost use Rattle.serde_json.specs.View.{view};
ghost use Rattle.erd_prepare.specs.Steps.{IsStepDone};

use crate::engine::Done;
use crate::left::{LeftReason, Planned, carry_out_planned};
use crate::lines::{Lines, add_number, is_write_in};
use crate::objects::PlacedObject;
use crate::plan::Edit;
use erd_tables::class::Family;
use serde_json::Value;
use std::alloc::{AllocError, Global};
use std::collections::{BTreeMap, BTreeSet};

/// The numbers that lines have, each with the number of the contest's object.
type Used = BTreeSet<(usize, u64)>;

/// Numbers the write-in lines of a contest that have one name and no number, in their order on the ballots: that of the first
/// style, by its key, that lists a line. Each gets the next number that no line of the contest has. Lines that no ballot lists
/// are left if there are several, and so are lines that stand at one place of two styles with one key. If no `@id` recurs, the
/// order of the sets does not matter.
///
/// # Errors
///
/// `AllocError` if out of memory.
pub fn number_write_in_lines(alloc: Global, report: &Value) -> Result<Done, AllocError>
    ensures done { IfOk result (IsStepDone (view report.now)) }
{
    let planned = plan_write_in_lines(alloc, report)?;
    carry_out_planned(alloc, planned, report)
}

fn plan_write_in_lines(alloc: Global, report: &Value) -> Result<Planned, AllocError> {
    let lines = Lines::of(alloc, report)?;
    let used = used_numbers(alloc, &lines)?;
    let mut contests = BTreeMap::new(alloc);
    for group in &lines.twins(alloc)? {
        for line in group {
            if let Some(object) = lines.objects.at(*line) {
                if is_write_in(object) && object.member("SequenceOrder").is_none() {
                    let contest = object.contest.unwrap_or(*line);
                    add_number(alloc, contest, *line, &mut contests)?;
                }
            }
        }
    }
    let mut planned = Planned::new(alloc);
    for (contest, unnumbered) in contests {
        number_lines(alloc, &lines, &unnumbered, (contest, &used), &mut planned)?;
    }
    Ok(planned)
}

/// Returns the numbers of all lines.
fn used_numbers<'a>(alloc: Global, lines: &Lines<'a>) -> Result<Used, AllocError> {
    let mut used = BTreeSet::new(alloc);
    for (number, object) in lines.objects.all.iter().enumerate() {
        if object.is_of(Family::Selection) {
            if let Some(order) = object.member("SequenceOrder").and_then(Value::as_u64) {
                used.insert((object.contest.unwrap_or(number), order))?;
            }
        }
    }
    Ok(used)
}

/// Plans the numbers of lines of one contest.
fn number_lines<'a>(
    alloc: Global,
    lines: &Lines<'a>,
    unnumbered: &Vec<usize>,
    contest: (usize, &Used),
    planned: &mut Planned,
) -> Result<(), AllocError> {
    let ordered = lines.in_order(alloc, unnumbered)?;
    let mut number = 0;
    for line in &ordered.told {
        if let Some(object) = lines.objects.at(*line) {
            number = free_after(number, contest);
            put_number(alloc, object, number, planned)?;
        }
    }
    for line in &ordered.untold {
        if let Some(object) = lines.objects.at(*line) {
            planned.leave(object.known.place.clone()?, LeftReason::NothingTells)?;
        }
    }
    Ok(())
}

/// Returns the next number that no line of the contest has.
fn free_after(number: u64, contest: (usize, &Used)) -> u64 {
    let mut free = number;
    for _ in 0..u64::MAX {
        free = free.saturating_add(1);
        if !contest.1.contains(&(contest.0, free)) {
            break;
        }
    }
    free
}

fn put_number<'a>(
    alloc: Global,
    line: &PlacedObject<'a>,
    number: u64,
    planned: &mut Planned,
) -> Result<(), AllocError> {
    let name = String::from_str(alloc, "SequenceOrder")?;
    let edit = Edit::PutIn(name, Value::from(number));
    planned.plan.add(line.known.place.clone()?, edit)
}
