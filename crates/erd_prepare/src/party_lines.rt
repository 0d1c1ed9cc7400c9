//! One candidate on the lines of several parties (fusion): the lines name the same candidate.
ghost use Rattle.std.specs.Prelude.{◌≡◌, [], Some, IfOk};
ghost use Rattle.serde_json.specs.View.{view};
ghost use Rattle.erd_prepare.specs.Steps.{IsStepDone};

use crate::engine::Done;
use crate::identifiers::{other_identifier, put_identifiers};
use crate::left::{LeftReason, Planned, carry_out_planned};
use crate::lines::{Lines, is_write_in};
use crate::objects::{MOST_BYTES_IN_FRONT, PlacedObject};
use erd_tables::class::{Class, Family};
use serde_json::{Value, json};
use std::alloc::{AllocError, Global};
use std::collections::BTreeSet;

/// Gives the lines of a contest that have one name, for the same candidates, the codes of the parties that endorse them as
/// identifiers. A line that no party endorses gets none. Lines are left if two have the same parties or one has an identifier.
///
/// # Errors
///
/// `AllocError` if out of memory.
pub fn name_party_lines(alloc: Global, report: &Value) -> Result<Done, AllocError>
    ensures done { IfOk result (IsStepDone (view report.now)) }
{
    let planned = plan_party_lines(alloc, report)?;
    carry_out_planned(alloc, planned, report)
}

fn plan_party_lines(alloc: Global, report: &Value) -> Result<Planned, AllocError> {
    let lines = Lines::of(alloc, report)?;
    let mut planned = Planned::new(alloc);
    for group in &lines.twins(alloc)? {
        if is_of_parties(&lines, group) {
            plan_group(alloc, &lines, group, &mut planned)?;
        }
    }
    Ok(planned)
}

/// Returns whether lines of one name are lines for candidates who stand on the ballot.
fn is_of_parties<'a>(lines: &Lines<'a>, group: &Vec<usize>) -> bool {
    match group
        .first()
        .copied()
        .and_then(|line| lines.objects.at(line))
    {
        Some(first) => first.known.class == Class::CandidateSelection && !is_write_in(first),
        None => false,
    }
}

fn plan_group<'a>(
    alloc: Global,
    lines: &Lines<'a>,
    group: &Vec<usize>,
    planned: &mut Planned,
) -> Result<(), AllocError> {
    let are_told = are_told(alloc, lines, group)?;
    for line in group {
        if let Some(object) = lines.objects.at(*line) {
            if are_told {
                let code = parties_of(alloc, lines, object)?;
                put_code(alloc, object, code.as_str(), planned)?;
            } else {
                planned.leave(object.known.place.clone()?, LeftReason::NothingTells)?;
            }
        }
    }
    Ok(())
}

/// Returns whether each of these lines has other parties, and none has an identifier.
fn are_told<'a>(alloc: Global, lines: &Lines<'a>, group: &Vec<usize>) -> Result<bool, AllocError> {
    let mut codes = BTreeSet::new(alloc);
    for line in group {
        if let Some(object) = lines.objects.at(*line) {
            let code = parties_of(alloc, lines, object)?;
            if !object.has_no_identifier() || !codes.insert(code)? {
                return Ok(false);
            }
        }
    }
    Ok(true)
}

/// Returns the codes of the parties that endorse a line. Those of more than three hundred bytes are none.
fn parties_of<'a>(
    alloc: Global,
    lines: &Lines<'a>,
    line: &PlacedObject<'a>,
) -> Result<String, AllocError> {
    let parties = line.member("EndorsementPartyIds");
    lines
        .objects
        .joined_codes(alloc, parties, Family::Party, MOST_BYTES_IN_FRONT)
}

/// Plans the identifier of a line, if it has parties.
fn put_code<'a>(
    alloc: Global,
    line: &PlacedObject<'a>,
    code: &str,
    planned: &mut Planned,
) -> Result<(), AllocError> {
    if code.is_empty() {
        return Ok(());
    }
    let place = line.known.place.clone()?;
    let identifier = other_identifier(alloc, "endorsement", code)?;
    put_identifiers(alloc, place, json!(in alloc; [identifier])?, planned)
}
