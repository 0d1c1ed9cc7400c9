//! The calls on two reports. Each is asked for the same line.
ghost use Rattle.std.specs.Prelude.{◌≡◌};
ghost use Rattle.serde_json.specs.View.{view};
ghost use Rattle.erd_check.specs.Trees.{IsShallow};

use crate::tests::answers::{Answer, SAME, outcome_of, refused, right_if, run_answer};
use crate::tests::refusing::each_refused;
use crate::tests::report_calls::{form_of, tree_of};
use crate::tests::runs::{Under, compare_run};
use crate::tests::writers::ExpectedWriter;
use erd_canon::{Refusal, Side, compare_bytes, compare_bytes_with};
use erd_check::{CheckError, Shaped, shape};
use erd_compare::{Difference, first_difference};
use erd_meaning::{Report, resolve_with};
use serde_json::Value;
use std::alloc::Global;
use std::test::Fail;

// Two reports, and what is told of them.
#[derive(Clone, Copy)]
pub struct Compared<'a> {
    pub left: &'a [u8],
    pub right: &'a [u8],
    // `same`, the line of their first difference, or the lines of the one that is refused, each with a line feed.
    pub lines: &'a str,
    pub under: Under<'a>,
}

// Whether this is the line of the difference, or there is none and the reports are the same.
fn told(alloc: Global, found: Option<&Difference>, wanted: &str) -> Answer {
    let Some(difference) = found else {
        return right_if(wanted == SAME);
    };
    match difference.line(alloc) {
        Ok(line) => right_if(wanted.strip_suffix('\n') == Some(line.as_str())),
        Err(_) => Answer::WantsMemory,
    }
}

fn by_compare_bytes(alloc: Global, asked: &Compared) -> Answer {
    let found = if asked.under.takes_preference {
        compare_bytes_with(alloc, asked.left, asked.right, asked.under.prefer)
    } else {
        compare_bytes(alloc, asked.left, asked.right)
    };
    match found {
        Ok(difference) => told(alloc, difference.as_ref(), asked.lines),
        Err(Side::Left(refusal)) => refused(alloc, "left: ", &refusal, asked.lines),
        Err(Side::Right(refusal)) => refused(alloc, "right: ", &refusal, asked.lines),
        Err(Side::Memory) => Answer::WantsMemory,
    }
}

fn by_run_compare(alloc: Global, asked: &Compared) -> Answer {
    let out = ExpectedWriter::of(asked.lines);
    let run = compare_run(alloc, asked.under, asked.left, asked.right, out);
    let (is_whole, is_nothing) = (run.out.writer.is_whole(), run.out.writer.is_unused());
    run_answer(run.answer, outcome_of(asked.lines), is_whole, is_nothing)
}

// Whether one of the two reports is refused.
fn is_refused(asked: &Compared) -> bool {
    asked.lines.starts_with("left: ") || asked.lines.starts_with("right: ")
}

// The canonical forms of two accepted reports are equal exactly if the reports are the same.
fn by_forms(alloc: Global, asked: &Compared) -> Answer {
    if is_refused(asked) {
        return Answer::Right;
    }
    let left = match form_of(alloc, asked.left, asked.under) {
        Ok(form) => form,
        Err(refusal) => return wants_memory(&refusal),
    };
    match form_of(alloc, asked.right, asked.under) {
        Ok(right) => right_if((left.as_slice() == right.as_slice()) == (asked.lines == SAME)),
        Err(refusal) => wants_memory(&refusal),
    }
}

// Faults are a wrong result. Only running out of memory is allowed.
fn wants_memory(refusal: &Refusal) -> Answer {
    match refusal {
        Refusal::Memory => Answer::WantsMemory,
        _ => Answer::Wrong,
    }
}

fn by_first_difference(alloc: Global, asked: &Compared) -> Answer {
    if is_refused(asked) {
        return Answer::Right;
    }
    match (tree_of(alloc, asked.left), tree_of(alloc, asked.right)) {
        (Ok(left), Ok(right)) => of_trees(alloc, &left, &right, asked),
        _ => Answer::WantsMemory,
    }
}

fn of_trees(alloc: Global, left: &Value, right: &Value, asked: &Compared) -> Answer
    requires left_nests { IsShallow (view left.now) }
    requires right_nests { IsShallow (view right.now) }
{
    match (shape(alloc, left), shape(alloc, right)) {
        (Ok(left), Ok(right)) => of_shapes(alloc, left, right, asked),
        (Err(CheckError::Faults(_)), _) => Answer::Wrong,
        (_, Err(CheckError::Faults(_))) => Answer::Wrong,
        _ => Answer::WantsMemory,
    }
}

fn of_shapes(alloc: Global, left: Shaped, right: Shaped, asked: &Compared) -> Answer {
    let left = match resolve_with(alloc, left, asked.under.prefer) {
        Ok(report) => report,
        Err(error) => return wants_memory(&Refusal::from(error)),
    };
    match resolve_with(alloc, right, asked.under.prefer) {
        Ok(right) => of_reports(alloc, &left, &right, asked.lines),
        Err(error) => wants_memory(&Refusal::from(error)),
    }
}

fn of_reports(alloc: Global, left: &Report, right: &Report, wanted: &str) -> Answer
    requires { left.now.prefer ≡ right.now.prefer }
{
    match first_difference(alloc, left, right) {
        Ok(found) => told(alloc, found.as_ref(), wanted),
        Err(_) => Answer::WantsMemory,
    }
}

// Tries each call, with each of its requests for memory refused.
pub fn each_pair_call(alloc: Global, name: &str, asked: &Compared) -> Result<(), Fail> {
    each_refused(alloc, name, |alloc| by_compare_bytes(alloc, asked))?;
    each_refused(alloc, name, |alloc| by_run_compare(alloc, asked))?;
    each_refused(alloc, name, |alloc| by_first_difference(alloc, asked))?;
    each_refused(alloc, name, |alloc| by_forms(alloc, asked))
}
