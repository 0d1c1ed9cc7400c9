//! The calls on one report. Each is asked for the same lines and the same canonical form.
ghost use Rattle.std.specs.Prelude.{IfOk};
ghost use Rattle.serde_json.specs.View.{view};
ghost use Rattle.erd_check.specs.Trees.{IsShallow};

use crate::tests::answers::{
    ACCEPTED, Answer, has_text, outcome_of, refused, right_if, run_answer,
};
use crate::tests::refusing::each_refused;
use crate::tests::runs::{Under, canon_run, check_run};
use crate::tests::writers::ExpectedWriter;
use erd_canon::{Refusal, canonical, canonical_with, check_bytes, check_bytes_with};
use erd_check::{faults, shape};
use erd_meaning::{Report, resolve, resolve_with};
use erd_normal::{normal_text, normal_tree};
use erd_tables::Family;
use serde_json::Value;
use std::alloc::Global;
use std::test::Fail;

// A report, and what is told of it.
#[derive(Clone, Copy)]
pub struct Checked<'a> {
    pub report: &'a [u8],
    // `accepted`, its fault lines or `not JSON`, each with a line feed.
    pub lines: &'a str,
    // Its canonical form. Empty for a refused report, and where the form is not asked for.
    pub form: &'a str,
    pub under: Under<'a>,
}

pub fn by_check_bytes(alloc: Global, asked: &Checked) -> Answer {
    let found = if asked.under.takes_preference {
        check_bytes_with(alloc, asked.report, asked.under.prefer)
    } else {
        check_bytes(alloc, asked.report)
    };
    match found {
        Ok(()) => right_if(asked.lines == ACCEPTED),
        Err(refusal) => refused(alloc, "", &refusal, asked.lines),
    }
}

fn by_run_check(alloc: Global, asked: &Checked) -> Answer {
    let out = ExpectedWriter::of(asked.lines);
    let run = check_run(alloc, asked.under, asked.report, out);
    let (is_whole, is_nothing) = (run.out.writer.is_whole(), run.out.writer.is_unused());
    run_answer(run.answer, outcome_of(asked.lines), is_whole, is_nothing)
}

// Whether the canonical form of an accepted report is not asked for.
fn is_form_unasked(asked: &Checked) -> bool {
    asked.lines == ACCEPTED && asked.form.is_empty()
}

// The canonical form of these bytes.
pub fn form_of(alloc: Global, bytes: &[u8], under: Under) -> Result<Vec<u8>, Refusal> {
    if under.takes_preference {
        canonical_with(alloc, bytes, under.prefer)
    } else {
        canonical(alloc, bytes)
    }
}

fn by_canonical(alloc: Global, asked: &Checked) -> Answer {
    match form_of(alloc, asked.report, asked.under) {
        Ok(text) => right_if(is_form_unasked(asked) || text.as_slice() == asked.form.as_bytes()),
        Err(refusal) => refused(alloc, "", &refusal, asked.lines),
    }
}

fn by_run_canon(alloc: Global, asked: &Checked) -> Answer {
    if is_form_unasked(asked) {
        return Answer::Right;
    }
    let lines = if asked.lines == ACCEPTED {
        ""
    } else {
        asked.lines
    };
    let (out, err) = (ExpectedWriter::of(asked.form), ExpectedWriter::of(lines));
    let run = canon_run(alloc, asked.under, asked.report, out, err);
    let is_whole = run.out.writer.is_whole() && run.err.writer.is_whole();
    let is_nothing = run.out.writer.is_unused() && run.err.writer.is_unused();
    run_answer(run.answer, outcome_of(asked.lines), is_whole, is_nothing)
}

// The tree of these bytes.
pub fn tree_of(alloc: Global, bytes: &[u8]) -> Result<Value, Refusal>
    ensures nests { IfOk result (λ tree. IsShallow (view tree)) }
{
    match Value::from_slice(alloc, bytes) {
        Ok(tree) => Ok(tree),
        Err(error) if error.is_memory() => Err(Refusal::Memory),
        Err(_) => Err(Refusal::NotJson),
    }
}

// The faults of the shape are all that is told of the report, or there are none.
fn by_faults(alloc: Global, asked: &Checked) -> Answer {
    let tree = match tree_of(alloc, asked.report) {
        Ok(tree) => tree,
        Err(refusal) => return refused(alloc, "", &refusal, asked.lines),
    };
    match faults(alloc, &tree) {
        Ok(list) if list.is_empty() => Answer::Right,
        Ok(list) => refused(alloc, "", &Refusal::Faults(list), asked.lines),
        Err(_) => Answer::WantsMemory,
    }
}

// Calls `then` on the report of these bytes.
pub fn on_report<F: FnOnce(&Report) -> Answer>(
    alloc: Global,
    asked: &Checked,
    then: F,
) -> Result<Answer, Refusal>
    requires { F.IsAlwaysCallable then }
{
    let tree = tree_of(alloc, asked.report)?;
    let shaped = shape(alloc, &tree)?;
    let report = if asked.under.takes_preference {
        resolve_with(alloc, shaped, asked.under.prefer)?
    } else {
        resolve(alloc, shaped)?
    };
    Ok(then(&report))
}

fn by_resolve(alloc: Global, asked: &Checked) -> Answer {
    match on_report(alloc, asked, |report| of_report(alloc, report, asked)) {
        Ok(answer) if asked.lines == ACCEPTED => answer,
        Ok(_) => Answer::Wrong,
        Err(refusal) => refused(alloc, "", &refusal, asked.lines),
    }
}

// Whether the report has its preference, equal copies of its names, and the right canonical form.
fn of_report(alloc: Global, report: &Report, asked: &Checked) -> Answer {
    if report.preference() != asked.under.prefer {
        return Answer::Wrong;
    }
    let answer = copies(alloc, report);
    if answer != Answer::Right || asked.form.is_empty() {
        return answer;
    }
    let answer = by_normal_tree(alloc, report, asked.form);
    if answer != Answer::Right {
        return answer;
    }
    match normal_text(alloc, report) {
        Ok(text) => right_if(text.as_slice() == asked.form.as_bytes()),
        Err(_) => Answer::WantsMemory,
    }
}

fn by_normal_tree(alloc: Global, report: &Report, form: &str) -> Answer {
    match normal_tree(alloc, report) {
        Ok(tree) => has_text(tree.to_string(alloc), form),
        Err(_) => Answer::WantsMemory,
    }
}

// Whether the copy of each name of a selection is equal to it.
fn copies(alloc: Global, report: &Report) -> Answer {
    for index in 0..report.count(Family::Selection) {
        let Some((_, name)) = report.selection_at(index) else {
            return Answer::Wrong;
        };
        match name.try_clone(alloc) {
            Ok(copy) if copy == *name => {}
            Ok(_) => return Answer::Wrong,
            Err(_) => return Answer::WantsMemory,
        }
    }
    Answer::Right
}

// Tries each call, with each of its requests for memory refused.
pub fn each_report_call(alloc: Global, name: &str, asked: &Checked) -> Result<(), Fail> {
    each_refused(alloc, name, |alloc| by_check_bytes(alloc, asked))?;
    each_refused(alloc, name, |alloc| by_run_check(alloc, asked))?;
    each_refused(alloc, name, |alloc| by_canonical(alloc, asked))?;
    each_refused(alloc, name, |alloc| by_run_canon(alloc, asked))?;
    each_refused(alloc, name, |alloc| by_faults(alloc, asked))?;
    each_refused(alloc, name, |alloc| by_resolve(alloc, asked))
}
