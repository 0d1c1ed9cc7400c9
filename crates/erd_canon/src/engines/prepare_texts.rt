//! What the engines that prepare a report answer for its bytes.

ghost use Rattle.std.specs.Prelude.{◌≡◌, ◌++◌, ℕ, List, map, string_bytes, IfOk, OnOk, option_copied};
ghost use Rattle.std.specs.List.{flat_map};
ghost use Rattle.erd_prepare.specs.Steps.{IsNamedStepDone};
ghost use Rattle.erd_prepare.specs.declared.engine.Done.{Done};
ghost use Rattle.erd_prepare.specs.declared.step_name.TheConstants.{STEPS};
ghost use Rattle.erd_canon.specs.Words.{count_lines, done_lines, fault_line, grouped_text, remedy_lines, text_of_lines, tried_lines, view};
ghost use Rattle.erd_canon.specs.Words.{AreFileTexts, AreNotJsonTexts, AreStepsTried, AreToldTexts, AreTriedTexts, AreUnmarkedSteps, IsJudged};
ghost use Rattle.erd_canon.specs.Words.{IsUnmarkedPrepared, IsUnmarkedTold};

use crate::bytes::acceptance::{Input, check_bytes_with};
use crate::bytes::refusal::Refusal;
use crate::data::listed::push_entry_line;
use crate::engines::outcome::Outcome;
use crate::engines::remedies::push_remedies;
use erd_prepare::{
    Done, Others, PrepareError, PreparedBytes, STEPS, StepDone, StepGroup, StepName, do_step,
    prepare_bytes,
};
use erd_tables::FaultList;
use serde_json::Value;
use std::alloc::{AllocError, Global};

/// What is written to the two writers, and how the run ends.
#[derive(Drop)]
pub(crate) struct Texts {
    pub(crate) outcome: Outcome,
    pub(crate) out: Vec<u8>,
    pub(crate) err: String,
}

/// Prepares the bytes by these steps, and checks what they made of it.
pub(crate) fn prepared_texts(
    alloc: Global,
    bytes: &[u8],
    chosen: &[StepName],
    prefer: Option<&str>,
) -> Result<Texts, AllocError>
    ensures { IfOk result (λ texts. IsUnmarkedPrepared (option_copied prefer.entry) chosen.now bytes.now texts.outcome texts.out.items
        (string_bytes texts.err)) }
{
    match prepare_bytes(alloc, bytes, chosen, Others::Untold) {
        Ok(file) => file_texts(alloc, file, prefer),
        Err(PrepareError::NotJson) => not_json(alloc),
        Err(PrepareError::Memory) => Err(AllocError),
    }
}

// The prepared report; what was done, and why the prepared report is refused, if it is.
fn file_texts(alloc: Global, file: PreparedBytes, prefer: Option<&str>) -> Result<Texts, AllocError>
    ensures { IfOk result (λ texts. AreFileTexts (option_copied prefer.entry) file texts.outcome texts.out.items (string_bytes texts.err)) }
{
    let mut err = String::new(alloc);
    push_count(alloc, "numbers", file.numbers.len(), 0, &mut err)?;
    push_steps(alloc, &file.steps, &mut err)?;
    let outcome = push_judgement(alloc, &file.bytes, prefer, &mut err)?;
    Ok(Texts {
        outcome,
        out: file.bytes,
        err,
    })
}

// Appends the lines of the steps.
fn push_steps(alloc: Global, steps: &[StepDone], text: &mut String) -> Result<(), AllocError>
    ensures { OnOk result (string_bytes text.new ≡ string_bytes text.old ++ text_of_lines (flat_map done_lines steps.now)) }
{
    for step in steps {
        let (changed, left) = (step.changes.len(), step.left.len());
        push_count(alloc, step.step.text(), changed, left, text)?;
    }
    Ok(())
}

// Appends the line of what changed or left so much, if it did either.
fn push_count(
    alloc: Global,
    name: &str,
    changed: usize,
    left: usize,
    text: &mut String,
) -> Result<(), AllocError>
    ensures { OnOk result (string_bytes text.new ≡ string_bytes text.old ++ text_of_lines (count_lines name.now changed left)) }
{
    let line = count_line(alloc, name, changed, left)?;
    text.push_str(&line)
}

// The line of what changed or left so much, with its line feed, or the empty text if it did neither.
fn count_line(alloc: Global, name: &str, changed: usize, left: usize) -> Result<String, AllocError>
    ensures { IfOk result (λ line. string_bytes line ≡ text_of_lines (count_lines name.now changed left)) }
{
    match (changed, left) {
        (0, 0) => Ok(String::new(alloc)),
        (_, 0) => format!(in alloc; "{name}: {changed} changed\n"),
        (0, _) => format!(in alloc; "{name}: {left} left\n"),
        (_, _) => format!(in alloc; "{name}: {changed} changed, {left} left\n"),
    }
}

// Checks the prepared report, and appends the lines that say why it is refused and what may be done, if it is.
fn push_judgement(
    alloc: Global,
    bytes: &[u8],
    prefer: Option<&str>,
    text: &mut String,
) -> Result<Outcome, AllocError>
    ensures { IfOk result (λ outcome. (lines : List (List ℕ)) × IsJudged (option_copied prefer.entry) bytes.now outcome lines
        × (string_bytes text.new ≡ string_bytes text.old ++ text_of_lines lines)) }
{
    match check_bytes_with(alloc, bytes, prefer) {
        Ok(()) => Ok(Outcome::Good),
        Err(Refusal::Faults(faults)) => {
            push_refused(alloc, &faults, text)?;
            Ok(Outcome::Bad)
        }
        Err(Refusal::NotJson) => {
            text.push_str("not JSON\n")?;
            Ok(Outcome::Bad)
        }
        Err(Refusal::Memory) => Err(AllocError),
    }
}

// Appends a line for each fault, and then what may be done about them.
fn push_refused(alloc: Global, faults: &FaultList, text: &mut String) -> Result<(), AllocError>
    ensures { OnOk result (string_bytes text.new ≡ string_bytes text.old ++ text_of_lines (map fault_line faults.now ++ remedy_lines faults.now)) }
{
    push_faults(alloc, faults, text)?;
    push_remedies(alloc, faults, text)
}

// Appends a line for each fault.
fn push_faults(alloc: Global, faults: &FaultList, text: &mut String) -> Result<(), AllocError>
    ensures { OnOk result (string_bytes text.new ≡ string_bytes text.old ++ text_of_lines (map fault_line faults.now)) }
{
    for fault in faults.iter() {
        push_entry_line(alloc, "", fault, text)?;
    }
    Ok(())
}

// What is written for bytes that are not JSON.
fn not_json(alloc: Global) -> Result<Texts, AllocError>
    ensures { IfOk result (λ texts. AreNotJsonTexts texts.outcome texts.out.items (string_bytes texts.err)) }
{
    Ok(Texts {
        outcome: Outcome::NotJson,
        out: Vec::new(alloc),
        err: String::from_str(alloc, "not JSON\n")?,
    })
}

/// Tries each step on the report in the bytes.
pub(crate) fn listed_texts(alloc: Global, bytes: &[u8]) -> Result<Texts, AllocError>
    ensures { IfOk result (λ texts. AreUnmarkedSteps bytes.now texts.outcome texts.out.items (string_bytes texts.err)) }
{
    match bytes.into_tree(alloc) {
        Ok(report) => tried_texts(alloc, &report),
        Err(Refusal::NotJson) => not_json(alloc),
        Err(_) => Err(AllocError),
    }
}

// The lines of all steps, tried on the report.
fn tried_texts(alloc: Global, report: &Value) -> Result<Texts, AllocError>
    ensures { IfOk result (λ texts. AreTriedTexts (view report.now) texts.outcome texts.out.items (string_bytes texts.err)) }
{
    let text = tried(alloc, report)?;
    Ok(Texts {
        outcome: Outcome::Good,
        out: text.into_bytes(),
        err: String::new(alloc),
    })
}

// Tries each step on the report, and returns the lines of them all.
fn tried(alloc: Global, report: &Value) -> Result<String, AllocError>
    ensures { IfOk result (λ text. (lines : List (List ℕ)) × AreStepsTried (view report.now) STEPS lines × (string_bytes text ≡ text_of_lines lines)) }
{
    let mut text = String::new(alloc);
    for step in STEPS {
        push_tried(alloc, step, report, &mut text)?;
    }
    Ok(text)
}

// Tries a step on the report, and appends its lines.
fn push_tried(
    alloc: Global,
    step: StepName,
    report: &Value,
    text: &mut String,
) -> Result<(), AllocError>
    ensures { OnOk result ((done : Done) × IsNamedStepDone step (view report.now) done
        × (string_bytes text.new ≡ string_bytes text.old ++ text_of_lines (tried_lines step done))) }
{
    let done = do_step(alloc, step, report)?;
    push_done(alloc, step, &done, text)
}

// Appends the lines of a step that was tried.
fn push_done(
    alloc: Global,
    step: StepName,
    done: &Done,
    text: &mut String,
) -> Result<(), AllocError>
    ensures { OnOk result (string_bytes text.new ≡ string_bytes text.old ++ text_of_lines (tried_lines step done.now)) }
{
    let name = grouped_name(alloc, step)?;
    push_count(alloc, &name, done.changes.len(), done.left.len(), text)
}

// The name of a step with that of its group.
fn grouped_name(alloc: Global, step: StepName) -> Result<String, AllocError>
    ensures { IfOk result (λ name. string_bytes name ≡ grouped_text step) }
{
    let (name, group) = (step.text(), StepGroup::of(step).text());
    format!(in alloc; "{name} ({group})")
}

/// Prepares the bytes by these steps, and tells what they did and what the other steps would do.
pub(crate) fn told_texts(
    alloc: Global,
    bytes: &[u8],
    chosen: &[StepName],
) -> Result<Texts, AllocError>
    ensures { IfOk result (λ texts. IsUnmarkedTold chosen.now bytes.now texts.outcome texts.out.items (string_bytes texts.err)) }
{
    match prepare_bytes(alloc, bytes, chosen, Others::Told) {
        Ok(file) => told_line(alloc, file),
        Err(PrepareError::NotJson) => not_json(alloc),
        Err(PrepareError::Memory) => Err(AllocError),
    }
}

// What is told of a preparation, and a line feed.
fn told_line(alloc: Global, file: PreparedBytes) -> Result<Texts, AllocError>
    ensures { IfOk result (λ texts. AreToldTexts file texts.outcome texts.out.items (string_bytes texts.err)) }
{
    let mut out = file.told;
    out.push(b'\n')?;
    Ok(Texts {
        outcome: Outcome::Good,
        out,
        err: String::new(alloc),
    })
}
