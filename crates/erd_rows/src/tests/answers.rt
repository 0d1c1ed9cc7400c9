//! What a call answers, with or without a refused request for memory.
use erd_canon::{Outcome, Refusal, RunFault};
use erd_tables::{Fault, FaultList};
use std::alloc::{AllocError, Global};

// The result of a call.
#[derive(Clone, Copy, PartialEq, Eq)]
pub enum Answer {
    Right,
    WantsMemory,
    Wrong,
}

// The texts that engines write, beside lines of faults and differences.
pub const ACCEPTED: &str = "accepted\n";

pub const NOT_JSON: &str = "not JSON\n";

pub const SAME: &str = "same\n";

pub fn right_if(is_right: bool) -> Answer {
    if is_right {
        Answer::Right
    } else {
        Answer::Wrong
    }
}

// Whether the text is right, or memory ran out.
pub fn has_text(found: Result<String, AllocError>, wanted: &str) -> Answer {
    match found {
        Ok(text) => right_if(text.as_str() == wanted),
        Err(_) => Answer::WantsMemory,
    }
}

// The line of a fault, after the name of its side and with its line feed.
fn line(alloc: Global, side: &str, fault: &Fault) -> Result<String, AllocError> {
    let line = fault.line(alloc)?;
    format!(in alloc; "{side}{line}\n")
}

// The lines of a list of faults, each after the name of its side.
pub fn lines(alloc: Global, side: &str, faults: &FaultList) -> Result<String, AllocError> {
    let mut text = String::new(alloc);
    for fault in faults.iter() {
        text.push_str(line(alloc, side, fault)?.as_str())?;
    }
    Ok(text)
}

// Whether a report is refused with these lines, each after the name of its side.
pub fn refused(alloc: Global, side: &str, refusal: &Refusal, wanted: &str) -> Answer {
    match refusal {
        Refusal::Faults(faults) => has_text(lines(alloc, side, faults), wanted),
        Refusal::NotJson => right_if(wanted.strip_prefix(side) == Some(NOT_JSON)),
        Refusal::Memory => Answer::WantsMemory,
    }
}

// The outcome of a run that writes this text.
pub fn outcome_of(text: &str) -> Outcome {
    if text == ACCEPTED || text == SAME {
        Outcome::Good
    } else if text.ends_with(NOT_JSON) {
        Outcome::NotJson
    } else {
        Outcome::Bad
    }
}

// Whether a run has this outcome and wrote the whole of what it should, or is out of memory and wrote nothing.
pub fn run_answer(
    found: Result<Outcome, RunFault>,
    wanted: Outcome,
    is_whole: bool,
    is_nothing: bool,
) -> Answer {
    match found {
        Ok(outcome) => right_if(outcome == wanted && is_whole),
        Err(RunFault::Memory) if is_nothing => Answer::WantsMemory,
        Err(_) => Answer::Wrong,
    }
}
