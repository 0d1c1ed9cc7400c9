//! The requests that command lines give.
use crate::tests::answers::{Answer, right_if};
use crate::tests::refusing::each_refused;
use erd_canon::{FileName, LineFault, Prefer, Request, Steps, command_line};
use std::alloc::{AllocError, Global};
use std::test::Fail;

// The words of a line with `|` between them, and the request or the kind of text that they give. A request has the names of
// files in brackets, then the steps, and then the preference.
pub type Line = (&'static str, &'static str);

// The words of the line.
fn words_of(alloc: Global, line: &str) -> Result<Vec<String>, AllocError> {
    let mut words = Vec::new(alloc);
    for word in line.split('|') {
        words.push(String::from_str(alloc, word)?)?;
    }
    Ok(words)
}

// The preference in brackets, or the empty text if there is none.
fn under(alloc: Global, prefer: &Prefer) -> Result<String, AllocError> {
    match prefer.text() {
        Some(kind) => format!(in alloc; " under [{kind}]"),
        None => String::from_str(alloc, ""),
    }
}

// The steps in brackets, or the empty text if there are none.
fn by(alloc: Global, steps: &Steps) -> Result<String, AllocError> {
    match steps.text() {
        Some(names) => format!(in alloc; " by [{names}]"),
        None => String::from_str(alloc, ""),
    }
}

// The request with the names of files, the steps and the preference in brackets.
fn told(alloc: Global, request: &Request) -> Result<String, AllocError> {
    match request {
        Request::Filter => String::from_str(alloc, "filter"),
        Request::Check(file, prefer) => of_file(alloc, "check", file, prefer),
        Request::Canon(file, prefer) => of_file(alloc, "canon", file, prefer),
        Request::Compare(left, right, prefer) => of_files(alloc, "compare", left, right, prefer),
        Request::CheckData(file, prefer) => of_file(alloc, "check as data", file, prefer),
        Request::CompareData(left, right, prefer) => {
            of_files(alloc, "compare as data", left, right, prefer)
        }
        Request::Differences(left, right, prefer) => {
            of_files(alloc, "differences", left, right, prefer)
        }
        Request::DifferencesData(left, right, prefer) => {
            of_files(alloc, "differences as data", left, right, prefer)
        }
        Request::Ballots(file, prefer) => of_file(alloc, "ballots", file, prefer),
        Request::BallotsData(file, prefer) => of_file(alloc, "ballots as data", file, prefer),
        Request::BallotDifferences(left, right, prefer) => {
            of_files(alloc, "ballots", left, right, prefer)
        }
        Request::BallotDifferencesData(left, right, prefer) => {
            of_files(alloc, "ballots as data", left, right, prefer)
        }
        Request::Prepare(file, steps, prefer) => {
            let prefer = under(alloc, prefer)?;
            by_steps(alloc, "prepare", file, steps, prefer.as_str())
        }
        Request::PrepareList(file) => {
            let file = file.as_str();
            format!(in alloc; "list for [{file}]")
        }
        Request::PrepareReport(file, steps) => by_steps(alloc, "report on", file, steps, ""),
    }
}

fn by_steps(
    alloc: Global,
    command: &str,
    file: &FileName,
    steps: &Steps,
    prefer: &str,
) -> Result<String, AllocError> {
    let (file, steps) = (file.as_str(), by(alloc, steps)?);
    format!(in alloc; "{command} [{file}]{steps}{prefer}")
}

fn of_file(
    alloc: Global,
    command: &str,
    file: &FileName,
    prefer: &Prefer,
) -> Result<String, AllocError> {
    let (file, prefer) = (file.as_str(), under(alloc, prefer)?);
    format!(in alloc; "{command} [{file}]{prefer}")
}

fn of_files(
    alloc: Global,
    command: &str,
    left: &FileName,
    right: &FileName,
    prefer: &Prefer,
) -> Result<String, AllocError> {
    let (left, right) = (left.as_str(), right.as_str());
    let prefer = under(alloc, prefer)?;
    format!(in alloc; "{command} [{left}] [{right}]{prefer}")
}

// The request of this line.
pub fn request(alloc: Global, line: &str) -> Result<Request, LineFault> {
    match words_of(alloc, line) {
        Ok(words) => command_line(alloc, words.as_slice()),
        Err(_) => Err(LineFault::Memory),
    }
}

fn answer(alloc: Global, line: &str) -> Result<String, AllocError> {
    match &request(alloc, line) {
        Ok(request) => told(alloc, request),
        Err(LineFault::Help(_)) => String::from_str(alloc, "help"),
        Err(LineFault::Usage(_)) => String::from_str(alloc, "usage"),
        Err(LineFault::Memory) => Err(AllocError),
    }
}

fn has_answer(alloc: Global, line: &str, wanted: &str) -> Answer {
    match answer(alloc, line) {
        Ok(text) => right_if(text.as_str() == wanted),
        Err(_) => Answer::WantsMemory,
    }
}

// The lines give what stands beside them, with each request for memory refused in turn.
pub fn all_are(alloc: Global, lines: &[Line]) -> Result<(), Fail> {
    for (line, wanted) in lines {
        each_refused(alloc, line, |alloc| has_answer(alloc, line, wanted))?;
    }
    Ok(())
}
