ghost use Rattle.std.specs.Prelude.{◌≡◌, ◌∷◌, [], map, string_bytes, codes, option_copied, Some, Ok, Err, IfOk};
ghost use Rattle.erd_canon.specs.Words.{view, IsAnswerTo, IsLineData, command_data, option_data, preparation_data, request_data};

use crate::commands::prefer::Prefer;
use crate::commands::request::{FileName, LineFault, Request};
use crate::commands::words::command_line;
use erd_tables::Text;
use serde_json::{Value, json};
use std::alloc::{AllocError, Global};

/// The answer of `command_line_data`.
#[derive(Debug, Drop)]
pub struct LineAnswer {
    /// The exit status of the program for these words, if they make no request: 0 for help, 3 for wrong words. `None` for a
    /// request.
    pub status: Option<u8>,
    /// For a request, compact JSON without a line feed: docs/API.md describes its value. Otherwise the text that the program
    /// writes: help to standard output, and what is wrong with the words to standard error.
    pub text: String,
}

/// Parses the words of a command line, as `command_line` does, and answers with a text. The first word is the program's name.
///
/// For a request, the text is a JSON object with the command, the names of the files, whether JSON is asked for, and the
/// preferred type of identifier. For a preparation it has the steps too, and whether a list or a report is asked for. For words
/// that ask for help, it is the help text. For words that are not a command line of the program, the text says why, and how the
/// program is called.
///
/// # Errors
///
/// `AllocError` if out of memory.
///
/// ```
/// let answer = command_line_data(alloc, &words)?;
/// assert_eq!(rt; answer.status, None);
/// assert_eq!(rt;
///     answer.text.as_str(),
///     r#"{"command":"check","files":["county.json"],"json":false,"prefer":"fips"}"#
/// );
/// ```
pub fn command_line_data(alloc: Global, words: &[String]) -> Result<LineAnswer, AllocError>
    ensures { IfOk result (λ answer. IsLineData (map string_bytes words.now) answer.status (string_bytes answer.text)) }
{
    match command_line(alloc, words) {
        Ok(request) => requested(alloc, &request),
        Err(fault) => refused_line(alloc, &fault),
    }
}

// The answer for a request.
fn requested(alloc: Global, request: &Request) -> Result<LineAnswer, AllocError>
    ensures { IfOk result (λ answer. IsAnswerTo (Ok request.now) answer.status (string_bytes answer.text)) }
{
    let value = request_value(alloc, request)?;
    Ok(LineAnswer {
        status: None,
        text: value.to_string(alloc)?,
    })
}

// The answer for words that make no request.
fn refused_line(alloc: Global, fault: &LineFault) -> Result<LineAnswer, AllocError>
    ensures { IfOk result (λ answer. IsAnswerTo (Err fault.now) answer.status (string_bytes answer.text)) }
{
    match fault {
        LineFault::Help(text) => ending(alloc, 0, text),
        LineFault::Usage(text) => ending(alloc, 3, text),
        LineFault::Memory => Err(AllocError),
    }
}

// The answer that is a text and an exit status.
fn ending(alloc: Global, status: u8, text: &Text) -> Result<LineAnswer, AllocError>
    ensures { IfOk result (λ answer. (answer.status ≡ Some status) × (string_bytes answer.text ≡ text.now)) }
{
    Ok(LineAnswer {
        status: Some(status),
        text: String::from_str(alloc, text.as_str())?,
    })
}

// The JSON object of a request.
fn request_value(alloc: Global, request: &Request) -> Result<Value, AllocError>
    ensures { IfOk result (λ value. view value ≡ request_data request.now) }
{
    match request {
        Request::Filter => {
            json!(in alloc; {"command": "filter", "files": [], "json": false, "prefer": null})
        }
        Request::Check(file, prefer) => on_one_file(alloc, "check", file, false, prefer),
        Request::Canon(file, prefer) => on_one_file(alloc, "canon", file, false, prefer),
        Request::Compare(left, right, prefer) => {
            on_two_files(alloc, "compare", (left, right), false, prefer)
        }
        Request::CheckData(file, prefer) => on_one_file(alloc, "check", file, true, prefer),
        Request::CompareData(left, right, prefer) => {
            on_two_files(alloc, "compare", (left, right), true, prefer)
        }
        Request::Differences(left, right, prefer) => {
            on_two_files(alloc, "differences", (left, right), false, prefer)
        }
        Request::DifferencesData(left, right, prefer) => {
            on_two_files(alloc, "differences", (left, right), true, prefer)
        }
        Request::Ballots(file, prefer) => on_one_file(alloc, "ballots", file, false, prefer),
        Request::BallotsData(file, prefer) => on_one_file(alloc, "ballots", file, true, prefer),
        Request::BallotDifferences(left, right, prefer) => {
            on_two_files(alloc, "ballots", (left, right), false, prefer)
        }
        Request::BallotDifferencesData(left, right, prefer) => {
            on_two_files(alloc, "ballots", (left, right), true, prefer)
        }
        Request::Prepare(file, steps, prefer) => {
            preparing(alloc, (false, false), file, steps.text(), prefer.text())
        }
        Request::PrepareList(file) => preparing(alloc, (true, false), file, None, None),
        Request::PrepareReport(file, steps) => {
            preparing(alloc, (false, true), file, steps.text(), None)
        }
    }
}

// The JSON object of a preparation. The flags are whether a list or a report is asked for.
fn preparing(
    alloc: Global,
    flags: (bool, bool),
    file: &FileName,
    steps: Option<&str>,
    prefer: Option<&str>,
) -> Result<Value, AllocError>
    ensures { IfOk result (λ value. view value ≡ preparation_data flags.0 flags.1 file.now (option_copied steps.entry) (option_copied prefer.entry)) }
{
    let (list, report) = flags;
    let file = file.as_str();
    json!(in alloc; {
        "command": "prepare", "files": [file], "json": false, "list": list, "prefer": option_value(alloc, prefer)?,
        "report": report, "steps": option_value(alloc, steps)?
    })
}

// The JSON object of a command for one file.
fn on_one_file(
    alloc: Global,
    command: &str,
    file: &FileName,
    json: bool,
    prefer: &Prefer,
) -> Result<Value, AllocError>
    ensures { IfOk result (λ value. view value ≡ command_data command.now (file.now ∷ []) json prefer.now) }
{
    let (file, prefer) = (file.as_str(), prefer.text());
    json!(in alloc; {"command": command, "files": [file], "json": json, "prefer": option_value(alloc, prefer)?})
}

// The JSON object of a command for two files.
fn on_two_files(
    alloc: Global,
    command: &str,
    files: (&FileName, &FileName),
    json: bool,
    prefer: &Prefer,
) -> Result<Value, AllocError>
    ensures { IfOk result (λ value. view value ≡ command_data command.now (files.entry.0.now ∷ files.entry.1.now ∷ []) json prefer.now) }
{
    let left = files.0.as_str();
    let right = files.1.as_str();
    let prefer = prefer.text();
    json!(in alloc; {"command": command, "files": [left, right], "json": json, "prefer": option_value(alloc, prefer)?})
}

// The JSON value of the text of an option: a string, or null if the option is not there.
fn option_value(alloc: Global, text: Option<&str>) -> Result<Value, AllocError>
    ensures { IfOk result (λ value. view value ≡ option_data (option_copied text.entry)) }
{
    match text {
        Some(text) => Value::try_from_str(alloc, text),
        None => Ok(Value::Null),
    }
}
