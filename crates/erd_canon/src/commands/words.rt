ghost use Rattle.std.specs.Prelude.{◌≡◌, ℕ, List, ◌∷◌, map, MatchResult, codes, string_bytes};
ghost use Rattle.erd_canon.specs.Words.{HasPlainWords, words_of, has_flag, preference_in, IsFaultFor, IsLineRead, ballots_in, ballots_request, check_request};
ghost use Rattle.erd_canon.specs.Words.{compare_request, differences_request, pair_request, preparation_in, prepare_request, request_in, subcommand_request};
ghost use Rattle.erd_canon.specs.Words.{word_for, first_of, found_of, kind_of, rows_of, subcommand_rows_of};

use crate::commands::builder::program_command;
use crate::commands::prefer::Prefer;
use crate::commands::request::{FileName, LineFault, Request};
use crate::commands::steps::Steps;
use clap::error::ErrorKind;
use clap::{ArgMatches, Error};
use erd_tables::Text;
use std::alloc::Global;

/// Parses the words of a command line. The first word is the program's name.
///
/// If no other word follows, returns `Request::Filter`. For `check FILE`, `canon FILE`, `ballots FILE`, `prepare FILE`,
/// `compare LEFT RIGHT`, `differences LEFT RIGHT` and `ballots LEFT RIGHT`, returns the request of the same name without a
/// preference. With `--json` behind the subcommand, returns the request of that name for JSON, but for `canon` and `prepare`.
/// With `--list` or `--report` behind `prepare`, returns the request for a list or a report. With `--steps STEPS` behind
/// `prepare` or `--report`, returns it with these steps. With `--prefer TYPE` before the first file name, and behind `--json` or
/// `--steps STEPS` if these are there, returns it with the preference TYPE, but for a list and a report. This holds if no file
/// name, no STEPS and no TYPE is empty or begins with `-`. Then the only error is `LineFault::Memory`. All other words are
/// parsed by the grammar of `clap` too, and the result is the one that it states for the subcommands of the program and these
/// words.
///
/// # Errors
///
/// - `LineFault::Help` with the help text if the words ask for help.
/// - `LineFault::Usage` with a message if the words are not a command line of the program.
/// - `LineFault::Memory` if out of memory.
///
/// ```
/// let Request::Check(file, prefer) = command_line(alloc, &words)? else {
///     return Err(Fail::from("another request"));
/// };
/// assert_eq!(rt; file.as_str(), "county.json");
/// assert_eq!(rt; prefer.text(), Some("fips"));
/// ```
pub fn command_line(alloc: Global, words: &[String]) -> Result<Request, LineFault>
    ensures exact { (request : Request) (name : List ℕ) → HasPlainWords request
        → map string_bytes words.now ≡ name ∷ words_of request
        → MatchResult result (λ answer. answer ≡ request) (λ fault. fault ≡ LineFault.Memory) }
    ensures read { IsLineRead (map string_bytes words.now) result }
{
    let command = program_command(alloc)?;
    match command.try_get_matches_from(words) {
        Ok(matches) => request_of(alloc, &matches),
        Err(error) => Err(fault_of(alloc, &error)),
    }
}

// The request that the matches of the program give.
fn request_of(alloc: Global, matches: &ArgMatches<'_>) -> Result<Request, LineFault>
    ensures { MatchResult result (λ answer. answer ≡ request_in (subcommand_rows_of matches.now))
        (λ fault. fault ≡ LineFault.Memory) }
{
    match matches.subcommand() {
        None => Ok(Request::Filter),
        Some((name, inner)) => subcommand_request(alloc, name, inner),
    }
}

// The request that the matches of the subcommand with this name give.
fn subcommand_request(
    alloc: Global,
    name: &str,
    matches: &ArgMatches<'_>,
) -> Result<Request, LineFault>
    ensures { MatchResult result (λ answer. answer ≡ subcommand_request name.now (rows_of (found_of matches.now)))
        (λ fault. fault ≡ LineFault.Memory) }
{
    let prefer = Prefer::of(option_text(alloc, matches, "TYPE")?);
    let json = has_flag(matches, "json");
    match name {
        "check" => {
            let file = file_name(alloc, matches, "FILE")?;
            Ok(check_request(json, file, prefer))
        }
        "canon" => Ok(Request::Canon(file_name(alloc, matches, "FILE")?, prefer)),
        "ballots" => ballots(alloc, matches, prefer),
        "prepare" => preparation(alloc, matches, prefer),
        _ => {
            let left = file_name(alloc, matches, "LEFT")?;
            let right = file_name(alloc, matches, "RIGHT")?;
            Ok(pair_request(name, json, left, right, prefer))
        }
    }
}

// The request to check a file, with JSON or with lines as the answer.
fn check_request(json: bool, file: FileName, prefer: Prefer) -> Request
    ensures { result ≡ check_request json file prefer }
{
    if json {
        Request::CheckData(file, prefer)
    } else {
        Request::Check(file, prefer)
    }
}

// The request of the subcommand with this name that takes two files.
fn pair_request(name: &str, json: bool, left: FileName, right: FileName, prefer: Prefer) -> Request
    ensures { result ≡ pair_request name.now json left right prefer }
{
    match name {
        "compare" => compare_request(json, left, right, prefer),
        _ => differences_request(json, left, right, prefer),
    }
}

// The request to compare two files, with JSON or with a line as the answer.
fn compare_request(json: bool, left: FileName, right: FileName, prefer: Prefer) -> Request
    ensures { result ≡ compare_request json left right prefer }
{
    if json {
        Request::CompareData(left, right, prefer)
    } else {
        Request::Compare(left, right, prefer)
    }
}

// The request to list the differences of two files, with JSON or with lines as the answer.
fn differences_request(json: bool, left: FileName, right: FileName, prefer: Prefer) -> Request
    ensures { result ≡ differences_request json left right prefer }
{
    if json {
        Request::DifferencesData(left, right, prefer)
    } else {
        Request::Differences(left, right, prefer)
    }
}

// The request that the matches of the subcommand `ballots` give, under the preference.
fn ballots(alloc: Global, matches: &ArgMatches<'_>, prefer: Prefer) -> Result<Request, LineFault>
    ensures { prefer ≡ preference_in (rows_of (found_of matches.now)) → MatchResult result
        (λ answer. answer ≡ ballots_in (rows_of (found_of matches.now))) (λ fault. fault ≡ LineFault.Memory) }
{
    let file = file_name(alloc, matches, "FILE")?;
    let right = option_text(alloc, matches, "RIGHT")?;
    Ok(ballots_request(has_flag(matches, "json"), file, right, prefer))
}

// The request for the ballots of a file, or for those that differ if there is a second one.
fn ballots_request(json: bool, file: FileName, right: Option<FileName>, prefer: Prefer) -> Request
    ensures { result ≡ ballots_request json file right prefer }
{
    match (right, json) {
        (None, false) => Request::Ballots(file, prefer),
        (None, true) => Request::BallotsData(file, prefer),
        (Some(right), false) => Request::BallotDifferences(file, right, prefer),
        (Some(right), true) => Request::BallotDifferencesData(file, right, prefer),
    }
}

// The request that the matches of the subcommand `prepare` give, under the preference.
fn preparation(
    alloc: Global,
    matches: &ArgMatches<'_>,
    prefer: Prefer,
) -> Result<Request, LineFault>
    ensures { prefer ≡ preference_in (rows_of (found_of matches.now)) → MatchResult result
        (λ answer. answer ≡ preparation_in (rows_of (found_of matches.now))) (λ fault. fault ≡ LineFault.Memory) }
{
    let file = file_name(alloc, matches, "FILE")?;
    let steps = Steps::of(option_text(alloc, matches, "STEPS")?);
    let list = has_flag(matches, "list");
    let report = has_flag(matches, "report");
    Ok(prepare_request(list, report, file, steps, prefer))
}

// The request to prepare a file, with a list, a report or the prepared file as the answer.
fn prepare_request(
    list: bool,
    report: bool,
    file: FileName,
    steps: Steps,
    prefer: Prefer,
) -> Request
    ensures { result ≡ prepare_request list report file steps prefer }
{
    if list {
        Request::PrepareList(file)
    } else if report {
        Request::PrepareReport(file, steps)
    } else {
        Request::Prepare(file, steps, prefer)
    }
}

// Whether the flag was given.
fn has_flag(matches: &ArgMatches<'_>, id: &str) -> bool
    ensures { result ≡ has_flag id.now (rows_of (found_of matches.now)) }
{
    matches.get_str(id).unwrap_or("") == "true"
}

// The word that was given for the argument.
fn file_name(alloc: Global, matches: &ArgMatches<'_>, id: &str) -> Result<FileName, LineFault>
    ensures { MatchResult result (λ answer. answer ≡ word_for id.now (rows_of (found_of matches.now)))
        (λ fault. fault ≡ LineFault.Memory) }
{
    let name = String::from_str(alloc, matches.get_str(id).unwrap_or(""))?;
    Ok(Text::of(name))
}

// The word that was given for the argument, if any.
fn option_text(alloc: Global, matches: &ArgMatches<'_>, id: &str) -> Result<Option<Text>, LineFault>
    ensures { MatchResult result (λ answer. answer ≡ first_of id.now (rows_of (found_of matches.now)))
        (λ fault. fault ≡ LineFault.Memory) }
{
    match matches.get_str(id) {
        Some(word) => Ok(Some(Text::of(String::from_str(alloc, word)?))),
        None => Ok(None),
    }
}

// The fault for an error of `clap`.
fn fault_of(alloc: Global, error: &Error) -> LineFault
    ensures memory { kind_of error.now ≡ ErrorKind.OutOfMemory → result ≡ LineFault.Memory }
    ensures kind { IsFaultFor (kind_of error.now) result }
{
    let kind = error.kind();
    if kind == ErrorKind::OutOfMemory {
        return LineFault::Memory;
    }
    match error.to_string(alloc) {
        Ok(text) if kind == ErrorKind::DisplayHelp => LineFault::Help(Text::of(text)),
        Ok(text) => LineFault::Usage(Text::of(text)),
        Err(_) => LineFault::Memory,
    }
}
