ghost use Rattle.erd_program.specs.code.Tasks.{AreTwoFiles, IsOneFile, IsTaskOf};

use crate::commands::{FileCommand, TwoFilesCommand};
use crate::steps::StepsCommand;
use erd_canon::{FileName, PairCommand, Prefer, ReportCommand, Request};

/// What a request asks for: a command, with the files that it names and the preference.
pub(crate) enum Task<'a> {
    /// Canonicalise standard input.
    Filter,
    /// Carry out the command on one file.
    OneFile(&'a FileName, FileCommand<'a>, Option<&'a str>),
    /// Carry out the command on two files.
    TwoFiles(&'a FileName, &'a FileName, TwoFilesCommand, Option<&'a str>),
    /// Carry out the command on one file by these steps, if any are named.
    BySteps(&'a FileName, StepsCommand, Option<&'a str>, Option<&'a str>),
}

/// Returns the task of the request.
pub(crate) fn task_of(request: &Request) -> Task<'_>
    ensures { IsTaskOf request.now result }
{
    match request {
        Request::Filter => Task::Filter,
        Request::Check(name, prefer) => one(name, FileCommand::Check, prefer),
        Request::Canon(name, prefer) => one(name, FileCommand::Canon, prefer),
        Request::CheckData(name, prefer) => of_one(name, ReportCommand::CheckData, prefer),
        Request::Ballots(name, prefer) => of_one(name, ReportCommand::Ballots, prefer),
        Request::BallotsData(name, prefer) => of_one(name, ReportCommand::BallotsData, prefer),
        Request::PrepareList(name) => Task::OneFile(name, FileCommand::PrepareList, None),
        Request::Compare(left, right, prefer) => {
            two((left, right), TwoFilesCommand::Compare, prefer)
        }
        Request::CompareData(left, right, prefer) => {
            of_two((left, right), PairCommand::CompareData, prefer)
        }
        Request::Differences(left, right, prefer) => {
            of_two((left, right), PairCommand::Differences, prefer)
        }
        Request::DifferencesData(left, right, prefer) => {
            of_two((left, right), PairCommand::DifferencesData, prefer)
        }
        Request::BallotDifferences(left, right, prefer) => {
            of_two((left, right), PairCommand::BallotDifferences, prefer)
        }
        Request::BallotDifferencesData(left, right, prefer) => {
            of_two((left, right), PairCommand::BallotDifferencesData, prefer)
        }
        Request::Prepare(name, steps, prefer) => {
            Task::BySteps(name, StepsCommand::Prepare, steps.text(), prefer.text())
        }
        Request::PrepareReport(name, steps) => {
            Task::BySteps(name, StepsCommand::Report, steps.text(), None)
        }
    }
}

// The command on one file, under the preference.
fn one<'a>(name: &'a FileName, command: FileCommand<'a>, prefer: &'a Prefer) -> Task<'a>
    ensures { IsOneFile name.entry.now command.entry prefer.entry.now result }
{
    Task::OneFile(name, command, prefer.text())
}

// What is asked of one file, under the preference.
fn of_one<'a>(name: &'a FileName, asked: ReportCommand, prefer: &'a Prefer) -> Task<'a>
    ensures { IsOneFile name.entry.now (FileCommand.Answer asked) prefer.entry.now result }
{
    one(name, FileCommand::Answer(asked), prefer)
}

// The command on two files, under the preference.
fn two<'a>(
    names: (&'a FileName, &'a FileName),
    command: TwoFilesCommand,
    prefer: &'a Prefer,
) -> Task<'a>
    ensures { AreTwoFiles names.entry.0.now names.entry.1.now command prefer.entry.now result }
{
    let (left, right) = names;
    Task::TwoFiles(left, right, command, prefer.text())
}

// What is asked of two files, under the preference.
fn of_two<'a>(
    names: (&'a FileName, &'a FileName),
    asked: PairCommand,
    prefer: &'a Prefer,
) -> Task<'a>
    ensures { AreTwoFiles names.entry.0.now names.entry.1.now (TwoFilesCommand.Answer asked) prefer.entry.now result }
{
    two(names, TwoFilesCommand::Answer(asked), prefer)
}
