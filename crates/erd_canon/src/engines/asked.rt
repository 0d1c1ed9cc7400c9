//! The engines that answer with one text: what is read for each command, and what is written.

ghost use Rattle.std.specs.Prelude.{◌≡◌, ◌⊎◌, ◌∷◌, ◌++◌, [], false, true, string_bytes, Err, IfErr, IfOk, OnOk, option_copied};
ghost use Rattle.erd_canon.specs.Words.{between, Appends, IsPairPartWritten, IsPairRun, IsPairWritten, IsPartWritten, IsReportPartWritten, IsReportRun};
ghost use Rattle.erd_canon.specs.Words.{IsReportWritten};
ghost use Rattle.erd_canon.specs.AskedCommands.{pair_answers, report_answers};

use crate::data::check::Answer;
use crate::data::piece::PieceAnswer;
use crate::devices::sink::Sink;
use crate::devices::source::{Source, read_all};
use crate::engines::answers::{
    write_check_data, write_compare_data, write_differences_data, write_listed,
};
use crate::engines::ballots::{
    write_ballot_differences, write_ballot_differences_data, write_ballots, write_ballots_data,
};
use crate::engines::outcome::{Outcome, RunFault};
use crate::engines::write_and_flush::write_one;
use std::alloc::Global;

/// A command on one report that answers with one text. What is JSON stands on one line, with a line feed at its end.
///
/// ```
/// let command = ReportCommand::Ballots;
/// ```
#[derive(Clone, Copy, Debug)]
pub enum ReportCommand {
    /// Whether the report is accepted, as JSON: the text that `check_data_with` answers.
    CheckData,
    /// A line for each ballot of an accepted report, or else what `run_check_with` writes.
    Ballots,
    /// The ballots as JSON: the text that `ballots_data_with` answers for `BallotsAsked::Heads`.
    BallotsData,
}

/// A command on two reports that answers with one text. What is JSON stands on one line, with a line feed at its end. If the left
/// report is refused, or else if the right one is, lines are those that `run_compare_with` writes.
///
/// ```
/// let command = PairCommand::Differences;
/// ```
#[derive(Clone, Copy, Debug)]
pub enum PairCommand {
    /// The first difference as JSON: the text that `compare_data_with` answers.
    CompareData,
    /// The line `same`, or a line for each difference in what the reports mean, in rising order.
    Differences,
    /// All differences as JSON, with what the two reports have there: the text that `differences_values_piece` answers for the
    /// whole list.
    DifferencesData,
    /// The line `same ballots`, or a line for each style whose ballots are not the same, in the order of
    /// `erd_shown::differing_ballots`.
    BallotDifferences,
    /// The same as JSON: the text that `ballot_differences_data_with` answers.
    BallotDifferencesData,
}

/// Reads a report to its end, writes to `out` what the command answers under a preferred type of identifier, or under none, and
/// flushes `out`.
///
/// The answer is in memory as a whole before anything is written, but for the lines of faults. A report may have at most
/// 67,108,864 bytes. The devices must not have failed before the call. After a failure, the run reads, writes and flushes
/// nothing more.
///
/// # Errors
///
/// - `RunFault::Read` if and only if a read failed.
/// - `RunFault::Write` if and only if a write or a flush failed.
/// - `RunFault::TooLong` if a reader gave more than 67,108,864 bytes.
/// - `RunFault::Memory` if out of memory.
///
/// ```
/// let command = ReportCommand::CheckData;
/// assert_eq!(rt; run_report(alloc, &mut reader, &mut out, command, prefer)?, Outcome::Good);
/// assert_eq!(rt; out.writer.as_slice(), "[]\n".as_bytes());
/// ```
pub fn run_report<S: Source, O: Sink>(
    alloc: Global,
    reader: &mut S,
    out: &mut O,
    command: ReportCommand,
    prefer: Option<&str>,
) -> Result<Outcome, RunFault>
    requires reader_works { S.reader.has_failed reader.old ≡ false }
    requires out_works { O.writer.has_failed out.old ≡ false }
    ensures { IsReportRun S.reader O.writer (report_answers command (option_copied prefer.entry)) result (between reader.old reader.new)
        (between out.old out.new) }
{
    let bytes = read_all(alloc, reader)?;
    write_report(alloc, bytes.as_slice(), out, command, prefer)
}

// Writes what the command answers for the bytes of a report.
fn write_report<O: Sink>(
    alloc: Global,
    bytes: &[u8],
    out: &mut O,
    command: ReportCommand,
    prefer: Option<&str>,
) -> Result<Outcome, RunFault>
    requires { O.writer.has_failed out.old ≡ false }
    ensures written { IfOk result (λ outcome. IsReportWritten (report_answers command (option_copied prefer.entry)) bytes.now outcome
        (O.writer.contents out.old) (O.writer.contents out.new)) }
    ensures flushed { OnOk result (O.writer.is_flushed out.new ≡ true) }
    ensures works { OnOk result (O.writer.has_failed out.new ≡ false) }
    ensures memory { result ≡ Err RunFault.Memory → out.new ≡ out.old }
    ensures broken { result ≡ Err RunFault.Write → IsReportPartWritten (report_answers command (option_copied prefer.entry)) bytes.now
        (O.writer.contents out.old) (O.writer.contents out.new) }
    ensures write { result ≡ Err RunFault.Write → O.writer.has_failed out.new ≡ true }
    ensures faults { IfErr result (λ fault. (fault ≡ RunFault.Memory) ⊎ (fault ≡ RunFault.Write)) }
{
    match command {
        ReportCommand::CheckData => write_check_data(alloc, bytes, out, prefer),
        ReportCommand::Ballots => write_ballots(alloc, bytes, out, prefer),
        ReportCommand::BallotsData => write_ballots_data(alloc, bytes, out, prefer),
    }
}

/// Reads two reports to their ends, first the left report and then the right one, writes to `out` what the command answers under
/// a preferred type of identifier, or under none, and flushes `out`.
///
/// It keeps to what `run_report` says of memory, of long reports and of failures.
///
/// # Errors
///
/// As `run_report`.
///
/// ```
/// let command = PairCommand::Differences;
/// assert_eq!(rt; run_pair(alloc, &mut left, &mut right, &mut out, command, prefer)?, Outcome::Bad);
/// assert_eq!(rt; out.writer.as_slice(), "election: member \"Name\"\n".as_bytes());
/// ```
pub fn run_pair<S: Source, T: Source, O: Sink>(
    alloc: Global,
    left: &mut S,
    right: &mut T,
    out: &mut O,
    command: PairCommand,
    prefer: Option<&str>,
) -> Result<Outcome, RunFault>
    requires left_works { S.reader.has_failed left.old ≡ false }
    requires right_works { T.reader.has_failed right.old ≡ false }
    requires out_works { O.writer.has_failed out.old ≡ false }
    ensures { IsPairRun S.reader T.reader O.writer (pair_answers command (option_copied prefer.entry)) result
        (between left.old left.new) (between right.old right.new) (between out.old out.new) }
{
    let left_bytes = read_all(alloc, left)?;
    let right_bytes = read_all(alloc, right)?;
    write_pair(
        alloc,
        left_bytes.as_slice(),
        right_bytes.as_slice(),
        out,
        command,
        prefer,
    )
}

// Writes what the command answers for the bytes of two reports.
fn write_pair<O: Sink>(
    alloc: Global,
    left: &[u8],
    right: &[u8],
    out: &mut O,
    command: PairCommand,
    prefer: Option<&str>,
) -> Result<Outcome, RunFault>
    requires { O.writer.has_failed out.old ≡ false }
    ensures written { IfOk result (λ outcome. IsPairWritten (pair_answers command (option_copied prefer.entry)) left.now right.now outcome
        (O.writer.contents out.old) (O.writer.contents out.new)) }
    ensures flushed { OnOk result (O.writer.is_flushed out.new ≡ true) }
    ensures works { OnOk result (O.writer.has_failed out.new ≡ false) }
    ensures memory { result ≡ Err RunFault.Memory → out.new ≡ out.old }
    ensures broken { result ≡ Err RunFault.Write
        → IsPairPartWritten (pair_answers command (option_copied prefer.entry)) left.now right.now (O.writer.contents out.old) (O.writer.contents out.new) }
    ensures write { result ≡ Err RunFault.Write → O.writer.has_failed out.new ≡ true }
    ensures faults { IfErr result (λ fault. (fault ≡ RunFault.Memory) ⊎ (fault ≡ RunFault.Write)) }
{
    match command {
        PairCommand::CompareData => write_compare_data(alloc, left, right, out, prefer),
        PairCommand::Differences => write_listed(alloc, left, right, out, prefer),
        PairCommand::DifferencesData => write_differences_data(alloc, left, right, out, prefer),
        PairCommand::BallotDifferences => {
            write_ballot_differences(alloc, left, right, out, prefer)
        }
        PairCommand::BallotDifferencesData => {
            write_ballot_differences_data(alloc, left, right, out, prefer)
        }
    }
}

/// Writes the text of the answer and a line feed, then flushes, and returns the outcome.
pub(crate) fn write_line<O: Sink>(answer: Answer, out: &mut O) -> Result<Outcome, RunFault>
    requires { O.writer.has_failed out.old ≡ false }
    ensures outcome { IfOk result (λ outcome. outcome ≡ answer.outcome) }
    ensures wrote { OnOk result (Appends (O.writer.contents out.old) (O.writer.contents out.new) (string_bytes answer.text ++ 10 ∷ [])) }
    ensures flushed { OnOk result (O.writer.is_flushed out.new ≡ true) }
    ensures works { OnOk result (O.writer.has_failed out.new ≡ false) }
    ensures memory { result ≡ Err RunFault.Memory → out.new ≡ out.old }
    ensures broken { result ≡ Err RunFault.Write → IsPartWritten (O.writer.contents out.old) (O.writer.contents out.new) (string_bytes answer.text ++ 10 ∷ []) }
    ensures write { result ≡ Err RunFault.Write → O.writer.has_failed out.new ≡ true }
    ensures faults { IfErr result (λ fault. (fault ≡ RunFault.Memory) ⊎ (fault ≡ RunFault.Write)) }
{
    let Answer { outcome, mut text } = answer;
    text.push('\n')?;
    write_one(out, outcome, text.as_bytes())
}

/// Writes the text of an answer with a list and a line feed, then flushes, and returns the outcome.
pub(crate) fn write_piece_line<O: Sink>(
    answer: PieceAnswer,
    out: &mut O,
) -> Result<Outcome, RunFault>
    requires { O.writer.has_failed out.old ≡ false }
    ensures outcome { IfOk result (λ outcome. outcome ≡ answer.outcome) }
    ensures wrote { OnOk result (Appends (O.writer.contents out.old) (O.writer.contents out.new) (answer.text.items ++ 10 ∷ [])) }
    ensures flushed { OnOk result (O.writer.is_flushed out.new ≡ true) }
    ensures works { OnOk result (O.writer.has_failed out.new ≡ false) }
    ensures memory { result ≡ Err RunFault.Memory → out.new ≡ out.old }
    ensures broken { result ≡ Err RunFault.Write → IsPartWritten (O.writer.contents out.old) (O.writer.contents out.new) (answer.text.items ++ 10 ∷ []) }
    ensures write { result ≡ Err RunFault.Write → O.writer.has_failed out.new ≡ true }
    ensures faults { IfErr result (λ fault. (fault ≡ RunFault.Memory) ⊎ (fault ≡ RunFault.Write)) }
{
    let PieceAnswer {
        outcome,
        mut text,
        told: _,
    } = answer;
    match text.push(b'\n') {
        Ok(()) => write_one(out, outcome, text.as_slice()),
        Err(_) => Err(RunFault::Memory),
    }
}
