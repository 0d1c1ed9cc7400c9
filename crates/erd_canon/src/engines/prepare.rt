//! The engines that prepare a report. What they write is in memory as a whole before any of it is written.

ghost use Rattle.std.specs.Prelude.{◌≡◌, ◌⊎◌, ◌++◌, [], ◌∷◌, ◌<◌, codes, length, false, true, string_bytes, Err, IfErr, IfOk, OnOk, option_copied, option_map};
ghost use Rattle.erd_canon.specs.Words.{asked_steps, between, text_of_lines, AreStepsListed, AreTextsPartWritten, AreTextsWith, AreTextsWritten};
ghost use Rattle.erd_canon.specs.Words.{IsPreparationTold, IsPreparedAs, IsTextsRun};
ghost use Rattle.erd_canon.specs.code.PrepareCommands.{prepare_answers, unmarked_answers, IsRestBehindMark};

use crate::devices::sink::Sink;
use crate::devices::source::{Source, read_all};
use crate::engines::outcome::{Outcome, RunFault};
use crate::engines::prepare_texts::{Texts, listed_texts, prepared_texts, told_texts};
use crate::engines::write_and_flush::write_both;
use erd_prepare::{StepName, steps_named};
use std::alloc::{AllocError, Global};

/// A command that prepares a report or tells what would prepare it.
#[derive(Clone, Copy)]
pub(crate) enum PrepareCommand {
    Prepare,
    TryAll,
    Tell,
}

/// Returns the steps that a caller asks for by these words, with commas between them: names of steps, and names of groups for all
/// their steps. Without words it is the group `removed`. The answer is `None` if a word names nothing.
///
/// # Errors
///
/// `AllocError` if out of memory.
///
/// ```
/// assert!(rt; steps_asked(alloc, Some("nulls,no-step"))?.is_none());
/// ```
pub fn steps_asked(alloc: Global, words: Option<&str>) -> Result<Option<Vec<StepName>>, AllocError>
    ensures { IfOk result (λ found. option_map (λ steps. steps.items) found ≡ asked_steps (option_copied words.entry)) }
{
    steps_named(alloc, words.unwrap_or("removed"))
}

/// Reads a report to its end, does these steps on it, checks what they made of it under a preferred type of identifier, or
/// under none, writes the prepared report to `out` and what was done to `err`, and flushes `out` and then `err`.
///
/// The prepared report is written as compact JSON with no line end, the members of each object in the order of their names. To
/// `err` go a line such as `numbers: 3 changed` if reading changes the texts of numbers, a line for each step that changed or
/// left something, such as `codes: 2 changed, 1 left`, and then, if the prepared report is refused, the lines that
/// `run_check_with` writes for it, and a line for each reason: which steps may fix it, and what to ask the vendor for. It is
/// written all the same, and the outcome is `Bad`. For bytes that are not JSON, it writes the line `not JSON` to `err`. A byte
/// order mark before the report is taken off, and `err` then begins with a line that says so.
///
/// Each line ends with one line feed. A report may have at most 67,108,864 bytes. The devices must not have failed before the
/// call. After a failure, the run reads, writes and flushes nothing more.
///
/// # Errors
///
/// - `RunFault::Read` if and only if a read failed.
/// - `RunFault::Write` if and only if a write or a flush failed.
/// - `RunFault::TooLong` if a reader gave more than 67,108,864 bytes.
/// - `RunFault::Memory` if out of memory.
///
/// ```
/// let outcome = run_prepare(alloc, &mut reader, &mut out, &mut err, &chosen, None)?;
/// assert_eq!(rt; outcome, Outcome::Good);
/// assert_eq!(rt; err.writer.as_slice(), "nulls: 1 changed\n".as_bytes());
/// ```
pub fn run_prepare<S: Source, O: Sink, E: Sink>(
    alloc: Global,
    reader: &mut S,
    out: &mut O,
    err: &mut E,
    chosen: &[StepName],
    prefer: Option<&str>,
) -> Result<Outcome, RunFault>
    requires reader_works { S.reader.has_failed reader.old ≡ false }
    requires out_works { O.writer.has_failed out.old ≡ false }
    requires err_works { E.writer.has_failed err.old ≡ false }
    ensures { IsTextsRun S.reader O.writer E.writer (IsPreparedAs (option_copied prefer.entry) chosen.now) result
        (between reader.old reader.new) (between out.old out.new) (between err.old err.new) }
{
    let asked = (PrepareCommand::Prepare, chosen, prefer);
    run_asked(alloc, reader, out, err, asked)
}

/// Reads a report to its end, tries each step on it, writes to `out` what each would change, and flushes `out` and then `err`.
///
/// It writes a line for each step that would change or leave something in the report as it was read, such as
/// `nulls (removed): 3 changed`, in the order of the steps. For bytes that are not JSON, it writes the line `not JSON` to `err`.
/// Otherwise as `run_prepare`.
///
/// # Errors
///
/// As `run_prepare`.
///
/// ```
/// let outcome = run_prepare_list(alloc, &mut reader, &mut out, &mut err)?;
/// assert_eq!(rt; outcome, Outcome::Good);
/// assert_eq!(rt; out.writer.as_slice(), "nulls (removed): 1 changed\n".as_bytes());
/// ```
pub fn run_prepare_list<S: Source, O: Sink, E: Sink>(
    alloc: Global,
    reader: &mut S,
    out: &mut O,
    err: &mut E,
) -> Result<Outcome, RunFault>
    requires reader_works { S.reader.has_failed reader.old ≡ false }
    requires out_works { O.writer.has_failed out.old ≡ false }
    requires err_works { E.writer.has_failed err.old ≡ false }
    ensures { IsTextsRun S.reader O.writer E.writer AreStepsListed result
        (between reader.old reader.new) (between out.old out.new) (between err.old err.new) }
{
    let no_step: &[StepName] = &[];
    let asked = (PrepareCommand::TryAll, no_step, None);
    run_asked(alloc, reader, out, err, asked)
}

/// Reads a report to its end, does these steps on it, writes to `out` what they did and what the other steps would do, and
/// flushes `out` and then `err`.
///
/// It writes the JSON array that `prepare_bytes` tells with `Others::Told`, and one line feed. For bytes that are not JSON, it
/// writes the line `not JSON` to `err`. Otherwise as `run_prepare`.
///
/// # Errors
///
/// As `run_prepare`.
///
/// ```
/// let outcome = run_prepare_report(alloc, &mut reader, &mut out, &mut err, &chosen)?;
/// assert_eq!(rt; outcome, Outcome::Good);
/// assert_eq!(rt; out.writer.as_slice(), "[]\n".as_bytes());
/// ```
pub fn run_prepare_report<S: Source, O: Sink, E: Sink>(
    alloc: Global,
    reader: &mut S,
    out: &mut O,
    err: &mut E,
    chosen: &[StepName],
) -> Result<Outcome, RunFault>
    requires reader_works { S.reader.has_failed reader.old ≡ false }
    requires out_works { O.writer.has_failed out.old ≡ false }
    requires err_works { E.writer.has_failed err.old ≡ false }
    ensures { IsTextsRun S.reader O.writer E.writer (IsPreparationTold chosen.now) result
        (between reader.old reader.new) (between out.old out.new) (between err.old err.new) }
{
    let asked = (PrepareCommand::Tell, chosen, None);
    run_asked(alloc, reader, out, err, asked)
}

// Reads the report and writes what the command answers. The command comes with its steps and its preference.
fn run_asked<S: Source, O: Sink, E: Sink>(
    alloc: Global,
    reader: &mut S,
    out: &mut O,
    err: &mut E,
    asked: (PrepareCommand, &[StepName], Option<&str>),
) -> Result<Outcome, RunFault>
    requires reader_works { S.reader.has_failed reader.old ≡ false }
    requires out_works { O.writer.has_failed out.old ≡ false }
    requires err_works { E.writer.has_failed err.old ≡ false }
    ensures { IsTextsRun S.reader O.writer E.writer (prepare_answers asked.entry.0 asked.entry.1.now (option_copied asked.entry.2)) result
        (between reader.old reader.new) (between out.old out.new) (between err.old err.new) }
{
    let bytes = read_all(alloc, reader)?;
    write_asked(alloc, bytes.as_slice(), out, err, asked)
}

// Writes what the command answers for the bytes.
fn write_asked<O: Sink, E: Sink>(
    alloc: Global,
    bytes: &[u8],
    out: &mut O,
    err: &mut E,
    asked: (PrepareCommand, &[StepName], Option<&str>),
) -> Result<Outcome, RunFault>
    requires out_works { O.writer.has_failed out.old ≡ false }
    requires err_works { E.writer.has_failed err.old ≡ false }
    ensures written { IfOk result (λ outcome. AreTextsWritten (prepare_answers asked.entry.0 asked.entry.1.now (option_copied asked.entry.2)) bytes.now outcome
        (O.writer.contents out.old) (O.writer.contents out.new) (E.writer.contents err.old) (E.writer.contents err.new)) }
    ensures flushed { OnOk result ((O.writer.is_flushed out.new ≡ true) × (E.writer.is_flushed err.new ≡ true)) }
    ensures works { OnOk result ((O.writer.has_failed out.new ≡ false) × (E.writer.has_failed err.new ≡ false)) }
    ensures memory { result ≡ Err RunFault.Memory → (out.new ≡ out.old) × (err.new ≡ err.old) }
    ensures broken { result ≡ Err RunFault.Write → AreTextsPartWritten (prepare_answers asked.entry.0 asked.entry.1.now (option_copied asked.entry.2)) bytes.now
        (O.writer.contents out.old) (O.writer.contents out.new) (E.writer.contents err.old) (E.writer.contents err.new) }
    ensures write { result ≡ Err RunFault.Write
        → (O.writer.has_failed out.new ≡ true) ⊎ (E.writer.has_failed err.new ≡ true) }
    ensures faults { IfErr result (λ fault. (fault ≡ RunFault.Memory) ⊎ (fault ≡ RunFault.Write)) }
    ensures out_first { O.writer.has_failed out.new ≡ true → O.writer.flushes out.new ≡ O.writer.flushes out.old → err.new ≡ err.old }
    ensures writes_first { E.writer.has_failed err.new ≡ true → E.writer.flushes err.new ≡ E.writer.flushes err.old → O.writer.flushes out.new
        ≡ O.writer.flushes out.old }
    ensures flush_order { (E.writer.flushes err.new ≡ E.writer.flushes err.old) ⊎ (O.writer.is_flushed out.new ≡ true) }
    ensures out_needed { O.writer.has_failed out.new ≡ true → O.writer.flushes out.new ≡ O.writer.flushes out.old
        → AreTextsWith (prepare_answers asked.entry.0 asked.entry.1.now (option_copied asked.entry.2)) (λ out_text _. 0 < length out_text) bytes.now }
    ensures err_needed { E.writer.has_failed err.new ≡ true → E.writer.flushes err.new ≡ E.writer.flushes err.old
        → AreTextsWith (prepare_answers asked.entry.0 asked.entry.1.now (option_copied asked.entry.2)) (λ _ err_text. 0 < length err_text) bytes.now }
{
    let texts = texts_of(alloc, bytes, asked)?;
    write_both(
        out,
        err,
        texts.outcome,
        texts.out.as_slice(),
        texts.err.as_bytes(),
    )
}

// Returns what the command answers for the bytes.
fn texts_of(
    alloc: Global,
    bytes: &[u8],
    asked: (PrepareCommand, &[StepName], Option<&str>),
) -> Result<Texts, AllocError>
    ensures { IfOk result (λ texts. prepare_answers asked.entry.0 asked.entry.1.now (option_copied asked.entry.2) bytes.now texts.outcome texts.out.items
        (string_bytes texts.err)) }
{
    match behind_mark(bytes) {
        Some(rest) => {
            let texts = unmarked_texts(alloc, rest, asked)?;
            with_mark_told(alloc, texts)
        }
        None => unmarked_texts(alloc, bytes, asked),
    }
}

// Returns what follows the byte order mark that the bytes begin with, if they do.
fn behind_mark(bytes: &[u8]) -> Option<&[u8]>
    ensures { IsRestBehindMark bytes.now result }
{
    bytes.strip_prefix(&[0xef, 0xbb, 0xbf])
}

// Returns what the command answers for bytes with no byte order mark before them.
fn unmarked_texts(
    alloc: Global,
    bytes: &[u8],
    asked: (PrepareCommand, &[StepName], Option<&str>),
) -> Result<Texts, AllocError>
    ensures { IfOk result (λ texts. unmarked_answers asked.entry.0 asked.entry.1.now (option_copied asked.entry.2) bytes.now texts.outcome texts.out.items
        (string_bytes texts.err)) }
{
    let (command, chosen, prefer) = asked;
    match command {
        PrepareCommand::Prepare => prepared_texts(alloc, bytes, chosen, prefer),
        PrepareCommand::TryAll => listed_texts(alloc, bytes),
        PrepareCommand::Tell => told_texts(alloc, bytes, chosen),
    }
}

// Returns the texts with a line before the errors which says that a byte order mark was taken off.
fn with_mark_told(alloc: Global, texts: Texts) -> Result<Texts, AllocError>
    ensures outcome { IfOk result (λ told. told.outcome ≡ texts.outcome) }
    ensures out { IfOk result (λ told. told.out.items ≡ texts.out.items) }
    ensures err { IfOk result (λ told. string_bytes told.err ≡ text_of_lines (codes "byte order mark: taken off" ∷ []) ++ string_bytes texts.err) }
{
    let mut err = String::from_str(alloc, "byte order mark: taken off\n")?;
    err.push_str(&texts.err)?;
    Ok(Texts {
        outcome: texts.outcome,
        out: texts.out,
        err,
    })
}
