ghost use Rattle.std.specs.Prelude.{ℕ, List, ◌≡◌, ◌⊎◌, false, true, Err, IfErr, IfOk, OnOk, None, option_copied};
ghost use Rattle.erd_canon.specs.Words.{between, IsCanonRun, IsCheckRun, IsRefusal, IsSomeReport, IsAnswerWritten, IsAnswerPartWritten};
ghost use Rattle.erd_canon.specs.Words.{IsCheckWritten, IsCheckPartWritten};

use crate::bytes::acceptance::check_input;
use crate::bytes::canonical::canonical_of_input;
use crate::bytes::disposal::{Disposal, Free};
use crate::bytes::refusal::Refusal;
use crate::devices::sink::Sink;
use crate::devices::source::{Source, read_all};
use crate::engines::outcome::{Outcome, RunFault};
use crate::engines::write_and_flush::{write_both, write_faults, write_faults_to_err, write_one};
use std::alloc::Global;

/// Reads a report, checks it, and writes whether it is accepted, as `run_check_with` does with no preference.
///
/// # Errors
///
/// - `RunFault::Read` if and only if a read failed.
/// - `RunFault::Write` if and only if a write or a flush failed.
/// - `RunFault::TooLong` if a reader gave more than 67,108,864 bytes.
/// - `RunFault::Memory` if out of memory.
///
/// ```
/// let mut reader = ReadFrom::of(REPORT.as_bytes());
/// let mut out = WriteTo::of(Vec::new(alloc));
/// let outcome = run_check(alloc, &mut reader, &mut out)?;
/// assert_eq!(rt; outcome, Outcome::Good);
/// assert_eq!(rt; out.writer.as_slice(), "accepted\n".as_bytes());
/// ```
pub fn run_check<S: Source, O: Sink>(
    alloc: Global,
    reader: &mut S,
    out: &mut O,
) -> Result<Outcome, RunFault>
    requires reader_works { S.reader.has_failed reader.old ≡ false }
    requires out_works { O.writer.has_failed out.old ≡ false }
    ensures { IsCheckRun S.reader O.writer None result (between reader.old reader.new) (between out.old out.new) }
{
    run_check_with(alloc, reader, out, None)
}

/// Reads a report to its end, checks it under a preferred type of identifier, or under none, writes to `out` whether it is
/// accepted, and flushes `out`.
///
/// It writes `accepted`, or one line for each fault, or `not JSON`. It ends each line with one line feed, and writes nothing
/// else. A report may have at most 67,108,864 bytes. The devices must not have failed before the call. After a failure, the
/// run reads, writes and flushes nothing more.
///
/// # Errors
///
/// - `RunFault::Read` if and only if a read failed.
/// - `RunFault::Write` if and only if a write or a flush failed.
/// - `RunFault::TooLong` if a reader gave more than 67,108,864 bytes.
/// - `RunFault::Memory` if out of memory.
///
/// ```
/// assert_eq!(rt; run_check_with(alloc, &mut reader, &mut out, prefer)?, Outcome::Good);
/// ```
pub fn run_check_with<S: Source, O: Sink>(
    alloc: Global,
    reader: &mut S,
    out: &mut O,
    prefer: Option<&str>,
) -> Result<Outcome, RunFault>
    requires reader_works { S.reader.has_failed reader.old ≡ false }
    requires out_works { O.writer.has_failed out.old ≡ false }
    ensures { IsCheckRun S.reader O.writer (option_copied prefer.entry) result (between reader.old reader.new) (between out.old out.new) }
{
    run_check_disposing(alloc, reader, out, prefer, &Free)
}

/// Reads a report, checks it, and writes whether it is accepted, as `run_check_with` does, and hands the tree and the report to
/// the disposal when it no longer needs them.
///
/// A program that ends after the run can leave them to the system, which is faster than to free them. The tree goes to the
/// disposal whatever the outcome is, and the report if it is accepted.
///
/// # Errors
///
/// - `RunFault::Read` if and only if a read failed.
/// - `RunFault::Write` if and only if a write or a flush failed.
/// - `RunFault::TooLong` if a reader gave more than 67,108,864 bytes.
/// - `RunFault::Memory` if out of memory.
///
/// ```
/// let outcome = run_check_disposing(alloc, &mut reader, &mut out, prefer, disposal)?;
/// assert_eq!(rt; outcome, Outcome::Good);
/// ```
pub fn run_check_disposing<S: Source, O: Sink, D: Disposal>(
    alloc: Global,
    reader: &mut S,
    out: &mut O,
    prefer: Option<&str>,
    disposal: &D,
) -> Result<Outcome, RunFault>
    requires reader_works { S.reader.has_failed reader.old ≡ false }
    requires out_works { O.writer.has_failed out.old ≡ false }
    ensures { IsCheckRun S.reader O.writer (option_copied prefer.entry) result (between reader.old reader.new) (between out.old out.new) }
{
    let bytes = read_all(alloc, reader)?;
    write_checked(alloc, bytes, out, prefer, disposal)
}

// Checks the bytes and writes the result.
fn write_checked<O: Sink, D: Disposal>(
    alloc: Global,
    bytes: Vec<u8>,
    out: &mut O,
    prefer: Option<&str>,
    disposal: &D,
) -> Result<Outcome, RunFault>
    requires { O.writer.has_failed out.old ≡ false }
    ensures written { IfOk result (λ outcome. IsCheckWritten (option_copied prefer.entry) bytes.items outcome (O.writer.contents out.old)
        (O.writer.contents out.new)) }
    ensures flushed { OnOk result (O.writer.is_flushed out.new ≡ true) }
    ensures works { OnOk result (O.writer.has_failed out.new ≡ false) }
    ensures memory { result ≡ Err RunFault.Memory → out.new ≡ out.old }
    ensures broken { result ≡ Err RunFault.Write → IsCheckPartWritten (option_copied prefer.entry) bytes.items (O.writer.contents out.old)
        (O.writer.contents out.new) }
    ensures write { result ≡ Err RunFault.Write → O.writer.has_failed out.new ≡ true }
    ensures faults { IfErr result (λ fault. (fault ≡ RunFault.Memory) ⊎ (fault ≡ RunFault.Write)) }
{
    match check_input(alloc, bytes, prefer, disposal) {
        Ok(()) => write_one(out, Outcome::Good, b"accepted\n"),
        Err(Refusal::Faults(faults)) => write_faults(alloc, out, &faults),
        Err(Refusal::NotJson) => write_one(out, Outcome::NotJson, b"not JSON\n"),
        Err(Refusal::Memory) => Err(RunFault::Memory),
    }
}

/// Reads a report, checks it, and writes its canonical bytes, as `run_canon_with` does with no preference.
///
/// # Errors
///
/// - `RunFault::Read` if and only if a read failed.
/// - `RunFault::Write` if and only if a write or a flush failed.
/// - `RunFault::TooLong` if a reader gave more than 67,108,864 bytes.
/// - `RunFault::Memory` if out of memory.
///
/// ```
/// let mut reader = ReadFrom::of(REPORT.as_bytes());
/// let mut out = WriteTo::of(Vec::new(alloc));
/// let mut err = WriteTo::of(Vec::new(alloc));
/// let outcome = run_canon(alloc, &mut reader, &mut out, &mut err)?;
/// assert_eq!(rt; outcome.status(), 0);
/// assert_eq!(rt; out.writer.as_slice(), CANONICAL.as_bytes());
/// ```
pub fn run_canon<S: Source, O: Sink, E: Sink>(
    alloc: Global,
    reader: &mut S,
    out: &mut O,
    err: &mut E,
) -> Result<Outcome, RunFault>
    requires reader_works { S.reader.has_failed reader.old ≡ false }
    requires out_works { O.writer.has_failed out.old ≡ false }
    requires err_works { E.writer.has_failed err.old ≡ false }
    ensures { IsCanonRun S.reader O.writer E.writer None result (between reader.old reader.new) (between out.old out.new) (between err.old err.new) }
{
    run_canon_with(alloc, reader, out, err, None)
}

/// Reads a report to its end, checks it under a preferred type of identifier, or under none, writes its canonical bytes to
/// `out`, and flushes `out` and then `err`.
///
/// For an accepted report, it writes the canonical bytes, as `canonical_with` returns them, to `out`, with no line end, and
/// nothing to `err`. For a report that is refused, it writes nothing to `out`, and one line for each fault to `err`. For
/// bytes that are not JSON, it writes the line `not JSON` to `err`. It ends each line with one line feed. A report may have
/// at most 67,108,864 bytes. The devices must not have failed before the call. After a failure, the run reads, writes and
/// flushes nothing more.
///
/// # Errors
///
/// - `RunFault::Read` if and only if a read failed.
/// - `RunFault::Write` if and only if a write or a flush failed.
/// - `RunFault::TooLong` if a reader gave more than 67,108,864 bytes.
/// - `RunFault::Memory` if out of memory.
///
/// ```
/// assert_eq!(rt; run_canon_with(alloc, &mut reader, &mut out, &mut err, prefer)?, Outcome::Good);
/// ```
pub fn run_canon_with<S: Source, O: Sink, E: Sink>(
    alloc: Global,
    reader: &mut S,
    out: &mut O,
    err: &mut E,
    prefer: Option<&str>,
) -> Result<Outcome, RunFault>
    requires reader_works { S.reader.has_failed reader.old ≡ false }
    requires out_works { O.writer.has_failed out.old ≡ false }
    requires err_works { E.writer.has_failed err.old ≡ false }
    ensures { IsCanonRun S.reader O.writer E.writer (option_copied prefer.entry) result
        (between reader.old reader.new) (between out.old out.new) (between err.old err.new) }
{
    run_canon_disposing(alloc, reader, out, err, prefer, &Free)
}

/// Reads a report, checks it, and writes its canonical bytes, as `run_canon_with` does, and hands the tree and the report to the
/// disposal when it no longer needs them.
///
/// A program that ends after the run can leave them to the system, which is faster than to free them. The tree goes to the
/// disposal whatever the outcome is, and the report if it is accepted.
///
/// # Errors
///
/// - `RunFault::Read` if and only if a read failed.
/// - `RunFault::Write` if and only if a write or a flush failed.
/// - `RunFault::TooLong` if a reader gave more than 67,108,864 bytes.
/// - `RunFault::Memory` if out of memory.
///
/// ```
/// let outcome = run_canon_disposing(alloc, &mut reader, &mut out, &mut err, prefer, disposal)?;
/// assert_eq!(rt; outcome, Outcome::Good);
/// ```
pub fn run_canon_disposing<S: Source, O: Sink, E: Sink, D: Disposal>(
    alloc: Global,
    reader: &mut S,
    out: &mut O,
    err: &mut E,
    prefer: Option<&str>,
    disposal: &D,
) -> Result<Outcome, RunFault>
    requires reader_works { S.reader.has_failed reader.old ≡ false }
    requires out_works { O.writer.has_failed out.old ≡ false }
    requires err_works { E.writer.has_failed err.old ≡ false }
    ensures { IsCanonRun S.reader O.writer E.writer (option_copied prefer.entry) result
        (between reader.old reader.new) (between out.old out.new) (between err.old err.new) }
{
    let bytes = read_all(alloc, reader)?;
    write_answer(alloc, bytes, out, err, prefer, disposal)
}

// Canonicalises the bytes and writes the result.
fn write_answer<O: Sink, E: Sink, D: Disposal>(
    alloc: Global,
    bytes: Vec<u8>,
    out: &mut O,
    err: &mut E,
    prefer: Option<&str>,
    disposal: &D,
) -> Result<Outcome, RunFault>
    requires out_works { O.writer.has_failed out.old ≡ false }
    requires err_works { E.writer.has_failed err.old ≡ false }
    ensures written { IfOk result (λ outcome. IsAnswerWritten (option_copied prefer.entry) bytes.items outcome (O.writer.contents out.old)
        (O.writer.contents out.new)
        (E.writer.contents err.old) (E.writer.contents err.new)) }
    ensures flushed { OnOk result ((O.writer.is_flushed out.new ≡ true) × (E.writer.is_flushed err.new ≡ true)) }
    ensures works { OnOk result ((O.writer.has_failed out.new ≡ false) × (E.writer.has_failed err.new ≡ false)) }
    ensures memory { result ≡ Err RunFault.Memory → (out.new ≡ out.old) × (err.new ≡ err.old) }
    ensures broken { result ≡ Err RunFault.Write → IsAnswerPartWritten (option_copied prefer.entry) bytes.items (O.writer.contents out.old)
        (O.writer.contents out.new)
        (E.writer.contents err.old) (E.writer.contents err.new) }
    ensures write { result ≡ Err RunFault.Write
        → (O.writer.has_failed out.new ≡ true) ⊎ (E.writer.has_failed err.new ≡ true) }
    ensures faults { IfErr result (λ fault. (fault ≡ RunFault.Memory) ⊎ (fault ≡ RunFault.Write)) }
    ensures out_first { O.writer.has_failed out.new ≡ true → O.writer.flushes out.new ≡ O.writer.flushes out.old → err.new ≡ err.old }
    ensures writes_first { E.writer.has_failed err.new ≡ true → E.writer.flushes err.new ≡ E.writer.flushes err.old → O.writer.flushes out.new
        ≡ O.writer.flushes out.old }
    ensures flush_order { (E.writer.flushes err.new ≡ E.writer.flushes err.old) ⊎ (O.writer.is_flushed out.new ≡ true) }
    ensures out_needed { O.writer.has_failed out.new ≡ true → O.writer.flushes out.new ≡ O.writer.flushes out.old
        → IsSomeReport (option_copied prefer.entry) bytes.items }
    ensures err_needed { E.writer.has_failed err.new ≡ true → E.writer.flushes err.new ≡ E.writer.flushes err.old → (lines : List (List ℕ))
        × IsRefusal (option_copied prefer.entry) bytes.items lines }
{
    match canonical_of_input(alloc, bytes, prefer, disposal) {
        Ok(text) => write_both(out, err, Outcome::Good, text.as_slice(), &[]),
        Err(Refusal::Faults(faults)) => write_faults_to_err(alloc, out, err, &faults),
        Err(Refusal::NotJson) => write_both(out, err, Outcome::NotJson, &[], b"not JSON\n"),
        Err(Refusal::Memory) => Err(RunFault::Memory),
    }
}
