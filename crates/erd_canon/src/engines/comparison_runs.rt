//! The engine of `erd compare`.
ghost use Rattle.std.specs.Prelude.{◌≡◌, ◌⊎◌, false, true, Err, IfErr, IfOk, OnOk, None, option_copied};
ghost use Rattle.erd_canon.specs.Words.{between, IsCompareRun};
ghost use Rattle.erd_canon.specs.Words.{IsCompareWritten, IsComparePartWritten};

use crate::bytes::comparison::compare_inputs;
use crate::bytes::disposal::{Disposal, Free};
use crate::bytes::refusal::Side;
use crate::devices::sink::Sink;
use crate::devices::source::{Source, read_all};
use crate::engines::outcome::{Outcome, RunFault};
use crate::engines::write_and_flush::{difference_text, write_one, write_refusal};
use std::alloc::Global;

/// Reads two reports, compares them, and writes the result, as `run_compare_with` does with no preference.
///
/// # Errors
///
/// - `RunFault::Read` if and only if a read failed.
/// - `RunFault::Write` if and only if a write or a flush failed.
/// - `RunFault::TooLong` if a reader gave more than 67,108,864 bytes.
/// - `RunFault::Memory` if out of memory.
///
/// ```
/// let mut left = ReadFrom::of(REPORT.as_bytes());
/// let mut right = ReadFrom::of(OTHER_NAME.as_bytes());
/// let mut out = WriteTo::of(Vec::new(alloc));
/// let outcome = run_compare(alloc, &mut left, &mut right, &mut out)?;
/// assert_eq!(rt; outcome.status(), 1);
/// ```
pub fn run_compare<S: Source, T: Source, O: Sink>(
    alloc: Global,
    left: &mut S,
    right: &mut T,
    out: &mut O,
) -> Result<Outcome, RunFault>
    requires left_works { S.reader.has_failed left.old ≡ false }
    requires right_works { T.reader.has_failed right.old ≡ false }
    requires out_works { O.writer.has_failed out.old ≡ false }
    ensures { IsCompareRun S.reader T.reader O.writer None result (between left.old left.new) (between right.old right.new) (between out.old out.new) }
{
    run_compare_with(alloc, left, right, out, None)
}

/// Reads two reports to their ends, first the left report and then the right one, compares them under a preferred type of
/// identifier, or under none, writes the result to `out`, and flushes `out`.
///
/// It writes `same`, or the line of the first difference. If the left report is refused, or else if the right one is, it
/// writes the lines that `run_check_with` writes for that report, each after `left: ` or `right: `. It ends each line with
/// one line feed, and writes nothing else. A report may have at most 67,108,864 bytes. The devices must not have failed
/// before the call. After a failure, the run reads, writes and flushes nothing more.
///
/// # Errors
///
/// - `RunFault::Read` if and only if a read failed.
/// - `RunFault::Write` if and only if a write or a flush failed.
/// - `RunFault::TooLong` if a reader gave more than 67,108,864 bytes.
/// - `RunFault::Memory` if out of memory.
///
/// ```
/// assert_eq!(rt; run_compare_with(alloc, &mut left, &mut right, &mut out, prefer)?, Outcome::Good);
/// assert_eq!(rt; out.writer.as_slice(), "same\n".as_bytes());
/// ```
pub fn run_compare_with<S: Source, T: Source, O: Sink>(
    alloc: Global,
    left: &mut S,
    right: &mut T,
    out: &mut O,
    prefer: Option<&str>,
) -> Result<Outcome, RunFault>
    requires left_works { S.reader.has_failed left.old ≡ false }
    requires right_works { T.reader.has_failed right.old ≡ false }
    requires out_works { O.writer.has_failed out.old ≡ false }
    ensures { IsCompareRun S.reader T.reader O.writer (option_copied prefer.entry) result
        (between left.old left.new) (between right.old right.new) (between out.old out.new) }
{
    run_compare_disposing(alloc, left, right, out, prefer, &Free)
}

/// Reads two reports, compares them, and writes the result, as `run_compare_with` does, and hands the trees and the reports to
/// the disposal when it no longer needs them.
///
/// A program that ends after the run can leave them to the system, which is faster than to free them. A tree goes to the
/// disposal whatever the outcome is, and a report if it is accepted.
///
/// # Errors
///
/// - `RunFault::Read` if and only if a read failed.
/// - `RunFault::Write` if and only if a write or a flush failed.
/// - `RunFault::TooLong` if a reader gave more than 67,108,864 bytes.
/// - `RunFault::Memory` if out of memory.
///
/// ```
/// let outcome = run_compare_disposing(alloc, &mut left, &mut right, &mut out, prefer, disposal)?;
/// assert_eq!(rt; outcome, Outcome::Good);
/// ```
pub fn run_compare_disposing<S: Source, T: Source, O: Sink, D: Disposal>(
    alloc: Global,
    left: &mut S,
    right: &mut T,
    out: &mut O,
    prefer: Option<&str>,
    disposal: &D,
) -> Result<Outcome, RunFault>
    requires left_works { S.reader.has_failed left.old ≡ false }
    requires right_works { T.reader.has_failed right.old ≡ false }
    requires out_works { O.writer.has_failed out.old ≡ false }
    ensures { IsCompareRun S.reader T.reader O.writer (option_copied prefer.entry) result
        (between left.old left.new) (between right.old right.new) (between out.old out.new) }
{
    let left_bytes = read_all(alloc, left)?;
    let right_bytes = read_all(alloc, right)?;
    write_compared(alloc, left_bytes, right_bytes, out, prefer, disposal)
}

// Compares the bytes of two reports and writes the result.
fn write_compared<O: Sink, D: Disposal>(
    alloc: Global,
    left: Vec<u8>,
    right: Vec<u8>,
    out: &mut O,
    prefer: Option<&str>,
    disposal: &D,
) -> Result<Outcome, RunFault>
    requires { O.writer.has_failed out.old ≡ false }
    ensures written { IfOk result (λ outcome. IsCompareWritten (option_copied prefer.entry) left.items right.items outcome (O.writer.contents out.old)
        (O.writer.contents out.new)) }
    ensures flushed { OnOk result (O.writer.is_flushed out.new ≡ true) }
    ensures works { OnOk result (O.writer.has_failed out.new ≡ false) }
    ensures memory { result ≡ Err RunFault.Memory → out.new ≡ out.old }
    ensures broken { result ≡ Err RunFault.Write
        → IsComparePartWritten (option_copied prefer.entry) left.items right.items (O.writer.contents out.old) (O.writer.contents out.new) }
    ensures write { result ≡ Err RunFault.Write → O.writer.has_failed out.new ≡ true }
    ensures faults { IfErr result (λ fault. (fault ≡ RunFault.Memory) ⊎ (fault ≡ RunFault.Write)) }
{
    match compare_inputs(alloc, left, right, prefer, disposal) {
        Ok(None) => write_one(out, Outcome::Good, b"same\n"),
        Ok(Some(difference)) => match difference_text(alloc, &difference) {
            Ok(text) => write_one(out, Outcome::Bad, text.as_slice()),
            Err(_) => Err(RunFault::Memory),
        },
        Err(Side::Left(refusal)) => write_refusal(alloc, b"left: ", &refusal, out),
        Err(Side::Right(refusal)) => write_refusal(alloc, b"right: ", &refusal, out),
        Err(Side::Memory) => Err(RunFault::Memory),
    }
}
