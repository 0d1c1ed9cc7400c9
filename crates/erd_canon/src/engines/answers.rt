//! What the engines that answer with one text write: it is in memory as a whole before.

ghost use Rattle.std.specs.Prelude.{◌≡◌, ◌⊎◌, false, true, map, string_bytes, Err, IfErr, IfOk, OnOk, option_copied};
ghost use Rattle.erd_canon.specs.Words.{difference_line, listing_lines, listing_outcome, text_of_lines, Appends, IsCheckLine, IsCompareLine, IsListed};
ghost use Rattle.erd_canon.specs.Words.{IsListLine, IsPairPartWritten, IsPairWritten, IsPartWritten, IsReportPartWritten, IsReportWritten};

use crate::bytes::differences::differences_of;
use crate::bytes::refusal::Side;
use crate::data::check::check_data_with;
use crate::data::compare::{compare_data_with, outcome_of};
use crate::data::listed::push_entry_line;
use crate::data::valued_pieces::differences_values;
use crate::devices::sink::Sink;
use crate::engines::asked::{write_line, write_piece_line};
use crate::engines::outcome::{Outcome, RunFault};
use crate::engines::write_and_flush::{write_one, write_refusal};
use erd_compare::DetailedDifference;
use std::alloc::{AllocError, Global};

/// Checks the bytes and writes the answer as JSON.
pub(crate) fn write_check_data<O: Sink>(
    alloc: Global,
    bytes: &[u8],
    out: &mut O,
    prefer: Option<&str>,
) -> Result<Outcome, RunFault>
    requires { O.writer.has_failed out.old ≡ false }
    ensures written { IfOk result (λ outcome. IsReportWritten (IsCheckLine (option_copied prefer.entry)) bytes.now outcome (O.writer.contents out.old)
        (O.writer.contents out.new)) }
    ensures flushed { OnOk result (O.writer.is_flushed out.new ≡ true) }
    ensures works { OnOk result (O.writer.has_failed out.new ≡ false) }
    ensures memory { result ≡ Err RunFault.Memory → out.new ≡ out.old }
    ensures broken { result ≡ Err RunFault.Write → IsReportPartWritten (IsCheckLine (option_copied prefer.entry)) bytes.now (O.writer.contents out.old)
        (O.writer.contents out.new) }
    ensures write { result ≡ Err RunFault.Write → O.writer.has_failed out.new ≡ true }
    ensures faults { IfErr result (λ fault. (fault ≡ RunFault.Memory) ⊎ (fault ≡ RunFault.Write)) }
{
    match check_data_with(alloc, bytes, prefer) {
        Ok(answer) => write_line(answer, out),
        Err(_) => Err(RunFault::Memory),
    }
}

/// Compares the bytes of two reports and writes the answer as JSON.
pub(crate) fn write_compare_data<O: Sink>(
    alloc: Global,
    left: &[u8],
    right: &[u8],
    out: &mut O,
    prefer: Option<&str>,
) -> Result<Outcome, RunFault>
    requires { O.writer.has_failed out.old ≡ false }
    ensures written { IfOk result (λ outcome. IsPairWritten (IsCompareLine (option_copied prefer.entry)) left.now right.now outcome (O.writer.contents out.old)
        (O.writer.contents out.new)) }
    ensures flushed { OnOk result (O.writer.is_flushed out.new ≡ true) }
    ensures works { OnOk result (O.writer.has_failed out.new ≡ false) }
    ensures memory { result ≡ Err RunFault.Memory → out.new ≡ out.old }
    ensures broken { result ≡ Err RunFault.Write
        → IsPairPartWritten (IsCompareLine (option_copied prefer.entry)) left.now right.now (O.writer.contents out.old) (O.writer.contents out.new) }
    ensures write { result ≡ Err RunFault.Write → O.writer.has_failed out.new ≡ true }
    ensures faults { IfErr result (λ fault. (fault ≡ RunFault.Memory) ⊎ (fault ≡ RunFault.Write)) }
{
    match compare_data_with(alloc, left, right, prefer) {
        Ok(answer) => write_line(answer, out),
        Err(_) => Err(RunFault::Memory),
    }
}

/// Lists the differences of the bytes of two reports with their values and writes the answer as JSON.
pub(crate) fn write_differences_data<O: Sink>(
    alloc: Global,
    left: &[u8],
    right: &[u8],
    out: &mut O,
    prefer: Option<&str>,
) -> Result<Outcome, RunFault>
    requires { O.writer.has_failed out.old ≡ false }
    ensures written { IfOk result (λ outcome. IsPairWritten (IsListLine (option_copied prefer.entry)) left.now right.now outcome (O.writer.contents out.old)
        (O.writer.contents out.new)) }
    ensures flushed { OnOk result (O.writer.is_flushed out.new ≡ true) }
    ensures works { OnOk result (O.writer.has_failed out.new ≡ false) }
    ensures memory { result ≡ Err RunFault.Memory → out.new ≡ out.old }
    ensures broken { result ≡ Err RunFault.Write
        → IsPairPartWritten (IsListLine (option_copied prefer.entry)) left.now right.now (O.writer.contents out.old) (O.writer.contents out.new) }
    ensures write { result ≡ Err RunFault.Write → O.writer.has_failed out.new ≡ true }
    ensures faults { IfErr result (λ fault. (fault ≡ RunFault.Memory) ⊎ (fault ≡ RunFault.Write)) }
{
    match differences_values(alloc, left, right, prefer) {
        Ok(answer) => write_piece_line(answer, out),
        Err(_) => Err(RunFault::Memory),
    }
}

/// Lists the differences of the bytes of two reports, a line each.
pub(crate) fn write_listed<O: Sink>(
    alloc: Global,
    left: &[u8],
    right: &[u8],
    out: &mut O,
    prefer: Option<&str>,
) -> Result<Outcome, RunFault>
    requires { O.writer.has_failed out.old ≡ false }
    ensures written { IfOk result (λ outcome. IsPairWritten (IsListed (option_copied prefer.entry)) left.now right.now outcome (O.writer.contents out.old)
        (O.writer.contents out.new)) }
    ensures flushed { OnOk result (O.writer.is_flushed out.new ≡ true) }
    ensures works { OnOk result (O.writer.has_failed out.new ≡ false) }
    ensures memory { result ≡ Err RunFault.Memory → out.new ≡ out.old }
    ensures broken { result ≡ Err RunFault.Write
        → IsPairPartWritten (IsListed (option_copied prefer.entry)) left.now right.now (O.writer.contents out.old) (O.writer.contents out.new) }
    ensures write { result ≡ Err RunFault.Write → O.writer.has_failed out.new ≡ true }
    ensures faults { IfErr result (λ fault. (fault ≡ RunFault.Memory) ⊎ (fault ≡ RunFault.Write)) }
{
    // no line tells what differs inside selections
    match differences_of(alloc, left, right, prefer, usize::MAX, 0) {
        Ok(found) => write_found(alloc, &found, out),
        Err(Side::Left(refusal)) => write_refusal(alloc, b"left: ", &refusal, out),
        Err(Side::Right(refusal)) => write_refusal(alloc, b"right: ", &refusal, out),
        Err(Side::Memory) => Err(RunFault::Memory),
    }
}

// Writes the lines for the differences of two accepted reports.
fn write_found<O: Sink>(
    alloc: Global,
    found: &[DetailedDifference],
    out: &mut O,
) -> Result<Outcome, RunFault>
    requires { O.writer.has_failed out.old ≡ false }
    ensures outcome { IfOk result (λ outcome. outcome ≡ listing_outcome found.now) }
    ensures wrote { OnOk result (Appends (O.writer.contents out.old) (O.writer.contents out.new)
        (text_of_lines (listing_lines (map (λ d. d.difference) found.now)))) }
    ensures flushed { OnOk result (O.writer.is_flushed out.new ≡ true) }
    ensures works { OnOk result (O.writer.has_failed out.new ≡ false) }
    ensures memory { result ≡ Err RunFault.Memory → out.new ≡ out.old }
    ensures broken { result ≡ Err RunFault.Write
        → IsPartWritten (O.writer.contents out.old) (O.writer.contents out.new) (text_of_lines (listing_lines (map (λ d. d.difference) found.now))) }
    ensures write { result ≡ Err RunFault.Write → O.writer.has_failed out.new ≡ true }
    ensures faults { IfErr result (λ fault. (fault ≡ RunFault.Memory) ⊎ (fault ≡ RunFault.Write)) }
{
    let text = listing_text(alloc, found)?;
    write_one(out, outcome_of(found), text.as_bytes())
}

// The lines for the differences of two accepted reports, each ended by one line feed.
fn listing_text(alloc: Global, found: &[DetailedDifference]) -> Result<String, AllocError>
    ensures { IfOk result (λ text. string_bytes text ≡ text_of_lines (listing_lines (map (λ d. d.difference) found.now))) }
{
    if found.is_empty() {
        return String::from_str(alloc, "same\n");
    }
    lines_of(alloc, found)
}

// The lines of the differences, each ended by one line feed.
fn lines_of(alloc: Global, found: &[DetailedDifference]) -> Result<String, AllocError>
    ensures { IfOk result (λ text. string_bytes text ≡ text_of_lines (map (λ d. difference_line d.difference) found.now)) }
{
    let mut text = String::new(alloc);
    for difference in found {
        push_entry_line(alloc, "", difference, &mut text)?;
    }
    Ok(text)
}
