//! What the engines for ballots write.

ghost use Rattle.std.specs.Prelude.{◌≡◌, ◌⊎◌, false, true, Err, IfErr, IfOk, OnOk, option_copied};
ghost use Rattle.erd_canon.specs.Words.{IsBallotDifferenceLines, IsBallotDifferencesLine, IsBallotLines, IsBallotsLine, IsPairPartWritten, IsPairWritten};
ghost use Rattle.erd_canon.specs.Words.{IsReportPartWritten, IsReportWritten};

use crate::bytes::refusal::Side;
use crate::data::ballot_pairs::{PairForm, ballot_differences_data_with, ballots_of_both};
use crate::data::ballots::{BallotForm, BallotsAsked, ballots_data_with, ballots_of};
use crate::devices::sink::Sink;
use crate::engines::asked::write_line;
use crate::engines::outcome::{Outcome, RunFault};
use crate::engines::write_and_flush::{write_one, write_refusal};
use std::alloc::Global;

/// Writes a line for each ballot of the bytes, or why they are refused.
pub(crate) fn write_ballots<O: Sink>(
    alloc: Global,
    bytes: &[u8],
    out: &mut O,
    prefer: Option<&str>,
) -> Result<Outcome, RunFault>
    requires { O.writer.has_failed out.old ≡ false }
    ensures written { IfOk result (λ outcome. IsReportWritten (IsBallotLines (option_copied prefer.entry)) bytes.now outcome (O.writer.contents out.old)
        (O.writer.contents out.new)) }
    ensures flushed { OnOk result (O.writer.is_flushed out.new ≡ true) }
    ensures works { OnOk result (O.writer.has_failed out.new ≡ false) }
    ensures memory { result ≡ Err RunFault.Memory → out.new ≡ out.old }
    ensures broken { result ≡ Err RunFault.Write → IsReportPartWritten (IsBallotLines (option_copied prefer.entry)) bytes.now (O.writer.contents out.old)
        (O.writer.contents out.new) }
    ensures write { result ≡ Err RunFault.Write → O.writer.has_failed out.new ≡ true }
    ensures faults { IfErr result (λ fault. (fault ≡ RunFault.Memory) ⊎ (fault ≡ RunFault.Write)) }
{
    match ballots_of(alloc, bytes, prefer, BallotForm::Lines) {
        Ok(text) => write_one(out, Outcome::Good, text.as_bytes()),
        Err(refusal) => write_refusal(alloc, b"", &refusal, out),
    }
}

/// Lists the ballots of the bytes and writes the answer as JSON.
pub(crate) fn write_ballots_data<O: Sink>(
    alloc: Global,
    bytes: &[u8],
    out: &mut O,
    prefer: Option<&str>,
) -> Result<Outcome, RunFault>
    requires { O.writer.has_failed out.old ≡ false }
    ensures written { IfOk result (λ outcome. IsReportWritten (IsBallotsLine (option_copied prefer.entry)) bytes.now outcome (O.writer.contents out.old)
        (O.writer.contents out.new)) }
    ensures flushed { OnOk result (O.writer.is_flushed out.new ≡ true) }
    ensures works { OnOk result (O.writer.has_failed out.new ≡ false) }
    ensures memory { result ≡ Err RunFault.Memory → out.new ≡ out.old }
    ensures broken { result ≡ Err RunFault.Write → IsReportPartWritten (IsBallotsLine (option_copied prefer.entry)) bytes.now (O.writer.contents out.old)
        (O.writer.contents out.new) }
    ensures write { result ≡ Err RunFault.Write → O.writer.has_failed out.new ≡ true }
    ensures faults { IfErr result (λ fault. (fault ≡ RunFault.Memory) ⊎ (fault ≡ RunFault.Write)) }
{
    match ballots_data_with(alloc, bytes, prefer, BallotsAsked::Heads) {
        Ok(answer) => write_line(answer, out),
        Err(_) => Err(RunFault::Memory),
    }
}

/// Writes a line for each style whose ballots are not the same, or why the bytes on one side are refused.
pub(crate) fn write_ballot_differences<O: Sink>(
    alloc: Global,
    left: &[u8],
    right: &[u8],
    out: &mut O,
    prefer: Option<&str>,
) -> Result<Outcome, RunFault>
    requires { O.writer.has_failed out.old ≡ false }
    ensures written { IfOk result (λ outcome. IsPairWritten (IsBallotDifferenceLines (option_copied prefer.entry)) left.now right.now outcome
        (O.writer.contents out.old) (O.writer.contents out.new)) }
    ensures flushed { OnOk result (O.writer.is_flushed out.new ≡ true) }
    ensures works { OnOk result (O.writer.has_failed out.new ≡ false) }
    ensures memory { result ≡ Err RunFault.Memory → out.new ≡ out.old }
    ensures broken { result ≡ Err RunFault.Write
        → IsPairPartWritten (IsBallotDifferenceLines (option_copied prefer.entry)) left.now right.now (O.writer.contents out.old) (O.writer.contents out.new) }
    ensures write { result ≡ Err RunFault.Write → O.writer.has_failed out.new ≡ true }
    ensures faults { IfErr result (λ fault. (fault ≡ RunFault.Memory) ⊎ (fault ≡ RunFault.Write)) }
{
    match ballots_of_both(alloc, left, right, prefer, PairForm::Lines) {
        Ok((outcome, text)) => write_one(out, outcome, text.as_bytes()),
        Err(Side::Left(refusal)) => write_refusal(alloc, b"left: ", &refusal, out),
        Err(Side::Right(refusal)) => write_refusal(alloc, b"right: ", &refusal, out),
        Err(Side::Memory) => Err(RunFault::Memory),
    }
}

/// Compares the ballots of the bytes of two reports and writes the answer as JSON.
pub(crate) fn write_ballot_differences_data<O: Sink>(
    alloc: Global,
    left: &[u8],
    right: &[u8],
    out: &mut O,
    prefer: Option<&str>,
) -> Result<Outcome, RunFault>
    requires { O.writer.has_failed out.old ≡ false }
    ensures written { IfOk result (λ outcome. IsPairWritten (IsBallotDifferencesLine (option_copied prefer.entry)) left.now right.now outcome
        (O.writer.contents out.old) (O.writer.contents out.new)) }
    ensures flushed { OnOk result (O.writer.is_flushed out.new ≡ true) }
    ensures works { OnOk result (O.writer.has_failed out.new ≡ false) }
    ensures memory { result ≡ Err RunFault.Memory → out.new ≡ out.old }
    ensures broken { result ≡ Err RunFault.Write
        → IsPairPartWritten (IsBallotDifferencesLine (option_copied prefer.entry)) left.now right.now (O.writer.contents out.old) (O.writer.contents out.new) }
    ensures write { result ≡ Err RunFault.Write → O.writer.has_failed out.new ≡ true }
    ensures faults { IfErr result (λ fault. (fault ≡ RunFault.Memory) ⊎ (fault ≡ RunFault.Write)) }
{
    match ballot_differences_data_with(alloc, left, right, prefer) {
        Ok(answer) => write_line(answer, out),
        Err(_) => Err(RunFault::Memory),
    }
}
