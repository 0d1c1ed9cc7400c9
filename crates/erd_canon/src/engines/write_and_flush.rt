ghost use Rattle.std.specs.Prelude.{◌≡◌, ◌⊎◌, ◌<◌, [], ◌∷◌, map, length, false, true, Err, IfErr, IfOk, OnOk, OnErr};
ghost use Rattle.erd_canon.specs.Words.{difference_line, fault_line, lines_of_side, text_of_lines, Appends, IsPartWritten};
ghost use Rattle.erd_canon.specs.code.SideRefusals.{IsRefusalPartWritten, IsRefusalWritten};

use crate::bytes::refusal::Refusal;
use crate::devices::sink::{Sink, write_out};
use crate::engines::lines::{line_of_side, write_fault_lines, write_lines};
use crate::engines::outcome::{Outcome, RunFault};
use erd_compare::Difference;
use erd_tables::FaultList;
use std::alloc::{AllocError, Global};

/// Writes the text, then flushes, and returns the outcome.
pub(crate) fn write_one<O: Sink>(
    out: &mut O,
    outcome: Outcome,
    text: &[u8],
) -> Result<Outcome, RunFault>
    requires { O.writer.has_failed out.old ≡ false }
    ensures outcome { IfOk result (λ answer. answer ≡ outcome) }
    ensures fault { IfErr result (λ fault. fault ≡ RunFault.Write) }
    ensures wrote { OnOk result (Appends (O.writer.contents out.old) (O.writer.contents out.new) text.now) }
    ensures part { IsPartWritten (O.writer.contents out.old) (O.writer.contents out.new) text.now }
    ensures flushed { OnOk result (O.writer.is_flushed out.new ≡ true) }
    ensures works { OnOk result (O.writer.has_failed out.new ≡ false) }
    ensures failed { OnErr result (O.writer.has_failed out.new ≡ true) }
{
    write_out(out, text).map_err(|_| RunFault::Write)?;
    out.flush().map_err(|_| RunFault::Write)?;
    Ok(outcome)
}

/// Writes the lines for the faults of one of two reports, then flushes, and returns the outcome.
pub(crate) fn write_side_faults<O: Sink>(
    alloc: Global,
    out: &mut O,
    side: &[u8],
    faults: &FaultList,
) -> Result<Outcome, RunFault>
    requires { O.writer.has_failed out.old ≡ false }
    ensures outcome { IfOk result (λ answer. answer ≡ Outcome.Bad) }
    ensures fault { IfErr result (λ fault. fault ≡ RunFault.Write) }
    ensures wrote { OnOk result (Appends (O.writer.contents out.old) (O.writer.contents out.new)
        (text_of_lines (lines_of_side side.now (map fault_line faults.now)))) }
    ensures part { IsPartWritten (O.writer.contents out.old) (O.writer.contents out.new) (text_of_lines (lines_of_side side.now (map fault_line faults.now))) }
    ensures flushed { OnOk result (O.writer.is_flushed out.new ≡ true) }
    ensures works { OnOk result (O.writer.has_failed out.new ≡ false) }
    ensures failed { OnErr result (O.writer.has_failed out.new ≡ true) }
{
    write_lines(alloc, out, side, faults).map_err(|_| RunFault::Write)?;
    out.flush().map_err(|_| RunFault::Write)?;
    Ok(Outcome::Bad)
}

/// Writes the lines for the faults, then flushes, and returns the outcome.
pub(crate) fn write_faults<O: Sink>(
    alloc: Global,
    out: &mut O,
    faults: &FaultList,
) -> Result<Outcome, RunFault>
    requires { O.writer.has_failed out.old ≡ false }
    ensures outcome { IfOk result (λ answer. answer ≡ Outcome.Bad) }
    ensures fault { IfErr result (λ fault. fault ≡ RunFault.Write) }
    ensures wrote { OnOk result (Appends (O.writer.contents out.old) (O.writer.contents out.new) (text_of_lines (map fault_line faults.now))) }
    ensures part { IsPartWritten (O.writer.contents out.old) (O.writer.contents out.new) (text_of_lines (map fault_line faults.now)) }
    ensures flushed { OnOk result (O.writer.is_flushed out.new ≡ true) }
    ensures works { OnOk result (O.writer.has_failed out.new ≡ false) }
    ensures failed { OnErr result (O.writer.has_failed out.new ≡ true) }
{
    write_fault_lines(alloc, out, faults).map_err(|_| RunFault::Write)?;
    out.flush().map_err(|_| RunFault::Write)?;
    Ok(Outcome::Bad)
}

/// Writes the lines for the faults to `err`, then flushes both, and returns the outcome.
pub(crate) fn write_faults_to_err<O: Sink, E: Sink>(
    alloc: Global,
    out: &mut O,
    err: &mut E,
    faults: &FaultList,
) -> Result<Outcome, RunFault>
    requires out_works { O.writer.has_failed out.old ≡ false }
    requires err_works { E.writer.has_failed err.old ≡ false }
    ensures outcome { IfOk result (λ answer. answer ≡ Outcome.Bad) }
    ensures fault { IfErr result (λ fault. fault ≡ RunFault.Write) }
    ensures wrote_out { OnOk result (Appends (O.writer.contents out.old) (O.writer.contents out.new) []) }
    ensures wrote_err { OnOk result (Appends (E.writer.contents err.old) (E.writer.contents err.new) (text_of_lines (map fault_line faults.now))) }
    ensures part_out { IsPartWritten (O.writer.contents out.old) (O.writer.contents out.new) [] }
    ensures part_err { IsPartWritten (E.writer.contents err.old) (E.writer.contents err.new) (text_of_lines (map fault_line faults.now)) }
    ensures flushed { OnOk result ((O.writer.is_flushed out.new ≡ true) × (E.writer.is_flushed err.new ≡ true)) }
    ensures works { OnOk result ((O.writer.has_failed out.new ≡ false) × (E.writer.has_failed err.new ≡ false)) }
    ensures failed { OnErr result ((O.writer.has_failed out.new ≡ true) ⊎ (E.writer.has_failed err.new ≡ true)) }
    ensures out_first { O.writer.has_failed out.new ≡ true → O.writer.flushes out.new ≡ O.writer.flushes out.old → err.new ≡ err.old }
    ensures writes_first { E.writer.has_failed err.new ≡ true → E.writer.flushes err.new ≡ E.writer.flushes err.old
        → O.writer.flushes out.new ≡ O.writer.flushes out.old }
    ensures flush_order { (E.writer.flushes err.new ≡ E.writer.flushes err.old) ⊎ (O.writer.is_flushed out.new ≡ true) }
    ensures out_needed { O.writer.has_failed out.new ≡ true → O.writer.flushes out.new ≡ O.writer.flushes out.old → ⊥ }
{
    write_fault_lines(alloc, err, faults).map_err(|_| RunFault::Write)?;
    out.flush().map_err(|_| RunFault::Write)?;
    err.flush().map_err(|_| RunFault::Write)?;
    Ok(Outcome::Bad)
}

/// Writes to both, then flushes both, and returns the outcome.
pub(crate) fn write_both<O: Sink, E: Sink>(
    out: &mut O,
    err: &mut E,
    outcome: Outcome,
    out_text: &[u8],
    err_text: &[u8],
) -> Result<Outcome, RunFault>
    requires out_works { O.writer.has_failed out.old ≡ false }
    requires err_works { E.writer.has_failed err.old ≡ false }
    ensures outcome { IfOk result (λ answer. answer ≡ outcome) }
    ensures fault { IfErr result (λ fault. fault ≡ RunFault.Write) }
    ensures wrote_out { OnOk result (Appends (O.writer.contents out.old) (O.writer.contents out.new) out_text.now) }
    ensures wrote_err { OnOk result (Appends (E.writer.contents err.old) (E.writer.contents err.new) err_text.now) }
    ensures part_out { IsPartWritten (O.writer.contents out.old) (O.writer.contents out.new) out_text.now }
    ensures part_err { IsPartWritten (E.writer.contents err.old) (E.writer.contents err.new) err_text.now }
    ensures flushed { OnOk result ((O.writer.is_flushed out.new ≡ true) × (E.writer.is_flushed err.new ≡ true)) }
    ensures works { OnOk result ((O.writer.has_failed out.new ≡ false) × (E.writer.has_failed err.new ≡ false)) }
    ensures failed { OnErr result ((O.writer.has_failed out.new ≡ true) ⊎ (E.writer.has_failed err.new ≡ true)) }
    ensures out_first { O.writer.has_failed out.new ≡ true → O.writer.flushes out.new ≡ O.writer.flushes out.old → err.new ≡ err.old }
    ensures writes_first { E.writer.has_failed err.new ≡ true → E.writer.flushes err.new ≡ E.writer.flushes err.old
        → O.writer.flushes out.new ≡ O.writer.flushes out.old }
    ensures flush_order { (E.writer.flushes err.new ≡ E.writer.flushes err.old) ⊎ (O.writer.is_flushed out.new ≡ true) }
    ensures out_needed { O.writer.has_failed out.new ≡ true → O.writer.flushes out.new ≡ O.writer.flushes out.old → 0 < length out_text.now }
    ensures err_needed { E.writer.has_failed err.new ≡ true → E.writer.flushes err.new ≡ E.writer.flushes err.old → 0 < length err_text.now }
{
    write_out(out, out_text).map_err(|_| RunFault::Write)?;
    write_out(err, err_text).map_err(|_| RunFault::Write)?;
    out.flush().map_err(|_| RunFault::Write)?;
    err.flush().map_err(|_| RunFault::Write)?;
    Ok(outcome)
}

/// Writes why the report on one side is refused.
pub(crate) fn write_refusal<O: Sink>(
    alloc: Global,
    side: &[u8],
    refusal: &Refusal,
    out: &mut O,
) -> Result<Outcome, RunFault>
    requires { O.writer.has_failed out.old ≡ false }
    ensures written { IfOk result (λ outcome. IsRefusalWritten side.now refusal.now outcome (O.writer.contents out.old) (O.writer.contents out.new)) }
    ensures flushed { OnOk result (O.writer.is_flushed out.new ≡ true) }
    ensures works { OnOk result (O.writer.has_failed out.new ≡ false) }
    ensures memory { result ≡ Err RunFault.Memory → out.new ≡ out.old }
    ensures broken { result ≡ Err RunFault.Write → IsRefusalPartWritten side.now refusal.now (O.writer.contents out.old) (O.writer.contents out.new) }
    ensures write { result ≡ Err RunFault.Write → O.writer.has_failed out.new ≡ true }
    ensures faults { IfErr result (λ fault. (fault ≡ RunFault.Memory) ⊎ (fault ≡ RunFault.Write)) }
{
    match refusal {
        Refusal::Faults(faults) => write_side_faults(alloc, out, side, faults),
        Refusal::NotJson => {
            let text = line_of_side(alloc, side, b"not JSON")?;
            write_one(out, Outcome::NotJson, text.as_slice())
        }
        Refusal::Memory => Err(RunFault::Memory),
    }
}

/// Returns the line of a difference, ended by one line feed.
pub(crate) fn difference_text(alloc: Global, difference: &Difference) -> Result<Vec<u8>, AllocError>
    ensures { IfOk result (λ text. text.items ≡ text_of_lines (difference_line difference.now ∷ [])) }
{
    let line = difference.line(alloc)?;
    line_of_side(alloc, &[], line.as_bytes())
}
