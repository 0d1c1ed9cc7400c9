ghost use Rattle.std.specs.Prelude.{◌≡◌, ◌⊎◌, ◌++◌, ◌∷◌, [], ℕ, List, IfOk, string_bytes};
ghost use Rattle.erd_canon.specs.Devices.{between};
ghost use Rattle.erd_program.specs.Messages.{IsSaid, IsTold, fault_text, run_status, character_in_line, unopened_words, world_status, world_text};
ghost use Rattle.erd_program.specs.code.Unopened.{IsUnopenedTold};

use crate::files::WorldFault;
use erd_canon::{FileName, Outcome, RunFault, Sink, write_out};
use std::alloc::{AllocError, Global};

/// Writes the text, unless the stream has failed before. It is one write if the stream takes all of the text at once.
pub(crate) fn say<E: Sink>(err: &mut E, text: &str)
    ensures { IsSaid E.writer text.now (between err.old err.new) }
{
    if err.failed() {
        return;
    }
    let _ = write_out(err, text.as_bytes());
}

/// Ends a run: if it ended early, says why, and returns the exit status.
pub(crate) fn ended<E: Sink>(answer: Result<Outcome, RunFault>, err: &mut E) -> u8
    ensures status { result ≡ run_status answer }
    ensures told { IsTold E.writer answer (between err.old err.new) }
{
    match answer {
        Ok(outcome) => outcome.status(),
        Err(fault) => {
            say(err, line_of(fault));
            fault.status()
        }
    }
}

/// Says what the outside did not give, with this line if the system refused it, and returns the exit status.
pub(crate) fn refused<E: Sink>(fault: WorldFault, line: &str, err: &mut E) -> u8
    ensures status { result ≡ world_status fault }
    ensures said { (words : List ℕ) → line.now ≡ words ++ 10 ∷ []
        → IsSaid E.writer (world_text words fault)
        (between err.old err.new) }
{
    match fault {
        WorldFault::Refused => say(err, line),
        WorldFault::Memory => say(err, line_of(RunFault::Memory)),
    }
    fault.status()
}

/// Says that the file with this name could not be opened, or that memory ran out, and returns the exit status.
pub(crate) fn not_opened<E: Sink>(
    alloc: Global,
    fault: WorldFault,
    name: &FileName,
    err: &mut E,
) -> u8
    ensures { IsUnopenedTold E.writer name.now fault result (between err.old err.new) }
{
    match unopened_lines(alloc, name.as_str()) {
        Ok(lines) => refused(fault, lines.as_str(), err),
        Err(_) => refused(WorldFault::Memory, "no memory\n", err),
    }
}

// The lines for a file that cannot be opened.
fn unopened_lines(alloc: Global, name: &str) -> Result<String, AllocError>
    ensures { IfOk result (λ lines. string_bytes lines ≡ unopened_words name.now ++ 10 ∷ []) }
{
    let mut lines = String::from_str(alloc, "cannot open\n")?;
    for character in name.chars() {
        lines.push(shown(character))?;
    }
    lines.push('\n')?;
    Ok(lines)
}

// The character as a line shows it.
fn shown(character: char) -> char
    ensures { result ≡ character_in_line character }
{
    if character.is_control() {
        '?'
    } else {
        character
    }
}

/// Returns the line that says why a run ended early, with its line feed.
pub(crate) fn line_of(fault: RunFault) -> &'static str
    ensures line { result.now ≡ fault_text fault }
{
    match fault {
        RunFault::TooLong => "too long\n",
        RunFault::Read => "read failed\n",
        RunFault::Write => "write failed\n",
        RunFault::Memory => "no memory\n",
    }
}
