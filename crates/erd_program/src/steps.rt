ghost use Rattle.std.specs.Prelude.{option_copied};
ghost use Rattle.erd_canon.specs.Devices.{between};
ghost use Rattle.erd_program.specs.Program.{IsDoneBySteps};
ghost use Rattle.erd_program.specs.World.{outside};
ghost use Rattle.erd_program.specs.code.Commands.{StreamsWork, steps_run};

use crate::commands::{FileCommand, one_file};
use crate::files::{Files, WorldFault};
use crate::messages::refused;
use crate::world::World;
use erd_canon::{Disposal, FileName, Sink, Source, steps_asked};
use std::alloc::Global;

// The line for words that name no step.
const UNKNOWN_STEP: &str = "unknown step\n";

/// A command that prepares one file by steps.
#[derive(Clone, Copy)]
pub(crate) enum StepsCommand {
    Prepare,
    Report,
}

/// Carries out the command on the file by the steps that the words name, under the preference. If a word names nothing, it says
/// so and opens no file. The command comes with the words.
pub(crate) fn by_steps<F: Files, I: Source, O: Sink, E: Sink, D: Disposal>(
    alloc: Global,
    world: &mut World<F, I, O, E>,
    name: &FileName,
    asked: (StepsCommand, Option<&str>),
    prefer: Option<&str>,
    disposal: &D,
) -> u8
    requires works { StreamsWork I.reader O.writer E.writer world.old.input world.old.out world.old.err }
    ensures { IsDoneBySteps (outside F.opened F.beside F.closed F.File.reader I.reader O.writer E.writer)
        (option_copied asked.entry.1) (steps_run asked.entry.0 (option_copied prefer.entry)) name.now result (between world.old world.new) }
{
    let (command, words) = asked;
    match steps_asked(alloc, words) {
        Ok(Some(chosen)) => {
            let chosen = chosen.as_slice();
            let command = match command {
                StepsCommand::Prepare => FileCommand::Prepare(chosen),
                StepsCommand::Report => FileCommand::PrepareReport(chosen),
            };
            one_file(alloc, world, name, command, prefer, disposal)
        }
        Ok(None) => refused(WorldFault::Refused, UNKNOWN_STEP, &mut world.err),
        Err(_) => refused(WorldFault::Memory, UNKNOWN_STEP, &mut world.err),
    }
}
