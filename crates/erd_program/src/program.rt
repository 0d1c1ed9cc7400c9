ghost use Rattle.std.specs.Prelude.{◌≡◌, ◌∷◌, [], map, string_bytes, OnOk, OnErr, false, true};
ghost use Rattle.std.specs.Io.KnownBytes.{Appends};
ghost use Rattle.erd_canon.specs.Devices.{between};
ghost use Rattle.erd_canon.specs.Writing.{IsPartWritten};
ghost use Rattle.erd_program.specs.Messages.{IsSaid};
ghost use Rattle.erd_program.specs.Program.{AreWordsAnswered, IsDone, IsHelped, IsLineRefused, IsProgramRun, words_given};
ghost use Rattle.erd_program.specs.World.{outside};
ghost use Rattle.erd_program.specs.code.Commands.{StreamsWork};

use crate::commands::{filter, one_file, two_files};
use crate::files::{Files, WorldFault};
use crate::messages::{ended, refused, say};
use crate::steps::by_steps;
use crate::tasks::{Task, task_of};
use crate::world::World;
use erd_canon::{
    Disposal, Failed, LineFault, Request, RunFault, Sink, Source, command_line, write_out,
};
use std::alloc::Global;

// The exit status for wrong arguments.
const WRONG: u8 = 3;

/// Runs the program on the words of its command line, and returns its exit status. The first word is the program's name.
///
/// The words are parsed by `command_line`. Standard input is read only if they ask for nothing else. The files that they
/// name are opened in the order of the words, both before either is read, and closed before the program ends. The streams
/// must not have failed before. The trees and the reports of the filter, a check, a canonical
/// form and a comparison go to the disposal; a run that answers with JSON or lists differences frees them.
pub fn run_program<F: Files, I: Source, O: Sink, E: Sink, D: Disposal>(
    alloc: Global,
    words: Result<Vec<String>, WorldFault>,
    world: &mut World<F, I, O, E>,
    disposal: &D,
) -> u8
    requires input_works { I.reader.has_failed world.old.input ≡ false }
    requires out_works { O.writer.has_failed world.old.out ≡ false }
    requires err_works { E.writer.has_failed world.old.err ≡ false }
    ensures { IsProgramRun (outside F.opened F.beside F.closed F.File.reader I.reader O.writer E.writer)
        (words_given (λ all. map string_bytes all.items) words) result (between world.old world.new) }
{
    match words {
        Ok(words) => answered(alloc, words.as_slice(), world, disposal),
        Err(fault) => refused(fault, "the arguments are not text\n", &mut world.err),
    }
}

// Parses the words as a command line, and does what it asks for.
fn answered<F: Files, I: Source, O: Sink, E: Sink, D: Disposal>(
    alloc: Global,
    words: &[String],
    world: &mut World<F, I, O, E>,
    disposal: &D,
) -> u8
    requires works { StreamsWork I.reader O.writer E.writer world.old.input world.old.out world.old.err }
    ensures { AreWordsAnswered (outside F.opened F.beside F.closed F.File.reader I.reader O.writer E.writer)
        (map string_bytes words.now) result (between world.old world.new) }
{
    match command_line(alloc, words) {
        Ok(request) => done(alloc, world, &request, disposal),
        Err(fault) => line_refused(fault, &mut world.out, &mut world.err),
    }
}

// Does what the request asks for.
fn done<F: Files, I: Source, O: Sink, E: Sink, D: Disposal>(
    alloc: Global,
    world: &mut World<F, I, O, E>,
    request: &Request,
    disposal: &D,
) -> u8
    requires works { StreamsWork I.reader O.writer E.writer world.old.input world.old.out world.old.err }
    ensures { IsDone (outside F.opened F.beside F.closed F.File.reader I.reader O.writer E.writer)
        request.now result (between world.old world.new) }
{
    match task_of(request) {
        Task::Filter => filter(alloc, world, disposal),
        Task::OneFile(name, command, prefer) => {
            one_file(alloc, world, name, command, prefer, disposal)
        }
        Task::TwoFiles(left, right, command, prefer) => {
            two_files(alloc, world, (left, right), command, prefer, disposal)
        }
        Task::BySteps(name, command, words, prefer) => {
            by_steps(alloc, world, name, (command, words), prefer, disposal)
        }
    }
}

// Says why the command line has no request, and returns the exit status.
fn line_refused<O: Sink, E: Sink>(fault: LineFault, out: &mut O, err: &mut E) -> u8
    requires out_works { O.writer.has_failed out.old ≡ false }
    ensures { IsLineRefused O.writer E.writer
        fault result (between out.old out.new) (between err.old err.new) }
{
    match fault {
        LineFault::Help(text) => help(text.as_str(), out, err),
        LineFault::Usage(text) => {
            say(err, text.as_str());
            WRONG
        }
        LineFault::Memory => ended(Err(RunFault::Memory), err),
    }
}

// Writes the help text to standard output, and returns the exit status.
fn help<O: Sink, E: Sink>(text: &str, out: &mut O, err: &mut E) -> u8
    requires out_works { O.writer.has_failed out.old ≡ false }
    ensures { IsHelped O.writer E.writer
        text.now result (between out.old out.new) (between err.old err.new) }
{
    match write_and_flush(out, text.as_bytes()) {
        Ok(()) => 0,
        Err(_) => ended(Err(RunFault::Write), err),
    }
}

// Writes the text and flushes.
fn write_and_flush<O: Sink>(out: &mut O, text: &[u8]) -> Result<(), Failed>
    requires { O.writer.has_failed out.old ≡ false }
    ensures works { OnOk result (O.writer.has_failed out.new ≡ false) }
    ensures flushed { OnOk result (O.writer.is_flushed out.new ≡ true) }
    ensures written { OnOk result (Appends (O.writer.contents out.old) (O.writer.contents out.new) text.now) }
    ensures failed { OnErr result (O.writer.has_failed out.new ≡ true) }
    ensures part { IsPartWritten (O.writer.contents out.old) (O.writer.contents out.new) text.now }
{
    write_out(out, text)?;
    out.flush()
}
