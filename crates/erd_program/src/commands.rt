ghost use Rattle.std.specs.Prelude.{◌≡◌, ◌++◌, ◌∷◌, [], IfOk, false, option_copied};
ghost use Rattle.erd_canon.specs.Devices.{between};
ghost use Rattle.erd_program.specs.Files.{AreFilesDone, IsFileDone, IsInputCanonicalised};
ghost use Rattle.erd_program.specs.Program.{AreFilesOpened, IsFileOpened};
ghost use Rattle.erd_program.specs.World.{outside};
ghost use Rattle.erd_program.specs.code.Commands.{StreamsWork, pair_run, pair_run_of, run_of};

use crate::files::{Files, WorldFault};
use crate::messages::{ended, not_opened};
use crate::world::World;
use erd_canon::{
    Disposal, FileName, Outcome, PairCommand, ReportCommand, RunFault, Sink, Source,
    run_canon_disposing, run_check_disposing, run_compare_disposing, run_pair, run_prepare,
    run_prepare_list, run_prepare_report, run_report,
};
use erd_prepare::StepName;
use std::alloc::Global;

/// A command that names one file. One that prepares it has the steps.
#[derive(Clone, Copy)]
pub(crate) enum FileCommand<'a> {
    Check,
    Canon,
    Answer(ReportCommand),
    Prepare(&'a [StepName]),
    PrepareList,
    PrepareReport(&'a [StepName]),
}

/// A command that names two files.
#[derive(Clone, Copy)]
pub(crate) enum TwoFilesCommand {
    Compare,
    Answer(PairCommand),
}

/// Writes the canonical form of standard input, with no preference.
pub(crate) fn filter<F: Files, I: Source, O: Sink, E: Sink, D: Disposal>(
    alloc: Global,
    world: &mut World<F, I, O, E>,
    disposal: &D,
) -> u8
    requires works { StreamsWork I.reader O.writer E.writer world.old.input world.old.out world.old.err }
    ensures files { world.new.files ≡ world.old.files }
    ensures done { IsInputCanonicalised (outside F.opened F.beside F.closed F.File.reader I.reader O.writer E.writer)
        result (between world.old.input world.new.input) (between world.old.out world.new.out)
        (between world.old.err world.new.err) }
{
    let answer = run_canon_disposing(
        alloc,
        &mut world.input,
        &mut world.out,
        &mut world.err,
        None,
        disposal,
    );
    ended(answer, &mut world.err)
}

/// Opens the file and carries out the command on it, under the preference.
pub(crate) fn one_file<F: Files, I: Source, O: Sink, E: Sink, D: Disposal>(
    alloc: Global,
    world: &mut World<F, I, O, E>,
    name: &FileName,
    command: FileCommand<'_>,
    prefer: Option<&str>,
    disposal: &D,
) -> u8
    requires works { StreamsWork I.reader O.writer E.writer world.old.input world.old.out world.old.err }
    ensures { IsFileOpened (outside F.opened F.beside F.closed F.File.reader I.reader O.writer E.writer)
        (run_of command.entry (option_copied prefer.entry)) name.now result (between world.old world.new) }
{
    match world.files.open(name) {
        Ok(file) => open_file(alloc, world, (name, file), command, prefer, disposal),
        Err(fault) => not_opened(alloc, fault, name, &mut world.err),
    }
}

// Carries out the command on the open file and closes it. The file comes with its name.
fn open_file<F: Files, I: Source, O: Sink, E: Sink, D: Disposal>(
    alloc: Global,
    world: &mut World<F, I, O, E>,
    named: (&FileName, F::File),
    command: FileCommand<'_>,
    prefer: Option<&str>,
    disposal: &D,
) -> u8
    requires file_works { F.File.reader.has_failed named.1 ≡ false }
    requires works { StreamsWork I.reader O.writer E.writer world.old.input world.old.out world.old.err }
    ensures input { world.new.input ≡ world.old.input }
    ensures opened { F.opened world.new.files ≡ F.opened world.old.files }
    ensures done { IsFileDone (outside F.opened F.beside F.closed F.File.reader I.reader O.writer E.writer)
        (run_of command.entry (option_copied prefer.entry)) named.entry.0.now named.entry.1 result
        (between (F.closed world.old.files) (F.closed world.new.files))
        (between world.old.out world.new.out) (between world.old.err world.new.err) }
{
    let (name, mut file) = named;
    let answer = run(alloc, world, &mut file, command, prefer, disposal);
    world.files.close(name, file);
    ended(answer, &mut world.err)
}

// Runs the engine on the file.
fn run<F: Files, I: Source, O: Sink, E: Sink, D: Disposal>(
    alloc: Global,
    world: &mut World<F, I, O, E>,
    file: &mut F::File,
    command: FileCommand<'_>,
    prefer: Option<&str>,
    disposal: &D,
) -> Result<Outcome, RunFault>
    requires file_works { F.File.reader.has_failed file.old ≡ false }
    requires works { StreamsWork I.reader O.writer E.writer world.old.input world.old.out world.old.err }
    ensures input { world.new.input ≡ world.old.input }
    ensures files { world.new.files ≡ world.old.files }
    ensures done { run_of command.entry (option_copied prefer.entry) (outside F.opened F.beside F.closed F.File.reader I.reader O.writer E.writer)
        result (between file.old file.new) (between world.old.out world.new.out) (between world.old.err world.new.err) }
{
    let (out, err) = (&mut world.out, &mut world.err);
    match command {
        FileCommand::Check => run_check_disposing(alloc, file, out, prefer, disposal),
        FileCommand::Canon => run_canon_disposing(alloc, file, out, err, prefer, disposal),
        FileCommand::Answer(asked) => run_report(alloc, file, out, asked, prefer),
        FileCommand::Prepare(chosen) => run_prepare(alloc, file, out, err, chosen, prefer),
        FileCommand::PrepareList => run_prepare_list(alloc, file, out, err),
        FileCommand::PrepareReport(chosen) => run_prepare_report(alloc, file, out, err, chosen),
    }
}

/// Opens both files and then carries out the command on them, under the preference.
pub(crate) fn two_files<F: Files, I: Source, O: Sink, E: Sink, D: Disposal>(
    alloc: Global,
    world: &mut World<F, I, O, E>,
    names: (&FileName, &FileName),
    command: TwoFilesCommand,
    prefer: Option<&str>,
    disposal: &D,
) -> u8
    requires works { StreamsWork I.reader O.writer E.writer world.old.input world.old.out world.old.err }
    ensures { AreFilesOpened (outside F.opened F.beside F.closed F.File.reader I.reader O.writer E.writer)
        (pair_run_of command (option_copied prefer.entry)) names.entry.0.now names.entry.1.now result (between world.old world.new) }
{
    let (left, right) = names;
    let (left_file, right_file) = open_both(&mut world.files, left, right);
    match (left_file, right_file) {
        (Ok(left_file), Ok(right_file)) => {
            let named = ((left, left_file), (right, right_file));
            open_files(alloc, world, named, command, prefer, disposal)
        }
        (Ok(left_file), Err(fault)) => {
            world.files.close(left, left_file);
            not_opened(alloc, fault, right, &mut world.err)
        }
        (Err(fault), Ok(right_file)) => {
            world.files.close(right, right_file);
            not_opened(alloc, fault, left, &mut world.err)
        }
        (Err(fault), Err(_)) => not_opened(alloc, fault, left, &mut world.err),
    }
}

// Opens both files, the left one first, and reads neither.
fn open_both<F: Files>(
    files: &mut F,
    left: &FileName,
    right: &FileName,
) -> (Result<F::File, WorldFault>, Result<F::File, WorldFault>)
    ensures opened { F.opened files.new ≡ F.opened files.old ++ (left.now, result.0) ∷ (right.now, result.1) ∷ [] }
    ensures beside { F.beside files.new ≡ F.beside files.old ++ (right.now, result.0) ∷ [] }
    ensures closed { F.closed files.new ≡ F.closed files.old }
    ensures left_works { IfOk result.0 (λ file. F.File.reader.has_failed file ≡ false) }
    ensures right_works { IfOk result.1 (λ file. F.File.reader.has_failed file ≡ false) }
{
    let left_file = files.open(left);
    let right_file = files.open_beside(right, &left_file);
    (left_file, right_file)
}

// Carries out the command on the open files and closes them. Each comes with its name.
fn open_files<F: Files, I: Source, O: Sink, E: Sink, D: Disposal>(
    alloc: Global,
    world: &mut World<F, I, O, E>,
    named: ((&FileName, F::File), (&FileName, F::File)),
    command: TwoFilesCommand,
    prefer: Option<&str>,
    disposal: &D,
) -> u8
    requires left_works { F.File.reader.has_failed named.0.1 ≡ false }
    requires right_works { F.File.reader.has_failed named.1.1 ≡ false }
    requires works { StreamsWork I.reader O.writer E.writer world.old.input world.old.out world.old.err }
    ensures input { world.new.input ≡ world.old.input }
    ensures opened { F.opened world.new.files ≡ F.opened world.old.files }
    ensures beside { F.beside world.new.files ≡ F.beside world.old.files }
    ensures done { AreFilesDone (outside F.opened F.beside F.closed F.File.reader I.reader O.writer E.writer)
        (pair_run_of command (option_copied prefer.entry)) named.entry.0.0.now named.entry.1.0.now named.entry.0.1 named.entry.1.1
        result (between (F.closed world.old.files) (F.closed world.new.files)) (between world.old.out world.new.out)
        (between world.old.err world.new.err) }
{
    let ((left_name, mut left_file), (right_name, mut right_file)) = named;
    let answer = run_both(
        alloc,
        &mut left_file,
        &mut right_file,
        &mut world.out,
        (command, prefer),
        disposal,
    );
    world.files.close(left_name, left_file);
    world.files.close(right_name, right_file);
    ended(answer, &mut world.err)
}

// Runs the engine on the files.
fn run_both<S: Source, O: Sink, D: Disposal>(
    alloc: Global,
    left: &mut S,
    right: &mut S,
    out: &mut O,
    asked: (TwoFilesCommand, Option<&str>),
    disposal: &D,
) -> Result<Outcome, RunFault>
    requires left_works { S.reader.has_failed left.old ≡ false }
    requires right_works { S.reader.has_failed right.old ≡ false }
    requires out_works { O.writer.has_failed out.old ≡ false }
    ensures { pair_run asked.entry.0 (option_copied asked.entry.1) S.reader O.writer result (between left.old left.new) (between right.old right.new)
        (between out.old out.new) }
{
    let (command, prefer) = asked;
    match command {
        TwoFilesCommand::Compare => {
            run_compare_disposing(alloc, left, right, out, prefer, disposal)
        }
        TwoFilesCommand::Answer(asked) => run_pair(alloc, left, right, out, asked, prefer),
    }
}
