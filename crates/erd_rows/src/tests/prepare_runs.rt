//! Runs of the engines that prepare a report, over readers and writers that work or fail.
use crate::tests::edits::spelled;
use crate::tests::readers::FailingReader;
use crate::tests::writers::{ExpectedWriter, FailingWriter};
use erd_canon::{
    Outcome, ReadFrom, RunFault, Source, WriteTo, run_prepare, run_prepare_list, run_prepare_report,
};
use erd_prepare::StepName;
use std::alloc::{AllocError, Global};
use std::io::{Read, Write};
use std::process::Abort;
use std::test::Fail;

// What a run leaves.
#[derive(Drop)]
struct PrepareRun<R, O, E> {
    answer: Result<Outcome, RunFault>,
    reader: ReadFrom<R>,
    out: WriteTo<O>,
    err: WriteTo<E>,
}

// A command that prepares a report.
#[derive(Clone, Copy)]
enum Command<'a> {
    Prepare(&'a [StepName]),
    List,
    Report(&'a [StepName]),
}

fn prepare_run<R: Read, O: Write, E: Write>(
    alloc: Global,
    command: Command,
    reader: R,
    out: O,
    err: E,
) -> PrepareRun<R, O, E> {
    let mut reader = ReadFrom::of(reader);
    let mut out = WriteTo::of(out);
    let mut err = WriteTo::of(err);
    let answer = match command {
        Command::Prepare(chosen) => {
            run_prepare(alloc, &mut reader, &mut out, &mut err, chosen, None)
        }
        Command::List => run_prepare_list(alloc, &mut reader, &mut out, &mut err),
        Command::Report(chosen) => {
            run_prepare_report(alloc, &mut reader, &mut out, &mut err, chosen)
        }
    };
    PrepareRun {
        answer,
        reader,
        out,
        err,
    }
}

// A report that `nulls` and `names` prepare, and that is refused before and after that.
const OFFICES: &str =
    r#"{ "@type": "%ElectionReport", "Office": [{"@type":"%Office"},{"Phone":null,"@type":"%Office","Name":"Mayor"}] }"#;

const CHOSEN: &[StepName] = &[StepName::Names, StepName::Nulls];

const PREPARED: &str = concat!(
    r#"{"@type":"%ElectionReport","Office":[{"@type":"%Office"},{"@type":"%Office","#,
    r#""ExternalIdentifier":[{"@type":"%ExternalIdentifier","OtherType":"name","Type":"other","Value":"Mayor"}],"Name":"Mayor"}]}"#,
);

const DONE: &str = concat!(
    "nulls: 1 changed\nnames: 1 changed, 1 left\n",
    ": missing member Election\n: missing member Status\n/Office/0: missing member Name\n",
    "reason 2 (missing member): steps that may fix it: class-names; otherwise ask the vendor: ",
    "Write the member that is missing. The standard requires it.\n",
);

fn wrote(
    alloc: Global,
    command: Command,
    file: &str,
    wanted: Outcome,
    out: &str,
    err: &str,
) -> bool {
    let out = ExpectedWriter::of(out);
    let err = ExpectedWriter::of(err);
    let run = prepare_run(alloc, command, file.as_bytes(), out, err);
    run.answer == Ok(wanted) && run.out.writer.is_whole() && run.err.writer.is_whole()
}

// A report that `names` leaves as it is, and why it is refused.
const NAMELESS: &str = r#"{"@type":"%ElectionReport","Office":[{"@type":"%Office"}]}"#;

const FAULTS: &str = concat!(
    ": missing member Election\n: missing member Status\n/Office/0: missing member Name\n",
    "reason 2 (missing member): steps that may fix it: class-names; otherwise ask the vendor: ",
    "Write the member that is missing. The standard requires it.\n",
);

const LEFT: &str = concat!(
    "names: 1 left\n: missing member Election\n: missing member Status\n/Office/0: missing member Name\n",
    "reason 2 (missing member): steps that may fix it: class-names; otherwise ask the vendor: ",
    "Write the member that is missing. The standard requires it.\n",
);

const LISTED: &str = "nulls (removed): 1 changed\nnames (filled-in): 1 changed, 1 left\n";

// A number that is written otherwise, and what the run tells of it before the steps.
const NUMBER: &str = r#"{"b":null,"a":1.50}"#;

const NUMBER_TOLD: &str = concat!(
    "numbers: 1 changed\nnulls: 1 changed\n: missing member @type\n",
    "reason 2 (missing member): steps that may fix it: class-names; otherwise ask the vendor: ",
    "Write the member that is missing. The standard requires it.\n",
);

const NULL: &str = r#"{"a":null}"#;

const NULL_DONE: &str =
    "[{\"changes\":[{\"before\":null,\"place\":[\"a\"]}],\"count\":1,\"done\":true,\"left\":[],\"left_count\":0,\"more\":false,\"step\":\"nulls\"}]\n";

const NULL_FOUND: &str =
    "[{\"changes\":[{\"before\":null,\"place\":[\"a\"]}],\"count\":1,\"done\":false,\"left\":[],\"left_count\":0,\"more\":false,\"step\":\"nulls\"}]\n";

const NOT_JSON: &str = "not JSON\n";

// A command, the file that it reads, how it ends, and what it writes to standard output and to standard error.
type Row = (
    Command<'static>,
    &'static str,
    Outcome,
    &'static str,
    &'static str,
);

const ROWS: &[Row] = &[
    (
        Command::Prepare(CHOSEN),
        OFFICES,
        Outcome::Bad,
        PREPARED,
        DONE,
    ),
    (
        Command::Prepare(&[StepName::Names]),
        NAMELESS,
        Outcome::Bad,
        NAMELESS,
        LEFT,
    ),
    (
        Command::Prepare(&[]),
        NAMELESS,
        Outcome::Bad,
        NAMELESS,
        FAULTS,
    ),
    (
        Command::Prepare(CHOSEN),
        NUMBER,
        Outcome::Bad,
        r#"{"a":1.5}"#,
        NUMBER_TOLD,
    ),
    (
        Command::Prepare(CHOSEN),
        "{",
        Outcome::NotJson,
        "",
        NOT_JSON,
    ),
    (Command::List, OFFICES, Outcome::Good, LISTED, ""),
    (Command::List, "{}", Outcome::Good, "", ""),
    (Command::List, "{", Outcome::NotJson, "", NOT_JSON),
    (Command::Report(CHOSEN), NULL, Outcome::Good, NULL_DONE, ""),
    (Command::Report(&[]), NULL, Outcome::Good, NULL_FOUND, ""),
    (Command::Report(CHOSEN), "{", Outcome::NotJson, "", NOT_JSON),
];

fn is_written(alloc: Global, row: &Row) -> Result<bool, AllocError> {
    let (command, file, outcome, out, err) = row;
    let file = spelled(alloc, file)?;
    let out = spelled(alloc, out)?;
    Ok(wrote(alloc, *command, &file, *outcome, &out, err))
}

#[test]
fn each_row_is_written(rt: HostRuntime) -> Result<(), Fail> {
    for (index, row) in ROWS.iter().enumerate() {
        assert!(rt; is_written(rt.alloc(), row)?, "row {index}");
    }
    Ok(())
}

// A run whose read after this many reads fails, and that writes nothing then.
fn reads(alloc: Global, file: &str, out: &str, good: usize) -> bool {
    let fails = good <= file.len();
    let (out, err) = if fails { ("", "") } else { (out, DONE) };
    let reader = FailingReader::after(file.as_bytes(), good);
    let out = ExpectedWriter::of(out);
    let err = ExpectedWriter::of(err);
    let run = prepare_run(alloc, Command::Prepare(CHOSEN), reader, out, err);
    let wanted = if fails {
        Err(RunFault::Read)
    } else {
        Ok(Outcome::Bad)
    };
    run.answer == wanted
        && run.reader.failed() == fails
        && run.out.writer.is_whole()
        && run.err.writer.is_whole()
}

#[test]
fn each_read_fails(rt: HostRuntime) -> Result<(), Fail> {
    let alloc = rt.alloc();
    let file = spelled(alloc, OFFICES)?;
    let out = spelled(alloc, PREPARED)?;
    for good in 0..file.len().saturating_add(2) {
        assert!(rt; reads(alloc, &file, &out, good), "read {good}");
    }
    Ok(())
}

// A run whose write to `out` after this many writes fails: it writes nothing to `err`, and flushes nothing.
fn out_writes(alloc: Global, file: &str, good: usize) -> bool {
    let out = FailingWriter::after(good);
    let err = FailingWriter::after(usize::MAX);
    let run = prepare_run(alloc, Command::Prepare(CHOSEN), file.as_bytes(), out, err);
    run.answer == Err(RunFault::Write)
        && run.out.writer.taken == good
        && run.out.writer.writes == good.saturating_add(1)
        && run.out.writer.flushes == 0
        && run.err.writer.writes == 0
        && run.err.writer.flushes == 0
}

// The same of a write to `err`: all was written to `out`.
fn err_writes(alloc: Global, file: &str, all: usize, good: usize) -> bool {
    let out = FailingWriter::after(usize::MAX);
    let err = FailingWriter::after(good);
    let run = prepare_run(alloc, Command::Prepare(CHOSEN), file.as_bytes(), out, err);
    run.answer == Err(RunFault::Write)
        && run.out.writer.taken == all
        && run.out.writer.flushes == 0
        && run.err.writer.taken == good
        && run.err.writer.writes == good.saturating_add(1)
        && run.err.writer.flushes == 0
}

#[test]
fn each_write_fails(rt: HostRuntime) -> Result<(), Fail> {
    let alloc = rt.alloc();
    let file = spelled(alloc, OFFICES)?;
    let all = spelled(alloc, PREPARED)?.len();
    for good in 0..all {
        assert!(rt; out_writes(alloc, &file, good), "out {good}");
    }
    for good in 0..DONE.len() {
        assert!(rt; err_writes(alloc, &file, all, good), "err {good}");
    }
    Ok(())
}

// `out` is flushed first, after all was written. A flush that fails ends the run.
#[test]
fn each_flush_fails(rt: HostRuntime) -> Result<(), Fail> {
    let alloc = rt.alloc();
    let file = spelled(alloc, OFFICES)?;
    assert!(rt;
        flushes(
            alloc,
            &file,
            FailingWriter::at_flush(),
            FailingWriter::after(usize::MAX),
            0
        )
    );
    assert!(rt;
        flushes(
            alloc,
            &file,
            FailingWriter::after(usize::MAX),
            FailingWriter::at_flush(),
            1
        )
    );
    Ok(())
}

fn flushes(
    alloc: Global,
    file: &str,
    out: FailingWriter,
    err: FailingWriter,
    err_flushes: usize,
) -> bool {
    let run = prepare_run(alloc, Command::Prepare(CHOSEN), file.as_bytes(), out, err);
    run.answer == Err(RunFault::Write)
        && run.err.writer.taken == DONE.len()
        && run.out.writer.flushes == 1
        && run.err.writer.flushes == err_flushes
}
