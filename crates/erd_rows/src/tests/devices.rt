//! Runs over readers and writers that are long, slow or failing. A run ends at the first failure, and uses no device again.
use crate::tests::answers::{ACCEPTED, SAME};
use crate::tests::edits::{Base, made};
use crate::tests::readers::{FailingReader, PaddedReader};
use crate::tests::runs::{PLAIN, canon_run, check_run, compare_run};
use crate::tests::vectors::{
    ONE_UNIT, ONE_UNIT_CANONICAL, SMALL_BALLOT, SMALL_BALLOT_CANONICAL, THREE_SHAPE_FAULT_EDITS,
    THREE_SHAPE_FAULT_LINES,
};
use crate::tests::writers::{ExpectedWriter, FailingWriter, FullWriter};
use erd_canon::{MOST_BYTES, Outcome, RunFault, Sink, Source, WriteTo};
use std::alloc::Global;
use std::process::Abort;
use std::test::Fail;

// A writer of the text, or of nothing where the run fails.
fn expecting<'a>(text: &'a str, wanted: &Result<Outcome, RunFault>) -> ExpectedWriter<'a> {
    ExpectedWriter::of(if wanted.is_ok() { text } else { "" })
}

// The report of one unit, and this many blanks after it.
fn padded(blanks: usize) -> PaddedReader<'static> {
    PaddedReader {
        text: ONE_UNIT.as_bytes(),
        blanks,
    }
}

fn canon_of_long(alloc: Global, blanks: usize, wanted: Result<Outcome, RunFault>) -> bool {
    let out = expecting(ONE_UNIT_CANONICAL, &wanted);
    let run = canon_run(alloc, PLAIN, padded(blanks), out, ExpectedWriter::of(""));
    run.answer == wanted && run.out.writer.is_whole() && run.err.writer.is_whole()
}

fn check_of_long(alloc: Global, blanks: usize, wanted: Result<Outcome, RunFault>) -> bool {
    let out = expecting(ACCEPTED, &wanted);
    let run = check_run(alloc, PLAIN, padded(blanks), out);
    run.answer == wanted && run.out.writer.is_whole()
}

fn long(rt: &impl Abort, alloc: Global, blanks: usize, wanted: Result<Outcome, RunFault>) {
    assert!(rt;
        canon_of_long(alloc, blanks, wanted),
        "canon with {blanks} blanks"
    );
    assert!(rt;
        check_of_long(alloc, blanks, wanted),
        "check with {blanks} blanks"
    );
}

#[test]
fn largest_input(rt: HostRuntime) {
    let room = MOST_BYTES.saturating_sub(ONE_UNIT.len());
    long(&rt, rt.alloc(), room, Ok(Outcome::Good));
    long(
        &rt,
        rt.alloc(),
        room.saturating_add(1),
        Err(RunFault::TooLong),
    );
}

// What a run should answer if the read after this many reads fails, of a report whose reads are this many.
fn at_read(good_reads: usize, all: usize) -> Result<Outcome, RunFault> {
    if good_reads == all {
        Ok(Outcome::Good)
    } else {
        Err(RunFault::Read)
    }
}

// The number of reads of a report that gives one byte a read: also the one that reaches its end.
fn reads_of(report: &str) -> usize {
    report.len().saturating_add(1)
}

fn canon_reads(alloc: Global, report: &str, form: &str, good_reads: usize) -> bool {
    let all = reads_of(report);
    let wanted = at_read(good_reads, all);
    let reader = FailingReader::after(report.as_bytes(), good_reads);
    let out = expecting(form, &wanted);
    let run = canon_run(alloc, PLAIN, reader, out, ExpectedWriter::of(""));
    run.answer == wanted
        && run.reader.failed() == wanted.is_err()
        && run.reader.reader.reads == good_reads.saturating_add(1).min(all)
        && run.out.writer.is_whole()
        && run.err.writer.is_whole()
}

fn check_reads(alloc: Global, report: &str, good_reads: usize) -> bool {
    let all = reads_of(report);
    let wanted = at_read(good_reads, all);
    let reader = FailingReader::after(report.as_bytes(), good_reads);
    let run = check_run(alloc, PLAIN, reader, expecting(ACCEPTED, &wanted));
    run.answer == wanted
        && run.reader.failed() == wanted.is_err()
        && run.reader.reader.reads == good_reads.saturating_add(1).min(all)
        && run.out.writer.is_whole()
}

// A run is right for each number of good calls, up to the number of all.
fn at_each<F: Fn(usize) -> bool>(rt: &impl Abort, name: &str, all: usize, is_right: F)
    requires { F.IsAlwaysCallable is_right }
{
    for good in 0..all.saturating_add(1) {
        assert!(rt; is_right(good), "{name} at {good}");
    }
}

fn reads(rt: &impl Abort, alloc: Global, report: &str, form: &str) {
    let all = reads_of(report);
    at_each(rt, "canon", all, |it| canon_reads(alloc, report, form, it));
    at_each(rt, "check", all, |it| check_reads(alloc, report, it));
}

// A failure at each read, also at the one that would have reached the end.
#[test]
fn each_read_fails(rt: HostRuntime) {
    let alloc = rt.alloc();
    reads(&rt, alloc, ONE_UNIT, ONE_UNIT_CANONICAL);
    reads(&rt, alloc, SMALL_BALLOT, SMALL_BALLOT_CANONICAL);
}

// If a read of the left reader fails, the right one is not read.
fn left_reads(alloc: Global, good_reads: usize) -> bool {
    let left = FailingReader::after(SMALL_BALLOT.as_bytes(), good_reads);
    let right = FailingReader::after(ONE_UNIT.as_bytes(), usize::MAX);
    let run = compare_run(alloc, PLAIN, left, right, ExpectedWriter::of(""));
    run.answer == Err(RunFault::Read)
        && run.left.reader.reads == good_reads.saturating_add(1)
        && run.right.reader.reads == 0
        && run.out.writer.is_whole()
}

fn right_reads(alloc: Global, good_reads: usize) -> bool {
    let all = reads_of(SMALL_BALLOT);
    let wanted = at_read(good_reads, all);
    let left = SMALL_BALLOT_CANONICAL.as_bytes();
    let right = FailingReader::after(SMALL_BALLOT.as_bytes(), good_reads);
    let run = compare_run(alloc, PLAIN, left, right, expecting(SAME, &wanted));
    run.answer == wanted
        && run.right.reader.reads == good_reads.saturating_add(1).min(all)
        && run.out.writer.is_whole()
}

#[test]
fn each_read_of_compare_fails(rt: HostRuntime) {
    let (alloc, length) = (rt.alloc(), SMALL_BALLOT.len());
    at_each(&rt, "left", length, |it| left_reads(alloc, it));
    let all = reads_of(SMALL_BALLOT);
    at_each(&rt, "right", all, |it| right_reads(alloc, it));
}

// How a run ends that writes a text of this length, and whose write after this many writes fails.
#[derive(Clone, Copy)]
struct Writes {
    good: usize,
    all: usize,
    outcome: Outcome,
}

impl Writes {
    // No write fails.
    fn of(all: usize, outcome: Outcome) -> Writes {
        Writes {
            good: all,
            all,
            outcome,
        }
    }

    // Whether the run answered so. Its writer took as many bytes as it could, was not used again, and was flushed only after the
    // last one.
    fn ended(self, answer: Result<Outcome, RunFault>, out: &WriteTo<FailingWriter>) -> bool {
        let is_whole = self.good == self.all;
        let wanted = if is_whole {
            Ok(self.outcome)
        } else {
            Err(RunFault::Write)
        };
        answer == wanted
            && out.failed() != is_whole
            && out.writer.taken == self.good
            && out.writer.writes == self.good.saturating_add(1).min(self.all)
            && out.writer.flushes == if is_whole { 1 } else { 0 }
    }
}

fn canon_writes(alloc: Global, one: &[u8], writes: Writes) -> bool {
    let (out, err) = (FailingWriter::after(writes.good), FailingWriter::after(0));
    let run = canon_run(alloc, PLAIN, one, out, err);
    writes.ended(run.answer, &run.out)
}

// Nothing is flushed before the fault lines are written.
fn error_writes(alloc: Global, refused: &[u8], writes: Writes) -> bool {
    let (out, err) = (FailingWriter::after(0), FailingWriter::after(writes.good));
    let run = canon_run(alloc, PLAIN, refused, out, err);
    writes.ended(run.answer, &run.err)
        && run.out.writer.flushes == run.err.writer.flushes
        && run.out.writer.writes == 0
}

fn check_writes(alloc: Global, refused: &[u8], writes: Writes) -> bool {
    let run = check_run(alloc, PLAIN, refused, FailingWriter::after(writes.good));
    writes.ended(run.answer, &run.out)
}

fn compare_writes(alloc: Global, refused: &[u8], writes: Writes) -> bool {
    let (other, out) = (SMALL_BALLOT.as_bytes(), FailingWriter::after(writes.good));
    let run = compare_run(alloc, PLAIN, refused, other, out);
    writes.ended(run.answer, &run.out)
}

// A run is right for each number of good writes, up to the number of all.
fn at_each_write<F: Fn(Writes) -> bool>(rt: &impl Abort, name: &str, whole: Writes, is_right: F)
    requires { F.IsAlwaysCallable is_right }
{
    at_each(
        rt,
        name,
        whole.all,
        |good| is_right(Writes { good, ..whole }),
    );
}

fn writes_of_faults(rt: &impl Abort, alloc: Global, refused: &[u8]) {
    let whole = Writes::of(THREE_SHAPE_FAULT_LINES.len(), Outcome::Bad);
    at_each_write(rt, "check", whole, |it| check_writes(alloc, refused, it));
    at_each_write(rt, "err", whole, |it| error_writes(alloc, refused, it));
    // Three lines, each after `left: `.
    let whole = Writes::of(whole.all.saturating_add(18), Outcome::Bad);
    at_each_write(rt, "beside", whole, |it| compare_writes(alloc, refused, it));
}

// A failure at each write of one byte.
#[test]
fn each_write_fails(rt: HostRuntime) -> Result<(), Fail> {
    let (alloc, one) = (rt.alloc(), ONE_UNIT.as_bytes());
    let whole = Writes::of(ONE_UNIT_CANONICAL.len(), Outcome::Good);
    at_each_write(&rt, "canon", whole, |it| canon_writes(alloc, one, it));
    let refused = made(alloc, (Base::SmallBallot, THREE_SHAPE_FAULT_EDITS))?;
    writes_of_faults(&rt, alloc, refused.as_bytes());
    Ok(())
}

fn canon_flushes(alloc: Global, one: &[u8]) -> bool {
    let (out, err) = (FailingWriter::at_flush(), FailingWriter::after(0));
    let run = canon_run(alloc, PLAIN, one, out, err);
    run.answer == Err(RunFault::Write)
        && run.out.failed()
        && run.out.writer.taken == ONE_UNIT_CANONICAL.len()
        && run.out.writer.flushes == 1
        && run.err.writer.flushes == 0
}

fn error_flushes(alloc: Global, one: &[u8]) -> bool {
    let (out, err) = (FailingWriter::after(usize::MAX), FailingWriter::at_flush());
    let run = canon_run(alloc, PLAIN, one, out, err);
    run.answer == Err(RunFault::Write)
        && run.err.failed()
        && run.out.writer.flushes == 1
        && run.err.writer.flushes == 1
        && run.err.writer.writes == 0
}

// Whether the one writer of a run took a text of this length, and was flushed once.
fn is_flushed(
    answer: Result<Outcome, RunFault>,
    out: &WriteTo<FailingWriter>,
    length: usize,
) -> bool {
    answer == Err(RunFault::Write)
        && out.failed()
        && out.writer.taken == length
        && out.writer.flushes == 1
}

fn check_flushes(alloc: Global, one: &[u8]) -> bool {
    let run = check_run(alloc, PLAIN, one, FailingWriter::at_flush());
    is_flushed(run.answer, &run.out, ACCEPTED.len())
}

fn compare_flushes(alloc: Global, one: &[u8]) -> bool {
    let run = compare_run(alloc, PLAIN, one, one, FailingWriter::at_flush());
    is_flushed(run.answer, &run.out, SAME.len())
}

// Each writer is flushed once. A flush that fails ends the run.
#[test]
fn each_flush_fails(rt: HostRuntime) {
    let (alloc, one) = (rt.alloc(), ONE_UNIT.as_bytes());
    assert!(rt; canon_flushes(alloc, one) && error_flushes(alloc, one));
    assert!(rt; check_flushes(alloc, one) && compare_flushes(alloc, one));
}

fn canon_into_nothing(alloc: Global, report: &[u8]) -> bool {
    let run = canon_run(alloc, PLAIN, report, FullWriter, FullWriter);
    run.answer == Err(RunFault::Write) && run.out.failed() != run.err.failed()
}

fn check_into_nothing(alloc: Global, report: &[u8]) -> bool {
    let run = check_run(alloc, PLAIN, report, FullWriter);
    run.answer == Err(RunFault::Write) && run.out.failed()
}

fn compare_into_nothing(alloc: Global, report: &[u8]) -> bool {
    let run = compare_run(alloc, PLAIN, report, report, FullWriter);
    run.answer == Err(RunFault::Write) && run.out.failed()
}

// A writer that takes no byte of a slice that is not empty has failed. It is the first writer of a run, or the second.
#[test]
fn writers_that_take_nothing(rt: HostRuntime) -> Result<(), Fail> {
    let (alloc, one) = (rt.alloc(), ONE_UNIT.as_bytes());
    assert!(rt; check_into_nothing(alloc, one) && compare_into_nothing(alloc, one));
    let refused = made(alloc, (Base::SmallBallot, THREE_SHAPE_FAULT_EDITS))?;
    assert!(rt; canon_into_nothing(alloc, one) && canon_into_nothing(alloc, refused.as_bytes()));
    Ok(())
}

const WORDS: &[(RunFault, &str)] = &[
    (RunFault::TooLong, "too long"),
    (RunFault::Read, "read failed"),
    (RunFault::Write, "write failed"),
    (RunFault::Memory, "no memory"),
];

fn words_are(rt: &impl Abort, alloc: Global, table: &[(RunFault, &str)]) -> Result<(), Fail> {
    for (fault, words) in table {
        let text = fault.to_string(alloc)?;
        assert!(rt; text.as_str() == *words && fault.words() == *words);
    }
    Ok(())
}

// The displayed text of a fault is its words.
#[test]
fn words(rt: HostRuntime) -> Result<(), Fail> {
    words_are(&rt, rt.alloc(), WORDS)
}
