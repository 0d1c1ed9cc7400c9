//! Examples of the engines and the command line of `erd_canon`.
use erd_canon::{
    Disposal, Free, Outcome, PairCommand, ReadFrom, ReportCommand, Request, RunFault, Sink, Source,
    WriteTo, command_line, command_line_data, run_canon, run_canon_disposing, run_canon_with,
    run_check, run_check_disposing, run_check_with, run_compare, run_compare_disposing,
    run_compare_with, run_pair, run_report, write_out,
};
use lower_uses::{CANONICAL, OTHER_NAME, REPORT};
use std::alloc::{AllocError, Global};
use std::mem;
use std::process::Abort;
use std::test::Fail;

#[test]
fn check(rt: HostRuntime) -> Result<(), Fail> {
    let alloc = rt.alloc();
    let mut reader = ReadFrom::of(REPORT.as_bytes());
    let mut out = WriteTo::of(Vec::new(alloc));
    let outcome = run_check(alloc, &mut reader, &mut out)?;
    assert!(rt; outcome == Outcome::Good);
    assert!(rt; out.writer.as_slice() == "accepted\n".as_bytes());
    Ok(())
}

#[test]
fn canon(rt: HostRuntime) -> Result<(), Fail> {
    let alloc = rt.alloc();
    let mut reader = ReadFrom::of(REPORT.as_bytes());
    let mut out = WriteTo::of(Vec::new(alloc));
    let mut err = WriteTo::of(Vec::new(alloc));
    let outcome = run_canon(alloc, &mut reader, &mut out, &mut err)?;
    assert!(rt; outcome.status() == 0);
    assert!(rt; out.writer.as_slice() == CANONICAL.as_bytes());
    went_well(&rt, &reader, &out);
    Ok(())
}

fn went_well(rt: &impl Abort, reader: &ReadFrom<&[u8]>, out: &WriteTo<Vec<u8>>) {
    assert!(rt; !reader.failed() && !out.failed());
}

#[test]
fn compare(rt: HostRuntime) -> Result<(), Fail> {
    let alloc = rt.alloc();
    let mut left = ReadFrom::of(REPORT.as_bytes());
    let mut right = ReadFrom::of(OTHER_NAME.as_bytes());
    let mut out = WriteTo::of(Vec::new(alloc));
    let outcome = run_compare(alloc, &mut left, &mut right, &mut out)?;
    assert!(rt; outcome.status() == 1);
    wrote(&rt, &out, "election: member \"Name\"\n");
    Ok(())
}

fn wrote(rt: &impl Abort, out: &WriteTo<Vec<u8>>, wanted: &str) {
    assert!(rt; out.writer.as_slice() == wanted.as_bytes());
}

#[test]
fn check_under_a_preference(rt: HostRuntime) -> Result<(), Fail> {
    let (alloc, prefer) = (rt.alloc(), Some("local-level"));
    let mut reader = ReadFrom::of(REPORT.as_bytes());
    let mut out = WriteTo::of(Vec::new(alloc));
    assert!(rt; run_check_with(alloc, &mut reader, &mut out, prefer)? == Outcome::Good);
    Ok(())
}

#[test]
fn canon_under_a_preference(rt: HostRuntime) -> Result<(), Fail> {
    let (alloc, prefer) = (rt.alloc(), Some("local-level"));
    let mut reader = ReadFrom::of(REPORT.as_bytes());
    let mut out = WriteTo::of(Vec::new(alloc));
    let mut err = WriteTo::of(Vec::new(alloc));
    assert!(rt; run_canon_with(alloc, &mut reader, &mut out, &mut err, prefer)? == Outcome::Good);
    Ok(())
}

#[test]
fn compare_under_a_preference(rt: HostRuntime) -> Result<(), Fail> {
    let (alloc, prefer) = (rt.alloc(), Some("local-level"));
    let mut left = ReadFrom::of(REPORT.as_bytes());
    let mut right = ReadFrom::of(REPORT.as_bytes());
    let mut out = WriteTo::of(Vec::new(alloc));
    assert!(rt; run_compare_with(alloc, &mut left, &mut right, &mut out, prefer)? == Outcome::Good);
    assert!(rt; out.writer.as_slice() == "same\n".as_bytes());
    Ok(())
}

#[test]
fn check_as_data(rt: HostRuntime) -> Result<(), Fail> {
    let (alloc, prefer) = (rt.alloc(), Some("local-level"));
    let mut reader = ReadFrom::of(REPORT.as_bytes());
    let mut out = WriteTo::of(Vec::new(alloc));
    let command = ReportCommand::CheckData;
    assert!(rt; run_report(alloc, &mut reader, &mut out, command, prefer)? == Outcome::Good);
    assert!(rt; out.writer.as_slice() == "[]\n".as_bytes());
    Ok(())
}

#[test]
fn differences(rt: HostRuntime) -> Result<(), Fail> {
    let (alloc, prefer) = (rt.alloc(), Some("local-level"));
    let mut left = ReadFrom::of(REPORT.as_bytes());
    let mut right = ReadFrom::of(OTHER_NAME.as_bytes());
    let mut out = WriteTo::of(Vec::new(alloc));
    let command = PairCommand::Differences;
    assert!(rt; run_pair(alloc, &mut left, &mut right, &mut out, command, prefer)? == Outcome::Bad);
    assert!(rt; out.writer.as_slice() == "election: member \"Name\"\n".as_bytes());
    Ok(())
}

// Whether the command answers for the two reports with this outcome and this text.
pub(crate) fn answers(
    alloc: Global,
    (left, right): (&str, &str),
    command: PairCommand,
    outcome: Outcome,
    text: &str,
) -> bool {
    let mut left = ReadFrom::of(left.as_bytes());
    let mut right = ReadFrom::of(right.as_bytes());
    let mut out = WriteTo::of(Vec::new(alloc));
    let prefer = Some("local-level");
    let answer = run_pair(alloc, &mut left, &mut right, &mut out, command, prefer);
    answer == Ok(outcome) && out.writer.as_slice() == text.as_bytes()
}

#[test]
fn pairs_as_data(rt: HostRuntime) {
    let (alloc, same, good) = (rt.alloc(), (REPORT, REPORT), Outcome::Good);
    assert!(rt; answers(alloc, same, PairCommand::CompareData, good, "null\n"));
    assert!(rt; answers(alloc, same, PairCommand::DifferencesData, good, "[]\n"));
}

// Leaves each value to the system, which takes all memory of the process back when it ends.
struct LeaveToExit;

impl Disposal for LeaveToExit {
    fn dispose<T: Drop>(&self, value: T) {
        mem::forget(value);
    }
}

#[test]
fn disposals(rt: HostRuntime) -> Result<(), Fail> {
    let alloc = rt.alloc();
    Free.dispose(String::from_str(alloc, "freed at once")?);
    LeaveToExit.dispose(String::from_str(alloc, "freed when the process ends")?);
    Ok(())
}

#[test]
fn check_and_leave(rt: HostRuntime) -> Result<(), Fail> {
    let (alloc, prefer, disposal) = (rt.alloc(), Some("local-level"), &LeaveToExit);
    let mut reader = ReadFrom::of(REPORT.as_bytes());
    let mut out = WriteTo::of(Vec::new(alloc));
    let outcome = run_check_disposing(alloc, &mut reader, &mut out, prefer, disposal)?;
    assert!(rt; outcome == Outcome::Good);
    Ok(())
}

#[test]
fn canon_and_leave(rt: HostRuntime) -> Result<(), Fail> {
    let (alloc, prefer, disposal) = (rt.alloc(), Some("local-level"), &LeaveToExit);
    let mut reader = ReadFrom::of(REPORT.as_bytes());
    let mut out = WriteTo::of(Vec::new(alloc));
    let mut err = WriteTo::of(Vec::new(alloc));
    let outcome = run_canon_disposing(alloc, &mut reader, &mut out, &mut err, prefer, disposal)?;
    assert!(rt; outcome == Outcome::Good);
    Ok(())
}

#[test]
fn compare_and_leave(rt: HostRuntime) -> Result<(), Fail> {
    let (alloc, prefer, disposal) = (rt.alloc(), Some("local-level"), &LeaveToExit);
    let mut left = ReadFrom::of(REPORT.as_bytes());
    let mut right = ReadFrom::of(REPORT.as_bytes());
    let mut out = WriteTo::of(Vec::new(alloc));
    let outcome = run_compare_disposing(alloc, &mut left, &mut right, &mut out, prefer, disposal)?;
    assert!(rt; outcome == Outcome::Good);
    Ok(())
}

#[test]
fn sources(rt: HostRuntime) {
    let mut source = ReadFrom::of("abc".as_bytes());
    let mut buffer = [0; 2];
    assert!(rt; source.read(&mut buffer).ok() == Some(2));
}

#[test]
fn sinks(rt: HostRuntime) {
    let mut sink = WriteTo::of(Vec::new(rt.alloc()));
    assert!(rt; sink.write("abc".as_bytes()).ok() == Some(3));
    assert!(rt; write_out(&mut sink, "def".as_bytes()).is_ok());
    assert!(rt; sink.flush().is_ok());
}

#[test]
fn statuses_of_faults(rt: HostRuntime) {
    assert!(rt; RunFault::Memory.status() == 4);
}

#[test]
fn words_of_faults(rt: HostRuntime) {
    assert!(rt; RunFault::Memory.words() == "no memory");
}

// The words of a command line, the first of which is the name of the program.
fn line_of(alloc: Global) -> Result<Vec<String>, AllocError> {
    let mut words = Vec::new(alloc);
    for word in ["erd", "check", "--prefer", "fips", "county.json"] {
        words.push(String::from_str(alloc, word)?)?;
    }
    Ok(words)
}

#[test]
fn lines(rt: HostRuntime) -> Result<(), Fail> {
    let alloc = rt.alloc();
    let words = line_of(alloc)?;
    let Request::Check(file, prefer) = command_line(alloc, &words)? else {
        return Err(Fail::from("another request"));
    };
    assert!(rt; file.as_str() == "county.json");
    assert!(rt; prefer.text() == Some("fips"));
    Ok(())
}

// The words of a command line that prepares a report.
fn line_with_steps(alloc: Global) -> Result<Vec<String>, AllocError> {
    let mut words = Vec::new(alloc);
    for word in ["erd", "prepare", "--steps", "removed,codes", "export.json"] {
        words.push(String::from_str(alloc, word)?)?;
    }
    Ok(words)
}

#[test]
fn lines_with_steps(rt: HostRuntime) -> Result<(), Fail> {
    let alloc = rt.alloc();
    let words = line_with_steps(alloc)?;
    let Request::Prepare(_, steps, _) = command_line(alloc, &words)? else {
        return Err(Fail::from("another request"));
    };
    assert!(rt; steps.text() == Some("removed,codes"));
    Ok(())
}

#[test]
fn lines_as_data(rt: HostRuntime) -> Result<(), Fail> {
    let alloc = rt.alloc();
    let words = line_of(alloc)?;
    let answer = command_line_data(alloc, &words)?;
    assert!(rt; answer.status == None);
    assert!(rt;
        answer.text.as_str()
            == r#"{"command":"check","files":["county.json"],"json":false,"prefer":"fips"}"#
    );
    Ok(())
}
