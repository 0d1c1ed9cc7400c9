//! Examples of the calls on ballots.
use crate::examples::engines::answers;
use erd_canon::{
    BallotsAsked, Outcome, PairCommand, ReadFrom, ReportCommand, WriteTo,
    ballot_differences_data_with, ballots_beside_data_with, ballots_data_with, run_report,
};
use lower_uses::{BALLOT, BESIDE, DIFFERENCE_LINES, DIFFERS, HEADS, UNLISTED};
use std::alloc::Global;
use std::process::Abort;
use std::test::Fail;

// The line for the ballots of the report.
const HEAD_LINE: &str = "ballot [\"local-level\",\"\",\"B1\"]: 1 lines\n";

#[test]
fn ballots_as_data(rt: HostRuntime) -> Result<(), Fail> {
    let (alloc, one) = (rt.alloc(), BALLOT.as_bytes());
    let answer = ballots_data_with(alloc, one, Some("fips"), BallotsAsked::Heads)?;
    assert!(rt; answer.text.as_str() == HEADS);
    let answer = ballots_data_with(alloc, one, Some("fips"), BallotsAsked::Ballot(1))?;
    assert!(rt; answer.text.as_str() == "null");
    Ok(())
}

#[test]
fn differences_as_data(rt: HostRuntime) -> Result<(), Fail> {
    let (alloc, one, other) = (rt.alloc(), BALLOT.as_bytes(), UNLISTED.as_bytes());
    let answer = ballot_differences_data_with(alloc, one, one, Some("fips"))?;
    assert!(rt; answer.outcome == Outcome::Good);
    assert!(rt; answer.text.as_str() == "[]");
    let answer = ballot_differences_data_with(alloc, one, other, Some("fips"))?;
    assert!(rt; answer.outcome == Outcome::Bad);
    assert!(rt; answer.text.as_str() == DIFFERS);
    Ok(())
}

#[test]
fn beside_as_data(rt: HostRuntime) -> Result<(), Fail> {
    let (alloc, one) = (rt.alloc(), BALLOT.as_bytes());
    let answer = ballots_beside_data_with(alloc, one, 0, one, 0, Some("fips"))?;
    assert!(rt; answer.text.as_str() == BESIDE);
    Ok(())
}

// Whether the command answers for the report with this outcome and this text.
fn tells(
    alloc: Global,
    report: &str,
    command: ReportCommand,
    outcome: Outcome,
    text: &str,
) -> bool {
    let mut reader = ReadFrom::of(report.as_bytes());
    let mut out = WriteTo::of(Vec::new(alloc));
    let answer = run_report(alloc, &mut reader, &mut out, command, Some("local-level"));
    answer == Ok(outcome) && out.writer.as_slice() == text.as_bytes()
}

#[test]
fn heads(rt: HostRuntime) {
    let alloc = rt.alloc();
    assert!(rt;
        tells(
            alloc,
            BALLOT,
            ReportCommand::Ballots,
            Outcome::Good,
            HEAD_LINE
        )
    );
    let (command, text) = (ReportCommand::BallotsData, "\"not JSON\"\n");
    assert!(rt; tells(alloc, "{", command, Outcome::NotJson, text));
}

#[test]
fn differences(rt: HostRuntime) {
    let (alloc, other) = (rt.alloc(), (BALLOT, UNLISTED));
    let command = PairCommand::BallotDifferences;
    assert!(rt; answers(alloc, other, command, Outcome::Bad, DIFFERENCE_LINES));
    let command = PairCommand::BallotDifferencesData;
    assert!(rt; answers(alloc, (BALLOT, BALLOT), command, Outcome::Good, "[]\n"));
}
