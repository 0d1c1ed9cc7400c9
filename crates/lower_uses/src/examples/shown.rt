//! Examples of `erd_shown`.
use crate::callers::report_of;
use crate::small_reports::{BALLOT, BESIDE, DIFFERENCE_LINES, DIFFERS, HEADS, UNLISTED};
use erd_meaning::Report;
use erd_shown::{
    Row, ballot_differences_lines, ballot_differences_text, ballot_text, ballots_beside_text,
    ballots_lines, ballots_text, contest_with_key, differing_ballots, occurrences, partners_of,
    rows_between, rows_of, selection_value_text, side_value_text, write_ballots_beside,
    write_object,
};
use erd_tables::{Family, Role};
use erd_text::Output;
use serde_json::Value;
use std::alloc::Global;
use std::process::Abort;
use std::test::Fail;

// What the contest means: its selections stand in the order of their names, with keys in place of references.
const CONTEST: &str = concat!(
    r#"{"class":"ElectionResults.CandidateContest","election":["local-level","","E1"],"#,
    r#""members":{"ContestSelection":[{"name":["ElectionResults.CandidateSelection",[],true,null,null,null],"#,
    r#""record":{"class":"ElectionResults.CandidateSelection","members":{"IsWriteIn":true}}},"#,
    r#"{"name":["ElectionResults.CandidateSelection",[["local-level","","K1"]],false,null,null,null],"#,
    r#""record":{"class":"ElectionResults.CandidateSelection","members":{"CandidateIds":[["local-level","","K1"]]}}}],"#,
    r#""ElectionDistrictId":["fips","","20"],"ExternalIdentifier":[{"@type":"ElectionResults.ExternalIdentifier","Type":"local-level","#,
    r#""Value":"C1"}],"Name":"Mayor","VotesAllowed":1}}"#,
);

// What the style means: the order of its ballot has the names of selections.
const STYLE: &str = concat!(
    r#"{"class":"ElectionResults.BallotStyle","election":["local-level","","E1"],"#,
    r#""members":{"ExternalIdentifier":[{"@type":"ElectionResults.ExternalIdentifier","Type":"local-level","Value":"B1"}],"#,
    r#""GpUnitIds":[["fips","","20"]],"OrderedContent":[{"carried":{},"contest":["local-level","","C1"],"#,
    r#""selections":[["ElectionResults.CandidateSelection",[["local-level","","K1"]],false,null,null,null]]}]}}"#,
);

// The ballot of the style: its election, its contest, with the selection that it lists, and the unit whose voters get it.
const BALLOT_LINES: &str = concat!(
    r#"{"election":["local-level","","E1"],"key":["local-level","","B1"],"lines":[{"depth":0,"listed":true,"#,
    r#""selections":[["ElectionResults.CandidateSelection",[["local-level","","K1"]],false,null,null,null]],"#,
    r#""what":["contest",["local-level","","C1"]]}],"parties":[],"units":[["fips","","20"]]}"#,
);

fn no_header(rt: &impl Abort, alloc: Global, report: &Report) -> Result<(), Fail> {
    let mut out = Output::new(alloc);
    write_object(alloc, report, Role::OfFamily(Family::Header), 0, &mut out)?;
    assert!(rt; out.into_text().as_slice() == b"null".as_slice());
    Ok(())
}

// The election of the contest, which no class lists as a member.
const ELECTION: &str = r#"["local-level","","E1"]"#;

// The record of the contest, without its selections.
const CONTEST_RECORD: &str = concat!(
    r#"{"class":"ElectionResults.CandidateContest","election":["local-level","","E1"],"members":{"ElectionDistrictId":["fips","","20"],"#,
    r#""ExternalIdentifier":[{"@type":"ElectionResults.ExternalIdentifier","Type":"local-level","Value":"C1"}],"Name":"Mayor","#,
    r#""VotesAllowed":1}}"#,
);

fn values_are(rt: &impl Abort, alloc: Global, report: &Report) -> Result<(), Fail> {
    let contest = Role::OfFamily(Family::Contest);
    let key = report.key_at(Family::Contest, 0);
    let name = side_value_text(alloc, report, contest, key, Some("Name"))?;
    assert!(rt; name.ok_or("no name")?.as_str() == r#""Mayor""#);
    let election = side_value_text(alloc, report, contest, key, Some("ElectionId"))?;
    assert!(rt; election.ok_or("no election")?.as_str() == ELECTION);
    let record = side_value_text(alloc, report, contest, key, None)?;
    assert!(rt; record.ok_or("no contest")?.as_str() == CONTEST_RECORD);
    let selections = side_value_text(alloc, report, contest, key, Some("ContestSelection"))?;
    assert!(rt; selections.is_none());
    Ok(())
}

// The record of the write-in line of the contest.
const WRITE_IN: &str =
    r#"{"class":"ElectionResults.CandidateSelection","members":{"IsWriteIn":true}}"#;

fn values_inside_are(rt: &impl Abort, alloc: Global, report: &Report) -> Result<(), Fail> {
    let key = report.key_at(Family::Contest, 0);
    assert!(rt; contest_with_key(report, key) == Some(0));
    let contest = contest_with_key(report, key);
    let (_, name) = report.selection_at(0).ok_or("no selection")?;
    let flag = selection_value_text(alloc, report, contest, name, Some("IsWriteIn"))?;
    assert!(rt; flag.ok_or("no flag")?.as_str() == "true");
    let record = selection_value_text(alloc, report, contest, name, None)?;
    assert!(rt; record.ok_or("no record")?.as_str() == WRITE_IN);
    Ok(())
}

fn object_is(
    rt: &impl Abort,
    alloc: Global,
    report: &Report,
    family: Family,
    text: &str,
) -> Result<(), Fail> {
    let mut out = Output::new(alloc);
    write_object(alloc, report, Role::OfFamily(family), 0, &mut out)?;
    assert!(rt; out.into_text().as_slice() == text.as_bytes());
    Ok(())
}

fn objects_are(rt: &impl Abort, alloc: Global, report: &Report) -> Result<(), Fail> {
    no_header(rt, alloc, report)?;
    object_is(rt, alloc, report, Family::Contest, CONTEST)?;
    object_is(rt, alloc, report, Family::Style, STYLE)
}

#[test]
fn objects(rt: HostRuntime) -> Result<(), Fail> {
    let alloc = rt.alloc();
    let tree = Value::from_str(alloc, BALLOT)?;
    let report = report_of(alloc, &tree)?;
    objects_are(&rt, alloc, &report)
}

#[test]
fn rows_of_two_ballots(rt: HostRuntime) -> Result<(), Fail> {
    let alloc = rt.alloc();
    let rows = rows_of(alloc, &[Some(1), None], &[None, Some(0)], &[true, true])?;
    assert!(rt; rows.first() == Some(&Row::Added(0)));
    assert!(rt; rows.get(1) == Some(&Row::Both(0, 1)));
    assert!(rt; rows.get(2) == Some(&Row::Removed(1)));
    Ok(())
}

fn ballots_are(rt: &impl Abort, alloc: Global, report: &Report) -> Result<(), Fail> {
    let text = ballot_text(alloc, report, 0)?;
    assert!(rt; text.as_str() == BALLOT_LINES);
    Ok(())
}

fn heads_are(rt: &impl Abort, alloc: Global, report: &Report) -> Result<(), Fail> {
    let text = ballots_text(alloc, report)?;
    assert!(rt; text.as_str() == HEADS);
    let text = ballots_lines(alloc, report)?;
    assert!(rt; text.as_str() == "ballot [\"local-level\",\"\",\"B1\"]: 1 lines\n");
    Ok(())
}

fn ballots_stand_beside(
    rt: &impl Abort,
    alloc: Global,
    left: &Report,
    right: &Report,
) -> Result<(), Fail> {
    let style = left.object(Family::Style, 0).ok_or("no style")?;
    let other = right.object(Family::Style, 0).ok_or("no style")?;
    let mut out = Output::new(alloc);
    write_ballots_beside(alloc, left, style, right, other, &mut out)?;
    assert!(rt; out.into_text().as_slice() == BESIDE.as_bytes());
    Ok(())
}

fn texts_stand_beside(
    rt: &impl Abort,
    alloc: Global,
    left: &Report,
    right: &Report,
) -> Result<(), Fail> {
    let text = ballots_beside_text(alloc, left, 0, right, 0)?;
    assert!(rt; text.as_str() == BESIDE);
    let missing = ballots_beside_text(alloc, left, 0, right, 1)?;
    assert!(rt; missing.as_str() == "null");
    Ok(())
}

fn no_ballot_differs(
    rt: &impl Abort,
    alloc: Global,
    left: &Report,
    right: &Report,
) -> Result<(), Fail> {
    let found = differing_ballots(alloc, left, right)?;
    let text = ballot_differences_text(alloc, left, right, &found)?;
    assert!(rt; text.as_str() == "[]");
    let text = ballot_differences_lines(alloc, left, right, &found)?;
    assert!(rt; text.as_str() == "same ballots\n");
    Ok(())
}

fn a_ballot_differs(
    rt: &impl Abort,
    alloc: Global,
    left: &Report,
    right: &Report,
) -> Result<(), Fail> {
    let found = differing_ballots(alloc, left, right)?;
    assert!(rt; found.first().and_then(|style| style.left) == Some(0));
    let text = ballot_differences_text(alloc, left, right, &found)?;
    assert!(rt; text.as_str() == DIFFERS);
    Ok(())
}

fn a_difference_is_told(
    rt: &impl Abort,
    alloc: Global,
    left: &Report,
    right: &Report,
) -> Result<(), Fail> {
    let found = differing_ballots(alloc, left, right)?;
    let text = ballot_differences_lines(alloc, left, right, &found)?;
    assert!(rt; text.as_str() == DIFFERENCE_LINES);
    Ok(())
}

#[test]
fn same_ballots(rt: HostRuntime) -> Result<(), Fail> {
    let alloc = rt.alloc();
    let left_tree = Value::from_str(alloc, BALLOT)?;
    let right_tree = Value::from_str(alloc, BALLOT)?;
    let left = report_of(alloc, &left_tree)?;
    let right = report_of(alloc, &right_tree)?;
    no_ballot_differs(&rt, alloc, &left, &right)
}

#[test]
fn differences_of_ballots(rt: HostRuntime) -> Result<(), Fail> {
    let alloc = rt.alloc();
    let left_tree = Value::from_str(alloc, BALLOT)?;
    let right_tree = Value::from_str(alloc, UNLISTED)?;
    let left = report_of(alloc, &left_tree)?;
    let right = report_of(alloc, &right_tree)?;
    a_ballot_differs(&rt, alloc, &left, &right)?;
    a_difference_is_told(&rt, alloc, &left, &right)
}

#[test]
fn ballots(rt: HostRuntime) -> Result<(), Fail> {
    let alloc = rt.alloc();
    let tree = Value::from_str(alloc, BALLOT)?;
    let report = report_of(alloc, &tree)?;
    ballots_are(&rt, alloc, &report)
}

#[test]
fn heads(rt: HostRuntime) -> Result<(), Fail> {
    let alloc = rt.alloc();
    let tree = Value::from_str(alloc, BALLOT)?;
    let report = report_of(alloc, &tree)?;
    heads_are(&rt, alloc, &report)
}

#[test]
fn ballots_beside(rt: HostRuntime) -> Result<(), Fail> {
    let alloc = rt.alloc();
    let left_tree = Value::from_str(alloc, BALLOT)?;
    let right_tree = Value::from_str(alloc, BALLOT)?;
    let left = report_of(alloc, &left_tree)?;
    let right = report_of(alloc, &right_tree)?;
    ballots_stand_beside(&rt, alloc, &left, &right)?;
    texts_stand_beside(&rt, alloc, &left, &right)
}

#[test]
fn values_by_keys(rt: HostRuntime) -> Result<(), Fail> {
    let alloc = rt.alloc();
    let tree = Value::from_str(alloc, BALLOT)?;
    let report = report_of(alloc, &tree)?;
    values_are(&rt, alloc, &report)
}

#[test]
fn values_by_names(rt: HostRuntime) -> Result<(), Fail> {
    let alloc = rt.alloc();
    let tree = Value::from_str(alloc, BALLOT)?;
    let report = report_of(alloc, &tree)?;
    values_inside_are(&rt, alloc, &report)
}

#[test]
fn occurrences_and_partners(rt: HostRuntime) -> Result<(), Fail> {
    let alloc = rt.alloc();
    let counted = occurrences(alloc, &[7, 8, 7])?;
    assert!(rt; counted.get(2) == Some(&(7, 1)));
    let partners = partners_of(alloc, &[7, 8, 7], &[9, 7, 7, 7])?;
    assert!(rt; partners.as_slice() == [Some(1), None, Some(2)].as_slice());
    Ok(())
}

#[test]
fn rows_between_two_lists(rt: HostRuntime) -> Result<(), Fail> {
    let alloc = rt.alloc();
    let rows = rows_between(alloc, &[1, 2, 3], &[2, 3, 1])?;
    assert!(rt; rows.first() == Some(&Row::MovedAway(0, 2)));
    assert!(rt; rows.get(1) == Some(&Row::Both(1, 0)));
    assert!(rt; rows.get(3) == Some(&Row::MovedHere(0, 2)));
    Ok(())
}
