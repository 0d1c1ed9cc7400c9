//! The worked rows, by their tables, and rows that are made here. Some are tried with each request for memory refused.
use crate::tests::answers::{Answer, NOT_JSON};
use crate::tests::edits::{Base, edited, made, spelled};
use crate::tests::report_calls::{Checked, by_check_bytes};
use crate::tests::rows::{form_is, is_itself, taking, tell};
use crate::tests::runs::PLAIN;
use crate::tests::vectors::{ONE_UNIT, SMALL_BALLOT, SMALL_BALLOT_CANONICAL};
use crate::tests::{
    canonical_rows, checked_rows, compared_rows, election_rows, later_rows, preferred_rows,
};
use std::alloc::{AllocError, Global};
use std::process::Abort;
use std::test::Fail;

// Tries each call on each row of this name, or on each row where there is no name.
fn of_each_table(alloc: Global, name: Option<&str>) -> Result<(), Fail> {
    checked_rows::hold(alloc, name)?;
    later_rows::hold(alloc, name)?;
    canonical_rows::hold(alloc, name)?;
    compared_rows::hold(alloc, name)?;
    preferred_rows::hold(alloc, name)?;
    election_rows::hold(alloc, name)
}

#[test]
fn worked_rows(rt: HostRuntime) -> Result<(), Fail> {
    of_each_table(rt.alloc(), None)
}

// Tries each call on each row of these names.
fn rows_named(alloc: Global, names: &[&str]) -> Result<(), Fail> {
    for name in names {
        of_each_table(alloc, Some(*name))?;
    }
    Ok(())
}

#[test]
fn refused_two_vendors(rt: HostRuntime) -> Result<(), Fail> {
    rows_named(rt.alloc(), &["two_vendors", "one_unit"])
}

#[test]
fn refused_shape(rt: HostRuntime) -> Result<(), Fail> {
    rows_named(rt.alloc(), &["three_shape_faults", "not_json"])
}

#[test]
fn refused_later_phases(rt: HostRuntime) -> Result<(), Fail> {
    let names = [
        "twin_unit_key",
        "wrong_and_unresolved_reference",
        "write_in_lines",
    ];
    rows_named(rt.alloc(), &names)
}

#[test]
fn refused_difference(rt: HostRuntime) -> Result<(), Fail> {
    rows_named(rt.alloc(), &["other_candidate_key"])
}

#[test]
fn refused_preferences(rt: HostRuntime) -> Result<(), Fail> {
    preferred_rows::hold(rt.alloc(), None)
}

#[test]
fn refused_elections(rt: HostRuntime) -> Result<(), Fail> {
    let names = [
        "contests_of_two_elections",
        "contest_moved_to_another_election",
    ];
    rows_named(rt.alloc(), &names)
}

// The byte FF occurs in no UTF-8 text.
#[test]
fn not_text(rt: HostRuntime) -> Result<(), Fail> {
    let asked = Checked {
        report: b"\xff",
        lines: NOT_JSON,
        form: "",
        under: taking(None),
    };
    tell(rt.alloc(), "not_text", asked)
}

// The bytes are not JSON. This asks only `check_bytes`, which is the fastest call.
fn is_no_json(alloc: Global, report: &[u8]) -> bool {
    let asked = Checked {
        report,
        lines: NOT_JSON,
        form: "",
        under: PLAIN,
    };
    by_check_bytes(alloc, &asked) == Answer::Right
}

fn cuts(rt: &impl Abort, alloc: Global, report: &[u8]) -> Result<(), Fail> {
    let mut rest = report;
    for _ in 0..report.len() {
        let (_, shorter) = rest.split_last().ok_or("no bytes")?;
        let length = shorter.len();
        assert!(rt; is_no_json(alloc, shorter), "cut at {length}");
        rest = shorter;
    }
    Ok(())
}

// A report cut short at any byte.
#[test]
fn cut_short(rt: HostRuntime) -> Result<(), Fail> {
    cuts(&rt, rt.alloc(), SMALL_BALLOT.as_bytes())
}

fn bytes_of_no_text(rt: &impl Abort, alloc: Global, report: &mut [u8]) {
    for index in 0..report.len() {
        let own = report[index];
        report[index] = b'\xff';
        assert!(rt; is_no_json(alloc, report), "at {index}");
        report[index] = own;
    }
}

// A report with any byte replaced by FF.
#[test]
fn a_byte_of_no_text(rt: HostRuntime) -> Result<(), Fail> {
    let mut report = ONE_UNIT.as_bytes().to_vec(rt.alloc())?;
    bytes_of_no_text(&rt, rt.alloc(), &mut report);
    Ok(())
}

// The candidates of the small ballot, and the selections of its first contest.
const CANDIDATES: [&str; 3] = [
    r#"{"@id":"a7","@type":"%Candidate",#K3&,"BallotName":"Cy","PartyId":"a3"}"#,
    r#"{"@id":"a5","@type":"%Candidate",#K1&,"BallotName":"Ann","PersonId":"a16"}"#,
    r#"{"@id":"a6","@type":"%Candidate",#K2&,"BallotName":"Bo"}"#,
];

const SELECTIONS: [&str; 3] = [
    r#"{"@id":"a9","@type":"%CandidateSelection","CandidateIds":["a6","a5"]}"#,
    r#"{"@id":"a10","@type":"%CandidateSelection","CandidateIds":["a7"]}"#,
    r#"{"@id":"a11","@type":"%CandidateSelection","IsWriteIn":true}"#,
];

// All orders of three positions.
pub const ORDERS: [[usize; 3]; 6] = [
    [0, 1, 2],
    [0, 2, 1],
    [1, 0, 2],
    [1, 2, 0],
    [2, 0, 1],
    [2, 1, 0],
];

// The texts in this order, joined with commas.
fn joined(alloc: Global, texts: &[&str], order: &[usize]) -> Result<String, AllocError> {
    let mut whole = String::new(alloc);
    for position in order {
        if !whole.is_empty() {
            whole.push(',')?;
        }
        whole.push_str(texts.get(*position).copied().unwrap_or(""))?;
    }
    spelled(alloc, whole.as_str())
}

fn orders_of_selections(alloc: Global, report: &str, own: &str) -> Result<(), Fail> {
    for order in ORDERS {
        let selections = joined(alloc, &SELECTIONS, &order)?;
        let report = edited(alloc, report, own, selections.as_str())?;
        form_is(
            alloc,
            "orders",
            None,
            report.as_str(),
            SMALL_BALLOT_CANONICAL,
        )?;
    }
    Ok(())
}

fn orders_of_candidates(alloc: Global, report: &str, own: &str) -> Result<(), Fail> {
    let own_selections = joined(alloc, &SELECTIONS, &ORDERS[0])?;
    for order in ORDERS {
        let candidates = joined(alloc, &CANDIDATES, &order)?;
        let report = edited(alloc, report, own, candidates.as_str())?;
        orders_of_selections(alloc, report.as_str(), own_selections.as_str())?;
    }
    Ok(())
}

#[test]
fn every_order_of_candidates_and_selections(rt: HostRuntime) -> Result<(), Fail> {
    let alloc = rt.alloc();
    let own = joined(alloc, &CANDIDATES, &ORDERS[0])?;
    orders_of_candidates(alloc, SMALL_BALLOT, own.as_str())
}

// Two thousand texts one after another, the j-th of which this is of j.
fn many<F: Fn(usize) -> Result<String, AllocError>>(
    alloc: Global,
    text: F,
) -> Result<String, AllocError>
    requires { F.IsAlwaysCallable text }
{
    let mut whole = String::new(alloc);
    for number in 1..2001usize {
        whole.push_str(text(number)?.as_str())?;
    }
    spelled(alloc, whole.as_str())
}

// The report of one unit with two thousand units more. The j-th has the value N and 10,000 - j.
fn of_many_units(alloc: Global) -> Result<String, Fail> {
    let units = many(alloc, |number| {
        let value = 10_000usize.saturating_sub(number);
        format!(in alloc;
            ",{{\"@id\":\"w{number}\",\"@type\":\"%ReportingUnit\",\"Type\":\"county\",#N{value}&}}"
        )
    })?;
    let report = edited(
        alloc,
        ONE_UNIT,
        "}]}],\"Election\"",
        "}]}UNITS],\"Election\"",
    )?;
    edited(alloc, report.as_str(), "UNITS", units.as_str())
}

fn form_of_many_units(alloc: Global) -> Result<String, Fail> {
    let forms = many(alloc, |number| {
        let value = number.saturating_add(7_999);
        format!(in alloc;
            "{{\"@id\":\"gp{number}\",\"@type\":\"%ReportingUnit\",#N{value}&,\"Type\":\"county\"}},"
        )
    })?;
    let last = made(
        alloc,
        (
            Base::OneUnitCanonical,
            &[("gp1", "gp2001"), ("\"@id\":\"gp1\"", "\"@id\":\"gp2001\"")],
        ),
    )?;
    let forms = format!(in alloc; "\"GpUnit\":[{forms}")?;
    edited(alloc, last.as_str(), "\"GpUnit\":[", forms.as_str())
}

// The last unit of the input is the first of the canonical form.
#[test]
fn two_thousand_units(rt: HostRuntime) -> Result<(), Fail> {
    let alloc = rt.alloc();
    let report = of_many_units(alloc)?;
    let form = form_of_many_units(alloc)?;
    let (name, report) = ("two_thousand_units", report.as_str());
    form_is(alloc, name, None, report, form.as_str())?;
    is_itself(alloc, name, report)
}
