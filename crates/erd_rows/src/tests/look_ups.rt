//! Look-ups in reports.
use crate::tests::answers::{Answer, right_if};
use crate::tests::edits::{Base, made};
use crate::tests::election_rows::WITH_CONTESTS;
use crate::tests::names::on_text;
use crate::tests::vectors::SMALL_BALLOT;
use erd_meaning::{Key, Report};
use erd_tables::Family;
use serde_json::Value;
use std::alloc::Global;
use std::process::Abort;
use std::test::Fail;

// An object of the small ballot: its family, its position there, its `@id`, and the value of its key. Empty texts for none.
type Object = (Family, usize, &'static str, &'static str);

const OBJECTS: &[Object] = &[
    (Family::Unit, 0, "a2", "U2"),
    (Family::Unit, 1, "a1", "U1"),
    (Family::Party, 0, "a3", "P1"),
    (Family::Person, 0, "a16", "Q1"),
    (Family::Office, 0, "a17", "O1"),
    (Family::Header, 0, "a4", "H1"),
    (Family::Candidate, 0, "a7", "K3"),
    (Family::Candidate, 1, "a5", "K1"),
    (Family::Candidate, 2, "a6", "K2"),
    (Family::Contest, 0, "a8", "C1"),
    (Family::Contest, 1, "a12", "C2"),
    (Family::Style, 0, "", "S1"),
    (Family::Selection, 0, "a9", ""),
    (Family::Selection, 1, "a10", ""),
    (Family::Selection, 2, "a11", ""),
    (Family::Selection, 3, "a13", ""),
    (Family::Selection, 4, "a14", ""),
];

// Whether the object stands at its position, with its `@id` and its key, and is found by both.
fn is_there(report: &Report, (family, index, id, value): Object) -> bool {
    let found = report
        .object(family, index)
        .and_then(|object| object.get("@id"))
        .and_then(Value::as_str);
    let is_named = if id.is_empty() {
        found.is_none()
    } else {
        found == Some(id) && report.target(id) == Some((family, index))
    };
    let is_keyed = match report.key_at(family, index) {
        Some(key) => key.value.as_str() == value && report.find(family, key) == Some(index),
        None => value.is_empty(),
    };
    is_named && is_keyed
}

// Whether the family has as many objects as are listed here.
fn has_count(report: &Report, family: Family, objects: &[Object]) -> bool {
    let count = objects.iter().filter(|it| it.0 == family).count();
    report.count(family) == count
        && report.object(family, count).is_none()
        && report.key_at(family, count).is_none()
}

const FAMILIES: [Family; 9] = [
    Family::Unit,
    Family::Party,
    Family::Person,
    Family::Office,
    Family::Header,
    Family::Candidate,
    Family::Contest,
    Family::Style,
    Family::Selection,
];

// Whether the report and its election are the ones of the tree, and nothing is found that is not there.
fn has_root(report: &Report) -> bool {
    let name = report.election().get("Name").and_then(Value::as_str);
    let status = report.tree().get("Status").and_then(Value::as_str);
    let candidate = report.key_at(Family::Candidate, 1);
    name == Some("Test")
        && status == Some("pre-election")
        && report.target("a").is_none()
        && candidate.is_some_and(|key| report.find(Family::Party, key).is_none())
}

fn are_there(report: &Report, objects: &[Object]) -> bool {
    objects.iter().all(|object| is_there(report, *object))
}

fn have_counts(report: &Report, families: &[Family], objects: &[Object]) -> bool {
    families
        .iter()
        .all(|family| has_count(report, *family, objects))
}

fn look_up(report: &Report) -> Answer {
    right_if(
        are_there(report, OBJECTS) && have_counts(report, &FAMILIES, OBJECTS) && has_root(report),
    )
}

#[test]
fn look_ups(rt: HostRuntime) -> Result<(), Fail> {
    let answer = on_text(rt.alloc(), SMALL_BALLOT, look_up)?;
    assert!(rt; answer == Answer::Right);
    Ok(())
}

// The keys of a family in rising order: the values, and the positions of the objects.
type Rising = (Family, &'static [(&'static str, usize)]);

const RISING: &[Rising] = &[
    (Family::Unit, &[("U1", 1), ("U2", 0)]),
    (Family::Party, &[("P1", 0)]),
    (Family::Candidate, &[("K1", 1), ("K2", 2), ("K3", 0)]),
    (Family::Contest, &[("C1", 0), ("C2", 1)]),
    // Selections have no keys.
    (
        Family::Selection,
        &[("", 0), ("", 1), ("", 2), ("", 3), ("", 4)],
    ),
];

// Whether the key has this value, or is as absent as the value.
fn has_value(key: Option<&Key>, value: &str) -> bool {
    key.map_or("", |key| key.value.as_str()) == value
}

fn rise(alloc: Global, report: &Report, family: Family, wanted: &[(&str, usize)]) -> Answer {
    let Ok(rising) = report.rising_keys(alloc, family) else {
        return Answer::WantsMemory;
    };
    for ((key, position), (value, index)) in rising.iter().zip(wanted.iter()) {
        if !has_value(*key, value) || *position != *index {
            return Answer::Wrong;
        }
    }
    right_if(rising.len() == wanted.len())
}

fn all_rise(rt: &impl Abort, alloc: Global, text: &str, table: &[Rising]) -> Result<(), Fail> {
    for (family, wanted) in table {
        let answer = on_text(alloc, text, |report| rise(alloc, report, *family, wanted))?;
        assert!(rt; answer == Answer::Right);
    }
    Ok(())
}

// The small ballot lists neither its units nor its candidates in the order of their keys.
#[test]
fn rising_keys(rt: HostRuntime) -> Result<(), Fail> {
    all_rise(&rt, rt.alloc(), SMALL_BALLOT, RISING)
}

// A family, a position, and the election that holds the object there.
type Held = (Family, usize, Option<usize>);

// For each election its key's value and, for objects, the election that holds them.
fn are_elections(report: &Report, keys: &[&str], held: &[Held]) -> bool {
    for (index, value) in keys.iter().enumerate() {
        if report.election_at(index).is_none() || !has_value(report.election_key(index), value) {
            return false;
        }
    }
    for (family, index, election) in held {
        if report.election_of(*family, *index) != *election {
            return false;
        }
    }
    report.election_count() == keys.len()
        && report.election_at(keys.len()).is_none()
        && report.election_key(keys.len()).is_none()
}

// Whether the elections of this text have these keys and hold these objects.
fn elections_are(alloc: Global, text: &str, keys: &[&str], held: &[Held]) -> Result<bool, Fail> {
    let answer = on_text(
        alloc,
        text,
        |report| right_if(are_elections(report, keys, held)),
    )?;
    Ok(answer == Answer::Right)
}

const HELD_BY_ONE: &[Held] = &[
    (Family::Candidate, 2, Some(0)),
    (Family::Candidate, 3, None),
    (Family::Contest, 1, Some(0)),
    (Family::Style, 0, Some(0)),
    (Family::Unit, 0, None),
    (Family::Selection, 0, None),
];

// A sole election holds candidates, contests and styles, and no other objects. It may have no key.
#[test]
fn look_ups_of_the_election(rt: HostRuntime) -> Result<(), Fail> {
    let alloc = rt.alloc();
    assert!(rt; elections_are(alloc, SMALL_BALLOT, &[""], HELD_BY_ONE)?);
    let text = made(
        alloc,
        (
            Base::SmallBallot,
            &[("\"StartDate\"", "#E1&,\"StartDate\"")],
        ),
    )?;
    assert!(rt; elections_are(alloc, text.as_str(), &["E1"], HELD_BY_ONE)?);
    Ok(())
}

const HELD_BY_TWO: &[Held] = &[
    (Family::Contest, 0, Some(0)),
    (Family::Contest, 1, Some(1)),
    (Family::Contest, 2, Some(1)),
    (Family::Contest, 3, None),
    (Family::Unit, 0, None),
    (Family::Candidate, 0, None),
];

// Which election holds a contest, and its key.
#[test]
fn contests_of_two_elections(rt: HostRuntime) -> Result<(), Fail> {
    let alloc = rt.alloc();
    let text = made(alloc, WITH_CONTESTS)?;
    assert!(rt; elections_are(alloc, text.as_str(), &["E2", "E1"], HELD_BY_TWO)?);
    Ok(())
}
