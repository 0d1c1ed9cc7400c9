//! Examples of `erd_meaning`, `erd_normal` and `erd_compare`.
use crate::callers::report_of;
use erd_check::{same_json, shape};
use erd_compare::{How, SelectionDifference, detailed_differences, differences, first_difference};
use erd_meaning::{
    Key, Named, RankedName, Report, SaltedSet, SelectionName, accept_with, key_of, places_in,
    resolve, resolve_with,
};
use erd_normal::{CompactText, SetOrder, in_order, normal_text, normal_tree};
use erd_tables::{Family, Text, type_text};
use serde_json::Value;
use std::alloc::{AllocError, Global};
use std::cmp::Ordering;
use std::process::Abort;
use std::test::Fail;

// A county with an election, a candidate, and a contest with a selection of the candidate and a write-in line.
const BALLOT: &str = concat!(
    r#"{"@type":"ElectionResults.ElectionReport","Status":"pre-election","GpUnit":[{"@id":"u7","@type":"ElectionResults.ReportingUnit","#,
    r#""Type":"county","ExternalIdentifier":[{"@type":"ElectionResults.ExternalIdentifier","Type":"local-level","Value":"U1"},"#,
    r#"{"@type":"ElectionResults.ExternalIdentifier","Type":"fips","Value":"20"}]}],"Election":[{"@type":"ElectionResults.Election","#,
    r#""Name":"Test","Type":"general","StartDate":"2026-11-03","EndDate":"2026-11-03","ElectionScopeId":"u7","Candidate":[{"@id":"k1","#,
    r#""@type":"ElectionResults.Candidate","BallotName":"Ann","ExternalIdentifier":[{"@type":"ElectionResults.ExternalIdentifier","#,
    r#""Type":"local-level","Value":"K1"}]}],"Contest":[{"@id":"c1","@type":"ElectionResults.CandidateContest","Name":"Mayor","#,
    r#""ElectionDistrictId":"u7","VotesAllowed":1,"ExternalIdentifier":[{"@type":"ElectionResults.ExternalIdentifier","#,
    r#""Type":"local-level","Value":"C1"}],"ContestSelection":[{"@id":"s1","@type":"ElectionResults.CandidateSelection","#,
    r#""CandidateIds":["k1"]},{"@id":"s2","@type":"ElectionResults.CandidateSelection","IsWriteIn":true}]}]}]}"#,
);

// The key with these texts, which has no `OtherType`.
fn key(alloc: Global, kind: &str, value: &str) -> Result<Key, AllocError> {
    Ok(Key {
        kind: Text::of(String::from_str(alloc, kind)?),
        other: Text::of(String::new(alloc)),
        value: Text::of(String::from_str(alloc, value)?),
    })
}

fn election(rt: &impl Abort, report: &Report) -> Result<(), Fail> {
    assert!(rt;
        same_json(
            report.election(),
            report.election_at(0).ok_or("no election")?
        )
    );
    Ok(())
}

// What the report has, by position.
fn has_positions(tree: &Value, report: &Report) -> bool {
    same_json(report.tree(), tree)
        && report.preference().is_none()
        && report.election_count() == 1
        && report.election_key(0).is_none()
        && report.election_of(Family::Candidate, 0) == Some(0)
        && report.count(Family::Selection) == 2
        && report.object(Family::Candidate, 0).is_some()
        && report.object(Family::Candidate, 1).is_none()
        && report.target("k1") == Some((Family::Candidate, 0))
        && report.target_of(Family::Contest, "k1") == Some((Family::Candidate, 0))
        && report.first_selection(0) == 0
}

fn sorted_places(rt: &impl Abort, alloc: Global) -> Result<(), Fail> {
    assert!(rt; places_in(alloc, &[2, 0, 1])?.as_slice() == [1, 2, 0].as_slice());
    Ok(())
}

// The key of the unit, and the unit of the key.
fn key_of_unit(rt: &impl Abort, alloc: Global, report: &Report) -> Result<(), Fail> {
    let county = key(alloc, "fips", "20")?;
    assert!(rt;
        report.key_at(Family::Unit, 0) == Some(&county)
            && report.find(Family::Unit, &county) == Some(0)
    );
    Ok(())
}

fn rising_keys(rt: &impl Abort, alloc: Global, report: &Report) -> Result<(), Fail> {
    assert!(rt; report.rising_keys(alloc, Family::Unit)?.len() == 1);
    Ok(())
}

// The positions of objects and elections in the order of their keys.
fn has_ranks(report: &Report) -> bool {
    report.rising(Family::Unit).first() == Some(&0)
        && report.rank_at(Family::Candidate, 0) == Some(0)
        && report.rising_elections().first() == Some(&0)
        && report.election_rank_at(0) == Some(0)
}

// What the report finds by names.
fn names(rt: &impl Abort, alloc: Global, report: &Report) -> Result<(), Fail> {
    let (contest, name) = report.selection_at(1).ok_or("no write-in line")?;
    assert!(rt; contest == 0 && report.find_selection(contest, name) == Some(1) && has_parts(name));
    lent_name(rt, alloc, name);
    value_inside(rt, alloc, name)?;
    copied_name(rt, alloc, name)
}

// A write-in line has a class, and no other parts.
fn has_parts(name: &SelectionName) -> bool {
    type_text(name.class()) == "ElectionResults.CandidateSelection"
        && name.key_count() == 0
        && name.is_write_in()
        && name.key_at(0).is_none()
        && name.sequence_order().is_none()
        && name.label().is_none()
        && name.identifier().is_none()
}

fn value_inside(rt: &impl Abort, alloc: Global, name: &SelectionName) -> Result<(), Fail> {
    let inside = SelectionDifference {
        name: name.try_clone(alloc)?,
        how: How::OnlyRight,
    };
    let text = inside.to_value(alloc)?.to_string(alloc)?;
    assert!(rt;
        text.as_str()
            == r#"{"how":"only right","name":["ElectionResults.CandidateSelection",[],true,null,null,null]}"#
    );
    Ok(())
}

fn copied_name(rt: &impl Abort, alloc: Global, name: &SelectionName) -> Result<(), Fail> {
    assert!(rt; name.try_clone(alloc)? == *name);
    Ok(())
}

fn lent_name(rt: &impl Abort, alloc: Global, name: &SelectionName) {
    let lent = RankedName::of(name, Vec::new(alloc));
    assert!(rt; lent == RankedName::of(name, Vec::new(alloc)) && Named::name(name) == name);
}

// The names with the ranks of the keys in them.
fn ranks(rt: &impl Abort, report: &Report) -> Result<(), Fail> {
    let (_, ranked) = report.ranked_name_at(0).ok_or("no selection")?;
    let (_, write_in) = report.ranked_name_at(1).ok_or("no write-in line")?;
    let (_, name) = report.selection_at(1).ok_or("no write-in line")?;
    assert!(rt; are_ranked(ranked, write_in, name));
    Ok(())
}

fn are_ranked(
    ranked: &RankedName<SelectionName>,
    write_in: &RankedName<SelectionName>,
    name: &SelectionName,
) -> bool {
    ranked.family() == Family::Candidate
        && ranked.ranks().first() == Some(&0)
        && write_in.compare(ranked) == Ordering::Less
        && write_in.name() == name
}

// Numbers for keys of two reports, which are hashed under the salts of both.
fn numbers(rt: &impl Abort, alloc: Global, report: &Report) -> Result<(), Fail> {
    let mut numbers = SaltedSet::new(alloc, report.salt().joined(&report.salt()));
    assert!(rt; numbers.insert_full(20)? == (0, true) && numbers.insert_full(20)? == (0, false));
    Ok(())
}

fn look_ups(rt: &impl Abort, alloc: Global, tree: &Value, report: &Report) -> Result<(), Fail> {
    assert!(rt; has_positions(tree, report) && has_ranks(report));
    election(rt, report)?;
    key_of_unit(rt, alloc, report)?;
    rising_keys(rt, alloc, report)?;
    names(rt, alloc, report)?;
    numbers(rt, alloc, report)?;
    ranks(rt, report)
}

#[test]
fn places_of_positions(rt: HostRuntime) -> Result<(), Fail> {
    sorted_places(&rt, rt.alloc())
}

#[test]
fn reports(rt: HostRuntime) -> Result<(), Fail> {
    let alloc = rt.alloc();
    let tree = Value::from_str(alloc, BALLOT)?;
    let shaped = shape(alloc, &tree)?;
    assert!(rt; same_json(shaped.tree(), &tree));
    let report = resolve(alloc, shaped)?;
    look_ups(&rt, alloc, &tree, &report)
}

#[test]
fn forms(rt: HostRuntime) -> Result<(), Fail> {
    let alloc = rt.alloc();
    let tree = Value::from_str(alloc, BALLOT)?;
    let report = report_of(alloc, &tree)?;
    let form = normal_tree(alloc, &report)?;
    let text = normal_text(alloc, &report)?;
    assert!(rt; text.as_slice() == form.to_string(alloc)?.as_bytes());
    Ok(())
}

#[test]
fn comparisons(rt: HostRuntime) -> Result<(), Fail> {
    let alloc = rt.alloc();
    let tree = Value::from_str(alloc, BALLOT)?;
    let report = report_of(alloc, &tree)?;
    assert!(rt;
        first_difference(alloc, &report, &report)?.is_none()
            && differences(alloc, &report, &report)?.is_empty()
    );
    let none = detailed_differences(alloc, &report, &report, 0, 1_048_576)?;
    assert!(rt; none.is_empty());
    Ok(())
}

// The key that a preference gives the unit, and the one that it has without it.
fn preferred_key(rt: &impl Abort, alloc: Global, report: &Report) -> Result<(), Fail> {
    has_key(rt, report, &key(alloc, "local-level", "U1")?);
    let county = report.object(Family::Unit, 0).ok_or("no unit")?;
    least_key(rt, alloc, county)
}

fn has_key(rt: &impl Abort, report: &Report, wanted: &Key) {
    assert!(rt; report.key_at(Family::Unit, 0) == Some(wanted));
}

fn least_key(rt: &impl Abort, alloc: Global, county: &Value) -> Result<(), Fail> {
    assert!(rt; key_of(alloc, county, None)? == Some(key(alloc, "fips", "20")?));
    Ok(())
}

#[test]
fn preferences(rt: HostRuntime) -> Result<(), Fail> {
    let alloc = rt.alloc();
    let tree = Value::from_str(alloc, BALLOT)?;
    let report = resolve_with(alloc, shape(alloc, &tree)?, Some("local-level"))?;
    assert!(rt; report.preference() == Some("local-level"));
    preferred_key(&rt, alloc, &report)
}

#[test]
fn accepted(rt: HostRuntime) -> Result<(), Fail> {
    let alloc = rt.alloc();
    let tree = Value::from_str(alloc, BALLOT)?;
    let report = accept_with(alloc, &tree, Some("local-level"))?;
    assert!(rt; report.preference() == Some("local-level"));
    Ok(())
}

#[test]
fn orders(rt: HostRuntime) -> Result<(), Fail> {
    let alloc = rt.alloc();
    let (one, other) = (key(alloc, "fips", "20")?, key(alloc, "local-level", "U1")?);
    assert!(rt; one.order(&other) == Ordering::Less);
    Ok(())
}

#[test]
fn copies_of_keys(rt: HostRuntime) -> Result<(), Fail> {
    let alloc = rt.alloc();
    let one = key(alloc, "fips", "20")?;
    assert!(rt; one.try_clone(alloc)? == one);
    Ok(())
}

#[test]
fn sorted_keys(rt: HostRuntime) -> Result<(), Fail> {
    let alloc = rt.alloc();
    let (one, other) = (key(alloc, "fips", "20")?, key(alloc, "local-level", "U1")?);
    let sorted = in_order(alloc, vec![in alloc; (other, 2), (one, 1)]?)?;
    assert!(rt; sorted.first().map(|pair| pair.1) == Some(1));
    Ok(())
}

#[test]
fn compact_texts(rt: HostRuntime) -> Result<(), Fail> {
    let alloc = rt.alloc();
    let value = Value::from_str(alloc, r#"{ "a": [1, 2] }"#)?;
    let text = CompactText::of(alloc, &value)?;
    assert!(rt; text.order(&text) == Ordering::Equal);
    Ok(())
}
