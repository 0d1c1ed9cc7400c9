//! What each step does that is held by cases: the report before and after it, what it leaves, and the places of what it changes.
use crate::tests::code_cases::CODES;
use crate::tests::edits::{spelled, value_of};
use crate::tests::step_cases::{CASES, Case};
use erd_prepare::{Done, Left, STEPS, StepName, do_step};
use erd_tables::pointer;
use serde_json::Value;
use std::alloc::{AllocError, Global};
use std::process::Abort;
use std::test::Fail;

/// The text has the place of each change, as it was in the report that was given, and ends each with `;`.
const CHANGES: &[Case] = &[
    (
        StepName::Nulls,
        r#"{"@type":"X","a":{"b":null,"c":[null,{"d":null}]},"n":18446744073709551615}"#,
        r#"{"@type":"X","a":{"c":[null,{}]},"n":18446744073709551615}"#,
        "/a/b;/a/c/1/d;",
    ),
    (
        StepName::UnusedPersons,
        r#"{"@type":"%ElectionReport","GpUnit":[{"AuthorityIds":["p2"]}],"Person":[{"@id":"p1"},{"@id":"p2"},{}]}"#,
        r#"{"@type":"%ElectionReport","GpUnit":[{"AuthorityIds":["p2"]}],"Person":[{"@id":"p2"}]}"#,
        "/Person/0;/Person/2;",
    ),
    (
        StepName::Names,
        r#"{"@type":"%ElectionReport","Office":[{"@type":"%Office","Name":{"Text":[{"Language":"es","Content":"B"},{"Language":"en","Content":"A"}]}}]}"#,
        concat!(
            r#"{"@type":"%ElectionReport","Office":[{"@type":"%Office","ExternalIdentifier":[{"@type":"%ExternalIdentifier","#,
            r#""OtherType":"name","Type":"other","Value":"A"}],"Name":{"Text":[{"Language":"es","Content":"B"},{"Language":"en","#,
            r#""Content":"A"}]}}]}"#,
        ),
        "/Office/0/ExternalIdentifier;",
    ),
    (
        StepName::Coordinates,
        r#"{"a":{"LatLng":{"Latitude":1.5}}}"#,
        r#"{"a":{}}"#,
        "/a/LatLng;",
    ),
    (
        StepName::Repeated,
        r#"{"@type":"%ElectionReport","GpUnit":[{"@type":"%ReportingUnit","AuthorityIds":["a","b","a"]}]}"#,
        r#"{"@type":"%ElectionReport","GpUnit":[{"@type":"%ReportingUnit","AuthorityIds":["a","b"]}]}"#,
        "/GpUnit/0/AuthorityIds/2;",
    ),
    (
        StepName::Devices,
        r#"{"@type":"%ElectionReport","GpUnit":[{"@id":"d","@type":"%ReportingDevice"},{"@type":"%ReportingUnit","ComposingGpUnitIds":["u","d"]}]}"#,
        r#"{"@type":"%ElectionReport","GpUnit":[{"@type":"%ReportingUnit","ComposingGpUnitIds":["u"]}]}"#,
        "/GpUnit/0;/GpUnit/1/ComposingGpUnitIds/1;",
    ),
    (
        StepName::SharedCodes,
        concat!(
            r#"{"@type":"%ElectionReport","GpUnit":[{"@type":"%ReportingUnit","ExternalIdentifier":[{"Type":"fips","Value":"1"},"#,
            r#"{"Type":"local-level","Value":"7"}]},{"@type":"%ReportingUnit","ExternalIdentifier":[{"Type":"fips","Value":"1"}]}]}"#,
        ),
        concat!(
            r#"{"@type":"%ElectionReport","GpUnit":[{"@type":"%ReportingUnit","ExternalIdentifier":[{"Type":"local-level","Value":"7"}]},"#,
            r#"{"@type":"%ReportingUnit","ExternalIdentifier":[{"Type":"fips","Value":"1"}]}]}"#,
        ),
        "/GpUnit/0/ExternalIdentifier/0;",
    ),
    (
        StepName::UnusedStyles,
        r#"{"@type":"%ElectionReport","Election":[{"@type":"%Election","BallotStyle":[{"GpUnitIds":[]},{"GpUnitIds":["u"]}]}]}"#,
        r#"{"@type":"%ElectionReport","Election":[{"@type":"%Election","BallotStyle":[{"GpUnitIds":["u"]}]}]}"#,
        "/Election/0/BallotStyle/0;",
    ),
    (
        StepName::GoneCandidates,
        concat!(
            r#"{"@type":"%ElectionReport","Election":[{"@type":"%Election","BallotStyle":[{"@type":"%BallotStyle","#,
            r#""OrderedContent":[{"@type":"%OrderedContest","OrderedContestSelectionIds":["s","t"]}]}],"Candidate":[{"@id":"c","#,
            r#""@type":"%Candidate"}],"Contest":[{"@type":"%CandidateContest","ContestSelection":[{"@id":"s","@type":"%CandidateSelection","#,
            r#""CandidateIds":["gone"]},{"@id":"t","@type":"%CandidateSelection","CandidateIds":["c"]}]}]}]}"#,
        ),
        concat!(
            r#"{"@type":"%ElectionReport","Election":[{"@type":"%Election","BallotStyle":[{"@type":"%BallotStyle","#,
            r#""OrderedContent":[{"@type":"%OrderedContest","OrderedContestSelectionIds":["t"]}]}],"Candidate":[{"@id":"c","#,
            r#""@type":"%Candidate"}],"Contest":[{"@type":"%CandidateContest","ContestSelection":[{"@id":"t","@type":"%CandidateSelection","#,
            r#""CandidateIds":["c"]}]}]}]}"#,
        ),
        "/Election/0/BallotStyle/0/OrderedContent/0/OrderedContestSelectionIds/0;/Election/0/Contest/0/ContestSelection/0;",
    ),
    (
        StepName::Counts,
        concat!(
            r#"{"@type":"%ElectionReport","Election":[{"@type":"%Election","Contest":[{"@type":"%CandidateContest","#,
            r#""OtherCounts":[{"Overvotes":0.0,"Round":2}]}]}]}"#,
        ),
        r#"{"@type":"%ElectionReport","Election":[{"@type":"%Election","Contest":[{"@type":"%CandidateContest"}]}]}"#,
        "/Election/0/Contest/0/OtherCounts;",
    ),
    (
        StepName::EmptyLists,
        r#"{"@type":"%ElectionReport","Election":[],"Party":[]}"#,
        r#"{"@type":"%ElectionReport","Election":[]}"#,
        "/Party;",
    ),
];

/// Does the step, and returns what it did if the report is right then.
fn after_step(rt: &impl Abort, alloc: Global, case: &Case) -> Result<Done, Fail> {
    let (step, before, after, _) = case;
    let report = value_of(alloc, spelled(alloc, before)?.as_str())?;
    let wanted = value_of(alloc, spelled(alloc, after)?.as_str())?;
    let done = do_step(alloc, *step, &report)?;
    assert!(rt; has_same_text(alloc, &done.tree, &wanted)?, "{after}");
    Ok(done)
}

fn has_same_text(alloc: Global, one: &Value, other: &Value) -> Result<bool, AllocError> {
    Ok(one.to_string(alloc)?.as_str() == other.to_string(alloc)?.as_str())
}

/// Whether this is left, as the cases write it.
fn is_left(left: &Left, told: &str) -> bool {
    told.split_once(' ') == Some((left.place.as_str(), left.why.text()))
}

fn are_left(done: &Done, told: &str) -> bool {
    let mut each = told.split(';');
    for left in &done.left {
        if !each.next().is_some_and(|it| is_left(left, it)) {
            return false;
        }
    }
    each.next() == Some("") && each.next().is_none()
}

fn each_holds(rt: &impl Abort, alloc: Global, cases: &[Case]) -> Result<(), Fail> {
    for case in cases {
        let done = after_step(rt, alloc, case)?;
        assert!(rt; are_left(&done, case.3), "{}", case.3);
    }
    Ok(())
}

#[test]
fn each_case_holds(rt: HostRuntime) -> Result<(), Fail> {
    each_holds(&rt, rt.alloc(), CASES)?;
    each_holds(&rt, rt.alloc(), CODES)
}

/// Whether these are the places of what has changed, as the cases write them.
fn are_changed(alloc: Global, done: &Done, told: &str) -> Result<bool, AllocError> {
    let mut each = told.split(';');
    for change in &done.changes {
        let place = pointer(alloc, &change.place)?;
        if each.next() != Some(place.as_str()) {
            return Ok(false);
        }
    }
    Ok(each.next() == Some("") && each.next().is_none())
}

#[test]
fn each_change_is_told(rt: HostRuntime) -> Result<(), Fail> {
    for case in CHANGES {
        let done = after_step(&rt, rt.alloc(), case)?;
        assert!(rt; are_changed(rt.alloc(), &done, case.3)?, "{}", case.3);
    }
    Ok(())
}

#[test]
fn each_step_has_its_name(rt: HostRuntime) -> Result<(), Fail> {
    for step in STEPS {
        assert!(rt; StepName::named(step.text()) == Some(step));
    }
    assert!(rt; StepName::named("names ").is_none());
    Ok(())
}
