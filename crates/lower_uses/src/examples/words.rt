//! Examples of the calls that list what ballots print.
use crate::callers::report_of;
use crate::small_reports::BALLOT;
use erd_meaning::Report;
use erd_shown::{WordedObject, worded_objects, worded_text};
use erd_tables::{Family, Role};
use serde_json::Value;
use std::alloc::Global;
use std::process::Abort;
use std::test::Fail;

// What ballots print of the candidate.
const CANDIDATE_WORDS: &str =
    r#"{"class":"ElectionResults.Candidate","key":["local-level","","K1"],"part":"candidate","words":{"BallotName":"Ann"}}"#;

fn words_are(rt: &impl Abort, alloc: Global, report: &Report) -> Result<(), Fail> {
    assert!(rt; worded_objects(alloc, report)?.len() == 4);
    let candidate = WordedObject {
        role: Role::OfFamily(Family::Candidate),
        position: 0,
    };
    let text = worded_text(alloc, report, &candidate)?;
    assert!(rt; text.as_str() == CANDIDATE_WORDS);
    Ok(())
}

#[test]
fn words(rt: HostRuntime) -> Result<(), Fail> {
    let alloc = rt.alloc();
    let tree = Value::from_str(alloc, BALLOT)?;
    let report = report_of(alloc, &tree)?;
    words_are(&rt, alloc, &report)
}
