//! Examples of the engines that prepare a report.
use erd_canon::{
    Outcome, ReadFrom, WriteTo, run_prepare, run_prepare_list, run_prepare_report, steps_asked,
};
use erd_prepare::StepName;
use lower_uses::REPORT;
use std::process::Abort;
use std::test::Fail;

// The report of the other examples, with a member that has no value.
const WITH_A_NULL: &str = concat!(
    r#"{"@type":"ElectionResults.ElectionReport","Notes":null,"Status":"pre-election","GpUnit":[{"@id":"u7","#,
    r#""@type":"ElectionResults.ReportingUnit","Type":"county","ExternalIdentifier":[{"@type":"ElectionResults.ExternalIdentifier","#,
    r#""Type":"local-level","Value":"U1"}]}],"Election":[{"@type":"ElectionResults.Election","Name":"Test","Type":"general","#,
    r#""StartDate":"2026-11-03","EndDate":"2026-11-03","ElectionScopeId":"u7"}]}"#,
);

// It without this member, each object in the order of the names of its members.
const PREPARED: &str = concat!(
    r#"{"@type":"ElectionResults.ElectionReport","Election":[{"@type":"ElectionResults.Election","ElectionScopeId":"u7","#,
    r#""EndDate":"2026-11-03","Name":"Test","StartDate":"2026-11-03","Type":"general"}],"GpUnit":[{"@id":"u7","#,
    r#""@type":"ElectionResults.ReportingUnit","ExternalIdentifier":[{"@type":"ElectionResults.ExternalIdentifier","#,
    r#""Type":"local-level","Value":"U1"}],"Type":"county"}],"Status":"pre-election"}"#,
);

fn wrote(rt: &impl Abort, out: &WriteTo<Vec<u8>>, wanted: &str) {
    assert!(rt; out.writer.as_slice() == wanted.as_bytes());
}

#[test]
fn prepare(rt: HostRuntime) -> Result<(), Fail> {
    let (alloc, chosen) = (rt.alloc(), [StepName::Nulls]);
    let mut reader = ReadFrom::of(WITH_A_NULL.as_bytes());
    let mut out = WriteTo::of(Vec::new(alloc));
    let mut err = WriteTo::of(Vec::new(alloc));
    let outcome = run_prepare(alloc, &mut reader, &mut out, &mut err, &chosen, None)?;
    assert!(rt; outcome == Outcome::Good);
    assert!(rt; err.writer.as_slice() == "nulls: 1 changed\n".as_bytes());
    wrote(&rt, &out, PREPARED);
    Ok(())
}

#[test]
fn list(rt: HostRuntime) -> Result<(), Fail> {
    let alloc = rt.alloc();
    let mut reader = ReadFrom::of(WITH_A_NULL.as_bytes());
    let mut out = WriteTo::of(Vec::new(alloc));
    let mut err = WriteTo::of(Vec::new(alloc));
    let outcome = run_prepare_list(alloc, &mut reader, &mut out, &mut err)?;
    assert!(rt; outcome == Outcome::Good);
    assert!(rt; out.writer.as_slice() == "nulls (removed): 1 changed\n".as_bytes());
    Ok(())
}

#[test]
fn report(rt: HostRuntime) -> Result<(), Fail> {
    let (alloc, chosen) = (rt.alloc(), [StepName::Nulls]);
    let mut reader = ReadFrom::of(REPORT.as_bytes());
    let mut out = WriteTo::of(Vec::new(alloc));
    let mut err = WriteTo::of(Vec::new(alloc));
    let outcome = run_prepare_report(alloc, &mut reader, &mut out, &mut err, &chosen)?;
    assert!(rt; outcome == Outcome::Good);
    assert!(rt; out.writer.as_slice() == "[]\n".as_bytes());
    Ok(())
}

#[test]
fn steps(rt: HostRuntime) -> Result<(), Fail> {
    let alloc = rt.alloc();
    assert!(rt; steps_asked(alloc, Some("nulls,no-step"))?.is_none());
    let chosen = steps_asked(alloc, None)?.ok_or("no steps")?;
    assert!(rt; chosen.len() == 10);
    Ok(())
}
