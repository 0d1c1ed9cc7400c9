//! Examples of the calls of `erd_canon` on bytes.
use erd_canon::{
    Refusal, Side, canonical, canonical_with, check_bytes, check_bytes_with, compare_bytes,
    compare_bytes_with,
};
use erd_compare::{Difference, Part};
use lower_uses::{BARE, CANONICAL, OTHER_NAME, OTHER_SPELLING, REPORT};
use std::alloc::Global;
use std::process::Abort;
use std::test::Fail;

#[test]
fn canonical_forms(rt: HostRuntime) -> Result<(), Fail> {
    let alloc = rt.alloc();
    let (one, other) = (REPORT.as_bytes(), OTHER_SPELLING.as_bytes());
    assert!(rt; canonical(alloc, one)? == canonical(alloc, other)?);
    Ok(())
}

#[test]
fn canonical_form_under_a_preference(rt: HostRuntime) -> Result<(), Fail> {
    let alloc = rt.alloc();
    let one = REPORT.as_bytes();
    let form = canonical_with(alloc, one, Some("fips"))?;
    assert!(rt; form.as_slice() == CANONICAL.as_bytes());
    Ok(())
}

#[test]
fn accepted(rt: HostRuntime) {
    let alloc = rt.alloc();
    let one = REPORT.as_bytes();
    assert!(rt; check_bytes(alloc, one).is_ok());
}

#[test]
fn accepted_under_a_preference(rt: HostRuntime) {
    let (alloc, one) = (rt.alloc(), REPORT.as_bytes());
    assert!(rt; check_bytes_with(alloc, one, Some("fips")).is_ok());
}

#[test]
fn refused(rt: HostRuntime) -> Result<(), Fail> {
    let alloc = rt.alloc();
    let Err(Refusal::Faults(faults)) = check_bytes(alloc, BARE.as_bytes()) else {
        return Err(Fail::from("a report without an election"));
    };
    assert!(rt; faults.len() == 2);
    Ok(())
}

#[test]
fn same(rt: HostRuntime) -> Result<(), Fail> {
    let (alloc, one) = (rt.alloc(), REPORT.as_bytes());
    assert!(rt; compare_bytes(alloc, one, one)?.is_none());
    Ok(())
}

#[test]
fn different(rt: HostRuntime) -> Result<(), Fail> {
    let alloc = rt.alloc();
    let (one, other) = (REPORT.as_bytes(), OTHER_NAME.as_bytes());
    let difference = compare_bytes(alloc, one, other)?.ok_or("no difference")?;
    assert!(rt; difference.part == Part::Election);
    line_of_difference(&rt, alloc, &difference)
}

fn line_of_difference(rt: &impl Abort, alloc: Global, difference: &Difference) -> Result<(), Fail> {
    assert!(rt; difference.line(alloc)?.as_str() == "election: member \"Name\"");
    Ok(())
}

#[test]
fn half_compared(rt: HostRuntime) {
    let (alloc, one) = (rt.alloc(), REPORT.as_bytes());
    let half = compare_bytes_with(alloc, one, "{".as_bytes(), Some("fips"));
    assert!(rt; matches!(half, Err(Side::Right(Refusal::NotJson))));
}
