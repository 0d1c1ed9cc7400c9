use crate::callers::{Trouble, difference_line, fault_lines, is_same};
use erd_canon::Refusal;
use lower_uses::{BARE, OTHER_NAME, OTHER_SPELLING, REPORT};
use std::alloc::Global;
use std::fmt::InlineText;
use std::test::Fail;

// What a caller prints of an error, whichever it is.
fn text<T: Drop, E: std::error::Error>(found: Result<T, E>) -> InlineText<64> {
    match found {
        Ok(_) => InlineText::of("no error"),
        Err(error) => InlineText::of(error),
    }
}

// The answer of `is_same`, of which its callers here need no more than that.
fn same(alloc: Global, left: &str, right: &str) -> Result<bool, Refusal> {
    is_same(alloc, left.as_bytes(), right.as_bytes())
}

#[test]
fn same_bytes(rt: HostRuntime) -> Result<(), Fail> {
    assert!(rt; same(rt.alloc(), REPORT, OTHER_SPELLING)?);
    assert!(rt; !same(rt.alloc(), REPORT, OTHER_NAME)?);
    Ok(())
}

fn has_faults(alloc: Global, report: &str, wanted: &str) -> Result<bool, Trouble> {
    Ok(fault_lines(alloc, report.as_bytes())?.as_str() == wanted)
}

#[test]
fn lines_of_faults(rt: HostRuntime) -> Result<(), Fail> {
    assert!(rt; has_faults(rt.alloc(), REPORT, "")?);
    let wanted = ": missing member Election\n: missing member Status\n";
    assert!(rt; has_faults(rt.alloc(), BARE, wanted)?);
    Ok(())
}

fn differs(alloc: Global, right: &str, wanted: Option<&str>) -> Result<bool, Trouble> {
    let line = difference_line(alloc, REPORT.as_bytes(), right.as_bytes())?;
    Ok(line.as_ref().map(String::as_str) == wanted)
}

#[test]
fn lines_of_differences(rt: HostRuntime) -> Result<(), Fail> {
    assert!(rt; differs(rt.alloc(), OTHER_SPELLING, None)?);
    let wanted = Some("election: member \"Name\"");
    assert!(rt; differs(rt.alloc(), OTHER_NAME, wanted)?);
    Ok(())
}

fn text_beside(alloc: Global, left: &str, right: &str) -> InlineText<64> {
    text(difference_line(alloc, left.as_bytes(), right.as_bytes()))
}

#[test]
fn error_of_no_json(rt: HostRuntime) {
    let said = text(same(rt.alloc(), REPORT, "no JSON"));
    assert!(rt; said.as_str() == "not JSON");
}

#[test]
fn error_of_the_right(rt: HostRuntime) {
    let said = text_beside(rt.alloc(), REPORT, BARE);
    assert!(rt; said.as_str() == "right: the report has faults: 2");
}

#[test]
fn error_of_the_left(rt: HostRuntime) {
    let said = text_beside(rt.alloc(), "", REPORT);
    assert!(rt; said.as_str() == "left: not JSON");
}
