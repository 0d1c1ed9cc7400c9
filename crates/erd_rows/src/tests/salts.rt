//! The salt of a report. `tests/reports/colliding.py` works it out too, and `tests/measures/crowding.py` compares the two.
use crate::tests::vectors::SMALL_BALLOT;
use erd_meaning::accept_with;
use serde_json::Value;
use std::test::Fail;

#[test]
fn salt_of_a_small_ballot(rt: HostRuntime) -> Result<(), Fail> {
    let alloc = rt.alloc();
    let tree = Value::from_str(alloc, SMALL_BALLOT)?;
    let report = accept_with(alloc, &tree, None)?;
    assert!(rt; report.salt().number(&20u64) == 6485167137410007113);
    Ok(())
}
