//! Examples of the calls that answer as data.
use erd_canon::{check_data_with, compare_bytes, compare_data_with, differences_data_with};
use erd_compare::DetailedDifference;
use lower_uses::{BARE, OTHER_NAME, REPORT};
use std::alloc::Global;
use std::process::Abort;
use std::test::Fail;

#[test]
fn faults(rt: HostRuntime) -> Result<(), Fail> {
    let alloc = rt.alloc();
    let answer = check_data_with(alloc, BARE.as_bytes(), None)?;
    assert!(rt; answer.outcome.status() == 1);
    assert!(rt;
        answer.text.as_str()
            == r#"[{"name":"Election","place":[],"reason":2},{"name":"Status","place":[],"reason":2}]"#
    );
    Ok(())
}

#[test]
fn differences(rt: HostRuntime) -> Result<(), Fail> {
    let alloc = rt.alloc();
    let (one, other) = (REPORT.as_bytes(), OTHER_NAME.as_bytes());
    let answer = compare_data_with(alloc, one, other, None)?;
    assert!(rt;
        answer.text.as_str() == r#"{"how":"member","key":null,"member":"Name","part":"election"}"#
    );
    let answer = differences_data_with(alloc, one, other, None)?;
    assert!(rt;
        answer.text.as_str() == r#"[{"how":"member","key":null,"member":"Name","part":"election"}]"#
    );
    Ok(())
}

#[test]
fn nothing_under_a_preference(rt: HostRuntime) -> Result<(), Fail> {
    let (alloc, one) = (rt.alloc(), REPORT.as_bytes());
    let answer = check_data_with(alloc, one, Some("fips"))?;
    assert!(rt; answer.text.as_str() == "[]");
    let answer = compare_data_with(alloc, one, one, Some("fips"))?;
    assert!(rt; answer.text.as_str() == "null");
    let answer = differences_data_with(alloc, one, one, Some("fips"))?;
    assert!(rt; answer.text.as_str() == "[]");
    Ok(())
}

// The text of the JSON value of a difference, alone and among all.
fn texts_of_values(
    rt: &impl Abort,
    alloc: Global,
    detailed: &DetailedDifference,
) -> Result<(), Fail> {
    let difference = &detailed.difference;
    let text = difference.to_value(alloc)?.to_string(alloc)?;
    assert!(rt;
        text.as_str() == r#"{"how":"member","key":null,"member":"Name","part":"election"}"#
    );
    let text = detailed.to_value(alloc)?.to_string(alloc)?;
    assert!(rt;
        text.as_str() == r#"{"how":"member","key":null,"member":"Name","part":"election"}"#
    );
    Ok(())
}

#[test]
fn values(rt: HostRuntime) -> Result<(), Fail> {
    let (alloc, one, other) = (rt.alloc(), REPORT.as_bytes(), OTHER_NAME.as_bytes());
    let difference = compare_bytes(alloc, one, other)?.ok_or("no difference")?;
    let detailed = DetailedDifference {
        difference,
        selections: None,
    };
    texts_of_values(&rt, alloc, &detailed)
}
