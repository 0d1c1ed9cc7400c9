//! Places, JSON Pointers and equality.
use crate::tests::edits::value_of;
use erd_check::same_json;
use erd_tables::{Place, pointer};
use serde_json::Value;
use std::alloc::Global;
use std::process::Abort;
use std::test::Fail;

// The pointer of the report itself. The crate `lower_uses` has one with steps.
#[test]
fn pointer_of_the_report(rt: HostRuntime) -> Result<(), Fail> {
    let place = Place::of(Vec::new(rt.alloc()));
    assert!(rt; place.is_empty() && pointer(rt.alloc(), &place)?.is_empty());
    Ok(())
}

// Two values, and whether they are equal.
const EQUAL: &[(&str, &str, bool)] = &[
    (
        r#"{"a":1,"b":[true,null]}"#,
        r#"{"b":[true,null],"a":1}"#,
        true,
    ),
    (r#"[1,2]"#, r#"[2,1]"#, false),
    (r#"[1]"#, r#"[1,2]"#, false),
    (r#"{"a":1}"#, r#"{"b":1}"#, false),
    (r#"{"a":1}"#, r#"{"a":1,"b":1}"#, false),
    (r#""\u0041""#, r#""A""#, true),
    ("-3", "-3", true),
    ("18446744073709551615", "18446744073709551615", true),
    ("1.5", "1.5", false),
    ("1", "1.0", false),
    ("0", "-0", false),
    ("true", "false", false),
    ("null", "[]", false),
];

fn is_equal_both_ways(one: &Value, other: &Value, wanted: bool) -> bool {
    same_json(one, other) == wanted && same_json(other, one) == wanted
}

// Whether the values are equal, and equal the other way round, or neither.
fn is_equal(alloc: Global, (left, right, wanted): (&str, &str, bool)) -> Result<bool, Fail> {
    let one = value_of(alloc, left)?;
    let other = value_of(alloc, right)?;
    Ok(is_equal_both_ways(&one, &other, wanted))
}

fn all_are_equal(rt: &impl Abort, alloc: Global, table: &[(&str, &str, bool)]) -> Result<(), Fail> {
    for row in table {
        let (left, right, _) = *row;
        assert!(rt; is_equal(alloc, *row)?, "{left} and {right}");
    }
    Ok(())
}

// Equality as JSON: objects as maps, arrays as lists, whole numbers by value. Any other number is equal to none.
#[test]
fn equal_as_json(rt: HostRuntime) -> Result<(), Fail> {
    all_are_equal(&rt, rt.alloc(), EQUAL)
}
