//! Examples of `erd_check`.
use erd_check::{ValueSet, faults, is_among, same_json, shape};
use serde_json::Value;
use std::alloc::Global;
use std::process::Abort;
use std::test::Fail;

#[test]
fn shapes(rt: HostRuntime) -> Result<(), Fail> {
    let alloc = rt.alloc();
    let tree = Value::from_str(alloc, r#"{"@type":"ElectionResults.ElectionReport"}"#)?;
    let found = faults(alloc, &tree)?;
    assert!(rt; found.len() == 2);
    Ok(())
}

#[test]
fn errors(rt: HostRuntime) -> Result<(), Fail> {
    let alloc = rt.alloc();
    let tree = Value::from_str(alloc, "[]")?;
    let Err(error) = shape(alloc, &tree) else {
        return Err(Fail::from("a report that is an array"));
    };
    assert!(rt; error.to_string(alloc)?.as_str() == "the report has faults: 1");
    Ok(())
}

#[test]
fn equal_values(rt: HostRuntime) -> Result<(), Fail> {
    let alloc = rt.alloc();
    let one = Value::from_str(alloc, r#"{"a":1,"b":2}"#)?;
    let other = Value::from_str(alloc, r#"{"b":2,"a":1}"#)?;
    assert!(rt; same_json(&one, &other));
    let mut set = ValueSet::new(alloc);
    assert!(rt; !set.has(&one));
    set.insert(&one)?;
    assert!(rt; set.has(&other));
    Ok(())
}

// The entries of an array, of which `[2]` is one.
fn among(rt: &impl Abort, alloc: Global, entries: &[Value]) -> Result<(), Fail> {
    let second = Value::from_str(alloc, "[2]")?;
    assert!(rt; is_among(&second, entries) && ValueSet::of(alloc, entries)?.has(&second));
    Ok(())
}

#[test]
fn entries_of_an_array(rt: HostRuntime) -> Result<(), Fail> {
    let alloc = rt.alloc();
    let array = Value::from_str(alloc, "[[1],[2]]")?;
    among(&rt, alloc, array.as_array().ok_or("no array")?)
}
