//! Examples of `erd_text`.
use erd_check::values::entries_of;
use erd_text::{Output, label_text, write_label, write_rising_values, write_value};
use serde_json::Value;
use std::alloc::AllocError;
use std::test::Fail;

fn write_tokens(out: &mut Output) -> Result<(), AllocError> {
    out.begin_object()?;
    out.key("a")?;
    out.begin_array()?;
    out.string("x")?;
    out.u64(1)?;
    out.i64(-1)?;
    out.boolean(true)?;
    out.null()?;
    out.end_array()?;
    out.end_object()?;
    Ok(())
}

#[test]
fn tokens(rt: HostRuntime) -> Result<(), Fail> {
    let mut out = Output::new(rt.alloc());
    write_tokens(&mut out)?;
    let text = out.into_text();
    assert!(rt; text.as_slice() == r#"{"a":["x",1,-1,true,null]}"#.as_bytes());
    Ok(())
}

// A value as it is, and then the set of its entries.
#[test]
fn values(rt: HostRuntime) -> Result<(), Fail> {
    let alloc = rt.alloc();
    let value = Value::from_str(alloc, r#"[ "b", "a", 1 ]"#)?;
    let mut out = Output::new(alloc);
    out.begin_array()?;
    write_value(&value, &mut out)?;
    write_rising_values(alloc, entries_of(&value), &mut out)?;
    out.end_array()?;
    assert!(rt; out.into_text().as_slice() == r#"[["b","a",1],["a","b",1]]"#.as_bytes());
    Ok(())
}

#[test]
fn labels(rt: HostRuntime) -> Result<(), Fail> {
    let alloc = rt.alloc();
    let label = Value::from_str(alloc, r#"{ "Text": ["No", "Nein"], "Label": "no" }"#)?;
    let mut out = Output::new(alloc);
    write_label(alloc, &label, &mut out)?;
    assert!(rt; out.into_text().as_slice() == r#"{"Label":"no","Text":["Nein","No"]}"#.as_bytes());
    Ok(())
}

#[test]
fn plain_labels(rt: HostRuntime) -> Result<(), Fail> {
    let alloc = rt.alloc();
    let label = Value::String(String::from_str(alloc, "No")?);
    let text = label_text(alloc, &label)?;
    assert!(rt; text.as_str() == "\"No\"");
    Ok(())
}
