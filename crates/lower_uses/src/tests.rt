use crate::callers::{canonical_tree, is_same_tree};
use crate::small_reports::{CANONICAL, OTHER_SPELLING, REPORT};
use serde_json::Value;
use std::alloc::{AllocError, Global};
use std::fmt::InlineText;
use std::test::Fail;

// Whether the tree has this text.
fn has_text(alloc: Global, tree: &Value, wanted: &str) -> Result<bool, AllocError> {
    Ok(tree.to_string(alloc)?.as_str() == wanted)
}

#[test]
fn canonical_trees(rt: HostRuntime) -> Result<(), Fail> {
    let alloc = rt.alloc();
    let tree = Value::from_str(alloc, OTHER_SPELLING)?;
    let (form, candidates) = canonical_tree(alloc, &tree)?;
    assert!(rt; candidates == 0 && has_text(alloc, &form, CANONICAL)?);
    Ok(())
}

#[test]
fn same_trees(rt: HostRuntime) -> Result<(), Fail> {
    let alloc = rt.alloc();
    let one = Value::from_str(alloc, REPORT)?;
    let other = Value::from_str(alloc, OTHER_SPELLING)?;
    assert!(rt; is_same_tree(alloc, &one, &other)?);
    Ok(())
}

#[test]
fn error_of_a_tree(rt: HostRuntime) -> Result<(), Fail> {
    let alloc = rt.alloc();
    let tree = Value::from_str(alloc, "[]")?;
    let error = canonical_tree(alloc, &tree).err().ok_or("no error")?;
    assert!(rt; InlineText::<64>::of(error).as_str() == "the report has faults: 1");
    Ok(())
}
