ghost use Rattle.std.specs.Prelude.{◌≡◌, ◌≤◌, ◌&&◌, true, map, take, length, slice_index_or, IfOk};
ghost use Rattle.std.specs.List.{list_any};
ghost use Rattle.serde_json.specs.Data.{Data};
ghost use Rattle.serde_json.specs.View.{view};
ghost use Rattle.erd_check.specs.Trees.{is_same_json};
ghost use Rattle.erd_check.specs.code.EarlierEntries.{TellsEarlier};

use crate::value_set::{FEW_VALUES, ValueSet};
use serde_json::Value;
use std::alloc::{AllocError, Global};

/// Looks up, for each entry of a set of more than `FEW_VALUES` entries, an earlier entry that is equal to it. For other
/// arrays it looks up nothing.
pub(crate) fn equal_entries<'a>(
    alloc: Global,
    is_set: bool,
    items: &'a [Value],
) -> Result<Vec<&'a [Value]>, AllocError>
    ensures { IfOk result (λ told. TellsEarlier is_set items.now told.items) }
{
    if is_set && items.len() > FEW_VALUES {
        equal_before(alloc, items)
    } else {
        Ok(Vec::new(alloc))
    }
}

/// Looks up, for each entry, an earlier entry that is equal to it.
fn equal_before<'a>(alloc: Global, items: &'a [Value]) -> Result<Vec<&'a [Value]>, AllocError>
    ensures { IfOk result (λ told. TellsEarlier true items.now told.items) }
{
    let mut told = Vec::with_capacity(alloc, items.len())?;
    let mut passed = ValueSet::new(alloc);
    for item in items {
        told.push(passed.insert_tied(item)?)?;
    }
    Ok(told)
}

/// Returns entries to compare with the entry at a position. One of them is equal to it if and only if the array is a set and
/// has an equal entry before the position. `told` is what `equal_entries` returned.
pub(crate) fn earlier_of<'a>(
    is_set: bool,
    items: &'a [Value],
    told: &[&'a [Value]],
    index: usize,
    item: &Value,
) -> &'a [Value]
    requires low { index ≤ length items.now }
    requires told { TellsEarlier is_set items.now told.now }
    requires item { item.now ≡ slice_index_or items.now index item.now }
    ensures { list_any (is_same_json (view item.now)) (map view result.now) ≡ (is_set && list_any (is_same_json (view item.now))
        (map view (take index items.now))) }
{
    match told.get(index) {
        Some(earlier) => earlier,
        None => compared_before(is_set, items, index),
    }
}

/// Returns the entries before a position if the array is a set, otherwise none.
fn compared_before(is_set: bool, items: &[Value], index: usize) -> &[Value]
    requires { index ≤ length items.now }
    ensures { (d : Data) → list_any (is_same_json d) (map view result.now)
        ≡ (is_set && list_any (is_same_json d) (map view (take index items.now))) }
{
    if is_set { &items[..index] } else { &[] }
}
