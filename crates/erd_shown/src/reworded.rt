ghost use Rattle.std.specs.Option.{option_map_or};
ghost use Rattle.std.specs.Prelude.{◌≡◌, false, true, bytes_eq, option_and_then, option_copied, option_map, slice_get, IfOk, IfSome, Some};
ghost use Rattle.serde_json.specs.Find.{as_str};
ghost use Rattle.serde_json.specs.View.{view};
ghost use Rattle.serde_json.specs.Written.{has_float};
ghost use Rattle.erd_meaning.specs.Keys.{has_keys};
ghost use Rattle.erd_meaning.specs.Objects.{Placed, objects, owner};
ghost use Rattle.erd_shown.specs.Reworded.{has_other_words, is_reworded, with_key};
ghost use Rattle.erd_shown.specs.code.Marks.{marks_of};

use crate::lookups::place_named;
use crate::words::words_text;
use erd_meaning::{Key, Report};
use erd_tables::Family;
use serde_json::Value;
use std::alloc::{AllocError, Global};

/// Returns, for each object of the family of the left report, whether ballots print other words of it in the right report.
pub(crate) fn reworded(
    alloc: Global,
    left: &Report,
    right: &Report,
    family: Family,
) -> Result<Vec<bool>, AllocError>
    requires keyed { has_keys family ≡ true }
    ensures { IfOk result (λ found. found.items ≡ marks_of (is_reworded left.now.prefer (view left.now.tree) right.now.prefer (view right.now.tree) family)
        family (view left.now.tree)) }
{
    let count = left.count(family);
    let mut found = Vec::with_capacity(alloc, count)?;
    for position in 0..count {
        let mark = is_reworded(alloc, left, right, family, position)?;
        found.push(mark)?;
    }
    Ok(found)
}

/// Returns whether ballots print other words of the object at a position of the left report in the right one.
pub(crate) fn is_reworded(
    alloc: Global,
    left: &Report,
    right: &Report,
    family: Family,
    position: usize,
) -> Result<bool, AllocError>
    requires keyed { has_keys family ≡ true }
    ensures { IfOk result (λ it. (o : Placed) → slice_get (objects family (view left.now.tree)) position ≡ Some o
        → it ≡ is_reworded left.now.prefer (view left.now.tree) right.now.prefer (view right.now.tree) family o.value) }
{
    match object_at(left, family, position) {
        Some(object) => {
            let key = left.key_at(family, position);
            is_object_reworded(alloc, left, object, key, right, family)
        }
        None => Ok(false),
    }
}

/// Returns whether the right report has the object with this key too, if there is a key, and ballots print other words of it.
fn is_object_reworded(
    alloc: Global,
    left: &Report,
    object: &Value,
    key: Option<&Key>,
    right: &Report,
    family: Family,
) -> Result<bool, AllocError>
    requires keyed { has_keys family ≡ true }
    requires whole { has_float (view object.now) ≡ false }
    ensures { IfOk result (λ it. it
        ≡ option_map_or
        (λ k. option_map_or (has_other_words left.now.prefer (view left.now.tree) right.now.prefer (view right.now.tree) family (view object.now))
        (with_key right.now.prefer (view right.now.tree) family k) false) (option_copied key.entry) false) }
{
    match key {
        Some(key) => is_reworded_by_key(alloc, left, object, key, right, family),
        None => Ok(false),
    }
}

/// Returns whether the right report has an object of the family with the key, and ballots print other words of that one.
fn is_reworded_by_key(
    alloc: Global,
    left: &Report,
    object: &Value,
    key: &Key,
    right: &Report,
    family: Family,
) -> Result<bool, AllocError>
    requires keyed { has_keys family ≡ true }
    requires whole { has_float (view object.now) ≡ false }
    ensures { IfOk result (λ it. it ≡ option_map_or (has_other_words left.now.prefer (view left.now.tree) right.now.prefer (view right.now.tree) family
        (view object.now)) (with_key right.now.prefer (view right.now.tree) family key.now) false) }
{
    match object_with_key(right, family, key) {
        Some(other) => has_other_words(alloc, left, object, right, other, family),
        None => Ok(false),
    }
}

/// Returns whether ballots print other words of two objects of the family.
fn has_other_words(
    alloc: Global,
    left: &Report,
    object: &Value,
    right: &Report,
    other: &Value,
    family: Family,
) -> Result<bool, AllocError>
    requires one { has_float (view object.now) ≡ false }
    requires other { has_float (view other.now) ≡ false }
    ensures { IfOk result (λ it. it ≡ has_other_words left.now.prefer (view left.now.tree) right.now.prefer (view right.now.tree) family
        (view object.now) (view other.now)) }
{
    let one = words_text(alloc, left, family, object)?;
    let another = words_text(alloc, right, family, other)?;
    Ok(!is_same_text(one.as_str(), another.as_str()))
}

/// Returns whether two texts are one.
pub(crate) fn is_same_text(one: &str, other: &str) -> bool
    ensures { result ≡ bytes_eq one.now other.now }
{
    one == other
}

/// Returns the object of the family that has the key, if there is one.
fn object_with_key<'a>(report: &'a Report, family: Family, key: &Key) -> Option<&'a Value>
    requires keyed { has_keys family ≡ true }
    ensures there { option_map (λ v. view v.now) result ≡ with_key report.now.prefer (view report.now.tree) family key.now }
    ensures whole { IfSome result (λ v. has_float (view v.now) ≡ false) }
{
    let _tree = report.tree();
    match report.find(family, key) {
        Some(position) => object_at(report, family, position),
        None => None,
    }
}

/// Returns the object of the family at a position, if there is one.
pub(crate) fn object_at<'a>(
    report: &'a Report,
    family: Family,
    position: usize,
) -> Option<&'a Value>
    ensures there { option_map (λ v. view v.now) result ≡ option_map (λ o. o.value) (slice_get (objects family (view report.now.tree)) position) }
    ensures whole { IfSome result (λ v. has_float (view v.now) ≡ false) }
{
    let _tree = report.tree();
    match report.object(family, position) {
        Some(object) => Some(object),
        None => None,
    }
}

/// Returns the object of the family that a reference names, if there is one.
pub(crate) fn object_named<'a>(report: &'a Report, family: Family, id: &str) -> Option<&'a Value>
    ensures there { option_map (λ v. view v.now) result ≡ owner (view report.now.tree) family id.now }
    ensures whole { IfSome result (λ v. has_float (view v.now) ≡ false) }
{
    match place_named(report, family, id) {
        Some(position) => object_at(report, family, position),
        None => None,
    }
}

/// Returns the object of the family that a value names, if it is a text that names one.
pub(crate) fn object_referred<'a>(
    report: &'a Report,
    family: Family,
    reference: &Value,
) -> Option<&'a Value>
    ensures there { option_map (λ v. view v.now) result ≡ option_and_then (owner (view report.now.tree) family) (as_str (view reference.now)) }
    ensures whole { IfSome result (λ v. has_float (view v.now) ≡ false) }
{
    match reference.as_str() {
        Some(id) => object_named(report, family, id),
        None => None,
    }
}
