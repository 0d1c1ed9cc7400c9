ghost use Rattle.std.specs.Prelude.{◌≡◌, map, IfOk};
ghost use Rattle.erd_compare.specs.Words.{AllByRecursion, list_all, view, values_in, json_set};
ghost use Rattle.erd_compare.specs.code.Comparing.{Decides, IsWholeTree};

use erd_check::{FEW_VALUES, ValueSet, is_among, same_json};
use serde_json::Value;
use std::alloc::{AllocError, Global};

/// Returns whether two values are equal as JSON.
pub(crate) fn is_same_value(one: &Value, other: &Value) -> bool
    requires one { IsWholeTree (view one.now) }
    requires other { IsWholeTree (view other.now) }
    ensures { Decides result (view one.now) (view other.now) }
{
    same_json(one, other)
}

/// Returns whether two lists hold the same set of values.
pub(crate) fn is_same_set(
    alloc: Global,
    ones: &[Value],
    others: &[Value],
) -> Result<bool, AllocError>
    requires ones { AllByRecursion (λ v. IsWholeTree (view v)) ones.now }
    requires others { AllByRecursion (λ v. IsWholeTree (view v)) others.now }
    ensures { IfOk result (λ answer. Decides answer (json_set (map view ones.now)) (json_set (map view others.now))) }
{
    if ones.len() <= FEW_VALUES && others.len() <= FEW_VALUES {
        Ok(is_same_few(ones, others))
    } else {
        is_same_many(alloc, ones, others)
    }
}

/// Returns what `is_same_set` does, for short lists. It compares every pair of values, and allocates no memory.
fn is_same_few(ones: &[Value], others: &[Value]) -> bool
    requires ones { AllByRecursion (λ v. IsWholeTree (view v)) ones.now }
    requires others { AllByRecursion (λ v. IsWholeTree (view v)) others.now }
    ensures { Decides result (json_set (map view ones.now)) (json_set (map view others.now)) }
{
    are_among(ones, others) && are_among(others, ones)
}

/// Returns whether each value is equal to one of the others.
fn are_among(values: &[Value], others: &[Value]) -> bool
    ensures { result ≡ list_all (json_set (map view others.now)) (map view values.now) }
{
    for value in values {
        if !is_among(value, others) {
            return false;
        }
    }
    true
}

/// Returns what `is_same_set` does, for lists of any length. It sorts the values.
fn is_same_many<'a>(
    alloc: Global,
    ones: &'a [Value],
    others: &'a [Value],
) -> Result<bool, AllocError>
    requires ones { AllByRecursion (λ v. IsWholeTree (view v)) ones.now }
    requires others { AllByRecursion (λ v. IsWholeTree (view v)) others.now }
    ensures { IfOk result (λ answer. Decides answer (json_set (map view ones.now)) (json_set (map view others.now))) }
{
    let left = ValueSet::of(alloc, ones)?;
    let right = ValueSet::of(alloc, others)?;
    Ok(are_in(ones, &right) && are_in(others, &left))
}

/// Returns whether each value is equal to one in the set.
fn are_in<'a>(values: &'a [Value], set: &ValueSet<'a>) -> bool
    ensures { result ≡ list_all (json_set (values_in set.now)) (map view values.now) }
{
    for value in values {
        if !set.has(value) {
            return false;
        }
    }
    true
}
