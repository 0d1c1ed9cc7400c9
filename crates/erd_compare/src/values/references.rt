ghost use Rattle.std.specs.Prelude.{◌≡◌, ◌==◌, true, map, option_and_then, option_map, IfOk};
ghost use Rattle.erd_compare.specs.Words.{filter_map, as_str, view, has_keys, family_number, key_set, key_named, keys_named, name_named};
ghost use Rattle.erd_compare.specs.code.CommonNames.{number_of_name};
ghost use Rattle.erd_compare.specs.code.Comparing.{Decides};
ghost use Rattle.erd_compare.specs.code.RankedSides.{IsRankSet, rank_with_id, on_side};

use crate::comparer::Comparer;
use crate::ranks::common_ranks::ComparedReport;
use erd_tables::{Family, Role};
use serde_json::Value;
use std::alloc::AllocError;

/// Returns the number of the name of the selection that a reference names, if there is one.
pub(crate) fn number_of_name_named(
    comparer: &Comparer,
    side: ComparedReport,
    value: &Value,
) -> Option<usize>
    ensures { result ≡ option_map (number_of_name comparer.now.left comparer.now.right)
        (option_and_then (name_named (on_side side comparer.now.left comparer.now.right).prefer (view (on_side side comparer.now.left comparer.now.right).tree))
        (as_str (view value.now))) }
{
    let id = value.as_str()?;
    let report = comparer.on(side);
    let (found, position) = report.target_of(Family::Selection, id)?;
    if is_same_family(found, Family::Selection) {
        comparer.name_number_at(side, position)
    } else {
        None
    }
}

/// Returns whether two families are the same.
fn is_same_family(found: Family, family: Family) -> bool
    ensures { result ≡ (family_number found == family_number family) }
{
    found == family
}

/// Returns the common rank of the object of a family that a reference names, if there is one.
pub(crate) fn rank_named(
    comparer: &Comparer,
    side: ComparedReport,
    family: Family,
    value: &Value,
) -> Option<usize>
    requires keyed { has_keys family ≡ true }
    ensures { result ≡ option_and_then (rank_with_id comparer.now.left comparer.now.right side family) (as_str (view value.now)) }
{
    rank_with_id(comparer, side, family, value.as_str()?)
}

/// Returns the common rank of the object of a family with this `@id`, if there is one.
pub(crate) fn rank_with_id(
    comparer: &Comparer,
    side: ComparedReport,
    family: Family,
    id: &str,
) -> Option<usize>
    requires keyed { has_keys family ≡ true }
    ensures { result ≡ rank_with_id comparer.now.left comparer.now.right side family id.now }
{
    let report = comparer.on(side);
    let (found, position) = report.target_of(family, id)?;
    if is_same_family(found, family) {
        comparer.rank_at(side, Role::OfFamily(family), position)
    } else {
        None
    }
}

/// Returns whether two references to objects of a family name objects with the same key.
pub(crate) fn is_same_reference(
    comparer: &Comparer,
    family: Family,
    one: &Value,
    other: &Value,
) -> bool
    requires keyed { has_keys family ≡ true }
    ensures { Decides result (option_and_then (key_named comparer.now.left.prefer (view comparer.now.left.tree) family) (as_str (view one.now)))
        (option_and_then (key_named comparer.now.right.prefer (view comparer.now.right.tree) family) (as_str (view other.now))) }
{
    rank_named(comparer, ComparedReport::Left, family, one)
        == rank_named(comparer, ComparedReport::Right, family, other)
}

/// Returns whether two lists of references to objects of a family name objects with the same set of keys.
pub(crate) fn is_same_key_set(
    comparer: &Comparer,
    family: Family,
    ones: &[Value],
    others: &[Value],
) -> Result<bool, AllocError>
    requires keyed { has_keys family ≡ true }
    ensures { IfOk result (λ answer. Decides answer (key_set (keys_named comparer.now.left.prefer (view comparer.now.left.tree) family (map view ones.now)))
        (key_set (keys_named comparer.now.right.prefer (view comparer.now.right.tree) family (map view others.now)))) }
{
    let ones = set_of(ranks_named(comparer, ComparedReport::Left, family, ones)?);
    let others = set_of(ranks_named(comparer, ComparedReport::Right, family, others)?);
    Ok(ones == others)
}

/// Returns the common ranks of the objects of a family that the references name, in the order of the references.
fn ranks_named(
    comparer: &Comparer,
    side: ComparedReport,
    family: Family,
    values: &[Value],
) -> Result<Vec<usize>, AllocError>
    requires keyed { has_keys family ≡ true }
    ensures { IfOk result (λ ranks. ranks.items
        ≡ filter_map (λ v. option_and_then (rank_with_id comparer.now.left comparer.now.right side family) (as_str (view v))) values.now) }
{
    let mut ranks = Vec::with_capacity(comparer.alloc, values.len())?;
    for value in values {
        if let Some(rank) = rank_named(comparer, side, family, value) {
            ranks.push(rank)?;
        }
    }
    Ok(ranks)
}

/// Returns the ranks sorted, each of them once.
fn set_of(mut ranks: Vec<usize>) -> Vec<usize>
    ensures { IsRankSet ranks.items result.items }
{
    ranks.sort_unstable();
    ranks.dedup();
    ranks
}
