ghost use Rattle.std.specs.Prelude.{◌≡◌, ◌+◌, ◌<◌, length, option_map, slice_get, List, Option, IfOk, IfSome, OnOk};
ghost use Rattle.erd_compare.specs.Words.{view, meaning, Key as key};
ghost use Rattle.erd_compare.specs.code.DifferingKeys.{AreKeysFound, GoesOnToKey, TellsStep, ranks_left};
ghost use Rattle.erd_compare.specs.code.DifferingParts.{AppendsDifferences};
ghost use Rattle.erd_compare.specs.code.KeyedDifferences.{TellsLeast, key_in_role, map_of, shared};
ghost use Rattle.erd_compare.specs.code.RisingParts.{AreRising};

use crate::comparer::Comparer;
use crate::difference::{Difference, Part};
use crate::first::key_differences::push_ways;
use crate::first::keyed_ways::{KeyedWays, Rising, rising_in, ways_at};
use crate::ranks::role_objects::{key_at, role_of};
use erd_tables::Role;
use std::alloc::AllocError;
use std::cmp::Ordering;

/// The ranks in both reports up to which a walk in step has come. It stands between two differences.
#[derive(Clone, Copy)]
pub(crate) struct Ranks {
    one: usize,
    other: usize,
}

impl Ranks {
    /// Returns the ranks at which a walk starts.
    fn start() -> Ranks
        ensures one { result.one ≡ 0 }
        ensures other { result.other ≡ 0 }
    {
        Ranks { one: 0, other: 0 }
    }
}

/// Returns the least key of a part at which the two reports differ, with the first way in which they do.
pub(crate) fn first_keyed<'a>(
    comparer: &'a Comparer,
    part: Part,
) -> Result<Option<KeyedWays<'a>>, AllocError>
    ensures { IfOk result (TellsLeast (map_of comparer.now.left part) (map_of comparer.now.right part)) }
{
    let mut at = Ranks::start();
    next_difference(comparer, part, rising_in(comparer, part), &mut at, false)
}

/// Appends all differences between the two reports at a part, in rising order.
pub(crate) fn push_differences(
    comparer: &Comparer,
    part: Part,
    found: &mut Vec<Difference>,
) -> Result<(), AllocError>
    ensures { OnOk result (AppendsDifferences (meaning comparer.now.left.prefer (view comparer.now.left.tree))
        (meaning comparer.now.right.prefer (view comparer.now.right.tree)) part found.old.items found.new.items) }
{
    let rising = rising_in(comparer, part);
    let mut at = Ranks::start();
    while let Some(next) = next_difference(comparer, part, rising, &mut at, true)? {
        push_ways(comparer.alloc, part, &next, found)?;
    }
    Ok(())
}

/// Goes on to the next key of a part at which the two reports differ, and returns it, and the ways in which they differ there.
/// If not all ways are wanted, the first is enough.
pub(crate) fn next_difference<'a>(
    comparer: &'a Comparer,
    part: Part,
    rising: Rising,
    at: &mut Ranks,
    all: bool,
) -> Result<Option<KeyedWays<'a>>, AllocError>
    requires rising { AreRising comparer.now.left comparer.now.right part rising }
    ensures fewer { IfOk result (λ next. IfSome next (λ d. ranks_left rising.entry at.new < ranks_left rising.entry at.old)) }
    ensures next { IfOk result (λ next. (found : List (Option key)) → AreKeysFound comparer.now.left comparer.now.right part found at.old
        → GoesOnToKey all comparer.now.left comparer.now.right part found at.new next) }
{
    let role = role_of(part);
    while let Some((position, other_position)) = shared_between(rising, *at) {
        let ways = ways_at(comparer, part, position, other_position, all)?;
        at.one += 1;
        at.other += 1;
        if !ways.are_none() {
            let key = key_at(comparer.left(), role, position);
            return Ok(Some(KeyedWays { key, ways }));
        }
    }
    Ok(one_sided(comparer, role, rising, at))
}

/// Returns the positions of the objects of both reports at these ranks, if they have the same key.
fn shared_between(rising: Rising, at: Ranks) -> Option<(usize, usize)>
    ensures fits { IfSome result (λ both. (at.one + 1 < 18446744073709551616) × (at.other + 1 < 18446744073709551616)
        × (at.one < length rising.entry.ones.now)) }
    ensures shared { result ≡ shared (slice_get rising.entry.ones.now at.one) (slice_get rising.entry.others.now at.other)
        (slice_get rising.entry.common.now at.other) at.one }
{
    match (
        rising.ones.get(at.one),
        rising.others.get(at.other),
        rising.common.get(at.other),
    ) {
        (Some(one), Some(other), Some(common)) if *common == at.one => Some((*one, *other)),
        _ => None,
    }
}

/// Returns the difference at these ranks, where the reports do not have the same key, and passes by that key: only the report
/// with the lesser key has an object with it. Returns `None` if neither report has an object there.
fn one_sided<'a>(
    comparer: &'a Comparer,
    role: Role,
    rising: Rising,
    at: &mut Ranks,
) -> Option<KeyedWays<'a>>
    ensures fewer { IfSome result (λ d. ranks_left rising.entry at.new < ranks_left rising.entry at.old) }
    ensures step { TellsStep (option_map (key_in_role comparer.now.left.prefer role (view comparer.now.left.tree)) (slice_get rising.entry.ones.now at.old.one))
        (option_map (key_in_role comparer.now.right.prefer role (view comparer.now.right.tree)) (slice_get rising.entry.others.now at.old.other)) at.old at.new
        result }
{
    match (rising.ones.get(at.one), rising.others.get(at.other)) {
        (Some(position), Some(other_position)) => {
            let key = key_at(comparer.left(), role, *position);
            let other = key_at(comparer.right(), role, *other_position);
            match key.cmp(&other) {
                Ordering::Less => {
                    at.one += 1;
                    Some(KeyedWays::only_left(key))
                }
                _ => {
                    at.other += 1;
                    Some(KeyedWays::only_right(other))
                }
            }
        }
        (Some(position), None) => {
            at.one += 1;
            Some(KeyedWays::only_left(key_at(comparer.left(), role, *position)))
        }
        (None, Some(other_position)) => {
            at.other += 1;
            Some(KeyedWays::only_right(key_at(comparer.right(), role, *other_position)))
        }
        (None, None) => None,
    }
}
