ghost use Rattle.std.specs.Prelude.{◌≡◌, IfOk, map};
ghost use Rattle.std.specs.Map.{lookup};
ghost use Rattle.std.specs.Ordering.{eq_by_cmp};
ghost use Rattle.erd_shown.specs.Partners.{occurrences, partners};
ghost use Rattle.erd_shown.specs.code.PlacesFound.{HavePlaces, occurrence_cmp};

use crate::counts::one_more;
use std::alloc::{AllocError, Global};
use std::collections::BTreeMap;

/// Returns each thing of a list with the number of its occurrence: how often it stands among those before it.
///
/// # Errors
///
/// `AllocError` if out of memory.
///
/// ```
/// let counted = occurrences(alloc, &[7, 8, 7])?;
/// assert_eq!(rt; counted.get(2), Some(&(7, 1)));
/// ```
pub fn occurrences<K: Ord + Copy>(
    alloc: Global,
    things: &[K],
) -> Result<Vec<(K, usize)>, AllocError>
    ensures { IfOk result (λ found. found.items ≡ occurrences (eq_by_cmp K.cmp) things.now) }
{
    let mut times = BTreeMap::new(alloc);
    let mut found = Vec::new(alloc);
    for thing in things {
        let before: usize = times.get(thing).copied().unwrap_or(0);
        let next = one_more(before)?;
        found.push((*thing, before))?;
        times.insert(*thing, next)?;
    }
    Ok(found)
}

/// Returns, for each thing of one list, the position of the same occurrence of it in another list, if it is there.
///
/// # Errors
///
/// `AllocError` if out of memory.
///
/// ```
/// let partners = partners_of(alloc, &[7, 8, 7], &[9, 7, 7, 7])?;
/// assert_eq!(rt; partners.as_slice(), [Some(1), None, Some(2)].as_slice());
/// ```
pub fn partners_of<K: Ord + Copy>(
    alloc: Global,
    things: &[K],
    others: &[K],
) -> Result<Vec<Option<usize>>, AllocError>
    ensures { IfOk result (λ found. found.items ≡ partners (eq_by_cmp K.cmp) things.now others.now) }
{
    let places = places(alloc, &occurrences(alloc, others)?)?;
    places_in(alloc, &places, &occurrences(alloc, things)?)
}

/// Returns the position of each of these occurrences, if it has one.
fn places_in<K: Ord + Copy>(
    alloc: Global,
    places: &BTreeMap<(K, usize), usize>,
    occurrences: &[(K, usize)],
) -> Result<Vec<Option<usize>>, AllocError>
    ensures { IfOk result (λ found. found.items ≡ map (λ p. lookup (eq_by_cmp (occurrence_cmp K.cmp) p) places.now.entries) occurrences.now) }
{
    let mut found = Vec::new(alloc);
    for occurrence in occurrences {
        found.push(places.get(occurrence).copied())?;
    }
    Ok(found)
}

/// Returns the position of each occurrence of a list.
fn places<K: Ord + Copy>(
    alloc: Global,
    occurrences: &[(K, usize)],
) -> Result<BTreeMap<(K, usize), usize>, AllocError>
    ensures { IfOk result (λ places. HavePlaces K.cmp occurrences.now places.entries) }
{
    let mut places = BTreeMap::new(alloc);
    for (index, occurrence) in occurrences.iter().enumerate() {
        places.insert(*occurrence, index)?;
    }
    Ok(places)
}
