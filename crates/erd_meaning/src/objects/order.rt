//! The order of the objects of a family, or of the elections, by their keys.
ghost use Rattle.std.specs.Prelude.{◌≡◌, ◌<◌, length, map, replicate, slice_get, IfOk};
ghost use Rattle.erd_meaning.specs.Words.{AllByRecursion, rising_list, places_put};
ghost use Rattle.erd_meaning.specs.code.KeyOrders.{AreDistinct, IsOrder, keys_seen, lent_key_cmp, positioned, seen_keys};

use crate::keys::key::Key;
use std::alloc::{AllocError, Global};

/// The order of objects by their keys.
#[derive(Debug, Drop)]
pub(crate) struct Order {
    /// The positions of the objects, in the rising order of their keys.
    pub(crate) rising: Vec<usize>,
    /// The rank of each object, by its position: the number of keys that are less than its own.
    pub(crate) ranks: Vec<usize>,
}

impl Order {
    /// Returns the order of objects with these keys, which stand with the positions of the objects, in the order of the
    /// report. No two are equal.
    pub(crate) fn of(alloc: Global, keys: Vec<(Option<&Key>, usize)>) -> Result<Order, AllocError>
        requires placed { seen_keys keys.items ≡ positioned 0 (keys_seen keys.items) }
        requires distinct { AreDistinct (keys_seen keys.items) }
        ensures { IfOk result (IsOrder (keys_seen keys.entry.items)) }
    {
        let sorted = in_rising_order(keys)?;
        let rising = positions_of(alloc, &sorted)?;
        let ranks = places_in(alloc, &rising)?;
        Ok(Order { rising, ranks })
    }

    /// Returns the rank of the object at the position, if there is one.
    pub(crate) fn rank_at(&self, position: usize) -> Option<usize>
        ensures { result ≡ slice_get self.now.ranks.items position }
    {
        self.ranks.get(position).copied()
    }
}

/// Returns the same keys in rising order.
pub(crate) fn in_rising_order(
    mut keys: Vec<(Option<&Key>, usize)>,
) -> Result<Vec<(Option<&Key>, usize)>, AllocError>
    ensures { IfOk result (λ rising. rising.items ≡ rising_list (λ a b. lent_key_cmp a.0 b.0) keys.entry.items) }
{
    keys.sort_by_key(|one| one.0)?;
    Ok(keys)
}

/// Returns the positions that stand with the keys.
fn positions_of(alloc: Global, keys: &[(Option<&Key>, usize)]) -> Result<Vec<usize>, AllocError>
    ensures { IfOk result (λ positions. positions.items ≡ map (λ p. p.1) keys.now) }
{
    let mut positions = Vec::with_capacity(alloc, keys.len())?;
    for key in keys {
        positions.push(key.1)?;
    }
    Ok(positions)
}

/// Returns the place of each position in the list, in the order of the positions. So if a list has the positions of values in
/// rising order, this gives the rank of each value. Each position must be below the length of the list.
///
/// # Errors
///
/// `AllocError` if out of memory.
///
/// ```
/// assert_eq!(rt; places_in(alloc, &[2, 0, 1])?.as_slice(), [1, 2, 0].as_slice());
/// ```
pub fn places_in(alloc: Global, rising: &[usize]) -> Result<Vec<usize>, AllocError>
    requires low { AllByRecursion (λ i. i < length rising.now) rising.now }
    ensures { IfOk result (λ places. places.items ≡ places_put 0 rising.now (replicate (length rising.now) 0)) }
{
    let mut places = vec![in alloc; 0; rising.len()]?;
    for (place, position) in rising.iter().enumerate() {
        places[*position] = place;
    }
    Ok(places)
}
