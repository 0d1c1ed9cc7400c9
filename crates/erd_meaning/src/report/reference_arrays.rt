//! Which object a reference names, and arrays of references that have no fault.
ghost use Rattle.std.specs.Prelude.{◌≡◌, Some, ◌==◌, ◌&&◌, true, false, not, map, IfOk, IfSome, IsTrue};
ghost use Rattle.erd_meaning.specs.Words.{IsDistinct, option_map_or, view, items_view};
ghost use Rattle.erd_tables.specs.declared.class.Family.TheVariants as family;
ghost use Rattle.erd_meaning.specs.code.ObjectIndexes.{is_in_contest, number_among};
ghost use Rattle.erd_meaning.specs.code.ReferenceReasons.{AreClear, IsClear, is_selection_elsewhere, is_selection_family, IsHome};
ghost use Rattle.erd_meaning.specs.code.RisingNumbers.{IsRisingFrom};
ghost use Rattle.erd_meaning.specs.code.Shown.{shown};

use crate::report::reference_judge::ReferenceJudge;
use erd_check::values::text_at;
use erd_tables::Family;
use serde_json::Value;
use std::alloc::{AllocError, Global};

impl<'b, 'a> ReferenceJudge<'b, 'a> {
    /// Returns `true` only if no reference to the family in an array has a fault. `object` is the value that has the array. No
    /// two entries of a set may name one object.
    pub(crate) fn are_clear(
        &self,
        alloc: Global,
        family: Family,
        is_set: bool,
        object: &Value,
        items: &[Value],
    ) -> Result<bool, AllocError>
        ensures { IfOk result (λ clear. IsTrue clear → AreClear (map shown self.now.objects.now.objects) (view object.now) family is_set
            (items_view items.now)) }
    {
        let mut positions = Vec::new(alloc);
        let mut home = None;
        for item in items {
            let Some(position) = self.clear_position(family, &mut home, object, item) else {
                return Ok(false);
            };
            if is_set {
                positions.push(position)?;
            }
        }
        Ok(are_distinct(positions))
    }

    /// Returns the position of the object that a reference of an array names, if the reference has no fault but that it may be
    /// repeated. `home` is as in `is_away`.
    fn clear_position(
        &self,
        family: Family,
        home: &mut Option<usize>,
        object: &Value,
        item: &Value,
    ) -> Option<usize>
        requires home { IfSome home.old (IsHome (map shown self.now.objects.now.objects) (view object.now)) }
        ensures clear { IfSome result (IsClear (map shown self.now.objects.now.objects) (view object.now) family (view item.now)) }
        ensures home { IfSome home.new (IsHome (map shown self.now.objects.now.objects) (view object.now)) }
    {
        let id = item.as_str()?;
        let (own, position) = self.objects.position_on_trail(family, id)?;
        if own != family || self.is_away(family, position, home, object) {
            return None;
        }
        Some(position)
    }

    /// Returns what `is_elsewhere` does. `home` is a contest none of whose selections is elsewhere, if one is known: most arrays
    /// name selections of one contest, so what the object names is looked up for the first alone.
    fn is_away(
        &self,
        family: Family,
        index: usize,
        home: &mut Option<usize>,
        object: &Value,
    ) -> bool
        requires home { IfSome home.old (IsHome (map shown self.now.objects.now.objects) (view object.now)) }
        ensures away { result ≡ (is_selection_family family && is_selection_elsewhere (map shown self.now.objects.now.objects) (view object.now) index) }
        ensures home { IfSome home.new (IsHome (map shown self.now.objects.now.objects) (view object.now)) }
    {
        if family != Family::Selection {
            return false;
        }
        let Some(contest) = self.objects.contest_of(index) else {
            return self.is_elsewhere(family, index, object);
        };
        if is_known(*home, contest) {
            return false;
        }
        if self.is_elsewhere(family, index, object) {
            return true;
        }
        *home = Some(contest);
        false
    }

    /// Returns whether the object at this position of the family is a selection of another contest than the one that
    /// `ContestId` of the other object names. If this names no contest, returns `false`. An honest ballot names the contest of
    /// each selection, so its `@id` is compared first, and looked up only if it is another.
    pub(crate) fn is_elsewhere(&self, family: Family, index: usize, object: &Value) -> bool
        ensures { result ≡ (is_selection_family family && is_selection_elsewhere (map shown self.now.objects.now.objects) (view object.now) index) }
    {
        if family != Family::Selection {
            return false;
        }
        let id = text_at(object, "ContestId");
        if self.is_in_contest_with(index, id) {
            return false;
        }
        match self.objects.position_in(Family::Contest, id) {
            Some(contest) => !self.objects.is_in_contest(contest, index),
            None => false,
        }
    }

    /// Returns whether the selection is in the contest with this `@id`.
    fn is_in_contest_with(&self, selection: usize, id: &str) -> bool
        ensures { result ≡ true → option_map_or (λ contest. not (is_in_contest (map shown self.now.objects.now.objects) contest selection))
            (number_among (map shown self.now.objects.now.objects) family.Contest id.now) false ≡ false }
    {
        match self.objects.contest_of(selection) {
            Some(contest) => self.objects.has_id_at(Family::Contest, contest, id),
            None => false,
        }
    }
}

/// Returns whether the number is the one that is known.
fn is_known(known: Option<usize>, number: usize) -> bool
    ensures { result ≡ true → known ≡ Some number }
{
    match known {
        Some(known) => known == number,
        None => false,
    }
}

/// Returns `true` only if no two of the numbers are equal.
fn are_distinct(mut numbers: Vec<usize>) -> bool
    ensures { IsTrue result → IsDistinct (λ a b. a == b) numbers.items }
{
    numbers.sort_unstable();
    rise(&numbers)
}

/// Returns `true` only if each number is greater than the one before.
fn rise(numbers: &[usize]) -> bool
    ensures { IsTrue result → IsRisingFrom 0 numbers.now }
{
    let mut least = 0;
    for number in numbers {
        if *number < least || *number == usize::MAX {
            return false;
        }
        least = *number + 1;
    }
    true
}
