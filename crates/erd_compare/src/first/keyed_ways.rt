ghost use Rattle.std.specs.Prelude.{◌≡◌, option_copied, IfOk};
ghost use Rattle.erd_compare.specs.Words.{view};
ghost use Rattle.erd_compare.specs.declared.objects.ways.Ways.TheVariants.{OnlyLeft, OnlyRight};
ghost use Rattle.erd_compare.specs.code.RisingParts.{AreRising};
ghost use Rattle.erd_compare.specs.code.KeyedDifferences.{TellsAtPositions};

use crate::comparer::Comparer;
use crate::difference::Part;
use crate::objects::held::{held_ways, is_same_holder};
use crate::objects::records::{PlacedObject, object_ways};
use crate::objects::ways::Ways;
use crate::ranks::common_ranks::ComparedReport;
use crate::ranks::role_objects::{rising, role_of};
use erd_meaning::Key;
use std::alloc::AllocError;

/// The ways in which two reports differ at a key of a part. The report has no key, and an election may have none.
#[derive(Drop)]
pub(crate) struct KeyedWays<'a> {
    pub(crate) key: Option<&'a Key>,
    pub(crate) ways: Ways<'a>,
}

/// The positions of the objects of two reports in a part, in the rising order of their keys, and the common ranks of the keys of
/// the right report.
#[derive(Clone, Copy)]
pub(crate) struct Rising<'a> {
    pub(crate) ones: &'a [usize],
    pub(crate) others: &'a [usize],
    pub(crate) common: &'a [usize],
}

impl<'a> KeyedWays<'a> {
    /// Returns that only the left report has an object with the key.
    pub(crate) fn only_left(key: Option<&'a Key>) -> KeyedWays<'a>
        ensures key { option_copied result.key ≡ option_copied key.entry }
        ensures ways { result.ways ≡ OnlyLeft }
    {
        let ways = Ways::OnlyLeft;
        KeyedWays { key, ways }
    }

    /// Returns that only the right report has an object with the key.
    pub(crate) fn only_right(key: Option<&'a Key>) -> KeyedWays<'a>
        ensures key { option_copied result.key ≡ option_copied key.entry }
        ensures ways { result.ways ≡ OnlyRight }
    {
        let ways = Ways::OnlyRight;
        KeyedWays { key, ways }
    }
}

/// Returns what both reports have of the objects in a part, in the rising order of their keys.
pub(crate) fn rising_in<'a>(comparer: &'a Comparer, part: Part) -> Rising<'a>
    ensures { AreRising comparer.now.left comparer.now.right part result }
{
    let role = role_of(part);
    Rising {
        ones: rising(comparer.left(), role),
        others: rising(comparer.right(), role),
        common: comparer.common_ranks(role),
    }
}

/// Returns the ways in which the objects of the two reports at these positions of a part differ. Both have the same key, or
/// none. If not all ways are wanted, the first is enough.
pub(crate) fn ways_at<'a>(
    comparer: &'a Comparer,
    part: Part,
    position: usize,
    other_position: usize,
    all: bool,
) -> Result<Ways<'a>, AllocError>
    ensures { IfOk result (TellsAtPositions all comparer.now.left comparer.now.right part position other_position) }
{
    let role = role_of(part);
    match (
        comparer.object_at(ComparedReport::Left, role, position),
        comparer.object_at(ComparedReport::Right, role, other_position),
    ) {
        (Some(value), Some(other_value)) => {
            let one = PlacedObject {
                value,
                index: position,
            };
            let other = PlacedObject {
                value: other_value,
                index: other_position,
            };
            let own = object_ways(comparer, role, one, other, all)?;
            held_ways(
                own,
                is_same_holder(comparer, role, position, other_position),
            )
        }
        // a position in an order has an object
        _ => Ok(Ways::Members(Vec::new(comparer.alloc))),
    }
}
