ghost use Rattle.std.specs.Prelude.{◌≡◌, true, option_copied, option_map, IfOk, IfSome};
ghost use Rattle.std.specs.Option.{option_or};
ghost use Rattle.erd_compare.specs.code.DifferingWays.{AreWays};
ghost use Rattle.erd_compare.specs.code.NamedSelections.{record_named, IsNamedOn, TellsWays};
ghost use Rattle.erd_compare.specs.declared.ranks.common_ranks.ComparedReport.TheVariants as side;

use crate::comparer::Comparer;
use crate::objects::records::{PlacedObject, object_ways};
use crate::objects::ways::Ways;
use erd_meaning::SelectionName;
use erd_tables::{Family, Role};
use std::alloc::AllocError;

/// A selection with its name.
#[derive(Clone, Copy)]
pub(crate) struct NamedSelection<'a> {
    pub(crate) name: &'a SelectionName,
    pub(crate) object: PlacedObject<'a>,
}

/// The ways in which the selections with a name differ.
#[derive(Drop)]
pub(crate) struct NamedWays<'a> {
    pub(crate) name: &'a SelectionName,
    pub(crate) ways: Ways<'a>,
}

/// Returns the ways in which two selections with one name differ, if there are any. One of the two may be missing.
pub(crate) fn named_ways<'a>(
    comparer: &Comparer,
    one: Option<&NamedSelection<'a>>,
    other: Option<&NamedSelection<'a>>,
) -> Result<Option<NamedWays<'a>>, AllocError>
    requires one { IfSome (option_copied one) (IsNamedOn comparer.now.left comparer.now.right side.Left) }
    requires other { IfSome (option_copied other) (IsNamedOn comparer.now.left comparer.now.right side.Right) }
    ensures { IfOk result (TellsWays comparer.now.left comparer.now.right (option_copied one.entry) (option_copied other.entry)) }
{
    let Some(name) = name_of_either(one, other) else {
        return Ok(None);
    };
    let ways = ways_of_both(comparer, one, other)?;
    if ways.are_none() {
        Ok(None)
    } else {
        Ok(Some(NamedWays { name, ways }))
    }
}

/// Returns the name of the first of two selections that is not missing.
fn name_of_either<'a>(
    one: Option<&NamedSelection<'a>>,
    other: Option<&NamedSelection<'a>>,
) -> Option<&'a SelectionName>
    ensures { option_copied result ≡ option_map (λ s. s.name.now) (option_or (option_copied one.entry) (option_copied other.entry)) }
{
    match (one, other) {
        (Some(selection), _) => Some(selection.name),
        (None, Some(selection)) => Some(selection.name),
        (None, None) => None,
    }
}

/// Returns the ways in which two selections with one name differ. One of the two may be missing.
fn ways_of_both<'a>(
    comparer: &Comparer,
    one: Option<&NamedSelection<'a>>,
    other: Option<&NamedSelection<'a>>,
) -> Result<Ways<'a>, AllocError>
    requires one { IfSome (option_copied one) (IsNamedOn comparer.now.left comparer.now.right side.Left) }
    requires other { IfSome (option_copied other) (IsNamedOn comparer.now.left comparer.now.right side.Right) }
    ensures { IfOk result (AreWays true (record_named comparer.now.left (option_copied one.entry))
        (record_named comparer.now.right (option_copied other.entry))) }
{
    match (one, other) {
        (Some(one), Some(other)) => {
            let role = Role::OfFamily(Family::Selection);
            object_ways(comparer, role, one.object, other.object, true)
        }
        (Some(_), None) => Ok(Ways::OnlyLeft),
        (None, Some(_)) => Ok(Ways::OnlyRight),
        (None, None) => Ok(Ways::Members(Vec::new(comparer.alloc))),
    }
}
