ghost use Rattle.std.specs.Prelude.{◌≡◌, ◌++◌, ◌∷◌, [], IfOk, OnOk};
ghost use Rattle.erd_compare.specs.code.ContestSelections.{differences_at, differences_named};

use crate::difference::How;
use crate::inside::SelectionDifference;
use crate::inside::named::NamedWays;
use crate::objects::ways::Ways;
use erd_meaning::SelectionName;
use std::alloc::{AllocError, Global};

/// Returns the differences at these names, one for each way.
pub(crate) fn differences_at(
    alloc: Global,
    ways: &[NamedWays],
) -> Result<Vec<SelectionDifference>, AllocError>
    ensures { IfOk result (λ found. found.items ≡ differences_at ways.now) }
{
    let mut found = Vec::new(alloc);
    for named in ways {
        push_named(alloc, named.name, &named.ways, &mut found)?;
    }
    Ok(found)
}

/// Appends the differences at the name of a selection, one for each way.
fn push_named(
    alloc: Global,
    name: &SelectionName,
    ways: &Ways,
    found: &mut Vec<SelectionDifference>,
) -> Result<(), AllocError>
    ensures { OnOk result (found.new.items ≡ found.old.items ++ differences_named name.now ways.now) }
{
    match ways {
        Ways::OnlyLeft => push_named_way(alloc, name, How::OnlyLeft, found),
        Ways::OnlyRight => push_named_way(alloc, name, How::OnlyRight, found),
        Ways::OtherClass => push_named_way(alloc, name, How::OtherClass, found),
        Ways::Members(members) => {
            for member in members {
                push_named_way(alloc, name, How::in_member(alloc, member)?, found)?;
            }
            Ok(())
        }
    }
}

/// Appends one difference at the name of a selection.
fn push_named_way(
    alloc: Global,
    name: &SelectionName,
    how: How,
    found: &mut Vec<SelectionDifference>,
) -> Result<(), AllocError>
    ensures { OnOk result (found.new.items ≡ found.old.items ++ record { name = name.now; how = how } ∷ []) }
{
    let name = name.try_clone(alloc)?;
    found.push(SelectionDifference { name, how })?;
    Ok(())
}
