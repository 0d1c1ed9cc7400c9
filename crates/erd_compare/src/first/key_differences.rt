ghost use Rattle.std.specs.Prelude.{◌≡◌, ◌++◌, ◌∷◌, [], option_copied, IfOk, OnOk};
ghost use Rattle.erd_compare.specs.code.DifferingParts.{differences_at};

use crate::difference::{Difference, How, Part};
use crate::first::keyed_ways::KeyedWays;
use crate::objects::ways::Ways;
use erd_meaning::Key;
use std::alloc::{AllocError, Global};

/// Appends the differences at a key of a part, one for each way.
pub(crate) fn push_ways(
    alloc: Global,
    part: Part,
    next: &KeyedWays,
    found: &mut Vec<Difference>,
) -> Result<(), AllocError>
    ensures { OnOk result (found.new.items ≡ found.old.items ++ differences_at part next.now) }
{
    match &next.ways {
        Ways::OnlyLeft => push_way(alloc, part, next.key, How::OnlyLeft, found),
        Ways::OnlyRight => push_way(alloc, part, next.key, How::OnlyRight, found),
        Ways::OtherClass => push_way(alloc, part, next.key, How::OtherClass, found),
        Ways::Members(names) => {
            for name in names {
                push_way(alloc, part, next.key, How::in_member(alloc, name)?, found)?;
            }
            Ok(())
        }
    }
}

/// Appends one difference at a key of a part.
fn push_way(
    alloc: Global,
    part: Part,
    key: Option<&Key>,
    how: How,
    found: &mut Vec<Difference>,
) -> Result<(), AllocError>
    ensures { OnOk result (found.new.items ≡ found.old.items ++ record { part = part; key = option_copied key.entry; how = how } ∷ []) }
{
    let key = copied(alloc, key)?;
    found.push(Difference { part, key, how })?;
    Ok(())
}

/// Returns a copy of the key, if there is one.
pub(crate) fn copied(alloc: Global, key: Option<&Key>) -> Result<Option<Key>, AllocError>
    ensures { IfOk result (λ copy. copy ≡ option_copied key.entry) }
{
    match key {
        Some(key) => Ok(Some(key.try_clone(alloc)?)),
        None => Ok(None),
    }
}
