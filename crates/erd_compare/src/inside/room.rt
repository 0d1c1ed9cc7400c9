//! How many bytes the text of differences of selections has, measured one difference after another before they are kept.
ghost use Rattle.std.specs.Prelude.{IfOk, Some};
ghost use Rattle.erd_compare.specs.Words.{text_size, Member};
ghost use Rattle.erd_compare.specs.code.ContestSelections.{differences_at, differences_named, size_of_list, size_of_one, Leaves};

use crate::difference::How;
use crate::inside::named::NamedWays;
use crate::objects::ways::Ways;
use crate::selection_value::selection_value;
use erd_meaning::SelectionName;
use std::alloc::{AllocError, Global};

/// What is left of the bounds of a list, as its differences are passed.
#[derive(Clone, Copy, Debug)]
pub(crate) struct Room {
    /// How many differences are to be told without their selections.
    pub(crate) first: usize,
    /// How many bytes the texts of the differences behind them may have, or `None` once one did not fit.
    pub(crate) bytes: Option<usize>,
}

/// Returns how many bytes are left of the room behind the text of the array of the differences at these names, or `None` if it
/// does not fit. The texts of single differences are in memory one at a time.
pub(crate) fn left_after_text(
    alloc: Global,
    ways: &[NamedWays],
    room: usize,
) -> Result<Option<usize>, AllocError>
    ensures { IfOk result (Leaves (text_size (Some (differences_at ways.now))) room) }
{
    let Some(left) = left_after_differences(alloc, ways, room)? else {
        return Ok(None);
    };
    if left == room {
        Ok(left_after_bytes(2, left))
    } else {
        Ok(left_after_bytes(1, left))
    }
}

/// Returns how many bytes are left of the room behind the differences at these names, or `None` if they do not fit.
fn left_after_differences(
    alloc: Global,
    ways: &[NamedWays],
    room: usize,
) -> Result<Option<usize>, AllocError>
    ensures { IfOk result (Leaves (size_of_list (differences_at ways.now)) room) }
{
    let mut left = room;
    for named in ways {
        match left_after_ways(alloc, named, left)? {
            Some(less) => left = less,
            None => return Ok(None),
        }
    }
    Ok(Some(left))
}

/// Returns how many bytes are left of the room behind the differences at one name, or `None` if they do not fit.
fn left_after_ways(
    alloc: Global,
    named: &NamedWays,
    room: usize,
) -> Result<Option<usize>, AllocError>
    ensures { IfOk result (Leaves (size_of_list (differences_named named.now.name.now named.now.ways)) room) }
{
    match &named.ways {
        Ways::OnlyLeft => left_after_one(alloc, named.name, &How::OnlyLeft, room),
        Ways::OnlyRight => left_after_one(alloc, named.name, &How::OnlyRight, room),
        Ways::OtherClass => left_after_one(alloc, named.name, &How::OtherClass, room),
        Ways::Members(members) => {
            let mut left = room;
            for member in members {
                match left_after_member(alloc, named.name, member, left)? {
                    Some(less) => left = less,
                    None => return Ok(None),
                }
            }
            Ok(Some(left))
        }
    }
}

/// Returns how many bytes are left of the room behind the difference in a member and the byte that follows it in an array, or
/// `None` if they do not fit.
fn left_after_member(
    alloc: Global,
    name: &SelectionName,
    member: &str,
    room: usize,
) -> Result<Option<usize>, AllocError>
    ensures { IfOk result (Leaves (size_of_one (record { name = name.now; how = Member member.now })) room) }
{
    let how = How::in_member(alloc, member)?;
    left_after_one(alloc, name, &how, room)
}

/// Returns how many bytes are left of the room behind one difference and the byte that follows it in an array, or `None` if they
/// do not fit.
fn left_after_one(
    alloc: Global,
    name: &SelectionName,
    how: &How,
    room: usize,
) -> Result<Option<usize>, AllocError>
    ensures { IfOk result (Leaves (size_of_one (record { name = name.now; how = how.now })) room) }
{
    let text = selection_value(alloc, name, how)?.to_string(alloc)?;
    match left_after_bytes(text.len(), room) {
        Some(left) => Ok(left_after_bytes(1, left)),
        None => Ok(None),
    }
}

/// Returns how many bytes are left of the room behind so many, or `None` if they do not fit.
fn left_after_bytes(size: usize, room: usize) -> Option<usize>
    ensures { Leaves size room result }
{
    if size <= room {
        Some(room - size)
    } else {
        None
    }
}
