//! The differences inside the selections of a contest, each with what both contests have there.
ghost use Rattle.std.specs.Prelude.{◌≡◌, ◌++◌, ◌-◌, IfOk, OnOk, Some, codes, false, length, option_copied, option_map, string_bytes, take};
ghost use Rattle.erd_canon.specs.Words.{comma_if, compact_text, view};
ghost use Rattle.erd_canon.specs.ValuedData.{room_behind, value_at_selection};
ghost use Rattle.erd_canon.specs.code.ValuedInside.{entries_text, entry_at, if_room, room_after, room_at, told_put, value_in_contest};

use crate::data::valued::{member_of, push_comma, push_values, text_of};
use erd_compare::SelectionDifference;
use erd_meaning::{Key, Report};
use erd_shown::{contest_with_key, selection_value_text};
use std::alloc::{AllocError, Global};

/// A contest of a report, or no contest if the report has none with the key that was sought.
#[derive(Clone, Copy)]
pub(crate) struct ContestOf<'a> {
    report: &'a Report<'a>,
    position: Option<usize>,
}

/// The contests of two reports whose selections differ.
#[derive(Clone, Copy)]
pub(crate) struct Contests<'a> {
    pub(crate) left: ContestOf<'a>,
    pub(crate) right: ContestOf<'a>,
}

/// Returns the contest of a report with a key.
pub(crate) fn contest_of<'a>(report: &'a Report<'a>, key: Option<&Key>) -> ContestOf<'a>
    ensures { value_in_contest result ≡ value_at_selection report.now.prefer (view report.now.tree) (option_copied key.entry) }
{
    ContestOf {
        report,
        position: contest_with_key(report, key),
    }
}

/// Puts the member `selections` with the differences of the selections into the text of an object, behind its members. The texts
/// of their values have at most `most_bytes` bytes together. Beside the text, that of one difference is in memory at a time.
pub(crate) fn push_selections(
    alloc: Global,
    contests: &Contests,
    selections: &[SelectionDifference],
    most_bytes: usize,
    text: &mut Vec<u8>,
) -> Result<(), AllocError>
    ensures { OnOk result (text.new.items ≡ take (length text.old.items - 1) text.old.items ++ (codes ",\"selections\":["
        ++ (entries_text contests.now (Some most_bytes) selections.now ++ codes "}"))) }
{
    let last = text.len().saturating_sub(1);
    text.truncate(last);
    text.extend_from_slice(b",\"selections\":[")?;
    push_entries(alloc, contests, selections, most_bytes, text)?;
    text.extend_from_slice(b"}")?;
    Ok(())
}

/// Appends the objects of the differences of selections, and the end of their array.
fn push_entries(
    alloc: Global,
    contests: &Contests,
    selections: &[SelectionDifference],
    most_bytes: usize,
    text: &mut Vec<u8>,
) -> Result<(), AllocError>
    ensures { OnOk result (text.new.items ≡ text.old.items ++ entries_text contests.now (Some most_bytes) selections.now) }
{
    let mut room = Some(most_bytes);
    let mut later = false;
    for selection in selections {
        push_entry(alloc, contests, selection, later, &mut room, text)?;
        later = true;
    }
    text.push(b']')?;
    Ok(())
}

/// Appends the object of a difference of selections with its values, after a comma if it is not the first, and leaves what is
/// left of the room behind these. Once a value does not fit, there is no room left, and null stands in place of the values.
fn push_entry(
    alloc: Global,
    contests: &Contests,
    selection: &SelectionDifference,
    later: bool,
    room: &mut Option<usize>,
    text: &mut Vec<u8>,
) -> Result<(), AllocError>
    ensures leaves { OnOk result (room.new ≡ room_at contests.now room.old selection.now) }
    ensures wrote { OnOk result (text.new.items ≡ text.old.items ++ (comma_if later ++ compact_text (entry_at contests.now room.old selection.now))) }
{
    let left = value_within(alloc, &contests.left, selection, room)?;
    let right = value_within(alloc, &contests.right, selection, room)?;
    let mut entry = selection.to_value(alloc)?.to_string(alloc)?.into_bytes();
    push_told(*room, text_of(&left), text_of(&right), &mut entry)?;
    push_comma(later, text)?;
    text.extend_from_slice(&entry)?;
    Ok(())
}

/// Returns the text of what a contest has at a difference of selections, if it has anything and there is a room, and leaves what
/// is left of the room behind the text.
fn value_within(
    alloc: Global,
    contest: &ContestOf,
    selection: &SelectionDifference,
    room: &mut Option<usize>,
) -> Result<Option<String>, AllocError>
    ensures text { IfOk result (λ text. option_map string_bytes text ≡ option_map compact_text
        (if_room room.old (value_in_contest contest.now selection.now))) }
    ensures leaves { OnOk result (room.new ≡ room_behind room.old (value_in_contest contest.now selection.now)) }
{
    match *room {
        Some(bytes) => {
            let text = text_in_contest(alloc, contest, selection)?;
            *room = room_after(bytes, text_of(&text));
            Ok(text)
        }
        None => Ok(None),
    }
}

/// Returns the text of what a contest has at a difference of selections, if it has anything.
fn text_in_contest(
    alloc: Global,
    contest: &ContestOf,
    selection: &SelectionDifference,
) -> Result<Option<String>, AllocError>
    ensures { IfOk result (λ text. option_map string_bytes text ≡ option_map compact_text (value_in_contest contest.now selection.now)) }
{
    let member = member_of(&selection.how);
    selection_value_text(
        alloc,
        contest.report,
        contest.position,
        &selection.name,
        member,
    )
}

/// Returns what is left of a room behind a text, if there is one, or `None` if the text does not fit.
fn room_after(room: usize, text: Option<&str>) -> Option<usize>
    ensures { result ≡ room_after room (option_copied text.entry) }
{
    match text {
        Some(text) => room.checked_sub(text.len()),
        None => Some(room),
    }
}

/// Puts the member `values` into the text of an object, behind its members: the texts of both sides, or null if there is no room.
fn push_told(
    room: Option<usize>,
    left: Option<&str>,
    right: Option<&str>,
    text: &mut Vec<u8>,
) -> Result<(), AllocError>
    ensures { OnOk result (text.new.items ≡ told_put room (option_copied left.entry) (option_copied right.entry) text.old.items) }
{
    match room {
        Some(_) => push_values(left, right, text),
        None => push_null(text),
    }
}

/// Puts the member `values` with null into the text of an object, behind its members.
fn push_null(text: &mut Vec<u8>) -> Result<(), AllocError>
    ensures { OnOk result (text.new.items ≡ take (length text.old.items - 1) text.old.items ++ codes ",\"values\":null}") }
{
    let last = text.len().saturating_sub(1);
    text.truncate(last);
    text.extend_from_slice(b",\"values\":null}")?;
    Ok(())
}
