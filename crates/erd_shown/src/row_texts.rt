ghost use Rattle.std.specs.Prelude.{◌≡◌, ◌++◌, map, OnOk};
ghost use Rattle.erd_text.specs.Tokens.{members_tokens, value_tokens};
ghost use Rattle.erd_shown.specs.KeyData.{array_of};
ghost use Rattle.erd_shown.specs.RowData.{inside_members, number_or_null, places_members, row_data, row_of};
ghost use Rattle.erd_shown.specs.code.SelectionsFound.{of_row, of_selections};

use crate::names::write_count;
use crate::rows::Row;
use crate::selection_rows::{SelectionRows, write_selection_rows};
use erd_text::Output;
use std::alloc::AllocError;

/// Writes rows as an array.
pub(crate) fn write_rows(rows: &[(Row, SelectionRows)], out: &mut Output) -> Result<(), AllocError>
    ensures { OnOk result (out.new ≡ out.old ++ value_tokens (array_of (map (λ r. row_data (of_row r)) rows.now))) }
{
    out.begin_array()?;
    for row in rows {
        write_row(&row.0, &row.1, out)?;
    }
    out.end_array()
}

/// Writes a row: what it says, the positions of the line in both ballots, and the rows of its selections.
fn write_row(row: &Row, inside: &SelectionRows, out: &mut Output) -> Result<(), AllocError>
    ensures { OnOk result (out.new ≡ out.old ++ value_tokens (row_data (row.now, of_selections inside.now))) }
{
    match *row {
        Row::Both(one, other) => write_row_of("both", Some(one), Some(other), inside, out),
        Row::Removed(one) => write_row_of("removed", Some(one), None, inside, out),
        Row::Added(other) => write_row_of("added", None, Some(other), inside, out),
        Row::MovedAway(one, other) => {
            write_row_of("moved away", Some(one), Some(other), inside, out)
        }
        Row::MovedHere(one, other) => {
            write_row_of("moved here", Some(one), Some(other), inside, out)
        }
    }
}

/// Writes a row of this kind.
fn write_row_of(
    how: &str,
    left: Option<usize>,
    right: Option<usize>,
    inside: &SelectionRows,
    out: &mut Output,
) -> Result<(), AllocError>
    ensures { OnOk result (out.new ≡ out.old ++ value_tokens (row_of how.now left right (of_selections inside.now))) }
{
    out.begin_object()?;
    out.key("how")?;
    out.string(how)?;
    write_places(left, right, inside, out)
}

/// Writes the positions of a row and the rows inside it, and the end of its object.
fn write_places(
    left: Option<usize>,
    right: Option<usize>,
    inside: &SelectionRows,
    out: &mut Output,
) -> Result<(), AllocError>
    ensures { OnOk result (out.new ≡ out.old ++ members_tokens (places_members left right (of_selections inside.now))) }
{
    out.key("left")?;
    write_place(left, out)?;
    out.key("right")?;
    write_place(right, out)?;
    write_inside(inside, out)
}

/// Writes the rows inside a row, and the end of its object.
fn write_inside(inside: &SelectionRows, out: &mut Output) -> Result<(), AllocError>
    ensures { OnOk result (out.new ≡ out.old ++ members_tokens (inside_members (of_selections inside.now))) }
{
    out.key("selections")?;
    write_selection_rows(inside, out)?;
    out.end_object()
}

/// Writes a position, or null.
pub(crate) fn write_place(place: Option<usize>, out: &mut Output) -> Result<(), AllocError>
    ensures { OnOk result (out.new ≡ out.old ++ value_tokens (number_or_null place)) }
{
    match place {
        Some(position) => write_count(position, out),
        None => out.null(),
    }
}
