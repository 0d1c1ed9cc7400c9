ghost use Rattle.std.specs.Prelude.{◌≡◌, ◌++◌, map, slice_get, Some, IfOk, OnOk};
ghost use Rattle.std.specs.List.{AllByRecursion};
ghost use Rattle.serde_json.specs.Data.{Data};
ghost use Rattle.serde_json.specs.View.{view};
ghost use Rattle.erd_text.specs.Tokens.{members_tokens, value_tokens};
ghost use Rattle.std.specs.Ordering.{eq_by_cmp};
ghost use Rattle.erd_shown.specs.Partners.{partners};
ghost use Rattle.erd_shown.specs.RowData.{AreBeside, rows_members, thing_cmp};
ghost use Rattle.erd_shown.specs.Rows.{AreRows};
ghost use Rattle.erd_shown.specs.SelectionRows.{AreSelections, AreSelectionsAt, IsInside};
ghost use Rattle.erd_shown.specs.code.LineLists.{of_line, of_thing};
ghost use Rattle.erd_shown.specs.code.LineTexts.{things_in};
ghost use Rattle.erd_shown.specs.code.SelectionsFound.{of_row, of_selections};

use crate::ballots::{lines_of, thing_at, write_lines};
use crate::beside::rows_between;
use crate::lines::Line;
use crate::row_texts::write_rows;
use crate::rows::Row;
use crate::selection_rows::{SelectionRows, no_selections, selections_beside};
use erd_meaning::{Key, Report};
use erd_text::Output;
use serde_json::Value;
use std::alloc::{AllocError, Global};

/// What a line is: whether it is a header, and its key.
pub(crate) type Thing<'a> = (bool, Option<&'a Key>);

/// Writes the ballots of two styles beside each other, as JSON: the lines of both, and rows with the positions of lines. Each
/// line of either ballot stands in one row, in its order. A row is of a line of both, of a line of one, or of a line that
/// moved. In the row of a contest of both stand rows of its selections, by their names.
///
/// # Errors
///
/// `AllocError` if out of memory.
///
/// ```
/// write_ballots_beside(alloc, left, style, right, other, &mut out)?;
/// ```
pub fn write_ballots_beside(
    alloc: Global,
    left: &Report,
    style: &Value,
    right: &Report,
    other: &Value,
    out: &mut Output,
) -> Result<(), AllocError>
    ensures { OnOk result ((told : Data) × AreBeside left.now.prefer (view left.now.tree) (view style.now) right.now.prefer (view right.now.tree)
        (view other.now) told × (out.new ≡ out.old ++ value_tokens told)) }
{
    let ones = lines_of(alloc, style)?;
    let others = lines_of(alloc, other)?;
    let rows = rows_of_lines(alloc, left, &ones, right, &others)?;
    let nested = with_selections(alloc, left, &ones, right, &others, &rows)?;
    out.begin_object()?;
    out.key("left")?;
    write_lines(alloc, left, &ones, out)?;
    out.key("right")?;
    write_lines(alloc, right, &others, out)?;
    write_rows_member(&nested, out)
}

/// Returns rows of lines, each with the selections inside it.
pub(crate) fn with_selections<'a>(
    alloc: Global,
    left: &'a Report,
    ones: &[Line],
    right: &'a Report,
    others: &[Line],
    rows: &[Row],
) -> Result<Vec<(Row, SelectionRows<'a>)>, AllocError>
    ensures rows { IfOk result (λ found. map (λ r. r.0) found.items ≡ rows.now) }
    ensures inside { IfOk result (λ found. AllByRecursion
        (IsInside (AreSelectionsAt left.now.prefer (view left.now.tree) (map of_line ones.now) right.now.prefer (view right.now.tree) (map of_line others.now)))
        (map of_row found.items)) }
{
    let mut found = Vec::new(alloc);
    for row in rows {
        let inside = selections_of_row(alloc, left, ones, right, others, row)?;
        found.push((*row, inside))?;
    }
    Ok(found)
}

/// Returns the selections inside a row.
fn selections_of_row<'a>(
    alloc: Global,
    left: &'a Report,
    ones: &[Line],
    right: &'a Report,
    others: &[Line],
    row: &Row,
) -> Result<SelectionRows<'a>, AllocError>
    ensures { IfOk result (λ found. IsInside
        (AreSelectionsAt left.now.prefer (view left.now.tree) (map of_line ones.now) right.now.prefer (view right.now.tree) (map of_line others.now))
        (row.now, of_selections found)) }
{
    match *row {
        Row::Both(one, other) => {
            let one = line_in(ones, one);
            let other = line_in(others, other);
            selections_at(alloc, left, one, right, other)
        }
        Row::MovedHere(one, other) => {
            let one = line_in(ones, one);
            let other = line_in(others, other);
            selections_at(alloc, left, one, right, other)
        }
        _ => Ok(no_selections(alloc)),
    }
}

/// Returns the line at a position, if there is one.
pub(crate) fn line_in<'a>(lines: &[Line<'a>], position: usize) -> Option<Line<'a>>
    ensures { result ≡ slice_get lines.now position }
{
    lines.get(position).copied()
}

/// Returns the selections of two lines beside each other.
fn selections_at<'a>(
    alloc: Global,
    left: &'a Report,
    one: Option<Line>,
    right: &'a Report,
    other: Option<Line>,
) -> Result<SelectionRows<'a>, AllocError>
    ensures { IfOk result (λ found. (l r : Line) → one.entry ≡ Some l → other.entry ≡ Some r
        → AreSelections left.now.prefer (view left.now.tree) (of_line l).1 right.now.prefer (view right.now.tree) (of_line r).1 (of_selections found)) }
{
    match one {
        Some(one) => match other {
            Some(other) => selections_beside(alloc, left, one.node, right, other.node),
            None => Ok(no_selections(alloc)),
        },
        None => Ok(no_selections(alloc)),
    }
}

/// Returns the rows of lines of two ballots.
pub(crate) fn rows_of_lines(
    alloc: Global,
    left: &Report,
    ones: &[Line],
    right: &Report,
    others: &[Line],
) -> Result<Vec<Row>, AllocError>
    ensures { IfOk result (λ rows. AreRows
        (partners (eq_by_cmp thing_cmp) (things_in left.now.prefer (view left.now.tree) ones.now) (things_in right.now.prefer (view right.now.tree) others.now))
        (partners (eq_by_cmp thing_cmp) (things_in right.now.prefer (view right.now.tree) others.now) (things_in left.now.prefer (view left.now.tree) ones.now))
        rows.items) }
{
    let left_things = things_at(alloc, left, ones)?;
    let right_things = things_at(alloc, right, others)?;
    rows_between(alloc, &left_things, &right_things)
}

/// Writes the rows as the last member of an object.
fn write_rows_member(rows: &[(Row, SelectionRows)], out: &mut Output) -> Result<(), AllocError>
    ensures { OnOk result (out.new ≡ out.old ++ members_tokens (rows_members (map of_row rows.now))) }
{
    out.key("rows")?;
    write_rows(rows, out)?;
    out.end_object()
}

/// Returns what the lines are.
fn things_at<'a>(
    alloc: Global,
    report: &'a Report,
    lines: &[Line],
) -> Result<Vec<Thing<'a>>, AllocError>
    ensures { IfOk result (λ things. map of_thing things.items ≡ things_in report.now.prefer (view report.now.tree) lines.now) }
{
    let mut things = Vec::new(alloc);
    for line in lines {
        things.push(thing_at(report, line.node))?;
    }
    Ok(things)
}
