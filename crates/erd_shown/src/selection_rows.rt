ghost use Rattle.std.specs.Prelude.{◌≡◌, ◌++◌, map, slice_get, IfOk, OnOk};
ghost use Rattle.serde_json.specs.View.{view};
ghost use Rattle.erd_text.specs.Tokens.{value_tokens};
ghost use Rattle.erd_shown.specs.KeyData.{array_of};
ghost use Rattle.erd_shown.specs.ListedNames.{names_in_order, names_on};
ghost use Rattle.erd_shown.specs.SelectionRows.{AreSelections, are_listed, named_row, no_names, selection_row, rows_of_selections};
ghost use Rattle.erd_shown.specs.code.LentNames.{lent};
ghost use Rattle.erd_shown.specs.code.SelectionsFound.{of_selections};

use crate::beside::rows_between;
use crate::listed::{lists_selections, names_in_order, names_on};
use crate::names::write_name_or_null;
use crate::rows::Row;
use erd_meaning::{Report, SelectionName};
use erd_text::Output;
use serde_json::Value;
use std::alloc::{AllocError, Global};

/// The names of the selections of a contest on two ballots, and rows of them.
#[derive(Drop)]
pub(crate) struct SelectionRows<'a> {
    pub(crate) lefts: Vec<&'a SelectionName>,
    pub(crate) rights: Vec<&'a SelectionName>,
    pub(crate) rows: Vec<Row>,
}

/// Returns the selections of a contest on two ballots beside each other.
pub(crate) fn selections_beside<'a>(
    alloc: Global,
    left: &'a Report,
    one: &Value,
    right: &'a Report,
    other: &Value,
) -> Result<SelectionRows<'a>, AllocError>
    ensures { IfOk result (λ found. AreSelections left.now.prefer (view left.now.tree) (view one.now) right.now.prefer (view right.now.tree) (view other.now)
        (of_selections found)) }
{
    let both_listed = are_listed(one, other);
    let lefts = names_for(alloc, left, one, both_listed)?;
    let rights = names_for(alloc, right, other, both_listed)?;
    let rows = rows_between(alloc, &lefts, &rights)?;
    Ok(SelectionRows {
        lefts,
        rights,
        rows,
    })
}

/// Returns whether both ballots list the selections of a contest.
fn are_listed(one: &Value, other: &Value) -> bool
    ensures { result ≡ are_listed (view one.now) (view other.now) }
{
    lists_selections(one) && lists_selections(other)
}

/// Returns the names of the selections of a contest for rows.
fn names_for<'a>(
    alloc: Global,
    report: &'a Report,
    node: &Value,
    both_listed: bool,
) -> Result<Vec<&'a SelectionName>, AllocError>
    ensures { IfOk result (λ names. map lent names.items ≡ names_in_order both_listed (names_on report.now.prefer (view report.now.tree) (view node.now))) }
{
    let names = names_on(alloc, report, node)?;
    names_in_order(alloc, names, both_listed)
}

/// Returns no names and no rows.
pub(crate) fn no_selections<'a>(alloc: Global) -> SelectionRows<'a>
    ensures { of_selections result ≡ no_names }
{
    SelectionRows {
        lefts: Vec::new(alloc),
        rights: Vec::new(alloc),
        rows: Vec::new(alloc),
    }
}

/// Writes the rows of the selections of a contest as an array.
pub(crate) fn write_selection_rows(
    found: &SelectionRows,
    out: &mut Output,
) -> Result<(), AllocError>
    ensures { OnOk result (out.new ≡ out.old ++ value_tokens (rows_of_selections (of_selections found.now))) }
{
    write_rows(&found.lefts, &found.rights, &found.rows, out)
}

/// Writes rows of selections as an array.
fn write_rows(
    lefts: &[&SelectionName],
    rights: &[&SelectionName],
    rows: &[Row],
    out: &mut Output,
) -> Result<(), AllocError>
    ensures { OnOk result (out.new ≡ out.old ++ value_tokens (array_of (map (selection_row (map lent lefts.now) (map lent rights.now)) rows.now))) }
{
    out.begin_array()?;
    for row in rows {
        write_row(lefts, rights, row, out)?;
    }
    out.end_array()
}

/// Writes a row of a selection.
fn write_row(
    lefts: &[&SelectionName],
    rights: &[&SelectionName],
    row: &Row,
    out: &mut Output,
) -> Result<(), AllocError>
    ensures { OnOk result (out.new ≡ out.old ++ value_tokens (selection_row (map lent lefts.now) (map lent rights.now) row.now)) }
{
    match *row {
        Row::Both(one, _) => write_named("both", lefts, one, out),
        Row::Removed(one) => write_named("removed", lefts, one, out),
        Row::Added(other) => write_named("added", rights, other, out),
        Row::MovedAway(one, _) => write_named("moved away", lefts, one, out),
        Row::MovedHere(_, other) => write_named("moved here", rights, other, out),
    }
}

/// Writes a row of the selection whose name stands at a position.
fn write_named(
    how: &str,
    names: &[&SelectionName],
    position: usize,
    out: &mut Output,
) -> Result<(), AllocError>
    ensures { OnOk result (out.new ≡ out.old ++ value_tokens (named_row how.now (slice_get (map lent names.now) position))) }
{
    out.begin_object()?;
    out.key("how")?;
    out.string(how)?;
    out.key("name")?;
    write_name_or_null(name_in(names, position), out)?;
    out.end_object()
}

/// Returns the name at a position, if there is one.
pub(crate) fn name_in<'a>(names: &[&'a SelectionName], position: usize) -> Option<&'a SelectionName>
    ensures { result ≡ slice_get names.now position }
{
    names.get(position).copied()
}
