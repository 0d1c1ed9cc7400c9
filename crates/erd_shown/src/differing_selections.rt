//! What differs in the selections of a contest on two ballots, line by line.
ghost use Rattle.std.specs.Prelude.{◌≡◌, ◌++◌, map, slice_get, string_bytes, IfOk, OnOk, Some};
ghost use Rattle.std.specs.List.{flat_map};
ghost use Rattle.serde_json.specs.Written.{compact_text};
ghost use Rattle.erd_shown.specs.BallotLines.{lines_text, name_lines, nested_lines, selection_row_lines};
ghost use Rattle.erd_shown.specs.KeyData.{shown_name};
ghost use Rattle.erd_shown.specs.code.LentNames.{lent};
ghost use Rattle.erd_shown.specs.code.SelectionsFound.{of_selections};

use crate::names::write_name;
use crate::rows::Row;
use crate::selection_rows::{SelectionRows, name_in};
use crate::texts::{append_line, text_of};
use erd_meaning::SelectionName;
use erd_text::Output;
use std::alloc::{AllocError, Global};

/// Appends a line for each selection of a contest that differs.
pub(crate) fn push_nested(
    alloc: Global,
    inside: &SelectionRows,
    text: &mut String,
) -> Result<(), AllocError>
    ensures { OnOk result (string_bytes text.new ≡ string_bytes text.old ++ lines_text (nested_lines (of_selections inside.now))) }
{
    push_rows(alloc, &inside.lefts, &inside.rights, &inside.rows, text)
}

/// Appends the lines for rows of selections.
fn push_rows(
    alloc: Global,
    lefts: &[&SelectionName],
    rights: &[&SelectionName],
    rows: &[Row],
    text: &mut String,
) -> Result<(), AllocError>
    ensures { OnOk result (string_bytes text.new
        ≡ string_bytes text.old ++ flat_map (λ row. lines_text (selection_row_lines (map lent lefts.now) (map lent rights.now) row)) rows.now) }
{
    for row in rows {
        push_row(alloc, lefts, rights, row, text)?;
    }
    Ok(())
}

/// Appends the line for a row of selections, if it tells a difference.
fn push_row(
    alloc: Global,
    lefts: &[&SelectionName],
    rights: &[&SelectionName],
    row: &Row,
    text: &mut String,
) -> Result<(), AllocError>
    ensures { OnOk result (string_bytes text.new
        ≡ string_bytes text.old ++ lines_text (selection_row_lines (map lent lefts.now) (map lent rights.now) row.now)) }
{
    match *row {
        Row::Both(_, _) => Ok(()),
        Row::Removed(one) => push_name_at(alloc, "removed", lefts, one, text),
        Row::Added(other) => push_name_at(alloc, "added", rights, other, text),
        Row::MovedAway(_, _) => Ok(()),
        Row::MovedHere(_, other) => push_name_at(alloc, "moved", rights, other, text),
    }
}

/// Appends the line that says how the selection whose name stands at a position differs.
fn push_name_at(
    alloc: Global,
    how: &str,
    names: &[&SelectionName],
    position: usize,
    text: &mut String,
) -> Result<(), AllocError>
    ensures { OnOk result (string_bytes text.new ≡ string_bytes text.old ++ lines_text (name_lines how.now (slice_get (map lent names.now) position))) }
{
    match name_in(names, position) {
        Some(name) => push_name(alloc, how, name, text),
        None => Ok(()),
    }
}

/// Appends the line that says how the selection with a name differs.
fn push_name(
    alloc: Global,
    how: &str,
    name: &SelectionName,
    text: &mut String,
) -> Result<(), AllocError>
    ensures { OnOk result (string_bytes text.new ≡ string_bytes text.old ++ lines_text (name_lines how.now (Some name.now))) }
{
    let json = name_text(alloc, name)?;
    let line = format!(in alloc; "    {how} selection {json}")?;
    append_line(line.as_str(), text)
}

/// Returns a name as compact JSON.
fn name_text(alloc: Global, name: &SelectionName) -> Result<String, AllocError>
    ensures { IfOk result (λ text. string_bytes text ≡ compact_text (shown_name (Some name.now))) }
{
    let mut out = Output::new(alloc);
    write_name(name, &mut out)?;
    text_of(out)
}
