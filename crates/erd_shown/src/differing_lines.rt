//! What differs on two ballots, line by line.
ghost use Rattle.std.specs.Prelude.{◌≡◌, ◌++◌, ◌&&◌, if◌then◌else◌, codes, not, option_map, string_bytes, IfOk, OnOk, Some};
ghost use Rattle.std.specs.List.{flat_map};
ghost use Rattle.serde_json.specs.View.{view};
ghost use Rattle.erd_shown.specs.BallotLines.{lines_text, side_lines, thing_line};
ghost use Rattle.erd_shown.specs.code.LineLists.{of_line, of_thing};
ghost use Rattle.erd_shown.specs.code.Pairs.{IsMarked, TellsStyles, is_same_line_in, moved_lines_in, pair_lines_in, row_lines_in};
ghost use Rattle.erd_shown.specs.code.SelectionsFound.{of_selections};

use crate::ballot_lines::key_words;
use crate::ballots::{lines_of, thing_at};
use crate::ballots_beside::{Thing, line_in, rows_of_lines, with_selections};
use crate::differing_selections::push_nested;
use crate::differing_voters::push_voters;
use crate::lines::Line;
use crate::listed::lists_selections;
use crate::pairs::Pair;
use crate::reworded::is_same_text;
use crate::reworded_lines::is_line_reworded;
use crate::rows::Row;
use crate::selection_rows::SelectionRows;
use crate::selection_words::line_text;
use crate::texts::{append_headed, append_line};
use erd_meaning::Report;
use serde_json::Value;
use std::alloc::{AllocError, Global};

/// Returns a line for each thing that differs on the ballots of two styles: who gets them, headers, contests and selections. Each
/// line is ended by one line feed.
pub(crate) fn differing_text(
    alloc: Global,
    pair: &Pair,
    style: &Value,
    other: &Value,
) -> Result<String, AllocError>
    requires marks { IsMarked pair.now }
    ensures { IfOk result (λ text. TellsStyles pair.now (view style.now) (view other.now) (string_bytes text)) }
{
    let mut text = String::new(alloc);
    push_voters(alloc, pair, style, other, &mut text)?;
    let ones = lines_of(alloc, style)?;
    let others = lines_of(alloc, other)?;
    let rows = rows_of_lines(alloc, pair.left, &ones, pair.right, &others)?;
    let nested = with_selections(alloc, pair.left, &ones, pair.right, &others, &rows)?;
    push_rows(alloc, pair, &ones, &others, &nested, &mut text)?;
    Ok(text)
}

/// Appends the lines for rows.
fn push_rows(
    alloc: Global,
    pair: &Pair,
    ones: &[Line],
    others: &[Line],
    rows: &[(Row, SelectionRows)],
    text: &mut String,
) -> Result<(), AllocError>
    requires marks { IsMarked pair.now }
    ensures { OnOk result (string_bytes text.new
        ≡ string_bytes text.old ++ flat_map (λ row. lines_text (row_lines_in pair.now ones.now others.now row)) rows.now) }
{
    for row in rows {
        push_row(alloc, pair, ones, others, row, text)?;
    }
    Ok(())
}

/// Appends the lines for a row.
fn push_row(
    alloc: Global,
    pair: &Pair,
    ones: &[Line],
    others: &[Line],
    row: &(Row, SelectionRows),
    text: &mut String,
) -> Result<(), AllocError>
    requires marks { IsMarked pair.now }
    ensures { OnOk result (string_bytes text.new ≡ string_bytes text.old ++ lines_text (row_lines_in pair.now ones.now others.now row.now)) }
{
    match row.0 {
        Row::Both(one, other) => {
            let one = line_in(ones, one);
            let other = line_in(others, other);
            push_pair(alloc, pair, one, other, &row.1, text)
        }
        Row::Removed(one) => push_side(alloc, pair.left, "removed", line_in(ones, one), text),
        Row::Added(other) => push_side(alloc, pair.right, "added", line_in(others, other), text),
        Row::MovedAway(_, _) => Ok(()),
        Row::MovedHere(one, other) => {
            let one = line_in(ones, one);
            let other = line_in(others, other);
            push_moved(alloc, pair, one, other, &row.1, text)
        }
    }
}

/// Appends the lines for a line that moved.
fn push_moved(
    alloc: Global,
    pair: &Pair,
    one: Option<Line>,
    other: Option<Line>,
    inside: &SelectionRows,
    text: &mut String,
) -> Result<(), AllocError>
    requires marks { IsMarked pair.now }
    ensures { OnOk result (string_bytes text.new ≡ string_bytes text.old
        ++ lines_text (moved_lines_in pair.now (option_map of_line one.entry) (option_map of_line other.entry) (of_selections inside.now))) }
{
    push_side(alloc, pair.right, "moved", other, text)?;
    push_pair(alloc, pair, one, other, inside, text)
}

/// Appends the lines for a line of both ballots: none if it is the same.
fn push_pair(
    alloc: Global,
    pair: &Pair,
    one: Option<Line>,
    other: Option<Line>,
    inside: &SelectionRows,
    text: &mut String,
) -> Result<(), AllocError>
    requires marks { IsMarked pair.now }
    ensures { OnOk result (string_bytes text.new ≡ string_bytes text.old
        ++ lines_text (pair_lines_in pair.now (option_map of_line one.entry) (option_map of_line other.entry) (of_selections inside.now))) }
{
    match one {
        Some(one) => match other {
            Some(other) => push_changed(alloc, pair, one, other, inside, text),
            None => Ok(()),
        },
        None => Ok(()),
    }
}

/// Appends the lines for two lines of one thing: none if they are the same.
fn push_changed(
    alloc: Global,
    pair: &Pair,
    one: Line,
    other: Line,
    inside: &SelectionRows,
    text: &mut String,
) -> Result<(), AllocError>
    requires marks { IsMarked pair.now }
    ensures { OnOk result (string_bytes text.new
        ≡ string_bytes text.old ++ lines_text (pair_lines_in pair.now (Some (of_line one.entry)) (Some (of_line other.entry)) (of_selections inside.now))) }
{
    let same = is_same_line(alloc, pair, one, other)?;
    let line = thing_line(alloc, "changed", thing_at(pair.left, one.node))?;
    let mut below = String::new(alloc);
    push_nested(alloc, inside, &mut below)?;
    append_headed(same, line.as_str(), below.as_str(), text)
}

/// Returns whether two lines of one thing are the same.
fn is_same_line(alloc: Global, pair: &Pair, one: Line, other: Line) -> Result<bool, AllocError>
    requires marks { IsMarked pair.now }
    ensures { IfOk result (λ same. same ≡ is_same_line_in pair.now (of_line one.entry) (of_line other.entry)) }
{
    let words = line_text(alloc, pair.left, one.node)?;
    let others = line_text(alloc, pair.right, other.node)?;
    let listed = lists_selections(one.node) == lists_selections(other.node);
    let printed = is_same_text(words.as_str(), others.as_str());
    let reworded = is_line_reworded(pair.left, one.node, pair.right, &pair.marks);
    Ok(is_same(one.depth == other.depth, listed, printed, reworded))
}

/// Returns whether two lines are the same, from whether they are as deep, list selections both or neither and print the same of
/// them, and whether one has other words.
fn is_same(deep: bool, listed: bool, printed: bool, reworded: bool) -> bool
    ensures { result ≡ (deep && (listed && (printed && not reworded))) }
{
    deep && listed && printed && !reworded
}

/// Appends the line for a line of one ballot, if there is one.
fn push_side(
    alloc: Global,
    report: &Report,
    how: &str,
    line: Option<Line>,
    text: &mut String,
) -> Result<(), AllocError>
    ensures { OnOk result (string_bytes text.new
        ≡ string_bytes text.old ++ lines_text (side_lines report.now.prefer (view report.now.tree) how.now (option_map of_line line.entry))) }
{
    match line {
        Some(line) => push_thing(alloc, report, how, line, text),
        None => Ok(()),
    }
}

/// Appends the line that says how a header or a contest differs.
fn push_thing(
    alloc: Global,
    report: &Report,
    how: &str,
    line: Line,
    text: &mut String,
) -> Result<(), AllocError>
    ensures { OnOk result (string_bytes text.new
        ≡ string_bytes text.old ++ lines_text (side_lines report.now.prefer (view report.now.tree) how.now (Some (of_line line.entry)))) }
{
    let words = thing_line(alloc, how, thing_at(report, line.node))?;
    append_line(words.as_str(), text)
}

/// Returns the line that says how a header or a contest differs.
fn thing_line(alloc: Global, how: &str, thing: Thing) -> Result<String, AllocError>
    ensures { IfOk result (λ line. string_bytes line ≡ thing_line how.now (of_thing thing.entry)) }
{
    let what = kind_word(thing.0);
    let key = key_words(alloc, thing.1)?;
    format!(in alloc; "  {how} {what}{key}")
}

/// Returns the word for a header or for a contest.
fn kind_word(is_header: bool) -> &'static str
    ensures { result.now ≡ if is_header then codes "header" else codes "contest" }
{
    if is_header { "header" } else { "contest" }
}
