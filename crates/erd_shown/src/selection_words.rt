ghost use Rattle.std.specs.Prelude.{◌≡◌, ◌++◌, [], codes, false, map, option_map, slice_get, string_bytes, IfOk, OnOk};
ghost use Rattle.std.specs.Option.{option_map_or};
ghost use Rattle.serde_json.specs.View.{items_of, items_view, view};
ghost use Rattle.serde_json.specs.Written.{compact_text, items_have_float};
ghost use Rattle.erd_tables.specs.declared.class.Family.TheVariants as family;
ghost use Rattle.erd_check.specs.Values.{entries_at};
ghost use Rattle.erd_meaning.specs.Objects.{objects};
ghost use Rattle.erd_text.specs.Tokens.{value_tokens};
ghost use Rattle.erd_shown.specs.BallotWords.{in_name_order, selection_words, printed_selections, selections_in, words_at_reference, words_data};
ghost use Rattle.erd_shown.specs.KeyData.{array_of};
ghost use Rattle.erd_shown.specs.ListedNames.{selections_named, selections_on};
ghost use Rattle.erd_shown.specs.code.LineLists.{of_line};
ghost use Rattle.erd_shown.specs.code.Selections.{AreNamedFrom};

use crate::ballots::lines_of;
use crate::contests_and_headers::{is_header, write_nothing};
use crate::lines::Line;
use crate::listed::lists_selections;
use crate::lookups::place_named;
use crate::reworded::{object_at, object_referred};
use crate::selections::{LentName, named_selections};
use crate::texts::text_of;
use crate::words::write_words;
use erd_check::values::{entries_at, text_at};
use erd_meaning::{Report, in_order};
use erd_tables::Family;
use erd_text::Output;
use serde_json::Value;
use std::alloc::{AllocError, Global};

/// Returns what ballots print of the selections on each line of the ballot of the style at a position, as compact JSON.
pub(crate) fn selections_text(
    alloc: Global,
    report: &Report,
    position: usize,
) -> Result<String, AllocError>
    ensures { IfOk result (λ text. string_bytes text ≡ compact_text (selections_in report.now.prefer (view report.now.tree) position)) }
{
    let mut out = Output::new(alloc);
    write_selections(alloc, report, position, &mut out)?;
    text_of(out)
}

/// Writes what ballots print of the selections on each line of the ballot of the style at a position, or null if there is no such
/// style.
fn write_selections(
    alloc: Global,
    report: &Report,
    position: usize,
    out: &mut Output,
) -> Result<(), AllocError>
    ensures { OnOk result (out.new ≡ out.old ++ value_tokens (selections_in report.now.prefer (view report.now.tree) position)) }
{
    match report.object(Family::Style, position) {
        Some(style) => write_selections_of(alloc, report, style, out),
        None => out.null(),
    }
}

/// Writes what ballots print of the selections on each line of the ballot of a style.
fn write_selections_of(
    alloc: Global,
    report: &Report,
    style: &Value,
    out: &mut Output,
) -> Result<(), AllocError>
    ensures { OnOk result (out.new ≡ out.old ++ value_tokens (printed_selections report.now.prefer (view report.now.tree) (view style.now))) }
{
    let lines = lines_of(alloc, style)?;
    write_lines(alloc, report, &lines, out)
}

/// Returns what ballots print of the selections of a contest on a ballot, as compact JSON.
pub(crate) fn line_text(alloc: Global, report: &Report, node: &Value) -> Result<String, AllocError>
    ensures { IfOk result (λ text. string_bytes text ≡ compact_text (selection_words report.now.prefer (view report.now.tree) (view node.now))) }
{
    let mut out = Output::new(alloc);
    write_line(alloc, report, node, &mut out)?;
    text_of(out)
}

/// Writes what ballots print of the selections on each of the lines.
fn write_lines(
    alloc: Global,
    report: &Report,
    lines: &[Line],
    out: &mut Output,
) -> Result<(), AllocError>
    ensures { OnOk result (out.new ≡ out.old ++ value_tokens
        (array_of (map (λ l. selection_words report.now.prefer (view report.now.tree) (of_line l).1) lines.now))) }
{
    out.begin_array()?;
    for line in lines {
        write_line(alloc, report, line.node, out)?;
    }
    out.end_array()
}

/// Writes what ballots print of the selections of a contest on a ballot.
fn write_line(
    alloc: Global,
    report: &Report,
    node: &Value,
    out: &mut Output,
) -> Result<(), AllocError>
    ensures { OnOk result (out.new ≡ out.old ++ value_tokens (selection_words report.now.prefer (view report.now.tree) (view node.now))) }
{
    if lists_selections(node) {
        let references = entries_at(node, "OrderedContestSelectionIds");
        write_listed(alloc, report, references, out)
    } else {
        write_all(alloc, report, node, out)
    }
}

/// Writes what ballots print of all selections of the contest of a line, in the rising order of their names. A header has none.
fn write_all(
    alloc: Global,
    report: &Report,
    node: &Value,
    out: &mut Output,
) -> Result<(), AllocError>
    ensures { OnOk result (out.new ≡ out.old ++ value_tokens (array_of (map (words_data report.now.prefer (view report.now.tree) family.Selection)
        (in_name_order report.now.prefer (view report.now.tree) (selections_on (view report.now.tree) (view node.now)))))) }
{
    if is_header(node) {
        write_nothing(out)
    } else {
        write_named(alloc, report, text_at(node, "ContestId"), out)
    }
}

/// Writes what ballots print of the selections that references name, in their order.
fn write_listed(
    alloc: Global,
    report: &Report,
    references: &[Value],
    out: &mut Output,
) -> Result<(), AllocError>
    ensures { OnOk result (out.new ≡ out.old ++ value_tokens
        (array_of (map (words_at_reference report.now.prefer (view report.now.tree) family.Selection) (map view references.now)))) }
{
    out.begin_array()?;
    for reference in references {
        write_at_reference(alloc, report, reference, out)?;
    }
    out.end_array()
}

/// Writes what ballots print of the selection that a reference names, or null.
fn write_at_reference(
    alloc: Global,
    report: &Report,
    reference: &Value,
    out: &mut Output,
) -> Result<(), AllocError>
    ensures { OnOk result (out.new ≡ out.old ++ value_tokens
        (words_at_reference report.now.prefer (view report.now.tree) family.Selection (view reference.now))) }
{
    match object_referred(report, Family::Selection, reference) {
        Some(selection) => write_words(alloc, report, Family::Selection, selection, out),
        None => out.null(),
    }
}

/// Writes what ballots print of the selections of the contest that a reference names, in the rising order of their names.
fn write_named(alloc: Global, report: &Report, id: &str, out: &mut Output) -> Result<(), AllocError>
    ensures { OnOk result (out.new ≡ out.old ++ value_tokens (array_of (map (words_data report.now.prefer (view report.now.tree) family.Selection)
        (in_name_order report.now.prefer (view report.now.tree) (selections_named (view report.now.tree) id.now))))) }
{
    match place_named(report, Family::Contest, id) {
        Some(position) => write_contest(alloc, report, position, out),
        None => write_nothing(out),
    }
}

/// Writes what ballots print of the selections of the contest at a position, in the rising order of their names.
fn write_contest(
    alloc: Global,
    report: &Report,
    position: usize,
    out: &mut Output,
) -> Result<(), AllocError>
    ensures { OnOk result (out.new ≡ out.old ++ value_tokens (array_of (map (words_data report.now.prefer (view report.now.tree) family.Selection)
        (in_name_order report.now.prefer (view report.now.tree)
        (option_map_or (entries_at (codes "ContestSelection"))
        (option_map (λ o. o.value) (slice_get (objects family.Contest (view report.now.tree)) position)) []))))) }
{
    let _tree = report.tree();
    match object_at(report, Family::Contest, position) {
        Some(contest) => {
            let start = report.first_selection(position);
            write_in_order(
                alloc,
                report,
                start,
                entries_at(contest, "ContestSelection"),
                out,
            )
        }
        None => write_nothing(out),
    }
}

/// Writes what ballots print of selections, in the rising order of their names. The first of them has the position `start` in the
/// report.
fn write_in_order(
    alloc: Global,
    report: &Report,
    start: usize,
    selections: &[Value],
    out: &mut Output,
) -> Result<(), AllocError>
    ensures { OnOk result (AreNamedFrom report.now.prefer (view report.now.tree) start (map view selections.now)
        → items_have_float (items_view selections.now) ≡ false
        → out.new ≡ out.old
        ++ value_tokens
        (array_of (map (words_data report.now.prefer (view report.now.tree) family.Selection)
        (in_name_order report.now.prefer (view report.now.tree) (map view selections.now))))) }
{
    let pairs = in_order(alloc, named_selections(alloc, report, start, selections)?)?;
    write_pairs(alloc, report, &pairs, out)
}

/// Writes what ballots print of selections with these names, in their order.
fn write_pairs(
    alloc: Global,
    report: &Report,
    pairs: &[(LentName, &Value)],
    out: &mut Output,
) -> Result<(), AllocError>
    ensures { OnOk result (items_have_float (items_of (map (λ p. view p.1.now) pairs.now)) ≡ false
        → out.new ≡ out.old
        ++ value_tokens (array_of (map (λ p. words_data report.now.prefer (view report.now.tree) family.Selection (view p.1.now)) pairs.now))) }
{
    out.begin_array()?;
    for pair in pairs {
        write_words(alloc, report, Family::Selection, pair.1, out)?;
    }
    out.end_array()
}
