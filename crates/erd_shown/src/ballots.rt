ghost use Rattle.std.specs.Prelude.{◌≡◌, ◌++◌, map, string_bytes, IfOk, OnOk, Some, option_copied, true};
ghost use Rattle.serde_json.specs.Data.{object as json_object};
ghost use Rattle.serde_json.specs.View.{view};
ghost use Rattle.serde_json.specs.Written.{compact_text};
ghost use Rattle.erd_text.specs.Tokens.{members_tokens, value_tokens};
ghost use Rattle.erd_check.specs.Values.{entries_at};
ghost use Rattle.erd_meaning.specs.Keys.{has_keys};
ghost use Rattle.erd_shown.specs.BallotDifferences.{compared_in};
ghost use Rattle.erd_shown.specs.Ballots.{ballot_in, keyed_ballot, keyed_members, line_data, lines_data, lines_of};
ghost use Rattle.erd_shown.specs.Ballots.{listed_members, thing_at, voters_members, what_members};
ghost use Rattle.erd_shown.specs.KeyData.{array_of, shown_name};
ghost use Rattle.erd_shown.specs.Shown.{keys_data};
ghost use Rattle.erd_shown.specs.code.LentNames.{lent};
ghost use Rattle.erd_shown.specs.code.LineLists.{of_line};
ghost use Rattle.erd_shown.specs.code.LineTexts.{written_lines};

use crate::contests_and_headers::is_header;
use crate::keys::write_key_or_null;
use crate::lines::{Line, push_content};
use crate::listed::{lists_selections, names_on};
use crate::lookups::key_named;
use crate::names::{write_count, write_name};
use crate::objects::holder;
use crate::references::write_reference_set;
use crate::texts::text_of;
use erd_check::values::{entries_at, text_at};
use erd_meaning::{Key, Report, SelectionName};
use erd_tables::{Family, Role};
use erd_text::Output;
use serde_json::Value;
use std::alloc::{AllocError, Global};

/// Returns the ballot of the style at a position of a report, as compact JSON: the key of the election that holds it, or `null`,
/// its own key, its lines in their order, and the parties and units whose voters get it. A line has how many headers stand around
/// it, what it is, whether the ballot lists selections for it, and their names: all in rising order if it lists none. Returns
/// `null` if there is no such style.
///
/// # Errors
///
/// `AllocError` if out of memory.
///
/// ```
/// let text = ballot_text(alloc, report, 0)?;
/// assert_eq!(rt; text.as_str(), BALLOT_LINES);
/// ```
pub fn ballot_text(alloc: Global, report: &Report, position: usize) -> Result<String, AllocError>
    ensures { IfOk result (λ text. string_bytes text ≡ compact_text (ballot_in report.now.prefer (view report.now.tree) position)) }
{
    let mut out = Output::new(alloc);
    write_ballot(alloc, report, position, &mut out)?;
    text_of(out)
}

/// Writes the ballot of the style at a position of a report, or null if there is no such style.
fn write_ballot(
    alloc: Global,
    report: &Report,
    position: usize,
    out: &mut Output,
) -> Result<(), AllocError>
    ensures { OnOk result (out.new ≡ out.old ++ value_tokens (ballot_in report.now.prefer (view report.now.tree) position)) }
{
    let election = holder(report, Role::OfFamily(Family::Style), position);
    let key = report.key_at(Family::Style, position);
    match report.object(Family::Style, position) {
        Some(style) => write_held(alloc, report, election, key, style, out),
        None => out.null(),
    }
}

/// Writes the ballot of a style with this key, which the election with the key `election` holds.
fn write_held(
    alloc: Global,
    report: &Report,
    election: Option<&Key>,
    key: Option<&Key>,
    style: &Value,
    out: &mut Output,
) -> Result<(), AllocError>
    ensures { OnOk result (out.new ≡ out.old ++ value_tokens
        (keyed_ballot report.now.prefer (view report.now.tree) (option_copied election.entry) (option_copied key.entry) (view style.now))) }
{
    out.begin_object()?;
    out.key("election")?;
    write_key_or_null(election, out)?;
    write_keyed(alloc, report, key, style, out)
}

/// Returns the ballot of the style at a position of a report as ballots are compared: as compact JSON, without its election.
/// Returns `null` if there is no such style.
pub(crate) fn compared_text(
    alloc: Global,
    report: &Report,
    position: usize,
) -> Result<String, AllocError>
    ensures { IfOk result (λ text. string_bytes text ≡ compact_text (compared_in report.now.prefer (view report.now.tree) position)) }
{
    let mut out = Output::new(alloc);
    write_compared(alloc, report, position, &mut out)?;
    text_of(out)
}

/// Writes the ballot of the style at a position of a report without its election, or null if there is no such style.
fn write_compared(
    alloc: Global,
    report: &Report,
    position: usize,
    out: &mut Output,
) -> Result<(), AllocError>
    ensures { OnOk result (out.new ≡ out.old ++ value_tokens (compared_in report.now.prefer (view report.now.tree) position)) }
{
    let key = report.key_at(Family::Style, position);
    match report.object(Family::Style, position) {
        Some(style) => write_style(alloc, report, key, style, out),
        None => out.null(),
    }
}

/// Writes the ballot of a style with this key, without its election.
fn write_style(
    alloc: Global,
    report: &Report,
    key: Option<&Key>,
    style: &Value,
    out: &mut Output,
) -> Result<(), AllocError>
    ensures { OnOk result (out.new ≡ out.old ++ value_tokens
        (json_object (keyed_members report.now.prefer (view report.now.tree) (option_copied key.entry) (view style.now)))) }
{
    out.begin_object()?;
    write_keyed(alloc, report, key, style, out)
}

/// Writes the key and the lines of the ballot of a style, which voters get it, and the end of the object.
fn write_keyed(
    alloc: Global,
    report: &Report,
    key: Option<&Key>,
    style: &Value,
    out: &mut Output,
) -> Result<(), AllocError>
    ensures { OnOk result (out.new ≡ out.old ++ members_tokens
        (keyed_members report.now.prefer (view report.now.tree) (option_copied key.entry) (view style.now))) }
{
    out.key("key")?;
    write_key_or_null(key, out)?;
    out.key("lines")?;
    write_lines_of(alloc, report, style, out)?;
    write_voters(alloc, report, style, out)
}

/// Writes which voters get the ballot of a style, and the end of the object.
pub(crate) fn write_voters(
    alloc: Global,
    report: &Report,
    style: &Value,
    out: &mut Output,
) -> Result<(), AllocError>
    ensures { OnOk result (out.new ≡ out.old ++ members_tokens (voters_members report.now.prefer (view report.now.tree) (view style.now))) }
{
    out.key("parties")?;
    write_keys_at(alloc, report, Family::Party, style, "PartyIds", out)?;
    out.key("units")?;
    write_keys_at(alloc, report, Family::Unit, style, "GpUnitIds", out)?;
    out.end_object()
}

/// Writes the keys of what a member names, in rising order.
fn write_keys_at(
    alloc: Global,
    report: &Report,
    family: Family,
    style: &Value,
    name: &str,
    out: &mut Output,
) -> Result<(), AllocError>
    requires keyed { has_keys family ≡ true }
    ensures { OnOk result (out.new ≡ out.old ++ value_tokens
        (keys_data report.now.prefer (view report.now.tree) family (entries_at name.now (view style.now)))) }
{
    write_reference_set(alloc, report, family, entries_at(style, name), out)
}

/// Writes the lines of the ballot of a style.
fn write_lines_of(
    alloc: Global,
    report: &Report,
    style: &Value,
    out: &mut Output,
) -> Result<(), AllocError>
    ensures { OnOk result (out.new ≡ out.old ++ value_tokens (lines_data report.now.prefer (view report.now.tree) (view style.now))) }
{
    let lines = lines_of(alloc, style)?;
    write_lines(alloc, report, &lines, out)
}

/// Returns the lines of the ballot of a style.
pub(crate) fn lines_of<'a>(alloc: Global, style: &'a Value) -> Result<Vec<Line<'a>>, AllocError>
    ensures { IfOk result (λ lines. map of_line lines.items ≡ lines_of (view style.now)) }
{
    let mut lines = Vec::new(alloc);
    if let Some(content) = style.get("OrderedContent") {
        push_content(0, content, &mut lines)?;
    }
    Ok(lines)
}

/// Writes lines as an array.
pub(crate) fn write_lines(
    alloc: Global,
    report: &Report,
    lines: &[Line],
    out: &mut Output,
) -> Result<(), AllocError>
    ensures { OnOk result (out.new ≡ out.old ++ value_tokens (written_lines report.now.prefer (view report.now.tree) lines.now)) }
{
    out.begin_array()?;
    for line in lines {
        write_line(alloc, report, line, out)?;
    }
    out.end_array()
}

/// Writes a line.
fn write_line(
    alloc: Global,
    report: &Report,
    line: &Line,
    out: &mut Output,
) -> Result<(), AllocError>
    ensures { OnOk result (out.new ≡ out.old ++ value_tokens (line_data report.now.prefer (view report.now.tree) (of_line line.now))) }
{
    out.begin_object()?;
    out.key("depth")?;
    write_count(line.depth, out)?;
    out.key("listed")?;
    out.boolean(lists_selections(line.node))?;
    write_inside(alloc, report, line.node, out)
}

/// Writes the names of the selections of a line and what it is, and the end of the object.
fn write_inside(
    alloc: Global,
    report: &Report,
    node: &Value,
    out: &mut Output,
) -> Result<(), AllocError>
    ensures { OnOk result (out.new ≡ out.old ++ members_tokens (listed_members report.now.prefer (view report.now.tree) (view node.now))) }
{
    out.key("selections")?;
    write_names(&names_on(alloc, report, node)?, out)?;
    write_what(report, node, out)
}

/// Writes names as an array.
fn write_names(names: &[&SelectionName], out: &mut Output) -> Result<(), AllocError>
    ensures { OnOk result (out.new ≡ out.old ++ value_tokens (array_of (map (λ n. shown_name (Some (lent n))) names.now))) }
{
    out.begin_array()?;
    for name in names {
        write_name(name, out)?;
    }
    out.end_array()
}

/// Writes what a line is, and the end of the object.
fn write_what(report: &Report, node: &Value, out: &mut Output) -> Result<(), AllocError>
    ensures { OnOk result (out.new ≡ out.old ++ members_tokens (what_members (thing_at report.now.prefer (view report.now.tree) (view node.now)))) }
{
    let (is_header, key) = thing_at(report, node);
    out.key("what")?;
    out.begin_array()?;
    out.string(if is_header { "header" } else { "contest" })?;
    write_key_or_null(key, out)?;
    out.end_array()?;
    out.end_object()
}

/// Returns whether a line is a header, and its key.
pub(crate) fn thing_at<'a>(report: &'a Report, node: &Value) -> (bool, Option<&'a Key>)
    ensures { (result.0, option_copied result.1) ≡ thing_at report.now.prefer (view report.now.tree) (view node.now) }
{
    if is_header(node) {
        (
            true,
            key_named(report, Family::Header, text_at(node, "HeaderId")),
        )
    } else {
        (
            false,
            key_named(report, Family::Contest, text_at(node, "ContestId")),
        )
    }
}
