ghost use Rattle.std.specs.Prelude.{◌≡◌, ◌++◌, length, map, string_bytes, IfOk, OnOk, option_copied};
ghost use Rattle.serde_json.specs.View.{view};
ghost use Rattle.serde_json.specs.Written.{compact_text};
ghost use Rattle.erd_text.specs.Tokens.{members_tokens, value_tokens};
ghost use Rattle.erd_shown.specs.Heads.{counted_members, head_data, head_in, heads_data};
ghost use Rattle.erd_shown.specs.KeyData.{array_of};
ghost use Rattle.erd_shown.specs.code.LineLists.{of_place};

use crate::ballots::{lines_of, write_voters};
use crate::keys::write_key_or_null;
use crate::lines::Line;
use crate::names::write_count;
use crate::texts::text_of;
use erd_meaning::{Key, Report};
use erd_tables::Family;
use erd_text::Output;
use serde_json::Value;
use std::alloc::{AllocError, Global};

/// Returns the heads of the ballots of a report, as compact JSON, in the rising order of the keys of their styles: the position
/// of each style, its key, how many lines the ballot has, and the parties and units whose voters get it.
///
/// # Errors
///
/// `AllocError` if out of memory.
///
/// ```
/// let text = ballots_text(alloc, report)?;
/// assert_eq!(rt; text.as_str(), HEADS);
/// ```
pub fn ballots_text(alloc: Global, report: &Report) -> Result<String, AllocError>
    ensures { IfOk result (λ text. string_bytes text ≡ compact_text (heads_data report.now.prefer (view report.now.tree))) }
{
    let mut out = Output::new(alloc);
    write_heads(alloc, report, &mut out)?;
    text_of(out)
}

/// Writes the heads of the ballots of a report.
fn write_heads(alloc: Global, report: &Report, out: &mut Output) -> Result<(), AllocError>
    ensures { OnOk result (out.new ≡ out.old ++ value_tokens (heads_data report.now.prefer (view report.now.tree))) }
{
    let places = report.rising_keys(alloc, Family::Style)?;
    write_heads_at(alloc, report, &places, out)
}

/// Writes the heads of the styles with these keys at these positions.
fn write_heads_at(
    alloc: Global,
    report: &Report,
    places: &[(Option<&Key>, usize)],
    out: &mut Output,
) -> Result<(), AllocError>
    ensures { OnOk result (out.new ≡ out.old ++ value_tokens (array_of (map (λ p. head_in report.now.prefer (view report.now.tree) (of_place p)) places.now))) }
{
    out.begin_array()?;
    for place in places {
        write_head_at(alloc, report, place.0, place.1, out)?;
    }
    out.end_array()
}

/// Writes the head of the style with a key at a position, or null if there is no such style.
fn write_head_at(
    alloc: Global,
    report: &Report,
    key: Option<&Key>,
    position: usize,
    out: &mut Output,
) -> Result<(), AllocError>
    ensures { OnOk result (out.new ≡ out.old ++ value_tokens (head_in report.now.prefer (view report.now.tree) (option_copied key.entry, position))) }
{
    match report.object(Family::Style, position) {
        Some(style) => write_head(alloc, report, key, position, style, out),
        None => out.null(),
    }
}

/// Writes the head of a style with this key at this position.
fn write_head(
    alloc: Global,
    report: &Report,
    key: Option<&Key>,
    position: usize,
    style: &Value,
    out: &mut Output,
) -> Result<(), AllocError>
    ensures { OnOk result (out.new ≡ out.old ++ value_tokens
        (head_data report.now.prefer (view report.now.tree) (option_copied key.entry, position) (view style.now))) }
{
    out.begin_object()?;
    out.key("at")?;
    write_count(position, out)?;
    out.key("key")?;
    write_key_or_null(key, out)?;
    write_counted(alloc, report, style, out)
}

/// Writes how many lines the ballot of a style has, which voters get it, and the end of the object.
fn write_counted(
    alloc: Global,
    report: &Report,
    style: &Value,
    out: &mut Output,
) -> Result<(), AllocError>
    ensures { OnOk result (out.new ≡ out.old ++ members_tokens (counted_members report.now.prefer (view report.now.tree) (view style.now))) }
{
    let lines = lines_of(alloc, style)?;
    out.key("lines")?;
    write_count(count_of(&lines), out)?;
    write_voters(alloc, report, style, out)
}

/// Returns how many lines there are.
fn count_of(lines: &[Line]) -> usize
    ensures { result ≡ length lines.now }
{
    lines.len()
}
