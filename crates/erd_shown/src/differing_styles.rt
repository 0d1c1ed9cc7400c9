//! What is told of the styles whose ballots are not the same in two reports.
ghost use Rattle.std.specs.Prelude.{◌≡◌, ◌++◌, map, option_map, string_bytes, IfOk, OnOk};
ghost use Rattle.std.specs.List.{flat_map};
ghost use Rattle.serde_json.specs.View.{view};
ghost use Rattle.erd_text.specs.Tokens.{members_tokens, value_tokens};
ghost use Rattle.erd_shown.specs.BallotDifferences.{of_style, right_members, style_members};
ghost use Rattle.erd_shown.specs.BallotLines.{AreStylesText, AreStylesTold, AreToldBelow, side_words, style_at, style_text, told_style, told_text};
ghost use Rattle.erd_shown.specs.KeyData.{array_of};
ghost use Rattle.erd_shown.specs.code.Pairs.{AreToldIn, IsMarked, IsToldIn, TellsBelow, of_told};

use crate::ballot_differences::BallotDifference;
use crate::ballot_lines::push_line;
use crate::differing_lines::differing_text;
use crate::keys::write_key_or_null;
use crate::marks::marks_between;
use crate::pairs::Pair;
use crate::reworded::object_at;
use crate::row_texts::write_place;
use crate::texts::{append_text, text_of};
use erd_meaning::Report;
use erd_tables::Family;
use erd_text::Output;
use serde_json::Value;
use std::alloc::{AllocError, Global};

/// A style, and the text of the lines below it.
type Told<'a> = (BallotDifference<'a>, String);

/// Returns a line for each of the styles whose ballots are not the same in two reports, or the line `same ballots` if there are
/// none: the word `ballot`, the key as compact JSON, and which report has the style alone, or `differs`. Each line is ended by
/// one line feed.
///
/// Below the line of a style that differs stand lines for what does, with two spaces before each: `changed parties` and `changed
/// units` if other voters get the ballot; then, in the order of the ballots, `removed`, `added`, `moved` or `changed`, the word
/// `header` or `contest`, and its key. Below a contest stand lines for its selections, with four spaces before each: `removed`,
/// `added` or `moved`, the word `selection`, and its name as compact JSON. A contest of which a selection prints other words is
/// `changed`.
///
/// # Errors
///
/// `AllocError` if out of memory.
///
/// ```
/// let found = differing_ballots(alloc, left, right)?;
/// let text = ballot_differences_lines(alloc, left, right, &found)?;
/// assert_eq!(rt; text.as_str(), DIFFERENCE_LINES);
/// ```
pub fn ballot_differences_lines(
    alloc: Global,
    left: &Report,
    right: &Report,
    found: &[BallotDifference],
) -> Result<String, AllocError>
    ensures { IfOk result (λ text. AreStylesTold left.now.prefer (view left.now.tree) right.now.prefer (view right.now.tree)
        (map of_style found.now) (string_bytes text)) }
{
    let told = told_below(alloc, left, right, found)?;
    told_text(alloc, &told)
}

/// Returns the styles whose ballots are not the same in two reports as compact JSON: of each the text of the lines that
/// `ballot_differences_lines` has below it, its key, and its position in the left report and in the right one. A style that only
/// one report has is told with null for the other.
///
/// # Errors
///
/// `AllocError` if out of memory.
///
/// ```
/// let found = differing_ballots(alloc, left, right)?;
/// let text = ballot_differences_text(alloc, left, right, &found)?;
/// assert_eq!(rt; text.as_str(), "[]");
/// ```
pub fn ballot_differences_text(
    alloc: Global,
    left: &Report,
    right: &Report,
    found: &[BallotDifference],
) -> Result<String, AllocError>
    ensures { IfOk result (λ text. AreStylesText left.now.prefer (view left.now.tree) right.now.prefer (view right.now.tree)
        (map of_style found.now) (string_bytes text)) }
{
    let told = told_below(alloc, left, right, found)?;
    let mut out = Output::new(alloc);
    write_styles(&told, &mut out)?;
    text_of(out)
}

/// Returns styles whose ballots are not the same in two reports, each with the text of the lines below it.
fn told_below<'a>(
    alloc: Global,
    left: &Report,
    right: &Report,
    found: &[BallotDifference<'a>],
) -> Result<Vec<Told<'a>>, AllocError>
    ensures { IfOk result (λ told. AreToldBelow left.now.prefer (view left.now.tree) right.now.prefer (view right.now.tree)
        (map of_style found.now) (map of_told told.items)) }
{
    if found.is_empty() {
        return Ok(Vec::new(alloc));
    }
    let marks = marks_between(alloc, left, right)?;
    let pair = Pair { left, right, marks };
    told_of_all(alloc, &pair, found)
}

/// Returns styles, each with the text of the lines below it.
fn told_of_all<'a>(
    alloc: Global,
    pair: &Pair,
    found: &[BallotDifference<'a>],
) -> Result<Vec<Told<'a>>, AllocError>
    requires marks { IsMarked pair.now }
    ensures { IfOk result (λ told. AreToldIn pair.now (map of_style found.now) told.items) }
{
    let mut told = Vec::new(alloc);
    for style in found {
        let below = text_below(alloc, pair, style)?;
        told.push((*style, below))?;
    }
    Ok(told)
}

/// Returns the text of the lines below a style.
fn text_below(alloc: Global, pair: &Pair, style: &BallotDifference) -> Result<String, AllocError>
    requires marks { IsMarked pair.now }
    ensures { IfOk result (λ text. IsToldIn pair.now (of_style style.now, string_bytes text)) }
{
    let one = style_at(pair.left, style.left);
    let other = style_at(pair.right, style.right);
    text_of_both(alloc, pair, one, other)
}

/// Returns the text of the lines for what differs on the ballots of two styles, if both are there.
fn text_of_both(
    alloc: Global,
    pair: &Pair,
    one: Option<&Value>,
    other: Option<&Value>,
) -> Result<String, AllocError>
    requires marks { IsMarked pair.now }
    ensures { IfOk result (λ text. TellsBelow pair.now (option_map (λ v. view v.now) one.entry) (option_map (λ v. view v.now) other.entry)
        (string_bytes text)) }
{
    match one {
        Some(one) => match other {
            Some(other) => differing_text(alloc, pair, one, other),
            None => Ok(String::new(alloc)),
        },
        None => Ok(String::new(alloc)),
    }
}

/// Returns the style at a position of a report, if there is a position.
fn style_at<'a>(report: &'a Report, place: Option<usize>) -> Option<&'a Value>
    ensures { option_map (λ v. view v.now) result ≡ style_at (view report.now.tree) place }
{
    match place {
        Some(position) => object_at(report, Family::Style, position),
        None => None,
    }
}

/// Returns the text for styles: the line `same ballots` if there are none, or else that of each.
fn told_text(alloc: Global, told: &[Told]) -> Result<String, AllocError>
    ensures { IfOk result (λ text. string_bytes text ≡ told_text (map of_told told.now)) }
{
    if told.is_empty() {
        return String::from_str(alloc, "same ballots\n");
    }
    lines_told(alloc, told)
}

/// Returns the lines for styles, and those below them.
fn lines_told(alloc: Global, told: &[Told]) -> Result<String, AllocError>
    ensures { IfOk result (λ text. string_bytes text ≡ flat_map (λ p. style_text (of_told p)) told.now) }
{
    let mut text = String::new(alloc);
    for style in told {
        push_style(alloc, &style.0, style.1.as_str(), &mut text)?;
    }
    Ok(text)
}

/// Appends the line for a style, and those below it.
fn push_style(
    alloc: Global,
    style: &BallotDifference,
    below: &str,
    text: &mut String,
) -> Result<(), AllocError>
    ensures { OnOk result (string_bytes text.new ≡ string_bytes text.old ++ style_text (of_style style.now, below.now)) }
{
    push_line(alloc, style.key, side_words(style.left, style.right), text)?;
    append_text(below, text)
}

/// Returns the words for a style whose ballots are not the same.
fn side_words(left: Option<usize>, right: Option<usize>) -> &'static str
    ensures { result.now ≡ side_words left right }
{
    match right {
        None => "only in the left report",
        Some(_) => match left {
            None => "only in the right report",
            Some(_) => "differs",
        },
    }
}

/// Writes styles as an array.
fn write_styles(told: &[Told], out: &mut Output) -> Result<(), AllocError>
    ensures { OnOk result (out.new ≡ out.old ++ value_tokens (array_of (map told_style (map of_told told.now)))) }
{
    out.begin_array()?;
    for style in told {
        write_style(&style.0, style.1.as_str(), out)?;
    }
    out.end_array()
}

/// Writes a style: the lines below it, its key, and its positions.
fn write_style(style: &BallotDifference, below: &str, out: &mut Output) -> Result<(), AllocError>
    ensures { OnOk result (out.new ≡ out.old ++ value_tokens (told_style (of_style style.now, below.now))) }
{
    out.begin_object()?;
    out.key("below")?;
    out.string(below)?;
    write_places(style, out)
}

/// Writes the key and the positions of a style, and the end of the object.
fn write_places(style: &BallotDifference, out: &mut Output) -> Result<(), AllocError>
    ensures { OnOk result (out.new ≡ out.old ++ members_tokens (style_members (of_style style.now))) }
{
    out.key("key")?;
    write_key_or_null(style.key, out)?;
    out.key("left")?;
    write_place(style.left, out)?;
    write_right(style.right, out)
}

/// Writes the position in the right report, and the end of the object.
fn write_right(place: Option<usize>, out: &mut Output) -> Result<(), AllocError>
    ensures { OnOk result (out.new ≡ out.old ++ members_tokens (right_members place)) }
{
    out.key("right")?;
    write_place(place, out)?;
    out.end_object()
}
