ghost use Rattle.std.specs.Prelude.{◌≡◌, ◌++◌, ◌∷◌, [], map, decimal, codes, string_bytes, IfOk, OnOk, option_copied};
ghost use Rattle.serde_json.specs.View.{view};
ghost use Rattle.serde_json.specs.Written.{compact_text};
ghost use Rattle.erd_shown.specs.BallotLines.{ballot_line, count_at, head_line, head_lines, key_words, lines_text};
ghost use Rattle.erd_shown.specs.KeyData.{shown_key};
ghost use Rattle.erd_shown.specs.code.LineLists.{of_place};

use crate::ballots::lines_of;
use crate::keys::write_key;
use crate::texts::text_of;
use erd_meaning::{Key, Report};
use erd_tables::Family;
use erd_text::Output;
use std::alloc::{AllocError, Global};

/// Returns a line for each ballot of a report, in the rising order of the keys of their styles: the word `ballot`, the key as
/// compact JSON, and how many lines the ballot has. Each line is ended by one line feed.
///
/// # Errors
///
/// `AllocError` if out of memory.
///
/// ```
/// let text = ballots_lines(alloc, report)?;
/// assert_eq!(rt; text.as_str(), "ballot [\"local-level\",\"\",\"B1\"]: 1 lines\n");
/// ```
pub fn ballots_lines(alloc: Global, report: &Report) -> Result<String, AllocError>
    ensures { IfOk result (λ text. string_bytes text ≡ lines_text (head_lines report.now.prefer (view report.now.tree))) }
{
    let places = report.rising_keys(alloc, Family::Style)?;
    lines_at(alloc, report, &places)
}

/// Returns the lines for the ballots of the styles with these keys at these positions.
fn lines_at(
    alloc: Global,
    report: &Report,
    places: &[(Option<&Key>, usize)],
) -> Result<String, AllocError>
    ensures { IfOk result (λ text. string_bytes text ≡ lines_text (map (λ p. head_line (view report.now.tree) (of_place p)) places.now)) }
{
    let mut text = String::new(alloc);
    for place in places {
        push_head(alloc, report, place.0, place.1, &mut text)?;
    }
    Ok(text)
}

/// Appends the line for the ballot of the style with a key at a position.
fn push_head(
    alloc: Global,
    report: &Report,
    key: Option<&Key>,
    position: usize,
    text: &mut String,
) -> Result<(), AllocError>
    ensures { OnOk result (string_bytes text.new ≡ string_bytes text.old ++ (head_line (view report.now.tree) (option_copied key.entry, position) ++ 10 ∷ [])) }
{
    let count = count_at(alloc, report, position)?;
    let words = format!(in alloc; "{count} lines")?;
    push_line(alloc, key, words.as_str(), text)
}

/// Returns how many lines the ballot of the style at a position has.
fn count_at(alloc: Global, report: &Report, position: usize) -> Result<usize, AllocError>
    ensures { IfOk result (λ count. count ≡ count_at (view report.now.tree) position) }
{
    match report.object(Family::Style, position) {
        Some(style) => Ok(lines_of(alloc, style)?.len()),
        None => Ok(0),
    }
}

/// Appends the line of a ballot with these words.
pub(crate) fn push_line(
    alloc: Global,
    key: Option<&Key>,
    words: &str,
    text: &mut String,
) -> Result<(), AllocError>
    ensures { OnOk result (string_bytes text.new ≡ string_bytes text.old ++ (ballot_line (option_copied key.entry) words.now ++ 10 ∷ [])) }
{
    let key = key_words(alloc, key)?;
    let line = format!(in alloc; "ballot{key}: {words}")?;
    text.push_str(line.as_str())?;
    text.push('\n')
}

/// Returns a space and the key as compact JSON, or the empty text if there is no key.
pub(crate) fn key_words(alloc: Global, key: Option<&Key>) -> Result<String, AllocError>
    ensures { IfOk result (λ words. string_bytes words ≡ key_words (option_copied key.entry)) }
{
    match key {
        Some(key) => {
            let json = key_text(alloc, key)?;
            format!(in alloc; " {json}")
        }
        None => Ok(String::new(alloc)),
    }
}

/// Returns the key as compact JSON.
fn key_text(alloc: Global, key: &Key) -> Result<String, AllocError>
    ensures { IfOk result (λ text. string_bytes text ≡ compact_text (shown_key key.now)) }
{
    let mut out = Output::new(alloc);
    write_key(key, &mut out)?;
    text_of(out)
}
