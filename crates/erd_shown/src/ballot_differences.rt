ghost use Rattle.std.specs.Prelude.{◌≡◌, ◌++◌, ◌&&◌, not, map, Some, option_map, option_to_list, slice_get, IfOk, OnOk};
ghost use Rattle.std.specs.List.{filter_map};
ghost use Rattle.serde_json.specs.View.{view};
ghost use Rattle.erd_shown.specs.BallotDifferences.{AreBallotDifferences, AreStyleRows, has_same_lines, has_same_selections, is_reworded_at, is_same_ballot};
ghost use Rattle.erd_shown.specs.BallotDifferences.{of_style, told_of_both, told_of_left, told_of_right, told_of_row};
ghost use Rattle.erd_shown.specs.code.LineLists.{of_place};
ghost use Rattle.erd_shown.specs.code.Marks.{AreMarks};

use crate::ballots::compared_text;
use crate::beside::rows_between;
use crate::marks::marks_between;
use crate::pairs::Pair;
use crate::reworded::is_same_text;
use crate::reworded_lines::is_ballot_reworded;
use crate::rows::Row;
use crate::selection_words::selections_text;
use erd_meaning::{Key, Report};
use erd_tables::Family;
use std::alloc::{AllocError, Global};

/// A style: its key, and its position in its report.
type Place<'a> = (Option<&'a Key>, usize);

/// A style whose ballots are not the same in two reports.
#[derive(Clone, Copy, Debug, PartialEq, Eq)]
pub struct BallotDifference<'a> {
    /// The key of the style.
    pub key: Option<&'a Key>,
    /// The position of the style in the left report, if that has the style.
    pub left: Option<usize>,
    /// The position of the style in the right report, if that has the style.
    pub right: Option<usize>,
}

/// Returns the styles whose ballots are not the same in two reports, each by its key. A style that only one report has is among
/// them.
///
/// Two ballots are the same if they have the same lines in the same order, for the same parties and units, with the same
/// selections, and if no object that they print has other words in the right report. The elections that hold them don't count.
///
/// # Errors
///
/// `AllocError` if out of memory.
///
/// ```
/// let found = differing_ballots(alloc, left, right)?;
/// assert_eq!(rt; found.first().and_then(|style| style.left), Some(0));
/// ```
pub fn differing_ballots<'a>(
    alloc: Global,
    left: &'a Report,
    right: &'a Report,
) -> Result<Vec<BallotDifference<'a>>, AllocError>
    ensures { IfOk result (λ found. AreBallotDifferences left.now.prefer (view left.now.tree) right.now.prefer (view right.now.tree)
        (map of_style found.items)) }
{
    let ones = left.rising_keys(alloc, Family::Style)?;
    let others = right.rising_keys(alloc, Family::Style)?;
    let rows = rows_of_styles(alloc, &ones, &others)?;
    let marks = marks_between(alloc, left, right)?;
    let pair = Pair { left, right, marks };
    told_of_rows(alloc, &pair, &ones, &others, &rows)
}

/// Returns rows of the styles of two reports, by their keys.
fn rows_of_styles(alloc: Global, ones: &[Place], others: &[Place]) -> Result<Vec<Row>, AllocError>
    ensures { IfOk result (λ rows. AreStyleRows (map of_place ones.now) (map of_place others.now) rows.items) }
{
    let one_keys = keys_in(alloc, ones)?;
    let other_keys = keys_in(alloc, others)?;
    rows_between(alloc, &one_keys, &other_keys)
}

/// Returns the keys of styles.
fn keys_in<'a>(alloc: Global, places: &[Place<'a>]) -> Result<Vec<Option<&'a Key>>, AllocError>
    ensures { IfOk result (λ keys. keys.items ≡ map (λ p. p.0) places.now) }
{
    let mut keys = Vec::new(alloc);
    for place in places {
        keys.push(place.0)?;
    }
    Ok(keys)
}

/// Returns the styles that are told of rows.
fn told_of_rows<'a>(
    alloc: Global,
    pair: &Pair,
    ones: &[Place<'a>],
    others: &[Place<'a>],
    rows: &[Row],
) -> Result<Vec<BallotDifference<'a>>, AllocError>
    requires marks { AreMarks pair.now.left.now.prefer (view pair.now.left.now.tree) pair.now.right.now.prefer (view pair.now.right.now.tree) pair.now.marks }
    ensures { IfOk result (λ found. map of_style found.items
        ≡ filter_map
        (told_of_row (is_same_ballot pair.now.left.now.prefer (view pair.now.left.now.tree) pair.now.right.now.prefer (view pair.now.right.now.tree))
        (map of_place ones.now) (map of_place others.now)) rows.now) }
{
    let mut found = Vec::new(alloc);
    for row in rows {
        let told = told_of_row(alloc, pair, ones, others, row)?;
        push_told(told, &mut found)?;
    }
    Ok(found)
}

/// Appends a style, if it is told.
fn push_told<'a>(
    told: Option<BallotDifference<'a>>,
    found: &mut Vec<BallotDifference<'a>>,
) -> Result<(), AllocError>
    ensures { OnOk result (found.new.items ≡ found.old.items ++ option_to_list told.entry) }
{
    if let Some(style) = told {
        found.push(style)?;
    }
    Ok(())
}

/// Returns the style that is told of a row, if one is.
fn told_of_row<'a>(
    alloc: Global,
    pair: &Pair,
    ones: &[Place<'a>],
    others: &[Place<'a>],
    row: &Row,
) -> Result<Option<BallotDifference<'a>>, AllocError>
    requires marks { AreMarks pair.now.left.now.prefer (view pair.now.left.now.tree) pair.now.right.now.prefer (view pair.now.right.now.tree) pair.now.marks }
    ensures { IfOk result (λ found. option_map of_style found
        ≡ told_of_row (is_same_ballot pair.now.left.now.prefer (view pair.now.left.now.tree) pair.now.right.now.prefer (view pair.now.right.now.tree))
        (map of_place ones.now) (map of_place others.now) row.now) }
{
    match *row {
        Row::Both(one, other) => {
            let one = place_in(ones, one);
            let other = place_in(others, other);
            told_of_both(alloc, pair, one, other)
        }
        Row::Removed(one) => Ok(told_of_left(place_in(ones, one))),
        Row::Added(other) => Ok(told_of_right(place_in(others, other))),
        Row::MovedAway(_, _) => Ok(None),
        Row::MovedHere(one, other) => {
            let one = place_in(ones, one);
            let other = place_in(others, other);
            told_of_both(alloc, pair, one, other)
        }
    }
}

/// Returns the style at a place, if there is one.
fn place_in<'a>(places: &[Place<'a>], index: usize) -> Option<Place<'a>>
    ensures { result ≡ slice_get places.now index }
{
    places.get(index).copied()
}

/// Returns what is told of a style of both reports: nothing if its ballots are the same.
fn told_of_both<'a>(
    alloc: Global,
    pair: &Pair,
    one: Option<Place<'a>>,
    other: Option<Place<'a>>,
) -> Result<Option<BallotDifference<'a>>, AllocError>
    requires marks { AreMarks pair.now.left.now.prefer (view pair.now.left.now.tree) pair.now.right.now.prefer (view pair.now.right.now.tree) pair.now.marks }
    ensures { IfOk result (λ found. option_map of_style found
        ≡ told_of_both (is_same_ballot pair.now.left.now.prefer (view pair.now.left.now.tree) pair.now.right.now.prefer (view pair.now.right.now.tree))
        (option_map of_place one.entry) (option_map of_place other.entry)) }
{
    match one {
        Some(one) => match other {
            Some(other) => told_of_pair(alloc, pair, one, other),
            None => Ok(None),
        },
        None => Ok(None),
    }
}

/// Returns what is told of a style with these places.
fn told_of_pair<'a>(
    alloc: Global,
    pair: &Pair,
    one: Place<'a>,
    other: Place<'a>,
) -> Result<Option<BallotDifference<'a>>, AllocError>
    requires marks { AreMarks pair.now.left.now.prefer (view pair.now.left.now.tree) pair.now.right.now.prefer (view pair.now.right.now.tree) pair.now.marks }
    ensures { IfOk result (λ found. option_map of_style found
        ≡ told_of_both (is_same_ballot pair.now.left.now.prefer (view pair.now.left.now.tree) pair.now.right.now.prefer (view pair.now.right.now.tree))
        (Some (of_place one.entry)) (Some (of_place other.entry))) }
{
    if is_same_ballot(alloc, pair, one.1, other.1)? {
        Ok(None)
    } else {
        Ok(Some(BallotDifference {
            key: one.0,
            left: Some(one.1),
            right: Some(other.1),
        }))
    }
}

/// Returns whether the ballots of the styles at two positions are the same.
fn is_same_ballot(alloc: Global, pair: &Pair, one: usize, other: usize) -> Result<bool, AllocError>
    requires marks { AreMarks pair.now.left.now.prefer (view pair.now.left.now.tree) pair.now.right.now.prefer (view pair.now.right.now.tree) pair.now.marks }
    ensures { IfOk result (λ same. same ≡ is_same_ballot pair.now.left.now.prefer (view pair.now.left.now.tree) pair.now.right.now.prefer
        (view pair.now.right.now.tree) one other) }
{
    let lines = has_same_lines(alloc, pair.left, one, pair.right, other)?;
    let selections = has_same_selections(alloc, pair.left, one, pair.right, other)?;
    let reworded = is_reworded_at(alloc, pair, one)?;
    Ok(is_same(lines, selections, reworded))
}

/// Returns whether two ballots are the same, from whether their lines and selections are, and whether other words are printed.
fn is_same(lines: bool, selections: bool, reworded: bool) -> bool
    ensures { result ≡ (lines && (selections && not reworded)) }
{
    lines && selections && !reworded
}

/// Returns whether the ballots of the styles at two positions have one text, whichever elections hold them.
fn has_same_lines(
    alloc: Global,
    left: &Report,
    one: usize,
    right: &Report,
    other: usize,
) -> Result<bool, AllocError>
    ensures { IfOk result (λ same. same ≡ has_same_lines left.now.prefer (view left.now.tree) right.now.prefer (view right.now.tree) one other) }
{
    let one = compared_text(alloc, left, one)?;
    let other = compared_text(alloc, right, other)?;
    Ok(is_same_text(one.as_str(), other.as_str()))
}

/// Returns whether the same is printed of the selections on each line of the ballots of the styles at two positions.
fn has_same_selections(
    alloc: Global,
    left: &Report,
    one: usize,
    right: &Report,
    other: usize,
) -> Result<bool, AllocError>
    ensures { IfOk result (λ same. same ≡ has_same_selections left.now.prefer (view left.now.tree) right.now.prefer (view right.now.tree) one other) }
{
    let one = selections_text(alloc, left, one)?;
    let other = selections_text(alloc, right, other)?;
    Ok(is_same_text(one.as_str(), other.as_str()))
}

/// Returns whether the ballot of the style at a position of the left report prints other words in the right one.
fn is_reworded_at(alloc: Global, pair: &Pair, position: usize) -> Result<bool, AllocError>
    requires marks { AreMarks pair.now.left.now.prefer (view pair.now.left.now.tree) pair.now.right.now.prefer (view pair.now.right.now.tree) pair.now.marks }
    ensures { IfOk result (λ it. it ≡ is_reworded_at pair.now.left.now.prefer (view pair.now.left.now.tree) pair.now.right.now.prefer
        (view pair.now.right.now.tree) position) }
{
    match pair.left.object(Family::Style, position) {
        Some(style) => is_ballot_reworded(alloc, pair.left, style, pair.right, &pair.marks),
        None => Ok(false),
    }
}

/// Returns what is told of a style of the left report alone.
fn told_of_left<'a>(one: Option<Place<'a>>) -> Option<BallotDifference<'a>>
    ensures { option_map of_style result ≡ told_of_left (option_map of_place one.entry) }
{
    let (key, index) = one?;
    Some(BallotDifference {
        key,
        left: Some(index),
        right: None,
    })
}

/// Returns what is told of a style of the right report alone.
fn told_of_right<'a>(other: Option<Place<'a>>) -> Option<BallotDifference<'a>>
    ensures { option_map of_style result ≡ told_of_right (option_map of_place other.entry) }
{
    let (key, index) = other?;
    Some(BallotDifference {
        key,
        left: None,
        right: Some(index),
    })
}
