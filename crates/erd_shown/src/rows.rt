//! The lines of two ballots beside each other.
ghost use Rattle.std.specs.Prelude.{◌≡◌, ◌≤◌, ◌+◌, ℕ, List, Option, Some, slice_get, length, ◌<◌, IfOk, IfSome, OnOk};
ghost use Rattle.erd_shown.specs.Rows.{AreRows};
ghost use Rattle.erd_shown.specs.code.RowsSoFar.{AreUpTo, left_row, right_row};

use std::alloc::{AllocError, Global};

/// A row of two ballots beside each other. The numbers are the positions of lines in the left ballot and in the right one.
#[derive(Clone, Copy, Debug, PartialEq, Eq)]
pub enum Row {
    /// A line of both.
    Both(usize, usize),
    /// A line of the left ballot alone.
    Removed(usize),
    /// A line of the right ballot alone.
    Added(usize),
    /// A line of the left ballot that stands elsewhere in the right one.
    MovedAway(usize, usize),
    /// A line of the right ballot that stands elsewhere in the left one.
    MovedHere(usize, usize),
}

/// Returns the lines of two ballots beside each other, given for each line of either where its partner stands, and for each line
/// of the left one whether it stays if it can. Whatever is said of the latter, the rows are right; the more stay, the fewer move.
///
/// # Errors
///
/// `AllocError` if out of memory.
///
/// ```
/// let rows = rows_of(alloc, &[Some(1), None], &[None, Some(0)], &[true, true])?;
/// assert_eq!(rt; rows.first(), Some(&Row::Added(0)));
/// assert_eq!(rt; rows.get(1), Some(&Row::Both(0, 1)));
/// ```
pub fn rows_of(
    alloc: Global,
    left: &[Option<usize>],
    right: &[Option<usize>],
    stays: &[bool],
) -> Result<Vec<Row>, AllocError>
    ensures { IfOk result (λ rows. AreRows left.now right.now rows.items) }
{
    let mut rows = Vec::new(alloc);
    let mut other = 0;
    for one in 0..left.len() {
        other = push_line(right, one, left[one], other, is_set(stays, one), &mut rows)?;
    }
    push_rights(right, other, right.len(), &mut rows)?;
    Ok(rows)
}

/// Appends the row of a line of the left ballot, after those of the lines of the right one that come before. Returns how many
/// lines of the right one the rows have then.
fn push_line(
    right: &[Option<usize>],
    one: usize,
    partner: Option<usize>,
    other: usize,
    stays: bool,
    rows: &mut Vec<Row>,
) -> Result<usize, AllocError>
    requires within { other ≤ length right.now }
    ensures within { IfOk result (λ next. next ≤ length right.now) }
    ensures rows { IfOk result (λ next. (left : List (Option ℕ)) → slice_get left one ≡ Some partner → AreUpTo left right.now rows.old.items one other
        → AreUpTo left right.now rows.new.items (one + 1) next) }
{
    match kept(partner, other, right.len(), stays) {
        Some(there) => {
            push_rights(right, other, there, rows)?;
            rows.push(Row::Both(one, there))?;
            Ok(there + 1)
        }
        None => {
            rows.push(left_row(one, partner))?;
            Ok(other)
        }
    }
}

/// Returns the partner of a line that stays and can: it stands behind the lines of the right ballot that the rows have.
fn kept(partner: Option<usize>, other: usize, count: usize, stays: bool) -> Option<usize>
    ensures partner { IfSome result (λ there. partner ≡ Some there) }
    ensures behind { IfSome result (λ there. other ≤ there) }
    ensures within { IfSome result (λ there. there < count) }
{
    let there = partner?;
    if stays && other <= there && there < count {
        partner
    } else {
        None
    }
}

/// Returns whether a line is said to stay.
fn is_set(stays: &[bool], index: usize) -> bool {
    match stays.get(index) {
        Some(stays) => *stays,
        None => false,
    }
}

/// Returns the row of a line of the left ballot alone.
fn left_row(one: usize, partner: Option<usize>) -> Row
    ensures { result ≡ left_row one partner }
{
    match partner {
        Some(other) => Row::MovedAway(one, other),
        None => Row::Removed(one),
    }
}

/// Returns the row of a line of the right ballot alone.
fn right_row(other: usize, partner: Option<usize>) -> Row
    ensures { result ≡ right_row other partner }
{
    match partner {
        Some(one) => Row::MovedHere(one, other),
        None => Row::Added(other),
    }
}

/// Appends the rows of the lines of the right ballot from one position up to another.
fn push_rights(
    right: &[Option<usize>],
    from: usize,
    to: usize,
    rows: &mut Vec<Row>,
) -> Result<(), AllocError>
    requires rises { from ≤ to }
    requires within { to ≤ length right.now }
    ensures { OnOk result ((left : List (Option ℕ)) (i : ℕ) → AreUpTo left right.now rows.old.items i from → AreUpTo left right.now rows.new.items i to) }
{
    for other in from..to {
        rows.push(right_row(other, right[other]))?;
    }
    Ok(())
}
