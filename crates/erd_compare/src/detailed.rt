//! The list of all differences, with what differs inside the selections of contests.
ghost use Rattle.std.specs.Prelude.{◌≡◌, map, option_copied, option_map, IfOk, Some};
ghost use Rattle.erd_compare.specs.Words.{view, meaning, is_in_selections, selections_with_key, AreDetailedDifferences};
ghost use Rattle.erd_compare.specs.code.ContestSelections.{contest_map, AreTold, PassesInside, PassesOne};
ghost use Rattle.erd_compare.specs.code.KeyedDifferences.{IsComparable};

use crate::comparer::Comparer;
use crate::difference::{Difference, How, Part};
use crate::first::all_differences;
use crate::inside::name_differences::differences_at;
use crate::inside::room::{Room, left_after_text};
use crate::inside::{SelectionDifference, by_name, selection_ways};
use erd_meaning::{Key, Report};
use erd_tables::Family;
use std::alloc::{AllocError, Global};

/// A difference between two reports, with what differs inside the selections of a contest.
#[derive(Debug, Drop)]
pub struct DetailedDifference {
    /// The difference.
    pub difference: Difference,
    /// All differences of the selections, in rising order, if two contests differ in their member `ContestSelection` and the
    /// bounds of the call let them be told, and `None` for any other difference.
    pub selections: Option<Vec<SelectionDifference>>,
}

/// Returns what `differences` does. From the difference with the number `first` on, counted from 0, each has what differs inside
/// the selections of the contest, as long as it fits. Both reports must have been resolved under the same preference.
///
/// A name has its keys in full, so the names of one contest can be as long as the square of a report, and so can the differences
/// inside it. So those that are told with their selections are the longest run from `first` on whose texts have at most
/// `most_bytes` bytes together. The text of a difference is the compact JSON of the member `selections` of `to_value`. The first
/// difference that does not fit and all behind it have no selections. No more than `most_bytes` bytes of text and one difference
/// inside is copied before that is known. With 0 and `usize::MAX` there is no bound.
///
/// The differences of selections rise by the names of the selections, and then by the names of members. If only one contest
/// has a selection with a name, that is one difference. Otherwise there is one for each member that differs.
///
/// # Errors
///
/// `AllocError` if out of memory.
///
/// ```
/// let none = detailed_differences(alloc, &report, &report, 0, 1_048_576)?;
/// assert!(rt; none.is_empty());
/// ```
pub fn detailed_differences(
    alloc: Global,
    left: &Report,
    right: &Report,
    first: usize,
    most_bytes: usize,
) -> Result<Vec<DetailedDifference>, AllocError>
    requires one_preference { left.now.prefer ≡ right.now.prefer }
    ensures { IfOk result (λ found. AreDetailedDifferences (meaning left.now.prefer (view left.now.tree)) (meaning right.now.prefer (view right.now.tree)) first
        most_bytes found.items) }
{
    let comparer = Comparer::of_both(alloc, left, right)?;
    let found = all_differences(&comparer)?;
    with_selections(&comparer, found, first, most_bytes)
}

/// Returns the differences, from the first on with what differs inside the selections of the contest, as long as it fits.
fn with_selections(
    comparer: &Comparer,
    differences: Vec<Difference>,
    first: usize,
    most_bytes: usize,
) -> Result<Vec<DetailedDifference>, AllocError>
    ensures listed { IfOk result (λ found. map (λ d. d.difference) found.items ≡ differences.items) }
    ensures told { IfOk result (λ found. AreTold (meaning comparer.now.left.prefer (view comparer.now.left.tree))
        (meaning comparer.now.right.prefer (view comparer.now.right.tree)) first (Some most_bytes) found.items) }
{
    let mut found = Vec::with_capacity(comparer.alloc, differences.len())?;
    let mut room = Room {
        first,
        bytes: Some(most_bytes),
    };
    for difference in differences {
        let selections = selections_of(comparer, &difference, &mut room)?;
        found.push(DetailedDifference {
            difference,
            selections,
        })?;
    }
    Ok(found)
}

/// Returns the differences of the selections, if the difference is in the selections of a contest and they fit into the room,
/// and leaves the room that is for the next difference.
fn selections_of(
    comparer: &Comparer,
    difference: &Difference,
    room: &mut Room,
) -> Result<Option<Vec<SelectionDifference>>, AllocError>
    ensures { IfOk result (λ told. PassesOne (meaning comparer.now.left.prefer (view comparer.now.left.tree))
        (meaning comparer.now.right.prefer (view comparer.now.right.tree)) difference.now (option_map (λ v. v.items) told) room.old room.new) }
{
    if room.first > 0 {
        room.first -= 1;
        return Ok(None);
    }
    if !is_in_selections(difference) {
        return Ok(None);
    }
    let contest = contest_with_key(comparer.left(), difference.key.as_ref());
    let other_contest = contest_with_key(comparer.right(), difference.key.as_ref());
    selections_within(comparer, contest, other_contest, &mut room.bytes)
}

/// Returns the differences of the selections of the contests at these positions, if their text fits into the room, and leaves
/// what is left of it. No position stands for a contest without selections.
fn selections_within(
    comparer: &Comparer,
    contest: Option<usize>,
    other_contest: Option<usize>,
    room: &mut Option<usize>,
) -> Result<Option<Vec<SelectionDifference>>, AllocError>
    ensures { IfOk result (λ told. PassesInside (contest_map comparer.now.left contest) (contest_map comparer.now.right other_contest)
        (option_map (λ v. v.items) told) room.old room.new) }
{
    let Some(bytes) = *room else {
        return Ok(None);
    };
    let ways = selection_ways(comparer, contest, other_contest)?;
    *room = left_after_text(comparer.alloc, &ways, bytes)?;
    match *room {
        Some(_) => Ok(Some(differences_at(comparer.alloc, &by_name(ways)?)?)),
        None => Ok(None),
    }
}

/// Returns whether the difference is in the selections of two contests of one class.
fn is_in_selections(difference: &Difference) -> bool
    ensures { result ≡ is_in_selections difference.now }
{
    match (difference.part, &difference.how) {
        (Part::Contest, How::Member(name)) => name.as_str() == "ContestSelection",
        _ => false,
    }
}

/// Returns the position of the contest with a key, if there is one.
fn contest_with_key(report: &Report, key: Option<&Key>) -> Option<usize>
    requires { IsComparable report.now.prefer (view report.now.tree) }
    ensures { contest_map report.now result ≡ selections_with_key (meaning report.now.prefer (view report.now.tree)) (option_copied key.entry) }
{
    report.find(Family::Contest, key?)
}
