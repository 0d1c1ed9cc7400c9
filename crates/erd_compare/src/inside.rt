//! What differs inside the selections of two contests.
ghost use Rattle.std.specs.Prelude.{◌≡◌, IfOk};
ghost use Rattle.erd_meaning.specs.Words.{rising_list};
ghost use Rattle.erd_compare.specs.code.ContestSelections.{contest_map};
ghost use Rattle.erd_compare.specs.code.NamedSelections.{named_cmp, AreAllWays};

pub(crate) mod name_differences;
mod named;
mod numbered;
pub(crate) mod room;

use crate::comparer::Comparer;
use crate::difference::How;
use crate::inside::named::{NamedWays, named_ways};
use crate::inside::numbered::{add_numbers, selections_by_number};
use crate::ranks::common_ranks::ComparedReport;
use erd_meaning::SelectionName;
use std::alloc::AllocError;
use std::collections::BTreeSet;

/// A difference between the selections of two contests.
#[derive(Debug, Drop)]
pub struct SelectionDifference {
    /// The name of the selection that differs.
    pub name: SelectionName,
    /// How the contests differ there: only one of them has a selection with the name, or the two selections differ in a
    /// member. Two selections with one name have the same class.
    pub how: How,
}

/// Returns the ways in which the selections of the contests at these positions differ, for each name at which they do, in no
/// order of the names. No position stands for a contest without selections. Names are told apart by their numbers, and none is
/// copied.
pub(crate) fn selection_ways<'a>(
    comparer: &'a Comparer,
    contest: Option<usize>,
    other_contest: Option<usize>,
) -> Result<Vec<NamedWays<'a>>, AllocError>
    ensures { IfOk result (λ found. AreAllWays (contest_map comparer.now.left contest) (contest_map comparer.now.right other_contest) found.items) }
{
    let ones = selections_by_number(comparer, ComparedReport::Left, contest)?;
    let others = selections_by_number(comparer, ComparedReport::Right, other_contest)?;
    let mut numbers = BTreeSet::new(comparer.alloc);
    add_numbers(&ones, &mut numbers)?;
    add_numbers(&others, &mut numbers)?;
    let mut found = Vec::new(comparer.alloc);
    for number in &numbers {
        if let Some(named) = named_ways(comparer, ones.get(number), others.get(number))? {
            found.push(named)?;
        }
    }
    Ok(found)
}

/// Returns the same ways in the rising order of their names.
pub(crate) fn by_name(mut ways: Vec<NamedWays>) -> Result<Vec<NamedWays>, AllocError>
    ensures { IfOk result (λ rising. rising.items ≡ rising_list named_cmp ways.entry.items) }
{
    ways.sort_by(|one, other| one.name.cmp(other.name))?;
    Ok(ways)
}
