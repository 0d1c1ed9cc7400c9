ghost use Rattle.std.specs.Prelude.{◌≡◌, ◌+◌, ◌<◌, ◌^◌, [], codes, length, map, option_map, slice_get, IfOk, option_copied};
ghost use Rattle.erd_normal.specs.Words.{option_cmp, option_map_or, entries_at, view, IsAccepted};
ghost use Rattle.erd_normal.specs.Words.{IsBounded, contests, name_cmp, name_of, rising_list, ranked_name};
ghost use Rattle.erd_meaning.specs.code.KeyOrders.{positioned, positions_by};
ghost use Rattle.erd_normal.specs.code.SelectionOrders.{AreNamedFrom, AreSelectionRanks, lent_name_cmp, name_in, rising_selections};

use erd_check::values::entries_at;
use erd_meaning::{RankedName, Report, SelectionName, places_in};
use erd_tables::Family;
use serde_json::Value;
use std::alloc::{AllocError, Global};
use std::cmp::Ordering;

/// The selections of each contest in the order of their names.
#[derive(Drop)]
pub(crate) struct SelectionOrders {
    /// For each contest, the positions of its selections among them, in the order of their names.
    pub(crate) rising: Vec<Vec<usize>>,
    /// The rank of each selection among those of its contest, by its position in the report.
    pub(crate) ranks: Vec<usize>,
}

/// Returns the orders of the selections of all contests, by one sort for each contest.
pub(crate) fn selection_orders(
    alloc: Global,
    report: &Report,
) -> Result<SelectionOrders, AllocError>
    requires accepted { IsAccepted report.now.prefer (view report.now.tree) }
    requires bounded { IsBounded (view report.now.tree) }
    ensures rising { IfOk result (λ orders. map (λ positions. positions.items) orders.rising.items
        ≡ map (λ o. rising_selections report.now.prefer (view report.now.tree) o.value) (contests (view report.now.tree))) }
    ensures ranks { IfOk result (λ orders. AreSelectionRanks report.now.prefer (view report.now.tree) orders.ranks.items) }
{
    let count = report.count(Family::Contest);
    let mut rising = Vec::with_capacity(alloc, count)?;
    let mut ranks = Vec::with_capacity(alloc, report.count(Family::Selection))?;
    let mut start = 0;
    for index in 0..count {
        let selections = selections_at(report, index);
        let positions = rising_in_contest(alloc, report, start, selections)?;
        let places = places_in(alloc, &positions)?;
        ranks.extend_from_slice(&places)?;
        rising.push(positions)?;
        start += selections.len();
    }
    Ok(SelectionOrders { rising, ranks })
}

/// Returns the selections of the contest at the position, or none if there is no such contest.
fn selections_at<'a>(report: &'a Report, contest: usize) -> &'a [Value]
    ensures { map view result.now ≡ option_map_or (λ o. entries_at (codes "ContestSelection") o.value)
        (slice_get (contests (view report.now.tree)) contest) [] }
{
    match report.object(Family::Contest, contest) {
        Some(contest) => entries_at(contest, "ContestSelection"),
        None => &[],
    }
}

/// Returns the positions of the selections of a contest among them, in the order of their names. The first of them has the
/// position `start` in the report.
fn rising_in_contest(
    alloc: Global,
    report: &Report,
    start: usize,
    selections: &[Value],
) -> Result<Vec<usize>, AllocError>
    requires named { AreNamedFrom report.now.prefer (view report.now.tree) start (map view selections.now) }
    requires few { start + length selections.now < 2 ^ 64 }
    ensures { IfOk result (λ positions. positions.items
        ≡ positions_by (option_cmp name_cmp) (map (name_of report.now.prefer (view report.now.tree)) (map view selections.now))) }
{
    let names = names_from(alloc, report, start, selections)?;
    let sorted = in_rising_order(names)?;
    positions_of(alloc, &sorted)
}

/// Returns the names of the selections of a contest, each with its position among them.
fn names_from<'a>(
    alloc: Global,
    report: &'a Report,
    start: usize,
    selections: &[Value],
) -> Result<Vec<(Option<&'a RankedName<SelectionName>>, usize)>, AllocError>
    requires named { AreNamedFrom report.now.prefer (view report.now.tree) start (map view selections.now) }
    requires few { start + length selections.now < 2 ^ 64 }
    ensures { IfOk result (λ names. map (λ p. (option_copied p.0, p.1)) names.items
        ≡ positioned 0 (map (λ d. option_map (ranked_name report.now.prefer (view report.now.tree)) (name_of report.now.prefer (view report.now.tree) d))
        (map view selections.now))) }
{
    let count = selections.len();
    let mut names = Vec::with_capacity(alloc, count)?;
    for index in 0..count {
        names.push((name_at(report, start + index), index))?;
    }
    Ok(names)
}

/// Returns the name of the selection at a position of the report, if there is one.
fn name_at<'a>(report: &'a Report, position: usize) -> Option<&'a RankedName<SelectionName>>
    ensures { option_copied result ≡ option_map (ranked_name report.now.prefer (view report.now.tree))
        (name_in report.now.prefer (view report.now.tree) position) }
{
    match report.ranked_name_at(position) {
        Some((_, name)) => Some(name),
        None => None,
    }
}

/// Returns the same names in rising order. Names of one report are compared by the ranks of their keys.
fn in_rising_order(
    mut names: Vec<(Option<&RankedName<SelectionName>>, usize)>,
) -> Result<Vec<(Option<&RankedName<SelectionName>>, usize)>, AllocError>
    ensures { IfOk result (λ rising. rising.items ≡ rising_list (λ a b. lent_name_cmp a.0 b.0) names.entry.items) }
{
    names.sort_by(|one, other| compare_names(one.0, other.0))?;
    Ok(names)
}

/// Compares two names of one report. A missing name comes before every other.
fn compare_names(
    one: Option<&RankedName<SelectionName>>,
    other: Option<&RankedName<SelectionName>>,
) -> Ordering
    ensures { result ≡ lent_name_cmp one.entry other.entry }
{
    match (one, other) {
        (None, None) => Ordering::Equal,
        (None, Some(_)) => Ordering::Less,
        (Some(_), None) => Ordering::Greater,
        (Some(one), Some(other)) => one.compare(other),
    }
}

/// Returns the positions that stand with the names.
fn positions_of(
    alloc: Global,
    names: &[(Option<&RankedName<SelectionName>>, usize)],
) -> Result<Vec<usize>, AllocError>
    ensures { IfOk result (λ positions. positions.items ≡ map (λ p. p.1) names.now) }
{
    let mut positions = Vec::with_capacity(alloc, names.len())?;
    for name in names {
        positions.push(name.1)?;
    }
    Ok(positions)
}
