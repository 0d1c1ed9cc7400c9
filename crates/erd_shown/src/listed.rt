ghost use Rattle.std.specs.Prelude.{◌≡◌, [], map, IfOk, option_map, slice_get, codes};
ghost use Rattle.std.specs.Option.{option_map_or};
ghost use Rattle.serde_json.specs.View.{view};
ghost use Rattle.erd_tables.specs.declared.class.Family.TheVariants as family;
ghost use Rattle.erd_check.specs.Values.{entries_at};
ghost use Rattle.erd_text.specs.RisingLists.{rising_list};
ghost use Rattle.erd_meaning.specs.Objects.{objects};
ghost use Rattle.erd_meaning.specs.SelectionNames.{name_cmp};
ghost use Rattle.erd_shown.specs.ListedNames.{is_filled, lists_selections, names_in_order, names_named, names_on};
ghost use Rattle.erd_shown.specs.ListedNames.{selections_named, selections_on, sorted_names};
ghost use Rattle.erd_shown.specs.code.LentNames.{lent};
ghost use Rattle.erd_shown.specs.code.Selections.{AreNamedFrom};

use crate::contests_and_headers::is_header;
use crate::lookups::{name_named, place_named};
use crate::selections::{LentName, named_selections};
use erd_check::values::{entries_at, text_at};
use erd_meaning::{Report, SelectionName, in_order};
use erd_tables::Family;
use serde_json::Value;
use std::alloc::{AllocError, Global};

/// Returns whether a ballot lists selections for a contest.
pub(crate) fn lists_selections(node: &Value) -> bool
    ensures { result ≡ lists_selections (view node.now) }
{
    is_filled(entries_at(node, "OrderedContestSelectionIds"))
}

/// Returns whether there are values.
fn is_filled(values: &[Value]) -> bool
    ensures { result ≡ is_filled (map view values.now) }
{
    match values.first() {
        Some(_) => true,
        None => false,
    }
}

/// Returns the names of the selections of a contest on a ballot: those that it lists, in their order, or if it lists none all of
/// the contest, in rising order.
pub(crate) fn names_on<'a>(
    alloc: Global,
    report: &'a Report,
    node: &Value,
) -> Result<Vec<&'a SelectionName>, AllocError>
    ensures { IfOk result (λ names. map lent names.items ≡ names_on report.now.prefer (view report.now.tree) (view node.now)) }
{
    if lists_selections(node) {
        names_named(
            alloc,
            report,
            entries_at(node, "OrderedContestSelectionIds"),
        )
    } else {
        all_names(alloc, report, node)
    }
}

/// Returns the names of all selections of the contest of a line, in rising order. A header has none.
fn all_names<'a>(
    alloc: Global,
    report: &'a Report,
    node: &Value,
) -> Result<Vec<&'a SelectionName>, AllocError>
    ensures { IfOk result (λ names. map lent names.items ≡ sorted_names report.now.prefer (view report.now.tree)
        (selections_on (view report.now.tree) (view node.now))) }
{
    if is_header(node) {
        Ok(Vec::new(alloc))
    } else {
        names_of_named(alloc, report, text_at(node, "ContestId"))
    }
}

/// Returns the names of the selections that references name, in their order.
fn names_named<'a>(
    alloc: Global,
    report: &'a Report,
    values: &[Value],
) -> Result<Vec<&'a SelectionName>, AllocError>
    ensures { IfOk result (λ names. map lent names.items ≡ names_named report.now.prefer (view report.now.tree) (map view values.now)) }
{
    let mut names = Vec::new(alloc);
    for value in values {
        if let Some(id) = value.as_str() {
            if let Some(name) = name_named(report, id) {
                names.push(name)?;
            }
        }
    }
    Ok(names)
}

/// Returns the names of the selections of the contest that a reference names, in rising order.
fn names_of_named<'a>(
    alloc: Global,
    report: &'a Report,
    id: &str,
) -> Result<Vec<&'a SelectionName>, AllocError>
    ensures { IfOk result (λ names. map lent names.items ≡ sorted_names report.now.prefer (view report.now.tree)
        (selections_named (view report.now.tree) id.now)) }
{
    match place_named(report, Family::Contest, id) {
        Some(position) => names_of_contest(alloc, report, position),
        None => Ok(Vec::new(alloc)),
    }
}

/// Returns the names of the selections of the contest at a position, in rising order.
fn names_of_contest<'a>(
    alloc: Global,
    report: &'a Report,
    position: usize,
) -> Result<Vec<&'a SelectionName>, AllocError>
    ensures { IfOk result (λ names. map lent names.items ≡ sorted_names report.now.prefer (view report.now.tree)
        (option_map_or (entries_at (codes "ContestSelection")) (option_map (λ o. o.value) (slice_get (objects family.Contest (view report.now.tree)) position))
        [])) }
{
    let _tree = report.tree();
    match report.object(Family::Contest, position) {
        Some(contest) => {
            let start = report.first_selection(position);
            sorted_names(
                alloc,
                report,
                start,
                entries_at(contest, "ContestSelection"),
            )
        }
        None => Ok(Vec::new(alloc)),
    }
}

/// Returns the names of selections in rising order. The first of them has the position `start` in the report.
fn sorted_names<'a>(
    alloc: Global,
    report: &'a Report,
    start: usize,
    selections: &'a [Value],
) -> Result<Vec<&'a SelectionName>, AllocError>
    ensures { IfOk result (λ names. AreNamedFrom report.now.prefer (view report.now.tree) start (map view selections.now)
        → map lent names.items ≡ sorted_names report.now.prefer (view report.now.tree) (map view selections.now)) }
{
    let pairs = in_order(alloc, named_selections(alloc, report, start, selections)?)?;
    first_names(alloc, &pairs)
}

/// Returns names in their order if both ballots list them, and else in rising order.
pub(crate) fn names_in_order<'a>(
    alloc: Global,
    names: Vec<&'a SelectionName>,
    both_listed: bool,
) -> Result<Vec<&'a SelectionName>, AllocError>
    ensures { IfOk result (λ found. map lent found.items ≡ names_in_order both_listed (map lent names.entry.items)) }
{
    if both_listed {
        Ok(names)
    } else {
        sort_names(alloc, &names)
    }
}

/// Returns names in rising order.
fn sort_names<'a>(
    alloc: Global,
    names: &[&'a SelectionName],
) -> Result<Vec<&'a SelectionName>, AllocError>
    ensures { IfOk result (λ found. map lent found.items ≡ rising_list name_cmp (map lent names.now)) }
{
    let pairs = in_order(alloc, lent_names(alloc, names)?)?;
    first_names(alloc, &pairs)
}

/// Returns names by which things are put in order.
fn lent_names<'a>(
    alloc: Global,
    names: &[&'a SelectionName],
) -> Result<Vec<(LentName<'a>, ())>, AllocError>
    ensures { IfOk result (λ pairs. map (λ p. p.0) pairs.items ≡ map lent names.now) }
{
    let mut pairs = Vec::new(alloc);
    for name in names {
        pairs.push((LentName { name: *name }, ()))?;
    }
    Ok(pairs)
}

/// Returns the names of pairs of a name and something else.
fn first_names<'a, T>(
    alloc: Global,
    pairs: &[(LentName<'a>, T)],
) -> Result<Vec<&'a SelectionName>, AllocError>
    ensures { IfOk result (λ names. map lent names.items ≡ map (λ p. p.0) pairs.now) }
{
    let mut names = Vec::new(alloc);
    for pair in pairs {
        names.push(pair.0.lent())?;
    }
    Ok(names)
}
