//! The selections of a contest by the numbers of their names. Numbers are compared, so it takes no longer if names are long.
ghost use Rattle.std.specs.Prelude.{◌≡◌, option_and_then, option_map, slice_get, IfOk, IfSome, OnOk};
ghost use Rattle.erd_compare.specs.Words.{view, objects};
ghost use Rattle.erd_tables.specs.declared.class.Family.TheVariants as family;
ghost use Rattle.erd_compare.specs.code.CommonNames.{number_of_selection};
ghost use Rattle.erd_compare.specs.code.NamedSelections.{contest_values, number_and_value, value_of, AddsNumbers, AreByNumber, IsNamedOn};
ghost use Rattle.erd_compare.specs.code.RankedSides.{on_side};

use crate::comparer::Comparer;
use crate::inside::named::NamedSelection;
use crate::objects::records::PlacedObject;
use crate::ranks::common_ranks::ComparedReport;
use erd_check::values::entries_at;
use erd_tables::Family;
use std::alloc::AllocError;
use std::collections::{BTreeMap, BTreeSet};

/// Returns the selections of the contest at a position of the report on a side, by the numbers of their names. If several have
/// the same name, the first one counts. No position stands for a contest without selections.
pub(crate) fn selections_by_number<'a>(
    comparer: &'a Comparer,
    side: ComparedReport,
    contest: Option<usize>,
) -> Result<BTreeMap<usize, NamedSelection<'a>>, AllocError>
    ensures { IfOk result (λ numbered. AreByNumber comparer.now.left comparer.now.right side
        (contest_values (on_side side comparer.now.left comparer.now.right) contest) numbered.entries) }
{
    let mut numbered = BTreeMap::new(comparer.alloc);
    let Some(position) = contest else {
        return Ok(numbered);
    };
    let report = comparer.on(side);
    let Some(value) = report.object(Family::Contest, position) else {
        return Ok(numbered);
    };
    let start = report.first_selection(position);
    for index in 0..entries_at(value, "ContestSelection").len() {
        if let Some((number, selection)) = selection_at(comparer, side, start + index) {
            if !numbered.contains_key(&number) {
                numbered.insert(number, selection)?;
            }
        }
    }
    Ok(numbered)
}

/// Returns the selection at a position of the report on a side, with the number of its name, if there is such a selection and it
/// has a name.
fn selection_at<'a>(
    comparer: &'a Comparer,
    side: ComparedReport,
    position: usize,
) -> Option<(usize, NamedSelection<'a>)>
    ensures named { IfSome result (λ found. IsNamedOn comparer.now.left comparer.now.right side found.1) }
    ensures found { option_map number_and_value result
        ≡ option_and_then (λ o. option_map (λ k. (k, o.value)) (number_of_selection comparer.now.left comparer.now.right side o.value))
        (slice_get (objects family.Selection (view (on_side side comparer.now.left comparer.now.right).tree)) position) }
{
    let report = comparer.on(side);
    let number = comparer.name_number_at(side, position)?;
    let (_, name) = report.selection_at(position)?;
    let value = report.object(Family::Selection, position)?;
    let index = position;
    let object = PlacedObject { value, index };
    Some((number, NamedSelection { name, object }))
}

/// Adds the numbers of names to a set.
pub(crate) fn add_numbers(
    numbered: &BTreeMap<usize, NamedSelection>,
    numbers: &mut BTreeSet<usize>,
) -> Result<(), AllocError>
    ensures { OnOk result (AddsNumbers numbered.now.entries numbers.old.keys numbers.new.keys) }
{
    for (number, _) in numbered {
        numbers.insert(*number)?;
    }
    Ok(())
}
