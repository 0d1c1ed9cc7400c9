//! What ballots print of the selections of a contest, in the order of their names.
ghost use Rattle.std.specs.Prelude.{◌≡◌, ◌++◌, Some, codes, false, map, option_map, slice_get, OnOk};
ghost use Rattle.serde_json.specs.View.{items_of, items_view, view};
ghost use Rattle.serde_json.specs.Written.{has_float, items_have_float};
ghost use Rattle.erd_tables.specs.declared.class.Family.TheVariants as family;
ghost use Rattle.erd_text.specs.Tokens.{value_tokens};
ghost use Rattle.erd_check.specs.Values.{entries_at};
ghost use Rattle.erd_meaning.specs.Objects.{objects};
ghost use Rattle.erd_shown.specs.KeyData.{array_of};
ghost use Rattle.erd_shown.specs.WordList.{named_words, worded_selections};
ghost use Rattle.erd_shown.specs.code.Selections.{AreNamedFrom};
ghost use Rattle.erd_shown.specs.code.Worded.{words_of_pair};

use crate::names::write_name;
use crate::selections::{LentName, named_selections};
use crate::words::write_words;
use erd_check::values::entries_at;
use erd_meaning::{Report, SelectionName, in_order};
use erd_tables::Family;
use erd_text::Output;
use serde_json::Value;
use std::alloc::{AllocError, Global};

/// Writes the selections of the contest at a position, which has this value: the name of each, and what ballots print of it.
pub(crate) fn write_selections_at(
    alloc: Global,
    report: &Report,
    position: usize,
    contest: &Value,
    out: &mut Output,
) -> Result<(), AllocError>
    requires there { option_map (λ o. o.value) (slice_get (objects family.Contest (view report.now.tree)) position) ≡ Some (view contest.now) }
    requires whole { has_float (view contest.now) ≡ false }
    ensures { OnOk result (out.new ≡ out.old ++ value_tokens
        (worded_selections report.now.prefer (view report.now.tree) (entries_at (codes "ContestSelection") (view contest.now)))) }
{
    let _tree = report.tree();
    let start = report.first_selection(position);
    let selections = entries_at(contest, "ContestSelection");
    write_in_order(alloc, report, start, selections, out)
}

/// Writes selections in the rising order of their names. The first of them has the position `start` in the report.
fn write_in_order(
    alloc: Global,
    report: &Report,
    start: usize,
    selections: &[Value],
    out: &mut Output,
) -> Result<(), AllocError>
    ensures { OnOk result (AreNamedFrom report.now.prefer (view report.now.tree) start (map view selections.now)
        → items_have_float (items_view selections.now) ≡ false
        → out.new ≡ out.old ++ value_tokens (worded_selections report.now.prefer (view report.now.tree) (map view selections.now))) }
{
    let pairs = in_order(alloc, named_selections(alloc, report, start, selections)?)?;
    write_pairs(alloc, report, &pairs, out)
}

/// Writes selections with these names as an array, in their order.
fn write_pairs(
    alloc: Global,
    report: &Report,
    pairs: &[(LentName, &Value)],
    out: &mut Output,
) -> Result<(), AllocError>
    ensures { OnOk result (items_have_float (items_of (map (λ p. view p.1.now) pairs.now)) ≡ false
        → out.new ≡ out.old ++ value_tokens (array_of (map (words_of_pair report.now.prefer (view report.now.tree)) pairs.now))) }
{
    out.begin_array()?;
    for pair in pairs {
        write_named(alloc, report, pair.0.lent(), pair.1, out)?;
    }
    out.end_array()
}

/// Writes a selection with this name: the name, and what ballots print of it.
fn write_named(
    alloc: Global,
    report: &Report,
    name: &SelectionName,
    selection: &Value,
    out: &mut Output,
) -> Result<(), AllocError>
    ensures { OnOk result (has_float (view selection.now) ≡ false
        → out.new ≡ out.old ++ value_tokens (named_words report.now.prefer (view report.now.tree) (Some name.now) (view selection.now))) }
{
    out.begin_object()?;
    out.key("name")?;
    write_name(name, out)?;
    out.key("words")?;
    write_words(alloc, report, Family::Selection, selection, out)?;
    out.end_object()
}
