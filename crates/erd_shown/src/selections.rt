ghost use Rattle.std.specs.Prelude.{◌≡◌, ◌+◌, ◌<◌, ◌^◌, ◌++◌, Some, false, map, option_copied, OnOk, IfOk};
ghost use Rattle.serde_json.specs.View.{items_of, items_view, view};
ghost use Rattle.serde_json.specs.Written.{has_float, items_have_float};
ghost use Rattle.erd_text.specs.Tokens.{value_tokens};
ghost use Rattle.erd_meaning.specs.SelectionNames.{selection_role};
ghost use Rattle.erd_shown.specs.KeyData.{array_of};
ghost use Rattle.erd_shown.specs.Shown.{named_record, record_data, record_in_class, shown_selections, shown_plain};
ghost use Rattle.erd_shown.specs.code.Selections.{AreNamedFrom, named_selection, of_pair, selection_of_pair};
ghost use Rattle.erd_shown.specs.code.Writing.{name_in};

use crate::lookups::name_at;
use crate::members::write_plain_object;
use crate::names::write_name;
use erd_check::values::class_of_object;
use erd_meaning::{Report, SelectionName, SetOrder, in_order};
use erd_tables::{Class, Family, Role, type_text};
use erd_text::Output;
use serde_json::Value;
use std::alloc::{AllocError, Global};
use std::cmp::Ordering;
use std::marker::Model;

/// A borrowed name, by which selections are put in order. Contracts see the name.
#[derive(Drop)]
pub(crate) struct LentName<'a> {
    pub(crate) name: &'a SelectionName,
}

impl<'a> Model for LentName<'a> {
    ghost use Rattle.erd_meaning.specs.NameParts.{NameParts};

    ghost Value = { NameParts };

    ghost view = { λ l. l.name.now };
}

impl<'a> LentName<'a> {
    /// Returns the name.
    pub(crate) fn lent(&self) -> &'a SelectionName
        ensures { result.now ≡ self.now }
    {
        self.name
    }
}

impl<'a> SetOrder for LentName<'a> {
    ghost use Rattle.erd_meaning.specs.SelectionNames.{name_cmp};
    ghost use Rattle.erd_meaning.specs.code.Orders.{name_cmp_exact, name_cmp_total};

    ghost cmp = { name_cmp };

    ghost total = { name_cmp_total };

    ghost exact = { name_cmp_exact };

    fn order(&self, other: &LentName<'a>) -> Ordering {
        self.name.cmp(other.name)
    }
}

/// Writes the selections of a contest as an array, in the order of their names. The first of them has the position `start` in the
/// report.
pub(crate) fn write_selections(
    alloc: Global,
    report: &Report,
    start: usize,
    selections: &[Value],
    out: &mut Output,
) -> Result<(), AllocError>
    ensures { OnOk result (AreNamedFrom report.now.prefer (view report.now.tree) start (map view selections.now)
        → items_have_float (items_view selections.now) ≡ false
        → out.new ≡ out.old ++ value_tokens (shown_selections report.now.prefer (view report.now.tree) (map view selections.now))) }
{
    let pairs = in_order(alloc, named_selections(alloc, report, start, selections)?)?;
    write_pairs(alloc, report, &pairs, out)
}

/// Returns the selections of a contest, each with its name.
pub(crate) fn named_selections<'a>(
    alloc: Global,
    report: &'a Report,
    start: usize,
    selections: &'a [Value],
) -> Result<Vec<(LentName<'a>, &'a Value)>, AllocError>
    ensures { IfOk result (λ pairs. AreNamedFrom report.now.prefer (view report.now.tree) start (map view selections.now)
        → map of_pair pairs.items ≡ map (named_selection report.now.prefer (view report.now.tree)) (map view selections.now)) }
{
    let mut pairs = Vec::with_capacity(alloc, selections.len())?;
    for (index, selection) in selections.iter().enumerate() {
        if let Some(name) = name_from(report, start, index) {
            pairs.push((LentName { name }, selection))?;
        }
    }
    Ok(pairs)
}

/// Returns the name of the selection that stands so many places behind a position, if there is one.
fn name_from<'a>(report: &'a Report, start: usize, index: usize) -> Option<&'a SelectionName>
    ensures { start + index < 2 ^ 64 → option_copied result ≡ name_in report.now.prefer (view report.now.tree) (start + index) }
{
    name_at(report, start.checked_add(index)?)
}

/// Writes selections with these names as an array, in their order.
fn write_pairs(
    alloc: Global,
    report: &Report,
    pairs: &[(LentName, &Value)],
    out: &mut Output,
) -> Result<(), AllocError>
    ensures { OnOk result (items_have_float (items_of (map (λ p. view p.1.now) pairs.now)) ≡ false
        → out.new ≡ out.old ++ value_tokens (array_of (map (selection_of_pair report.now.prefer (view report.now.tree)) pairs.now))) }
{
    out.begin_array()?;
    for pair in pairs {
        write_selection(alloc, report, pair.0.lent(), pair.1, out)?;
    }
    out.end_array()
}

/// Writes a selection with this name: the name, and the record.
fn write_selection(
    alloc: Global,
    report: &Report,
    name: &SelectionName,
    selection: &Value,
    out: &mut Output,
) -> Result<(), AllocError>
    ensures { OnOk result (has_float (view selection.now) ≡ false
        → out.new ≡ out.old ++ value_tokens (named_record report.now.prefer (view report.now.tree) (Some name.now) (view selection.now))) }
{
    out.begin_object()?;
    out.key("name")?;
    write_name(name, out)?;
    out.key("record")?;
    write_record(alloc, report, selection, out)?;
    out.end_object()
}

/// Writes the record of a selection: its class, and its members.
pub(crate) fn write_record(
    alloc: Global,
    report: &Report,
    selection: &Value,
    out: &mut Output,
) -> Result<(), AllocError>
    ensures { OnOk result (has_float (view selection.now) ≡ false
        → out.new ≡ out.old ++ value_tokens (record_data (shown_plain report.now.prefer (view report.now.tree)) selection_role (view selection.now))) }
{
    match class_of_object(Role::OfFamily(Family::Selection), selection) {
        Some(class) => write_in_class(alloc, report, class, selection, out),
        None => out.null(),
    }
}

/// Writes the record of a selection of the class.
fn write_in_class(
    alloc: Global,
    report: &Report,
    class: Class,
    selection: &Value,
    out: &mut Output,
) -> Result<(), AllocError>
    ensures { OnOk result (has_float (view selection.now) ≡ false
        → out.new ≡ out.old ++ value_tokens (record_in_class (shown_plain report.now.prefer (view report.now.tree) class) class (view selection.now))) }
{
    out.begin_object()?;
    out.key("class")?;
    out.string(type_text(class))?;
    out.key("members")?;
    write_plain_object(alloc, report, class, selection, out)?;
    out.end_object()
}
