//! What a contest of one of two reports has where its selections differ: the value of a member of a selection, or its record.
ghost use Rattle.std.specs.Prelude.{◌≡◌, ◌++◌, IfOk, IfSome, OnOk, false, option_and_then, option_copied, option_map, slice_get, string_bytes};
ghost use Rattle.serde_json.specs.Find.{get};
ghost use Rattle.serde_json.specs.View.{view};
ghost use Rattle.serde_json.specs.Written.{compact_text, has_float};
ghost use Rattle.erd_tables.specs.declared.class.Family.TheVariants as family;
ghost use Rattle.erd_tables.specs.declared.class.Role.TheVariants as role;
ghost use Rattle.erd_text.specs.Tokens.{value_tokens};
ghost use Rattle.erd_meaning.specs.Objects.{contests};
ghost use Rattle.erd_shown.specs.Shown.{record_in_class};
ghost use Rattle.erd_shown.specs.SideValues.{object_with_key, selection_with_name, told_at_name, told_in_class, told_of_selection, told_plain};

use crate::side_values::key_places::place_with_key;
use crate::side_values::told_members::write_told_object;
use crate::side_values::value_text;
use crate::texts::text_of;
use erd_check::values::class_of_object;
use erd_meaning::{Key, Report, SelectionName};
use erd_tables::{Class, Family, Role, type_text};
use erd_text::Output;
use serde_json::Value;
use std::alloc::{AllocError, Global};

/// Returns the position of the contest of a report with a key, if there is one. `selection_value_text` takes it, so that the
/// contest is sought once for all its selections.
///
/// ```
/// assert_eq!(rt; contest_with_key(report, key), Some(0));
/// ```
pub fn contest_with_key(report: &Report, key: Option<&Key>) -> Option<usize>
    ensures { option_and_then (slice_get (contests (view report.now.tree))) result ≡ object_with_key report.now.prefer (view report.now.tree)
        (role.OfFamily family.Contest) (option_copied key.entry) }
{
    place_with_key(report, Role::OfFamily(Family::Contest), key)
}

/// Returns what the contest at a position of a report has at the name of a selection, as compact JSON: the value of the member
/// with a name, or the record of the selection where no name is given. Returns `None` where there is none.
///
/// Keys stand in place of references. The record has the class of the selection and its members. It takes as long as the name of
/// the selection and what is returned are, and not as long as the contest is.
///
/// # Errors
///
/// `AllocError` if out of memory.
///
/// ```
/// let flag = selection_value_text(alloc, report, contest, name, Some("IsWriteIn"))?;
/// assert_eq!(rt; flag.ok_or("no flag")?.as_str(), "true");
/// ```
pub fn selection_value_text(
    alloc: Global,
    report: &Report,
    contest: Option<usize>,
    name: &SelectionName,
    member: Option<&str>,
) -> Result<Option<String>, AllocError>
    ensures { IfOk result (λ text. option_map string_bytes text ≡ option_map compact_text
        (option_and_then (told_at_name report.now.prefer (view report.now.tree) name.now (option_copied member.entry))
        (option_and_then (slice_get (contests (view report.now.tree))) contest))) }
{
    match contest {
        Some(contest) => text_in_contest(alloc, report, contest, name, member),
        None => Ok(None),
    }
}

/// Returns the text of a member of the selection with a name in the contest at a position, or that of its record.
fn text_in_contest(
    alloc: Global,
    report: &Report,
    contest: usize,
    name: &SelectionName,
    member: Option<&str>,
) -> Result<Option<String>, AllocError>
    ensures { IfOk result (λ text. option_map string_bytes text ≡ option_map compact_text
        (option_and_then (told_at_name report.now.prefer (view report.now.tree) name.now (option_copied member.entry))
        (slice_get (contests (view report.now.tree)) contest))) }
{
    match selection_with_name(report, contest, name) {
        Some(selection) => selection_text(alloc, report, selection, member),
        None => Ok(None),
    }
}

/// Returns the selection with a name in the contest at a position, if there is one.
fn selection_with_name<'a>(
    report: &'a Report,
    contest: usize,
    name: &SelectionName,
) -> Option<&'a Value>
    ensures found { option_map (λ v. view v.now) result ≡ option_and_then (λ o. selection_with_name report.now.prefer (view report.now.tree) name.now o.value)
        (slice_get (contests (view report.now.tree)) contest) }
    ensures whole { IfSome result (λ v. has_float (view v.now) ≡ false) }
{
    let _tree = report.tree();
    match report.find_selection(contest, name) {
        Some(position) => report.object(Family::Selection, position),
        None => None,
    }
}

/// Returns the text of a member of a selection, or that of its record.
fn selection_text(
    alloc: Global,
    report: &Report,
    selection: &Value,
    member: Option<&str>,
) -> Result<Option<String>, AllocError>
    ensures { IfOk result (λ text. has_float (view selection.now) ≡ false → option_map string_bytes text ≡ option_map compact_text
        (told_of_selection report.now.prefer (view report.now.tree) (option_copied member.entry) (view selection.now))) }
{
    match class_of_object(Role::OfFamily(Family::Selection), selection) {
        Some(class) => text_in_class(alloc, report, class, selection, member),
        None => Ok(None),
    }
}

/// Returns the text of a member of a selection of the class, or that of its record.
fn text_in_class(
    alloc: Global,
    report: &Report,
    class: Class,
    selection: &Value,
    member: Option<&str>,
) -> Result<Option<String>, AllocError>
    ensures { IfOk result (λ text. has_float (view selection.now) ≡ false → option_map string_bytes text ≡ option_map compact_text
        (told_in_class report.now.prefer (view report.now.tree) (option_copied member.entry) (view selection.now) class)) }
{
    match member {
        Some(name) => member_text(alloc, report, class, selection, name),
        None => {
            let text = record_text(alloc, report, class, selection)?;
            Ok(Some(text))
        }
    }
}

/// Returns the text of the member of a selection of the class with a name, if it is told.
fn member_text(
    alloc: Global,
    report: &Report,
    class: Class,
    selection: &Value,
    name: &str,
) -> Result<Option<String>, AllocError>
    ensures { IfOk result (λ text. has_float (view selection.now) ≡ false → option_map string_bytes text ≡ option_map compact_text
        (option_and_then (told_plain report.now.prefer (view report.now.tree) class name.now) (get name.now (view selection.now)))) }
{
    match selection.get(name) {
        Some(member) => value_text(alloc, report, class, name, member),
        None => Ok(None),
    }
}

/// Returns the text of the record of a selection of the class.
fn record_text(
    alloc: Global,
    report: &Report,
    class: Class,
    selection: &Value,
) -> Result<String, AllocError>
    ensures { IfOk result (λ text. has_float (view selection.now) ≡ false → string_bytes text
        ≡ compact_text (record_in_class (told_plain report.now.prefer (view report.now.tree) class) class (view selection.now))) }
{
    let mut out = Output::new(alloc);
    write_record(alloc, report, class, selection, &mut out)?;
    text_of(out)
}

/// Writes the record of a selection of the class: the class, and the members that are told.
fn write_record(
    alloc: Global,
    report: &Report,
    class: Class,
    selection: &Value,
    out: &mut Output,
) -> Result<(), AllocError>
    ensures { OnOk result (has_float (view selection.now) ≡ false → out.new ≡ out.old
        ++ value_tokens (record_in_class (told_plain report.now.prefer (view report.now.tree) class) class (view selection.now))) }
{
    out.begin_object()?;
    out.key("class")?;
    out.string(type_text(class))?;
    out.key("members")?;
    write_told_object(alloc, report, class, selection, out)?;
    out.end_object()
}
