//! What one of two reports has where they differ: the value of a member, or the record of an object.
ghost use Rattle.std.specs.Prelude.{◌≡◌, ◌++◌, IfOk, OnOk, Some, codes, false, option_and_then, option_copied, option_map, string_bytes};
ghost use Rattle.std.specs.Str.{bytes_eq};
ghost use Rattle.serde_json.specs.Data.{Data};
ghost use Rattle.serde_json.specs.Find.{get};
ghost use Rattle.serde_json.specs.View.{view};
ghost use Rattle.serde_json.specs.Written.{compact_text, has_float};
ghost use Rattle.erd_text.specs.Tokens.{value_tokens};
ghost use Rattle.erd_shown.specs.KeyData.{shown_key};
ghost use Rattle.erd_shown.specs.Shown.{placed_in};
ghost use Rattle.erd_shown.specs.SideValues.{side_value, told_member, told_of_object, told_of_placed, told_plain, told_record};

mod key_places;
mod selections;
mod told_members;

use crate::keys::write_key;
use crate::objects::{PlacedObject, placed, write_head};
use crate::side_values::key_places::place_with_key;
pub use crate::side_values::selections::{contest_with_key, selection_value_text};
use crate::side_values::told_members::{is_told, write_told_object};
use crate::texts::text_of;
use crate::values::write_shown;
use erd_meaning::{Key, Report};
use erd_tables::{Class, Role, member_kind};
use erd_text::Output;
use serde_json::Value;
use std::alloc::{AllocError, Global};

/// Returns what a report has at a role and a key, as compact JSON: the value of the member with a name, or the record of the
/// object where no name is given. Returns `None` where the report has none.
///
/// Keys stand in place of references. The record has the class of the object, the key of the election that holds it, and its
/// members. The selections of a contest and the content of a ballot are left out: `selection_value_text` tells what a contest has
/// at the name of a selection, and `ballots_beside_text` the lines of ballots. The name `ElectionId` asks for the key of the
/// election that holds the object. The report itself has no key, and selections are not found by keys.
///
/// An election is sought in the order of the keys of elections, an object of a family by its key.
///
/// # Errors
///
/// `AllocError` if out of memory.
///
/// ```
/// let name = side_value_text(alloc, report, contest, key, Some("Name"))?;
/// assert_eq!(rt; name.ok_or("no name")?.as_str(), r#""Mayor""#);
/// ```
pub fn side_value_text(
    alloc: Global,
    report: &Report,
    role: Role,
    key: Option<&Key>,
    member: Option<&str>,
) -> Result<Option<String>, AllocError>
    ensures { IfOk result (λ text. option_map string_bytes text ≡ option_map compact_text
        (side_value report.now.prefer (view report.now.tree) role (option_copied key.entry) (option_copied member.entry))) }
{
    match place_with_key(report, role, key) {
        Some(place) => text_at(alloc, report, role, place, member),
        None => Ok(None),
    }
}

/// Returns the text of a member of the object with a role at a position, or that of its record.
fn text_at(
    alloc: Global,
    report: &Report,
    role: Role,
    position: usize,
    member: Option<&str>,
) -> Result<Option<String>, AllocError>
    ensures { IfOk result (λ text. option_map string_bytes text ≡ option_map compact_text
        (option_and_then (told_of_placed report.now.prefer (view report.now.tree) role (option_copied member.entry))
        (placed_in (view report.now.tree) role position))) }
{
    match placed(report, role, position) {
        Some(object) => object_text(alloc, report, &object, member),
        None => Ok(None),
    }
}

/// Returns the text of a member of an object, or that of its record.
fn object_text(
    alloc: Global,
    report: &Report,
    object: &PlacedObject,
    member: Option<&str>,
) -> Result<Option<String>, AllocError>
    ensures { IfOk result (λ text. has_float (view object.now.value.now) ≡ false → option_map string_bytes text ≡ option_map compact_text
        (told_of_object report.now.prefer (view report.now.tree) (option_copied member.entry) (option_copied object.now.holder)
        (view object.now.value.now) object.now.class)) }
{
    match member {
        Some(name) => member_text(alloc, report, object, name),
        None => {
            let text = record_text(alloc, report, object)?;
            Ok(Some(text))
        }
    }
}

/// Returns the text of the record of an object.
fn record_text(alloc: Global, report: &Report, object: &PlacedObject) -> Result<String, AllocError>
    ensures { IfOk result (λ text. has_float (view object.now.value.now) ≡ false → string_bytes text
        ≡ compact_text (told_record report.now.prefer (view report.now.tree) (option_copied object.now.holder) (view object.now.value.now) object.now.class)) }
{
    let mut out = Output::new(alloc);
    write_record(alloc, report, object, &mut out)?;
    text_of(out)
}

/// Writes the record of an object.
fn write_record(
    alloc: Global,
    report: &Report,
    object: &PlacedObject,
    out: &mut Output,
) -> Result<(), AllocError>
    ensures { OnOk result (has_float (view object.now.value.now) ≡ false → out.new ≡ out.old
        ++ value_tokens (told_record report.now.prefer (view report.now.tree) (option_copied object.now.holder) (view object.now.value.now) object.now.class)) }
{
    write_head(object, out)?;
    out.key("members")?;
    write_told_object(alloc, report, object.class, object.value, out)?;
    out.end_object()
}

/// Returns the text of the member of an object with a name, if it is told.
fn member_text(
    alloc: Global,
    report: &Report,
    object: &PlacedObject,
    name: &str,
) -> Result<Option<String>, AllocError>
    ensures { IfOk result (λ text. has_float (view object.now.value.now) ≡ false → option_map string_bytes text ≡ option_map compact_text
        (told_member report.now.prefer (view report.now.tree) (option_copied object.now.holder) (view object.now.value.now) object.now.class name.now)) }
{
    if is_election(name) {
        key_text(alloc, object.holder)
    } else {
        own_text(alloc, report, object, name)
    }
}

/// Returns whether a name asks for the election that holds an object.
fn is_election(name: &str) -> bool
    ensures { result ≡ bytes_eq name.now (codes "ElectionId") }
{
    name == "ElectionId"
}

/// Returns the text of a key, if there is one.
fn key_text(alloc: Global, key: Option<&Key>) -> Result<Option<String>, AllocError>
    ensures { IfOk result (λ text. option_map string_bytes text ≡ option_map compact_text (option_map shown_key (option_copied key.entry))) }
{
    match key {
        Some(key) => {
            let text = text_of_key(alloc, key)?;
            Ok(Some(text))
        }
        None => Ok(None),
    }
}

/// Returns the text of a key.
fn text_of_key(alloc: Global, key: &Key) -> Result<String, AllocError>
    ensures { IfOk result (λ text. string_bytes text ≡ compact_text (shown_key key.now)) }
{
    let mut out = Output::new(alloc);
    write_key(key, &mut out)?;
    text_of(out)
}

/// Returns the text of the own member of an object with a name, if it is told.
fn own_text(
    alloc: Global,
    report: &Report,
    object: &PlacedObject,
    name: &str,
) -> Result<Option<String>, AllocError>
    ensures { IfOk result (λ text. has_float (view object.now.value.now) ≡ false → option_map string_bytes text ≡ option_map compact_text
        (option_and_then (told_plain report.now.prefer (view report.now.tree) object.now.class name.now) (get name.now (view object.now.value.now)))) }
{
    match object.value.get(name) {
        Some(member) => value_text(alloc, report, object.class, name, member),
        None => Ok(None),
    }
}

/// Returns the text of the value of a member of an object of the class, if it is told.
pub(crate) fn value_text(
    alloc: Global,
    report: &Report,
    class: Class,
    name: &str,
    member: &Value,
) -> Result<Option<String>, AllocError>
    ensures { IfOk result (λ text. has_float (view member.now) ≡ false → option_map string_bytes text ≡ option_map compact_text
        (told_plain report.now.prefer (view report.now.tree) class name.now (view member.now))) }
{
    if is_told(class, name, member) {
        let text = told_text(alloc, report, class, name, member)?;
        Ok(Some(text))
    } else {
        Ok(None)
    }
}

/// Returns the text of the value of a member of an object of the class that is told.
fn told_text(
    alloc: Global,
    report: &Report,
    class: Class,
    name: &str,
    member: &Value,
) -> Result<String, AllocError>
    ensures { IfOk result (λ text. has_float (view member.now) ≡ false → (d : Data)
        → told_plain report.now.prefer (view report.now.tree) class name.now (view member.now) ≡ Some d → string_bytes text ≡ compact_text d) }
{
    let mut out = Output::new(alloc);
    write_shown(alloc, report, member_kind(class, name), member, &mut out)?;
    text_of(out)
}
