//! The members of an object that are told whole: all that mean something by themselves but the content of a ballot.
ghost use Rattle.std.specs.Prelude.{◌≡◌, ◌++◌, false, is_some, OnOk};
ghost use Rattle.serde_json.specs.Data.{Data, object};
ghost use Rattle.serde_json.specs.View.{members_view, view};
ghost use Rattle.serde_json.specs.Written.{has_float, members_have_float};
ghost use Rattle.erd_text.specs.Tokens.{members_tokens, value_tokens};
ghost use Rattle.erd_tables.specs.Table.{kind_of_member};
ghost use Rattle.erd_meaning.specs.Keys.{Preference};
ghost use Rattle.erd_shown.specs.ContentData.{members_in};
ghost use Rattle.erd_shown.specs.Shown.{shown_members};
ghost use Rattle.erd_shown.specs.SideValues.{is_told_whole, told_plain};
ghost use Rattle.erd_shown.specs.code.Writing.{member_told};

use crate::members::{is_written, write_plain_member};
use erd_meaning::Report;
use erd_tables::{Class, MemberKind, member_kind};
use erd_text::Output;
use serde_json::{Map, Value};
use std::alloc::{AllocError, Global};

/// Writes the object of the members, of an object of the class, that are told whole.
pub(crate) fn write_told_object(
    alloc: Global,
    report: &Report,
    class: Class,
    value: &Value,
    out: &mut Output,
) -> Result<(), AllocError>
    ensures { OnOk result (has_float (view value.now) ≡ false
        → out.new ≡ out.old
        ++ value_tokens (object (shown_members (told_plain report.now.prefer (view report.now.tree) class) (members_in (view value.now))))) }
{
    out.begin_object()?;
    match value {
        Value::Object(members) => write_told_members(alloc, report, class, members, out),
        _ => out.end_object(),
    }
}

/// Writes the members of an object of the class that are told whole, and the end of the object.
fn write_told_members(
    alloc: Global,
    report: &Report,
    class: Class,
    members: &Map<String, Value>,
    out: &mut Output,
) -> Result<(), AllocError>
    ensures { OnOk result (members_have_float (members_view members.now.entries) ≡ false
        → out.new ≡ out.old ++ members_tokens (shown_members (told_plain report.now.prefer (view report.now.tree) class) (members_view members.now.entries))) }
{
    for (name, member) in members.iter() {
        let name = name.as_str();
        write_told_member(alloc, report, class, name, member, out)?;
    }
    out.end_object()
}

/// Writes a member of an object of the class, if it is told whole.
fn write_told_member(
    alloc: Global,
    report: &Report,
    class: Class,
    name: &str,
    member: &Value,
    out: &mut Output,
) -> Result<(), AllocError>
    ensures { OnOk result (has_float (view member.now) ≡ false
        → out.new ≡ out.old ++ member_told name.now (told_plain report.now.prefer (view report.now.tree) class name.now (view member.now))) }
{
    if is_told_whole(class, name) {
        write_plain_member(alloc, report, class, name, member, out)
    } else {
        Ok(())
    }
}

/// Returns whether a member of an object of the class is told whole and means something by itself.
pub(crate) fn is_told(class: Class, name: &str, member: &Value) -> bool
    ensures { (π : Preference) (t : Data) → result ≡ is_some (told_plain π t class name.now (view member.now)) }
{
    if is_told_whole(class, name) {
        is_written(class, name, member)
    } else {
        false
    }
}

/// Returns whether members with this name, of objects of the class, are told whole.
fn is_told_whole(class: Class, name: &str) -> bool
    ensures { result ≡ is_told_whole (kind_of_member class name.now) }
{
    match member_kind(class, name) {
        MemberKind::Content => false,
        _ => true,
    }
}
