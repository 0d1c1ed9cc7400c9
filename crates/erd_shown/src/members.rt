ghost use Rattle.std.specs.Prelude.{◌≡◌, ◌++◌, false, is_some, OnOk};
ghost use Rattle.serde_json.specs.Data.{Data, object};
ghost use Rattle.serde_json.specs.View.{members_view, view};
ghost use Rattle.serde_json.specs.Written.{has_float, members_have_float};
ghost use Rattle.erd_text.specs.Tokens.{members_tokens, value_tokens};
ghost use Rattle.erd_meaning.specs.Keys.{Preference};
ghost use Rattle.erd_meaning.specs.Records.{is_in_envelope};
ghost use Rattle.erd_shown.specs.ContentData.{members_in};
ghost use Rattle.erd_shown.specs.Shown.{shown_members, shown_plain};
ghost use Rattle.erd_shown.specs.code.Writing.{member_told};

use crate::values::write_shown;
use erd_meaning::Report;
use erd_meaning::members::means_nothing;
use erd_tables::{Class, is_envelope, member_kind};
use erd_text::Output;
use serde_json::{Map, Value};
use std::alloc::{AllocError, Global};

/// Writes the object of the members, of an object of the class, that mean something by themselves.
pub(crate) fn write_plain_object(
    alloc: Global,
    report: &Report,
    class: Class,
    value: &Value,
    out: &mut Output,
) -> Result<(), AllocError>
    ensures { OnOk result (has_float (view value.now) ≡ false
        → out.new ≡ out.old
        ++ value_tokens (object (shown_members (shown_plain report.now.prefer (view report.now.tree) class) (members_in (view value.now))))) }
{
    out.begin_object()?;
    match value {
        Value::Object(members) => write_plain_members(alloc, report, class, members, out),
        _ => out.end_object(),
    }
}

/// Writes the members of an object of the class that mean something by themselves, and the end of the object.
fn write_plain_members(
    alloc: Global,
    report: &Report,
    class: Class,
    members: &Map<String, Value>,
    out: &mut Output,
) -> Result<(), AllocError>
    ensures { OnOk result (members_have_float (members_view members.now.entries) ≡ false
        → out.new ≡ out.old ++ members_tokens (shown_members (shown_plain report.now.prefer (view report.now.tree) class) (members_view members.now.entries))) }
{
    for (name, member) in members.iter() {
        let name = name.as_str();
        write_plain_member(alloc, report, class, name, member, out)?;
    }
    out.end_object()
}

/// Writes a member of an object of the class, if it means something by itself.
pub(crate) fn write_plain_member(
    alloc: Global,
    report: &Report,
    class: Class,
    name: &str,
    member: &Value,
    out: &mut Output,
) -> Result<(), AllocError>
    ensures { OnOk result (has_float (view member.now) ≡ false
        → out.new ≡ out.old ++ member_told name.now (shown_plain report.now.prefer (view report.now.tree) class name.now (view member.now))) }
{
    if is_written(class, name, member) {
        out.key(name)?;
        write_shown(alloc, report, member_kind(class, name), member, out)
    } else {
        Ok(())
    }
}

/// Returns whether a member of an object of the class means something by itself.
#[tactic(auto, using(crate::proofs::told::Records::shown_if_meant))]
pub(crate) fn is_written(class: Class, name: &str, member: &Value) -> bool
    ensures { (π : Preference) (t : Data) → result ≡ is_some (shown_plain π t class name.now (view member.now)) }
{
    if is_in_envelope(class, name) {
        false
    } else {
        !means_nothing(member_kind(class, name), member)
    }
}

/// Returns whether a member with this name, of an object of the class, is in the envelope, which is not part of what a report
/// means.
fn is_in_envelope(class: Class, name: &str) -> bool
    ensures { result ≡ is_in_envelope class name.now }
{
    match class {
        Class::ElectionReport => is_envelope(name),
        _ => false,
    }
}
