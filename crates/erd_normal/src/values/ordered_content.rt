ghost use Rattle.std.specs.Prelude.{◌≡◌, ◌++◌, Some, false, option_map, is_some, OnOk};
ghost use Rattle.erd_normal.specs.Words.{Data, view, items_view, members_view, has_float, items_have_float, members_have_float};
ghost use Rattle.erd_normal.specs.Words.{kind_of_member, Preference, items_tokens, members_tokens, value_tokens};
ghost use Rattle.erd_normal.specs.code.NormalTree.{normal_content, normal_node, normal_node_members, normal_node_value, normal_nodes};
ghost use Rattle.erd_normal.specs.code.Building.{member_tokens};

use crate::values::value_of_kind::{is_kept, write_of_kind};
use crate::writer::Writer;
use erd_check::values::{class_of_object, is_empty_array};
use erd_tables::{Class, MemberKind, Role, member_kind};
use erd_text::{Output, write_value};
use serde_json::{Map, Value};
use std::alloc::AllocError;

/// Writes the canonical list for a list of contests and headers, at every depth of headers.
#[cycle(content)]
pub(crate) fn write_content(
    writer: &Writer,
    value: &Value,
    out: &mut Output,
) -> Result<(), AllocError>
    ensures { OnOk result (has_float (view value.now) ≡ false
        → out.new ≡ out.old ++ value_tokens (normal_content writer.now.prefer (view writer.now.tree) (view value.now))) }
{
    match value {
        Value::Array(items) => {
            out.begin_array()?;
            write_nodes(writer, items, out)
        }
        other => write_value(other, out),
    }
}

/// Writes the canonical contests and headers of an array, and its end.
#[cycle(content)]
fn write_nodes(writer: &Writer, items: &Vec<Value>, out: &mut Output) -> Result<(), AllocError>
    ensures { OnOk result (items_have_float (items_view items.now.items) ≡ false
        → out.new ≡ out.old ++ items_tokens (normal_nodes writer.now.prefer (view writer.now.tree) (items_view items.now.items))) }
{
    for item in items {
        write_node(writer, item, out)?;
    }
    out.end_array()
}

/// Writes the canonical node for a contest or a header.
#[cycle(content)]
fn write_node(writer: &Writer, value: &Value, out: &mut Output) -> Result<(), AllocError>
    ensures { OnOk result (has_float (view value.now) ≡ false
        → out.new ≡ out.old ++ value_tokens (normal_node writer.now.prefer (view writer.now.tree) (view value.now))) }
{
    match value {
        Value::Object(members) => {
            let class = class_of_object(Role::Content, value);
            out.begin_object()?;
            write_node_members(writer, class, members, out)
        }
        other => write_value(other, out),
    }
}

/// Writes the canonical members of a contest or a header, and its end.
#[cycle(content)]
fn write_node_members(
    writer: &Writer,
    class: Option<Class>,
    members: &Map<String, Value>,
    out: &mut Output,
) -> Result<(), AllocError>
    ensures { OnOk result (members_have_float (members_view members.now.entries) ≡ false
        → out.new ≡ out.old ++ members_tokens (normal_node_members writer.now.prefer (view writer.now.tree) class (members_view members.now.entries))) }
{
    for (name, member) in members.iter() {
        let name = name.as_str();
        write_node_member(writer, kind_in(class, name), name, member, out)?;
    }
    out.end_object()
}

/// Writes a member of a contest or a header, if it is kept.
#[cycle(content)]
fn write_node_member(
    writer: &Writer,
    kind: Option<MemberKind>,
    name: &str,
    value: &Value,
    out: &mut Output,
) -> Result<(), AllocError>
    ensures { OnOk result (has_float (view value.now) ≡ false → out.new ≡ out.old ++ member_tokens name.now
        (normal_node_value writer.now.prefer (view writer.now.tree) kind (view value.now)
        (normal_content writer.now.prefer (view writer.now.tree) (view value.now)))) }
{
    if is_kept_in_node(kind, value) {
        out.key(name)?;
        write_node_value(writer, kind, value, out)
    } else {
        Ok(())
    }
}

/// Writes the canonical value of a member of a contest or a header that is kept.
#[cycle(content)]
fn write_node_value(
    writer: &Writer,
    kind: Option<MemberKind>,
    value: &Value,
    out: &mut Output,
) -> Result<(), AllocError>
    ensures { OnOk result (has_float (view value.now) ≡ false → (d : Data)
        → normal_node_value writer.now.prefer (view writer.now.tree) kind (view value.now)
        (normal_content writer.now.prefer (view writer.now.tree) (view value.now)) ≡ Some d
        → out.new ≡ out.old ++ value_tokens d) }
{
    match kind {
        Some(kind) => write_listed(writer, kind, value, out),
        None => write_value(value, out),
    }
}

/// Writes the canonical value of a member of this kind of a contest or a header. The member is kept.
#[cycle(content)]
#[tactic(auto, using(crate::proofs::Common::unless_by_test))]
fn write_listed(
    writer: &Writer,
    kind: MemberKind,
    value: &Value,
    out: &mut Output,
) -> Result<(), AllocError>
    ensures { OnOk result (has_float (view value.now) ≡ false → (d : Data)
        → normal_node_value writer.now.prefer (view writer.now.tree) (Some kind) (view value.now)
        (normal_content writer.now.prefer (view writer.now.tree) (view value.now)) ≡ Some d
        → out.new ≡ out.old ++ value_tokens d) }
{
    match kind {
        MemberKind::Content => write_content(writer, value, out),
        _ => write_of_kind(writer, kind, value, out),
    }
}

/// Returns whether a member of a contest or a header is kept. `kind` is what the table gives it.
fn is_kept_in_node(kind: Option<MemberKind>, value: &Value) -> bool
    ensures { (π : Preference) (t inside : Data) → result ≡ is_some (normal_node_value π t kind (view value.now) inside) }
{
    match kind {
        Some(kind) => is_listed_kept(kind, value),
        None => true,
    }
}

/// Returns whether a member of this kind of a contest or a header is kept.
#[tactic(auto, using(crate::proofs::Common::unless_by_test))]
fn is_listed_kept(kind: MemberKind, value: &Value) -> bool
    ensures { (π : Preference) (t inside : Data) → result ≡ is_some (normal_node_value π t (Some kind) (view value.now) inside) }
{
    match kind {
        MemberKind::Content => !is_empty_array(value),
        _ => is_kept(kind, value),
    }
}

/// Returns the kind that the table gives a member of an object, if the object has a class.
fn kind_in(class: Option<Class>, name: &str) -> Option<MemberKind>
    ensures { result ≡ option_map (λ c. kind_of_member c name.now) class }
{
    match class {
        Some(class) => Some(member_kind(class, name)),
        None => None,
    }
}
