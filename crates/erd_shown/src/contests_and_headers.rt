ghost use Rattle.std.specs.Prelude.{◌≡◌, ◌++◌, false, map, OnOk, codes};
ghost use Rattle.serde_json.specs.Data.{array, no_items};
ghost use Rattle.serde_json.specs.View.{items_view, members_view, view};
ghost use Rattle.serde_json.specs.Written.{has_float, items_have_float, members_have_float};
ghost use Rattle.erd_check.specs.Values.{entries_at};
ghost use Rattle.erd_text.specs.Tokens.{items_tokens, members_tokens, value_tokens};
ghost use Rattle.erd_meaning.specs.Records.{class_of_node, is_header_class};
ghost use Rattle.erd_shown.specs.KeyData.{array_of};
ghost use Rattle.erd_shown.specs.ContentData.{carried_data, carried_in, content_data, contest_data, header_data, inside_data, is_carried, members_in};
ghost use Rattle.erd_shown.specs.ContentData.{node_data, nodes_data, shown_name_named};
ghost use Rattle.erd_shown.specs.code.Writing.{member_if};

use crate::lookups::name_named;
use crate::names::write_name_or_null;
use crate::references::write_key_named;
use erd_check::values::{class_of_object, entries_at, text_at};
use erd_meaning::Report;
use erd_tables::{Class, Family, MemberKind, Role, member_kind};
use erd_text::{Output, write_value};
use serde_json::{Map, Value};
use std::alloc::AllocError;

/// Writes a list of contests and headers, at every depth of headers.
#[cycle(content)]
pub(crate) fn write_content(
    report: &Report,
    value: &Value,
    out: &mut Output,
) -> Result<(), AllocError>
    ensures { OnOk result (has_float (view value.now) ≡ false → out.new ≡ out.old
        ++ value_tokens (content_data report.now.prefer (view report.now.tree) (view value.now))) }
{
    out.begin_array()?;
    match value {
        Value::Array(items) => write_nodes(report, items, out),
        _ => out.end_array(),
    }
}

/// Writes the contests and headers of an array, and its end.
#[cycle(content)]
fn write_nodes(report: &Report, items: &Vec<Value>, out: &mut Output) -> Result<(), AllocError>
    ensures { OnOk result (items_have_float (items_view items.now.items) ≡ false → out.new ≡ out.old
        ++ items_tokens (nodes_data report.now.prefer (view report.now.tree) (items_view items.now.items))) }
{
    for item in items {
        write_node(report, item, out)?;
    }
    out.end_array()
}

/// Writes a contest or a header.
#[cycle(content)]
fn write_node(report: &Report, value: &Value, out: &mut Output) -> Result<(), AllocError>
    ensures { OnOk result (has_float (view value.now) ≡ false → out.new ≡ out.old
        ++ value_tokens (node_data report.now.prefer (view report.now.tree) (view value.now))) }
{
    if is_header(value) {
        write_header(report, value, out)
    } else {
        write_contest(report, value, out)
    }
}

/// Writes a header.
#[cycle(content)]
fn write_header(report: &Report, value: &Value, out: &mut Output) -> Result<(), AllocError>
    ensures { OnOk result (has_float (view value.now) ≡ false
        → out.new ≡ out.old
        ++ value_tokens
        (header_data report.now.prefer (view report.now.tree) (view value.now)
        (inside_data report.now.prefer (view report.now.tree) (members_in (view value.now))))) }
{
    out.begin_object()?;
    out.key("carried")?;
    write_carried(value, out)?;
    out.key("content")?;
    write_inside(report, value, out)?;
    out.key("header")?;
    write_key_named(report, Family::Header, text_at(value, "HeaderId"), out)?;
    out.end_object()
}

/// Writes what stands inside a header.
#[cycle(content)]
fn write_inside(report: &Report, value: &Value, out: &mut Output) -> Result<(), AllocError>
    ensures { OnOk result (has_float (view value.now) ≡ false → out.new ≡ out.old
        ++ value_tokens (inside_data report.now.prefer (view report.now.tree) (members_in (view value.now)))) }
{
    match value.get("OrderedContent") {
        Some(content) => write_content(report, content, out),
        None => write_nothing(out),
    }
}

/// Writes an empty array.
pub(crate) fn write_nothing(out: &mut Output) -> Result<(), AllocError>
    ensures { OnOk result (out.new ≡ out.old ++ value_tokens (array no_items)) }
{
    out.begin_array()?;
    out.end_array()
}

/// Writes a contest.
fn write_contest(report: &Report, value: &Value, out: &mut Output) -> Result<(), AllocError>
    ensures { OnOk result (has_float (view value.now) ≡ false → out.new ≡ out.old
        ++ value_tokens (contest_data report.now.prefer (view report.now.tree) (view value.now))) }
{
    out.begin_object()?;
    out.key("carried")?;
    write_carried(value, out)?;
    out.key("contest")?;
    write_key_named(report, Family::Contest, text_at(value, "ContestId"), out)?;
    out.key("selections")?;
    write_selections(report, value, out)?;
    out.end_object()
}

/// Writes the names of the selections that a contest on a ballot lists.
fn write_selections(report: &Report, value: &Value, out: &mut Output) -> Result<(), AllocError>
    ensures { OnOk result (out.new ≡ out.old ++ value_tokens
        (array_of (map (shown_name_named report.now.prefer (view report.now.tree)) (entries_at (codes "OrderedContestSelectionIds") (view value.now))))) }
{
    write_names(report, entries_at(value, "OrderedContestSelectionIds"), out)
}

/// Writes the names of the selections that references name, in their order.
fn write_names(report: &Report, values: &[Value], out: &mut Output) -> Result<(), AllocError>
    ensures { OnOk result (out.new ≡ out.old ++ value_tokens
        (array_of (map (λ v. shown_name_named report.now.prefer (view report.now.tree) (view v)) values.now))) }
{
    out.begin_array()?;
    for value in values {
        write_name(report, value, out)?;
    }
    out.end_array()
}

/// Writes the name of the selection that a reference names, or null.
fn write_name(report: &Report, value: &Value, out: &mut Output) -> Result<(), AllocError>
    ensures { OnOk result (out.new ≡ out.old ++ value_tokens (shown_name_named report.now.prefer (view report.now.tree) (view value.now))) }
{
    match value.as_str() {
        Some(id) => write_name_or_null(name_named(report, id), out),
        None => out.null(),
    }
}

/// Returns whether a node is a header.
pub(crate) fn is_header(value: &Value) -> bool
    ensures { result ≡ is_header_class (class_of_node (view value.now)) }
{
    matches!(
        class_of_object(Role::Content, value),
        Some(Class::OrderedHeader)
    )
}

/// Writes the object of the members that a contest or a header carries.
fn write_carried(value: &Value, out: &mut Output) -> Result<(), AllocError>
    ensures { OnOk result (has_float (view value.now) ≡ false → out.new ≡ out.old ++ value_tokens (carried_data (view value.now))) }
{
    out.begin_object()?;
    match value {
        Value::Object(members) => {
            write_carried_in(class_of_object(Role::Content, value), members, out)
        }
        _ => out.end_object(),
    }
}

/// Writes the carried members, and the end of the object.
fn write_carried_in(
    class: Option<Class>,
    members: &Map<String, Value>,
    out: &mut Output,
) -> Result<(), AllocError>
    ensures { OnOk result (members_have_float (members_view members.now.entries) ≡ false → out.new ≡ out.old
        ++ members_tokens (carried_in class (members_view members.now.entries))) }
{
    for (name, member) in members.iter() {
        let name = name.as_str();
        write_if_carried(class, name, member, out)?;
    }
    out.end_object()
}

/// Writes a member, if the class carries it.
fn write_if_carried(
    class: Option<Class>,
    name: &str,
    value: &Value,
    out: &mut Output,
) -> Result<(), AllocError>
    ensures { OnOk result (has_float (view value.now) ≡ false → out.new ≡ out.old ++ member_if (is_carried class name.now) name.now (view value.now)) }
{
    if is_carried(class, name) {
        out.key(name)?;
        write_value(value, out)
    } else {
        Ok(())
    }
}

/// Returns whether the class carries a member with this name.
pub(crate) fn is_carried(class: Option<Class>, name: &str) -> bool
    ensures { result ≡ is_carried class name.now }
{
    match class {
        Some(class) => matches!(member_kind(class, name), MemberKind::Carried),
        None => false,
    }
}
