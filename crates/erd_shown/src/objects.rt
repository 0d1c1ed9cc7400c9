ghost use Rattle.std.specs.Prelude.{◌≡◌, ℕ, ◌++◌, ◌∷◌, List, codes, None, Option, Some, IfSome, false, option_and_then, option_copied, option_map, OnOk};
ghost use Rattle.json.specs.Token.{begin_object, key, string as text};
ghost use Rattle.serde_json.specs.Data.{null, object as json_object};
ghost use Rattle.serde_json.specs.View.{members_view, view};
ghost use Rattle.serde_json.specs.Written.{has_float, members_have_float};
ghost use Rattle.erd_text.specs.Tokens.{members_tokens, value_tokens};
ghost use Rattle.erd_tables.specs.Classes.{text_of_class};
ghost use Rattle.erd_tables.specs.Table.{kind_of_member};
ghost use Rattle.erd_tables.specs.declared.class.Family.TheVariants as family;
ghost use Rattle.erd_tables.specs.declared.member.MemberKind.TheVariants as kind;
ghost use Rattle.erd_check.specs.Values.{entries_of};
ghost use Rattle.erd_meaning.specs.Objects.{Placed};
ghost use Rattle.erd_shown.specs.KeyData.{shown_key_or_null};
ghost use Rattle.erd_shown.specs.ContentData.{members_in};
ghost use Rattle.erd_shown.specs.Shown.{holder_key, object_data_in, object_in_class, placed_in, shown_selections, shown_member, shown_members};
ghost use Rattle.erd_meaning.specs.Records.{unless_empty};
ghost use Rattle.erd_shown.specs.SideValues.{told_of_object, told_of_placed};
ghost use Rattle.erd_shown.specs.code.Selections.{AreNamedFrom, HoldNamed, is_selections};
ghost use Rattle.erd_shown.specs.code.Writing.{member_told};

use crate::keys::write_key_or_null;
use crate::members::write_plain_member;
use crate::selections::write_selections;
use erd_check::values::{class_of_object, entries_of, is_empty_array};
use erd_meaning::{Key, Report};
use erd_tables::{Class, Family, MemberKind, Role, member_kind, type_text};
use erd_text::Output;
use serde_json::{Map, Value};
use std::alloc::{AllocError, Global};

/// An object of a report.
#[derive(Drop)]
pub(crate) struct PlacedObject<'a> {
    pub(crate) class: Class,
    /// The key of the election that holds it.
    pub(crate) holder: Option<&'a Key>,
    /// The position of the first of its selections in the report, if it is a contest.
    first_selection: usize,
    pub(crate) value: &'a Value,
}

/// Writes what the object with a role at a position means, as JSON: its class, the key of the election that holds it, and its
/// members, with keys in place of references. Writes null if there is no such object. The report itself has position 0.
///
/// # Errors
///
/// `AllocError` if out of memory.
///
/// ```
/// write_object(alloc, report, Role::OfFamily(Family::Header), 0, &mut out)?;
/// assert_eq!(rt; out.into_text().as_slice(), b"null".as_slice());
/// ```
pub fn write_object(
    alloc: Global,
    report: &Report,
    role: Role,
    position: usize,
    out: &mut Output,
) -> Result<(), AllocError>
    ensures { OnOk result (out.new ≡ out.old ++ value_tokens (object_data_in report.now.prefer (view report.now.tree) role position)) }
{
    match placed(report, role, position) {
        Some(object) => write_placed(alloc, report, &object, out),
        None => out.null(),
    }
}

/// Returns the object with a role at a position, if there is one whose class has the role.
pub(crate) fn placed<'a>(
    report: &'a Report,
    role: Role,
    position: usize,
) -> Option<PlacedObject<'a>>
    ensures none { result ≡ None → object_data_in report.now.prefer (view report.now.tree) role position ≡ null }
    ensures some { IfSome result (λ object. object_data_in report.now.prefer (view report.now.tree) role position
        ≡ object_in_class report.now.prefer (view report.now.tree) (option_copied object.holder) (view object.value.now) object.class) }
    ensures untold { result ≡ None → (what : Option (List ℕ)) → option_and_then (told_of_placed report.now.prefer (view report.now.tree) role what)
        (placed_in (view report.now.tree) role position) ≡ None }
    ensures told { IfSome result (λ object. (what : Option (List ℕ)) → option_and_then (told_of_placed report.now.prefer (view report.now.tree) role what)
        (placed_in (view report.now.tree) role position)
        ≡ told_of_object report.now.prefer (view report.now.tree) what (option_copied object.holder) (view object.value.now) object.class) }
    ensures named { IfSome result (λ object. HoldNamed report.now.prefer (view report.now.tree) object.first_selection object.class
        (members_in (view object.value.now))) }
    ensures whole { IfSome result (λ object. has_float (view object.value.now) ≡ false) }
{
    let tree = report.tree();
    let value = value_at(report, tree, role, position)?;
    let class = class_of_object(role, value)?;
    let holder = holder(report, role, position);
    let first_selection = report.first_selection(position);
    Some(PlacedObject {
        class,
        holder,
        first_selection,
        value,
    })
}

/// Returns the value of the object with a role at a position of the report that has this tree, if there is one.
pub(crate) fn value_at<'a>(
    report: &'a Report,
    tree: &'a Value,
    role: Role,
    position: usize,
) -> Option<&'a Value>
    requires same { tree.now ≡ report.now.tree }
    ensures { option_map (λ v. view v.now) result ≡ option_map (λ o. o.value) (placed_in (view report.now.tree) role position) }
{
    match role {
        Role::OfFamily(family) => report.object(family, position),
        Role::Election => report.election_at(position),
        Role::Report if position == 0 => Some(tree),
        _ => None,
    }
}

/// Returns the key of the election that holds the object with a role at a position, if there is one with a key.
pub(crate) fn holder<'a>(report: &'a Report, role: Role, position: usize) -> Option<&'a Key>
    ensures { (o : Placed) → placed_in (view report.now.tree) role position ≡ Some o → option_copied result ≡ holder_key report.now.prefer
        (view report.now.tree) role o }
{
    match role {
        Role::OfFamily(family) => match report.election_of(family, position) {
            Some(election) => report.election_key(election),
            None => None,
        },
        _ => None,
    }
}

/// Writes an object: its class, the key of its election, and its members.
fn write_placed(
    alloc: Global,
    report: &Report,
    object: &PlacedObject,
    out: &mut Output,
) -> Result<(), AllocError>
    ensures { OnOk result (HoldNamed report.now.prefer (view report.now.tree) object.now.first_selection object.now.class
        (members_in (view object.now.value.now)) → has_float (view object.now.value.now) ≡ false
        → out.new ≡ out.old ++ value_tokens (object_in_class report.now.prefer (view report.now.tree) (option_copied object.now.holder)
        (view object.now.value.now) object.now.class)) }
{
    write_head(object, out)?;
    out.key("members")?;
    write_members_of(alloc, report, object, out)?;
    out.end_object()
}

/// Writes the start of an object, its class, and the key of its election.
pub(crate) fn write_head(object: &PlacedObject, out: &mut Output) -> Result<(), AllocError>
    ensures { OnOk result (out.new ≡ out.old ++ begin_object ∷ key (codes "class") ∷ text (text_of_class object.now.class) ∷ key (codes "election")
        ∷ value_tokens (shown_key_or_null (option_copied object.now.holder))) }
{
    out.begin_object()?;
    out.key("class")?;
    out.string(type_text(object.class))?;
    out.key("election")?;
    write_key_or_null(object.holder, out)
}

/// Writes the object of the members of an object that mean something.
fn write_members_of(
    alloc: Global,
    report: &Report,
    object: &PlacedObject,
    out: &mut Output,
) -> Result<(), AllocError>
    ensures { OnOk result (HoldNamed report.now.prefer (view report.now.tree) object.now.first_selection object.now.class
        (members_in (view object.now.value.now)) → has_float (view object.now.value.now) ≡ false
        → out.new ≡ out.old
        ++ value_tokens
        (json_object (shown_members (shown_member report.now.prefer (view report.now.tree) object.now.class) (members_in (view object.now.value.now))))) }
{
    out.begin_object()?;
    match object.value {
        Value::Object(members) => write_members(alloc, report, object, members, out),
        _ => out.end_object(),
    }
}

/// Writes the members of an object that mean something, and the end of the object.
fn write_members(
    alloc: Global,
    report: &Report,
    object: &PlacedObject,
    members: &Map<String, Value>,
    out: &mut Output,
) -> Result<(), AllocError>
    ensures { OnOk result (HoldNamed report.now.prefer (view report.now.tree) object.now.first_selection object.now.class (members_view members.now.entries)
        → members_have_float (members_view members.now.entries) ≡ false
        → out.new ≡ out.old ++ members_tokens (shown_members (shown_member report.now.prefer (view report.now.tree) object.now.class)
        (members_view members.now.entries))) }
{
    for (name, member) in members.iter() {
        let name = name.as_str();
        write_member(alloc, report, object, name, member, out)?;
    }
    out.end_object()
}

/// Writes a member, if it means something.
fn write_member(
    alloc: Global,
    report: &Report,
    object: &PlacedObject,
    name: &str,
    member: &Value,
    out: &mut Output,
) -> Result<(), AllocError>
    ensures { OnOk result ((kind_of_member object.now.class name.now ≡ kind.Keyed family.Selection → AreNamedFrom report.now.prefer (view report.now.tree)
        object.now.first_selection (entries_of (view member.now)))
        → has_float (view member.now) ≡ false
        → out.new ≡ out.old ++ member_told name.now (shown_member report.now.prefer (view report.now.tree) object.now.class name.now (view member.now))) }
{
    if holds_selections(object.class, name) {
        write_selections_member(alloc, report, object.first_selection, name, member, out)
    } else {
        write_plain_member(alloc, report, object.class, name, member, out)
    }
}

/// Writes the member that holds the selections of a contest, unless it is empty. The first of them has the position `start` in
/// the report.
#[tactic(auto, using(crate::proofs::EmptyArrays::unless_by_test))]
fn write_selections_member(
    alloc: Global,
    report: &Report,
    start: usize,
    name: &str,
    member: &Value,
    out: &mut Output,
) -> Result<(), AllocError>
    ensures { OnOk result (AreNamedFrom report.now.prefer (view report.now.tree) start (entries_of (view member.now)) → has_float (view member.now) ≡ false
        → out.new ≡ out.old ++ member_told name.now
        (unless_empty (shown_selections report.now.prefer (view report.now.tree) (entries_of (view member.now))) (view member.now))) }
{
    if is_empty_array(member) {
        Ok(())
    } else {
        out.key(name)?;
        write_selections(alloc, report, start, entries_of(member), out)
    }
}

/// Returns whether a member with this name, of an object of the class, holds the selections of a contest.
fn holds_selections(class: Class, name: &str) -> bool
    ensures { result ≡ is_selections (kind_of_member class name.now) }
{
    matches!(
        member_kind(class, name),
        MemberKind::Keyed(Family::Selection)
    )
}
