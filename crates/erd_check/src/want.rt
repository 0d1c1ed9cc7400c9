//! What the member table (docs/PROFILE.md) asks of a value.
ghost use Rattle.std.specs.Prelude.{◌≡◌};
ghost use Rattle.serde_json.specs.View.{view};
ghost use Rattle.erd_check.specs.Wants.{scope_inside, want_of_name, may_need_entry, member_want, carried_want, entry_want, is_compared_set};

use crate::values::class_of_object;
use erd_tables::class::{Class, Family, Role};
use erd_tables::member::{MemberKind, is_reference_form, is_required_member, member_kind};
use serde_json::Value;

/// What the member table asks of a value.
#[derive(Clone, Copy, Debug, PartialEq, Eq)]
pub enum Want {
    /// An object of a class that has the role.
    Object(Role),
    /// The `@type` of such an object.
    ClassText(Role),
    /// A reference to an object of the family.
    Reference(Family),
    /// The `Status` of the report.
    Status,
    /// Any other member: its kind, and whether it is an array that must have an entry.
    Member(MemberKind, bool),
    /// A carried member, or a value inside one.
    Carried,
}

/// What decides what the member table asks of the members of an object.
#[derive(Clone, Copy, Debug, PartialEq, Eq)]
pub enum Scope {
    /// The table asks nothing of any member.
    Nothing,
    /// The object must have the role. The class is that of the object, or `None` if its `@type` names no class with the
    /// role.
    Members(Role, Option<Class>),
    /// The object is a carried member, or is inside one.
    Carried,
}

/// Returns the scope of the members of a value, given what the table asks of the value. The scope is `Nothing` if the value
/// is not an object.
pub fn scope_of(want: Want, value: &Value) -> Scope
    ensures { result ≡ scope_inside want (view value.now) }
{
    if !value.is_object() {
        return Scope::Nothing;
    }
    match want {
        Want::Object(role) => Scope::Members(role, class_of_object(role, value)),
        Want::Member(MemberKind::Label, _) => {
            Scope::Members(Role::Label, class_of_object(Role::Label, value))
        }
        Want::Carried => Scope::Carried,
        _ => Scope::Nothing,
    }
}

/// Returns what the table asks of the member of this name in an object with the scope, or `None` if it asks nothing. If the
/// class of the object is unknown, the table asks for `@type` alone.
pub fn want_in(scope: Scope, name: &str) -> Option<Want>
    ensures { result ≡ want_of_name scope name.now }
{
    match scope {
        Scope::Nothing => None,
        Scope::Members(role, class) => {
            if name == "@type" {
                return Some(Want::ClassText(role));
            }
            match class {
                Some(class) => Some(want_of_member(class, name)),
                None => None,
            }
        }
        Scope::Carried => Some(want_of_carried(name)),
    }
}

fn want_of_member(class: Class, name: &str) -> Want
    ensures { result ≡ member_want class name.now }
{
    match class {
        Class::ElectionReport if name == "Status" => Want::Status,
        _ => match member_kind(class, name) {
            MemberKind::One(family) => Want::Reference(family),
            MemberKind::Carried => Want::Carried,
            kind => Want::Member(
                kind,
                may_need_entry(kind) && is_required_member(class, name),
            ),
        },
    }
}

/// Returns whether the table asks for a set of references or translations. Where an object must have such a set, it must have
/// an entry.
fn may_need_entry(kind: MemberKind) -> bool
    ensures { result ≡ may_need_entry kind }
{
    matches!(kind, MemberKind::Many(_) | MemberKind::Languages)
}

/// Nothing inside a carried value may be an identity or a reference.
fn want_of_carried(name: &str) -> Want
    ensures { result ≡ carried_want name.now }
{
    if name == "@id" || is_reference_form(name) {
        Want::Member(MemberKind::StrangeIdentity, false)
    } else {
        Want::Carried
    }
}

/// Returns what the table asks of the entries of an array, given what it asks of the array. Returns `None` if it asks
/// nothing of the entries.
pub fn want_of_entry(want: Want) -> Option<Want>
    ensures { result ≡ entry_want want }
{
    match want {
        Want::Carried => Some(Want::Carried),
        Want::Member(kind, _) => match kind {
            MemberKind::Many(family) => Some(Want::Reference(family)),
            MemberKind::Keyed(family) => Some(Want::Object(Role::OfFamily(family))),
            MemberKind::Identifiers => Some(Want::Object(Role::Identifier)),
            MemberKind::Languages => Some(Want::Object(Role::Language)),
            MemberKind::Elections => Some(Want::Object(Role::Election)),
            MemberKind::Content => Some(Want::Object(Role::Content)),
            MemberKind::Ordered => Some(Want::Reference(Family::Selection)),
            _ => None,
        },
        _ => None,
    }
}

/// Returns `true` if and only if the table asks for a set whose entries are compared with one another: an array of the kind
/// `Many`, `Identifiers` or `Languages`.
pub fn is_set_wanted(want: Want) -> bool
    ensures { result ≡ is_compared_set want }
{
    matches!(
        want,
        Want::Member(
            MemberKind::Many(_) | MemberKind::Identifiers | MemberKind::Languages,
            _
        )
    )
}
