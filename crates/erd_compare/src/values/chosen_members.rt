ghost use Rattle.std.specs.Prelude.{◌≡◌, MatchOption, string_bytes};
ghost use Rattle.erd_compare.specs.Words.{member, no_members, view, members_view, are_same_members, carried_members};
ghost use Rattle.erd_compare.specs.code.Choices.{takes_name, chosen_in, chosen_members};
ghost use Rattle.erd_compare.specs.code.Comparing.{Decides, IsWholeTree};

use erd_check::same_json;
use erd_tables::{Class, MemberKind, member_kind};
use serde_json::{Map, Value};
use std::collections::btree_map::Iter;

/// Which members of an object are compared as JSON, in order.
#[derive(Clone, Copy)]
pub(crate) enum Choice {
    /// The members of a label other than its class and its translations.
    BesideText,
    /// The members that an object of the class carries, which are those of the kind `Carried`. Their meaning is their JSON.
    Carried(Option<Class>),
}

impl Choice {
    /// Returns whether a member with this name is chosen.
    fn takes(self, name: &str) -> bool
        ensures { result ≡ takes_name self name.now }
    {
        match self {
            Choice::BesideText => name != "@type" && name != "Text",
            Choice::Carried(None) => false,
            Choice::Carried(Some(class)) => matches!(member_kind(class, name), MemberKind::Carried),
        }
    }
}

/// Returns whether the chosen members of two values are the same: equal names with equal values. A value that is not an object
/// has none.
pub(crate) fn is_same_choice(
    one_choice: Choice,
    one: &Value,
    other_choice: Choice,
    other: &Value,
) -> bool
    ensures { result
        ≡ are_same_members (chosen_in one_choice (view one.now)) (chosen_in other_choice (view other.now)) }
{
    match (one, other) {
        (Value::Object(ones), Value::Object(others)) => {
            are_same_chosen(one_choice, ones, other_choice, others)
        }
        (Value::Object(ones), _) => has_none(one_choice, ones),
        (_, Value::Object(others)) => has_none(other_choice, others),
        _ => true,
    }
}

/// Returns whether the chosen members of two objects are the same.
fn are_same_chosen(
    one_choice: Choice,
    ones: &Map<String, Value>,
    other_choice: Choice,
    others: &Map<String, Value>,
) -> bool
    ensures { result
        ≡ are_same_members (chosen_members one_choice (members_view ones.now.entries)) (chosen_members other_choice (members_view others.now.entries)) }
{
    let mut rest = others.iter();
    for (name, value) in ones.iter() {
        if one_choice.takes(name.as_str()) {
            let Some((other_name, other)) = next_chosen(other_choice, &mut rest) else {
                return false;
            };
            if name.as_str() != other_name.as_str() || !same_json(value, other) {
                return false;
            }
        }
    }
    next_chosen(other_choice, &mut rest).is_none()
}

/// Returns whether an object has no chosen member.
fn has_none(choice: Choice, members: &Map<String, Value>) -> bool
    ensures { result
        ≡ are_same_members (chosen_members choice (members_view members.now.entries)) no_members }
{
    next_chosen(choice, &mut members.iter()).is_none()
}

/// Takes the next chosen member of those that remain.
fn next_chosen<'a>(
    choice: Choice,
    members: &mut Iter<'a, String, Value>,
) -> Option<(&'a String, &'a Value)>
    ensures { MatchOption result (chosen_members choice (members_view members.old) ≡ no_members)
        (λ found. chosen_members choice (members_view members.old)
        ≡ member (string_bytes found.0.now) (view found.1.now) (chosen_members choice (members_view members.new))) }
{
    while let Some((name, value)) = members.next() {
        if choice.takes(name.as_str()) {
            return Some((name, value));
        }
    }
    None
}

/// Returns whether two objects of these classes carry the same members.
pub(crate) fn is_same_carried(
    one_class: Option<Class>,
    one: &Value,
    other_class: Option<Class>,
    other: &Value,
) -> bool
    requires one { IsWholeTree (view one.now) }
    requires other { IsWholeTree (view other.now) }
    ensures { Decides result (carried_members one_class (view one.now)) (carried_members other_class (view other.now)) }
{
    is_same_choice(
        Choice::Carried(one_class),
        one,
        Choice::Carried(other_class),
        other,
    )
}
