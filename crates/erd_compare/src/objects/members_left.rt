ghost use Rattle.std.specs.Prelude.{◌≡◌, option_map};
ghost use Rattle.erd_compare.specs.Words.{Data, first_of, get, members_view, view};
ghost use Rattle.erd_compare.specs.code.LeastNames.{lesser_name};
ghost use Rattle.erd_compare.specs.code.NamesInStep.{AreMembersOf, members_from, members_left, names_left, names_past};

use serde_json::{Map, Value};
use std::collections::btree_map::Iter;

/// The remaining members of an object, in the order of their names.
#[derive(Drop)]
pub(crate) struct MembersLeft<'a> {
    first: Option<(&'a str, &'a Value)>,
    rest: Iter<'a, String, Value>,
}

impl<'a> MembersLeft<'a> {
    /// Returns all the members, as those that remain.
    pub(crate) fn of(members: &'a Map<String, Value>) -> MembersLeft<'a>
        ensures { members_left result ≡ members_view members.now.entries }
    {
        let mut rest = members.iter();
        let first = next_member(&mut rest);
        MembersLeft { first, rest }
    }

    /// Returns the name of the first remaining member.
    pub(crate) fn first_name(&self) -> Option<&'a str>
        ensures { option_map (λ s. s.now) result ≡ first_of (names_left self.now) }
    {
        match self.first {
            Some((name, _)) => Some(name),
            None => None,
        }
    }

    /// Returns the value of the member of the object with this name. The first remaining member is at hand, and any other is
    /// looked up in the object, whose members these are.
    pub(crate) fn value_in(&self, object: &'a Value, name: &str) -> Option<&'a Value>
        requires { AreMembersOf (view object.now) (members_left self.now) }
        ensures { option_map (λ v. view v.now) result ≡ get name.now (view object.now) }
    {
        match self.first {
            Some((first, value)) if first == name => Some(value),
            _ => object.get(name),
        }
    }

    /// Skips the member with this name, if it is the first remaining one.
    pub(crate) fn pass(&mut self, name: &str)
        ensures names { names_left self.new ≡ names_past name.now (names_left self.old) }
        ensures members { (d : Data) → AreMembersOf d (members_left self.old) → AreMembersOf d (members_left self.new) }
    {
        if let Some((first, _)) = self.first {
            if first == name {
                self.first = next_member(&mut self.rest);
            }
        }
    }
}

/// Takes the next remaining member.
fn next_member<'a>(rest: &mut Iter<'a, String, Value>) -> Option<(&'a str, &'a Value)>
    ensures { members_from result rest.new ≡ members_view rest.old }
{
    match rest.next() {
        Some((name, value)) => Some((name.as_str(), value)),
        None => None,
    }
}

/// Returns the lesser of two names, or the only one.
pub(crate) fn lesser_name<'a>(one: Option<&'a str>, other: Option<&'a str>) -> Option<&'a str>
    ensures { option_map (λ s. s.now) result ≡ lesser_name (option_map (λ s. s.now) one.entry) (option_map (λ s. s.now) other.entry) }
{
    match (one, other) {
        (Some(first), Some(second)) => Some(first.min(second)),
        (Some(_), None) => one,
        (None, _) => other,
    }
}
