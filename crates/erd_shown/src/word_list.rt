//! What ballots print, as a list that has each object of a report once.
ghost use Rattle.std.specs.Prelude.{◌≡◌, ◌++◌, Some, false, true, map, option_copied, option_map, string_bytes, IfOk, IfSome, OnOk};
ghost use Rattle.serde_json.specs.View.{view};
ghost use Rattle.serde_json.specs.Written.{compact_text, has_float};
ghost use Rattle.erd_text.specs.Tokens.{members_tokens, value_tokens};
ghost use Rattle.erd_shown.specs.Shown.{placed_in};
ghost use Rattle.erd_shown.specs.WordList.{contest_members, family_word, is_contest_role, key_with_role, role_members, role_word, words_members};
ghost use Rattle.erd_shown.specs.WordList.{worded_data, worded_in_class, worded_objects, worded_roles, worded_value, worded_with_role};

mod worded_selections;

use crate::keys::write_key_or_null;
use crate::objects::value_at;
use crate::texts::text_of;
use crate::word_list::worded_selections::write_selections_at;
use crate::words::write_words_in_class;
use erd_check::values::class_of_object;
use erd_meaning::{Key, Report};
use erd_tables::{Class, Family, Role, type_text};
use erd_text::Output;
use serde_json::Value;
use std::alloc::{AllocError, Global};

/// An object of the list of what ballots print.
#[derive(Clone, Copy, Debug, PartialEq, Eq)]
pub struct WordedObject {
    /// What the object is.
    pub role: Role,
    /// Its position among the objects with this role.
    pub position: usize,
}

/// Returns the objects of the list of what ballots print, each once: units, parties, persons, offices, headers, elections,
/// candidates and contests, each in the rising order of their keys.
///
/// # Errors
///
/// `AllocError` if out of memory.
///
/// ```
/// assert_eq!(rt; worded_objects(alloc, report)?.len(), 4);
/// ```
pub fn worded_objects(alloc: Global, report: &Report) -> Result<Vec<WordedObject>, AllocError>
    ensures { IfOk result (λ found. found.items ≡ worded_objects report.now.prefer (view report.now.tree)) }
{
    let mut found = Vec::new(alloc);
    let roles = worded_roles();
    for role in roles {
        push_with_role(alloc, report, role, &mut found)?;
    }
    Ok(found)
}

/// Returns the entry of an object of the list, as compact JSON: its class, its key, what it is, and what ballots print of it,
/// with keys in place of references. The entry of a contest has its selections too, by name and in the rising order of their
/// names. Returns `null` if there is no such object.
///
/// # Errors
///
/// `AllocError` if out of memory.
///
/// ```
/// let candidate = WordedObject {
///     role: Role::OfFamily(Family::Candidate),
///     position: 0,
/// };
/// let text = worded_text(alloc, report, &candidate)?;
/// assert_eq!(rt; text.as_str(), CANDIDATE_WORDS);
/// ```
pub fn worded_text(
    alloc: Global,
    report: &Report,
    object: &WordedObject,
) -> Result<String, AllocError>
    ensures { IfOk result (λ text. string_bytes text ≡ compact_text (worded_data report.now.prefer (view report.now.tree) object.now)) }
{
    let mut out = Output::new(alloc);
    write_worded(alloc, report, object, &mut out)?;
    text_of(out)
}

/// Returns the roles of the objects of the list, in their order.
fn worded_roles() -> &'static [Role]
    ensures { result.now ≡ worded_roles }
{
    &[
        Role::OfFamily(Family::Unit),
        Role::OfFamily(Family::Party),
        Role::OfFamily(Family::Person),
        Role::OfFamily(Family::Office),
        Role::OfFamily(Family::Header),
        Role::Election,
        Role::OfFamily(Family::Candidate),
        Role::OfFamily(Family::Contest),
    ]
}

/// Appends the objects with a role, in the rising order of their keys.
fn push_with_role(
    alloc: Global,
    report: &Report,
    role: &Role,
    found: &mut Vec<WordedObject>,
) -> Result<(), AllocError>
    ensures { OnOk result (found.new.items ≡ found.old.items ++ worded_with_role report.now.prefer (view report.now.tree) role.now) }
{
    match *role {
        Role::OfFamily(family) => push_family(alloc, report, family, found),
        Role::Election => push_elections(report, found),
        _ => Ok(()),
    }
}

/// Appends the objects of a family, in the rising order of their keys.
fn push_family(
    alloc: Global,
    report: &Report,
    family: Family,
    found: &mut Vec<WordedObject>,
) -> Result<(), AllocError>
    ensures { OnOk result (found.new.items ≡ found.old.items ++ worded_with_role report.now.prefer (view report.now.tree) (Role.OfFamily family)) }
{
    let places = report.rising_keys(alloc, family)?;
    push_places(Role::OfFamily(family), &places, found)
}

/// Appends the elections, in the rising order of their keys.
fn push_elections(report: &Report, found: &mut Vec<WordedObject>) -> Result<(), AllocError>
    ensures { OnOk result (found.new.items ≡ found.old.items ++ worded_with_role report.now.prefer (view report.now.tree) Role.Election) }
{
    push_positions(Role::Election, report.rising_elections(), found)
}

/// Appends the objects with a role at the positions of keys.
fn push_places(
    role: Role,
    places: &[(Option<&Key>, usize)],
    found: &mut Vec<WordedObject>,
) -> Result<(), AllocError>
    ensures { OnOk result (found.new.items ≡ found.old.items ++ map (λ p. record { role = role; position = p.1 }) places.now) }
{
    for place in places {
        found.push(WordedObject {
            role,
            position: place.1,
        })?;
    }
    Ok(())
}

/// Appends the objects with a role at positions.
fn push_positions(
    role: Role,
    positions: &[usize],
    found: &mut Vec<WordedObject>,
) -> Result<(), AllocError>
    ensures { OnOk result (found.new.items ≡ found.old.items ++ map (λ i. record { role = role; position = i }) positions.now) }
{
    for position in positions {
        found.push(WordedObject {
            role,
            position: *position,
        })?;
    }
    Ok(())
}

/// Writes the entry of an object of the list, or null if there is none.
fn write_worded(
    alloc: Global,
    report: &Report,
    object: &WordedObject,
    out: &mut Output,
) -> Result<(), AllocError>
    ensures { OnOk result (out.new ≡ out.old ++ value_tokens (worded_data report.now.prefer (view report.now.tree) object.now)) }
{
    match object_at(report, object) {
        Some(value) => write_value(alloc, report, object, value, out),
        None => out.null(),
    }
}

/// Returns the value of an object of the list, if there is one.
fn object_at<'a>(report: &'a Report, object: &WordedObject) -> Option<&'a Value>
    ensures there { option_map (λ v. view v.now) result
        ≡ option_map (λ o. o.value) (placed_in (view report.now.tree) object.now.role object.now.position) }
    ensures whole { IfSome result (λ v. has_float (view v.now) ≡ false) }
{
    let tree = report.tree();
    match value_at(report, tree, object.role, object.position) {
        Some(value) => Some(value),
        None => None,
    }
}

/// Writes the entry of an object that has this value, or null if its class does not have the role.
fn write_value(
    alloc: Global,
    report: &Report,
    object: &WordedObject,
    value: &Value,
    out: &mut Output,
) -> Result<(), AllocError>
    requires there { option_map (λ o. o.value) (placed_in (view report.now.tree) object.now.role object.now.position) ≡ Some (view value.now) }
    requires whole { has_float (view value.now) ≡ false }
    ensures { OnOk result (out.new ≡ out.old ++ value_tokens (worded_value report.now.prefer (view report.now.tree) object.now (view value.now))) }
{
    match class_of_object(object.role, value) {
        Some(class) => write_in_class(alloc, report, object, class, value, out),
        None => out.null(),
    }
}

/// Writes the entry of an object of the class that has this value.
fn write_in_class(
    alloc: Global,
    report: &Report,
    object: &WordedObject,
    class: Class,
    value: &Value,
    out: &mut Output,
) -> Result<(), AllocError>
    requires there { option_map (λ o. o.value) (placed_in (view report.now.tree) object.now.role object.now.position) ≡ Some (view value.now) }
    requires whole { has_float (view value.now) ≡ false }
    ensures { OnOk result (out.new ≡ out.old ++ value_tokens (worded_in_class report.now.prefer (view report.now.tree) object.now (view value.now) class)) }
{
    out.begin_object()?;
    out.key("class")?;
    out.string(type_text(class))?;
    out.key("key")?;
    write_key_or_null(key_with_role(report, object.role, object.position), out)?;
    write_role(alloc, report, object, class, value, out)
}

/// Returns the key of the object with a role at a position, if it has one.
fn key_with_role<'a>(report: &'a Report, role: Role, position: usize) -> Option<&'a Key>
    ensures { option_copied result ≡ key_with_role report.now.prefer (view report.now.tree) role position }
{
    match role {
        Role::OfFamily(family) => report.key_at(family, position),
        Role::Election => report.election_key(position),
        _ => None,
    }
}

/// Writes what the object is and what ballots print of it, and the end of the object.
fn write_role(
    alloc: Global,
    report: &Report,
    object: &WordedObject,
    class: Class,
    value: &Value,
    out: &mut Output,
) -> Result<(), AllocError>
    requires there { option_map (λ o. o.value) (placed_in (view report.now.tree) object.now.role object.now.position) ≡ Some (view value.now) }
    requires whole { has_float (view value.now) ≡ false }
    ensures { OnOk result (out.new ≡ out.old
        ++ members_tokens (role_members report.now.prefer (view report.now.tree) object.now.role class (view value.now))) }
{
    out.key("part")?;
    out.string(role_word(object.role))?;
    if is_contest(object.role) {
        write_contest(alloc, report, object, class, value, out)
    } else {
        write_words(alloc, report, class, value, out)
    }
}

/// Writes the selections of a contest and what ballots print of itself, and the end of the object.
fn write_contest(
    alloc: Global,
    report: &Report,
    object: &WordedObject,
    class: Class,
    value: &Value,
    out: &mut Output,
) -> Result<(), AllocError>
    requires contest { is_contest_role object.now.role ≡ true }
    requires there { option_map (λ o. o.value) (placed_in (view report.now.tree) object.now.role object.now.position) ≡ Some (view value.now) }
    requires whole { has_float (view value.now) ≡ false }
    ensures { OnOk result (out.new ≡ out.old ++ members_tokens (contest_members report.now.prefer (view report.now.tree) class (view value.now))) }
{
    out.key("selections")?;
    write_selections_at(alloc, report, object.position, value, out)?;
    write_words(alloc, report, class, value, out)
}

/// Writes what ballots print of an object of the class, and the end of the object.
fn write_words(
    alloc: Global,
    report: &Report,
    class: Class,
    value: &Value,
    out: &mut Output,
) -> Result<(), AllocError>
    requires whole { has_float (view value.now) ≡ false }
    ensures { OnOk result (out.new ≡ out.old ++ members_tokens (words_members report.now.prefer (view report.now.tree) class (view value.now))) }
{
    out.key("words")?;
    write_words_in_class(alloc, report, class, value, out)?;
    out.end_object()
}

/// Returns whether the objects with a role are contests.
fn is_contest(role: Role) -> bool
    ensures { result ≡ is_contest_role role }
{
    matches!(role, Role::OfFamily(Family::Contest))
}

/// Returns the word for what an object with a role is.
fn role_word(role: Role) -> &'static str
    ensures { result.now ≡ role_word role }
{
    match role {
        Role::OfFamily(family) => family_word(family),
        Role::Election => "election",
        _ => "report",
    }
}

/// Returns the word for what an object of the family is.
fn family_word(family: Family) -> &'static str
    ensures { result.now ≡ family_word family }
{
    match family {
        Family::Unit => "unit",
        Family::Party => "party",
        Family::Person => "person",
        Family::Office => "office",
        Family::Header => "header",
        Family::Candidate => "candidate",
        Family::Contest => "contest",
        Family::Style => "style",
        Family::Selection => "selection",
    }
}
