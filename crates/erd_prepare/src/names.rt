//! Identifiers from names.
ghost use Rattle.std.specs.Prelude.{◌≡◌, [], ◌++◌, ◌∷◌, List, ℕ, Some, IfOk, map, option_map, string_bytes, codes, is_some, option_and_then};
ghost use Rattle.serde_json.specs.View.{view, items_view, members_view};
ghost use Rattle.erd_tables.specs.declared.class.Role.TheVariants.{Report};
ghost use Rattle.erd_check.specs.declared.want.Want.TheVariants.{Object};
ghost use Rattle.erd_prepare.specs.Names.{has_no_identifier, identifier_of_name, is_known_by, is_nothing, joined, label_at, least_from, lesser};
ghost use Rattle.erd_prepare.specs.Names.{name_identifier, name_text, named, naming, naming_if, pair_of, text_of_label};
ghost use Rattle.erd_prepare.specs.Changes.{told_by};
ghost use Rattle.erd_prepare.specs.Rules.{prepared, seen, told};

use crate::asked::scope_in;
use crate::engine::{Done, prepare};
use crate::identifiers::other_identifier;
use crate::known_objects::KnownObject;
use crate::mender::Mender;
use erd_check::path::Path;
use erd_check::values::{class_of_object, entries_at, is_empty_array, text_at};
use erd_check::want::{Scope, Want};
use erd_tables::class::{Family, Role};
use serde_json::{Value, json};
use std::alloc::{AllocError, Global};

/// Gives each object without an identifier its name as one.
///
/// # Errors
///
/// `AllocError` if out of memory.
pub fn name_objects(alloc: Global, report: &Value) -> Result<Done, AllocError>
    ensures tree { IfOk result (λ done. view done.tree ≡ prepared (naming (view report.now)) [] (Some (Object Report)) (view report.now)) }
    ensures changes { IfOk result (λ done. told_by done.changes.items ≡ told (naming (view report.now)) [] (Some (Object Report)) (view report.now)) }
{
    let several = entries_at(report, "Election").len() > 1;
    prepare(alloc, &Names { several }, report)
}

/// The step, with whether there are several elections.
#[derive(Drop)]
struct Names {
    several: bool,
}

impl Mender for Names {
    ghost rule = { λ s. naming_if s.several };

    fn scope(
        &self,
        _alloc: Global,
        want: Option<Want>,
        value: &Value,
    ) -> Result<Scope, AllocError> {
        Ok(scope_in(want, value))
    }

    fn shape(
        &self,
        _alloc: Global,
        _at: &Path,
        _want: Option<Want>,
        _value: &Value,
    ) -> Result<Option<Value>, AllocError> {
        Ok(None)
    }

    fn wraps(&self, _at: &Path, _want: Option<Want>, _object: &Value) -> bool {
        false
    }

    fn drops(
        &self,
        _alloc: Global,
        _at: &Path,
        _scope: Scope,
        _name: &str,
        _value: &Value,
    ) -> Result<bool, AllocError> {
        Ok(false)
    }

    fn lets_go(
        &self,
        _alloc: Global,
        _at: &Path,
        _array: Option<Want>,
        _entry: &Value,
    ) -> Result<bool, AllocError> {
        Ok(false)
    }

    fn puts(
        &self,
        alloc: Global,
        _at: &Path,
        want: Option<Want>,
        object: &Value,
    ) -> Result<Vec<(String, Value)>, AllocError> {
        match want {
            Some(Want::Object(role)) => {
                if is_known_by(self.several, role)
                    && class_of_object(role, object).is_some()
                    && has_no_identifier(object)
                {
                    identifier_of_name(alloc, name_text(alloc, role, object)?)
                } else {
                    Ok(Vec::new(alloc))
                }
            }
            _ => Ok(Vec::new(alloc)),
        }
    }
}

/// Returns whether an object of the report is known by an identifier and has none.
pub(crate) fn needs_name(report: &Value, object: &KnownObject) -> bool {
    let several = entries_at(report, "Election").len() > 1;
    if !is_known_by(several, object.role) {
        return false;
    }
    match object.members.get("ExternalIdentifier") {
        Some(value) => is_nothing(value),
        None => true,
    }
}

fn is_known_by(several: bool, role: Role) -> bool
    ensures { result ≡ is_known_by several role }
{
    match role {
        Role::OfFamily(Family::Selection) => false,
        Role::OfFamily(_) => true,
        Role::Election => several,
        _ => false,
    }
}

fn has_no_identifier(object: &Value) -> bool
    ensures { result ≡ has_no_identifier (view object.now) }
{
    match object.get("ExternalIdentifier") {
        Some(value) => is_nothing(value),
        None => true,
    }
}

fn is_nothing(value: &Value) -> bool
    ensures { result ≡ is_nothing (view value.now) }
{
    value.is_null() || is_empty_array(value)
}

fn identifier_of_name(alloc: Global, text: String) -> Result<Vec<(String, Value)>, AllocError>
    ensures { IfOk result (λ ms. seen ms.items ≡ identifier_of_name (string_bytes text)) }
{
    let mut puts = Vec::new(alloc);
    if !text.is_empty() {
        let identifiers = name_identifier(alloc, text.as_str())?;
        puts.push((String::from_str(alloc, "ExternalIdentifier")?, identifiers))?;
    }
    Ok(puts)
}

fn name_identifier(alloc: Global, text: &str) -> Result<Value, AllocError>
    ensures { IfOk result (λ v. view v ≡ name_identifier text.now) }
{
    let identifier = other_identifier(alloc, "name", text)?;
    json!(in alloc; [identifier])
}

fn name_text(alloc: Global, role: Role, object: &Value) -> Result<String, AllocError>
    ensures { IfOk result (λ text. string_bytes text ≡ name_text role (view object.now)) }
{
    match role {
        Role::OfFamily(Family::Candidate) => {
            String::from_str(alloc, label_at(object, "BallotName").unwrap_or(""))
        }
        Role::OfFamily(Family::Person) => match label_at(object, "FullName") {
            Some(name) => String::from_str(alloc, name),
            None => joined(
                alloc,
                text_at(object, "FirstName"),
                text_at(object, "LastName"),
            ),
        },
        _ => String::from_str(alloc, label_at(object, "Name").unwrap_or("")),
    }
}

fn joined(alloc: Global, first: &str, second: &str) -> Result<String, AllocError>
    ensures { IfOk result (λ text. string_bytes text ≡ joined first.now second.now) }
{
    if first.is_empty() {
        return String::from_str(alloc, second);
    }
    let mut text = String::from_str(alloc, first)?;
    if !second.is_empty() {
        text.push_str(" ")?;
        text.push_str(second)?;
    }
    Ok(text)
}

fn label_at<'a>(object: &'a Value, name: &str) -> Option<&'a str>
    ensures { option_map (λ s. s.now) result ≡ label_at name.now (view object.now) }
{
    match object.get(name) {
        Some(label) => text_of_label(label),
        None => None,
    }
}

pub(crate) fn text_of_label(label: &Value) -> Option<&str>
    ensures { option_map (λ s. s.now) result ≡ text_of_label (view label.now) }
{
    match label {
        Value::String(text) => Some(text.as_str()),
        Value::Object(_) => match least_of(entries_at(label, "Text")) {
            Some((_, content)) => Some(content),
            None => None,
        },
        Value::Null | Value::Bool(_) | Value::Number(_) | Value::Array(_) => None,
    }
}

fn least_of(translations: &[Value]) -> Option<(&str, &str)>
    ensures { option_map (λ p. (p.0.now, p.1.now)) result ≡ least_from None (map view translations.now) }
{
    let mut best = None;
    for translation in translations {
        best = lesser(best, pair_of(translation));
    }
    best
}

fn pair_of(translation: &Value) -> Option<(&str, &str)>
    ensures { option_map (λ p. (p.0.now, p.1.now)) result ≡ pair_of (view translation.now) }
{
    let language = translation.get("Language")?.as_str()?;
    let content = translation.get("Content")?.as_str()?;
    Some((language, content))
}

fn lesser<'a>(
    best: Option<(&'a str, &'a str)>,
    next: Option<(&'a str, &'a str)>,
) -> Option<(&'a str, &'a str)>
    ensures { option_map (λ p. (p.0.now, p.1.now)) result ≡ lesser (option_map (λ p. (p.0.now, p.1.now)) best.entry)
        (option_map (λ p. (p.0.now, p.1.now)) next.entry) }
{
    let Some(old) = best else {
        return next;
    };
    let Some(new) = next else {
        return Some(old);
    };
    if new.0.cmp(old.0).then(new.1.cmp(old.1)).is_lt() {
        Some(new)
    } else {
        Some(old)
    }
}
