//! `@type` where it is absent and one class alone may stand, and where it lacks `ElectionResults.` in front.
ghost use Rattle.std.specs.Prelude.{◌≡◌, [], Some, IfOk};
ghost use Rattle.serde_json.specs.View.{view};
ghost use Rattle.erd_tables.specs.declared.class.Role.TheVariants.{Report};
ghost use Rattle.erd_check.specs.declared.want.Want.TheVariants.{Object};
ghost use Rattle.erd_prepare.specs.Changes.{told_by};
ghost use Rattle.erd_prepare.specs.ClassNames.{class_named, class_names, class_put, class_told, content_class, only_class, only_of_family, role_of_entry};
ghost use Rattle.erd_prepare.specs.ClassNames.{role_wanted, type_put};
ghost use Rattle.erd_prepare.specs.Rules.{prepared, seen, told};

use crate::asked::scope_in;
use crate::engine::{Done, prepare};
use crate::mender::Mender;
use erd_check::path::Path;
use erd_check::values::text_at;
use erd_check::want::{Scope, Want, want_of_entry};
use erd_tables::class::{Class, Family, Role, class_in, type_text};
use erd_tables::member::MemberKind;
use serde_json::Value;
use std::alloc::{AllocError, Global};

/// Writes the class of each object whose class is plain from its place.
///
/// An object without an `@type`, or with null there, has the only class that may stand at its place, if there is but one. On a
/// ballot it is an `OrderedContest` if it has a `ContestId`, and else an `OrderedHeader` if it has a `HeaderId`. A value without
/// elections gets none, since it may be something else than a report.
///
/// # Errors
///
/// `AllocError` if out of memory.
pub fn write_class_names(alloc: Global, report: &Value) -> Result<Done, AllocError>
    ensures tree { IfOk result (λ done. view done.tree ≡ prepared class_names [] (Some (Object Report)) (view report.now)) }
    ensures changes { IfOk result (λ done. told_by done.changes.items ≡ told class_names [] (Some (Object Report)) (view report.now)) }
{
    prepare(alloc, &ClassNames, report)
}

/// The step that writes classes.
#[derive(Clone, Copy)]
struct ClassNames;

impl Mender for ClassNames {
    ghost rule = { λ s. class_names };

    fn scope(&self, alloc: Global, want: Option<Want>, value: &Value) -> Result<Scope, AllocError> {
        if !value.is_object() {
            return Ok(Scope::Nothing);
        }
        match role_wanted(want) {
            Some(role) => Ok(Scope::Members(role, class_told(alloc, role, value)?)),
            None => Ok(scope_in(want, value)),
        }
    }

    fn shape(
        &self,
        _alloc: Global,
        _at: &Path,
        _want: Option<Want>,
        _value: &Value,
    ) -> Result<Option<Value>, AllocError> {
        Ok(None)
    }

    fn wraps(&self, _at: &Path, _want: Option<Want>, _object: &Value) -> bool {
        false
    }

    fn drops(
        &self,
        _alloc: Global,
        _at: &Path,
        _scope: Scope,
        _name: &str,
        _value: &Value,
    ) -> Result<bool, AllocError> {
        Ok(false)
    }

    fn lets_go(
        &self,
        _alloc: Global,
        _at: &Path,
        _array: Option<Want>,
        _entry: &Value,
    ) -> Result<bool, AllocError> {
        Ok(false)
    }

    fn puts(
        &self,
        alloc: Global,
        _at: &Path,
        want: Option<Want>,
        object: &Value,
    ) -> Result<Vec<(String, Value)>, AllocError> {
        match role_wanted(want) {
            Some(role) => {
                let class = class_told(alloc, role, object)?;
                type_put(alloc, class, object)
            }
            None => Ok(Vec::new(alloc)),
        }
    }
}

/// Returns the role of an object of which this is asked. An object that stands where a list belongs has the role of its entries.
fn role_wanted(want: Option<Want>) -> Option<Role>
    ensures { result ≡ role_wanted want }
{
    match want {
        None => None,
        Some(Want::Object(role)) => Some(role),
        Some(Want::Member(MemberKind::Label, _)) => Some(Role::Label),
        Some(want) => role_of_entry(want_of_entry(want)),
    }
}

fn role_of_entry(want: Option<Want>) -> Option<Role>
    ensures { result ≡ role_of_entry want }
{
    match want {
        Some(Want::Object(role)) => Some(role),
        _ => None,
    }
}

/// Returns the class of an object with the role, by its `@type` or else by its place.
fn class_told(alloc: Global, role: Role, object: &Value) -> Result<Option<Class>, AllocError>
    ensures { IfOk result (λ class. class ≡ class_told role (view object.now)) }
{
    match object.get("@type") {
        None | Some(Value::Null) => Ok(only_class(role, object)),
        Some(Value::String(text)) => class_named(alloc, role, text.as_str()),
        Some(Value::Bool(_) | Value::Number(_) | Value::Array(_) | Value::Object(_)) => Ok(None),
    }
}

/// Returns the class with the role that a text names, in full or without `ElectionResults.`.
fn class_named(alloc: Global, role: Role, text: &str) -> Result<Option<Class>, AllocError>
    ensures { IfOk result (λ class. class ≡ class_named role text.now) }
{
    if let Some(class) = class_in(role, text) {
        return Ok(Some(class));
    }
    let mut full = String::from_str(alloc, "ElectionResults.")?;
    full.push_str(text)?;
    Ok(class_in(role, full.as_str()))
}

fn only_class(role: Role, object: &Value) -> Option<Class>
    ensures { result ≡ only_class role (view object.now) }
{
    match role {
        Role::Report => {
            if object.get("Election").is_some() {
                Some(Class::ElectionReport)
            } else {
                None
            }
        }
        Role::Election => Some(Class::Election),
        Role::OfFamily(family) => only_of_family(family),
        Role::Content => content_class(object),
        Role::Identifier => Some(Class::ExternalIdentifier),
        Role::Label => Some(Class::InternationalizedText),
        Role::Language => Some(Class::LanguageString),
    }
}

fn only_of_family(family: Family) -> Option<Class>
    ensures { result ≡ only_of_family family }
{
    match family {
        Family::Unit => Some(Class::ReportingUnit),
        Family::Person => Some(Class::Person),
        Family::Office => Some(Class::Office),
        Family::Header => Some(Class::Header),
        Family::Candidate => Some(Class::Candidate),
        Family::Style => Some(Class::BallotStyle),
        Family::Party | Family::Contest | Family::Selection => None,
    }
}

fn content_class(object: &Value) -> Option<Class>
    ensures { result ≡ content_class (view object.now) }
{
    if object.get("ContestId").is_some() {
        Some(Class::OrderedContest)
    } else if object.get("HeaderId").is_some() {
        Some(Class::OrderedHeader)
    } else {
        None
    }
}

/// Returns the `@type` that is put into an object of this class.
fn type_put(
    alloc: Global,
    class: Option<Class>,
    object: &Value,
) -> Result<Vec<(String, Value)>, AllocError>
    ensures { IfOk result (λ ms. seen ms.items ≡ type_put class (view object.now)) }
{
    let mut puts = Vec::new(alloc);
    let Some(class) = class else {
        return Ok(puts);
    };
    if text_at(object, "@type") == type_text(class) {
        return Ok(puts);
    }
    let name = String::from_str(alloc, "@type")?;
    let text = String::from_str(alloc, type_text(class))?;
    puts.push((name, Value::String(text)))?;
    Ok(puts)
}
