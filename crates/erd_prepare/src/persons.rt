//! Persons to whom nothing refers.
ghost use Rattle.std.specs.Prelude.{◌≡◌, [], ◌++◌, Bool, List, ℕ, Some, IfOk, if◌then◌else◌, string_bytes, ◌∷◌, option_to_list};
ghost use Rattle.serde_json.specs.Find.{as_str};
ghost use Rattle.std.specs.BTreeSet.{contains_text};
ghost use Rattle.serde_json.specs.View.{view, items_view, members_view};
ghost use Rattle.erd_tables.specs.Table.{is_reference_name};
ghost use Rattle.erd_tables.specs.declared.class.Role.TheVariants.{Report};
ghost use Rattle.erd_check.specs.declared.want.Want.TheVariants.{Object};
ghost use Rattle.erd_prepare.specs.Persons.{Adds, is_among, persons_unless, references, references_of_items, references_of_members, texts_in, texts_of};
ghost use Rattle.erd_prepare.specs.Persons.{unused_persons};
ghost use Rattle.erd_prepare.specs.Changes.{told_by};
ghost use Rattle.erd_prepare.specs.Rules.{prepared, told};

use crate::asked::scope_in;
use crate::engine::{Done, prepare};
use crate::mender::Mender;
use erd_check::path::Path;
use erd_check::want::{Scope, Want};
use erd_tables::class::Family;
use erd_tables::member::{MemberKind, is_reference_form};
use serde_json::{Map, Value};
use std::alloc::{AllocError, Global};
use std::collections::BTreeSet;

/// Takes out each person to whom no reference of the report refers.
///
/// # Errors
///
/// `AllocError` if out of memory.
pub fn take_out_unused_persons(alloc: Global, report: &Value) -> Result<Done, AllocError>
    ensures tree { IfOk result (λ done. view done.tree ≡ prepared (unused_persons (view report.now)) [] (Some (Object Report)) (view report.now)) }
    ensures changes { IfOk result (λ done. told_by done.changes.items ≡ told (unused_persons (view report.now)) [] (Some (Object Report)) (view report.now)) }
{
    let mut used = BTreeSet::new(alloc);
    add_references(report, &mut used)?;
    prepare(alloc, &Persons { used }, report)
}

/// The step, with the texts to which something refers.
#[derive(Drop)]
struct Persons {
    used: BTreeSet<String>,
}

impl Mender for Persons {
    ghost rule = { λ s. persons_unless (contains_text s.used) };

    fn scope(
        &self,
        _alloc: Global,
        want: Option<Want>,
        value: &Value,
    ) -> Result<Scope, AllocError> {
        Ok(scope_in(want, value))
    }

    fn shape(
        &self,
        _alloc: Global,
        _at: &Path,
        _want: Option<Want>,
        _value: &Value,
    ) -> Result<Option<Value>, AllocError> {
        Ok(None)
    }

    fn wraps(&self, _at: &Path, _want: Option<Want>, _object: &Value) -> bool {
        false
    }

    fn drops(
        &self,
        _alloc: Global,
        _at: &Path,
        _scope: Scope,
        _name: &str,
        _value: &Value,
    ) -> Result<bool, AllocError> {
        Ok(false)
    }

    fn lets_go(
        &self,
        _alloc: Global,
        _at: &Path,
        array: Option<Want>,
        entry: &Value,
    ) -> Result<bool, AllocError> {
        Ok(match array {
            Some(Want::Member(MemberKind::Keyed(Family::Person), _)) => {
                entry.is_object() && !self.is_used(entry)
            }
            _ => false,
        })
    }

    fn puts(
        &self,
        alloc: Global,
        _at: &Path,
        _want: Option<Want>,
        _object: &Value,
    ) -> Result<Vec<(String, Value)>, AllocError> {
        Ok(Vec::new(alloc))
    }
}

impl Persons {
    ghost use Rattle.std.specs.Prelude.{codes, false, option_and_then};
    ghost use Rattle.std.specs.Option.{option_map_or};
    ghost use Rattle.serde_json.specs.Find.{get};

    /// Returns whether something refers to the object.
    fn is_used(&self, object: &Value) -> bool
        ensures { result ≡ option_map_or (contains_text self.now.used) (option_and_then as_str (get (codes "@id") (view object.now))) false }
    {
        match object.get("@id") {
            Some(Value::String(id)) => self.used.contains(id.as_str()),
            _ => false,
        }
    }
}

/// Adds the texts of all references in a value.
#[cycle(references)]
pub(crate) fn add_references(value: &Value, used: &mut BTreeSet<String>) -> Result<(), AllocError>
    ensures { IfOk result (λ _. Adds (references (view value.now)) used.old used.new) }
{
    match value {
        Value::Array(items) => add_of_items(items, used),
        Value::Object(members) => add_of_members(members, used),
        Value::Null | Value::Bool(_) | Value::Number(_) | Value::String(_) => Ok(()),
    }
}

#[cycle(references)]
fn add_of_items(items: &Vec<Value>, used: &mut BTreeSet<String>) -> Result<(), AllocError>
    ensures { IfOk result (λ _. Adds (references_of_items (items_view items.now.items)) used.old used.new) }
{
    for item in items {
        add_references(item, used)?;
    }
    Ok(())
}

#[cycle(references)]
fn add_of_members(
    members: &Map<String, Value>,
    used: &mut BTreeSet<String>,
) -> Result<(), AllocError>
    ensures { IfOk result (λ _. Adds (references_of_members (members_view members.now.entries)) used.old used.new) }
{
    for (name, member) in members.iter() {
        add_of_member(name.as_str(), member, used)?;
        add_references(member, used)?;
    }
    Ok(())
}

/// Adds the texts of a member, if its name ends as those of references do.
fn add_of_member(name: &str, value: &Value, used: &mut BTreeSet<String>) -> Result<(), AllocError>
    ensures { IfOk result (λ _. Adds (if is_reference_name name.now then texts_in (view value.now) else []) used.old used.new) }
{
    if is_reference_form(name) {
        add_texts(value, used)
    } else {
        Ok(())
    }
}

fn add_texts(value: &Value, used: &mut BTreeSet<String>) -> Result<(), AllocError>
    ensures { IfOk result (λ _. Adds (texts_in (view value.now)) used.old used.new) }
{
    match value {
        Value::String(text) => add_text(text, used),
        Value::Array(items) => add_texts_of(items, used),
        Value::Null | Value::Bool(_) | Value::Number(_) | Value::Object(_) => Ok(()),
    }
}

fn add_texts_of(items: &Vec<Value>, used: &mut BTreeSet<String>) -> Result<(), AllocError>
    ensures { IfOk result (λ _. Adds (texts_of (items_view items.now.items)) used.old used.new) }
{
    for item in items {
        add_if_text(item, used)?;
    }
    Ok(())
}

fn add_if_text(item: &Value, used: &mut BTreeSet<String>) -> Result<(), AllocError>
    ensures { IfOk result (λ _. Adds (option_to_list (as_str (view item.now))) used.old used.new) }
{
    match item {
        Value::String(text) => add_text(text, used),
        _ => Ok(()),
    }
}

fn add_text(text: &String, used: &mut BTreeSet<String>) -> Result<(), AllocError>
    ensures { IfOk result (λ _. Adds (string_bytes text.now ∷ []) used.old used.new) }
{
    used.insert(text.clone()?)?;
    Ok(())
}
