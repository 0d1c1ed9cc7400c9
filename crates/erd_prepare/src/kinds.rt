//! Values of the wrong kind that have one right form: a number or a truth value in quotes, a number where a text belongs, one
//! value where a list belongs.
ghost use Rattle.std.specs.Prelude.{◌≡◌, [], Some, IfOk};
ghost use Rattle.serde_json.specs.View.{view};
ghost use Rattle.erd_prepare.specs.Kinds.{is_list_of_objects, is_object_wanted, kinds};
ghost use Rattle.erd_prepare.specs.Steps.{IsStepDone};

use crate::asked::{entry_in, scope_in};
use crate::engine::{Done, prepare};
use crate::mender::Mender;
use crate::path_places::place_of;
use crate::plan::{Edit, Plan};
use erd_check::path::Path;
use erd_check::want::{Scope, Want, want_in};
use erd_tables::class::Role;
use erd_tables::member::MemberKind;
use erd_tables::pointer;
use serde_json::{Map, Value};
use std::alloc::{AllocError, Global};
use std::collections::BTreeMap;

/// Gives each value of the wrong kind the right one, where there is but one right form. An object that becomes a list of itself
/// is then looked into.
///
/// # Errors
///
/// `AllocError` if out of memory.
pub fn write_kinds(alloc: Global, report: &Value) -> Result<Done, AllocError>
    ensures done { IfOk result (IsStepDone (view report.now)) }
{
    let mut forms = Forms {
        alloc,
        plan: Plan::new(alloc),
    };
    let want = Some(Want::Object(Role::Report));
    add_forms(report, want, &Path::Root, &mut forms)?;
    prepare(alloc, &Kinds { plan: forms.plan }, report)
}

/// The step, with the right forms of values by their places.
#[derive(Drop)]
struct Kinds {
    plan: Plan,
}

impl Mender for Kinds {
    ghost rule = { λ s. kinds s.plan };

    fn scope(
        &self,
        _alloc: Global,
        want: Option<Want>,
        value: &Value,
    ) -> Result<Scope, AllocError> {
        Ok(scope_in(want, value))
    }

    fn shape(
        &self,
        alloc: Global,
        at: &Path,
        want: Option<Want>,
        value: &Value,
    ) -> Result<Option<Value>, AllocError> {
        self.plan.shape(alloc, at, want, value)
    }

    fn wraps(&self, _at: &Path, want: Option<Want>, _object: &Value) -> bool {
        is_list_of_objects(want)
    }

    fn drops(
        &self,
        _alloc: Global,
        _at: &Path,
        _scope: Scope,
        _name: &str,
        _value: &Value,
    ) -> Result<bool, AllocError> {
        Ok(false)
    }

    fn lets_go(
        &self,
        _alloc: Global,
        _at: &Path,
        _array: Option<Want>,
        _entry: &Value,
    ) -> Result<bool, AllocError> {
        Ok(false)
    }

    fn puts(
        &self,
        alloc: Global,
        _at: &Path,
        _want: Option<Want>,
        _object: &Value,
    ) -> Result<Vec<(String, Value)>, AllocError> {
        Ok(Vec::new(alloc))
    }
}

/// Returns whether a list of objects is wanted.
fn is_list_of_objects(want: Option<Want>) -> bool
    ensures { result ≡ is_list_of_objects want }
{
    is_object_wanted(entry_in(want))
}

fn is_object_wanted(want: Option<Want>) -> bool
    ensures { result ≡ is_object_wanted want }
{
    matches!(want, Some(Want::Object(_)))
}

/// The right forms that a walk has found.
#[derive(Drop)]
struct Forms {
    alloc: Global,
    plan: Plan,
}

/// Adds the right form of a value, or else those of what is in it.
#[cycle(forms)]
fn add_forms(
    value: &Value,
    want: Option<Want>,
    at: &Path,
    forms: &mut Forms,
) -> Result<(), AllocError> {
    if let Some(form) = right_form(forms.alloc, want, value)? {
        let place = pointer(forms.alloc, &place_of(forms.alloc, at)?)?;
        return forms.plan.add(place, Edit::Write(form));
    }
    match value {
        Value::Array(items) => add_of_entries(items, entry_in(want), at, forms),
        Value::Object(members) => {
            let inner = if is_list_of_objects(want) {
                entry_in(want)
            } else {
                want
            };
            add_of_members(members, scope_in(inner, value), at, forms)
        }
        Value::Null | Value::Bool(_) | Value::Number(_) | Value::String(_) => Ok(()),
    }
}

#[cycle(forms)]
fn add_of_entries(
    items: &Vec<Value>,
    want: Option<Want>,
    at: &Path,
    forms: &mut Forms,
) -> Result<(), AllocError> {
    for (index, item) in items.iter().enumerate() {
        add_forms(item, want, &Path::Entry(&*at, index), forms)?;
    }
    Ok(())
}

#[cycle(forms)]
fn add_of_members(
    members: &Map<String, Value>,
    scope: Scope,
    at: &Path,
    forms: &mut Forms,
) -> Result<(), AllocError> {
    for (name, member) in members.iter() {
        let want = want_in(scope, name.as_str());
        add_forms(member, want, &Path::Member(&*at, name.as_str()), forms)?;
    }
    Ok(())
}

/// Returns the form that a value of which this is asked has to have, if it is another one, and plain.
fn right_form(
    alloc: Global,
    want: Option<Want>,
    value: &Value,
) -> Result<Option<Value>, AllocError> {
    match want {
        Some(Want::Status | Want::Reference(_)) => text_form(alloc, value),
        Some(Want::Member(kind, _)) => match kind {
            MemberKind::Word | MemberKind::Label | MemberKind::Identity => text_form(alloc, value),
            MemberKind::Whole => number_form(alloc, value),
            MemberKind::Flag => Ok(truth_form(value)),
            MemberKind::Many(_) | MemberKind::Ordered => list_form(alloc, value),
            _ => Ok(None),
        },
        _ => Ok(None),
    }
}

/// Returns the text of a number.
fn text_form(alloc: Global, value: &Value) -> Result<Option<Value>, AllocError> {
    match value {
        Value::Number(_) => Ok(Some(Value::String(value.to_string(alloc)?))),
        _ => Ok(None),
    }
}

/// Returns the number that a text is, if it is a whole number and written as one.
fn number_form(alloc: Global, value: &Value) -> Result<Option<Value>, AllocError> {
    let Value::String(text) = value else {
        return Ok(None);
    };
    if !is_whole_text(text.as_str()) {
        return Ok(None);
    }
    match text.as_str().parse::<u64>() {
        Ok(number) => Ok(Some(Value::from(number))),
        Err(_) => match text.as_str().parse::<i64>() {
            Ok(number) => Ok(Some(Value::from(number))),
            Err(_) => Ok(None),
        },
    }
}

/// Returns whether a text has the form of a whole number (RFC 8259, section 6): no sign but `-`, no zero in front, not `-0`.
fn is_whole_text(text: &str) -> bool {
    let digits = text.strip_prefix("-").unwrap_or(text);
    text == "0"
        || (!digits.starts_with("0") && digits.as_bytes().iter().all(|byte| byte.is_ascii_digit()))
}

/// Returns the truth value that a text is, in letters of either case.
fn truth_form(value: &Value) -> Option<Value> {
    let Value::String(text) = value else {
        return None;
    };
    if text.as_str().eq_ignore_ascii_case("true") {
        Some(Value::Bool(true))
    } else if text.as_str().eq_ignore_ascii_case("false") {
        Some(Value::Bool(false))
    } else {
        None
    }
}

/// Returns the list of a text, or of the text of a number.
fn list_form(alloc: Global, value: &Value) -> Result<Option<Value>, AllocError> {
    let text = match value {
        Value::String(text) => Value::String(text.clone()?),
        Value::Number(_) => Value::String(value.to_string(alloc)?),
        Value::Null | Value::Bool(_) | Value::Array(_) | Value::Object(_) => return Ok(None),
    };
    let mut items = Vec::new(alloc);
    items.push(text)?;
    Ok(Some(Value::Array(items)))
}
