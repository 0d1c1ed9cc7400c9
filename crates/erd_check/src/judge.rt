ghost use Rattle.std.specs.Prelude.{◌≡◌, ◌++◌, [], false, true, map, not, IfOk, IsTrue};
ghost use Rattle.serde_json.specs.Data.{Data, array, string};
ghost use Rattle.std.specs.List.{list_all};
ghost use Rattle.std.specs.Option.{option_map_or, option_to_list};
ghost use Rattle.serde_json.specs.Find.{is_float};
ghost use Rattle.serde_json.specs.View.{view, items_view, number_view};
ghost use Rattle.erd_check.specs.Faults.{has_kind, has_wanted_kind, names_wanted, is_not_whole, is_reference, is_text, lacks};
ghost use Rattle.erd_check.specs.Numbers.{IsFittingNumber, IsInRange};
ghost use Rattle.erd_check.specs.code.Walk.{IsAskedInRange, other_reasons, missing, reasons};
ghost use Rattle.erd_check.specs.Visits.{faults_of, IsInOrder, IsKnown, IsSilentMember};
ghost use Rattle.erd_check.specs.Wants.{entry_want};
ghost use Rattle.erd_check.specs.Paths.{steps_of};

use crate::equality::is_among;
use crate::path::{Path, push_fault};
use crate::values::is_empty_array;
use crate::visitor::{Member, Visit, Visitor};
use crate::want::{Scope, Want};
use erd_tables::{Fault, MemberKind, Reason, Text, class_in, required};
use serde_json::{Number, Value};
use std::alloc::{AllocError, Global};

/// The visitor that finds the faults of the shape.
#[derive(Clone, Copy, Drop)]
pub(crate) struct ShapeJudge;

impl Visitor for ShapeJudge {
    ghost use Rattle.std.specs.Prelude.{true};
    ghost use Rattle.erd_check.specs.code.Walk.{IsAskedInRange, reasons};

    ghost tells = { λ _ outer. reasons };

    ghost Known = { λ _. IsAskedInRange };

    ghost is_thorough = { λ _. true };

    /// Most members are texts of which no more is asked, or arrays of references, of which the shape asks only that they are
    /// texts.
    fn passes_over(&self, alloc: Global, member: Member) -> Result<bool, AllocError> {
        let want = member.want;
        match member.value {
            Value::String(text) => Ok(is_sound_text(want, text.as_str())),
            Value::Array(items) => Ok(is_sound_array(want, items.as_slice())),
            _ => Ok(false),
        }
    }

    fn visit(&self, alloc: Global, visit: Visit, found: &mut Vec<Fault>) -> Result<(), AllocError> {
        let Visit { value, want, .. } = visit;
        let path = visit.context.path;
        if !fits(want, value) {
            push_fault(alloc, path, Reason::WrongKind, found)?;
        }
        push_missing(alloc, visit.scope, value, path, found)?;
        if let Some(reason) = other_reason(want, value) {
            push_fault(alloc, path, reason, found)?;
        }
        if is_compared_here(want) && is_among(value, visit.earlier) {
            push_fault(alloc, path, Reason::Repeated, found)?;
        }
        Ok(())
    }
}

/// Returns whether a repeated entry is a fault of the shape. Repeated references are judged later, with the other faults of
/// references.
fn is_compared_here(want: Want) -> bool
    ensures { result ≡ not (is_reference want) }
{
    !matches!(want, Want::Reference(_))
}

/// Returns whether the table asks for an array of references.
fn has_references(want: Want) -> bool
    ensures { result ≡ option_map_or is_reference (entry_want want) false }
{
    matches!(
        want,
        Want::Member(MemberKind::Many(_) | MemberKind::Ordered, _)
    )
}

/// Returns whether the shape asks for a text and no more than this one: a word, an `@id`, a label, a reference, or an `@type`
/// that names a class with the role.
fn is_sound_text(want: Want, text: &str) -> bool
    ensures silent { result ≡ true → reasons want false (string text.now) ≡ [] }
    ensures in_range { IsAskedInRange want (string text.now) }
{
    match want {
        Want::Member(kind, _) => matches!(
            kind,
            MemberKind::Identity | MemberKind::Word | MemberKind::Label
        ),
        Want::ClassText(role) => class_in(role, text).is_some(),
        Want::Reference(_) => true,
        _ => false,
    }
}

/// Returns `true` only if the shape asks for an array of references and no more than these entries: they are texts, and there is
/// one at least.
fn is_sound_array(want: Want, items: &[Value]) -> bool
    ensures silent { result ≡ true → (owner : Data) → IsSilentMember (λ outer. reasons) owner want (array (items_view items.now)) }
    ensures known { result ≡ true → IsKnown IsAskedInRange want (array (items_view items.now)) }
    ensures in_order { result ≡ true → IsInOrder want (array (items_view items.now)) }
{
    if items.is_empty() {
        return false;
    }
    has_references(want) && are_texts(items)
}

/// Returns whether each of the entries is a text.
fn are_texts(items: &[Value]) -> bool
    ensures { result ≡ list_all is_text (map view items.now) }
{
    for item in items {
        if !item.is_string() {
            return false;
        }
    }
    true
}

/// Returns whether a value is of the JSON kind that is asked for.
fn fits(want: Want, value: &Value) -> bool
    ensures { result ≡ has_wanted_kind want (view value.now) }
{
    match want {
        Want::Object(_) => value.is_object(),
        Want::ClassText(_) | Want::Reference(_) | Want::Status => value.is_string(),
        Want::Member(kind, _) => fits_kind(kind, value),
        Want::Carried => true,
    }
}

fn fits_kind(kind: MemberKind, value: &Value) -> bool
    ensures { result ≡ has_kind kind (view value.now) }
{
    match kind {
        MemberKind::Identity | MemberKind::Word => value.is_string(),
        MemberKind::Label => value.is_string() || value.is_object(),
        MemberKind::Flag => value.is_boolean(),
        MemberKind::Whole => value.is_number(),
        MemberKind::Many(_)
        | MemberKind::Identifiers
        | MemberKind::Languages
        | MemberKind::Keyed(_)
        | MemberKind::Elections
        | MemberKind::Content
        | MemberKind::Ordered => value.is_array(),
        MemberKind::ClassText
        | MemberKind::One(_)
        | MemberKind::Outside
        | MemberKind::StrangeReference
        | MemberKind::StrangeIdentity
        | MemberKind::Carried => true,
    }
}

/// Adds a fault for each required member that the object lacks.
fn push_missing(
    alloc: Global,
    scope: Scope,
    value: &Value,
    path: &Path,
    faults: &mut Vec<Fault>,
) -> Result<(), AllocError>
    ensures { IfOk result (λ _. faults.new.items
        ≡ faults.old.items ++ faults_of (steps_of path.now) (missing scope (view value.now))) }
{
    for name in names_needed(scope) {
        if value.get(*name).is_none() {
            let name = Text::of(String::from_str(alloc, name)?);
            push_fault(alloc, path, Reason::MissingMember(name), faults)?;
        }
    }
    Ok(())
}

/// Returns the names of the members that an object must have. If its class is unknown, only `@type` is required.
fn names_needed(scope: Scope) -> &'static [&'static str]
    ensures { map (λ s. s.now) result.now ≡ names_wanted scope }
{
    match scope {
        Scope::Nothing | Scope::Carried => &[],
        Scope::Members(_, None) => &["@type"],
        Scope::Members(_, Some(class)) => required(class),
    }
}

fn other_reason(want: Want, value: &Value) -> Option<Reason>
    ensures value { option_to_list result ≡ other_reasons want (view value.now) }
    ensures in_range { IsAskedInRange want (view value.now) }
{
    match want {
        Want::Object(_) | Want::Reference(_) => None,
        Want::ClassText(role) => match value.as_str() {
            Some(text) if class_in(role, text).is_none() => Some(Reason::WrongClassText),
            _ => None,
        },
        Want::Status => match value.as_str() {
            Some(text) if text != "pre-election" => Some(Reason::NotPreElection),
            _ => None,
        },
        Want::Member(kind, needs_entry) => member_reason(kind, needs_entry, value),
        Want::Carried if is_float(value) => Some(Reason::NotWhole),
        Want::Carried => None,
    }
}

fn member_reason(kind: MemberKind, needs_entry: bool, value: &Value) -> Option<Reason>
    ensures value { option_to_list result ≡ other_reasons (Want.Member kind needs_entry) (view value.now) }
    ensures in_range { IsAskedInRange (Want.Member kind needs_entry) (view value.now) }
{
    match kind {
        MemberKind::Whole if is_float(value) => Some(Reason::NotWhole),
        MemberKind::Outside if !is_empty_array(value) => Some(Reason::OutsideProfile),
        MemberKind::StrangeReference => Some(Reason::UnknownReference),
        MemberKind::StrangeIdentity => Some(Reason::CarriedIdentity),
        MemberKind::Elections if is_empty_array(value) => Some(Reason::ElectionCount),
        MemberKind::Many(_) | MemberKind::Languages if needs_entry && is_empty_array(value) => {
            Some(Reason::EmptyArray)
        }
        _ => None,
    }
}

fn is_float(value: &Value) -> bool
    ensures value { result ≡ is_not_whole (view value.now) }
    ensures in_range { IsInRange (view value.now) }
{
    match value.as_number() {
        Some(number) => !is_whole(number),
        None => false,
    }
}

/// Returns whether a number is whole. If it is, it fits 64 bits.
fn is_whole(number: &Number) -> bool
    ensures value { result ≡ not (is_float (number_view number.now)) }
    ensures fits { IsTrue result → IsFittingNumber (number_view number.now) }
{
    number.as_u64().is_some() || number.as_i64().is_some()
}
