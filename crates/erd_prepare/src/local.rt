//! Steps that leave out members by what stands there alone.
ghost use Rattle.std.specs.Prelude.{◌≡◌, ◌&&◌, [], true, Bool, List, ℕ, Some, IfOk, codes};
ghost use Rattle.std.specs.Option.{option_map_or};
ghost use Rattle.serde_json.specs.Find.{get};
ghost use Rattle.erd_check.specs.Faults.{is_empty_array, is_object};
ghost use Rattle.erd_prepare.specs.LocalSteps.{dropped_by};
ghost use Rattle.serde_json.specs.View.{view, items_view, members_view};
ghost use Rattle.erd_tables.specs.declared.class.Role.TheVariants.{Report};
ghost use Rattle.erd_check.specs.declared.want.Want.TheVariants.{Object};
ghost use Rattle.erd_prepare.specs.Local.{counts_nothing, dropping, is_coordinate, is_count_name, is_empty_label, is_empty_list, is_zero, is_zero_count};
ghost use Rattle.erd_prepare.specs.Local.{items_count_nothing, may_lack, member_counts_nothing, members_count_nothing, is_label, is_off_ballot};
ghost use Rattle.erd_prepare.specs.Local.{is_off_ballot_name, is_outside_member, is_required_in, is_stray_id, is_stray_identity};
ghost use Rattle.erd_prepare.specs.Local.{is_false, is_false_flag, is_flag, is_unseen, is_unseen_name};
ghost use Rattle.erd_prepare.specs.Changes.{told_by};
ghost use Rattle.erd_prepare.specs.Rules.{prepared, told};

use crate::asked::scope_in;
use crate::engine::{Done, prepare};
use crate::geography::is_geographic;
use crate::mender::Mender;
use erd_check::path::Path;
use erd_check::values::is_empty_array;
use erd_check::want::{Scope, Want, want_in};
use erd_tables::class::Class;
use erd_tables::member::{MemberKind, is_required_member};
use serde_json::{Map, Value};
use std::alloc::{AllocError, Global};

/// The members that a step leaves out.
#[derive(Clone, Copy)]
pub enum Local {
    /// `LatLng`, and the positions that a vendor writes in its place.
    Coordinates,
    /// `OfficeGroup`, `ElectionAdministration` and `PartyRegistration`.
    Outside,
    /// Labels without a translation that may be absent.
    EmptyTexts,
    /// `@id` where none belongs.
    StrayIds,
    /// `VoteCounts` and `OtherCounts` in which every number is zero.
    Counts,
    /// Lists without an entry that may be absent.
    EmptyLists,
    /// Members that no ballot shows and that may be absent.
    Unseen,
    /// Truth values that are false and that may be absent.
    FalseFlags,
}

/// Leaves out the members.
///
/// # Errors
///
/// `AllocError` if out of memory.
pub fn take_out(alloc: Global, what: Local, report: &Value) -> Result<Done, AllocError>
    ensures tree { IfOk result (λ done. view done.tree ≡ prepared (dropping (dropped_by what)) [] (Some (Object Report)) (view report.now)) }
    ensures changes { IfOk result (λ done. told_by done.changes.items ≡ told (dropping (dropped_by what)) [] (Some (Object Report)) (view report.now)) }
{
    prepare(alloc, &what, report)
}

impl Mender for Local {
    ghost rule = { λ s. dropping (dropped_by s) };

    fn scope(
        &self,
        _alloc: Global,
        want: Option<Want>,
        value: &Value,
    ) -> Result<Scope, AllocError> {
        Ok(scope_in(want, value))
    }

    fn shape(
        &self,
        _alloc: Global,
        _at: &Path,
        _want: Option<Want>,
        _value: &Value,
    ) -> Result<Option<Value>, AllocError> {
        Ok(None)
    }

    fn wraps(&self, _at: &Path, _want: Option<Want>, _object: &Value) -> bool {
        false
    }

    fn drops(
        &self,
        _alloc: Global,
        _at: &Path,
        scope: Scope,
        name: &str,
        value: &Value,
    ) -> Result<bool, AllocError> {
        Ok(match self {
            Local::Coordinates => is_coordinate(scope, name, value),
            Local::Outside => is_off_ballot(scope, name, value),
            Local::EmptyTexts => is_empty_label(scope, name, value),
            Local::StrayIds => is_stray_id(scope, name, value),
            Local::Counts => is_zero_count(scope, name, value),
            Local::EmptyLists => is_empty_list(scope, name, value),
            Local::Unseen => is_unseen(scope, name, value),
            Local::FalseFlags => is_false_flag(scope, name, value),
        })
    }

    fn lets_go(
        &self,
        _alloc: Global,
        _at: &Path,
        _array: Option<Want>,
        _entry: &Value,
    ) -> Result<bool, AllocError> {
        Ok(false)
    }

    fn puts(
        &self,
        alloc: Global,
        _at: &Path,
        _want: Option<Want>,
        _object: &Value,
    ) -> Result<Vec<(String, Value)>, AllocError> {
        Ok(Vec::new(alloc))
    }
}

fn is_coordinate(scope: Scope, name: &str, value: &Value) -> bool
    ensures { result ≡ is_coordinate scope name.now (view value.now) }
{
    name == "LatLng" || is_geographic(want_in(scope, name), name, value)
}

fn is_off_ballot(scope: Scope, name: &str, value: &Value) -> bool
    ensures { result ≡ is_off_ballot scope name.now (view value.now) }
{
    is_off_ballot_name(name) && is_outside_member(want_in(scope, name)) && !is_empty_array(value)
}

fn is_off_ballot_name(name: &str) -> bool
    ensures { result ≡ is_off_ballot_name name.now }
{
    name == "OfficeGroup" || name == "ElectionAdministration" || name == "PartyRegistration"
}

fn is_outside_member(want: Option<Want>) -> bool
    ensures { result ≡ is_outside_member want }
{
    matches!(want, Some(Want::Member(MemberKind::Outside, _)))
}

fn is_empty_label(scope: Scope, name: &str, value: &Value) -> bool
    ensures { result ≡ is_empty_label scope name.now (view value.now) }
{
    is_label(want_in(scope, name)) && !is_required_in(scope, name) && is_untranslated(value)
}

fn is_label(want: Option<Want>) -> bool
    ensures { result ≡ is_label want }
{
    matches!(want, Some(Want::Member(MemberKind::Label, _)))
}

fn is_required_in(scope: Scope, name: &str) -> bool
    ensures { result ≡ is_required_in scope name.now }
{
    match scope {
        Scope::Members(_, Some(class)) => is_required_member(class, name),
        _ => false,
    }
}

fn is_untranslated(value: &Value) -> bool
    ensures { result ≡ (is_object (view value.now) && option_map_or is_empty_array (get (codes "Text") (view value.now)) true) }
{
    value.is_object() && is_empty_text(value)
}

fn is_empty_text(label: &Value) -> bool
    ensures { result ≡ option_map_or is_empty_array (get (codes "Text") (view label.now)) true }
{
    match label.get("Text") {
        Some(text) => is_empty_array(text),
        None => true,
    }
}

fn is_stray_id(scope: Scope, name: &str, _value: &Value) -> bool
    ensures { result ≡ is_stray_id scope name.now (view _value.now) }
{
    name == "@id" && is_stray_identity(want_in(scope, name))
}

fn is_stray_identity(want: Option<Want>) -> bool
    ensures { result ≡ is_stray_identity want }
{
    matches!(want, Some(Want::Member(MemberKind::StrangeIdentity, _)))
}

fn is_empty_list(scope: Scope, name: &str, value: &Value) -> bool
    ensures { result ≡ is_empty_list scope name.now (view value.now) }
{
    is_empty_array(value) && may_lack(scope, name)
}

fn may_lack(scope: Scope, name: &str) -> bool
    ensures { result ≡ may_lack scope name.now }
{
    match scope {
        Scope::Members(_, Some(class)) => !is_required_member(class, name),
        Scope::Carried => true,
        _ => false,
    }
}

fn is_unseen(scope: Scope, name: &str, _value: &Value) -> bool
    ensures { result ≡ is_unseen scope name.now (view _value.now) }
{
    match scope {
        Scope::Members(_, Some(class)) => is_unseen_name(class, name),
        _ => false,
    }
}

fn is_unseen_name(class: Class, name: &str) -> bool
    ensures { result ≡ is_unseen_name class name.now }
{
    match class {
        Class::ReportingUnit => {
            name == "AuthorityIds" || name == "IsDistricted" || name == "IsMailOnly"
        }
        Class::Party | Class::Coalition => {
            name == "LeaderPersonIds" || name == "PartyScopeGpUnitIds"
        }
        Class::Office => name == "OfficeHolderPersonIds",
        Class::Candidate => name == "FileDate",
        Class::CandidateContest => name == "NumberRunoff",
        _ => false,
    }
}

fn is_false_flag(scope: Scope, name: &str, value: &Value) -> bool
    ensures { result ≡ is_false_flag scope name.now (view value.now) }
{
    is_flag(want_in(scope, name)) && !is_required_in(scope, name) && is_false(value)
}

fn is_flag(want: Option<Want>) -> bool
    ensures { result ≡ is_flag want }
{
    matches!(want, Some(Want::Member(MemberKind::Flag, _)))
}

fn is_false(value: &Value) -> bool
    ensures { result ≡ is_false (view value.now) }
{
    match value {
        Value::Bool(is_true) => !*is_true,
        Value::Null | Value::Number(_) | Value::String(_) | Value::Array(_) | Value::Object(_) =>
            false,
    }
}

fn is_zero_count(scope: Scope, name: &str, value: &Value) -> bool
    ensures { result ≡ is_zero_count scope name.now (view value.now) }
{
    is_count_name(name)
        && is_outside_member(want_in(scope, name))
        && !is_empty_array(value)
        && counts_nothing(value)
}

fn is_count_name(name: &str) -> bool
    ensures { result ≡ is_count_name name.now }
{
    name == "VoteCounts" || name == "OtherCounts"
}

/// Returns whether a member has counts that are not zero.
pub(crate) fn is_counted(scope: Scope, name: &str, value: &Value) -> bool {
    is_count_name(name) && is_outside_member(want_in(scope, name)) && !counts_nothing(value)
}

/// Returns whether a label that an object must have has no translation.
pub(crate) fn is_required_text(scope: Scope, name: &str, value: &Value) -> bool {
    is_label(want_in(scope, name)) && is_required_in(scope, name) && is_untranslated(value)
}

/// Returns whether every number in a value is zero.
#[cycle(counts)]
fn counts_nothing(value: &Value) -> bool
    ensures { result ≡ counts_nothing (view value.now) }
{
    match value {
        Value::Number(_) => is_zero(value),
        Value::Array(items) => items_count_nothing(items),
        Value::Object(members) => members_count_nothing(members),
        Value::Null | Value::Bool(_) | Value::String(_) => true,
    }
}

fn is_zero(value: &Value) -> bool
    ensures { result ≡ is_zero (view value.now) }
{
    match value.as_f64() {
        Some(number) => number == 0.0,
        None => false,
    }
}

#[cycle(counts)]
fn items_count_nothing(items: &Vec<Value>) -> bool
    ensures { result ≡ items_count_nothing (items_view items.now.items) }
{
    for item in items {
        if !counts_nothing(item) {
            return false;
        }
    }
    true
}

#[cycle(counts)]
fn members_count_nothing(members: &Map<String, Value>) -> bool
    ensures { result ≡ members_count_nothing (members_view members.now.entries) }
{
    for (name, member) in members.iter() {
        if !member_counts_nothing(name.as_str(), counts_nothing(member)) {
            return false;
        }
    }
    true
}

fn member_counts_nothing(name: &str, nothing: bool) -> bool
    ensures { result ≡ member_counts_nothing name.now nothing }
{
    name == "Round" || nothing
}
