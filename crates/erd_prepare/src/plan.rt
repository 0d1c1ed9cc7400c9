//! A step that is planned before it is done.
ghost use Rattle.std.specs.Prelude.{◌≡◌, [], false, option_map, Some, IfOk};
ghost use Rattle.std.specs.BTreeMap.{get_by_text};
ghost use Rattle.std.specs.Option.{option_map_or};
ghost use Rattle.serde_json.specs.View.{view};
ghost use Rattle.erd_tables.specs.Places.{pointer_text};
ghost use Rattle.erd_tables.specs.declared.class.Role.TheVariants.{Report};
ghost use Rattle.erd_check.specs.Paths.{steps_of};
ghost use Rattle.erd_check.specs.declared.want.Want.TheVariants.{Object};
ghost use Rattle.erd_prepare.specs.Changes.{told_by};
ghost use Rattle.erd_prepare.specs.Plans.{has_role, is_left_out, is_listed, member_put, planned};
ghost use Rattle.erd_prepare.specs.Rules.{prepared, seen, told};

use crate::asked::scope_in;
use crate::engine::{Done, prepare};
use crate::mender::Mender;
use crate::path_places::place_of;
use erd_check::path::Path;
use erd_check::want::{Scope, Want};
use erd_tables::member::MemberKind;
use erd_tables::pointer;
use serde_json::Value;
use std::alloc::{AllocError, Global};
use std::collections::BTreeMap;

/// What a plan does at a place.
#[derive(Drop)]
pub enum Edit {
    /// What stands there is left out.
    LeaveOut,
    /// This value is written there.
    Write(Value),
    /// This member is put into the object there.
    PutIn(String, Value),
    /// These members are put into the object there.
    PutAll(Vec<(String, Value)>),
}

/// What a step is to do, by the JSON Pointers of the places.
#[derive(Drop)]
pub struct Plan {
    pub(crate) edits: BTreeMap<String, Edit>,
}

/// Does what is planned. Only what the member table lists is changed: an edit of a carried value does nothing.
///
/// # Errors
///
/// `AllocError` if out of memory.
pub fn carry_out(alloc: Global, plan: &Plan, report: &Value) -> Result<Done, AllocError>
    ensures tree { IfOk result (λ done. view done.tree ≡ prepared (planned plan.now) [] (Some (Object Report)) (view report.now)) }
    ensures changes { IfOk result (λ done. told_by done.changes.items ≡ told (planned plan.now) [] (Some (Object Report)) (view report.now)) }
{
    prepare(alloc, plan, report)
}

impl Mender for Plan {
    ghost rule = { λ s. planned s };

    fn scope(
        &self,
        _alloc: Global,
        want: Option<Want>,
        value: &Value,
    ) -> Result<Scope, AllocError> {
        Ok(scope_in(want, value))
    }

    fn shape(
        &self,
        alloc: Global,
        at: &Path,
        want: Option<Want>,
        _value: &Value,
    ) -> Result<Option<Value>, AllocError> {
        if !is_listed(want) {
            return Ok(None);
        }
        match self.edit_at(alloc, at)? {
            Some(Edit::Write(value)) => Ok(Some(value.clone()?)),
            _ => Ok(None),
        }
    }

    fn wraps(&self, _at: &Path, _want: Option<Want>, _object: &Value) -> bool {
        false
    }

    fn drops(
        &self,
        alloc: Global,
        at: &Path,
        scope: Scope,
        _name: &str,
        _value: &Value,
    ) -> Result<bool, AllocError> {
        if has_role(scope) {
            self.leaves_out(alloc, at)
        } else {
            Ok(false)
        }
    }

    fn lets_go(
        &self,
        alloc: Global,
        at: &Path,
        array: Option<Want>,
        _entry: &Value,
    ) -> Result<bool, AllocError> {
        if is_listed(array) {
            self.leaves_out(alloc, at)
        } else {
            Ok(false)
        }
    }

    fn puts(
        &self,
        alloc: Global,
        at: &Path,
        want: Option<Want>,
        _object: &Value,
    ) -> Result<Vec<(String, Value)>, AllocError> {
        if !is_listed(want) {
            return Ok(Vec::new(alloc));
        }
        match self.edit_at(alloc, at)? {
            Some(edit) => member_put(alloc, edit),
            None => Ok(Vec::new(alloc)),
        }
    }
}

impl Plan {
    /// Returns the plan that does nothing.
    pub(crate) fn new(alloc: Global) -> Plan {
        Plan {
            edits: BTreeMap::new(alloc),
        }
    }

    /// Plans an edit at the place with a JSON Pointer. It is done in place of an earlier one there.
    ///
    /// # Errors
    ///
    /// `AllocError` if out of memory.
    pub(crate) fn add(&mut self, place: String, edit: Edit) -> Result<(), AllocError> {
        self.edits.insert(place, edit)?;
        Ok(())
    }

    /// Returns what is planned for a place, if anything is.
    fn edit_at(&self, alloc: Global, at: &Path) -> Result<Option<&Edit>, AllocError>
        ensures { IfOk result (λ edit. option_map (λ e. e.now) edit ≡ get_by_text self.now.edits (pointer_text (steps_of at.now))) }
    {
        let text = pointer(alloc, &place_of(alloc, at)?)?;
        Ok(self.edits.get(text.as_str()))
    }

    /// Returns whether what stands at a place is to be left out.
    fn leaves_out(&self, alloc: Global, at: &Path) -> Result<bool, AllocError>
        ensures { IfOk result (λ goes. goes ≡ option_map_or is_left_out (get_by_text self.now.edits (pointer_text (steps_of at.now))) false) }
    {
        match self.edit_at(alloc, at)? {
            Some(edit) => Ok(is_left_out(edit)),
            None => Ok(false),
        }
    }
}

fn is_left_out(edit: &Edit) -> bool
    ensures { result ≡ is_left_out edit.now }
{
    matches!(edit, Edit::LeaveOut)
}

/// Returns copies of the members that an edit puts into the object there.
fn member_put(alloc: Global, edit: &Edit) -> Result<Vec<(String, Value)>, AllocError>
    ensures { IfOk result (λ ms. seen ms.items ≡ member_put edit.now) }
{
    let mut puts = Vec::new(alloc);
    match edit {
        Edit::LeaveOut | Edit::Write(_) => Ok(puts),
        Edit::PutIn(name, value) => {
            puts.push((name.clone()?, value.clone()?))?;
            Ok(puts)
        }
        Edit::PutAll(members) => members_again(alloc, members),
    }
}

fn members_again(
    alloc: Global,
    members: &Vec<(String, Value)>,
) -> Result<Vec<(String, Value)>, AllocError>
    ensures { IfOk result (λ ms. seen ms.items ≡ seen members.now.items) }
{
    let mut again = Vec::new(alloc);
    for member in members {
        again.push((member.0.clone()?, member.1.clone()?))?;
    }
    Ok(again)
}

fn is_listed(want: Option<Want>) -> bool
    ensures { result ≡ is_listed want }
{
    match want {
        Some(Want::Carried | Want::Member(MemberKind::StrangeIdentity, _)) | None => false,
        Some(_) => true,
    }
}

fn has_role(scope: Scope) -> bool
    ensures { result ≡ has_role scope }
{
    matches!(scope, Scope::Members(_, _))
}
