ghost use Rattle.std.specs.Prelude.{◌≡◌, ◌++◌, [], map, option_to_list, IfOk, IfErr, IsTrue, true, false, ⊤};
ghost use Rattle.serde_json.specs.Data.{array, string};
ghost use Rattle.erd_check.specs.Visits.{IsSilentMember};
ghost use Rattle.erd_meaning.specs.Words.{Data, view, items_view, IsFaultless, IsShallow, steps_of, faults_of, IsFault, RefusedFor};
ghost use Rattle.erd_meaning.specs.code.ObjectWalk.{kept_objects};
ghost use Rattle.erd_meaning.specs.code.OwnIds.{HaveOwnIds};
ghost use Rattle.erd_meaning.specs.code.Resolved.{IsIdentified, IsReferred};
ghost use Rattle.erd_meaning.specs.code.ReferenceReasons.{id_reasons, leads_to_references, reference_reasons_told};
ghost use Rattle.erd_meaning.specs.code.Shown.{shown};

use crate::keys::key_rule::KeyRule;
use crate::objects::table::ObjectTable;
use erd_check::joined_walk::{Visited, shape_with};
use erd_check::path::{Path, push_fault};
use erd_check::visitor::{Member, Visit, Visitor};
use erd_check::want::Want;
use erd_check::{CheckError, Shaped, is_among};
use erd_tables::{Family, Fault, FaultList, MemberKind, Reason, Role};
use serde_json::Value;
use std::alloc::{AllocError, Global};

/// Returns a report as a `Shaped` if it has no fault of the shape and none of references, or the faults of the first of these two
/// that has any. Both are judged in one walk, and each reference is looked up in `objects`, which are those of the report. The
/// faults of references (reasons 15 to 17, and reason 11 for references) stand by place and then by reason.
///
/// The walk passes over identifiers, texts and carried values, in which no reference stands. Only faults and sets of more
/// than 16 entries take memory.
pub(crate) fn shape_with_references<'a>(
    keys: &KeyRule,
    tree: &'a Value,
    objects: &ObjectTable,
) -> Result<Shaped<'a>, CheckError>
    requires nests { IsShallow (view tree.now) }
    requires kept { map shown objects.now.objects ≡ kept_objects keys.now (view tree.now) }
    requires identified { IsIdentified keys.now tree.now }
    ensures tree { IfOk result (λ s. s ≡ tree.now) }
    ensures faultless { IfOk result (λ _. IsFaultless tree.now) }
    ensures referred { IfOk result (λ _. IsReferred tree.now) }
    ensures refused { IfErr result (RefusedFor (IsFault keys.now (view tree.now))) }
{
    let Visited { shaped, found } = shape_with(keys.alloc, &ReferenceJudge { objects }, tree)?;
    let references = FaultList::of(found);
    if references.len() == 0 {
        Ok(shaped)
    } else {
        Err(CheckError::Faults(references))
    }
}

/// The visitor that finds the faults of references to these objects. No two of them have the same `@id`.
#[derive(Drop)]
pub(crate) struct ReferenceJudge<'b, 'a> {
    pub(crate) objects: &'b ObjectTable<'a>,
    ghost told_apart: { HaveOwnIds (map shown objects.now.objects) },
}

impl<'b, 'a> Visitor for ReferenceJudge<'b, 'a> {
    ghost tells = { λ j. reference_reasons_told (map shown j.objects.now.objects) };

    ghost Known = { λ _ _ _. ⊤ };

    ghost is_thorough = { λ _. false };

    /// No identifier, no text but a reference, and no carried value has a reference inside.
    fn passes_over(&self, alloc: Global, member: Member) -> Result<bool, AllocError> {
        let want = member.want;
        if !may_have_references(want) {
            return Ok(true);
        }
        match member.value {
            Value::String(text) => Ok(self.is_clear_text(want, text.as_str())),
            Value::Array(items) => {
                self.is_clear_array(alloc, want, member.owner, items.as_slice())
            }
            _ => Ok(false),
        }
    }

    fn visit(&self, alloc: Global, visit: Visit, found: &mut Vec<Fault>) -> Result<(), AllocError> {
        let Want::Reference(family) = visit.want else {
            return Ok(());
        };
        let context = visit.context;
        if is_among(visit.value, visit.earlier) {
            push_fault(alloc, context.path, Reason::Repeated, found)?;
        }
        match visit.value.as_str() {
            Some(id) => push_any(
                alloc,
                self.id_reason(family, id, context.outer),
                context.path,
                found,
            ),
            None => Ok(()),
        }
    }
}

/// Returns `true` if the table asks for a reference, or for a value that may have references inside.
fn may_have_references(want: Want) -> bool
    ensures { result ≡ leads_to_references want }
{
    match want {
        Want::Object(role) => !matches!(role, Role::Identifier | Role::Label | Role::Language),
        Want::Reference(_) => true,
        Want::Member(kind, _) => matches!(
            kind,
            MemberKind::Many(_)
                | MemberKind::Keyed(_)
                | MemberKind::Elections
                | MemberKind::Content
                | MemberKind::Ordered
        ),
        Want::ClassText(_) | Want::Status | Want::Carried => false,
    }
}

impl<'b, 'a> ReferenceJudge<'b, 'a> {
    /// Returns `true` only if a member with this text is not a faulty reference.
    fn is_clear_text(&self, want: Want, text: &str) -> bool
        ensures { result ≡ true → (outer : Data) → reference_reasons_told (map shown self.now.objects.now.objects) outer want false (string text.now) ≡ [] }
    {
        match want {
            Want::Reference(family) => self.is_clear_anywhere(family, text),
            _ => true,
        }
    }

    /// Returns `true` only if a member with this array is one of references of which none has a fault. `owner` is the object that
    /// has the member.
    fn is_clear_array(
        &self,
        alloc: Global,
        want: Want,
        owner: &Value,
        items: &[Value],
    ) -> Result<bool, AllocError>
        ensures { IfOk result (λ clear. IsTrue clear
            → IsSilentMember (reference_reasons_told (map shown self.now.objects.now.objects)) (view owner.now) want (array (items_view items.now))) }
    {
        match want {
            Want::Member(MemberKind::Many(family), _) => {
                self.are_clear(alloc, family, true, owner, items)
            }
            Want::Member(MemberKind::Ordered, _) => {
                self.are_clear(alloc, Family::Selection, false, owner, items)
            }
            _ => Ok(false),
        }
    }

    /// Returns `true` only if a reference to the family with this text has no fault, whatever object has it. Of a selection this
    /// depends on the object.
    fn is_clear_anywhere(&self, family: Family, id: &str) -> bool
        ensures { result ≡ true → (outer : Data) → id_reasons (map shown self.now.objects.now.objects) outer family id.now ≡ [] }
    {
        if family == Family::Selection {
            return false;
        }
        match self.objects.position_on_trail(family, id) {
            Some((own, _)) => own == family,
            None => false,
        }
    }

    /// Returns the reason for which a reference with this text is refused, if there is one, except that it is repeated. If
    /// the reference is an entry of a list, `object` is the object that has the list.
    fn id_reason(&self, family: Family, id: &str, object: &Value) -> Option<Reason>
        ensures { option_to_list result ≡ id_reasons (map shown self.now.objects.now.objects) (view object.now) family id.now }
    {
        let Some((own, index)) = self.objects.position_on_trail(family, id) else {
            return Some(Reason::Unresolved);
        };
        if own != family {
            return Some(Reason::WrongFamily);
        }
        let is_other = self.is_elsewhere(family, index, object);
        is_other.then_some(Reason::SelectionOfOtherContest)
    }
}

/// Adds a fault for the reason, if there is one.
fn push_any(
    alloc: Global,
    reason: Option<Reason>,
    path: &Path,
    faults: &mut Vec<Fault>,
) -> Result<(), AllocError>
    ensures { IfOk result (λ _. faults.new.items ≡ faults.old.items ++ faults_of (steps_of path.now) (option_to_list reason)) }
{
    if let Some(reason) = reason {
        push_fault(alloc, path, reason, faults)?;
    }
    Ok(())
}
