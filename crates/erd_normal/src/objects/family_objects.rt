ghost use Rattle.std.specs.Prelude.{◌≡◌, ◌++◌, ◌<◌, Some, false, true, length, option_map, slice_get, OnOk};
ghost use Rattle.erd_normal.specs.Words.{view, has_float, class_of_object, has_keys, Placed, objects, value_tokens};
ghost use Rattle.erd_normal.specs.code.NormalTree.{array_of, normal_object_with, with_id};
ghost use Rattle.erd_normal.specs.code.WrittenTree.{holds_objects, written_object, written_objects, written_object_value};

use crate::objects::contest_selections::write_selections;
use crate::objects::due_members::{DueMember, DueValue};
use crate::objects::members::MemberRule;
use crate::objects::written_object::write_object;
use crate::values::ordered_content::write_content;
use crate::values::value_of_kind::{is_kept, write_of_kind};
use crate::writer::Writer;
use crate::writer::ids::{IdText, optional_id_text};
use erd_check::values::is_empty_array;
use erd_tables::{Family, MemberKind, Role};
use erd_text::Output;
use serde_json::Value;
use std::alloc::AllocError;

/// The rule for the members of the object at this position of its family.
#[derive(Drop)]
struct ObjectMembers<'a> {
    writer: &'a Writer<'a>,
    position: usize,
}

#[tactic(auto, using(crate::proofs::Common::unless_by_test))]
impl<'a> MemberRule for ObjectMembers<'a> {
    ghost value_of = { λ rule name kind d. written_object_value rule.writer.now.prefer (view rule.writer.now.tree) rule.position kind d };

    fn keeps(&self, _name: &str, kind: MemberKind, member: &Value) -> bool {
        if holds_objects(kind) {
            !is_empty_array(member)
        } else {
            is_kept(kind, member)
        }
    }

    fn write(&self, kind: MemberKind, member: &Value, out: &mut Output) -> Result<(), AllocError> {
        match kind {
            MemberKind::Content => write_content(self.writer, member, out),
            MemberKind::Keyed(Family::Selection) => {
                write_selections(self.writer, self.position, out)
            }
            _ => write_of_kind(self.writer, kind, member, out),
        }
    }
}

/// Returns whether a member of this kind holds the content of an object or its selections.
fn holds_objects(kind: MemberKind) -> bool
    ensures { result ≡ holds_objects kind }
{
    matches!(
        kind,
        MemberKind::Content | MemberKind::Keyed(Family::Selection)
    )
}

/// Writes the array of the canonical objects of a family in the election at a position, sorted by key. The objects of the
/// report itself stand at position 0.
pub(crate) fn write_family(
    writer: &Writer,
    family: Family,
    election: usize,
    out: &mut Output,
) -> Result<(), AllocError>
    ensures { OnOk result (out.new ≡ out.old ++ value_tokens (array_of (written_objects writer.now.prefer (view writer.now.tree) family election))) }
{
    out.begin_array()?;
    for position in writer.rising(family, election) {
        write_object_at(writer, family, *position, out)?;
    }
    out.end_array()
}

/// Writes the canonical object of a family at a position.
fn write_object_at(
    writer: &Writer,
    family: Family,
    position: usize,
    out: &mut Output,
) -> Result<(), AllocError>
    requires keyed { has_keys family ≡ true }
    requires there { position < length (objects family (view writer.now.tree)) }
    ensures { OnOk result ((o : Placed) → slice_get (objects family (view writer.now.tree)) position ≡ Some o
        → out.new ≡ out.old ++ value_tokens (written_object writer.now.prefer (view writer.now.tree) family position o.value)) }
{
    match writer.object(family, position) {
        Some(object) => {
            let rank = writer.rank_at(family, position);
            let id = optional_id_text(family, rank)?;
            let rule = ObjectMembers { writer, position };
            let role = Role::OfFamily(family);
            write_identified(&rule, role, &id, object, out)
        }
        None => unreachable!(),
    }
}

/// Writes an object that has the role, with each member written by the rule, and with this `@id`, if there is one.
fn write_identified<R: MemberRule>(
    rule: &R,
    role: Role,
    id: &Option<IdText>,
    value: &Value,
    out: &mut Output,
) -> Result<(), AllocError>
    requires whole { has_float (view value.now) ≡ false }
    ensures { OnOk result (out.new ≡ out.old
        ++ value_tokens (with_id (option_map (λ text. text.bytes) id.now)
        (normal_object_with (R.value_of rule.now) (class_of_object role (view value.now)) (view value.now)))) }
{
    match id {
        Some(id) => {
            let due = [DueMember {
                name: "@id",
                value: DueValue::Text(id.as_str()),
            }];
            write_object(rule, role, &due, value, out)
        }
        None => write_object(rule, role, &[], value, out),
    }
}
