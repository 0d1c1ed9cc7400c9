ghost use Rattle.std.specs.Prelude.{◌≡◌, ◌++◌, ◌<◌, Some, false, length, option_map, slice_get, OnOk};
ghost use Rattle.erd_normal.specs.Words.{items_of, view, has_float, class_of_object, contests};
ghost use Rattle.erd_normal.specs.Words.{selection_role, items_tokens, value_tokens, canonical_selection_id};
ghost use Rattle.erd_normal.specs.code.NormalTree.{array_of, normal_object_with, normal_value, with_id};
ghost use Rattle.erd_normal.specs.code.WrittenTree.{written_in_contest, written_selections};

use crate::objects::due_members::{DueMember, DueValue};
use crate::objects::members::MemberRule;
use crate::objects::written_object::write_object;
use crate::values::value_of_kind::{is_kept, write_of_kind};
use crate::writer::Writer;
use crate::writer::ids::selection_id_text;
use erd_check::values::entries_at;
use erd_tables::{Family, MemberKind, Role};
use erd_text::Output;
use serde_json::Value;
use std::alloc::AllocError;

/// The rule for the members of a selection.
#[derive(Drop)]
struct SelectionMembers<'a> {
    writer: &'a Writer<'a>,
}

impl<'a> MemberRule for SelectionMembers<'a> {
    ghost value_of = { λ rule name kind d. normal_value rule.writer.now.prefer (view rule.writer.now.tree) kind d };

    fn keeps(&self, _name: &str, kind: MemberKind, member: &Value) -> bool {
        is_kept(kind, member)
    }

    fn write(&self, kind: MemberKind, member: &Value, out: &mut Output) -> Result<(), AllocError> {
        write_of_kind(self.writer, kind, member, out)
    }
}

/// Writes the array of the canonical selections of the contest at a position, sorted by name.
pub(crate) fn write_selections(
    writer: &Writer,
    position: usize,
    out: &mut Output,
) -> Result<(), AllocError>
    ensures { OnOk result (out.new ≡ out.old ++ value_tokens (array_of (written_selections writer.now.prefer (view writer.now.tree) position))) }
{
    out.begin_array()?;
    match writer.object(Family::Contest, position) {
        Some(contest) => write_in_contest(writer, position, contest, out),
        None => out.end_array(),
    }
}

/// Writes the canonical selections of the contest at a position, and the end of their array.
fn write_in_contest(
    writer: &Writer,
    position: usize,
    contest: &Value,
    out: &mut Output,
) -> Result<(), AllocError>
    requires there { option_map (λ o. o.value) (slice_get (contests (view writer.now.tree)) position) ≡ Some (view contest.now) }
    requires whole { has_float (view contest.now) ≡ false }
    ensures { OnOk result (out.new ≡ out.old ++ items_tokens (items_of (written_in_contest writer.now.prefer (view writer.now.tree) (view contest.now)))) }
{
    let selections = entries_at(contest, "ContestSelection");
    let contest_rank = writer.rank_at(Family::Contest, position);
    let rising = writer.rising_selections(position);
    for (rank, index) in rising.iter().enumerate() {
        let ranks = (contest_rank, rank);
        write_selection(writer, ranks, entry_at(selections, *index), out)?;
    }
    out.end_array()
}

/// Returns the entry at a position.
fn entry_at(values: &[Value], position: usize) -> &Value
    requires there { position < length values.now }
    ensures { slice_get values.now position ≡ Some result.now }
{
    &values[position]
}

/// Writes the canonical selection with these ranks: that of its contest, and its own.
fn write_selection(
    writer: &Writer,
    ranks: (usize, usize),
    value: &Value,
    out: &mut Output,
) -> Result<(), AllocError>
    requires whole { has_float (view value.now) ≡ false }
    ensures { OnOk result (out.new ≡ out.old ++ value_tokens (with_id (Some (canonical_selection_id ranks.0 ranks.1))
        (normal_object_with (λ name k v. normal_value writer.now.prefer (view writer.now.tree) k v) (class_of_object selection_role (view value.now))
        (view value.now)))) }
{
    let id = selection_id_text(ranks.0, ranks.1)?;
    let due = [DueMember {
        name: "@id",
        value: DueValue::Text(id.as_str()),
    }];
    let rule = SelectionMembers { writer };
    let role = Role::OfFamily(Family::Selection);
    write_object(&rule, role, &due, value, out)
}
