ghost use Rattle.std.specs.Prelude.{◌≡◌, ◌++◌, ℕ, List, Option, Some, false, is_some, drop, IfOk, OnOk};
ghost use Rattle.erd_normal.specs.Words.{Data, Members, object, view, members_view, has_float};
ghost use Rattle.erd_normal.specs.Words.{members_have_float, MemberKind as Kind, members_tokens, value_tokens};
ghost use Rattle.erd_normal.specs.code.Building.{first_if, put_all};
ghost use Rattle.erd_normal.specs.code.DueMembers.{AreDue, due_list};
ghost use Rattle.erd_normal.specs.code.NormalTree.{normal_members};

use crate::objects::due_members::{DueMember, write_rest, write_through};
use erd_tables::{Class, MemberKind, member_kind};
use erd_text::Output;
use serde_json::{Map, Value};
use std::alloc::AllocError;

/// A rule that gives the canonical members of an object.
pub(crate) trait MemberRule {
    // The canonical value of a member, by its name and kind, if the member is kept.
    ghost value_of: { Self → List ℕ → Kind → Data → Option Data };

    /// Returns whether the member is kept.
    fn keeps(&self, name: &str, kind: MemberKind, member: &Value) -> bool
        ensures { result ≡ is_some (value_of self.now name.now kind (view member.now)) };

    /// Writes the canonical value of a member that is kept.
    fn write(&self, kind: MemberKind, member: &Value, out: &mut Output) -> Result<(), AllocError>
        ensures { OnOk result (has_float (view member.now) ≡ false → (name : List ℕ) (d : Data) → value_of self.now name kind (view member.now) ≡ Some d
            → out.new ≡ out.old ++ value_tokens d) };
}

/// Writes an object of the class with the members that the rule gives, each from the member with the same name, and with
/// those that are put in.
pub(crate) fn write_members<R: MemberRule>(
    rule: &R,
    class: Class,
    due: &[DueMember],
    members: &Map<String, Value>,
    out: &mut Output,
) -> Result<(), AllocError>
    ensures { OnOk result (AreDue due.now → members_have_float (members_view members.now.entries) ≡ false
        → out.new ≡ out.old ++ value_tokens
        (object (put_all (due_list due.now) (normal_members (R.value_of rule.now) class (members_view members.now.entries))))) }
{
    out.begin_object()?;
    let mut at = 0;
    for (name, member) in members.iter() {
        let name = name.as_str();
        let member = (name, member_kind(class, name), member);
        at = write_member(rule, due, at, member, out)?;
    }
    write_rest(due, at, out)?;
    out.end_object()
}

/// Writes a member if it is kept, or the one that is put in its place, after those that are put in before it. Returns the
/// position of the first that is left.
fn write_member<R: MemberRule>(
    rule: &R,
    due: &[DueMember],
    at: usize,
    member: (&str, MemberKind, &Value),
    out: &mut Output,
) -> Result<usize, AllocError>
    ensures { IfOk result (λ left. AreDue due.now → has_float (view member.entry.2.now) ≡ false → (ms : Members)
        → out.old ++ members_tokens (put_all (due_list (drop at due.now))
        (first_if member.entry.0.now (R.value_of rule.now member.entry.0.now member.entry.1 (view member.entry.2.now)) ms))
        ≡ out.new ++ members_tokens (put_all (due_list (drop left due.now)) ms)) }
{
    let (name, kind, value) = member;
    if !rule.keeps(name, kind, value) {
        return Ok(at);
    }
    let (is_replaced, left) = write_through(due, at, name, out)?;
    if !is_replaced {
        out.key(name)?;
        rule.write(kind, value, out)?;
    }
    Ok(left)
}
