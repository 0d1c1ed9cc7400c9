ghost use Rattle.std.specs.Prelude.{◌≡◌, ◌++◌, false, OnOk};
ghost use Rattle.erd_normal.specs.Words.{view, has_float, class_of_object, value_tokens};
ghost use Rattle.erd_normal.specs.code.Building.{put_in};
ghost use Rattle.erd_normal.specs.code.DueMembers.{AreDue, due_list};
ghost use Rattle.erd_normal.specs.code.NormalTree.{normal_object_with};

use crate::objects::copied_members::write_with;
use crate::objects::due_members::DueMember;
use crate::objects::members::{MemberRule, write_members};
use erd_check::values::class_of_object;
use erd_tables::Role;
use erd_text::Output;
use serde_json::Value;
use std::alloc::AllocError;

/// Writes an object that has the role, with each member written by the rule, and with the members that are put in.
pub(crate) fn write_object<R: MemberRule>(
    rule: &R,
    role: Role,
    due: &[DueMember],
    value: &Value,
    out: &mut Output,
) -> Result<(), AllocError>
    requires due { AreDue due.now }
    requires whole { has_float (view value.now) ≡ false }
    ensures { OnOk result (out.new ≡ out.old
        ++ value_tokens (put_in (due_list due.now) (normal_object_with (R.value_of rule.now) (class_of_object role (view value.now)) (view value.now)))) }
{
    match (class_of_object(role, value), value) {
        (Some(class), Value::Object(members)) => write_members(rule, class, due, members, out),
        _ => write_with(due, value, out),
    }
}
