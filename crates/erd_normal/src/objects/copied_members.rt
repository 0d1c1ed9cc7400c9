ghost use Rattle.std.specs.Prelude.{◌≡◌, ◌++◌, false, OnOk, Some};
ghost use Rattle.erd_normal.specs.Words.{view, has_float, value_tokens};
ghost use Rattle.erd_normal.specs.code.Building.{put_in};
ghost use Rattle.erd_normal.specs.code.DueMembers.{AreDue, due_list};

use crate::objects::due_members::DueMember;
use crate::objects::members::{MemberRule, write_members};
use erd_tables::{Class, MemberKind};
use erd_text::{Output, write_value};
use serde_json::Value;
use std::alloc::AllocError;

/// The rule that keeps each member as it is.
#[derive(Drop)]
struct CopiedMembers;

impl MemberRule for CopiedMembers {
    ghost value_of = { λ rule name kind d. Some d };

    fn keeps(&self, _name: &str, _kind: MemberKind, _member: &Value) -> bool {
        true
    }

    fn write(&self, _kind: MemberKind, member: &Value, out: &mut Output) -> Result<(), AllocError> {
        write_value(member, out)
    }
}

/// Writes a value as it is, but an object with the members that are put in.
pub(crate) fn write_with(
    due: &[DueMember],
    value: &Value,
    out: &mut Output,
) -> Result<(), AllocError>
    ensures { OnOk result (AreDue due.now → has_float (view value.now) ≡ false
        → out.new ≡ out.old ++ value_tokens (put_in (due_list due.now) (view value.now))) }
{
    match value {
        Value::Object(members) => {
            // the rule asks for no class
            let class = Class::InternationalizedText;
            write_members(&CopiedMembers, class, due, members, out)
        }
        other => write_value(other, out),
    }
}
