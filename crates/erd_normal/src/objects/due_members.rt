ghost use Rattle.std.specs.Prelude.{◌≡◌, ◌++◌, ◌∷◌, drop, IfOk, OnOk};
ghost use Rattle.erd_normal.specs.Words.{key, no_members, members_tokens, value_tokens};
ghost use Rattle.erd_normal.specs.code.Building.{put_all};
ghost use Rattle.erd_normal.specs.code.DueMembers.{AreDue, WritesThrough, due_list, due_value};

use erd_text::Output;
use std::alloc::AllocError;
use std::cmp::Ordering;

/// A member that is put into an object while the object is written. It replaces any member of the same name.
#[derive(Clone, Copy)]
pub(crate) struct DueMember<'a> {
    pub(crate) name: &'a str,
    pub(crate) value: DueValue<'a>,
}

/// The value of a member that is put into an object.
#[derive(Clone, Copy)]
pub(crate) enum DueValue<'a> {
    /// A text.
    Text(&'a str),
    /// The number 1.
    One,
}

/// Writes the members from the position on, up to the one with the name. Returns whether it has written one with the name,
/// and the position of the first member that is left.
pub(crate) fn write_through(
    due: &[DueMember],
    at: usize,
    name: &str,
    out: &mut Output,
) -> Result<(bool, usize), AllocError>
    ensures { IfOk result (λ r. AreDue due.now → WritesThrough (due_list (drop at due.now)) (due_list (drop r.1 due.now)) name.now r.0 out.old out.new) }
{
    let Some(first) = due.get(at) else {
        return Ok((false, at));
    };
    match first.name.cmp(name) {
        Ordering::Greater => Ok((false, at)),
        Ordering::Equal => {
            write_due(first, out)?;
            Ok((true, at + 1))
        }
        Ordering::Less => {
            write_due(first, out)?;
            write_through(due, at + 1, name, out)
        }
    }
}

/// Writes the members from the position on.
pub(crate) fn write_rest(due: &[DueMember], at: usize, out: &mut Output) -> Result<(), AllocError>
    ensures { OnOk result (AreDue due.now
        → out.old ++ members_tokens (put_all (due_list (drop at due.now)) no_members) ≡ out.new ++ members_tokens no_members) }
{
    let Some(first) = due.get(at) else {
        return Ok(());
    };
    write_due(first, out)?;
    write_rest(due, at + 1, out)
}

fn write_due(member: &DueMember, out: &mut Output) -> Result<(), AllocError>
    ensures { OnOk result (out.new ≡ out.old ++ key member.now.name.now ∷ value_tokens (due_value member.now.value)) }
{
    out.key(member.name)?;
    match member.value {
        DueValue::Text(text) => out.string(text),
        DueValue::One => out.u64(1),
    }
}
