ghost use Rattle.std.specs.Prelude.{◌≡◌, ◌++◌, ◌<◌, Some, length, slice_get, OnOk};
ghost use Rattle.erd_normal.specs.Words.{view, Placed, elections, value_tokens};
ghost use Rattle.erd_normal.specs.code.NormalTree.{array_of};
ghost use Rattle.erd_normal.specs.code.WrittenTree.{written_election, written_elections, written_election_value};

use crate::objects::family_objects::write_family;
use crate::objects::members::MemberRule;
use crate::objects::written_object::write_object;
use crate::values::value_of_kind::{is_kept, write_of_kind};
use crate::writer::Writer;
use erd_check::values::is_empty_array;
use erd_tables::{MemberKind, Role};
use erd_text::Output;
use serde_json::Value;
use std::alloc::AllocError;

/// The rule for the members of the election at this position.
#[derive(Drop)]
struct ElectionMembers<'a> {
    writer: &'a Writer<'a>,
    election: usize,
}

#[tactic(auto, using(crate::proofs::Common::unless_by_test))]
impl<'a> MemberRule for ElectionMembers<'a> {
    ghost value_of = { λ rule name kind d. written_election_value rule.writer.now.prefer (view rule.writer.now.tree) rule.election kind d };

    fn keeps(&self, _name: &str, kind: MemberKind, member: &Value) -> bool {
        match kind {
            MemberKind::Keyed(_) => !is_empty_array(member),
            _ => is_kept(kind, member),
        }
    }

    fn write(&self, kind: MemberKind, member: &Value, out: &mut Output) -> Result<(), AllocError> {
        match kind {
            MemberKind::Keyed(family) => { write_family(self.writer, family, self.election, out) }
            _ => write_of_kind(self.writer, kind, member, out),
        }
    }
}

/// Writes the array of the canonical elections of a report, sorted by key.
pub(crate) fn write_elections(writer: &Writer, out: &mut Output) -> Result<(), AllocError>
    ensures { OnOk result (out.new ≡ out.old ++ value_tokens (array_of (written_elections writer.now.prefer (view writer.now.tree)))) }
{
    out.begin_array()?;
    for position in writer.report().rising_elections() {
        write_election_at(writer, *position, out)?;
    }
    out.end_array()
}

/// Writes the canonical election at a position.
fn write_election_at(writer: &Writer, position: usize, out: &mut Output) -> Result<(), AllocError>
    requires there { position < length (elections (view writer.now.tree)) }
    ensures { OnOk result ((e : Placed) → slice_get (elections (view writer.now.tree)) position ≡ Some e
        → out.new ≡ out.old ++ value_tokens (written_election writer.now.prefer (view writer.now.tree) position e.value)) }
{
    match writer.election(position) {
        Some(election) => {
            let rule = ElectionMembers {
                writer,
                election: position,
            };
            write_object(&rule, Role::Election, &[], election, out)
        }
        None => unreachable!(),
    }
}
