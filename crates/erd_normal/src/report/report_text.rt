ghost use Rattle.std.specs.Prelude.{◌≡◌, ◌++◌, false, OnOk};
ghost use Rattle.erd_normal.specs.Words.{view, has_float, IsAccepted, IsTree, value_tokens};
ghost use Rattle.erd_normal.specs.code.View.{style_of, whole};
ghost use Rattle.erd_normal.specs.code.WrittenTree.{written_report_value};

use crate::objects::due_members::{DueMember, DueValue};
use crate::objects::family_objects::write_family;
use crate::objects::members::MemberRule;
use crate::objects::written_object::write_object;
use crate::report::election::write_elections;
use crate::values::value_of_kind::{is_kept, write_of_kind};
use crate::writer::Writer;
use erd_check::values::is_empty_array;
use erd_tables::{MemberKind, Role, is_envelope};
use erd_text::Output;
use serde_json::Value;
use std::alloc::AllocError;

/// The rule for the members of a report.
#[derive(Drop)]
struct ReportMembers<'a> {
    writer: &'a Writer<'a>,
}

#[tactic(auto, using(crate::proofs::Common::unless_by_test))]
impl<'a> MemberRule for ReportMembers<'a> {
    ghost value_of = { λ rule name kind d. written_report_value rule.writer.now.prefer (view rule.writer.now.tree) name kind d };

    fn keeps(&self, name: &str, kind: MemberKind, member: &Value) -> bool {
        match kind {
            MemberKind::Keyed(_) => !is_empty_array(member),
            MemberKind::Elections => true,
            _ => !is_envelope(name) && is_kept(kind, member),
        }
    }

    fn write(&self, kind: MemberKind, member: &Value, out: &mut Output) -> Result<(), AllocError> {
        match kind {
            MemberKind::Keyed(family) => write_family(self.writer, family, 0, out),
            MemberKind::Elections => write_elections(self.writer, out),
            _ => write_of_kind(self.writer, kind, member, out),
        }
    }
}

/// The members of the canonical envelope, in the order of their names.
const ENVELOPE: [DueMember<'static>; 7] = [
    DueMember {
        name: "Format",
        value: DueValue::Text("summary-contest"),
    },
    DueMember {
        name: "GeneratedDate",
        value: DueValue::Text("2000-01-01T00:00:00Z"),
    },
    DueMember {
        name: "Issuer",
        value: DueValue::Text("canonical"),
    },
    DueMember {
        name: "IssuerAbbreviation",
        value: DueValue::Text("canonical"),
    },
    DueMember {
        name: "SequenceEnd",
        value: DueValue::One,
    },
    DueMember {
        name: "SequenceStart",
        value: DueValue::One,
    },
    DueMember {
        name: "VendorApplicationId",
        value: DueValue::Text("canonical"),
    },
];

/// Writes the canonical form of a report, whose tree is `root`.
pub(crate) fn write_report(
    writer: &Writer,
    root: &Value,
    out: &mut Output,
) -> Result<(), AllocError>
    requires root { root.now ≡ writer.now.tree }
    requires accepted { IsAccepted writer.now.prefer (view root.now) }
    requires is_tree { IsTree (view root.now) }
    requires whole { has_float (view root.now) ≡ false }
    ensures { OnOk result (out.new ≡ out.old ++ value_tokens (whole (style_of writer.now.prefer (view writer.now.tree)) (view writer.now.tree))) }
{
    let rule = ReportMembers { writer };
    write_object(&rule, Role::Report, &ENVELOPE, root, out)
}
