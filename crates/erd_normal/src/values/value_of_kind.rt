ghost use Rattle.std.specs.Prelude.{◌≡◌, ◌++◌, Some, false, is_some, OnOk};
ghost use Rattle.erd_normal.specs.Words.{Data, view, has_float, Preference, value_tokens};
ghost use Rattle.erd_normal.specs.code.NormalTree.{normal_value};

use crate::values::reference::write_reference;
use crate::values::reference_set::{write_rising_references, write_selection_references};
use crate::writer::Writer;
use erd_check::values::{entries_of, is_empty_array};
use erd_tables::MemberKind;
use erd_text::{Output, write_label, write_rising_values, write_value};
use serde_json::Value;
use std::alloc::AllocError;

/// Returns whether a member of this kind, which holds no objects, is kept. An empty set or list is left out, and so are `@id`
/// and members outside the profile.
#[tactic(auto, using(crate::proofs::Common::unless_by_test))]
pub(crate) fn is_kept(kind: MemberKind, value: &Value) -> bool
    ensures { (π : Preference) (t : Data) → result ≡ is_some (normal_value π t kind (view value.now)) }
{
    match kind {
        MemberKind::Many(_)
        | MemberKind::Identifiers
        | MemberKind::Languages
        | MemberKind::Ordered => !is_empty_array(value),
        MemberKind::Identity | MemberKind::Outside => false,
        _ => true,
    }
}

/// Writes the canonical value of a member of this kind, which holds no objects and is kept.
#[tactic(auto, using(crate::proofs::Common::unless_by_test))]
pub(crate) fn write_of_kind(
    writer: &Writer,
    kind: MemberKind,
    value: &Value,
    out: &mut Output,
) -> Result<(), AllocError>
    ensures { OnOk result (has_float (view value.now) ≡ false → (d : Data)
        → normal_value writer.now.prefer (view writer.now.tree) kind (view value.now) ≡ Some d
        → out.new ≡ out.old ++ value_tokens d) }
{
    match kind {
        MemberKind::Label => write_label(writer.alloc, value, out),
        MemberKind::One(family) => write_reference(writer, family, value, out),
        MemberKind::Many(family) => {
            write_rising_references(writer, family, entries_of(value), out)
        }
        MemberKind::Identifiers | MemberKind::Languages => {
            write_rising_values(writer.alloc, entries_of(value), out)
        }
        MemberKind::Ordered => write_selection_references(writer, entries_of(value), out),
        _ => write_value(value, out),
    }
}
