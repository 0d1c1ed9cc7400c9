ghost use Rattle.std.specs.Prelude.{◌≡◌, ◌++◌, Some, false, true, OnOk};
ghost use Rattle.serde_json.specs.Data.{Data};
ghost use Rattle.serde_json.specs.View.{view};
ghost use Rattle.serde_json.specs.Written.{has_float};
ghost use Rattle.erd_text.specs.Tokens.{value_tokens};
ghost use Rattle.erd_shown.specs.Shown.{shown_value};
ghost use Rattle.erd_shown.specs.code.Writing.{names_keys};

use crate::contests_and_headers::write_content;
use crate::references::{write_reference, write_reference_set};
use erd_check::values::entries_of;
use erd_meaning::Report;
use erd_tables::MemberKind;
use erd_text::{Output, write_label, write_rising_values, write_value};
use serde_json::Value;
use std::alloc::{AllocError, Global};

/// Writes what a value of this kind means, if it means anything by itself, and says whether it does.
pub(crate) fn write_shown(
    alloc: Global,
    report: &Report,
    kind: MemberKind,
    value: &Value,
    out: &mut Output,
) -> Result<(), AllocError>
    requires keyed { names_keys kind ≡ true }
    ensures { OnOk result (has_float (view value.now) ≡ false → (d : Data) → shown_value report.now.prefer (view report.now.tree) kind (view value.now) ≡ Some d
        → out.new ≡ out.old ++ value_tokens d) }
{
    match kind {
        MemberKind::Label => write_label(alloc, value, out),
        MemberKind::One(family) => write_reference(report, family, value, out),
        MemberKind::Many(family) => {
            write_reference_set(alloc, report, family, entries_of(value), out)
        }
        MemberKind::Identifiers | MemberKind::Languages => {
            write_rising_values(alloc, entries_of(value), out)
        }
        MemberKind::Content => write_content(report, value, out),
        _ => write_value(value, out),
    }
}
