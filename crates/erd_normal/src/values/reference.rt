ghost use Rattle.std.specs.Prelude.{◌≡◌, ◌++◌, OnOk};
ghost use Rattle.erd_normal.specs.Words.{string, view, value_tokens};
ghost use Rattle.erd_normal.specs.code.Building.{id_of_rank};
ghost use Rattle.erd_normal.specs.code.NormalTree.{normal_reference, normal_selection_reference};

use crate::writer::Writer;
use crate::writer::ids::{id_text, selection_id_text};
use erd_check::values::text_of;
use erd_tables::Family;
use erd_text::Output;
use serde_json::Value;
use std::alloc::AllocError;

/// Writes the canonical reference for a reference to an object of a family.
pub(crate) fn write_reference(
    writer: &Writer,
    family: Family,
    value: &Value,
    out: &mut Output,
) -> Result<(), AllocError>
    ensures { OnOk result (out.new ≡ out.old ++ value_tokens (normal_reference writer.now.prefer (view writer.now.tree) family (view value.now))) }
{
    let rank = writer.rank_named(family, text_of(value));
    write_reference_to(family, rank, out)
}

/// Writes the canonical reference to the object of a family that has this rank.
pub(crate) fn write_reference_to(
    family: Family,
    rank: usize,
    out: &mut Output,
) -> Result<(), AllocError>
    ensures { OnOk result (out.new ≡ out.old ++ value_tokens (string (id_of_rank family rank))) }
{
    let id = id_text(family, rank)?;
    out.string(id.as_str())
}

/// Writes the canonical reference for a reference to a selection.
pub(crate) fn write_selection_reference(
    writer: &Writer,
    value: &Value,
    out: &mut Output,
) -> Result<(), AllocError>
    ensures { OnOk result (out.new ≡ out.old ++ value_tokens (normal_selection_reference writer.now.prefer (view writer.now.tree) (view value.now))) }
{
    match writer.selection_ranks(text_of(value)) {
        Some((contest, rank)) => {
            let id = selection_id_text(contest, rank)?;
            out.string(id.as_str())
        }
        None => out.string(""),
    }
}
