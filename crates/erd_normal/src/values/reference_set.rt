ghost use Rattle.std.specs.Prelude.{◌≡◌, ◌++◌, map, IfOk, OnOk};
ghost use Rattle.erd_normal.specs.Words.{string, view, text_of, rising_list, value_tokens};
ghost use Rattle.erd_normal.specs.code.Building.{id_of_rank};
ghost use Rattle.erd_normal.specs.code.NormalTree.{array_of, normal_reference, normal_selection_reference, reference_cmp};
ghost use Rattle.erd_normal.specs.code.Orders.{rank_named};

use crate::values::reference::{write_reference_to, write_selection_reference};
use crate::writer::Writer;
use erd_check::values::text_of;
use erd_tables::Family;
use erd_text::Output;
use serde_json::Value;
use std::alloc::AllocError;

/// Writes the array of the canonical references for a set of references to objects of a family, sorted by the keys of those
/// objects. The code sorts the ranks of the objects, which never decrease along the order of keys.
pub(crate) fn write_rising_references(
    writer: &Writer,
    family: Family,
    values: &[Value],
    out: &mut Output,
) -> Result<(), AllocError>
    ensures { OnOk result (out.new ≡ out.old ++ value_tokens (array_of
        (map (normal_reference writer.now.prefer (view writer.now.tree) family)
        (rising_list (reference_cmp writer.now.prefer (view writer.now.tree) family) (map view values.now))))) }
{
    let mut ranks = ranks_named(writer, family, values)?;
    ranks.sort_unstable();
    write_references_to(family, &ranks, out)
}

/// Returns the ranks of the objects that the references name.
fn ranks_named(writer: &Writer, family: Family, values: &[Value]) -> Result<Vec<usize>, AllocError>
    ensures { IfOk result (λ ranks. ranks.items
        ≡ map (λ v. rank_named writer.now.prefer (view writer.now.tree) family (text_of (view v))) values.now) }
{
    let mut ranks = Vec::with_capacity(writer.alloc, values.len())?;
    for value in values {
        ranks.push(writer.rank_named(family, text_of(value)))?;
    }
    Ok(ranks)
}

/// Writes the array of the canonical references to the objects that have these ranks.
fn write_references_to(family: Family, ranks: &[usize], out: &mut Output) -> Result<(), AllocError>
    ensures { OnOk result (out.new ≡ out.old ++ value_tokens (array_of (map (λ rank. string (id_of_rank family rank)) ranks.now))) }
{
    out.begin_array()?;
    for rank in ranks {
        write_reference_to(family, *rank, out)?;
    }
    out.end_array()
}

/// Writes the array of the canonical references for references to selections, in their order.
pub(crate) fn write_selection_references(
    writer: &Writer,
    values: &[Value],
    out: &mut Output,
) -> Result<(), AllocError>
    ensures { OnOk result (out.new ≡ out.old
        ++ value_tokens (array_of (map (λ v. normal_selection_reference writer.now.prefer (view writer.now.tree) (view v)) values.now))) }
{
    out.begin_array()?;
    for value in values {
        write_selection_reference(writer, value, out)?;
    }
    out.end_array()
}
