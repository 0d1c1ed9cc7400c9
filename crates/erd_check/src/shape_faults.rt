ghost use Rattle.std.specs.Prelude.{IfOk};
ghost use Rattle.serde_json.specs.View.{view};
ghost use Rattle.erd_tables.specs.Faults.{ListsAll};
ghost use Rattle.erd_check.specs.Faults.{ShapeFault};
ghost use Rattle.erd_check.specs.Trees.{IsShallow};
ghost use Rattle.erd_check.specs.code.Walk.{IsAskedInRange};
ghost use Rattle.erd_check.specs.Visits.{IsInOrder, IsKnown};
ghost use Rattle.erd_check.specs.declared.want.Want.TheVariants.{Object};
ghost use Rattle.erd_tables.specs.declared.class.Role.TheVariants.{Report};

use crate::judge::ShapeJudge;
use crate::walk::walk_report;
use erd_tables::FaultList;
use serde_json::Value;
use std::alloc::{AllocError, Global};

/// Returns all faults of the shape of a report, each once, by place and then by reason. They have the reasons 1 to 11
/// of docs/PROFILE.md. A repeated reference has reason 11 too, but is not a fault of the shape. The list is empty if
/// and only if the shape has no fault.
///
/// The report must be nested at most 127 deep, as every report is that `serde_json` reads. It is walked once. Only
/// faults and sets of more than 16 entries take memory, so a usual report without faults takes none.
///
/// # Errors
///
/// `AllocError` if out of memory.
///
/// ```
/// let tree = Value::from_str(alloc, r#"{"@type":"ElectionResults.ElectionReport"}"#)?;
/// let found = faults(alloc, &tree)?;
/// assert_eq!(rt; found.len(), 2);
/// ```
pub fn faults(alloc: Global, tree: &Value) -> Result<FaultList, AllocError>
    requires nests { IsShallow (view tree.now) }
    ensures { IfOk result (ListsAll (ShapeFault (view tree.now))) }
{
    walked_faults(alloc, tree)
}

/// Returns the same faults as `faults`. On `Ok` it is also known that the names in each visited object rise, and that whole
/// numbers fit 64 bits where the table asks for whole numbers.
pub(crate) fn walked_faults(alloc: Global, tree: &Value) -> Result<FaultList, AllocError>
    ensures all { IfOk result (ListsAll (ShapeFault (view tree.now))) }
    ensures in_order { IfOk result (λ _. IsInOrder (Object Report) (view tree.now)) }
    ensures in_range { IfOk result (λ _. IsKnown IsAskedInRange (Object Report) (view tree.now)) }
{
    let found = walk_report(alloc, &ShapeJudge, tree)?;
    Ok(FaultList::of(found))
}
