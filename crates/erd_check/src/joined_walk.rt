//! The shape of a report and what another visitor finds, in one walk.
ghost use Rattle.std.specs.Prelude.{◌≡◌, IfOk, IfErr};
ghost use Rattle.serde_json.specs.View.{view};
ghost use Rattle.erd_check.specs.Faults.{ShapeFault};
ghost use Rattle.erd_check.specs.Refusals.{RefusedFor};
ghost use Rattle.erd_check.specs.Shapes.{IsFaultless};
ghost use Rattle.erd_check.specs.Trees.{IsShallow};
ghost use Rattle.erd_check.specs.Visits.{IsInOrder, told_of_report};
ghost use Rattle.erd_check.specs.declared.want.Want.TheVariants.{Object};
ghost use Rattle.erd_tables.specs.declared.class.Role.TheVariants.{Report};

use crate::error::CheckError;
use crate::judge::ShapeJudge;
use crate::shaped::Shaped;
use crate::visitor::Visitor;
use crate::walk::{Findings, walk_both};
use erd_tables::{Fault, FaultList};
use serde_json::Value;
use std::alloc::Global;

/// A report whose shape has no fault, and what a visitor has found in it.
#[derive(Drop)]
pub struct Visited<'a> {
    /// The report.
    pub shaped: Shaped<'a>,
    /// What the visitor has found, in the order of places.
    pub found: Vec<Fault>,
}

/// Checks the shape of a report, and takes a visitor over it in the same walk. Returns what the visitor finds if the shape has no
/// fault.
///
/// The report must be nested at most 127 deep, as every report is that `serde_json` reads.
///
/// # Errors
///
/// `CheckError::Faults` if the shape has faults: all of them, as `faults` lists them. There is at least one.
///
/// `CheckError::Memory` if out of memory.
pub fn shape_with<'a, V: Visitor>(
    alloc: Global,
    visitor: &V,
    tree: &'a Value,
) -> Result<Visited<'a>, CheckError>
    requires nests { IsShallow (view tree.now) }
    ensures tree { IfOk result (λ v. v.shaped ≡ tree.now) }
    ensures faultless { IfOk result (λ _. IsFaultless tree.now) }
    ensures in_order { IfOk result (λ _. IsInOrder (Object Report) (view tree.now)) }
    ensures told { IfOk result (λ v. v.found.items ≡ told_of_report (V.tells visitor.now) (view tree.now)) }
    ensures refused { IfErr result (RefusedFor (ShapeFault (view tree.now))) }
{
    let Findings { first, second } = walk_both(alloc, &ShapeJudge, visitor, tree)?;
    let list = FaultList::of(first);
    if list.len() == 0 {
        Ok(Visited {
            shaped: Shaped::of(tree),
            found: second,
        })
    } else {
        Err(CheckError::Faults(list))
    }
}
