ghost use Rattle.std.specs.Prelude.{◌≡◌, false, IfOk, IfErr};
ghost use Rattle.serde_json.specs.View.{view};
ghost use Rattle.serde_json.specs.Written.{has_float};
ghost use Rattle.erd_check.specs.Faults.{ShapeFault};
ghost use Rattle.erd_check.specs.Numbers.{HasFittingNumbers};
ghost use Rattle.erd_check.specs.Refusals.{RefusedFor};
ghost use Rattle.erd_check.specs.Shapes.{IsFaultless, IsShaped};
ghost use Rattle.erd_check.specs.Trees.{IsShallow, IsTree};

use crate::error::CheckError;
use crate::shape_faults::walked_faults;
use serde_json::Value;
use std::alloc::Global;
use std::marker::Model;

/// A report whose shape has no fault. It borrows the report. Contracts see the report.
#[derive(Debug, Drop)]
pub struct Shaped<'a> {
    tree: &'a Value,
}

impl<'a> Model for Shaped<'a> {
    ghost use Rattle.std.specs.Coded.{codes};
    ghost use Rattle.serde_json.specs.contracts.value.Value as tree_value;
    ghost use Rattle.serde_json.specs.declared.value.Value.{Value as Tree};
    ghost use Rattle.erd_check.specs.Shapes.{IsShaped};

    ghost Value = { Tree };

    ghost coded = { Prim.hlevel (codes, tree_value.the_row.coded) };

    ghost view = { λ s. s.tree.now };

    ghost invariant = { λ s. IsShaped s.tree.now };
}

impl<'a> Shaped<'a> {
    /// Returns the report as a `Shaped`.
    pub(crate) fn of(tree: &'a Value) -> Shaped<'a>
        requires shaped { IsShaped tree.now }
        ensures { result ≡ tree.now }
    {
        Shaped { tree }
    }

    /// Returns the report. Its shape has no fault, and it is nested at most 127 deep. The names of the members of each
    /// object in it strictly rise, and each number in it is whole and fits 64 bits.
    ///
    /// ```
    /// assert!(rt; same_json(shaped.tree(), &tree));
    /// ```
    pub fn tree(&self) -> &'a Value
        ensures tree { result.now ≡ self.now }
        ensures faultless { IsFaultless result.now }
        ensures nests { IsShallow (view result.now) }
        ensures is_tree { IsTree (view result.now) }
        ensures whole { has_float (view result.now) ≡ false }
        ensures fits { HasFittingNumbers (view result.now) }
    {
        self.tree
    }
}

/// Checks the shape of a report. Returns the report as a `Shaped` if its shape has no fault.
///
/// The report must be nested at most 127 deep, as every report is that `serde_json` reads.
///
/// # Errors
///
/// `CheckError::Faults` if the shape has faults: all of them, as `faults` lists them. There is at least one.
///
/// `CheckError::Memory` if out of memory.
///
/// ```
/// let tree = Value::from_str(alloc, BALLOT)?;
/// let shaped = shape(alloc, &tree)?;
/// ```
pub fn shape<'a>(alloc: Global, tree: &'a Value) -> Result<Shaped<'a>, CheckError>
    requires nests { IsShallow (view tree.now) }
    ensures tree { IfOk result (λ s. s ≡ tree.now) }
    ensures ok { IfOk result (λ _. IsFaultless tree.now) }
    ensures refused { IfErr result (RefusedFor (ShapeFault (view tree.now))) }
{
    let list = walked_faults(alloc, tree)?;
    if list.len() == 0 {
        Ok(Shaped { tree })
    } else {
        Err(CheckError::Faults(list))
    }
}
