//! Functions over the crates below `erd_canon`, as a caller writes them.
ghost use Rattle.std.specs.Prelude.{◌≡◌, IfOk, None};
ghost use Rattle.serde_json.specs.View.{view};
ghost use Rattle.erd_check.specs.Trees.{IsShallow};

use erd_check::{CheckError, shape};
use erd_compare::first_difference;
use erd_meaning::{Report, resolve};
use erd_normal::normal_tree;
use erd_tables::Family;
use serde_json::Value;
use std::alloc::Global;

/// An accepted report over a tree that was read before, without a preferred type of identifier.
pub fn report_of<'a>(alloc: Global, tree: &'a Value) -> Result<Report<'a>, CheckError>
    requires nests { IsShallow (view tree.now) }
    ensures prefer { IfOk result (λ report. report.prefer ≡ None) }
{
    let shaped = shape(alloc, tree)?;
    resolve(alloc, shaped)
}

/// The canonical tree of a tree, and how many candidates it has.
pub fn canonical_tree(alloc: Global, tree: &Value) -> Result<(Value, usize), CheckError>
    requires nests { IsShallow (view tree.now) }
{
    let report = report_of(alloc, tree)?;
    counted_form(alloc, &report)
}

/// The canonical tree of a report, and how many candidates it has.
fn counted_form(alloc: Global, report: &Report) -> Result<(Value, usize), CheckError> {
    let form = normal_tree(alloc, report)?;
    Ok((form, report.count(Family::Candidate)))
}

/// Whether two trees mean the same.
pub fn is_same_tree(alloc: Global, left: &Value, right: &Value) -> Result<bool, CheckError>
    requires left_nests { IsShallow (view left.now) }
    requires right_nests { IsShallow (view right.now) }
{
    let left = report_of(alloc, left)?;
    means(alloc, &left, right)
}

/// Whether a report without a preference means what a tree means.
fn means(alloc: Global, report: &Report, tree: &Value) -> Result<bool, CheckError>
    requires plain { report.now.prefer ≡ None }
    requires nests { IsShallow (view tree.now) }
{
    let other = report_of(alloc, tree)?;
    Ok(first_difference(alloc, report, &other)?.is_none())
}
