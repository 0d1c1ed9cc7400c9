ghost use Rattle.std.specs.Prelude.{◌≡◌, false, IfOk};
ghost use Rattle.erd_normal.specs.Words.{Data, view, has_float, IsNoDeeper, IsShallow, IsTree, IsCanonicalFormOf, IsCanonicalText};

use crate::report::report_text::write_report;
use crate::writer::{Writer, orders_of};
use erd_meaning::Report;
use erd_text::Output;
use serde_json::Value;
use std::alloc::{AllocError, Global};

/// Returns the text of the canonical form of a report: the compact text of the only canonical tree that means what the report
/// means, under the preference that the report was resolved under.
///
/// The report has the orders of its objects by key. First, the selections of each contest are sorted by name. Then one pass over
/// the report writes the text, and sorts the entries of each set. It builds no tree.
///
/// # Errors
///
/// `AllocError` if out of memory.
///
/// ```
/// let text = normal_text(alloc, &report)?;
/// assert_eq!(rt; text.as_slice(), form.to_string(alloc)?.as_bytes());
/// ```
pub fn normal_text(alloc: Global, report: &Report) -> Result<Vec<u8>, AllocError>
    ensures { IfOk result (λ text. IsCanonicalText report.now.prefer (view report.now.tree) text.items) }
{
    text_of(alloc, report)
}

/// Returns the canonical form of a report: the only canonical tree that means what the report means, under the preference
/// that the report was resolved under. Its numbers are whole, and it is nested no deeper than the report. The tree is read
/// from the text that `normal_text` returns.
///
/// # Errors
///
/// `AllocError` if out of memory.
///
/// ```
/// let form = normal_tree(alloc, &report)?;
/// ```
pub fn normal_tree(alloc: Global, report: &Report) -> Result<Value, AllocError>
    ensures canonical { IfOk result (λ tree. IsCanonicalFormOf report.now.prefer (view report.now.tree) (view tree)) }
    ensures unique { IfOk result (λ tree. (u : Data) → IsTree u → IsCanonicalFormOf report.now.prefer (view report.now.tree) u → u ≡ view tree) }
    ensures depth { IfOk result (λ tree. IsNoDeeper (view tree) (view report.now.tree)) }
    ensures is_tree { IfOk result (λ tree. IsTree (view tree)) }
    ensures whole { IfOk result (λ tree. has_float (view tree) ≡ false) }
{
    let text = text_of(alloc, report)?;
    match Value::from_slice(alloc, &text) {
        Ok(tree) => Ok(tree),
        // the text is JSON, so memory ran out
        Err(_) => Err(AllocError),
    }
}

/// Returns the text of the canonical form of a report. The report nests no deeper than what can be read back.
fn text_of(alloc: Global, report: &Report) -> Result<Vec<u8>, AllocError>
    ensures text { IfOk result (λ text. IsCanonicalText report.now.prefer (view report.now.tree) text.items) }
    ensures nests { IfOk result (λ _. IsShallow (view report.now.tree)) }
{
    let root = report.tree();
    let orders = orders_of(alloc, report)?;
    let mut out = Output::new(alloc);
    write_report(&Writer::of(alloc, report, &orders), root, &mut out)?;
    Ok(out.into_text())
}
