//! Reports in which all is judged with as few walks as there can be.
ghost use Rattle.std.specs.Prelude.{◌≡◌, option_copied, IfOk, IfErr};
ghost use Rattle.erd_meaning.specs.Words.{view, RefusedFor, IsShallow, IsAccepted, IsFault};

use crate::keys::key_rule::KeyRule;
use crate::report::Report;
use crate::report::reference_judge::shape_with_references;
use crate::report::resolving::{objects_told_apart, with_names};
use erd_check::{CheckError, shape};
use serde_json::Value;
use std::alloc::Global;

/// Returns a report if it is accepted: `shape` and then `resolve_with` say the same. This call is faster, since it judges the
/// shape and the references in one walk. The objects are met first, since references are looked up among them.
///
/// The report must be nested at most 127 deep, as every report is that `serde_json` reads.
///
/// # Errors
///
/// `CheckError::Faults` if the report is not accepted: all faults of the first phase that has any. The phases are shape,
/// identity, references and selections.
///
/// `CheckError::Memory` if out of memory.
///
/// ```
/// let report = accept_with(alloc, &tree, Some("local-level"))?;
/// assert_eq!(rt; report.preference(), Some("local-level"));
/// ```
pub fn accept_with<'a>(
    alloc: Global,
    tree: &'a Value,
    prefer: Option<&str>,
) -> Result<Report<'a>, CheckError>
    requires nests { IsShallow (view tree.now) }
    ensures tree { IfOk result (λ r. r.tree ≡ tree.now) }
    ensures prefer { IfOk result (λ r. r.prefer ≡ option_copied prefer.entry) }
    ensures accepted { IfOk result (λ _. IsAccepted (option_copied prefer.entry) (view tree.now)) }
    ensures refused { IfErr result (RefusedFor (IsFault (option_copied prefer.entry) (view tree.now))) }
{
    let keys = KeyRule { alloc, prefer };
    match objects_told_apart(&keys, tree) {
        Ok((objects, elections)) => {
            let shaped = shape_with_references(&keys, tree, &objects)?;
            let report = with_names(&keys, shaped, objects, elections)?;
            Ok(report)
        }
        Err(error) => {
            // the faults of the shape come before those of identity
            let _shaped = shape(alloc, tree)?;
            Err(error)
        }
    }
}
