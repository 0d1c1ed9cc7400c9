ghost use Rattle.std.specs.Prelude.{IfErr, IfOk, option_copied};
ghost use Rattle.erd_canon.specs.Words.{AreDetailed, RefusedSide};

use crate::bytes::comparison::{left_tree_of, right_tree_of};
use crate::bytes::refusal::{Refusal, Side};
use erd_compare::{DetailedDifference, detailed_differences};
use erd_meaning::accept_with;
use std::alloc::Global;

/// Returns all differences between the meanings of two reports under a preferred type of identifier, or under none, with what
/// differs inside the selections of contests, within the bounds of `detailed_differences`. The reports are refused for the same
/// reasons, and in the same order, as by `compare_bytes_with`.
///
/// # Errors
///
/// As `compare_bytes_with`.
pub(crate) fn differences_of(
    alloc: Global,
    left: &[u8],
    right: &[u8],
    prefer: Option<&str>,
    first: usize,
    most_bytes: usize,
) -> Result<Vec<DetailedDifference>, Side>
    ensures ok { IfOk result (λ found. AreDetailed (option_copied prefer.entry) left.now right.now first most_bytes found.items) }
    ensures refused { IfErr result (RefusedSide (option_copied prefer.entry) left.now right.now) }
{
    let left_tree = left_tree_of(alloc, left)?;
    let left_report = match accept_with(alloc, &left_tree, prefer) {
        Ok(report) => report,
        Err(error) => return Err(Side::Left(Refusal::from(error))),
    };
    let right_tree = right_tree_of(alloc, right)?;
    let right_report = match accept_with(alloc, &right_tree, prefer) {
        Ok(report) => report,
        Err(error) => return Err(Side::Right(Refusal::from(error))),
    };
    match detailed_differences(alloc, &left_report, &right_report, first, most_bytes) {
        Ok(found) => Ok(found),
        Err(_) => Err(Side::Memory),
    }
}
