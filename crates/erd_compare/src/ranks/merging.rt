//! The rising keys of two reports, merged.
ghost use Rattle.std.specs.Prelude.{◌≡◌, true, slice_get, IfOk};
ghost use Rattle.erd_compare.specs.Words.{view};
ghost use Rattle.erd_compare.specs.code.CommonRanks.{AreCommonRanks, next_cmp};
ghost use Rattle.erd_compare.specs.code.KeyedDifferences.{IsComparable, is_ranked, rising_in_role};

use crate::ranks::role_objects::{key_at_rank, rising};
use erd_meaning::Report;
use erd_tables::Role;
use std::alloc::{AllocError, Global};
use std::cmp::Ordering;

/// Returns the common ranks of the keys of the right report with a role, in the rising order of these keys: the rank on the
/// left of a key that the left report has, and for any other key its own rank after all of the left report.
pub(crate) fn common_ranks(
    alloc: Global,
    left: &Report,
    right: &Report,
    role: Role,
) -> Result<Vec<usize>, AllocError>
    requires left { IsComparable left.now.prefer (view left.now.tree) }
    requires right { IsComparable right.now.prefer (view right.now.tree) }
    requires ranked { is_ranked role ≡ true }
    ensures { IfOk result (λ ranks. AreCommonRanks left.now right.now role ranks.items) }
{
    let ones = rising(left, role);
    let others = rising(right, role);
    let mut ranks = Vec::with_capacity(alloc, others.len())?;
    let mut passed = 0;
    while ranks.len() < others.len() {
        match next_cmp(left, right, role, passed, ranks.len()) {
            Ordering::Less => passed += 1,
            Ordering::Equal => ranks.push(passed)?,
            Ordering::Greater => ranks.push(ones.len() + ranks.len())?,
        }
    }
    Ok(ranks)
}

/// Compares the key of the left report at a rank with the key of the right report at another rank. If the left report has no
/// key there, the right one is less.
fn next_cmp(left: &Report, right: &Report, role: Role, rank: usize, other_rank: usize) -> Ordering
    requires ranked { is_ranked role ≡ true }
    ensures { result ≡ next_cmp (slice_get (rising_in_role left.now.prefer (view left.now.tree) role) rank)
        (slice_get (rising_in_role right.now.prefer (view right.now.tree) role) other_rank) }
{
    match (
        key_at_rank(left, role, rank),
        key_at_rank(right, role, other_rank),
    ) {
        (Some(key), Some(other)) => key.cmp(&other),
        _ => Ordering::Greater,
    }
}
