ghost use Rattle.std.specs.Prelude.{◌≡◌, true, IfOk};
ghost use Rattle.erd_compare.specs.Words.{view, OfFamily, has_keys};
ghost use Rattle.erd_compare.specs.code.CommonRanks.{AreAllCommonRanks, AreCommonRanks, common_rank_of, common_ranks_in};
ghost use Rattle.erd_compare.specs.code.KeyedDifferences.{IsComparable};
ghost use Rattle.erd_compare.specs.code.RankedSides.{AreCommonByRank};

use crate::ranks::merging::common_ranks;
use erd_meaning::{PerFamily, Report};
use erd_tables::{Family, Role};
use std::alloc::{AllocError, Global};

/// One of the two reports that are compared.
#[derive(Clone, Copy)]
pub(crate) enum ComparedReport {
    /// The left report.
    Left,
    /// The right report.
    Right,
}

/// The ranks that the keys of two reports have in common. The common rank of a key of the left report is its rank there. The
/// keys that only the right report has follow, each with its rank on the right. So objects of a family have the same common
/// rank if and only if they have the same key.
#[derive(Drop)]
pub(crate) struct CommonRanks {
    /// For each family, the common ranks of the keys of the right report, in the rising order of these keys.
    families: PerFamily<Vec<usize>>,
    /// The same for the elections.
    elections: Vec<usize>,
}

impl CommonRanks {
    /// Returns the common ranks of the keys of two reports.
    pub(crate) fn of_both(
        alloc: Global,
        left: &Report,
        right: &Report,
    ) -> Result<CommonRanks, AllocError>
        requires left { IsComparable left.now.prefer (view left.now.tree) }
        requires right { IsComparable right.now.prefer (view right.now.tree) }
        ensures all { IfOk result (AreAllCommonRanks left.now right.now) }
        ensures by_rank { IfOk result (AreCommonByRank left.now right.now) }
    {
        let families = PerFamily::of(|family| ranks_of_family(alloc, family, left, right))?;
        let elections = common_ranks(alloc, left, right, Role::Election)?;
        Ok(CommonRanks {
            families,
            elections,
        })
    }

    /// Returns the common ranks of the keys of the right report with a role, in the rising order of these keys. The report
    /// itself has no key, and its rank is 0.
    pub(crate) fn of(&self, role: Role) -> &[usize]
        ensures { result.now ≡ common_ranks_in role self.now }
    {
        match role {
            Role::OfFamily(family) => self.families.get(family),
            Role::Election => &self.elections,
            _ => &[0],
        }
    }

    /// Returns the common rank of the key with a rank on a side, if there is such a key. On the left it is the rank.
    pub(crate) fn common_rank(&self, side: ComparedReport, role: Role, rank: usize) -> Option<usize>
        ensures { result ≡ common_rank_of self.now side role rank }
    {
        match side {
            ComparedReport::Left => Some(rank),
            ComparedReport::Right => self.of(role).get(rank).copied(),
        }
    }
}

/// Returns the common ranks of the keys of the right report in a family. For the selections, which have no keys, it returns
/// an empty list.
fn ranks_of_family(
    alloc: Global,
    family: Family,
    left: &Report,
    right: &Report,
) -> Result<Vec<usize>, AllocError>
    requires left { IsComparable left.now.prefer (view left.now.tree) }
    requires right { IsComparable right.now.prefer (view right.now.tree) }
    ensures { IfOk result (λ ranks. has_keys family ≡ true → AreCommonRanks left.now right.now (OfFamily family) ranks.items) }
{
    match family {
        Family::Selection => Ok(Vec::new(alloc)),
        _ => common_ranks(alloc, left, right, Role::OfFamily(family)),
    }
}
