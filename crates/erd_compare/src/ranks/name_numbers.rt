//! Numbers in place of the names of selections. Each name is hashed once. From then on numbers are compared, so it takes no
//! longer if names are long.
ghost use Rattle.std.specs.Prelude.{◌≡◌, [], map, option_and_then, option_map, slice_get, IfOk};
ghost use Rattle.erd_compare.specs.Words.{filter_map, position_or_len, view, insert_all, objects, with_ranks};
ghost use Rattle.erd_meaning.specs.Words.{joined_start, report_start};
ghost use Rattle.erd_tables.specs.declared.class.Family.TheVariants as family;
ghost use Rattle.erd_compare.specs.code.CommonNames.{AreNameNumbers, name_eq, name_told, ranks_told};
ghost use Rattle.erd_compare.specs.code.CommonRanks.{common_rank_of};
ghost use Rattle.erd_compare.specs.code.RankedSides.{AreCommonByRank};

use crate::ranks::common_ranks::{CommonRanks, ComparedReport};
use erd_meaning::{RankedName, Report, SaltedSet, SelectionName};
use erd_tables::{Family, Role};
use std::alloc::{AllocError, Global};

/// The numbers of the names of the selections of both reports. Two selections have the same number if and only if they have
/// the same name. A selection that has no name has no number.
#[derive(Drop)]
pub(crate) struct NameNumbers {
    /// The numbers of the left report, by the positions of its selections.
    pub(crate) left: Vec<Option<usize>>,
    /// The numbers of the right report, by the positions of its selections.
    pub(crate) right: Vec<Option<usize>>,
}

/// Returns the numbers of the names of the selections of two reports. The set of the names hashes them under the salts of
/// both.
pub(crate) fn names_of_both<'a>(
    alloc: Global,
    left: &'a Report,
    right: &'a Report,
    common: &CommonRanks,
) -> Result<NameNumbers, AllocError>
    requires common { AreCommonByRank left.now right.now common.now }
    ensures { IfOk result (AreNameNumbers left.now right.now) }
{
    let mut names = no_names(alloc, left, right);
    let left = numbers_of_names(alloc, left, common, ComparedReport::Left, &mut names)?;
    let right = numbers_of_names(alloc, right, common, ComparedReport::Right, &mut names)?;
    Ok(NameNumbers { left, right })
}

/// Returns a set without names, under the salts of both reports.
fn no_names<'a>(
    alloc: Global,
    left: &'a Report,
    right: &'a Report,
) -> SaltedSet<RankedName<&'a SelectionName>>
    ensures start { result.start ≡ joined_start (report_start left.now.prefer (view left.now.tree)) (report_start right.now.prefer (view right.now.tree)) }
    ensures keys { result.keys ≡ [] }
{
    SaltedSet::new(alloc, left.salt().joined(&right.salt()))
}

/// Returns the numbers of the names of the selections of a report. The number of a name is its position in the set, to which
/// the names are added.
fn numbers_of_names<'a>(
    alloc: Global,
    report: &'a Report,
    common: &CommonRanks,
    side: ComparedReport,
    names: &mut SaltedSet<RankedName<&'a SelectionName>>,
) -> Result<Vec<Option<usize>>, AllocError>
    ensures names { IfOk result (λ _. map with_ranks names.new.keys
        ≡ insert_all name_eq (map with_ranks names.old.keys)
        (filter_map (λ o. name_told common.now side report.now o.value) (objects family.Selection (view report.now.tree)))) }
    ensures numbers { IfOk result (λ numbers. numbers.items
        ≡ map (λ o. option_map (λ name. position_or_len (name_eq name) (map with_ranks names.new.keys)) (name_told common.now side report.now o.value))
        (objects family.Selection (view report.now.tree))) }
{
    let count = report.count(Family::Selection);
    let mut numbers = Vec::with_capacity(alloc, count)?;
    for position in 0..count {
        let number = match name_at(alloc, report, common, side, position)? {
            Some(name) => Some(names.insert_full(name)?.0),
            None => None,
        };
        numbers.push(number)?;
    }
    Ok(numbers)
}

/// Returns the name of the selection at a position of a report, with common ranks in place of its keys, if there is such a
/// selection and it has a name.
fn name_at<'a>(
    alloc: Global,
    report: &'a Report,
    common: &CommonRanks,
    side: ComparedReport,
    position: usize,
) -> Result<Option<RankedName<&'a SelectionName>>, AllocError>
    ensures { IfOk result (λ name. option_map with_ranks name ≡ option_and_then (λ o. name_told common.now side report.now o.value)
        (slice_get (objects family.Selection (view report.now.tree)) position)) }
{
    match report.ranked_name_at(position) {
        Some((_, name)) => {
            let ranks = ranks_in_name(alloc, common, side, name)?;
            Ok(Some(RankedName::of(name.name(), ranks)))
        }
        None => Ok(None),
    }
}

/// Returns the common ranks of the keys in a name, in the order of the keys.
fn ranks_in_name(
    alloc: Global,
    common: &CommonRanks,
    side: ComparedReport,
    name: &RankedName<SelectionName>,
) -> Result<Vec<usize>, AllocError>
    ensures { IfOk result (λ ranks. ranks.items ≡ ranks_told common.now side name.now) }
{
    let role = Role::OfFamily(name.family());
    common_ranks_of(alloc, common, side, role, name.ranks())
}

/// Returns the common ranks of the keys with these ranks on a side, in the same order.
fn common_ranks_of(
    alloc: Global,
    common: &CommonRanks,
    side: ComparedReport,
    role: Role,
    ranks: &[usize],
) -> Result<Vec<usize>, AllocError>
    ensures { IfOk result (λ found. found.items ≡ filter_map (common_rank_of common.now side role) ranks.now) }
{
    let mut found = Vec::with_capacity(alloc, ranks.len())?;
    for rank in ranks {
        if let Some(rank) = common.common_rank(side, role, *rank) {
            found.push(rank)?;
        }
    }
    Ok(found)
}
