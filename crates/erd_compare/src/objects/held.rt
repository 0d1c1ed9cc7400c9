ghost use Rattle.std.specs.Prelude.{◌≡◌, ◌≤◌, codes, length, map, Bool, IfOk, Option};
ghost use Rattle.std.specs.List.{prefix_len};
ghost use Rattle.std.specs.Ordering.{is_lt};
ghost use Rattle.erd_tables.specs.Texts.{text_cmp};
ghost use Rattle.erd_compare.specs.Words.{view, Key as key};
ghost use Rattle.erd_compare.specs.code.Comparing.{Decides};
ghost use Rattle.erd_compare.specs.code.HeldDifferences.{TellsHeld, with_name};
ghost use Rattle.erd_compare.specs.code.KeyedDifferences.{holder_key_in};

use crate::comparer::Comparer;
use crate::objects::ways::Ways;
use crate::ranks::common_ranks::ComparedReport;
use erd_tables::Role;
use std::alloc::AllocError;

/// Returns whether the objects with a role at these positions are in elections with the same key, or in none with a key.
pub(crate) fn is_same_holder(
    comparer: &Comparer,
    role: Role,
    position: usize,
    other_position: usize,
) -> bool
    ensures { Decides result (holder_key_in comparer.now.left.prefer role (view comparer.now.left.tree) position)
        (holder_key_in comparer.now.right.prefer role (view comparer.now.right.tree) other_position) }
{
    comparer.holder_rank(ComparedReport::Left, role, position)
        == comparer.holder_rank(ComparedReport::Right, role, other_position)
}

/// Returns the ways in which two objects differ, given those in which they differ by themselves, and whether the keys of their
/// elections are the same. If the keys differ, the objects also differ in a member `ElectionId`, which no object has of its own.
pub(crate) fn held_ways<'a>(own: Ways<'a>, is_same_holder: bool) -> Result<Ways<'a>, AllocError>
    ensures { IfOk result (λ ways. (all : Bool) (k l : Option key) → Decides is_same_holder k l → TellsHeld all own.entry k l ways) }
{
    if is_same_holder {
        return Ok(own);
    }
    match own {
        Ways::Members(names) => Ok(Ways::Members(with_election(names)?)),
        other => Ok(other),
    }
}

/// Returns the names with `ElectionId` before the first of them that is not less.
fn with_election<'a>(mut names: Vec<&'a str>) -> Result<Vec<&'a str>, AllocError>
    ensures { IfOk result (λ more. map (λ s. s.now) more.items ≡ with_name (codes "ElectionId") (map (λ s. s.now) names.entry.items)) }
{
    let place = place_of(&names, "ElectionId");
    names.insert(place, "ElectionId")?;
    Ok(names)
}

/// Returns the number of names before the first that is not less than this one.
fn place_of(names: &[&str], name: &str) -> usize
    ensures within { result ≤ length names.now }
    ensures place { result ≡ prefix_len (λ s. is_lt (text_cmp s name.now)) (map (λ s. s.now) names.now) }
{
    for (place, other) in names.iter().enumerate() {
        if *other >= name {
            return place;
        }
    }
    names.len()
}
