ghost use Rattle.std.specs.Prelude.{◌≡◌, ◌↔◌, [], IfOk};
ghost use Rattle.erd_compare.specs.Words.{view, meaning, AreDifferences, AreDifferent, IsDifference, Stands, first_of};
ghost use Rattle.erd_compare.specs.declared.difference.Difference.{Difference as difference};
ghost use Rattle.erd_compare.specs.code.Comparing.{TellsPart};

mod key_differences;
mod key_steps;
mod keyed_ways;

use crate::comparer::Comparer;
use crate::difference::{Difference, Part};
use crate::first::key_differences::copied;
use crate::first::key_steps::{first_keyed, push_differences};
use erd_meaning::Report;
use std::alloc::{AllocError, Global};

/// The parts in the order in which they are compared.
const PARTS: [Part; 10] = [
    Part::Report,
    Part::Unit,
    Part::Party,
    Part::Person,
    Part::Office,
    Part::Header,
    Part::Election,
    Part::Candidate,
    Part::Contest,
    Part::Style,
];

/// Returns the first difference between the meanings of two reports, or `None` if and only if they mean the same. Both
/// reports must have been resolved under the same preference.
///
/// The first difference is at the least part that differs, and there at the least key. An election without a key comes
/// before those with one. If only one report has an object there, that is the difference. Otherwise it is the class, or else
/// the least name of a member that differs. A contest with other selections differs at its member `ContestSelection`, and a
/// ballot style with other contents at `OrderedContent`. A candidate, contest or style that is in an election with another
/// key differs at `ElectionId`. docs/PROFILE.md lists the parts, the keys and what members mean.
///
/// The code copies and builds no records. The reports have their keys in rising order. It merges those of both reports once,
/// so that each key gets a rank that they have in common, and looks up the name of each selection once. From then on it
/// compares references by these ranks and by the numbers of names, and members in place. In each part it walks both lists of
/// keys in step, and it stops at the first difference.
///
/// # Errors
///
/// `AllocError` if out of memory.
///
/// ```
/// assert!(rt; first_difference(alloc, &report, &report)?.is_none());
/// ```
pub fn first_difference(
    alloc: Global,
    left: &Report,
    right: &Report,
) -> Result<Option<Difference>, AllocError>
    requires one_preference { left.now.prefer ≡ right.now.prefer }
    ensures { IfOk result (IsDifference (meaning left.now.prefer (view left.now.tree)) (meaning right.now.prefer (view right.now.tree))) }
{
    let comparer = Comparer::of_both(alloc, left, right)?;
    for part in PARTS {
        if let Some(difference) = part_difference(&comparer, part)? {
            return Ok(Some(difference));
        }
    }
    Ok(None)
}

/// Returns all differences between the meanings of two reports, in rising order: none if and only if they mean the same. Both
/// reports must have been resolved under the same preference.
///
/// They rise by their parts, then by their keys, where an election without a key comes before those with one, and then by the
/// names of members. If only one report has an object with a key, that is one difference, and if the objects with a key have
/// different classes, that is one. Otherwise there is one for each member that differs. So the first of the list is what
/// `first_difference` returns.
///
/// The code walks the two reports once, as `first_difference` does, and goes on past each difference.
///
/// # Errors
///
/// `AllocError` if out of memory.
///
/// ```
/// assert!(rt; differences(alloc, &report, &report)?.is_empty());
/// ```
pub fn differences(
    alloc: Global,
    left: &Report,
    right: &Report,
) -> Result<Vec<Difference>, AllocError>
    requires one_preference { left.now.prefer ≡ right.now.prefer }
    ensures all { IfOk result (λ found. AreDifferences (meaning left.now.prefer (view left.now.tree))
        (meaning right.now.prefer (view right.now.tree)) found.items) }
    ensures each { IfOk result (λ found. (d : difference) → AreDifferent (meaning left.now.prefer (view left.now.tree))
        (meaning right.now.prefer (view right.now.tree))
        d → Stands d found.items) }
    ensures first { IfOk result (λ found. IsDifference (meaning left.now.prefer (view left.now.tree)) (meaning right.now.prefer (view right.now.tree))
        (first_of found.items)) }
    ensures same { IfOk result (λ found. (found.items ≡ []) ↔ (meaning left.now.prefer (view left.now.tree) ≡ meaning right.now.prefer (view right.now.tree))) }
{
    let comparer = Comparer::of_both(alloc, left, right)?;
    all_differences(&comparer)
}

/// Returns all differences between the two reports, in rising order.
pub(crate) fn all_differences(comparer: &Comparer) -> Result<Vec<Difference>, AllocError>
    ensures { IfOk result (λ found. AreDifferences (meaning comparer.now.left.prefer (view comparer.now.left.tree))
        (meaning comparer.now.right.prefer (view comparer.now.right.tree)) found.items) }
{
    let mut found = Vec::new(comparer.alloc);
    for part in PARTS {
        push_differences(comparer, part, &mut found)?;
    }
    Ok(found)
}

/// Returns the first difference between the two reports at a part.
fn part_difference(comparer: &Comparer, part: Part) -> Result<Option<Difference>, AllocError>
    ensures { IfOk result (TellsPart (meaning comparer.now.left.prefer (view comparer.now.left.tree))
        (meaning comparer.now.right.prefer (view comparer.now.right.tree)) part) }
{
    let Some(next) = first_keyed(comparer, part)? else {
        return Ok(None);
    };
    match next.ways.first(comparer.alloc)? {
        Some(how) => {
            let key = copied(comparer.alloc, next.key)?;
            Ok(Some(Difference { part, key, how }))
        }
        // a key that is found differs in some way
        None => Ok(None),
    }
}
