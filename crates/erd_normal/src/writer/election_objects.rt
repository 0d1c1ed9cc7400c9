ghost use Rattle.std.specs.Prelude.{◌≡◌, ℕ, ◌<◌, ◌∷◌, ◌++◌, [], true, length, IfOk, OnOk};
ghost use Rattle.erd_normal.specs.Words.{view, entry_of, Family, IsAccepted, has_keys};
ghost use Rattle.erd_normal.specs.code.ElectionObjects.{holding_election, list_seen, positions_in_election};

use erd_meaning::{PerFamily, Report};
use erd_tables::Family;
use std::alloc::{AllocError, Global};

/// Returns the positions of the objects of each family in the order of their keys, in one list for each election. If no election
/// holds the family, they are all in the first list. Selections, which have no keys, have no lists.
pub(crate) fn election_objects(
    alloc: Global,
    report: &Report,
) -> Result<PerFamily<Vec<Vec<usize>>>, AllocError>
    requires accepted { IsAccepted report.now.prefer (view report.now.tree) }
    ensures { IfOk result (λ lists. (f : Family) (i : ℕ)
        → list_seen (entry_of lists f).items i ≡ positions_in_election report.now.prefer (view report.now.tree) f i) }
{
    PerFamily::of(|family| lists_of(alloc, report, family))
}

/// Returns the lists of a family.
fn lists_of(alloc: Global, report: &Report, family: Family) -> Result<Vec<Vec<usize>>, AllocError>
    requires accepted { IsAccepted report.now.prefer (view report.now.tree) }
    ensures { IfOk result (λ lists. (i : ℕ) → list_seen lists.items i ≡ positions_in_election report.now.prefer (view report.now.tree) family i) }
{
    match family {
        Family::Selection => Ok(Vec::new(alloc)),
        _ => lists_of_keyed(alloc, report, family),
    }
}

/// Returns the lists of a family that has keys.
fn lists_of_keyed(
    alloc: Global,
    report: &Report,
    family: Family,
) -> Result<Vec<Vec<usize>>, AllocError>
    requires accepted { IsAccepted report.now.prefer (view report.now.tree) }
    requires keyed { has_keys family ≡ true }
    ensures { IfOk result (λ lists. (i : ℕ) → list_seen lists.items i ≡ positions_in_election report.now.prefer (view report.now.tree) family i) }
{
    let mut lists = empty_lists(alloc, report.election_count())?;
    for position in report.rising(family) {
        let election = holding_election(report, family, *position);
        put_in_list(&mut lists, election, *position)?;
    }
    Ok(lists)
}

/// Returns the position of the election that holds the object at a position of its family, or 0 if none holds it.
fn holding_election(report: &Report, family: Family, position: usize) -> usize
    ensures { result ≡ holding_election (view report.now.tree) family position }
{
    match report.election_of(family, position) {
        Some(election) => election,
        None => 0,
    }
}

/// Returns so many empty lists.
fn empty_lists(alloc: Global, count: usize) -> Result<Vec<Vec<usize>>, AllocError>
    ensures few { IfOk result (λ lists. length lists.items ≡ count) }
    ensures empty { IfOk result (λ lists. (i : ℕ) → list_seen lists.items i ≡ []) }
{
    let mut lists = Vec::with_capacity(alloc, count)?;
    for _ in 0..count {
        lists.push(Vec::new(alloc))?;
    }
    Ok(lists)
}

/// Adds a position at the end of the list of an election, if the list is there.
fn put_in_list(
    lists: &mut Vec<Vec<usize>>,
    election: usize,
    position: usize,
) -> Result<(), AllocError>
    ensures count { OnOk result (length lists.new.items ≡ length lists.old.items) }
    ensures here { OnOk result (election < length lists.old.items → list_seen lists.new.items election ≡ list_seen lists.old.items election ++ position ∷ []) }
    ensures elsewhere { OnOk result ((i : ℕ) → (i ≡ election → ⊥) → list_seen lists.new.items i ≡ list_seen lists.old.items i) }
{
    if election < lists.len() {
        lists[election].push(position)?;
    }
    Ok(())
}
