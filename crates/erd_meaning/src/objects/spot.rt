//! Where an object stands, as numbers, and the faults of identity at that place.
ghost use Rattle.std.specs.Prelude.{◌≡◌, ◌++◌, ◌∷◌, [], false, IfOk};
ghost use Rattle.erd_meaning.specs.Words.{steps_of};
ghost use Rattle.erd_tables.specs.declared.place.Step.TheVariants.{Name, At};
ghost use Rattle.erd_meaning.specs.code.ObjectWalk.{faults_told, holder_at};
ghost use Rattle.erd_meaning.specs.code.Spots.{election_place, member_name, object_place};

use crate::objects::table::Earlier;
use erd_check::path::{Path, push_fault};
use erd_tables::{Family, Fault, Reason};
use std::alloc::{AllocError, Global};

/// The positions on the way to an object, of which only those count that its family has: of its election among the elections,
/// of its contest in the election, and its own in its array.
#[derive(Clone, Copy)]
pub(crate) struct Spot {
    pub(crate) election: usize,
    pub(crate) contest: usize,
    pub(crate) entry: usize,
}

/// Returns the position of the election that has an object of the family in one of its arrays, if one has.
pub(crate) fn holder_of(family: Family, spot: Spot) -> Option<usize>
    ensures { result ≡ holder_at family (object_place family spot) }
{
    match family {
        Family::Candidate | Family::Contest | Family::Style => Some(spot.election),
        _ => None,
    }
}

/// Returns the name of the member in which the objects of a family stand.
pub(crate) fn member_of(family: Family) -> &'static str
    ensures { result.now ≡ member_name family }
{
    match family {
        Family::Unit => "GpUnit",
        Family::Party => "Party",
        Family::Person => "Person",
        Family::Office => "Office",
        Family::Header => "Header",
        Family::Candidate => "Candidate",
        Family::Contest => "Contest",
        Family::Style => "BallotStyle",
        Family::Selection => "ContestSelection",
    }
}

/// Adds the faults of identity of the election at the position.
pub(crate) fn push_election_faults(
    alloc: Global,
    index: usize,
    lacks_key: bool,
    has_key: bool,
    faults: &mut Vec<Fault>,
) -> Result<(), AllocError>
    ensures { IfOk result (λ _. faults.new.items ≡ faults.old.items ++ faults_told lacks_key has_key false (election_place index)) }
{
    let elections = Path::Member(&Path::Root, "Election");
    let path = Path::Entry(&elections, index);
    let earlier = Earlier {
        has_key,
        has_id: false,
    };
    push_identity_faults(alloc, lacks_key, earlier, &path, faults)
}

/// Adds the faults of identity of an object at its place.
pub(crate) fn push_object_faults(
    alloc: Global,
    family: Family,
    spot: Spot,
    lacks_key: bool,
    earlier: Earlier,
    faults: &mut Vec<Fault>,
) -> Result<(), AllocError>
    ensures { IfOk result (λ _. faults.new.items ≡ faults.old.items
        ++ faults_told lacks_key earlier.has_key earlier.has_id (object_place family spot)) }
{
    let elections = Path::Member(&Path::Root, "Election");
    let election = Path::Entry(&elections, spot.election);
    let name = member_of(family);
    match family {
        Family::Unit | Family::Party | Family::Person | Family::Office | Family::Header => {
            let array = Path::Member(&Path::Root, name);
            push_entry_faults(alloc, &array, spot.entry, lacks_key, earlier, faults)
        }
        Family::Candidate | Family::Contest | Family::Style => {
            let array = Path::Member(&election, name);
            push_entry_faults(alloc, &array, spot.entry, lacks_key, earlier, faults)
        }
        Family::Selection => {
            let contests = Path::Member(&election, "Contest");
            let contest = Path::Entry(&contests, spot.contest);
            let array = Path::Member(&contest, name);
            push_entry_faults(alloc, &array, spot.entry, lacks_key, earlier, faults)
        }
    }
}

/// Adds the faults of identity of an entry of the array at the path.
fn push_entry_faults(
    alloc: Global,
    array: &Path,
    entry: usize,
    lacks_key: bool,
    earlier: Earlier,
    faults: &mut Vec<Fault>,
) -> Result<(), AllocError>
    ensures { IfOk result (λ _. faults.new.items ≡ faults.old.items
        ++ faults_told lacks_key earlier.has_key earlier.has_id (steps_of array.now ++ At entry ∷ [])) }
{
    let path = Path::Entry(&*array, entry);
    push_identity_faults(alloc, lacks_key, earlier, &path, faults)
}

/// Adds the faults of identity of what stands at the path.
fn push_identity_faults(
    alloc: Global,
    lacks_key: bool,
    earlier: Earlier,
    path: &Path,
    faults: &mut Vec<Fault>,
) -> Result<(), AllocError>
    ensures { IfOk result (λ _. faults.new.items ≡ faults.old.items
        ++ faults_told lacks_key earlier.has_key earlier.has_id (steps_of path.now)) }
{
    if lacks_key {
        push_fault(alloc, path, Reason::NoIdentifier, faults)?;
    }
    if earlier.has_key {
        push_fault(alloc, path, Reason::TwinIdentifier, faults)?;
    }
    if earlier.has_id {
        let id = Path::Member(&*path, "@id");
        push_fault(alloc, &id, Reason::DuplicateId, faults)?;
    }
    Ok(())
}
