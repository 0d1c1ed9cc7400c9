ghost use Rattle.std.specs.Prelude.{◌≡◌, ◌||◌, Some, slice_get, IfOk};
ghost use Rattle.serde_json.specs.View.{view};
ghost use Rattle.erd_tables.specs.declared.class.Family.TheVariants as family;
ghost use Rattle.erd_meaning.specs.Objects.{Placed, objects};
ghost use Rattle.erd_shown.specs.Reworded.{is_candidate_reworded, is_contest_reworded, is_reworded};
ghost use Rattle.erd_shown.specs.code.Marks.{AreMarks, marks_of};

use crate::named::{any_named, is_named_at};
use crate::reworded::{is_reworded, object_at, reworded};
use erd_check::values::entries_at;
use erd_meaning::Report;
use erd_tables::Family;
use std::alloc::{AllocError, Global};

/// The objects of a report of which ballots print other words in another report, as marks in the order of the objects.
#[derive(Drop)]
pub(crate) struct Marks {
    pub(crate) units: Vec<bool>,
    pub(crate) parties: Vec<bool>,
    pub(crate) headers: Vec<bool>,
    pub(crate) candidates: Vec<bool>,
    pub(crate) contests: Vec<bool>,
}

/// Returns the objects of the left report of which ballots print other words in the right one. The words of each object are
/// written once.
pub(crate) fn marks_between(
    alloc: Global,
    left: &Report,
    right: &Report,
) -> Result<Marks, AllocError>
    ensures { IfOk result (λ marks. AreMarks left.now.prefer (view left.now.tree) right.now.prefer (view right.now.tree) marks) }
{
    let units = reworded(alloc, left, right, Family::Unit)?;
    let parties = reworded(alloc, left, right, Family::Party)?;
    let persons = reworded(alloc, left, right, Family::Person)?;
    let headers = reworded(alloc, left, right, Family::Header)?;
    let candidates = candidates_reworded(alloc, left, right, &parties, &persons)?;
    let contests = contests_reworded(alloc, left, right, &parties, &candidates)?;
    Ok(Marks {
        units,
        parties,
        headers,
        candidates,
        contests,
    })
}

/// Returns the marks of the candidates, from those of the parties and persons.
fn candidates_reworded(
    alloc: Global,
    left: &Report,
    right: &Report,
    parties: &[bool],
    persons: &[bool],
) -> Result<Vec<bool>, AllocError>
    requires parties { parties.now ≡ marks_of (is_reworded left.now.prefer (view left.now.tree) right.now.prefer (view right.now.tree) family.Party)
        family.Party (view left.now.tree) }
    requires persons { persons.now ≡ marks_of (is_reworded left.now.prefer (view left.now.tree) right.now.prefer (view right.now.tree) family.Person)
        family.Person (view left.now.tree) }
    ensures { IfOk result (λ found. found.items ≡ marks_of (is_candidate_reworded left.now.prefer (view left.now.tree) right.now.prefer (view right.now.tree))
        family.Candidate (view left.now.tree)) }
{
    let count = left.count(Family::Candidate);
    let mut found = Vec::with_capacity(alloc, count)?;
    for position in 0..count {
        let mark = is_candidate_reworded(alloc, left, right, position, parties, persons)?;
        found.push(mark)?;
    }
    Ok(found)
}

/// Returns whether ballots print other words of the candidate at a position of the left report, or of its party or person, in
/// the right report.
fn is_candidate_reworded(
    alloc: Global,
    left: &Report,
    right: &Report,
    position: usize,
    parties: &[bool],
    persons: &[bool],
) -> Result<bool, AllocError>
    requires parties { parties.now ≡ marks_of (is_reworded left.now.prefer (view left.now.tree) right.now.prefer (view right.now.tree) family.Party)
        family.Party (view left.now.tree) }
    requires persons { persons.now ≡ marks_of (is_reworded left.now.prefer (view left.now.tree) right.now.prefer (view right.now.tree) family.Person)
        family.Person (view left.now.tree) }
    ensures { IfOk result (λ it. (o : Placed) → slice_get (objects family.Candidate (view left.now.tree)) position ≡ Some o
        → it ≡ is_candidate_reworded left.now.prefer (view left.now.tree) right.now.prefer (view right.now.tree) o.value) }
{
    let own = is_reworded(alloc, left, right, Family::Candidate, position)?;
    match object_at(left, Family::Candidate, position) {
        Some(candidate) => {
            let party = is_named_at(left, Family::Party, parties, candidate, "PartyId");
            let person = is_named_at(left, Family::Person, persons, candidate, "PersonId");
            Ok(any_of(own, party, person))
        }
        None => Ok(own),
    }
}

/// Returns the marks of the contests, from those of the parties and candidates.
fn contests_reworded(
    alloc: Global,
    left: &Report,
    right: &Report,
    parties: &[bool],
    candidates: &[bool],
) -> Result<Vec<bool>, AllocError>
    requires parties { parties.now ≡ marks_of (is_reworded left.now.prefer (view left.now.tree) right.now.prefer (view right.now.tree) family.Party)
        family.Party (view left.now.tree) }
    requires candidates { candidates.now ≡ marks_of (is_candidate_reworded left.now.prefer (view left.now.tree) right.now.prefer (view right.now.tree))
        family.Candidate (view left.now.tree) }
    ensures { IfOk result (λ found. found.items ≡ marks_of (is_contest_reworded left.now.prefer (view left.now.tree) right.now.prefer (view right.now.tree))
        family.Contest (view left.now.tree)) }
{
    let count = left.count(Family::Contest);
    let mut found = Vec::with_capacity(alloc, count)?;
    for position in 0..count {
        let mark = is_contest_reworded(alloc, left, right, position, parties, candidates)?;
        found.push(mark)?;
    }
    Ok(found)
}

/// Returns whether ballots print other words of the contest at a position of the left report, or of the parties whose primary it
/// is or the candidate to be retained, in the right report.
fn is_contest_reworded(
    alloc: Global,
    left: &Report,
    right: &Report,
    position: usize,
    parties: &[bool],
    candidates: &[bool],
) -> Result<bool, AllocError>
    requires parties { parties.now ≡ marks_of (is_reworded left.now.prefer (view left.now.tree) right.now.prefer (view right.now.tree) family.Party)
        family.Party (view left.now.tree) }
    requires candidates { candidates.now ≡ marks_of (is_candidate_reworded left.now.prefer (view left.now.tree) right.now.prefer (view right.now.tree))
        family.Candidate (view left.now.tree) }
    ensures { IfOk result (λ it. (o : Placed) → slice_get (objects family.Contest (view left.now.tree)) position ≡ Some o
        → it ≡ is_contest_reworded left.now.prefer (view left.now.tree) right.now.prefer (view right.now.tree) o.value) }
{
    let own = is_reworded(alloc, left, right, Family::Contest, position)?;
    match object_at(left, Family::Contest, position) {
        Some(contest) => {
            let party = any_named(
                left,
                Family::Party,
                parties,
                entries_at(contest, "PrimaryPartyIds"),
            );
            let candidate = is_named_at(
                left,
                Family::Candidate,
                candidates,
                contest,
                "CandidateId",
            );
            Ok(any_of(own, party, candidate))
        }
        None => Ok(own),
    }
}

/// Returns whether one of two is so.
pub(crate) fn one_of(one: bool, two: bool) -> bool
    ensures { result ≡ (one || two) }
{
    one || two
}

/// Returns whether one of three is so.
pub(crate) fn any_of(one: bool, two: bool, three: bool) -> bool
    ensures { result ≡ (one || (two || three)) }
{
    one || one_of(two, three)
}
