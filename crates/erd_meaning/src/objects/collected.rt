ghost use Rattle.std.specs.Prelude.{◌≡◌, ◌++◌, ◌∷◌, [], codes, flat_map, IfOk};
ghost use Rattle.erd_meaning.specs.Words.{view, elections, key_of_family_object, placed_entries};
ghost use Rattle.erd_meaning.specs.Objects.{has_several};
ghost use Rattle.erd_meaning.specs.code.CollectedWalks.{collected_in};
ghost use Rattle.erd_meaning.specs.code.ObjectWalk.{all_located, contest_located, election_located, located, located_election, located_one};
ghost use Rattle.erd_meaning.specs.code.Spots.{election_place, member_name, object_place, owner_place};

use crate::keys::key_rule::KeyRule;
use crate::keys::triple::Triple;
use crate::objects::spot::{Spot, member_of};
use erd_check::values::entries_at;
use erd_tables::Family;
use serde_json::Value;
use std::alloc::AllocError;

/// An election or an object of a report, where it stands, and the identifier that gives it its key.
#[derive(Drop)]
pub(crate) enum Found<'a> {
    Election {
        index: usize,
        needs_key: bool,
        key: Option<Triple<'a>>,
    },
    Object {
        family: Family,
        spot: Spot,
        value: &'a Value,
        key: Option<Triple<'a>>,
        id: Option<&'a str>,
    },
}

/// Collects the elections and objects of a report, in the order of their places. If there are several elections, each needs a
/// key.
pub(crate) fn collected<'a>(keys: &KeyRule, report: &'a Value) -> Result<Vec<Found<'a>>, AllocError>
    ensures { IfOk result (λ found. collected_in found ≡ all_located keys.now (view report.now)) }
{
    let mut found = Vec::new(keys.alloc);
    let spot = Spot {
        election: 0,
        contest: 0,
        entry: 0,
    };
    collect_elections(keys, report, &mut found)?;
    collect_entries(keys, Family::Unit, spot, report, &mut found)?;
    collect_entries(keys, Family::Header, spot, report, &mut found)?;
    collect_entries(keys, Family::Office, spot, report, &mut found)?;
    collect_entries(keys, Family::Party, spot, report, &mut found)?;
    collect_entries(keys, Family::Person, spot, report, &mut found)?;
    Ok(found)
}

/// Collects the elections and the objects inside them. If there are several elections, each needs a key.
fn collect_elections<'a>(
    keys: &KeyRule,
    report: &'a Value,
    found: &mut Vec<Found<'a>>,
) -> Result<(), AllocError>
    ensures { IfOk result (λ _. collected_in found.new
        ≡ collected_in found.old ++ flat_map (election_located keys.now (has_several (view report.now))) (elections (view report.now))) }
{
    let several = entries_at(report, "Election").len() > 1;
    collect_each_election(keys, several, report, found)
}

/// Collects the elections and the objects inside them. `needed` says whether each election needs a key.
fn collect_each_election<'a>(
    keys: &KeyRule,
    needed: bool,
    report: &'a Value,
    found: &mut Vec<Found<'a>>,
) -> Result<(), AllocError>
    ensures { IfOk result (λ _. collected_in found.new
        ≡ collected_in found.old ++ flat_map (election_located keys.now needed) (elections (view report.now))) }
{
    for (index, election) in entries_at(report, "Election").iter().enumerate() {
        let spot = Spot {
            election: index,
            contest: 0,
            entry: 0,
        };
        collect_election(keys, needed, index, election, found)?;
        collect_entries(keys, Family::Style, spot, election, found)?;
        collect_entries(keys, Family::Candidate, spot, election, found)?;
        collect_contests(keys, spot, election, found)?;
    }
    Ok(())
}

/// Collects an election. `needed` says whether it needs a key.
fn collect_election<'a>(
    keys: &KeyRule,
    needed: bool,
    index: usize,
    election: &'a Value,
    found: &mut Vec<Found<'a>>,
) -> Result<(), AllocError>
    ensures { IfOk result (λ _. collected_in found.new ≡ collected_in found.old
        ++ located_election keys.now needed (record { place = election_place index; value = view election.now }) ∷ []) }
{
    let key = keys.triple_of(election);
    found.push(Found::Election {
        index,
        needs_key: needed,
        key,
    })?;
    Ok(())
}

/// Collects the contests of an election, each with its selections. The spot has the position of the election.
fn collect_contests<'a>(
    keys: &KeyRule,
    spot: Spot,
    election: &'a Value,
    found: &mut Vec<Found<'a>>,
) -> Result<(), AllocError>
    ensures { IfOk result (λ _. collected_in found.new ≡ collected_in found.old
        ++ flat_map (contest_located keys.now) (placed_entries (codes "Contest")
        (record { place = election_place spot.election; value = view election.now }))) }
{
    for (index, contest) in entries_at(election, "Contest").iter().enumerate() {
        let of_contest = Spot {
            election: spot.election,
            contest: index,
            entry: index,
        };
        collect_object(keys, Family::Contest, of_contest, contest, found)?;
        collect_entries(keys, Family::Selection, of_contest, contest, found)?;
    }
    Ok(())
}

/// Collects the objects of a family that one owner has. The spot has the positions on the way to the owner.
fn collect_entries<'a>(
    keys: &KeyRule,
    family: Family,
    spot: Spot,
    owner: &'a Value,
    found: &mut Vec<Found<'a>>,
) -> Result<(), AllocError>
    ensures { IfOk result (λ _. collected_in found.new ≡ collected_in found.old
        ++ located keys.now family (placed_entries (member_name family) (record { place = owner_place family spot; value = view owner.now }))) }
{
    for (index, entry) in entries_at(owner, member_of(family)).iter().enumerate() {
        let of_entry = Spot {
            election: spot.election,
            contest: spot.contest,
            entry: index,
        };
        collect_object(keys, family, of_entry, entry, found)?;
    }
    Ok(())
}

/// Collects an object of a family. Its `@id` and its key are found once, for its tables and for the salt.
fn collect_object<'a>(
    keys: &KeyRule,
    family: Family,
    spot: Spot,
    value: &'a Value,
    found: &mut Vec<Found<'a>>,
) -> Result<(), AllocError>
    ensures { IfOk result (λ _. collected_in found.new ≡ collected_in found.old
        ++ located_one keys.now family (record { place = object_place family spot; value = view value.now }) ∷ []) }
{
    let id = value.get("@id").and_then(Value::as_str);
    let key = key_in_family(keys, family, value);
    found.push(Found::Object {
        family,
        spot,
        value,
        key,
        id,
    })?;
    Ok(())
}

/// Returns the identifier that gives an object its key, if its family has keys and it has an identifier.
fn key_in_family<'a>(keys: &KeyRule, family: Family, value: &'a Value) -> Option<Triple<'a>>
    ensures { result ≡ key_of_family_object keys.now family (view value.now) }
{
    match family {
        Family::Selection => None,
        _ => keys.triple_of(value),
    }
}
