ghost use Rattle.std.specs.Prelude.{◌≡◌, ◌+◌, ◌<◌, ◌^◌, codes, false, length, map, List, IfOk};
ghost use Rattle.erd_meaning.specs.Words.{view, has_float, IsBounded, steps_of, numbered_selections, numbered_selections_of, placed_entries};
ghost use Rattle.erd_meaning.specs.code.ObjectWalk.{Kept};
ghost use Rattle.erd_meaning.specs.code.RanksAmong.{AllAreRanked, IsRanked, name_among};
ghost use Rattle.erd_meaning.specs.code.SelectionWalk.{named_all, named_one, numbered_from, with_name};
ghost use Rattle.erd_meaning.specs.code.Shown.{placed_at, shown};
ghost use Rattle.erd_meaning.specs.code.ShownWalks.{names_met};

use crate::keys::key_rule::KeyRule;
use crate::names::naming::name_of_selection;
use crate::names::ranked_name::RankedName;
use crate::names::selection_name::SelectionName;
use crate::objects::ranked_objects::RankedObjects;
use erd_check::path::{Path, push_fault};
use erd_check::values::entries_at;
use erd_index::SaltedSet;
use erd_tables::{Fault, Reason};
use serde_json::Value;
use std::alloc::{AllocError, Global};

/// The names of the selections that the walk has met, each with the position of its contest, in the order of their
/// places; and the faults of selections. If several selections of a contest have the same name, the first is kept.
#[derive(Drop)]
pub(crate) struct SelectionWalk {
    pub(crate) names: SaltedSet<(usize, RankedName<SelectionName>)>,
    pub(crate) faults: Vec<Fault>,
}

/// Walks over the selections of a report. To meet a selection is to add its name, or its fault, to `walk`. The numbers
/// of the contests go on from one election to the next.
pub(crate) fn meet_selections(
    keys: &KeyRule,
    report: &Value,
    objects: &RankedObjects,
    walk: &mut SelectionWalk,
) -> Result<(), AllocError>
    requires few { IsBounded (view report.now) }
    requires whole { has_float (view report.now) ≡ false }
    requires ranked { AllAreRanked (map shown objects.now.objects) walk.old.names.keys }
    ensures met { IfOk result (λ _. names_met walk.new
        ≡ named_all (name_among keys.now (map shown objects.now.objects)) (names_met walk.old) (numbered_selections (view report.now))) }
    ensures ranked { IfOk result (λ _. AllAreRanked (map shown objects.now.objects) walk.new.names.keys) }
    ensures start { IfOk result (λ _. walk.new.names.start ≡ walk.old.names.start) }
{
    let elections = Path::Member(&Path::Root, "Election");
    let mut number = 0;
    for (index, election) in entries_at(report, "Election").iter().enumerate() {
        let path = Path::Entry(&elections, index);
        number = meet_contests(keys, objects, number, election, &path, walk)?;
    }
    Ok(())
}

/// Meets the selections of the contests of an election. The first contest has the number `first`. Returns the number after
/// that of the last contest.
fn meet_contests(
    keys: &KeyRule,
    objects: &RankedObjects,
    first: usize,
    election: &Value,
    path: &Path,
    walk: &mut SelectionWalk,
) -> Result<usize, AllocError>
    requires few { first + length (placed_entries (codes "Contest") (placed_at path.now election.now)) < 2 ^ 64 }
    requires whole { has_float (view election.now) ≡ false }
    requires ranked { AllAreRanked (map shown objects.now.objects) walk.old.names.keys }
    ensures next { IfOk result (λ next. next ≡ first + length (placed_entries (codes "Contest") (placed_at path.now election.now))) }
    ensures met { IfOk result (λ _. names_met walk.new ≡ named_all (name_among keys.now (map shown objects.now.objects)) (names_met walk.old)
        (numbered_from first (placed_entries (codes "Contest") (placed_at path.now election.now)))) }
    ensures ranked { IfOk result (λ _. AllAreRanked (map shown objects.now.objects) walk.new.names.keys) }
    ensures start { IfOk result (λ _. walk.new.names.start ≡ walk.old.names.start) }
{
    let contests = Path::Member(&*path, "Contest");
    let entries = entries_at(election, "Contest");
    for (index, contest) in entries.iter().enumerate() {
        let contest_path = Path::Entry(&contests, index);
        meet_contest(keys, objects, first + index, contest, &contest_path, walk)?;
    }
    Ok(first + entries.len())
}

/// Meets the selections of the contest with this number.
fn meet_contest(
    keys: &KeyRule,
    objects: &RankedObjects,
    number: usize,
    contest: &Value,
    path: &Path,
    walk: &mut SelectionWalk,
) -> Result<(), AllocError>
    requires whole { has_float (view contest.now) ≡ false }
    requires ranked { AllAreRanked (map shown objects.now.objects) walk.old.names.keys }
    ensures met { IfOk result (λ _. names_met walk.new
        ≡ named_all (name_among keys.now (map shown objects.now.objects)) (names_met walk.old)
        (numbered_selections_of (number, placed_at path.now contest.now))) }
    ensures ranked { IfOk result (λ _. AllAreRanked (map shown objects.now.objects) walk.new.names.keys) }
    ensures start { IfOk result (λ _. walk.new.names.start ≡ walk.old.names.start) }
{
    let array = Path::Member(&*path, "ContestSelection");
    for (index, selection) in entries_at(contest, "ContestSelection").iter().enumerate() {
        let selection_path = Path::Entry(&array, index);
        meet_selection(keys, objects, number, selection, &selection_path, walk)?;
    }
    Ok(())
}

/// Meets a selection. If its class is not one of the selection classes, it has no name and is skipped.
fn meet_selection(
    keys: &KeyRule,
    objects: &RankedObjects,
    contest: usize,
    selection: &Value,
    path: &Path,
    walk: &mut SelectionWalk,
) -> Result<(), AllocError>
    requires whole { has_float (view selection.now) ≡ false }
    requires ranked { AllAreRanked (map shown objects.now.objects) walk.old.names.keys }
    ensures met { IfOk result (λ _. names_met walk.new
        ≡ named_one (name_among keys.now (map shown objects.now.objects)) (names_met walk.old) (contest, placed_at path.now selection.now)) }
    ensures ranked { IfOk result (λ _. AllAreRanked (map shown objects.now.objects) walk.new.names.keys) }
    ensures start { IfOk result (λ _. walk.new.names.start ≡ walk.old.names.start) }
{
    match name_of_selection(keys, objects, selection)? {
        Some(name) => meet_name(keys.alloc, contest, name, path, walk),
        None => Ok(()),
    }
}

/// Adds a name, or a fault if the contest already has a selection of this name. All names have the ranks of their keys among
/// the same objects.
fn meet_name(
    alloc: Global,
    contest: usize,
    name: RankedName<SelectionName>,
    path: &Path,
    walk: &mut SelectionWalk,
) -> Result<(), AllocError>
    ensures met { IfOk result (λ _. (ks : List Kept) → AllAreRanked ks walk.old.names.keys → IsRanked ks name
        → names_met walk.new ≡ with_name (names_met walk.old) (steps_of path.now) contest name.name) }
    ensures ranked { IfOk result (λ _. (ks : List Kept) → AllAreRanked ks walk.old.names.keys → IsRanked ks name
        → AllAreRanked ks walk.new.names.keys) }
    ensures start { IfOk result (λ _. walk.new.names.start ≡ walk.old.names.start) }
{
    if !walk.names.insert((contest, name))? {
        push_fault(alloc, path, Reason::TwinSelection, &mut walk.faults)?;
    }
    Ok(())
}
