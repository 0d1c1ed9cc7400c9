ghost use Rattle.std.specs.Prelude.{◌≡◌, false, map, option_copied, None, IfOk, IfErr};
ghost use Rattle.erd_meaning.specs.Words.{view, has_float, IsBounded, RefusedFor, IsFaultless, IsAccepted, IsFault, IdentityFault, SelectionFault};
ghost use Rattle.erd_meaning.specs.Words.{report_start};
ghost use Rattle.erd_meaning.specs.code.Held.{AreSalted};
ghost use Rattle.erd_meaning.specs.code.ObjectWalk.{election_keys, kept_objects};
ghost use Rattle.erd_meaning.specs.code.RanksAmong.{AllAreRanked, names_of};
ghost use Rattle.erd_meaning.specs.code.Resolved.{AreNames, IsIdentified, IsReferred, IsResolved, IsToldApart};
ghost use Rattle.erd_meaning.specs.code.SaltLaws.{KeepsEachIndex};
ghost use Rattle.erd_meaning.specs.code.Shown.{shown};

use crate::keys::key_rule::KeyRule;
use crate::names::ranked_name::RankedName;
use crate::names::selection_name::SelectionName;
use crate::names::selection_walk::{SelectionWalk, meet_selections};
use crate::objects::collected::collected;
use crate::objects::election_table::ElectionTable;
use crate::objects::filled::{Tables, filled};
use crate::objects::ranked_objects::RankedObjects;
use crate::objects::salt::salt_of;
use crate::objects::table::ObjectTable;
use crate::report::accepting::accept_with;
use crate::report::{Elections, Indexes, Report};
use erd_check::{CheckError, Shaped};
use erd_index::SaltedSet;
use erd_tables::{FaultList, Text};
use serde_json::Value;
use std::alloc::{AllocError, Global};

/// Resolves a report without a preference, as `resolve_with` does.
///
/// # Errors
///
/// `CheckError::Faults` if the report is not accepted, with the list that `resolve_with` describes.
///
/// `CheckError::Memory` if out of memory.
///
/// ```
/// let tree = Value::from_str(alloc, BALLOT)?;
/// let shaped = shape(alloc, &tree)?;
/// assert!(rt; same_json(shaped.tree(), &tree));
/// let report = resolve(alloc, shaped)?;
/// ```
pub fn resolve<'a>(alloc: Global, shaped: Shaped<'a>) -> Result<Report<'a>, CheckError>
    ensures tree { IfOk result (λ r. r.tree ≡ shaped.entry) }
    ensures prefer { IfOk result (λ r. r.prefer ≡ None) }
    ensures accepted { IfOk result (λ _. IsAccepted None (view shaped.entry)) }
    ensures refused { IfErr result (RefusedFor (IsFault None (view shaped.entry))) }
{
    resolve_with(alloc, shaped, None)
}

/// Resolves a report under a preferred type of identifier, or under none. Returns a `Report` if the report is accepted. The
/// `Report` has its own copy of the preference. It has indexes of the objects by `@id` and by key, and of the selections by
/// contest and name.
///
/// It judges as `accept_with` does, which needs no `Shaped`: a caller who has not asked for the shape by itself calls that.
///
/// # Errors
///
/// `CheckError::Faults` if the report is not accepted. The list has all faults of the first phase that has any: identity
/// (reasons 12 to 14), then references (reasons 15 to 17, and reason 11 for references), then selections (reason 18). It has
/// each fault once, by place and then by reason, and is not empty. docs/PROFILE.md has the reasons and phases.
///
/// `CheckError::Memory` if out of memory.
///
/// ```
/// let report = resolve_with(alloc, shape(alloc, &tree)?, Some("local-level"))?;
/// assert_eq!(rt; report.preference(), Some("local-level"));
/// ```
pub fn resolve_with<'a>(
    alloc: Global,
    shaped: Shaped<'a>,
    prefer: Option<&str>,
) -> Result<Report<'a>, CheckError>
    ensures tree { IfOk result (λ r. r.tree ≡ shaped.entry) }
    ensures prefer { IfOk result (λ r. r.prefer ≡ option_copied prefer.entry) }
    ensures accepted { IfOk result (λ _. IsAccepted (option_copied prefer.entry) (view shaped.entry)) }
    ensures refused { IfErr result (RefusedFor (IsFault (option_copied prefer.entry) (view shaped.entry))) }
{
    let tree = shaped.tree();
    accept_with(alloc, tree, prefer)
}

/// Resolves a report with these objects and elections, of which all is known but that its selections are told apart.
pub(crate) fn with_names<'a>(
    keys: &KeyRule,
    shaped: Shaped<'a>,
    objects: ObjectTable<'a>,
    elections: ElectionTable<'a>,
) -> Result<Report<'a>, CheckError>
    requires kept { map shown objects.objects ≡ kept_objects keys.now (view shaped) }
    requires elections { elections.keys ≡ election_keys keys.now (view shaped) }
    requires salted { AreSalted (report_start keys.now (view shaped)) objects elections }
    requires few { IsBounded (view shaped) }
    requires identified { IsIdentified keys.now shaped }
    requires referred { IsReferred shaped }
    ensures tree { IfOk result (λ r. r.tree ≡ shaped.entry) }
    ensures prefer { IfOk result (λ r. r.prefer ≡ keys.now) }
    ensures told_apart { IfOk result (λ _. IsToldApart keys.now shaped.entry) }
    ensures refused { IfErr result (RefusedFor (SelectionFault keys.now (view shaped.entry))) }
{
    let tree = shaped.tree();
    let objects = RankedObjects::of(keys.alloc, objects)?;
    let names = names_told_apart(keys, tree, &objects)?;
    Ok(indexed(keys, tree, objects, names, elections)?)
}

/// Returns the report with the indexes that were filled while it was judged.
fn indexed<'a>(
    keys: &KeyRule,
    tree: &'a Value,
    objects: RankedObjects<'a>,
    names: SaltedSet<(usize, RankedName<SelectionName>)>,
    elections: ElectionTable<'a>,
) -> Result<Report<'a>, AllocError>
    requires resolved { IsResolved keys.now tree.now objects.objects (names_of names.keys) }
    requires ranked { AllAreRanked (map shown objects.objects) names.keys }
    requires elections { elections.keys ≡ election_keys keys.now (view tree.now) }
    requires salted { AreSalted (report_start keys.now (view tree.now)) objects elections }
    requires names_salted { names.start ≡ report_start keys.now (view tree.now) }
    ensures tree { IfOk result (λ r. r.tree ≡ tree.now) }
    ensures prefer { IfOk result (λ r. r.prefer ≡ keys.now) }
{
    let order = elections.order(keys.alloc)?;
    let prefer = preference_of(keys)?;
    let elections = Elections {
        keys: elections,
        order,
    };
    let indexes = Indexes {
        objects,
        names,
        elections,
    };
    Report::of(keys.alloc, tree, prefer, indexes)
}

/// Returns a copy of the preference under which keys are made.
fn preference_of(keys: &KeyRule) -> Result<Option<Text>, AllocError>
    ensures { IfOk result (λ prefer. prefer ≡ keys.now) }
{
    match keys.prefer {
        Some(kind) => Ok(Some(Text::of(String::from_str(keys.alloc, kind)?))),
        None => Ok(None),
    }
}

/// Returns the objects of a report and the keys of its elections, or its faults of identity. The walk that makes the salt finds
/// what the tables need, and the positions of which the places of faults are made.
pub(crate) fn objects_told_apart<'a>(
    keys: &KeyRule,
    tree: &'a Value,
) -> Result<(ObjectTable<'a>, ElectionTable<'a>), CheckError>
    ensures identified { IfOk result (λ _. IsIdentified keys.now tree.now) }
    ensures kept { IfOk result (λ r. map shown r.0.objects ≡ kept_objects keys.now (view tree.now)) }
    ensures elections { IfOk result (λ r. r.1.keys ≡ election_keys keys.now (view tree.now)) }
    ensures salted { IfOk result (λ r. AreSalted (report_start keys.now (view tree.now)) r.0 r.1) }
    ensures few { IfOk result (λ _. IsBounded (view tree.now)) }
    ensures covers { IfOk result (λ _. KeepsEachIndex keys.now (view tree.now)) }
    ensures refused { IfErr result (RefusedFor (IdentityFault keys.now (view tree.now))) }
{
    let found = collected(keys, tree)?;
    let salt = salt_of(&found);
    let Tables {
        objects,
        elections,
        faults,
    } = filled(keys.alloc, salt, found)?;
    let identity = FaultList::of(faults);
    if identity.len() == 0 {
        Ok((objects, elections))
    } else {
        Err(CheckError::Faults(identity))
    }
}

/// Returns the names of the selections of a report, or its faults of selections.
fn names_told_apart(
    keys: &KeyRule,
    tree: &Value,
    objects: &RankedObjects,
) -> Result<SaltedSet<(usize, RankedName<SelectionName>)>, CheckError>
    requires kept { map shown objects.now.objects ≡ kept_objects keys.now (view tree.now) }
    requires few { IsBounded (view tree.now) }
    requires identified { IsIdentified keys.now tree.now }
    requires faultless { IsFaultless tree.now }
    requires whole { has_float (view tree.now) ≡ false }
    ensures told_apart { IfOk result (λ _. IsToldApart keys.now tree.now) }
    ensures named { IfOk result (λ names. AreNames keys.now (view tree.now) (names_of names.keys)) }
    ensures ranked { IfOk result (λ names. AllAreRanked (map shown objects.now.objects) names.keys) }
    ensures start { IfOk result (λ names. names.start ≡ objects.now.start) }
    ensures refused { IfErr result (RefusedFor (SelectionFault keys.now (view tree.now))) }
{
    let mut walk = SelectionWalk {
        names: SaltedSet::new(keys.alloc, objects.table().salt()),
        faults: Vec::new(keys.alloc),
    };
    meet_selections(keys, tree, objects, &mut walk)?;
    let SelectionWalk { names, faults } = walk;
    let twins = FaultList::of(faults);
    if twins.len() == 0 {
        Ok(names)
    } else {
        Err(CheckError::Faults(twins))
    }
}
