ghost use Rattle.std.specs.Prelude.{◌≡◌, map, option_map, IfOk};
ghost use Rattle.erd_compare.specs.Words.{AllByRecursion, view, plain_member, selection_map, selection_record};
ghost use Rattle.erd_compare.specs.code.Comparing.{Decides, IsWholeTree};
ghost use Rattle.erd_compare.specs.code.LeastNames.{IsObject};
ghost use Rattle.erd_compare.specs.code.MemberPairs.{IsWholePair};
ghost use Rattle.erd_compare.specs.code.RankedSides.{on_side};
ghost use Rattle.erd_compare.specs.code.PlacedObjects.{AreSelectionsIn, AreSelectionsAt};
ghost use Rattle.erd_compare.specs.code.SelectionMembers.{if_filled, selections_meant};
ghost use Rattle.erd_compare.specs.code.SelectionsByName.{IsByNumber};

use crate::comparer::Comparer;
use crate::objects::differing_names::{MemberPair, PairsLeft};
use crate::objects::plain_members::is_same_plain_member;
use crate::ranks::common_ranks::ComparedReport;
use erd_check::values::{class_of_object, entries_of, is_empty_array};
use erd_tables::{Class, Family, Role};
use serde_json::Value;
use std::alloc::AllocError;
use std::collections::BTreeMap;

/// The selections of a contest, and the position of the contest.
#[derive(Clone, Copy)]
struct Selections<'a> {
    values: &'a [Value],
    contest: usize,
}

/// Returns whether the selections of two contests at these positions mean the same. An empty array of selections means the same
/// as no array.
pub(crate) fn is_same_selections(
    comparer: &Comparer,
    pair: MemberPair,
    position: usize,
    other_position: usize,
) -> Result<bool, AllocError>
    requires whole { IsWholePair pair }
    requires one_placed { AreSelectionsAt comparer.now.left position (option_map (λ v. view v.now) pair.one) }
    requires other_placed { AreSelectionsAt comparer.now.right other_position (option_map (λ v. view v.now) pair.other) }
    ensures { IfOk result (λ answer. Decides answer (selections_meant comparer.now.left.prefer (view comparer.now.left.tree)
        (option_map (λ v. view v.now) pair.entry.one))
        (selections_meant comparer.now.right.prefer (view comparer.now.right.tree) (option_map (λ v. view v.now) pair.entry.other))) }
{
    match (filled(pair.one), filled(pair.other)) {
        (Some(ones), Some(others)) => {
            let ones = Selections {
                values: entries_of(ones),
                contest: position,
            };
            let others = Selections {
                values: entries_of(others),
                contest: other_position,
            };
            is_same_selection_map(comparer, ones, others)
        }
        (None, None) => Ok(true),
        _ => Ok(false),
    }
}

/// Returns the value, unless it is an empty array.
fn filled(found: Option<&Value>) -> Option<&Value>
    ensures { option_map (λ v. view v.now) result ≡ if_filled (option_map (λ v. view v.now) found.entry) }
{
    match found {
        Some(value) if !is_empty_array(value) => found,
        _ => None,
    }
}

/// Returns whether the selections of two contests mean the same, name by name. Each selection on the left removes the one with
/// the same name on the right. None may remain on the right.
fn is_same_selection_map(
    comparer: &Comparer,
    ones: Selections,
    others: Selections,
) -> Result<bool, AllocError>
    requires ones { AllByRecursion (λ v. IsWholeTree (view v)) ones.values.now }
    requires others { AllByRecursion (λ v. IsWholeTree (view v)) others.values.now }
    requires ones_named { AreSelectionsIn comparer.now.left ones.contest (map view ones.values.now) }
    requires others_named { AreSelectionsIn comparer.now.right others.contest (map view others.values.now) }
    ensures { IfOk result (λ answer. Decides answer (selection_map comparer.now.left.prefer (view comparer.now.left.tree) (map view ones.entry.values.now))
        (selection_map comparer.now.right.prefer (view comparer.now.right.tree) (map view others.entry.values.now))) }
{
    let ones = by_number(comparer, ComparedReport::Left, ones)?;
    let mut others = by_number(comparer, ComparedReport::Right, others)?;
    for (number, one) in &ones {
        let Some(other) = others.remove(number) else {
            return Ok(false);
        };
        if !is_same_selection(comparer, one, other)? {
            return Ok(false);
        }
    }
    Ok(others.is_empty())
}

/// Returns the selections of a contest by the numbers of their names. If several have the same name, the first one counts. A
/// file chooses these numbers, so they are sorted, and no index hashes them.
fn by_number<'a>(
    comparer: &Comparer,
    side: ComparedReport,
    selections: Selections<'a>,
) -> Result<BTreeMap<usize, &'a Value>, AllocError>
    requires { AreSelectionsIn (on_side side comparer.now.left comparer.now.right) selections.contest (map view selections.values.now) }
    ensures { IfOk result (λ numbered. IsByNumber comparer.now.left comparer.now.right side (map view selections.entry.values.now) numbered.entries) }
{
    let Selections { values, contest } = selections;
    let start = comparer.on(side).first_selection(contest);
    let mut numbered = BTreeMap::new(comparer.alloc);
    for (index, selection) in values.iter().enumerate() {
        if let Some(number) = comparer.name_number_at(side, start + index) {
            if !numbered.contains_key(&number) {
                numbered.insert(number, selection)?;
            }
        }
    }
    Ok(numbered)
}

/// Returns whether two selections mean the same.
fn is_same_selection(comparer: &Comparer, one: &Value, other: &Value) -> Result<bool, AllocError>
    requires one { IsWholeTree (view one.now) }
    requires other { IsWholeTree (view other.now) }
    ensures { IfOk result (λ answer. Decides answer (selection_record comparer.now.left.prefer (view comparer.now.left.tree) (view one.now))
        (selection_record comparer.now.right.prefer (view comparer.now.right.tree) (view other.now))) }
{
    let role = Role::OfFamily(Family::Selection);
    match (class_of_object(role, one), class_of_object(role, other)) {
        (Some(class), Some(other_class)) => {
            if class == other_class {
                is_same_by_members(comparer, class, one, other)
            } else {
                Ok(false)
            }
        }
        (None, None) => Ok(true),
        _ => Ok(false),
    }
}

/// Returns whether the members of two selections of the same class mean the same.
#[tactic(auto, using(crate::proofs::whole_trees::WholeTrees::whole_one, crate::proofs::whole_trees::WholeTrees::whole_other))]
fn is_same_by_members(
    comparer: &Comparer,
    class: Class,
    one: &Value,
    other: &Value,
) -> Result<bool, AllocError>
    requires one { IsWholeTree (view one.now) }
    requires other { IsWholeTree (view other.now) }
    requires one_object { IsObject (view one.now) }
    requires other_object { IsObject (view other.now) }
    ensures { IfOk result (λ answer. Decides answer (plain_member comparer.now.left.prefer (view comparer.now.left.tree) (view one.now) class)
        (plain_member comparer.now.right.prefer (view comparer.now.right.tree) (view other.now) class)) }
{
    // a value with a class is an object
    let Some(mut left) = PairsLeft::of(one, other) else {
        return Ok(true);
    };
    let found = left.next_differing(|pair| is_same_plain_member(comparer, class, pair))?;
    Ok(found.is_none())
}
