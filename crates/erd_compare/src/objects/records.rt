ghost use Rattle.std.specs.Prelude.{◌≡◌, map, option_map, true, IfOk};
ghost use Rattle.erd_compare.specs.Words.{view, role_of_class, kind_of_member, object_record};
ghost use Rattle.erd_meaning.specs.Records.{member_of_class};
ghost use Rattle.erd_compare.specs.code.Comparing.{IsWholeTree, Decides};
ghost use Rattle.erd_compare.specs.code.DifferingNames.{AreNames};
ghost use Rattle.erd_compare.specs.code.DifferingWays.{AreWays};
ghost use Rattle.erd_compare.specs.code.LeastNames.{IsObject};
ghost use Rattle.erd_compare.specs.code.MemberPairs.{IsWholePair};
ghost use Rattle.erd_compare.specs.code.PlacedObjects.{AreSelectionsAt, IsPlaced};
ghost use Rattle.erd_compare.specs.code.PlainParts.{member_found};
ghost use Rattle.erd_compare.specs.code.SelectionMembers.{is_selections};

use crate::comparer::Comparer;
use crate::objects::differing_names::{MemberPair, PairsLeft};
use crate::objects::plain_members::is_same_plain_member;
use crate::objects::selections::is_same_selections;
use crate::objects::ways::Ways;
use erd_check::values::class_of_object;
use erd_tables::{Class, Family, MemberKind, Role, member_kind};
use serde_json::Value;
use std::alloc::AllocError;

/// An object that is compared, and its position among the objects of its role in its report.
#[derive(Clone, Copy)]
pub(crate) struct PlacedObject<'a> {
    pub(crate) value: &'a Value,
    pub(crate) index: usize,
}

/// Returns the ways in which two objects with a role differ: in their class, or else in members. If not all are wanted, the
/// first is enough.
pub(crate) fn object_ways<'a>(
    comparer: &Comparer,
    role: Role,
    one: PlacedObject<'a>,
    other: PlacedObject<'a>,
    all: bool,
) -> Result<Ways<'a>, AllocError>
    requires one { IsWholeTree (view one.value.now) }
    requires other { IsWholeTree (view other.value.now) }
    requires one_placed { IsPlaced comparer.now.left role one.index (view one.value.now) }
    requires other_placed { IsPlaced comparer.now.right role other.index (view other.value.now) }
    ensures { IfOk result (AreWays all (object_record comparer.now.left.prefer (view comparer.now.left.tree) role (view one.entry.value.now))
        (object_record comparer.now.right.prefer (view comparer.now.right.tree) role (view other.entry.value.now))) }
{
    match (
        class_of_object(role, one.value),
        class_of_object(role, other.value),
    ) {
        (None, None) => Ok(Ways::Members(Vec::new(comparer.alloc))),
        (Some(_), None) => Ok(Ways::OnlyLeft),
        (None, Some(_)) => Ok(Ways::OnlyRight),
        (Some(class), Some(other_class)) => {
            if class == other_class {
                let names = differing_members(comparer, class, one, other, all)?;
                Ok(Ways::Members(names))
            } else {
                Ok(Ways::OtherClass)
            }
        }
    }
}

/// Returns the names of the members at which two objects of the same class differ, in rising order: all of them, or only the
/// first if not all are wanted.
#[tactic(auto, using(crate::proofs::whole_trees::WholeTrees::whole_one, crate::proofs::whole_trees::WholeTrees::whole_other, crate::proofs::same_selections::PlacedSelections::pair_one, crate::proofs::same_selections::PlacedSelections::pair_other))]
fn differing_members<'a>(
    comparer: &Comparer,
    class: Class,
    one: PlacedObject<'a>,
    other: PlacedObject<'a>,
    all: bool,
) -> Result<Vec<&'a str>, AllocError>
    requires one { IsWholeTree (view one.value.now) }
    requires other { IsWholeTree (view other.value.now) }
    requires one_object { IsObject (view one.value.now) }
    requires other_object { IsObject (view other.value.now) }
    requires one_placed { IsPlaced comparer.now.left (role_of_class class) one.index (view one.value.now) }
    requires other_placed { IsPlaced comparer.now.right (role_of_class class) other.index (view other.value.now) }
    ensures { IfOk result (λ found. AreNames all (member_of_class comparer.now.left.prefer (view comparer.now.left.tree) (view one.entry.value.now) class)
        (member_of_class comparer.now.right.prefer (view comparer.now.right.tree) (view other.entry.value.now) class) (map (λ s. s.now) found.items)) }
{
    let mut found = Vec::new(comparer.alloc);
    // a value with a class is an object
    let Some(mut left) = PairsLeft::of(one.value, other.value) else {
        return Ok(found);
    };
    while let Some(name) = left.next_differing(|pair| {
        is_same_member(comparer, class, pair, one.index, other.index)
    })? {
        found.push(name)?;
        if !all {
            return Ok(found);
        }
    }
    Ok(found)
}

/// Returns whether the members with one name, of two objects of the same class at these positions, mean the same.
fn is_same_member(
    comparer: &Comparer,
    class: Class,
    pair: MemberPair,
    position: usize,
    other_position: usize,
) -> Result<bool, AllocError>
    requires whole { IsWholePair pair }
    requires one_placed { is_selections (kind_of_member class pair.name.now) ≡ true → AreSelectionsAt comparer.now.left position
        (option_map (λ v. view v.now) pair.one) }
    requires other_placed { is_selections (kind_of_member class pair.name.now) ≡ true → AreSelectionsAt comparer.now.right other_position
        (option_map (λ v. view v.now) pair.other) }
    ensures { IfOk result (λ answer. Decides answer (member_found comparer.now.left.prefer (view comparer.now.left.tree) class pair.entry.name.now
        (option_map (λ v. view v.now) pair.entry.one))
        (member_found comparer.now.right.prefer (view comparer.now.right.tree) class pair.entry.name.now (option_map (λ v. view v.now) pair.entry.other))) }
{
    if is_selections(member_kind(class, pair.name)) {
        is_same_selections(comparer, pair, position, other_position)
    } else {
        is_same_plain_member(comparer, class, pair)
    }
}

/// Returns whether a member of this kind holds selections.
fn is_selections(kind: MemberKind) -> bool
    ensures { result ≡ is_selections kind }
{
    matches!(kind, MemberKind::Keyed(Family::Selection))
}
