//! The two reports that are compared, and what they have in common.
ghost use Rattle.std.specs.Prelude.{◌≡◌, true, option_and_then, option_map, slice_get, IfOk};
ghost use Rattle.erd_compare.specs.Words.{view, Election, objects};
ghost use Rattle.erd_tables.specs.declared.class.Family.TheVariants as family;
ghost use Rattle.erd_compare.specs.code.CommonNames.{number_of_selection};
ghost use Rattle.erd_compare.specs.code.CommonRanks.{AreCommonRanks, rank_of_key};
ghost use Rattle.erd_compare.specs.code.KeyedDifferences.{IsComparable, holder_key_in, is_ranked, key_in_role, objects_in};
ghost use Rattle.erd_compare.specs.code.RankedSides.{on_side};

use crate::ranks::common_ranks::{CommonRanks, ComparedReport};
use crate::ranks::name_numbers::{NameNumbers, names_of_both};
use crate::ranks::role_objects::{election_of, rank_at};
use erd_meaning::Report;
use erd_tables::Role;
use serde_json::Value;
use std::alloc::{AllocError, Global};
use std::marker::Model;

/// Compares two reports, by the ranks of their keys and the numbers of the names of their selections. Contracts see the two
/// reports. Elsewhere, `one` and `ones` belong to the left report, and `other` and `others` to the right report.
#[derive(Drop)]
pub(crate) struct Comparer<'a> {
    pub(crate) alloc: Global,
    left: &'a Report<'a>,
    right: &'a Report<'a>,
    left_tree: &'a Value,
    right_tree: &'a Value,
    ranks: CommonRanks,
    names: NameNumbers,
}

impl<'a> Model for Comparer<'a> {
    ghost use Rattle.erd_compare.specs.Words.{codes};
    ghost use Rattle.serde_json.specs.contracts.value.Value as tree_value;
    ghost use Rattle.erd_compare.specs.code.Compared.{AreInCommon, Compared};

    ghost Value = { Compared };

    ghost coded = { Prim.hlevel (codes, tree_value.the_row.coded) };

    ghost view = { λ c. record {
      left = c.left.now;
      right = c.right.now;
    } };

    ghost invariant = { λ c. AreInCommon c.left.now c.right.now c.left_tree.now c.right_tree.now c.ranks c.names };
}

impl<'a> Comparer<'a> {
    /// Returns a comparer of two reports, with the ranks and numbers that they have in common.
    pub(crate) fn of_both(
        alloc: Global,
        left: &'a Report<'a>,
        right: &'a Report<'a>,
    ) -> Result<Comparer<'a>, AllocError>
        ensures left { IfOk result (λ comparer. comparer.left ≡ left.now) }
        ensures right { IfOk result (λ comparer. comparer.right ≡ right.now) }
    {
        let left_tree = left.tree();
        let right_tree = right.tree();
        let ranks = CommonRanks::of_both(alloc, left, right)?;
        let names = names_of_both(alloc, left, right, &ranks)?;
        Ok(Comparer {
            alloc,
            left,
            right,
            left_tree,
            right_tree,
            ranks,
            names,
        })
    }

    /// Returns the left report.
    pub(crate) fn left(&self) -> &'a Report<'a>
        ensures same { result.now ≡ self.now.left }
        ensures comparable { IsComparable self.now.left.prefer (view self.now.left.tree) }
    {
        self.left
    }

    /// Returns the right report.
    pub(crate) fn right(&self) -> &'a Report<'a>
        ensures same { result.now ≡ self.now.right }
        ensures comparable { IsComparable self.now.right.prefer (view self.now.right.tree) }
    {
        self.right
    }

    /// Returns the report on a side.
    pub(crate) fn on(&self, side: ComparedReport) -> &'a Report<'a>
        ensures same { result.now ≡ on_side side self.now.left self.now.right }
        ensures comparable { IsComparable (on_side side self.now.left self.now.right).prefer (view (on_side side self.now.left self.now.right).tree) }
    {
        match side {
            ComparedReport::Left => self.left,
            ComparedReport::Right => self.right,
        }
    }

    /// Returns the tree of the report on a side.
    fn tree_on(&self, side: ComparedReport) -> &'a Value
        ensures { result.now ≡ (on_side side self.now.left self.now.right).tree }
    {
        match side {
            ComparedReport::Left => self.left_tree,
            ComparedReport::Right => self.right_tree,
        }
    }

    /// Returns the object with a role at a position of the report on a side, if there is one.
    pub(crate) fn object_at(
        &self,
        side: ComparedReport,
        role: Role,
        position: usize,
    ) -> Option<&'a Value>
        ensures found { option_map (λ v. view v.now) result ≡ option_map (λ o. o.value)
            (slice_get (objects_in role (view (on_side side self.now.left self.now.right).tree)) position) }
        ensures comparable { IsComparable (on_side side self.now.left self.now.right).prefer (view (on_side side self.now.left self.now.right).tree) }
    {
        let report = self.on(side);
        match role {
            Role::OfFamily(family) => report.object(family, position),
            Role::Election => report.election_at(position),
            _ if position == 0 => Some(self.tree_on(side)),
            _ => None,
        }
    }

    /// Returns the common ranks of the keys of the right report with a role, in the rising order of these keys.
    pub(crate) fn common_ranks(&self, role: Role) -> &[usize]
        requires ranked { is_ranked role ≡ true }
        ensures { AreCommonRanks self.now.left self.now.right role result.now }
    {
        self.ranks.of(role)
    }

    /// Returns the common rank of the key of the object with a role at a position, if it has a key.
    pub(crate) fn rank_at(&self, side: ComparedReport, role: Role, position: usize) -> Option<usize>
        requires ranked { is_ranked role ≡ true }
        ensures { result ≡ option_map (rank_of_key self.now.left self.now.right role)
            (key_in_role (on_side side self.now.left self.now.right).prefer role (view (on_side side self.now.left self.now.right).tree) position) }
    {
        let rank = rank_at(self.on(side), role, position)?;
        self.ranks.common_rank(side, role, rank)
    }

    /// Returns the common rank of the key of the election that holds the object with a role at a position, if there is one
    /// with a key.
    pub(crate) fn holder_rank(
        &self,
        side: ComparedReport,
        role: Role,
        position: usize,
    ) -> Option<usize>
        ensures { result ≡ option_map (rank_of_key self.now.left self.now.right Election)
            (holder_key_in (on_side side self.now.left self.now.right).prefer role (view (on_side side self.now.left self.now.right).tree) position) }
    {
        let election = election_of(self.on(side), role, position)?;
        self.rank_at(side, Role::Election, election)
    }

    /// Returns the number of the name of the selection at a position, if there is such a selection and it has a name.
    pub(crate) fn name_number_at(&self, side: ComparedReport, position: usize) -> Option<usize>
        ensures { result ≡ option_and_then (λ o. number_of_selection self.now.left self.now.right side o.value)
            (slice_get (objects family.Selection (view (on_side side self.now.left self.now.right).tree)) position) }
    {
        let numbers = match side {
            ComparedReport::Left => &self.names.left,
            ComparedReport::Right => &self.names.right,
        };
        match numbers.get(position) {
            Some(number) => *number,
            None => None,
        }
    }
}
