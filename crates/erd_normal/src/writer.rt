//! What the canonical form of a report is written from: the report, and the orders of its objects.
ghost use Rattle.std.specs.Prelude.{◌≡◌, ◌==◌, ℕ, List, [], Some, true, false, map, option_map, slice_get, IfOk};
ghost use Rattle.erd_normal.specs.Words.{option_map_or, string, Value, view, has_float, family_number, IsAccepted, IsBounded, has_keys};
ghost use Rattle.erd_normal.specs.Words.{FindsId, id_in, key_in, rank_of, contests, elections, objects, canonical_selection_id};
ghost use denote.Ref.{Bor};
ghost use Rattle.erd_tables.specs.declared.class.Family.TheVariants as family;
ghost use Rattle.erd_normal.specs.code.ElectionObjects.{objects_in_election, list_seen};
ghost use Rattle.erd_normal.specs.code.NormalTree.{normal_selection_reference};
ghost use Rattle.erd_normal.specs.code.Orders.{AreOrders, rank_named};
ghost use Rattle.erd_normal.specs.code.SelectionOrders.{rising_selections};

pub(crate) mod election_objects;
pub(crate) mod ids;
pub(crate) mod selection_orders;

use crate::writer::election_objects::election_objects;
use crate::writer::selection_orders::{SelectionOrders, selection_orders};
use erd_meaning::{PerFamily, Report};
use erd_tables::Family;
use serde_json::Value;
use std::alloc::{AllocError, Global};
use std::marker::Model;

/// The orders in which the objects of a report are written, beside those that the report lends.
#[derive(Drop)]
pub(crate) struct Orders {
    /// For each family, the positions of its objects in the order of their keys, in one list for each election. If no election
    /// holds the family, they are all in the first list.
    pub(crate) by_election: PerFamily<Vec<Vec<usize>>>,
    pub(crate) selections: SelectionOrders,
}

/// What the canonical form of a report is written from. Contracts see the report.
#[derive(Drop)]
pub(crate) struct Writer<'a> {
    pub(crate) alloc: Global,
    report: &'a Report<'a>,
    orders: &'a Orders,
}

impl<'a> Model for Writer<'a> {
    ghost use Rattle.erd_normal.specs.Words.{view as data_of, Judged, codes};
    ghost use Rattle.serde_json.specs.contracts.value.Value as tree_value;
    ghost use Rattle.erd_normal.specs.code.Orders.{AreOrders};

    ghost Value = { Judged };

    ghost coded = { Prim.hlevel (codes, tree_value.the_row.coded) };

    ghost view = { λ w. w.report.now };

    ghost invariant = { λ w. AreOrders w.report.now.prefer (data_of w.report.now.tree) w.orders.now };
}

/// Returns the orders in which the objects of a report are written.
pub(crate) fn orders_of(alloc: Global, report: &Report) -> Result<Orders, AllocError>
    requires accepted { IsAccepted report.now.prefer (view report.now.tree) }
    requires bounded { IsBounded (view report.now.tree) }
    requires whole { has_float (view report.now.tree) ≡ false }
    ensures { IfOk result (AreOrders report.now.prefer (view report.now.tree)) }
{
    Ok(Orders {
        by_election: election_objects(alloc, report)?,
        selections: selection_orders(alloc, report)?,
    })
}

impl<'a> Writer<'a> {
    /// Returns a writer of the report, whose orders these are.
    pub(crate) fn of(alloc: Global, report: &'a Report<'a>, orders: &'a Orders) -> Writer<'a>
        requires { AreOrders report.now.prefer (view report.now.tree) orders.now }
        ensures { result ≡ report.now }
    {
        Writer {
            alloc,
            report,
            orders,
        }
    }

    /// Returns the report.
    pub(crate) fn report(&self) -> &Report<'a>
        ensures { result.now ≡ self.now }
    {
        self.report
    }

    /// Returns the positions of the objects of a family that the election at a position holds, in the order of their keys. If no
    /// election holds the family, the positions of all of them are at position 0.
    pub(crate) fn rising(&self, family: Family, election: usize) -> &[usize]
        ensures { result.now ≡ map (λ o. o.0) (objects_in_election self.now.prefer (view self.now.tree) family election) }
    {
        list_at(self.orders.by_election.get(family), election)
    }

    /// Returns the object of the family at the position, if there is one.
    pub(crate) fn object(&self, family: Family, position: usize) -> Option<&'a Value>
        ensures object { option_map (λ v. view v.now) result ≡ option_map (λ o. o.value) (slice_get (objects family (view self.now.tree)) position) }
        ensures whole { (v : Bor Value) → result ≡ Some v → has_float (view v.now) ≡ false }
    {
        self.report.object(family, position)
    }

    /// Returns the election at the position, if there is one.
    pub(crate) fn election(&self, position: usize) -> Option<&'a Value>
        ensures election { option_map (λ v. view v.now) result ≡ option_map (λ e. e.value) (slice_get (elections (view self.now.tree)) position) }
        ensures whole { (v : Bor Value) → result ≡ Some v → has_float (view v.now) ≡ false }
    {
        self.report.election_at(position)
    }

    /// Returns the rank of the object of the family at the position. If it is absent or has no key, the rank is 0.
    pub(crate) fn rank_at(&self, family: Family, position: usize) -> usize
        requires keyed { has_keys family ≡ true }
        ensures { result ≡ rank_of self.now.prefer (view self.now.tree) family (key_in self.now.prefer family (view self.now.tree) position) }
    {
        match self.report.rank_at(family, position) {
            Some(rank) => rank,
            None => 0,
        }
    }

    /// Returns the rank of the object of the family that has the `@id`. If there is none, the rank is 0.
    pub(crate) fn rank_named(&self, family: Family, id: &str) -> usize
        ensures { result ≡ rank_named self.now.prefer (view self.now.tree) family id.now }
    {
        match family {
            Family::Selection => 0,
            _ => self.rank_of(family, self.report.target_of(family, id)),
        }
    }

    /// Returns the rank of the object that was found by its `@id`. If there is none of the family, the rank is 0.
    fn rank_of(&self, family: Family, found: Option<(Family, usize)>) -> usize
        requires keyed { has_keys family ≡ true }
        requires accepted { IsAccepted self.now.prefer (view self.now.tree) }
        ensures { (id : List ℕ) → FindsId (view self.now.tree) id found → result ≡ rank_named self.now.prefer (view self.now.tree) family id }
    {
        match found {
            Some((own, position)) => {
                if is_same(own, family) {
                    self.rank_at(family, position)
                } else {
                    0
                }
            }
            None => 0,
        }
    }

    /// Returns the positions of the selections of the contest at a position among them, in the order of their names.
    pub(crate) fn rising_selections(&self, contest: usize) -> &[usize]
        ensures { result.now ≡ option_map_or (λ o. rising_selections self.now.prefer (view self.now.tree) o.value)
            (slice_get (contests (view self.now.tree)) contest) [] }
    {
        list_at(&self.orders.selections.rising, contest)
    }

    /// Returns the rank of the contest of the selection that has the `@id`, and the rank of the selection there. Returns `None`
    /// if no selection has it.
    pub(crate) fn selection_ranks(&self, id: &str) -> Option<(usize, usize)>
        ensures { string (option_map_or (λ r. canonical_selection_id r.0 r.1) result [])
            ≡ normal_selection_reference self.now.prefer (view self.now.tree) (string id.now) }
    {
        match self.report.target_of(Family::Selection, id) {
            Some((found, position)) => {
                if is_same(found, Family::Selection) {
                    self.ranks_at(position)
                } else {
                    None
                }
            }
            None => None,
        }
    }

    /// Returns the rank of the contest of the selection at the position, and the rank of the selection there.
    fn ranks_at(&self, position: usize) -> Option<(usize, usize)>
        ensures { (id : List ℕ) → id_in family.Selection (view self.now.tree) position ≡ Some id
            → string (option_map_or (λ r. canonical_selection_id r.0 r.1) result [])
            ≡ normal_selection_reference self.now.prefer (view self.now.tree) (string id) }
    {
        let (contest, _) = self.report.selection_at(position)?;
        let rank = rank_in(&self.orders.selections.ranks, position)?;
        Some((self.rank_at(Family::Contest, contest), rank))
    }
}

/// Returns whether two families are the same.
fn is_same(found: Family, family: Family) -> bool
    ensures { result ≡ (family_number found == family_number family) }
{
    found == family
}

/// Returns the positions of a list, or none if the list is not there.
fn list_at(lists: &[Vec<usize>], number: usize) -> &[usize]
    ensures { result.now ≡ list_seen lists.now number }
{
    if number < lists.len() {
        lists[number].as_slice()
    } else {
        &[]
    }
}

/// Returns the rank at a position, if there is one.
fn rank_in(ranks: &[usize], position: usize) -> Option<usize>
    ensures { result ≡ slice_get ranks.now position }
{
    ranks.get(position).copied()
}
