ghost use Rattle.std.specs.Prelude.{◌≡◌, true, map, option_and_then, option_map, if◌then◌else◌, slice_get, None, Some, IfOk};
ghost use Rattle.erd_meaning.specs.Words.{as_str, view, entry_of, has_keys, family_chosen};
ghost use Rattle.erd_meaning.specs.code.KeyOrders.{HaveDistinctKeys, IsOrder, family_keys, positioned, rising_positions, seen_keys};
ghost use Rattle.erd_meaning.specs.code.ObjectLookups.{key_among, those_of};
ghost use Rattle.erd_meaning.specs.code.RanksAmong.{is_key_among, key_at_among, rank_among, ranked_key, rising_keys_among};
ghost use Rattle.erd_meaning.specs.code.Shown.{shown};

use crate::keys::key::Key;
use crate::keys::shared_key::SharedKey;
use crate::objects::order::{Order, in_rising_order};
use crate::objects::table::ObjectTable;
use erd_tables::{Class, Family, PerFamily};
use serde_json::Value;
use std::alloc::{AllocError, Global};
use std::marker::Model;

/// The objects of a report, with the order of each family by keys. Names of selections are compared by the ranks in the orders
/// of the candidates and the parties. Contracts see the objects.
#[derive(Debug, Drop)]
pub(crate) struct RankedObjects<'a> {
    table: ObjectTable<'a>,
    orders: PerFamily<Order>,
}

impl<'a> Model for RankedObjects<'a> {
    ghost use Rattle.std.specs.Prelude.{◌≡◌, map, true};
    ghost use Rattle.erd_meaning.specs.Words.{entry_of, Family, has_keys, codes};
    ghost use Rattle.serde_json.specs.contracts.value.Value as tree_value;
    ghost use Rattle.erd_meaning.specs.code.Held.{HeldObjects};
    ghost use Rattle.erd_meaning.specs.code.KeyOrders.{IsOrder, family_keys};
    ghost use Rattle.erd_meaning.specs.code.Shown.{shown};

    ghost Value = { HeldObjects };

    ghost coded = { Prim.hlevel (codes, tree_value.the_row.coded) };

    ghost view = { λ r. r.table };

    ghost invariant = { λ r. (f : Family) → has_keys f ≡ true → IsOrder (family_keys (map shown r.table.objects) f) (entry_of r.orders f) };
}

impl<'a> RankedObjects<'a> {
    /// Returns the objects, with the order of each family by keys. No two objects of a family have one key.
    pub(crate) fn of(alloc: Global, table: ObjectTable<'a>) -> Result<RankedObjects<'a>, AllocError>
        requires distinct { HaveDistinctKeys (map shown table.objects) }
        ensures { IfOk result (λ ranked. ranked ≡ table.entry) }
    {
        let orders = PerFamily::of(|family| order_of(alloc, &table, family))?;
        Ok(RankedObjects { table, orders })
    }

    /// Returns the objects.
    pub(crate) fn table(&self) -> &ObjectTable<'a>
        ensures { result.now ≡ self.now }
    {
        &self.table
    }

    /// Returns the positions of the objects of the family in the order of their keys.
    pub(crate) fn rising(&self, family: Family) -> &[usize]
        requires keyed { has_keys family ≡ true }
        ensures { result.now ≡ rising_positions (family_keys (map shown self.now.objects) family) }
    {
        &self.orders.get(family).rising
    }

    /// Returns the rank of the object of the family at the position, if there is such an object: the number of objects of the
    /// family with lesser keys.
    pub(crate) fn rank_at(&self, family: Family, position: usize) -> Option<usize>
        requires keyed { has_keys family ≡ true }
        ensures { result ≡ option_map (λ k. rank_among (map shown self.now.objects) family k.key)
            (slice_get (those_of family (map shown self.now.objects)) position) }
    {
        self.orders.get(family).rank_at(position)
    }

    /// Returns the key of the object that a reference in a selection of the class names, with its rank. Returns `None` if
    /// the object is not one that such a selection is for, or if it has no key.
    pub(crate) fn key_referred(
        &self,
        class: Class,
        reference: &Value,
    ) -> Option<(usize, &SharedKey)>
        ensures { option_map (λ r. (r.0, r.1.now)) result ≡ option_map (ranked_key (map shown self.now.objects) (family_chosen class))
            (option_and_then (key_among (map shown self.now.objects) (family_chosen class)) (as_str (view reference.now))) }
    {
        let family = family_chosen(class);
        let index = self.table.position_in(family, reference.as_str()?)?;
        self.ranked_at(class, index)
    }

    /// Returns the key of the object at this position among those that a selection of the class may name, with its rank, if
    /// there is such an object and it has a key.
    fn ranked_at(&self, class: Class, index: usize) -> Option<(usize, &SharedKey)>
        ensures { option_map (λ r. (r.0, r.1.now)) result ≡ option_map (ranked_key (map shown self.now.objects) (family_chosen class))
            (option_and_then (λ k. k.key) (slice_get (those_of (family_chosen class) (map shown self.now.objects)) index)) }
    {
        let family = family_chosen(class);
        let key = self.table.shared_key_at(family, index)?;
        let rank = self.rank_at(family, index)?;
        Some((rank, key))
    }

    /// Returns the rank of a key among those that a selection of the class may name, if one of them is equal to it.
    pub(crate) fn rank_of(&self, class: Class, key: &Key) -> Option<usize>
        ensures { result ≡ (if is_key_among (map shown self.now.objects) (family_chosen class) key.now
            then Some (rank_among (map shown self.now.objects) (family_chosen class) (Some key.now)) else None) }
    {
        let family = family_chosen(class);
        let index = self.table.position_of_key(family, key)?;
        self.rank_at(family, index)
    }

    /// Returns the keys of the objects of the family in rising order, each with the position of its object. Selections have
    /// no keys, and stand in the order of the report.
    pub(crate) fn rising_keys(
        &self,
        alloc: Global,
        family: Family,
    ) -> Result<Vec<(Option<&Key>, usize)>, AllocError>
        ensures { IfOk result (λ rising. seen_keys rising.items ≡ rising_keys_among (map shown self.now.objects) family) }
    {
        match family {
            Family::Selection => in_rising_order(keys_of_family(alloc, &self.table, family)?),
            _ => keys_at(alloc, &self.table, family, self.rising(family)),
        }
    }
}

/// Returns the order of the objects of the family by their keys. That of the selections, which have no keys, is empty.
fn order_of(alloc: Global, objects: &ObjectTable, family: Family) -> Result<Order, AllocError>
    requires distinct { HaveDistinctKeys (map shown objects.now.objects) }
    ensures { IfOk result (λ order. has_keys family ≡ true → IsOrder (family_keys (map shown objects.now.objects) family) order) }
{
    match family {
        Family::Selection => Order::of(alloc, Vec::new(alloc)),
        _ => Order::of(alloc, keys_of_family(alloc, objects, family)?),
    }
}

/// Returns the keys of the objects of the family with their positions, in the order of the report.
fn keys_of_family<'b>(
    alloc: Global,
    objects: &'b ObjectTable,
    family: Family,
) -> Result<Vec<(Option<&'b Key>, usize)>, AllocError>
    ensures { IfOk result (λ keys. seen_keys keys.items ≡ positioned 0 (family_keys (map shown objects.now.objects) family)) }
{
    let count = objects.count(family);
    let mut keys = Vec::with_capacity(alloc, count)?;
    for index in 0..count {
        keys.push((objects.key_at(family, index), index))?;
    }
    Ok(keys)
}

/// Returns the keys of the objects of the family at the positions, each with its position.
fn keys_at<'b>(
    alloc: Global,
    objects: &'b ObjectTable,
    family: Family,
    positions: &[usize],
) -> Result<Vec<(Option<&'b Key>, usize)>, AllocError>
    ensures { IfOk result (λ keys. seen_keys keys.items ≡ map (λ i. (key_at_among (map shown objects.now.objects) family i, i)) positions.now) }
{
    let mut keys = Vec::with_capacity(alloc, positions.len())?;
    for position in positions {
        keys.push((objects.key_at(family, *position), *position))?;
    }
    Ok(keys)
}

/// Returns the family of the objects that a selection of the class is for. Only candidates and parties have selections.
pub(crate) fn family_chosen(class: Class) -> Family
    ensures { result ≡ family_chosen class }
{
    match class {
        Class::PartySelection => Family::Party,
        _ => Family::Candidate,
    }
}
