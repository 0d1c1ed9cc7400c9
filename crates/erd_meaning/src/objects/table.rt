ghost use Rattle.std.specs.Prelude.{◌≡◌, ◌==◌, ◌<◌, ◌+◌, ◌++◌, ◌∷◌, ℕ, List, [], length, map, option_and_then, option_map, slice_get, is_some, bytes_eq, false};
ghost use Rattle.std.specs.Prelude.{true, OnOk, OnErr, IfOk, IfSome, if◌then◌else◌, Some, None, vec_len, vec_capacity, option_copied};
ghost use Rattle.erd_index.specs.Salts.{start_of};
ghost use Rattle.erd_meaning.specs.Words.{option_map_or, option_or, get_by, spare, Family, list_any, Key};
ghost use Rattle.erd_meaning.specs.code.ObjectIndexes.{IsStart, contests_before, contests_noted, is_in_contest, number_among, number_of_id, number_of_key};
ghost use Rattle.erd_meaning.specs.code.Indexed.{is_salted_id, is_salted_owned, same_owned};
ghost use Rattle.erd_meaning.specs.code.ObjectLookups.{those_of};
ghost use Rattle.erd_meaning.specs.code.ReferenceReasons.{is_known};
ghost use Rattle.erd_meaning.specs.code.ObjectWalk.{has_same_id, has_same_key, same_id};
ghost use Rattle.erd_meaning.specs.code.Shown.{shown};

use crate::keys::key::Key;
use crate::keys::shared_key::SharedKey;
use crate::keys::triple::Triple;
use crate::objects::places::FamilyPlaces;
use crate::objects::trail::{Trail, Trails};
use erd_index::{Salt, Salted};
use erd_tables::Family;
use indexmap::IndexMap;
use serde_json::Value;
use std::alloc::{AllocError, Global};
use std::fmt;
use std::marker::Model;

/// An object of a family, with its `@id`, if it has one, its key, if its family has keys, and the position of the election that
/// has it in one of its arrays, if one has.
#[derive(Debug, Drop)]
pub(crate) struct Object<'a> {
    pub(crate) family: Family,
    pub(crate) value: &'a Value,
    pub(crate) key: Option<SharedKey>,
    pub(crate) id: Option<&'a str>,
    pub(crate) election: Option<usize>,
}

/// Whether an earlier object of the same family has the same key, and whether an earlier object of any family has the same
/// `@id`.
#[derive(Drop)]
pub(crate) struct Earlier {
    pub(crate) has_key: bool,
    pub(crate) has_id: bool,
}

/// The objects of a report in the order of their places, indexed by family, by `@id` and by key. Contracts see the objects, and
/// the hasher that the salt of the indexes starts.
/// For each selection, the table has the number of contests before it. The last of these is the contest of the selection.
///
/// If several objects have the same `@id`, or several objects of a family have the same key, the indexes have the first.
#[derive(Drop)]
pub(crate) struct ObjectTable<'a> {
    objects: Vec<Object<'a>>,
    places: FamilyPlaces,
    contests_before: Vec<usize>,
    trails: Trails,
    salt: Salt,
    ids: IndexMap<Salted<&'a str>, (Family, usize)>,
    keys: IndexMap<Salted<(Family, Triple<'a>)>, usize>,
}

impl<'a> Model for ObjectTable<'a> {
    ghost use Rattle.std.specs.Prelude.{map};
    ghost use Rattle.erd_index.specs.Salts.{start_of};
    ghost use Rattle.erd_meaning.specs.Words.{get_by, codes};
    ghost use Rattle.serde_json.specs.contracts.value.Value as tree_value;
    ghost use Rattle.erd_meaning.specs.code.Held.{HeldObjects};
    ghost use Rattle.erd_meaning.specs.code.Indexed.{IsIndexed, is_salted_id, is_salted_owned};
    ghost use Rattle.erd_meaning.specs.code.ObjectIndexes.{list_of};
    ghost use Rattle.erd_meaning.specs.code.Shown.{shown};

    ghost Value = { HeldObjects };

    ghost coded = { Prim.hlevel (codes, tree_value.the_row.coded) };

    ghost view = { λ t. record {
      start = start_of t.salt;
      objects = t.objects.items;
    } };

    ghost invariant = { λ t. IsIndexed
        (map shown t.objects.items)
        (list_of t.places)
        t.contests_before.items
        (λ id. get_by (is_salted_id t.salt id) t.ids)
        (λ f key. get_by (is_salted_owned t.salt (f, key)) t.keys) };
}

impl<'a> ObjectTable<'a> {
    /// Returns a table without objects, with room for as many as are expected.
    pub(crate) fn with_capacity(
        alloc: Global,
        salt: Salt,
        capacity: usize,
    ) -> Result<ObjectTable<'a>, AllocError>
        ensures start { IfOk result (λ table. table.start ≡ start_of salt) }
        ensures objects { IfOk result (λ table. table.objects ≡ []) }
    {
        Ok(ObjectTable {
            objects: Vec::with_capacity(alloc, capacity)?,
            places: FamilyPlaces::new(alloc),
            contests_before: Vec::new(alloc),
            trails: Trails::new(alloc),
            salt,
            ids: IndexMap::new(alloc),
            keys: IndexMap::new(alloc),
        })
    }

    /// Adds an object with its key. Returns whether earlier objects have the same key or `@id`.
    pub(crate) fn push(
        &mut self,
        object: Object<'a>,
        key: Option<Triple<'a>>,
    ) -> Result<Earlier, AllocError>
        requires { key ≡ object.key }
        ensures pushed { OnOk result (self.new.objects ≡ self.old.objects ++ object.entry ∷ []) }
        ensures start { OnOk result (self.new.start ≡ self.old.start) }
        ensures has_key { IfOk result (λ earlier. earlier.has_key ≡ list_any (has_same_key (shown object.entry)) (map shown self.old.objects)) }
        ensures has_id { IfOk result (λ earlier. earlier.has_id ≡ list_any (has_same_id (shown object.entry)) (map shown self.old.objects)) }
    {
        let family = object.family;
        let number = self.places.of(family).len();
        let place = self.objects.len();
        self.objects.reserve(1)?;
        self.keys.reserve(1)?;
        self.places.reserve(family)?;
        self.contests_before.reserve(1)?;
        self.trails.push(family)?;
        let has_id = note_any_id(&mut self.ids, &self.salt, object.id, (family, number))?;
        let has_key = note_any_key(&mut self.keys, &self.salt, family, key, number);
        let contests = self.places.of(Family::Contest).len();
        note_contests(&mut self.contests_before, family, contests);
        self.places.push_reserved(family, place);
        self.objects.push_reserved(object);
        Ok(Earlier { has_key, has_id })
    }

    /// Returns the salt under which the indexes hash their keys.
    pub(crate) fn salt(&self) -> Salt
        ensures { start_of result ≡ self.now.start }
    {
        self.salt
    }

    /// Returns the trail of references through the objects of the family.
    pub(crate) fn trail(&self, family: Family) -> &Trail {
        self.trails.of(family)
    }

    /// Returns the number of objects of the family.
    pub(crate) fn count(&self, family: Family) -> usize
        ensures { result ≡ length (those_of family (map shown self.now.objects)) }
    {
        self.places.of(family).len()
    }

    /// Returns whether the selection is in the contest. Both are given by their position in their family.
    pub(crate) fn is_in_contest(&self, contest: usize, selection: usize) -> bool
        ensures { result ≡ is_in_contest (map shown self.now.objects) contest selection }
    {
        match self.contests_before.get(selection) {
            Some(before) => is_next(contest, *before),
            None => false,
        }
    }

    /// Returns the position of the contest of the selection, if there are such.
    pub(crate) fn contest_of(&self, selection: usize) -> Option<usize>
        ensures { IfSome result (λ contest. is_in_contest (map shown self.now.objects) contest selection ≡ true) }
    {
        match self.contests_before.get(selection) {
            Some(before) => before.checked_sub(1),
            None => None,
        }
    }

    /// Returns the position of the first selection that is in the contest at the position, or in a later one.
    pub(crate) fn first_selection(&self, contest: usize) -> usize
        ensures { IsStart (contests_before 0 (map shown self.now.objects)) contest result }
    {
        self.contests_before
            .partition_point(|before| *before <= contest)
    }

    /// Returns the object of the family at the position, if there is one.
    pub(crate) fn get(&self, family: Family, index: usize) -> Option<&Object<'a>>
        ensures { option_map (λ o. shown o.now) result ≡ slice_get (those_of family (map shown self.now.objects)) index }
    {
        let place = *self.places.of(family).get(index)?;
        let object = self.objects.get(place)?;
        Some(object)
    }

    /// Returns whether an object has the `@id`.
    pub(crate) fn has_id(&self, id: &str) -> bool
        ensures { result ≡ is_known (map shown self.now.objects) id.now }
    {
        let number = self.salt.text_number(id);
        self.ids.contains_key(&Salted { number, key: id })
    }

    /// Returns the key of the object of the family at the position, if there is such an object and it has a key.
    pub(crate) fn key_at(&self, family: Family, index: usize) -> Option<&Key>
        ensures { option_copied result ≡ option_and_then (λ k. k.key) (slice_get (those_of family (map shown self.now.objects)) index) }
    {
        match self.shared_key_at(family, index) {
            Some(shared) => Some(shared.key()),
            None => None,
        }
    }

    /// Returns the key of the object, as `key_at` does, in the form in which it can have more owners.
    pub(crate) fn shared_key_at(&self, family: Family, index: usize) -> Option<&SharedKey>
        ensures { option_copied result ≡ option_and_then (λ k. k.key) (slice_get (those_of family (map shown self.now.objects)) index) }
    {
        match self.get(family, index) {
            Some(object) => object.key.as_ref(),
            None => None,
        }
    }

    /// Returns the position of the election that has the object of the family at the position in one of its arrays, if there are
    /// such.
    pub(crate) fn election_of(&self, family: Family, index: usize) -> Option<usize>
        ensures { result ≡ option_and_then (λ k. k.election) (slice_get (those_of family (map shown self.now.objects)) index) }
    {
        match self.get(family, index) {
            Some(object) => object.election,
            None => None,
        }
    }

    /// Returns the position in the family of the object with the `@id`, if there is such an object and it is of the family.
    pub(crate) fn position_in(&self, family: Family, id: &str) -> Option<usize>
        ensures { result ≡ number_among (map shown self.now.objects) family id.now }
    {
        let (own, index) = self.position_of_id(id)?;
        if own == family { Some(index) } else { None }
    }

    /// Returns the position of the object of the family with the key, if there is one.
    pub(crate) fn position_of_key(&self, family: Family, key: &Key) -> Option<usize>
        ensures { result ≡ number_of_key (map shown self.now.objects) family key.now }
    {
        let key = Triple::of_key(key);
        let number = self.salt.number(&key);
        let owned = (family, key);
        self.keys.get(&Salted { number, key: owned }).copied()
    }

    /// Returns the family of the object with the `@id` and its position there, if there is such an object.
    pub(crate) fn position_of_id(&self, id: &str) -> Option<(Family, usize)>
        ensures { result ≡ number_of_id (map shown self.now.objects) id.now }
    {
        let number = self.salt.text_number(id);
        self.ids.get(&Salted { number, key: id }).copied()
    }
}

impl<'a> fmt::Debug for ObjectTable<'a> {
    fn fmt<W: fmt::Write>(&self, f: &mut fmt::Formatter<W>) -> fmt::Result {
        f.debug_list().entries(self.objects.as_slice()).finish()
    }
}

/// Adds the number of contests before an object, if the object is a selection. There must be room for it.
fn note_contests(before: &mut Vec<usize>, family: Family, contests: usize)
    requires { vec_len before.old < vec_capacity before.old }
    ensures { before.new.items ≡ before.old.items ++ contests_noted family contests }
{
    if family == Family::Selection {
        before.push_reserved(contests);
    }
}

/// Returns whether the second number is the first plus one.
fn is_next(number: usize, next: usize) -> bool
    ensures { result ≡ (next == number + 1) }
{
    number < next && next - number == 1
}

/// Adds an `@id`, if there is one, as `note_id` does. Returns `false` if there is none.
fn note_any_id<'a>(
    ids: &mut IndexMap<Salted<&'a str>, (Family, usize)>,
    salt: &Salt,
    id: Option<&'a str>,
    number: (Family, usize),
) -> Result<bool, AllocError>
    ensures known { IfOk result (λ known. known ≡ option_map_or (λ s. is_some (get_by (is_salted_id salt.now s.now) ids.old)) id.entry false) }
    ensures noted { OnOk result ((i : List ℕ) → get_by (is_salted_id salt.now i) ids.new
        ≡ option_or (get_by (is_salted_id salt.now i) ids.old) (if same_id (option_map (λ s. s.now) id.entry) (Some i) then Some number else None)) }
    ensures kept { OnErr result ((i : List ℕ) → get_by (is_salted_id salt.now i) ids.new ≡ get_by (is_salted_id salt.now i) ids.old) }
{
    match id {
        Some(id) => note_id(ids, salt, id, number),
        None => Ok(false),
    }
}

/// Adds an `@id` with the family of its object and its position there, unless the index already has the `@id`. Returns
/// whether it had it.
fn note_id<'a>(
    ids: &mut IndexMap<Salted<&'a str>, (Family, usize)>,
    salt: &Salt,
    id: &'a str,
    number: (Family, usize),
) -> Result<bool, AllocError>
    ensures known { IfOk result (λ known. known ≡ is_some (get_by (is_salted_id salt.now id.now) ids.old)) }
    ensures noted { OnOk result ((i : List ℕ) → get_by (is_salted_id salt.now i) ids.new
        ≡ option_or (get_by (is_salted_id salt.now i) ids.old) (if bytes_eq i id.now then Some number else None)) }
    ensures kept { OnErr result ((i : List ℕ) → get_by (is_salted_id salt.now i) ids.new ≡ get_by (is_salted_id salt.now i) ids.old) }
{
    let hash = salt.text_number(id);
    let id = Salted {
        number: hash,
        key: id,
    };
    if ids.contains_key(&id) {
        return Ok(true);
    }
    ids.insert(id, number)?;
    Ok(false)
}

/// Adds a key, if there is one, as `note_key` does. Returns `false` if there is none.
fn note_any_key<'a>(
    keys: &mut IndexMap<Salted<(Family, Triple<'a>)>, usize>,
    salt: &Salt,
    family: Family,
    key: Option<Triple<'a>>,
    number: usize,
) -> bool
    requires { 0 < spare keys.old }
    ensures known { result ≡ option_map_or (λ k. is_some (get_by (is_salted_owned salt.now (family, k)) keys.old)) key.entry false }
    ensures noted { (f : Family) (k : Key) → get_by (is_salted_owned salt.now (f, k)) keys.new
        ≡ option_or (get_by (is_salted_owned salt.now (f, k)) keys.old)
        (option_map_or (λ l. if same_owned (f, k) (family, l) then Some number else None) key.entry None) }
{
    match key {
        Some(key) => note_key(keys, salt, family, key, number),
        None => false,
    }
}

/// Adds a key with the position of its object in its family, unless the index already has the key. Returns whether it had
/// it. There must be room for the key.
fn note_key<'a>(
    keys: &mut IndexMap<Salted<(Family, Triple<'a>)>, usize>,
    salt: &Salt,
    family: Family,
    key: Triple<'a>,
    number: usize,
) -> bool
    requires { 0 < spare keys.old }
    ensures known { result ≡ is_some (get_by (is_salted_owned salt.now (family, key.entry)) keys.old) }
    ensures noted { (f : Family) (k : Key) → get_by (is_salted_owned salt.now (f, k)) keys.new
        ≡ option_or (get_by (is_salted_owned salt.now (f, k)) keys.old) (if same_owned (f, k) (family, key.entry) then Some number else None) }
{
    let hash = salt.number(&key);
    let owned = Salted {
        number: hash,
        key: (family, key),
    };
    if keys.contains_key(&owned) {
        return true;
    }
    match keys.insert(owned, number) {
        Ok(_) => false,
        Err(_) => unreachable!(),
    }
}
