ghost use Rattle.std.specs.Prelude.{◌≡◌, false, List, Some, length, map, option_copied, option_map, slice_get, IfOk};
ghost use Rattle.erd_meaning.specs.Words.{view, has_float, HasFittingNumbers, IsShallow, IsTree, IsAccepted, FindsId, FindsKey, FindsSelection, election_in};
ghost use Rattle.erd_meaning.specs.Words.{election_key_in, key_in, rising_keys, selection_in, selections_before, IsBounded, elections, objects};
ghost use Rattle.erd_meaning.specs.Words.{ranked_selection_in, report_start, CoversEachKey};
ghost use Rattle.erd_index.specs.Salts.{start_of};
ghost use Rattle.erd_meaning.specs.code.RanksAmong.{AllAreRanked, names_of};
ghost use Rattle.erd_meaning.specs.code.Resolved.{IsResolved};
ghost use Rattle.erd_meaning.specs.code.ResolvedElections.{AreElections};
ghost use Rattle.erd_meaning.specs.code.ResolvedIndexes.{IsSalted};
ghost use Rattle.erd_meaning.specs.code.SelectionWalk.{NumberedName};
ghost use Rattle.erd_meaning.specs.code.Shown.{shown};

pub(crate) mod accepting;
mod ranks;
pub(crate) mod reference_arrays;
pub(crate) mod reference_judge;
pub(crate) mod resolving;

use crate::keys::key::Key;
use crate::names::ranked_name::RankedName;
use crate::names::selection_name::SelectionName;
use crate::names::sought_name::SoughtName;
use crate::objects::election_table::ElectionTable;
use crate::objects::order::Order;
use crate::objects::ranked_objects::RankedObjects;
use crate::objects::table::ObjectTable;
use erd_check::values::entries_at;
use erd_index::{Salt, SaltedSet};
use erd_tables::{Family, Text};
use serde_json::Value;
use std::alloc::{AllocError, Global};
use std::marker::Model;

/// A report that is accepted under a preference: it has no faults of shape, identity, references or selections. It gives the
/// same guarantees about names and numbers as a `Shaped`. It borrows the report and owns a copy of the preference. Contracts
/// see both.
///
/// The methods identify an object by its family and its position in the family. Positions count from 0, in the order of the
/// report.
#[derive(Debug, Drop)]
pub struct Report<'a> {
    tree: &'a Value,
    prefer: Option<Text>,
    // Always one entry. It is in a vector so that a function that drops a report has little to prove. A box would not do: a
    // reference to a value that holds a box is not accepted for a shorter lifetime.
    indexes: Vec<Indexes<'a>>,
}

/// The objects of a report and the names of its selections, in the order of their places, and its elections. Each name has
/// the position of its contest with it.
#[derive(Debug, Drop)]
pub(crate) struct Indexes<'a> {
    pub(crate) objects: RankedObjects<'a>,
    pub(crate) names: SaltedSet<(usize, RankedName<SelectionName>)>,
    pub(crate) elections: Elections<'a>,
}

/// The keys of the elections of a report, and their order by these.
#[derive(Debug, Drop)]
pub(crate) struct Elections<'a> {
    pub(crate) keys: ElectionTable<'a>,
    pub(crate) order: Order,
}

impl<'a> Model for Report<'a> {
    ghost use Rattle.erd_meaning.specs.Words.{Judged, codes};
    ghost use Rattle.serde_json.specs.contracts.value.Value as tree_value;
    ghost use Rattle.erd_meaning.specs.code.ResolvedIndexes.{AreResolved};

    ghost Value = { Judged };

    ghost coded = { Prim.hlevel (codes, tree_value.the_row.coded) };

    ghost view = { λ r. record {
      tree = r.tree.now;
      prefer = r.prefer;
    } };

    ghost invariant = { λ r. AreResolved r.prefer r.tree.now r.indexes.items };
}

impl<'a> Report<'a> {
    /// Returns the report with this tree, preference and indexes.
    pub(crate) fn of(
        alloc: Global,
        tree: &'a Value,
        prefer: Option<Text>,
        indexes: Indexes<'a>,
    ) -> Result<Report<'a>, AllocError>
        requires resolved { IsResolved prefer tree.now indexes.objects.objects (names_of indexes.names.keys) }
        requires ranked { AllAreRanked (map shown indexes.objects.objects) indexes.names.keys }
        requires elections { AreElections prefer tree.now indexes.elections }
        requires salted { IsSalted (report_start prefer (view tree.now)) indexes }
        ensures tree { IfOk result (λ r. r.tree ≡ tree.now) }
        ensures prefer { IfOk result (λ r. r.prefer ≡ prefer) }
    {
        let mut held = Vec::new(alloc);
        held.push(indexes)?;
        Ok(Report {
            tree,
            prefer,
            indexes: held,
        })
    }

    fn indexes(&self) -> &Indexes<'a>
        ensures resolved { IsResolved self.now.prefer self.now.tree result.now.objects.objects (names_of result.now.names.keys) }
        ensures ranked { AllAreRanked (map shown result.now.objects.objects) result.now.names.keys }
        ensures start { result.now.objects.start ≡ report_start self.now.prefer (view self.now.tree) }
    {
        &self.indexes[0]
    }

    fn objects(&self) -> &ObjectTable<'a>
        ensures resolved { (names : List NumberedName) × IsResolved self.now.prefer self.now.tree result.now.objects names }
        ensures start { result.now.start ≡ report_start self.now.prefer (view self.now.tree) }
    {
        self.indexes().objects.table()
    }

    fn elections(&self) -> &Elections<'a>
        ensures { AreElections self.now.prefer self.now.tree result.now }
    {
        &self.indexes[0].elections
    }

    /// Returns the JSON value of the report. It is accepted under the preference, and nested at most 127 deep. The names
    /// of the members of each object in it strictly rise, each number in it is whole and fits 64 bits, and each family
    /// has fewer than 2^64 objects.
    ///
    /// ```
    /// assert!(rt; same_json(report.tree(), tree));
    /// ```
    pub fn tree(&self) -> &'a Value
        ensures tree { result.now ≡ self.now.tree }
        ensures accepted { IsAccepted self.now.prefer (view result.now) }
        ensures nests { IsShallow (view result.now) }
        ensures is_tree { IsTree (view result.now) }
        ensures whole { has_float (view result.now) ≡ false }
        ensures fits { HasFittingNumbers (view result.now) }
        ensures bounded { IsBounded (view result.now) }
    {
        self.tree
    }

    /// Returns the preference that the report was resolved under: the type of identifier that its keys follow, or `None`.
    ///
    /// ```
    /// assert!(rt; report.preference().is_none());
    /// ```
    pub fn preference(&self) -> Option<&str>
        ensures { option_copied result ≡ self.now.prefer }
    {
        match &self.prefer {
            Some(text) => Some(text.as_str()),
            None => None,
        }
    }

    /// Returns the salt under which the indexes of the report hash their keys. An index that has keys of the report is best
    /// hashed under it, or under one that is made from it (`Salt::joined`). It has no part in what a call returns.
    ///
    /// ```
    /// let mut numbers = SaltedSet::new(alloc, report.salt().joined(&report.salt()));
    /// ```
    pub fn salt(&self) -> Salt
        ensures start { start_of result ≡ report_start self.now.prefer (view self.now.tree) }
        ensures covers { CoversEachKey self.now.prefer (view self.now.tree) }
    {
        self.objects().salt()
    }

    /// Returns the election at position 0. A report has at least one (reason 9).
    ///
    /// ```
    /// assert!(rt; same_json(report.election(), report.election_at(0).ok_or("no election")?));
    /// ```
    pub fn election(&self) -> &'a Value
        ensures { option_map (λ o. o.value) (slice_get (elections (view self.now.tree)) 0) ≡ Some (view result.now) }
    {
        &entries_at(self.tree, "Election")[0]
    }

    /// Returns the number of elections.
    ///
    /// ```
    /// assert_eq!(rt; report.election_count(), 1);
    /// ```
    pub fn election_count(&self) -> usize
        ensures { result ≡ length (elections (view self.now.tree)) }
    {
        entries_at(self.tree, "Election").len()
    }

    /// Returns the election at the position, or `None` if there is none. Positions count from 0, in the order of the report.
    ///
    /// ```
    /// assert!(rt; same_json(report.election(), report.election_at(0).ok_or("no election")?));
    /// ```
    pub fn election_at(&self, index: usize) -> Option<&'a Value>
        ensures { option_map (λ v. view v.now) result ≡ option_map (λ o. o.value) (slice_get (elections (view self.now.tree)) index) }
    {
        value_at(entries_at(self.tree, "Election"), index)
    }

    /// Returns the key of the election at the position, or `None` if there is no such election or it has no external
    /// identifier. The only election of a report does not need one.
    ///
    /// ```
    /// assert!(rt; report.election_key(0).is_none());
    /// ```
    pub fn election_key(&self, index: usize) -> Option<&Key>
        ensures { option_copied result ≡ election_key_in self.now.prefer (view self.now.tree) index }
    {
        self.elections().keys.key_at(index)
    }

    /// Returns the position of the election that contains the candidate, contest or style at the position, or `None` if
    /// there is no such object. For other families it returns `None`. For the election of a selection, ask for that of
    /// its contest.
    ///
    /// ```
    /// assert_eq!(rt; report.election_of(Family::Candidate, 0), Some(0));
    /// ```
    pub fn election_of(&self, family: Family, index: usize) -> Option<usize>
        ensures { result ≡ election_in family (view self.now.tree) index }
    {
        self.objects().election_of(family, index)
    }

    /// Returns the number of objects of the family.
    ///
    /// ```
    /// assert_eq!(rt; report.count(Family::Selection), 2);
    /// ```
    pub fn count(&self, family: Family) -> usize
        ensures { result ≡ length (objects family (view self.now.tree)) }
    {
        self.objects().count(family)
    }

    /// Returns the object of the family at the position, or `None` if there is none.
    ///
    /// ```
    /// assert!(rt; report.object(Family::Candidate, 0).is_some());
    /// assert!(rt; report.object(Family::Candidate, 1).is_none());
    /// ```
    pub fn object(&self, family: Family, index: usize) -> Option<&'a Value>
        ensures { option_map (λ v. view v.now) result ≡ option_map (λ o. o.value) (slice_get (objects family (view self.now.tree)) index) }
    {
        match self.objects().get(family, index) {
            Some(object) => Some(object.value),
            None => None,
        }
    }

    /// Returns the key of the object of the family at the position, or `None` if there is no such object. Selections have no
    /// keys. Every object of another family has one (reason 12).
    ///
    /// ```
    /// let county = key(alloc, "fips", "20")?;
    /// assert_eq!(rt; report.key_at(Family::Unit, 0), Some(&county));
    /// ```
    pub fn key_at(&self, family: Family, index: usize) -> Option<&Key>
        ensures { option_copied result ≡ key_in self.now.prefer family (view self.now.tree) index }
    {
        self.objects().key_at(family, index)
    }

    /// Returns the keys of the objects of the family in rising order, each with the position of its object. They are sorted
    /// when the report is resolved.
    ///
    /// # Errors
    ///
    /// `AllocError` if out of memory.
    ///
    /// ```
    /// assert_eq!(rt; report.rising_keys(alloc, Family::Unit)?.len(), 1);
    /// ```
    pub fn rising_keys(
        &self,
        alloc: Global,
        family: Family,
    ) -> Result<Vec<(Option<&Key>, usize)>, AllocError>
        ensures { IfOk result (λ rising. map (λ p. (option_copied p.0, p.1)) rising.items ≡ rising_keys self.now.prefer (view self.now.tree) family) }
    {
        self.indexes().objects.rising_keys(alloc, family)
    }

    /// Returns the position of the object of the family with the key, or `None` if there is none. No two objects of a family
    /// have the same key (reason 13).
    ///
    /// ```
    /// assert_eq!(rt; report.find(Family::Unit, &county), Some(0));
    /// ```
    pub fn find(&self, family: Family, key: &Key) -> Option<usize>
        ensures { FindsKey self.now.prefer (view self.now.tree) family key.now result }
    {
        self.objects().position_of_key(family, key)
    }

    /// Returns the family and position of the object with the `@id`, or `None` if there is none. No two objects have
    /// the same `@id` (reason 14).
    ///
    /// ```
    /// assert_eq!(rt; report.target("k1"), Some((Family::Candidate, 0)));
    /// ```
    pub fn target(&self, id: &str) -> Option<(Family, usize)>
        ensures { FindsId (view self.now.tree) id.now result }
    {
        self.objects().position_of_id(id)
    }

    /// Returns what `target` does, for a reference to an object of the family. References often name objects in the order of
    /// earlier references, so it looks first at the two objects of the family that were named last after the one before.
    ///
    /// ```
    /// assert_eq!(rt; report.target_of(Family::Contest, "k1"), Some((Family::Candidate, 0)));
    /// ```
    pub fn target_of(&self, family: Family, id: &str) -> Option<(Family, usize)>
        ensures { FindsId (view self.now.tree) id.now result }
    {
        self.objects().position_on_trail(family, id)
    }

    /// Returns the position of the contest of the selection at the position, and the name of the selection. Returns
    /// `None` if there is no such selection.
    ///
    /// ```
    /// let (contest, name) = report.selection_at(1).ok_or("no write-in line")?;
    /// assert_eq!(rt; contest, 0);
    /// ```
    pub fn selection_at(&self, index: usize) -> Option<(usize, &SelectionName)>
        ensures { option_map (λ s. (s.0, s.1.now)) result ≡ selection_in self.now.prefer (view self.now.tree) index }
    {
        let (contest, name) = self.ranked_name_at(index)?;
        Some((contest, name.name()))
    }

    /// Returns the position of the contest of the selection at the position, and the name of the selection with the ranks of
    /// its keys. Returns `None` if there is no such selection.
    ///
    /// ```
    /// let (_, ranked) = report.ranked_name_at(0).ok_or("no selection")?;
    /// assert_eq!(rt; ranked.family(), Family::Candidate);
    /// ```
    pub fn ranked_name_at(&self, index: usize) -> Option<(usize, &RankedName<SelectionName>)>
        ensures { option_map (λ s. (s.0, s.1.now)) result ≡ ranked_selection_in self.now.prefer (view self.now.tree) index }
    {
        let (contest, name) = self.indexes().names.get_index(index)?;
        Some((*contest, name))
    }

    /// Returns the position of the first selection of the contest at the position `contest`: the number of selections in the
    /// contests before it. The other selections of the contest follow it, in the order of the contest.
    ///
    /// ```
    /// assert_eq!(rt; report.first_selection(0), 0);
    /// ```
    pub fn first_selection(&self, contest: usize) -> usize
        ensures { result ≡ selections_before (view self.now.tree) contest }
    {
        self.objects().first_selection(contest)
    }

    /// Returns the position of the selection that has the name and is in the contest at the position `contest`, or `None` if
    /// there is none. No two selections of a contest have the same name (reason 18).
    ///
    /// ```
    /// assert_eq!(rt; report.find_selection(contest, name), Some(1));
    /// ```
    pub fn find_selection(&self, contest: usize, name: &SelectionName) -> Option<usize>
        ensures { FindsSelection self.now.prefer (view self.now.tree) contest name.now result }
    {
        let indexes = self.indexes();
        let sought = SoughtName {
            objects: &indexes.objects,
            contest,
            name,
        };
        indexes.names.position(sought)
    }
}

/// Returns the value at a position, if there is one.
fn value_at(values: &[Value], index: usize) -> Option<&Value>
    ensures { option_map (λ v. view v.now) result ≡ option_map view (slice_get values.now index) }
{
    values.get(index)
}
