ghost use Rattle.std.specs.Prelude.{◌≡◌};
ghost use Rattle.erd_meaning.specs.Words.{Data, Preference, NameParts, IsRankedIn, family_chosen, ranked_name_cmp, name_cmp, eq_by_cmp_equiv};
ghost use Rattle.erd_meaning.specs.Words.{partial_equiv_from_equiv, eq_by_cmp, ranked_name_writes};
ghost use Rattle.erd_meaning.specs.code.RankedOrders.{ranked_name_cmp_total, equal_ranked_alike};

use crate::names::selection_name::{SelectionName, compare_numbered};
use crate::objects::ranked_objects::family_chosen;
use erd_tables::Family;
use std::cmp::Ordering;
use std::hash::{Hash, Hasher};
use std::marker::Model;

/// A name of a selection that is owned or lent.
pub trait Named {
    // The name.
    ghost name_of: { Self → NameParts };

    /// Returns the name.
    ///
    /// ```
    /// assert!(rt; Named::name(name) == name);
    /// ```
    fn name(&self) -> &SelectionName
        ensures { result.now ≡ name_of self.now };
}

impl Named for SelectionName {
    ghost name_of = { λ n. n };

    fn name(&self) -> &SelectionName {
        self
    }
}

impl<'a> Named for &'a SelectionName {
    ghost name_of = { λ n. n.now };

    fn name(&self) -> &SelectionName {
        self
    }
}

/// The name of a selection, owned or lent, with ranks of its keys. In a report, the rank of a key is the number of candidates,
/// or of parties, that have lesser keys; between two reports, the caller gives common ranks. Contracts see the name and the
/// ranks.
///
/// Two names are compared by their ranks and their other parts, so long keys take no longer. Do not compare names whose
/// ranks are of different reports with `==` or `compare`: there, equal ranks may stand for different keys.
#[derive(Debug, Drop)]
pub struct RankedName<N: Named> {
    name: N,
    ranks: Vec<usize>,
}

impl<N: Named> Model for RankedName<N> {
    ghost use Rattle.erd_meaning.specs.Words.{RankedParts};

    ghost Value = { RankedParts };

    ghost view = { λ r. record {
      name = N.name_of r.name;
      ranks = r.ranks.items;
    } };
}

impl<N: Named> RankedName<N> {
    /// Returns the name with these ranks.
    ///
    /// ```
    /// let lent = RankedName::of(name, Vec::new(alloc));
    /// assert!(rt; lent == RankedName::of(name, Vec::new(alloc)));
    /// ```
    pub fn of(name: N, ranks: Vec<usize>) -> RankedName<N>
        ensures name { result.name ≡ N.name_of name }
        ensures ranks { result.ranks ≡ ranks.items }
    {
        RankedName { name, ranks }
    }

    /// Returns the name.
    ///
    /// ```
    /// assert!(rt; write_in.name() == name);
    /// ```
    pub fn name(&self) -> &SelectionName
        ensures { result.now ≡ self.now.name }
    {
        self.name.name()
    }

    /// Returns the family of the objects whose keys are in the name. For a name without keys it may be `Family::Candidate`.
    ///
    /// ```
    /// assert_eq!(rt; ranked.family(), Family::Candidate);
    /// ```
    pub fn family(&self) -> Family
        ensures { result ≡ family_chosen self.now.name.class }
    {
        let name = self.name();
        family_chosen(name.class)
    }

    /// Returns the ranks of the keys, in the order of the keys.
    ///
    /// ```
    /// assert_eq!(rt; ranked.ranks().first(), Some(&0));
    /// ```
    pub fn ranks(&self) -> &[usize]
        ensures { result.now ≡ self.now.ranks }
    {
        &self.ranks
    }

    /// Compares the name with another, with the ranks in place of the keys. For two names of one report, this is the order
    /// of the names.
    ///
    /// ```
    /// assert_eq!(rt; write_in.compare(ranked), Ordering::Less);
    /// ```
    pub fn compare(&self, other: &RankedName<N>) -> Ordering
        ensures ranks { result ≡ ranked_name_cmp self.now other.now }
        ensures names { (π : Preference) (t : Data) → IsRankedIn π t self.now → IsRankedIn π t other.now
            → result ≡ name_cmp self.now.name other.now.name }
    {
        compare_numbered(self.name(), &self.ranks, other.name(), &other.ranks)
    }
}

impl<N: Named> PartialEq for RankedName<N> {
    ghost eq = { eq_by_cmp ranked_name_cmp };

    ghost laws = { partial_equiv_from_equiv (eq_by_cmp_equiv ranked_name_cmp_total) };

    fn eq(&self, other: &RankedName<N>) -> bool {
        self.compare(other).is_eq()
    }
}

impl<N: Named> Eq for RankedName<N> {
    ghost laws = { eq_by_cmp_equiv ranked_name_cmp_total };
}

impl<N: Named> Hash for RankedName<N> {
    ghost hash_input = { ranked_name_writes };

    ghost respects_eq = { equal_ranked_alike };

    fn hash<H: Hasher>(&self, state: &mut H) {
        self.name().hash_numbered(&self.ranks, state);
    }
}
